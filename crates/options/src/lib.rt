//! The command line of the retriever: words in, an order or the lowest fault out, and what a person then reads. What words say
//! is defined in `specs/Said.antt`, what of it counts in `specs/Written.antt`, what an order is in `specs/Order.antt`, what a
//! person reads in `specs/Advice.antt` and `specs/Hints.antt`. Its tests are in `site_tests`.
#![tactic(auto)]

mod advice;
mod asked;
mod environment;
mod fault;
mod filters;
mod given;
mod help;
mod hint;
mod homes;
mod line;
mod listed;
mod login;
mod manner;
mod matched_order;
mod meant;
mod naming;
mod order;
mod others;
mod paths;
mod proxying;
mod read;
mod request_fields;
mod retries;
mod said;
mod sought;
mod start;
mod start_page;
mod summary;
mod table;
mod trust;
mod written;

pub use crate::advice::{advice_text, no_text_advice};
pub use crate::environment::Environment;
pub use crate::fault::LineFault;
pub use crate::help::{VERSION, help_text};
pub use crate::listed::{StartList, are_quiet, cookie_file, start_list};
pub use crate::naming::PageNames;
pub use crate::order::{FilePath, Log, MAX_WORKERS, Order, Prefix, Source, Upkeep};
pub use crate::read::read_order;
pub use crate::start::with_scheme;
