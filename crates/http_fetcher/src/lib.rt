//! Sites that are asked over connections. It opens none itself: who hands in a `Connect` does. The meaning is written in
//! `specs/`: `Fetching` how an answer comes over a connection, `Chains` how an origin's rules follow from its robots file,
//! `Notes` what is noted of an ask. Its tests are in `site_tests`.
#![tactic(auto)]

mod chain;
mod http_fetcher;
mod unasked;

pub use crate::http_fetcher::HttpFetcher;
pub use crate::unasked::answer_over;
pub use connect::{Connect, ConnectFault};
