//! What may be followed: the plan of a retrieval, and the rules that an address has to meet
//! (GNU Wget manual, chapter Following Links). What the rules mean is in `specs/Rules.antt`. Its tests are in `site_tests`.
#![tactic(auto)]

pub use crate::directory::Directory;
pub use crate::domain::Domain;
pub use crate::elements::{ElementFault, Elements};
pub use crate::limit::{Limit, MAX_LEVEL};
pub use crate::lists::Element;
pub use crate::pattern::Pattern;
pub use crate::plan::{MAX_PER_HOST, MAX_URLS, Plan};
pub use crate::rule::FollowRule;
pub use crate::starts::Starts;
pub use expressions::{Expression, ExpressionFault};

mod class;
mod directory;
mod domain;
mod element_traits;
mod elements;
mod following;
mod kept_name;
mod level;
mod limit;
mod lists;
mod parts;
mod pattern;
mod plan;
mod rule;
mod spelling;
mod starts;
mod wildcards;
