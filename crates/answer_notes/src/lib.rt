//! What was received for an address or origin, so that it can be noted, written down and answered again: a whole response or
//! why there is none, and the chain of redirects of a robots file. It knows nothing of connections. The meaning is written in
//! `specs/`: `Received` what is answered by it, `RobotsAnswers` the rules that it gives, `HopChains` which chains can be. Its
//! tests are in `site_tests`.
#![tactic(auto)]

mod crawl_delay;
mod given;
mod hops;
mod noted;
mod received;
mod receiving;
mod recording;
mod robots_answer;

pub use given::Given;
pub use hops::Hops;
pub use noted::Noted;
pub use received::Received;
pub use receiving::Receiving;
pub use recording::Recording;
pub use robots_answer::MAX_REDIRECTS;
