//! Levels as they are written (GNU Wget manual, option `--level`).
ghost use Rattle.std.specs.Prelude.{◌≡◌, true, IfSome};
ghost use Rattle.follow_filters.specs.Limits.{is_in_range};
ghost use Rattle.follow_filters.specs.Levels.{number_in, limit_of_level};

use crate::limit::{Limit, MAX_LEVEL};

// The number that a text is.
fn number_in(text: &str) -> Option<u32>
    ensures { result ≡ number_in text.now }
{
    text.parse().ok()
}

fn limit_of_level(level: Option<u32>) -> Option<Limit>
    ensures value { result ≡ limit_of_level level }
    ensures in_range { IfSome result (λ limit. is_in_range limit ≡ true) }
{
    match level? {
        0 => Some(Limit::Unlimited),
        hops if hops <= MAX_LEVEL => Some(Limit::AtMost(hops)),
        _ => None,
    }
}

impl Limit {
    ghost use Rattle.std.specs.Prelude.{◌≡◌, true, IfSome};
    ghost use Rattle.follow_filters.specs.Limits.{is_in_range};
    ghost use Rattle.follow_filters.specs.Levels.{read_level};

    /// The limit that a level means: decimal digits up to 1,000,000, of which 0 is no limit, or `inf`; `None` if the
    /// text is neither. Takes no memory.
    #[tactic(auto, unfolding(crate::specs::Levels::read_level))]
    pub fn read(text: &str) -> Option<Limit>
        ensures value { result ≡ read_level text.now }
        ensures in_range { IfSome result (λ limit. is_in_range limit ≡ true) }
    {
        if text == "inf" {
            return Some(Limit::Unlimited);
        }
        if matches!(text.as_bytes(), [b'+', ..]) {
            return None;
        }
        limit_of_level(number_in(text))
    }
}
