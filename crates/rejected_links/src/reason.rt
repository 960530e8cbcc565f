//! Why links are rejected, in the words of Wget's log (GNU Wget manual, Recursive Retrieval Options).

use follow_filters::FollowRule;

/// Why a link is rejected. The reasons are in the order of their words.
#[derive(Clone, Copy, PartialEq, Eq, PartialOrd, Ord, Debug)]
pub enum Reason {
    /// `BLACKLIST`: a robots file, which only the run itself requests.
    Blacklist,
    /// `DOMAIN`: `-D`, `--exclude-domains`.
    Domain,
    /// `LIST`: the directories of `-I`, `-X`.
    List,
    /// `PARENT`: `-np`.
    Parent,
    /// `REGEX`: `--accept-regex`, `--reject-regex`.
    Regex,
    /// `RULES`: the file names of `-A`, `-R`.
    Rules,
    /// `SPANNEDHOST`: another host, without `-H`.
    SpannedHost,
}

impl Reason {
    ghost use Rattle.std.specs.Prelude.{◌≡◌};
    ghost use Rattle.rejected_links.specs.Reasons.{reason_of, word_of};

    /// The reason of a link that doesn't meet the rule.
    pub fn of(rule: FollowRule) -> Reason
        ensures { result ≡ reason_of rule }
    {
        match rule {
            FollowRule::RobotsFile => Reason::Blacklist,
            FollowRule::Host => Reason::SpannedHost,
            FollowRule::Parent => Reason::Parent,
            FollowRule::Domain | FollowRule::ExcludedDomain => Reason::Domain,
            FollowRule::NotIncluded | FollowRule::Excluded => Reason::List,
            FollowRule::NotAccepted | FollowRule::Rejected => Reason::Rules,
            FollowRule::ExpressionMissing | FollowRule::ExpressionFound => Reason::Regex,
        }
    }

    /// The word of the reason.
    pub fn word(self) -> &'static str
        ensures { result.now ≡ word_of self }
    {
        match self {
            Reason::Blacklist => "BLACKLIST",
            Reason::Domain => "DOMAIN",
            Reason::List => "LIST",
            Reason::Parent => "PARENT",
            Reason::Regex => "REGEX",
            Reason::Rules => "RULES",
            Reason::SpannedHost => "SPANNEDHOST",
        }
    }
}
