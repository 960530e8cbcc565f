//! Why words are refused.
use crate::asked::is_asking;
use address::AddressFault;
use clap::error::ErrorKind;

/// Why words are no order, or what they request. Of several faults the lowest in this order is named, except `Memory`: how much of it there is, and how large an expression, no clause says.
#[derive(Clone, Copy, PartialEq, Eq, Debug)]
pub enum LineFault {
    /// An option is unknown, is given twice, has no value or one that is out of its range; the
    /// start is missing or there are two. The kind is `clap`'s.
    Words(ErrorKind),
    /// What an option or a variable of a proxy names is no proxy: it is the origin of no http address.
    NoProxy,
    /// The proxy has a user name with a colon, or it and the password are too long.
    ProxyUser,
    /// A user name without a password, or one without a user name, a user name with a colon, or either without
    /// `--auth-no-challenge`.
    Login,
    /// What `--user-agent` says has a control character, or more than 8,192 bytes.
    Agent,
    /// What `--referer` says has.
    Referer,
    /// What `--header` says is no field, or one that isn't sent.
    Header,
    /// What requests would say has more than 32,768 bytes.
    Fields,
    /// The level is neither `inf` nor decimal digits up to 1,000,000.
    Depth,
    /// An element of the accept or reject list is no pattern.
    Pattern,
    /// An element of the lists of directories is no directory.
    Directory,
    /// An element of the lists of domains is no domain.
    Domain,
    /// The value of `--accept-regex` or `--reject-regex` is no expression, from this byte on.
    Expression(usize),
    /// An expression would cost too much: more than 1,024 states, or groups that are nested too deep.
    LargeExpression,
    /// A name in `--follow-tags` or `--ignore-tags` has an attribute that has no link.
    Tags,
    /// The start is no address.
    Start(AddressFault),
    /// The start is its origin's robots file.
    StartIsRobots,
    /// A start is https, and its proxy is on another machine and isn't trusted.
    FarProxy,
    /// There was no memory to hold the order.
    Memory,
}

impl LineFault {
    ghost use Rattle.std.specs.Prelude.{◌≡◌};
    ghost use Rattle.options.specs.Asked.{asks};

    /// Whether the words request the help, or name and version, and nothing is wrong with them. Takes no memory.
    pub fn asks(&self) -> bool
        ensures { result ≡ asks self.now }
    {
        match self {
            LineFault::Words(kind) => is_asking(*kind),
            _ => false,
        }
    }
}
