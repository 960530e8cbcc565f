//! The rules of following (GNU Wget manual, chapter Following Links).

/// Why an edge of a page is not followed. The rules are asked in this order, and the first that its
/// target does not meet is named.
#[derive(Clone, Copy, PartialEq, Eq, Debug)]
pub enum FollowRule {
    /// The path with its query is `/robots.txt`.
    RobotsFile,
    /// The host isn't the page's, and hosts aren't spanned.
    Host,
    /// Starts have the host, the directory is none of theirs nor below one, and parents aren't followed.
    Parent,
    /// No domain of the list of domains has the host.
    Domain,
    /// A domain of the list of excluded domains has the host.
    ExcludedDomain,
    /// No directory of the list of included directories has the address's directory.
    NotIncluded,
    /// A directory of the list of excluded directories has the address's directory.
    Excluded,
    /// No pattern of the accept list matches the file name.
    NotAccepted,
    /// A pattern of the reject list matches the file name.
    Rejected,
    /// The accept expression isn't found in the address.
    ExpressionMissing,
    /// The reject expression is found in the address.
    ExpressionFound,
}

/// The rules, in the order in which they are asked.
pub(crate) const RULES: [FollowRule; 11] = [
    FollowRule::RobotsFile,
    FollowRule::Host,
    FollowRule::Parent,
    FollowRule::Domain,
    FollowRule::ExcludedDomain,
    FollowRule::NotIncluded,
    FollowRule::Excluded,
    FollowRule::NotAccepted,
    FollowRule::Rejected,
    FollowRule::ExpressionMissing,
    FollowRule::ExpressionFound,
];
