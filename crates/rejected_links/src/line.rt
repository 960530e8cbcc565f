//! A line of the log: the reason, and the columns of two addresses.
ghost use Rattle.std.specs.Prelude.{◌≡◌, ◌++◌, OnOk, drop, string_bytes};
ghost use Rattle.address.specs.Address.{IsAddress, dir_of, file_of, query_of};
ghost use Rattle.rejected_links.specs.Lines.{columns, line_text, scheme_word};
ghost use Rattle.rejected_links.specs.inner.Links.{seen, IsOfAddresses};

use crate::rejected_link::RejectedLink;
use address::{Address, Scheme};
use std::alloc::AllocError;

// Wget's word for a scheme.
fn scheme_word(scheme: Scheme) -> &'static str
    ensures { result.now ≡ scheme_word scheme }
{
    match scheme {
        Scheme::Http => "SCHEME_HTTP",
        Scheme::Https => "SCHEME_HTTPS",
    }
}

// An address's path without its first slash, and its query without the `?`, which is empty if it has none.
fn path_and_query(address: &Address) -> (&str, &str)
    requires { IsAddress address.now }
    ensures path { result.0.now ≡ drop 1 (dir_of address.now ++ file_of address.now) }
    ensures query { result.1.now ≡ drop 1 (query_of address.now) }
{
    let path_query = address.path_query();
    let (path, query) = path_query.split_once('?').unwrap_or((path_query, ""));
    (path.strip_prefix('/').unwrap_or(path), query)
}

// Adds the columns of an address, each after a tab; those of parameters and fragment are empty.
fn push_columns(text: &mut String, address: &Address) -> Result<(), AllocError>
    ensures ok { OnOk result (string_bytes text.new ≡ string_bytes text.old ++ columns address.now) }
    ensures address { IsAddress address.now }
{
    let url = address.as_str();
    let scheme = scheme_word(address.scheme());
    let (host, port) = (address.host(), address.port());
    let (path, query) = path_and_query(address);
    write!(text, "\t{url}\t{scheme}\t{host}\t{port}")?;
    write!(text, "\t{path}\t\t{query}\t")
}

/// Adds the line of a link.
pub(crate) fn push_line(text: &mut String, link: &RejectedLink<'_>) -> Result<(), AllocError>
    ensures ok { OnOk result (string_bytes text.new ≡ string_bytes text.old ++ line_text (seen link.now)) }
    ensures addresses { OnOk result (IsOfAddresses link.now) }
{
    let reason = link.reason.word();
    text.push_str(reason)?;
    push_columns(text, link.target)?;
    push_columns(text, link.page)?;
    text.push('\n')
}
