//! The names under which pages are kept.
ghost use Rattle.std.specs.Prelude.{◌≡◌};
ghost use Rattle.address.specs.Address.{query_of};
ghost use Rattle.follow_filters.specs.Rules.{kept_name, full_name};

use address::Address;
use part_match::Text;

/// A file name, and the query after it with its `?`. As a text it is both.
#[derive(Clone, Copy)]
pub(crate) struct KeptName<'a> {
    file: &'a [u8],
    query: &'a [u8],
}

impl<'a> KeptName<'a> {
    ghost use Rattle.std.specs.Prelude.{◌≡◌};
    ghost use Rattle.follow_filters.specs.Rules.{kept_name, full_name};
    ghost use Rattle.follow_filters.specs.KeptNames.{text_of_name};

    /// The name under which a page of this address is kept.
    pub(crate) fn of(address: &'a Address) -> Self
        ensures file { result.file.now ≡ kept_name address.now }
        ensures full { text_of_name result ≡ full_name address.now }
    {
        KeptName {
            file: kept_file(address).as_bytes(),
            query: query_of(address),
        }
    }

    /// The name without its query.
    pub(crate) fn file(&self) -> &'a [u8]
        ensures { result.now ≡ self.now.file.now }
    {
        self.file
    }
}

impl Text for KeptName<'_> {
    ghost use Rattle.follow_filters.specs.KeptNames.{text_of_name};

    ghost octets = { text_of_name };

    fn split_first(self) -> Option<(u8, Self)> {
        if let [first, file @ ..] = self.file {
            return Some((*first, KeptName { file, ..self }));
        }
        let (&octet, query) = self.query.split_first()?;
        Some((octet, KeptName { query, ..self }))
    }
}

// The file name, or `index.html` if that is empty.
fn kept_file(address: &Address) -> &str
    ensures { result.now ≡ kept_name address.now }
{
    let file = address.file();
    if file.is_empty() { "index.html" } else { file }
}

// The query with its `?`, or nothing if the address has none.
fn query_of(page: &Address) -> &[u8]
    ensures { result.now ≡ query_of page.now }
{
    // An address is its origin, and after it directory, file name and query.
    let text = page.as_str().as_bytes();
    let path_query = &text[page.origin().len()..];
    &path_query[page.dir().len() + page.file().len()..]
}
