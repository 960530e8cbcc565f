//! What a link is written in, and which texts that can hold.
ghost use Rattle.std.specs.Prelude.{◌≡◌, false, ◌∷◌};
ghost use Rattle.std.specs.List.{list_all};
ghost use Rattle.source_sets.specs.Rewriting.{ends_well};
ghost use Rattle.refresh_links.specs.Refresh.{separates};
ghost use Rattle.refresh_links.specs.Rewriting.{is_unquoted, is_unequal};
ghost use Rattle.link_changes.specs.Changing as spec;
ghost use Rattle.link_changes.specs.Changing.{is_visible, fits_in};

/// What a link is written in.
#[derive(Clone, Copy, Debug, PartialEq, Eq)]
pub enum Form {
    /// The value of an attribute.
    Value,
    /// A style sheet, in a file or in a page.
    Sheet,
    /// A source set, such as `srcset`.
    Set,
    /// A refresh.
    Refresh,
}

// Whether a byte is visible ASCII.
fn is_visible(byte: u8) -> bool
    ensures { result ≡ is_visible byte }
{
    b' ' < byte && byte < 127
}

// Whether all bytes are.
fn has_visible(text: &[u8]) -> bool
    ensures { result ≡ list_all is_visible text.now }
{
    text.iter().all(|byte| is_visible(*byte))
}

// Whether the last byte is no comma.
fn ends_well(first: u8, others: &[u8]) -> bool
    ensures { result ≡ ends_well first others.now }
{
    let mut last = first;
    let mut left = others;
    while let [byte, rest @ ..] = left {
        last = *byte;
        left = rest;
    }
    last != b','
}

// Whether a byte is no quote.
fn is_unquoted(byte: u8) -> bool
    ensures { result ≡ is_unquoted byte }
{
    byte != b'"' && byte != b'\''
}

fn has_unquoted(text: &[u8]) -> bool
    ensures { result ≡ list_all is_unquoted text.now }
{
    text.iter().all(|byte| is_unquoted(*byte))
}

// Whether a byte is no `=`.
fn is_unequal(byte: u8) -> bool
    ensures { result ≡ is_unequal byte }
{
    byte != b'='
}

fn has_unequal(text: &[u8]) -> bool
    ensures { result ≡ list_all is_unequal text.now }
{
    text.iter().all(|byte| is_unequal(*byte))
}

// Whether a visible text with this first byte can be in a refresh: no part of it is read as `url=`, a quote or white there.
fn fits_refresh(first: u8, others: &[u8]) -> bool
    ensures { result ≡ spec.fits_refresh first others.now }
{
    is_unquoted(first)
        && has_unquoted(others)
        && first != b';'
        && first != b','
        && (first != b'u' && first != b'U' || has_unequal(others))
}

fn fits_in(form: Form, first: u8, others: &[u8]) -> bool
    ensures { result ≡ fits_in form first others.now }
{
    match form {
        Form::Value => true,
        Form::Sheet => true,
        Form::Set => first != b',' && ends_well(first, others),
        Form::Refresh => fits_refresh(first, others),
    }
}

/// Whether a form can hold a text as a link: it is read there as the same text.
pub(crate) fn fits(form: Form, text: &[u8]) -> bool
    ensures { result ≡ spec.fits form text.now }
{
    match text {
        [first, others @ ..] => {
            is_visible(*first) && has_visible(others) && fits_in(form, *first, others)
        },
        _ => false,
    }
}
