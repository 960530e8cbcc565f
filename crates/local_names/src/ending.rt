//! Endings of names, by which a browser knows what a file is (GNU Wget manual, HTTP Options:
//! `--adjust-extension`).
ghost use Rattle.std.specs.Prelude.{◌≡◌, codes};
ghost use Rattle.local_names.specs.Endings.{ends_in, ending_for, shows_kind, ending_size, ending_of, stem_of};

use kept_bodies::BodyKind;

// Whether the name ends so, in any case of its letters.
fn ends_in(name: &str, ending: &str) -> bool
    ensures { result ≡ ends_in ending.now name.now }
{
    let start = name.len().saturating_sub(ending.len());
    name.as_bytes()[start..].eq_ignore_ascii_case(ending.as_bytes())
}

/// The ending of the name of a body of this kind; other bodies than HTML and style sheets have none.
pub(crate) fn ending_for(kind: BodyKind) -> &'static str
    ensures { result.now ≡ ending_for kind }
{
    match kind {
        BodyKind::Html => ".html",
        BodyKind::Sheet => ".css",
        BodyKind::Other => "",
    }
}

/// Whether a browser knows by the end of its name that the file is of this kind.
pub(crate) fn shows_kind(kind: BodyKind, name: &str) -> bool
    ensures { result ≡ shows_kind kind name.now }
{
    match kind {
        BodyKind::Html => ends_in(name, ".html") || ends_in(name, ".htm"),
        BodyKind::Sheet => ends_in(name, ".css"),
        BodyKind::Other => true,
    }
}

// How many bytes of a name are an ending.
fn ending_len(name: &str) -> usize
    ensures { result ≡ ending_size name.now }
{
    if ends_in(name, ".html") {
        return 5;
    }
    if ends_in(name, ".htm") || ends_in(name, ".css") {
        return 4;
    }
    0
}

/// The name without its ending, if names have endings.
pub(crate) fn stem_of(has_endings: bool, name: &str) -> &str
    ensures { result.now ≡ stem_of has_endings name.now }
{
    if !has_endings {
        return name;
    }
    &name[..name.len() - ending_len(name)]
}

/// The ending of a name, if names have endings.
pub(crate) fn ending_of(has_endings: bool, name: &str) -> &str
    ensures { result.now ≡ ending_of has_endings name.now }
{
    if !has_endings {
        return "";
    }
    &name[name.len() - ending_len(name)..]
}
