//! What shapes names, as the options say it (GNU Wget manual, chapters Directory Options, HTTP Options and
//! Download Options).
ghost use Rattle.std.specs.Prelude.{◌≡◌, ◌⊎◌, MatchOption, MatchResult, None, Some, codes, option_map, string_bytes};
ghost use Rattle.std.specs.List.{list_any};
ghost use Rattle.clap.specs.Words.{first_of, found_of, rows_of};
ghost use Rattle.local_names.specs.Rules.{usual_chars};
ghost use Rattle.options.specs.Naming.{chars_of, cut_by, has_endings, has_originals, is_file_name, is_unsafe, naming_by, naming_of, page_by, read_mode, with_mode, with_modes};
ghost use Rattle.options.specs.Asked.{words_refused};
ghost use Rattle.options.specs.declared.fault.LineFault.TheVariants as fault;

use crate::fault::LineFault;
use crate::given::{elements, given, is_set, number_in};
use clap::ArgMatches;
use clap::error::ErrorKind;
use follow_filters::{Element, ElementFault, Elements};
use local_names::{CharRules, LetterCase, NameRules};
use std::alloc::Global;

/// A mode of `--restrict-file-names`.
#[derive(Clone, Copy)]
pub(crate) enum Mode {
    /// No character is escaped for Windows.
    Unix,
    /// Those that Windows refuses are escaped.
    Windows,
    /// Control bytes may stay, says Wget; here they are always escaped.
    NoControl,
    /// Those beyond ASCII are escaped.
    Ascii,
    /// Paths are in small letters.
    Lowercase,
    /// Paths are in capitals.
    Uppercase,
}

// A mode as it is written.
#[tactic(auto, unfolding(crate::specs::Naming::read_mode))]
fn mode_of(text: &str) -> Option<Mode>
    ensures { result ≡ read_mode text.now }
{
    match text {
        "unix" => Some(Mode::Unix),
        "windows" => Some(Mode::Windows),
        "nocontrol" => Some(Mode::NoControl),
        "ascii" => Some(Mode::Ascii),
        "lowercase" => Some(Mode::Lowercase),
        "uppercase" => Some(Mode::Uppercase),
        _ => None,
    }
}

impl Element for Mode {
    ghost use Rattle.options.specs.Naming.{read_mode};

    ghost read_of = { read_mode };

    fn read(_alloc: Global, text: &str) -> Result<Mode, ElementFault> {
        match mode_of(text) {
            Some(mode) => Ok(mode),
            None => Err(ElementFault::Bad),
        }
    }
}

// The characters with this mode.
fn with_mode(chars: CharRules, mode: Mode) -> CharRules
    ensures { result ≡ with_mode chars mode }
{
    let mut chars = chars;
    match mode {
        Mode::Unix => chars.is_windows = false,
        Mode::Windows => chars.is_windows = true,
        Mode::NoControl => {}
        Mode::Ascii => chars.is_ascii = true,
        Mode::Lowercase => chars.letter_case = LetterCase::Lower,
        Mode::Uppercase => chars.letter_case = LetterCase::Upper,
    }
    chars
}

// The usual characters with these modes.
fn with_modes(modes: &[Mode]) -> CharRules
    ensures { result ≡ with_modes usual_chars modes.now }
{
    let mut chars = CharRules::default();
    for mode in modes {
        chars = with_mode(chars, *mode);
    }
    chars
}

// The characters that the options choose.
#[tactic(auto, unfolding(crate::specs::Naming::chars_of))]
fn chars(alloc: Global, matches: &ArgMatches) -> Result<CharRules, LineFault>
    ensures { MatchResult result
        (λ chars. chars_of (rows_of (found_of matches.now)) ≡ Some chars)
        (λ f. ((f ≡ words_refused) × (chars_of (rows_of (found_of matches.now)) ≡ None)) ⊎ (f ≡ fault.Memory)) }
{
    let refused = LineFault::Words(ErrorKind::InvalidValue);
    let modes: Elements<Mode> = elements(alloc, matches, "restrict-file-names", refused)?;
    Ok(with_modes(modes.as_slice()))
}

// How many directories of the path are left out.
#[tactic(auto, unfolding(crate::specs::Naming::cut_by))]
fn cut_dirs(matches: &ArgMatches) -> Option<usize>
    ensures { result ≡ cut_by (first_of (codes "cut-dirs") (rows_of (found_of matches.now))) }
{
    match given(matches, "cut-dirs") {
        Some(text) => Some(number_in(text)? as usize),
        None => Some(0),
    }
}

// Whether a byte leads out of a directory, or is a control byte.
fn is_unsafe(byte: u8) -> bool
    ensures { result ≡ is_unsafe byte }
{
    byte == b'/' || byte < 32 || byte == 127
}

fn has_unsafe(name: &[u8]) -> bool
    ensures { result ≡ list_any is_unsafe name.now }
{
    name.iter().any(|byte| is_unsafe(*byte))
}

// Whether this is the name of a file in its directory.
fn is_file_name(name: &str) -> bool
    ensures { result ≡ is_file_name name.now }
{
    !(name.is_empty() || name == "." || name == ".." || has_unsafe(name.as_bytes()))
}

// The name of a page whose path ends in `/`, which a value gives.
#[tactic(auto, unfolding(crate::specs::Naming::page_by))]
fn page_by(alloc: Global, value: Option<&str>) -> Result<Option<String>, LineFault>
    ensures { MatchResult result
        (λ page. page_by (option_map (λ s. s.now) value.entry) ≡ Some (option_map string_bytes page))
        (λ f. ((f ≡ words_refused) × (page_by (option_map (λ s. s.now) value.entry) ≡ None)) ⊎ (f ≡ fault.Memory)) }
{
    let Some(name) = value else {
        return Ok(None);
    };
    if !is_file_name(name) {
        return Err(LineFault::Words(ErrorKind::InvalidValue));
    }
    match String::from_str(alloc, name) {
        Ok(page) => Ok(Some(page)),
        Err(_) => Err(LineFault::Memory),
    }
}

/// How files are named.
#[derive(Drop)]
pub struct PageNames {
    /// What shapes the names.
    pub rules: NameRules,
    /// Whether they end as the kinds of bodies say.
    pub has_endings: bool,
}

// Whether names end as the kinds of bodies say.
fn has_endings(matches: &ArgMatches) -> bool
    ensures { result ≡ has_endings (rows_of (found_of matches.now)) }
{
    is_set(matches, "adjust-extension") || is_set(matches, "html-extension")
}

// Whether the bodies of files whose links change are kept beside them as they came.
fn has_originals(matches: &ArgMatches) -> bool
    ensures { result ≡ has_originals (rows_of (found_of matches.now)) }
{
    is_set(matches, "convert-links") && is_set(matches, "backup-converted")
}

/// What the options say of names. The fault is that a value can't be, or that memory ran out.
#[tactic(auto, unfolding(crate::specs::Naming::naming_of))]
pub(crate) fn names(alloc: Global, matches: &ArgMatches) -> Result<PageNames, LineFault>
    ensures { MatchResult result
        (λ names. naming_of (rows_of (found_of matches.now)) ≡ Some (naming_by names))
        (λ f. ((f ≡ words_refused) × (naming_of (rows_of (found_of matches.now)) ≡ None)) ⊎ (f ≡ fault.Memory)) }
{
    let Some(cut_dirs) = cut_dirs(matches) else {
        return Err(LineFault::Words(ErrorKind::InvalidValue));
    };
    let chars = chars(alloc, matches)?;
    let default_page = page_by(alloc, given(matches, "default-page"))?;
    let rules = NameRules {
        has_directories: !is_set(matches, "no-directories"),
        has_protocol: is_set(matches, "protocol-directories"),
        has_host: !is_set(matches, "no-host-directories"),
        cut_dirs,
        default_page,
        chars,
        has_originals: has_originals(matches),
    };
    Ok(PageNames {
        rules,
        has_endings: has_endings(matches),
    })
}
