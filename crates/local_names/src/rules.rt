//! Rules of names: which directories a name has, and which characters.
ghost use Rattle.std.specs.Prelude.{◌≡◌};
ghost use Rattle.local_names.specs.PlainNames.{with_letters};
ghost use Rattle.local_names.specs.Rules.{usual_chars, usual_rules};

/// The case of the letters of a path; those of ASCII alone are changed.
#[derive(Clone, Copy, Debug, PartialEq, Eq)]
pub enum LetterCase {
    /// As the address has them.
    AsIs,
    /// Small letters.
    Lower,
    /// Capitals.
    Upper,
}

/// Which characters a name has as they are. Escapes are in capitals whatever the case; control bytes, `/` and bytes that aren't
/// part of a character in UTF-8 are always escaped.
#[derive(Clone, Copy, Debug, PartialEq, Eq)]
pub struct CharRules {
    /// Those that Windows refuses are escaped, `+` is in front of the port and `@` in front of the query.
    pub is_windows: bool,
    /// Those beyond ASCII are escaped.
    pub is_ascii: bool,
    /// The case of the letters of the path; those of host and query stay as they are.
    pub letter_case: LetterCase,
}

impl CharRules {
    // The rules for what isn't of the path.
    pub(crate) fn with_letters(self) -> CharRules
        ensures { result ≡ with_letters self }
    {
        CharRules {
            is_windows: self.is_windows,
            is_ascii: self.is_ascii,
            letter_case: LetterCase::AsIs,
        }
    }
}

/// What shapes names beside the addresses of the pages.
#[derive(Debug, Drop)]
pub struct NameRules {
    /// A name has directories. Without them it is its last segment, whatever the fields below say of them.
    pub has_directories: bool,
    /// The scheme is the first directory.
    pub has_protocol: bool,
    /// Host and port are a directory.
    pub has_host: bool,
    /// So many directories of the path are left out, the first ones. Its file name never is.
    pub cut_dirs: usize,
    /// The name of a page whose path ends in `/`; if there is none, or an empty one, `index.html`.
    pub default_page: Option<String>,
    /// Which characters a name has.
    pub chars: CharRules,
    /// Neither a name nor a directory of a path ends as [`ORIGINAL`](crate::ORIGINAL), so each name with that after it is free for the
    /// body of its page as it came.
    pub has_originals: bool,
}

/// Each character is kept as it is.
impl Default for CharRules {
    ghost is_default = { λ chars. chars ≡ usual_chars };

    fn default() -> CharRules {
        CharRules {
            is_windows: false,
            is_ascii: false,
            letter_case: LetterCase::AsIs,
        }
    }
}

/// Host, path and query of a page are its name, and it is `index.html` if its path ends in `/`.
impl Default for NameRules {
    ghost is_default = { λ rules. rules ≡ usual_rules };

    fn default() -> NameRules {
        NameRules {
            has_directories: true,
            has_protocol: false,
            has_host: true,
            cut_dirs: 0,
            default_page: None,
            chars: CharRules::default(),
            has_originals: false,
        }
    }
}
