//! Which links of a page are taken (GNU Wget manual, chapter Following Links: `--relative`, `--follow-tags`, `--ignore-tags`).
ghost use Rattle.std.specs.Prelude.{◌≡◌, ◌||◌, true, false, MatchOption};
ghost use Rattle.html_links.specs.Rules.{all_links, all_rows, has_unknown, taken_by, takes, takes_place, takes_text};

use crate::links::{FoundLink, LinkPlace};
use crate::lists::{has_unknown, takes_rows, takes_sheets};
use crate::relative::is_relative;
use crate::table::ROWS;

/// Which links of a page are taken. It is the same for all pages of a run.
#[derive(Clone, Copy)]
pub struct LinkRules {
    /// Whether a page that asks that its links aren't followed has none.
    pub robots: bool,
    /// Whether only links are taken whose texts begin with neither a scheme nor `/`.
    pub relative: bool,
    /// Where links are taken from.
    pub rows: RowSet,
}

impl LinkRules {
    /// All links are taken, but none of a page that asks that they aren't followed, if `robots` says that this is honoured.
    pub fn all(robots: bool) -> LinkRules
        ensures { result ≡ all_links robots }
    {
        LinkRules {
            robots,
            relative: false,
            rows: RowSet::all(),
        }
    }

    /// Whether a link of a page is taken.
    pub fn takes(&self, link: &FoundLink) -> bool
        ensures { result ≡ takes self.now link.now }
    {
        self.rows.takes(link.place) && self.takes_text(link.text.as_bytes())
    }

    /// Whether a link of that text is taken wherever it is written, such as one of a style sheet that is a file of its own.
    pub fn takes_text(&self, text: &[u8]) -> bool
        ensures { result ≡ takes_text self.now text.now }
    {
        !self.relative || is_relative(text)
    }
}

/// Rows of the link table, and maybe the style sheets of a page: where its links are taken from.
#[derive(Clone, Copy)]
pub struct RowSet {
    rows: [bool; ROWS],
    sheets: bool,
}

impl RowSet {
    /// All rows, and the style sheets.
    #[tactic(auto, unfolding(crate::specs::Rules::all_rows, crate::specs::Links::link_table))]
    pub fn all() -> RowSet
        ensures { result ≡ all_rows }
    {
        RowSet {
            rows: [true; ROWS],
            sheets: true,
        }
    }

    /// What `followed` names, or everything if it has no name, without what `ignored` names. Names are separated by commas; case doesn't count.
    /// `element` names the rows of that element, none if the table hasn't it, `element/attribute` one row, and `style` the style sheets.
    /// Nothing, if a name has an attribute for which the table has no row whose links
    /// are followed.
    #[tactic(auto, unfolding(crate::specs::Rules::taken_by))]
    pub fn from_lists(followed: &str, ignored: &str) -> Option<RowSet>
        ensures { MatchOption result ((has_unknown followed.now || has_unknown ignored.now) ≡ true)
            (λ set. ((has_unknown followed.now || has_unknown ignored.now) ≡ false) × (set ≡ taken_by followed.now ignored.now)) }
    {
        let (followed, ignored) = (followed.as_bytes(), ignored.as_bytes());
        if has_unknown(followed) || has_unknown(ignored) {
            return None;
        }
        Some(RowSet {
            rows: takes_rows(followed, ignored),
            sheets: takes_sheets(followed, ignored),
        })
    }

    /// Whether links that are written there are taken.
    fn takes(&self, place: LinkPlace) -> bool
        ensures { result ≡ takes_place self.now place }
    {
        match place {
            LinkPlace::Row(number) => match self.rows.get(number as usize) {
                Some(taken) => *taken,
                None => false,
            },
            LinkPlace::Sheet => self.sheets,
        }
    }
}
