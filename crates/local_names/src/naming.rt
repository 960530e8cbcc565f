//! The names of the pages of a list.
ghost use Rattle.std.specs.Prelude.{◌≡◌, ◌↔◌, ◌<◌, ◌+◌, ◌-◌, ◌^◌, ℕ, List, [], IsTrue, IfOk, OnOk, HoldsAt, All, None, true, false, length, map, slice_index_or, string_bytes};
ghost use Rattle.std.specs.BTreeMap.{get_by_text};
ghost use Rattle.std.specs.Cmp.Lexicographic.{slice_cmp};
ghost use Rattle.std.specs.List.Sorted.{IsSorted};
ghost use Rattle.std.specs.Ordering.{nat_cmp, is_lt};
ghost use Rattle.address.specs.Address.{IsAddress};
ghost use Rattle.address.specs.AddressOrder.{IsAscending};
ghost use Rattle.local_names.specs.PlainNames.{plain_name_of};
ghost use Rattle.local_names.specs.Endings.{ended_names, stem_of, ShowKinds};
ghost use Rattle.local_names.specs.Names.{IsNaming, IsNamingBy, AreDistinct, AreApart};
ghost use Rattle.local_names.specs.LocalNames.{StaysInside, HasShortSegments, HasShortSegmentsBy, IsText, IsNoPart, LeaveOriginals};
ghost use Rattle.local_names.specs.Rules.{usual_rules};
ghost use Rattle.local_names.specs.Served.{AreServed};
ghost use Rattle.local_names.specs.inner.Taken.{lent_text, text_cmp, HasSameNames, AreLeast, IsNoted, remembered};

use crate::ending::stem_of;
use crate::free_name::first_free;
use crate::plain_name::{ended_name, plain_name_of};
use crate::rules::NameRules;
use address::Address;
use kept_bodies::BodyKind;
use std::alloc::{AllocError, Global};
use std::collections::BTreeMap;

/// Whether these pages ascend by their texts, as [`names`] asks.
pub fn ascend(pages: &[Address]) -> bool
    ensures { IsTrue result ↔ IsAscending pages.now }
{
    for i in 1..pages.len() {
        if !pages[i - 1].as_str().cmp(pages[i].as_str()).is_lt() {
            return false;
        }
    }
    true
}

// The plain names of these pages.
fn plain_names(
    alloc: Global,
    rules: &NameRules,
    pages: &[Address],
) -> Result<Vec<String>, AllocError>
    ensures names { IfOk result (λ plain. map string_bytes plain.items ≡ map (plain_name_of rules.now) pages.now) }
    ensures addresses { IfOk result (λ _. All IsAddress pages.now) }
{
    let mut plain = Vec::new(alloc);
    for page in pages {
        plain.push(plain_name_of(alloc, rules, page)?)?;
    }
    Ok(plain)
}

// The kind at this place. Of a body without a kind nothing is known.
fn kind_at(kinds: &[BodyKind], i: usize) -> BodyKind
    ensures { result ≡ slice_index_or kinds.now i BodyKind.Other }
{
    if i < kinds.len() {
        kinds[i]
    } else {
        BodyKind::Other
    }
}

// The plain names of these pages, whose bodies are of these kinds, if names have endings.
fn ended_names(
    alloc: Global,
    rules: &NameRules,
    pages: &[Address],
    kinds: &[BodyKind],
) -> Result<Vec<String>, AllocError>
    ensures names { IfOk result (λ plain. map string_bytes plain.items ≡ ended_names rules.now pages.now kinds.now) }
    ensures addresses { IfOk result (λ _. All IsAddress pages.now) }
{
    let mut plain = Vec::new(alloc);
    for (i, page) in pages.iter().enumerate() {
        plain.push(ended_name(alloc, rules, kind_at(kinds, i), page)?)?;
    }
    Ok(plain)
}

// These names in order.
fn in_order(alloc: Global, names: &[String]) -> Result<Vec<&str>, AllocError>
    ensures sorted { IfOk result (λ sorted. IsSorted text_cmp sorted.items) }
    ensures same { IfOk result (λ sorted. HasSameNames (map string_bytes names.now) (map lent_text sorted.items)) }
{
    let mut sorted = Vec::new(alloc);
    for name in names {
        sorted.push(name.as_str())?;
    }
    sorted.sort()?;
    Ok(sorted)
}

// The least of a name and these, of which each is the least so far.
fn least_with<'a>(least: &[&'a str], name: &'a str) -> &'a str
    ensures own { is_lt (slice_cmp nat_cmp name.now result.now) ≡ false }
    ensures others { 0 < length least.now → HoldsAt (λ low. is_lt (slice_cmp nat_cmp low.now result.now) ≡ false) least.now (length least.now - 1) }
{
    if least.is_empty() {
        return name;
    }
    let low = least[least.len() - 1];
    if low.cmp(name).is_lt() { low } else { name }
}

// The least of the stems of these names from each place to their end, that of the last place first.
fn least_stems(alloc: Global, has_endings: bool, names: &[String]) -> Result<Vec<&str>, AllocError>
    ensures { IfOk result (λ least. AreLeast (map (stem_of has_endings) (map string_bytes names.now)) (map lent_text least.items)) }
{
    let mut least: Vec<&str> = Vec::new(alloc);
    for i in 0..names.len() {
        let stem = stem_of(has_endings, names[names.len() - 1 - i].as_str());
        let low = least_with(&least, stem);
        least.push(low)?;
    }
    Ok(least)
}

// Whether this name orders before the stems of all plain names after this place. Then no page there may get it, since
// a plain name, with a number or without, begins with its stem.
fn is_past(least: &[&str], i: usize, name: &str) -> bool
    requires { i < length least.now }
    ensures { IsTrue result → i + 1 < length least.now → HoldsAt (λ low. is_lt (slice_cmp nat_cmp name.now low.now) ≡ true) least.now (length least.now - (i + 2)) }
{
    i + 1 >= least.len() || name.cmp(least[least.len() - (i + 2)]).is_lt()
}

// Notes that a page was given this name, which has this number: the next number is where to go on
// with the page's plain name, and 1 with the name itself.
fn remember(
    alloc: Global,
    next: &mut BTreeMap<String, u64>,
    own: &str,
    name: &str,
    number: u64,
) -> Result<(), AllocError>
    requires { number < 2 ^ 64 - 1 }
    ensures { OnOk result ((q : List ℕ) → get_by_text next.new q ≡ remembered (get_by_text next.old) own.now name.now number q) }
{
    next.insert(String::from_str(alloc, name)?, 1)?;
    if number > 0 {
        next.insert(String::from_str(alloc, own)?, number + 1)?;
    }
    Ok(())
}

// Notes the same if a page after this place may get the name.
fn note(
    alloc: Global,
    next: &mut BTreeMap<String, u64>,
    least: &[&str],
    i: usize,
    own: &str,
    name: &str,
    number: u64,
) -> Result<(), AllocError>
    requires place { i < length least.now }
    requires small { number < 2 ^ 64 - 1 }
    ensures { OnOk result (IsNoted (map lent_text least.now) i name.now (get_by_text next.old) (remembered (get_by_text next.old) own.now name.now number) (get_by_text next.new)) }
{
    if is_past(least, i, name) {
        return Ok(());
    }
    remember(alloc, next, own, name, number)
}

// Gives the pages with these plain names theirs, one after another. `next` has for each given name that may be wanted
// again, and for plain names that were wanted, a number below which none of its numbered names is free.
fn assign_each(
    alloc: Global,
    has_endings: bool,
    plain: &[String],
    sorted: &[&str],
    least: &[&str],
    next: &mut BTreeMap<String, u64>,
    names: &mut Vec<String>,
) -> Result<(), AllocError>
    requires sorted { IsSorted text_cmp sorted.now }
    requires few { length sorted.now < 2 ^ 63 }
    requires same { HasSameNames (map string_bytes plain.now) (map lent_text sorted.now) }
    requires least { AreLeast (map (stem_of has_endings) (map string_bytes plain.now)) (map lent_text least.now) }
    requires unasked { (q : List ℕ) → get_by_text next.now q ≡ None }
    requires unnamed { names.now.items ≡ [] }
    ensures { OnOk result (IsNamingBy has_endings (map string_bytes plain.now) (map string_bytes names.new.items)) }
{
    for (i, own) in plain.iter().enumerate() {
        let own = own.as_str();
        // The pages ascend, so their plain names nearly do: what would be in a directory of this name is mostly just
        // after as many names.
        let (name, number) = first_free(alloc, has_endings, sorted, next, own, i + 1)?;
        note(alloc, next, least, i, own, name.as_str(), number)?;
        names.push(name)?;
    }
    Ok(())
}

// The names of the pages with these plain names.
fn assign(alloc: Global, has_endings: bool, plain: &[String]) -> Result<Vec<String>, AllocError>
    ensures { IfOk result (λ names. IsNamingBy has_endings (map string_bytes plain.now) (map string_bytes names.items)) }
{
    let sorted = in_order(alloc, plain)?;
    let least = least_stems(alloc, has_endings, plain)?;
    let mut next = BTreeMap::new(alloc);
    let mut names = Vec::new(alloc);
    assign_each(
        alloc,
        has_endings,
        plain,
        &sorted,
        &least,
        &mut next,
        &mut names,
    )?;
    Ok(names)
}

/// The names of these pages, which ascend by their texts, each in its page's place: host and port (the
/// port unless it is the scheme's), the segments of the path, and in the last one, `index.html` if it is
/// empty, the query. Path and query are decoded once; what no name can have is escaped again. Each
/// segment is cut to [`MAX_SEGMENT`] bytes. If a name is a directory of another page's, or was given,
/// `.1`, `.2`, .. is added. A name that would begin as [`PART`](crate::PART) has its first dot escaped, and if the rules have originals,
/// a name or a directory of a path that would end as [`ORIGINAL`](crate::ORIGINAL) gets `.1` first. The rules say otherwise of some of
/// it. The error is out of memory.
///
/// By the usual rules the names of `http://h/a`, `http://h/a/%C3%A4` and `http://h:81/b?c` are `h/a.1`,
/// `h/a/ä` and `h:81/b?c`.
pub fn names(alloc: Global, rules: &NameRules, pages: &[Address]) -> Result<Vec<String>, AllocError>
    requires { IsAscending pages.now }
    ensures naming { IfOk result (λ names. IsNaming (map (plain_name_of rules.now) pages.now) (map string_bytes names.items)) }
    ensures count { IfOk result (λ names. length names.items ≡ length pages.now) }

    // The names are a function of the rules and the list: no other names are what `naming` says.
    ensures sole { IfOk result (λ names. (others : List (List ℕ)) → IsNaming (map (plain_name_of rules.now) pages.now) others → others ≡ map string_bytes names.items) }

    // One folder can hold them all, and none leads out of it.
    ensures distinct { IfOk result (λ names. AreDistinct (map string_bytes names.items)) }
    ensures apart { IfOk result (λ names. AreApart (map string_bytes names.items)) }
    ensures inside { IfOk result (λ names. All StaysInside (map string_bytes names.items)) }
    ensures short { IfOk result (λ names. All HasShortSegments (map string_bytes names.items)) }
    ensures text { IfOk result (λ names. All IsText (map string_bytes names.items)) }

    // None begins as the name of a part does.
    ensures no_part { IfOk result (λ names. All IsNoPart (map string_bytes names.items)) }

    // Each name with `.orig` after it is free if the rules have originals: it is no name, and no directory of one.
    ensures free { IfOk result (λ names. IsTrue rules.now.has_originals → LeaveOriginals (map string_bytes names.items)) }

    // By the usual rules a web server finds the pages by their paths.
    ensures served { IfOk result (λ names. rules.now ≡ usual_rules → AreServed pages.now (map string_bytes names.items)) }
{
    let plain = plain_names(alloc, rules, pages)?;
    Ok(assign(alloc, false, &plain)?)
}

/// The same for names with endings, by which a browser knows what a file is (GNU Wget manual, HTTP Options:
/// `--adjust-extension`): the name of a page whose body is HTML gets `.html` unless it ends in `.html` or `.htm`, and that of a style
/// sheet `.css` likewise; letters may be in any case. The cut of the last segment leaves room for the ending, and a number is before
/// `.html`, `.htm` or `.css`. `kinds` are those of the bodies, in the places of their pages; of a page without one nothing is known,
/// and it gets no ending.
///
/// The names of `http://h/a` and `http://h/a.html`, both HTML, are `h/a.html` and `h/a.1.html`.
pub fn names_with_endings(
    alloc: Global,
    rules: &NameRules,
    pages: &[Address],
    kinds: &[BodyKind],
) -> Result<Vec<String>, AllocError>
    requires { IsAscending pages.now }
    ensures naming { IfOk result (λ names. IsNamingBy true (ended_names rules.now pages.now kinds.now) (map string_bytes names.items)) }
    ensures count { IfOk result (λ names. length names.items ≡ length pages.now) }

    // The names are a function of the rules, the list and the kinds: no other names are what `naming` says.
    ensures sole { IfOk result (λ names. (others : List (List ℕ)) → IsNamingBy true (ended_names rules.now pages.now kinds.now) others → others ≡ map string_bytes names.items) }

    // By each name a browser knows the kind of its page.
    ensures shown { IfOk result (λ names. ShowKinds kinds.now (map string_bytes names.items)) }

    // One folder can hold them all, and none leads out of it.
    ensures distinct { IfOk result (λ names. AreDistinct (map string_bytes names.items)) }
    ensures apart { IfOk result (λ names. AreApart (map string_bytes names.items)) }
    ensures inside { IfOk result (λ names. All StaysInside (map string_bytes names.items)) }
    ensures short { IfOk result (λ names. All (HasShortSegmentsBy true) (map string_bytes names.items)) }
    ensures text { IfOk result (λ names. All IsText (map string_bytes names.items)) }

    // None begins as the name of a part does.
    ensures no_part { IfOk result (λ names. All IsNoPart (map string_bytes names.items)) }

    // Each name with `.orig` after it is free if the rules have originals: it is no name, and no directory of one.
    ensures free { IfOk result (λ names. IsTrue rules.now.has_originals → LeaveOriginals (map string_bytes names.items)) }
{
    let plain = ended_names(alloc, rules, pages, kinds)?;
    Ok(assign(alloc, true, &plain)?)
}
