//! Plain names: the name that a page has if nothing is in its way (GNU Wget manual, Directory
//! Options).
ghost use Rattle.std.specs.Prelude.{◌≡◌, ◌≤◌, IfOk, OnOk, map, drop, length, string_bytes};
ghost use Rattle.address.specs.Address.{IsAddress, port_of, port_text, query_of};
ghost use Rattle.percent_encoding.specs.Percent.{percent_decode};
ghost use Rattle.local_names.specs.PlainNames.{is_slash, port_mark, query_mark, host_units, dir_segments, path_units, path_segment, default_page, file_units, last_units, scheme_segment, host_segment, front_segments, plain_name_within, is_original, plain_name_with, plain_name_of};
ghost use Rattle.local_names.specs.Endings.{ending_for, ended_name};
ghost use Rattle.local_names.specs.inner.Units.{unit_text, lent_bytes, all_below};

use crate::ending::{ending_for, shows_kind};
use crate::rules::{CharRules, NameRules};
use crate::unit::{Unit, push_dir, push_marked, push_segment, push_units, push_within};
use address::Address;
use kept_bodies::BodyKind;
use percent_encoding::percent_decode;
use std::alloc::{AllocError, Global};

/// The most bytes of a segment of a name; an added number isn't counted.
pub const MAX_SEGMENT: usize = 200;

/// How the name of what a run has of its own begins, directly below the folder: of parts, which get a page's name when they are whole,
/// and of the index of a mirror. No page has a name that begins so.
pub const PART: &str = ".wgetr%";

/// What the name of a page's body as it came has after that of the page's file. No page has a name that ends so, and no directory of
/// its path either, if rules of names [have originals](NameRules::has_originals).
pub const ORIGINAL: &str = ".orig";

// The text with its escapes decoded.
fn decoded(alloc: Global, text: &[u8]) -> Result<Vec<u8>, AllocError>
    ensures { IfOk result (λ bytes. bytes.items ≡ percent_decode text.now) }
{
    let mut bytes = Vec::with_capacity(alloc, text.len())?;
    percent_decode(text).append_to(&mut bytes)?;
    Ok(bytes)
}

// What is between host and port.
fn port_mark(rules: CharRules) -> char
    ensures { result ≡ port_mark rules }
{
    if rules.is_windows { '+' } else { ':' }
}

// What is between file name and query.
fn query_mark(rules: CharRules) -> char
    ensures { result ≡ query_mark rules }
{
    if rules.is_windows { '@' } else { '?' }
}

// The port with its `:`, or nothing if it is the scheme's.
fn port_text(page: &Address) -> &[u8]
    requires { IsAddress page.now }
    ensures { result.now ≡ port_text (port_of page.now) }
{
    // An authority is its host and perhaps a port.
    &page.authority().as_bytes()[page.host().len()..]
}

// Host and port.
fn host_units(alloc: Global, rules: &NameRules, page: &Address) -> Result<Vec<Unit>, AllocError>
    requires { IsAddress page.now }
    ensures { IfOk result (λ units. map unit_text units.items ≡ host_units rules.now page.now) }
{
    let chars = rules.chars.with_letters();
    let mut units = Vec::with_capacity(alloc, page.authority().len())?;
    push_units(&mut units, chars, page.host().as_bytes())?;
    push_marked(&mut units, chars, port_mark(chars), port_text(page))?;
    Ok(units)
}

// The segments of a path's directory; empty ones are left out.
fn dir_segments<'a>(alloc: Global, dir: &'a [u8]) -> Result<Vec<&'a [u8]>, AllocError>
    ensures { IfOk result (λ segments. map lent_bytes segments.items ≡ dir_segments dir.now) }
{
    let parts = dir.split(
        |byte: &u8| -> bool
            ensures { result ≡ is_slash byte.now }
        { *byte == b'/' },
    );
    let mut segments = Vec::new(alloc);
    for segment in parts {
        if segment.is_empty() {
            continue;
        }
        segments.push(segment)?;
    }
    Ok(segments)
}

// A segment of the path: its escapes are decoded once.
fn path_units(alloc: Global, rules: &NameRules, segment: &[u8]) -> Result<Vec<Unit>, AllocError>
    ensures { IfOk result (λ units. map unit_text units.items ≡ path_units rules.now segment.now) }
{
    let text = decoded(alloc, segment)?;
    let mut units = Vec::with_capacity(alloc, text.len())?;
    push_units(&mut units, rules.chars, &text)?;
    Ok(units)
}

// The name of a page whose path ends in `/`.
fn default_page(rules: &NameRules) -> &str
    ensures { result.now ≡ default_page rules.now }
{
    match &rules.default_page {
        Some(name) if !name.is_empty() => name.as_str(),
        _ => "index.html",
    }
}

// The file name, or that of a page whose path ends in `/`.
fn file_units(alloc: Global, rules: &NameRules, file: &str) -> Result<Vec<Unit>, AllocError>
    ensures { IfOk result (λ units. map unit_text units.items ≡ file_units rules.now file.now) }
{
    if !file.is_empty() {
        return path_units(alloc, rules, file.as_bytes());
    }
    let mut units = Vec::new(alloc);
    push_units(&mut units, rules.chars, default_page(rules).as_bytes())?;
    Ok(units)
}

// The query with its `?`, or nothing.
fn query_of(page: &Address) -> &[u8]
    ensures { result.now ≡ query_of page.now }
{
    // An address is its origin, and after it directory, file name and query.
    let text = page.as_str().as_bytes();
    let path_query = &text[page.origin().len()..];
    &path_query[page.dir().len() + page.file().len()..]
}

// The last segment: the file name, and after it the query.
fn last_units(alloc: Global, rules: &NameRules, page: &Address) -> Result<Vec<Unit>, AllocError>
    ensures { IfOk result (λ units. map unit_text units.items ≡ last_units rules.now page.now) }
{
    let chars = rules.chars.with_letters();
    let query = decoded(alloc, query_of(page))?;
    let mut units = file_units(alloc, rules, page.file())?;
    push_marked(&mut units, chars, query_mark(chars), &query)?;
    Ok(units)
}

// Adds the scheme, if names have it.
fn push_scheme(
    alloc: Global,
    name: &mut String,
    rules: &NameRules,
    page: &Address,
) -> Result<(), AllocError>
    ensures { OnOk result (string_bytes name.new ≡ all_below (string_bytes name.old) (scheme_segment rules.now page.now)) }
{
    if !rules.has_protocol {
        return Ok(());
    }
    let mut units = Vec::new(alloc);
    let scheme = page.scheme().as_str().as_bytes();
    push_units(&mut units, rules.chars.with_letters(), scheme)?;
    push_segment(name, units)
}

// Adds the host, if names have it.
fn push_host(
    alloc: Global,
    name: &mut String,
    rules: &NameRules,
    page: &Address,
) -> Result<(), AllocError>
    requires { IsAddress page.now }
    ensures { OnOk result (string_bytes name.new ≡ all_below (string_bytes name.old) (host_segment rules.now page.now)) }
{
    if !rules.has_host {
        return Ok(());
    }
    push_segment(name, host_units(alloc, rules, page)?)
}

// Adds these segments of the path.
fn push_dirs(
    alloc: Global,
    name: &mut String,
    rules: &NameRules,
    dirs: &[&[u8]],
) -> Result<(), AllocError>
    ensures { OnOk result (string_bytes name.new ≡ all_below (string_bytes name.old) (map (path_segment rules.now) (map lent_bytes dirs.now))) }
{
    for dir in dirs {
        push_dir(name, rules.has_originals, path_units(alloc, rules, dir)?)?;
    }
    Ok(())
}

// Adds the directories of the path except the first ones that are cut.
fn push_uncut(
    alloc: Global,
    name: &mut String,
    rules: &NameRules,
    dir: &str,
) -> Result<(), AllocError>
    ensures { OnOk result (string_bytes name.new ≡ all_below (string_bytes name.old) (map (path_segment rules.now) (drop rules.now.cut_dirs (dir_segments dir.now)))) }
{
    let dirs = dir_segments(alloc, dir.as_bytes())?;
    push_dirs(alloc, name, rules, &dirs[rules.cut_dirs.min(dirs.len())..])
}

// Adds the directories of the name.
fn push_front(
    alloc: Global,
    name: &mut String,
    rules: &NameRules,
    page: &Address,
) -> Result<(), AllocError>
    requires { IsAddress page.now }
    ensures { OnOk result (string_bytes name.new ≡ all_below (string_bytes name.old) (front_segments rules.now page.now)) }
{
    if !rules.has_directories {
        return Ok(());
    }
    push_scheme(alloc, name, rules, page)?;
    push_host(alloc, name, rules, page)?;
    push_uncut(alloc, name, rules, page.dir())
}

// The plain name of a page, whose last segment has no more bytes than this.
fn name_within(
    alloc: Global,
    room: usize,
    rules: &NameRules,
    page: &Address,
) -> Result<String, AllocError>
    requires { 6 ≤ room }
    ensures name { IfOk result (λ name. string_bytes name ≡ plain_name_within room rules.now page.now) }
    ensures address { IfOk result (λ _. IsAddress page.now) }
{
    // A name is about as long as its address.
    let mut name = String::with_capacity(alloc, page.as_str().len())?;
    push_front(alloc, &mut name, rules, page)?;
    push_within(&mut name, room, last_units(alloc, rules, page)?)?;
    Ok(name)
}

// The same with this after it, for which the cut of the last segment leaves room.
fn name_with(
    alloc: Global,
    rules: &NameRules,
    end: &str,
    page: &Address,
) -> Result<String, AllocError>
    requires { length end.now ≤ 5 }
    ensures { IfOk result (λ name. string_bytes name ≡ plain_name_with end.now rules.now page.now) }
{
    let mut name = name_within(alloc, MAX_SEGMENT - end.len(), rules, page)?;
    name.push_str(end)?;
    Ok(name)
}

/// Whether the name ends as that of a body as it came.
pub(crate) fn is_original(name: &str) -> bool
    ensures { result ≡ is_original name.now }
{
    name.as_bytes().ends_with(ORIGINAL.as_bytes())
}

/// The name that a page has if nothing is in its way.
pub fn plain_name_of(alloc: Global, rules: &NameRules, page: &Address) -> Result<String, AllocError>
    ensures name { IfOk result (λ name. string_bytes name ≡ plain_name_of rules.now page.now) }
    ensures address { IfOk result (λ _. IsAddress page.now) }
{
    let name = name_within(alloc, MAX_SEGMENT, rules, page)?;
    if rules.has_originals && is_original(name.as_str()) {
        return name_with(alloc, rules, ".1", page);
    }
    Ok(name)
}

/// The name that a page whose body is of this kind has if nothing is in its way, and names have endings.
pub fn ended_name(
    alloc: Global,
    rules: &NameRules,
    kind: BodyKind,
    page: &Address,
) -> Result<String, AllocError>
    ensures name { IfOk result (λ name. string_bytes name ≡ ended_name rules.now kind page.now) }
    ensures address { IfOk result (λ _. IsAddress page.now) }
{
    let name = plain_name_of(alloc, rules, page)?;
    if shows_kind(kind, name.as_str()) {
        return Ok(name);
    }
    name_with(alloc, rules, ending_for(kind), page)
}
