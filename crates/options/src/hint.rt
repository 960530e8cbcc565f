//! What was likely meant by words that are refused.
ghost use Rattle.std.specs.Prelude.{◌≡◌, ◌≢◌, ◌++◌, Err, codes, IfOk, OnOk, length, map, option_map, string_bytes};
ghost use Rattle.std.specs.List.{find, list_any};
ghost use Rattle.options.specs.Hints.{address_text, advice_in, first_near, foreign_text, foreign_with, form_hint, form_of, forms_text, front_hint, has_scheme, header_hint, hint_on, is_form_of, is_no_start, is_known, is_near, is_own, kind_hint, line_text, lines_hint, long_hint, name_hint, near_text, nearest, scheme_hint, several_text, start_hint, unread_hint, words_hint, place_hint};
ghost use Rattle.options.specs.inner.Said.{meaning_in};
ghost use Rattle.options.specs.inner.Table.{instead_in, row_in};
ghost use Rattle.address.specs.declared.fault.AddressFault.TheVariants as address_fault;

use crate::fault::LineFault;
use crate::login::typed;
use crate::meant::{fronts, long_name, meant};
use crate::said::{Meaning, named, sayings};
use crate::table::{Instead, Row, insteads, option_rows, wget_forms};
use crate::written::{first_unread, starts, value_in};
use address::{Address, AddressFault};
use clap::error::ErrorKind;
use requests::bad_line;
use std::alloc::{AllocError, Global};
use strsim::osa_distance;

// What is before an equals sign.
fn form_of(word: &str) -> &str
    ensures { result.now ≡ form_of word.now }
{
    match word.split_once('=') {
        Some((form, _)) => form,
        None => word,
    }
}

// Whether this is the form of an option of Wget.
fn is_form_of(form: &str, option: &str) -> bool
    ensures { result ≡ is_form_of form.now option.now }
{
    form == option || (option.len() < 4 && form.as_bytes().starts_with(option.as_bytes()))
}

// Whether an option means something by its name alone, or waits for its value.
fn is_known(meaning: Meaning<&str>) -> bool
    ensures { result ≡ is_known (meaning_in meaning.entry) }
{
    match meaning {
        Meaning::Means(_, _) | Meaning::Waits(_) => true,
        Meaning::Unknown => false,
    }
}

// Whether this is the form of one of these options of Wget.
fn is_foreign(form: &str, options: &[&'static str]) -> bool
    ensures { result ≡ list_any (λ option. is_form_of form.now option.now) options.now }
{
    options.iter().any(|option| is_form_of(form, option))
}

// Whether the option's long form begins with this name, or is as many edits away from it at most.
fn is_near(
    alloc: Global,
    name: &str,
    row: &Row<&'static str>,
    most: usize,
) -> Result<bool, AllocError>
    ensures { IfOk result (λ near. near ≡ is_near most name.now (row_in row.now)) }
{
    if name.is_empty() || row.name == row.short {
        return Ok(false);
    }
    if row.name.as_bytes().starts_with(name.as_bytes()) {
        return Ok(true);
    }
    Ok(osa_distance(alloc, name, row.name)? <= most)
}

// The first of these options that is as near to the name.
fn first_near(
    alloc: Global,
    name: &str,
    rows: &[Row<&'static str>],
    most: usize,
) -> Result<Option<&'static str>, AllocError>
    ensures { IfOk result (λ found. option_map (λ name. name.now) found ≡ first_near most name.now (map row_in rows.now)) }
{
    for row in rows {
        if is_near(alloc, name, row, most)? {
            return Ok(Some(row.name));
        }
    }
    Ok(None)
}

// The option of these that is nearest to the name: it begins with that, or is one edit or two away.
fn nearest(
    alloc: Global,
    name: &str,
    rows: &[Row<&'static str>],
) -> Result<Option<&'static str>, AllocError>
    ensures { IfOk result (λ found. option_map (λ name. name.now) found ≡ nearest name.now (map row_in rows.now)) }
{
    if let Some(found) = first_near(alloc, name, rows, 0)? {
        return Ok(Some(found));
    }
    if let Some(found) = first_near(alloc, name, rows, 1)? {
        return Ok(Some(found));
    }
    first_near(alloc, name, rows, 2)
}

// What is said of a form of which this may have been meant.
fn meant_text(alloc: Global, form: &str, name: &str) -> Result<String, AllocError>
    ensures { IfOk result (λ text. string_bytes text ≡ codes ": " ++ form.now ++ codes " (did you mean --" ++ name.now ++ codes "?)") }
{
    format!(in alloc; ": {form} (did you mean --{name}?)")
}

// What is said of a form that isn't known: what may have been meant by it.
fn near_text(alloc: Global, form: &str, meant: Option<&str>) -> Result<String, AllocError>
    ensures { IfOk result (λ text. string_bytes text ≡ near_text form.now (option_map (λ name. name.now) meant.entry)) }
{
    match meant {
        Some(name) => meant_text(alloc, form, name),
        None => format!(in alloc; ": {form}"),
    }
}

// What is said of a long form that is no front.
fn name_hint(alloc: Global, form: &str, name: &str) -> Result<String, AllocError>
    ensures { IfOk result (λ text. string_bytes text ≡ name_hint form.now name.now) }
{
    near_text(alloc, form, nearest(alloc, name, option_rows())?)
}

// Adds these forms, each after a space.
fn push_forms(text: &mut String, forms: &[&'static str]) -> Result<(), AllocError>
    ensures ok { OnOk result (string_bytes text.new ≡ string_bytes text.old ++ forms_text (map (λ form. form.now) forms.now)) }
{
    for form in forms {
        text.push_str(" ")?;
        text.push_str(form)?;
    }
    Ok(())
}

// What is said of a front of several forms.
fn several_text(alloc: Global, form: &str, forms: &[&'static str]) -> Result<String, AllocError>
    ensures { IfOk result (λ text. string_bytes text ≡ several_text form.now (map (λ form. form.now) forms.now)) }
{
    let mut text = String::from_str(alloc, ": ")?;
    text.push_str(form)?;
    text.push_str(" (the front of")?;
    push_forms(&mut text, forms)?;
    text.push_str(")")?;
    Ok(text)
}

// What is said of a long form that no option has: the forms of which it is the front, or what may have been meant.
fn front_hint(alloc: Global, form: &str, name: &str) -> Result<String, AllocError>
    ensures { IfOk result (λ text. string_bytes text ≡ front_hint form.now name.now) }
{
    let forms = fronts(alloc, form)?;
    if forms.is_empty() {
        return name_hint(alloc, form, name);
    }
    several_text(alloc, form, forms.as_slice())
}

// What is said of a form that isn't one of Wget's alone: nothing, unless it is a long form that no option has.
fn long_hint(alloc: Global, form: &str, name: Option<&str>) -> Result<String, AllocError>
    ensures { IfOk result (λ text. string_bytes text ≡ long_hint form.now (option_map (λ name. name.now) name.entry)) }
{
    match name {
        Some(name) if !name.is_empty() => front_hint(alloc, form, name),
        _ => Ok(String::new(alloc)),
    }
}

// What to do in place of the first of these options that has the form.
fn advice_in(form: &str, rows: &[Instead<&'static str>]) -> Option<&'static str>
    ensures { option_map (λ advice. advice.now) result ≡ advice_in form.now (map instead_in rows.now) }
{
    for row in rows {
        if is_form_of(form, row.form) {
            return Some(row.advice);
        }
    }
    None
}

// What is said of a form of Wget's for which there is something.
fn advised_text(alloc: Global, form: &str, advice: &str) -> Result<String, AllocError>
    ensures { IfOk result (λ text. string_bytes text ≡ codes ": " ++ form.now ++ codes " (an option of Wget that wgetr doesn't have: " ++ advice.now ++ codes ")") }
{
    format!(in alloc; ": {form} (an option of Wget that wgetr doesn't have: {advice})")
}

// What is said of a form of Wget's for which there is nothing.
fn bare_text(alloc: Global, form: &str) -> Result<String, AllocError>
    ensures { IfOk result (λ text. string_bytes text ≡ codes ": " ++ form.now ++ codes " (an option of Wget that wgetr doesn't have)") }
{
    format!(in alloc; ": {form} (an option of Wget that wgetr doesn't have)")
}

// What is said of a form of Wget's, with what to do instead, if there is something.
fn foreign_with(alloc: Global, form: &str, advice: Option<&str>) -> Result<String, AllocError>
    ensures { IfOk result (λ text. string_bytes text ≡ foreign_with form.now (option_map (λ a. a.now) advice.entry)) }
{
    match advice {
        Some(advice) => advised_text(alloc, form, advice),
        None => bare_text(alloc, form),
    }
}

// The hint on a form that means this one of Wget's.
fn foreign_text(alloc: Global, form: &str, whole: &str) -> Result<String, AllocError>
    ensures { IfOk result (λ text. string_bytes text ≡ foreign_text form.now whole.now) }
{
    foreign_with(alloc, form, advice_in(whole, insteads()))
}

// Whether this is the long form of an option, or of its opposite.
fn is_own(form: &str) -> bool
    ensures { result ≡ is_own form.now }
{
    match long_name(form) {
        Some(name) => is_known(named(name, None, option_rows())),
        None => false,
    }
}

// The hint on a form: none if an option has it.
fn form_hint(alloc: Global, form: &str) -> Result<String, AllocError>
    ensures { IfOk result (λ text. string_bytes text ≡ form_hint form.now) }
{
    let whole = meant(form);
    if is_own(whole) {
        return Ok(String::new(alloc));
    }
    if is_foreign(whole, wget_forms()) {
        return foreign_text(alloc, form, whole);
    }
    long_hint(alloc, form, long_name(form))
}

// What is said of the first word that isn't read.
fn unread_hint(alloc: Global, unread: Option<&str>) -> Result<String, AllocError>
    ensures { IfOk result (λ text. string_bytes text ≡ unread_hint (option_map (λ word. word.now) unread.entry)) }
{
    match unread {
        Some(word) => form_hint(alloc, form_of(word)),
        None => Ok(String::new(alloc)),
    }
}

// What is said of words.
fn words_hint(alloc: Global, words: &[&str]) -> Result<String, AllocError>
    ensures { IfOk result (λ text. string_bytes text ≡ words_hint (map (λ word. word.now) words.now)) }
{
    let said = sayings(alloc, words)?;
    unread_hint(alloc, first_unread(&said))
}

// Whether the text begins with a scheme and two slashes.
fn has_scheme(text: &str) -> bool
    ensures { result ≡ has_scheme text.now }
{
    match text.split_once(':') {
        Some((_, behind)) => behind.as_bytes().starts_with(b"//"),
        None => false,
    }
}

// What is said of an address that may have been meant.
fn address_text(alloc: Global, meant: Result<Address, AddressFault>) -> Result<String, AllocError>
    ensures { IfOk result (λ text. (meant ≢ Err address_fault.Memory) × (string_bytes text ≡ address_text meant)) }
{
    match meant {
        Ok(address) => {
            let shown = address.as_str();
            format!(in alloc; " (did you mean {shown}?)")
        }
        Err(AddressFault::Memory) => Err(AllocError),
        Err(_) => Ok(String::new(alloc)),
    }
}

// The hint on a start that is no address: it would be one after `http://`.
fn scheme_hint(alloc: Global, start: &str) -> Result<String, AllocError>
    ensures { IfOk result (λ text. string_bytes text ≡ scheme_hint start.now) }
{
    if has_scheme(start) {
        return Ok(String::new(alloc));
    }
    let full = format!(in alloc; "http://{start}")?;
    address_text(alloc, Address::read(alloc, full.as_str()))
}

// Whether a start is no address, neither http nor https.
fn is_no_start(alloc: Global, start: &str) -> Result<bool, AllocError>
    ensures { IfOk result (λ wrong. wrong ≡ is_no_start start.now) }
{
    let text = typed(alloc, start)?;
    match Address::read_either(alloc, text.as_str()) {
        Ok(_address) => Ok(false),
        Err(AddressFault::Memory) => Err(AllocError),
        Err(_) => Ok(true),
    }
}

// The first of these starts that is no address.
fn first_wrong<'a>(alloc: Global, starts: &[&'a str]) -> Result<Option<&'a str>, AllocError>
    ensures { IfOk result (λ wrong. option_map (λ start. start.now) wrong ≡ find is_no_start (map (λ start. start.now) starts.now)) }
{
    for start in starts {
        if is_no_start(alloc, start)? {
            return Ok(Some(*start));
        }
    }
    Ok(None)
}

// What is said of the first start of words that is no address.
fn start_hint(alloc: Global, words: &[&str]) -> Result<String, AllocError>
    ensures { IfOk result (λ text. string_bytes text ≡ start_hint (map (λ word. word.now) words.now)) }
{
    let said = sayings(alloc, words)?;
    let starts = starts(alloc, &said)?;
    let wrong = first_wrong(alloc, &starts)?;
    scheme_hint(alloc, wrong.unwrap_or(""))
}

// What is said of words that are refused for this kind.
fn kind_hint(alloc: Global, kind: ErrorKind, words: &[&str]) -> Result<String, AllocError>
    ensures { IfOk result (λ text. string_bytes text ≡ kind_hint kind (map (λ word. word.now) words.now)) }
{
    match kind {
        ErrorKind::UnknownArgument | ErrorKind::InvalidValue => words_hint(alloc, words),
        _ => Ok(String::new(alloc)),
    }
}

// What is said of a line that is no field.
fn line_text(alloc: Global, line: Option<&str>) -> Result<String, AllocError>
    ensures { IfOk result (λ text. string_bytes text ≡ line_text (option_map (λ l. l.now) line.entry)) }
{
    match line {
        Some(line) => format!(in alloc; ": {line}"),
        None => Ok(String::new(alloc)),
    }
}

// What is said of lines with a NUL between them: which is the first that is no field.
fn lines_hint(alloc: Global, lines: &str) -> Result<String, AllocError>
    ensures { IfOk result (λ text. string_bytes text ≡ lines_hint lines.now) }
{
    line_text(alloc, bad_line(alloc, lines)?)
}

// What is said of the lines of `--header`.
fn header_hint(alloc: Global, words: &[&str]) -> Result<String, AllocError>
    ensures { IfOk result (λ text. string_bytes text ≡ header_hint (map (λ word. word.now) words.now)) }
{
    let said = sayings(alloc, words)?;
    match value_in(alloc, "header", true, &said)? {
        Some(lines) => lines_hint(alloc, lines.as_str()),
        None => Ok(String::new(alloc)),
    }
}

// The place at which an expression goes wrong: this many bytes before it are good.
fn place_hint(alloc: Global, at: usize) -> Result<String, AllocError>
    ensures { IfOk result (λ text. string_bytes text ≡ place_hint at) }
{
    format!(in alloc; ", at offset {at}")
}

/// What was likely meant by words that are no order, for example ` (did you mean http://h/?)`; empty if nothing is known.
pub(crate) fn hint_on(alloc: Global, fault: LineFault, words: &[&str]) -> Result<String, AllocError>
    ensures { IfOk result (λ text. string_bytes text ≡ hint_on fault (map (λ word. word.now) words.now)) }
{
    match fault {
        LineFault::Words(kind) => kind_hint(alloc, kind, words),
        LineFault::Start(AddressFault::NotUrl | AddressFault::NotHttp) => start_hint(alloc, words),
        LineFault::Header => header_hint(alloc, words),
        LineFault::Expression(at) => place_hint(alloc, at),
        _ => Ok(String::new(alloc)),
    }
}
