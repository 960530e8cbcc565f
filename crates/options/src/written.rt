//! Words are written out: each option at most once, by its long form and with the value that counts, and the first start after `--`.
ghost use Rattle.std.specs.Prelude.{◌≡◌, ◌++◌, IfOk, None, OnOk, codes, map, option_map, string_bytes};
ghost use Rattle.std.specs.List.{flat_map};
ghost use Rattle.options.specs.Written.{added, first_start, first_unread, form_word, if_any, is_list, joint, mirrored, row_words, said_of, says_also, starts_in, value_from, value_words, value_of, written};
ghost use Rattle.options.specs.inner.Said.{saying_in};
ghost use Rattle.options.specs.inner.Table.{kind_in, row_in};

use crate::said::Saying;
use crate::table::{OptionKind, Row, option_rows};
use std::alloc::{AllocError, Global};

// Whether an option's values add up.
fn is_list(kind: &OptionKind<&'static str>) -> bool
    ensures { result ≡ is_list (kind_in kind.now) }
{
    match kind {
        OptionKind::List(_) => true,
        OptionKind::Flag | OptionKind::Holds | OptionKind::Opposite(_) => false,
        OptionKind::Value(_) | OptionKind::Usual(_, _) | OptionKind::Number(_, _) => false,
    }
}

// What is between the elements of this option's list: between field lines a NUL, which is in no word.
fn joint(name: &str) -> &'static str
    ensures { result.now ≡ joint name.now }
{
    if name == "header" { "\0" } else { "," }
}

// A value after an earlier one, of an option whose values add up, joined by this, or don't.
fn added(
    alloc: Global,
    between: &str,
    adds: bool,
    before: Option<String>,
    value: &str,
) -> Result<String, AllocError>
    ensures { IfOk result (λ text. string_bytes text ≡ added between.now adds (option_map string_bytes before) value.now) }
{
    let Some(mut sum) = before else {
        return String::from_str(alloc, value);
    };
    if !adds || sum.is_empty() || value.is_empty() {
        drop(sum);
        return String::from_str(alloc, value);
    }
    sum.push_str(between)?;
    sum.push_str(value)?;
    Ok(sum)
}

// Whether what is said of the one option is said of the other, too.
fn says_also(said: &str, name: &str) -> bool
    ensures { result ≡ says_also said.now name.now }
{
    said == name || (said == "append-output" && name == "output-file")
}

// What the option that means several others says of that of this name.
fn mirrored(name: &str) -> Option<&'static str>
    ensures { option_map (λ value. value.now) result ≡ mirrored name.now }
{
    if name == "recursive" || name == "timestamping" {
        return Some("on");
    }
    if name == "level" {
        return Some("inf");
    }
    None
}

// What an option with this value says of that of this name, if anything.
fn said_of<'a>(said: &str, value: &'a str, name: &str) -> Option<&'a str>
    ensures { option_map (λ value. value.now) result ≡ said_of said.now value.entry.now name.now }
{
    if says_also(said, name) {
        return Some(value);
    }
    if said == "mirror" && value == "on" {
        return mirrored(name);
    }
    None
}

/// The value that counts of what is said of the option of this name.
pub(crate) fn value_in(
    alloc: Global,
    name: &str,
    adds: bool,
    said: &[Saying<&str>],
) -> Result<Option<String>, AllocError>
    ensures { IfOk result (λ value. option_map string_bytes value ≡ value_from name.now adds None (map saying_in said.now)) }
{
    let mut value = None;
    for saying in said {
        if let Saying::Says(option, text) = saying {
            if let Some(text) = said_of(option, text, name) {
                value = Some(added(alloc, joint(name), adds, value, text)?);
            }
        }
    }
    Ok(value)
}

// An option with its value, written out.
fn value_word(alloc: Global, name: &str, value: &str) -> Result<String, AllocError>
    ensures { IfOk result (λ word. string_bytes word ≡ form_word name.now ++ codes "=" ++ value.now) }
{
    format!(in alloc; "--{name}={value}")
}

// Adds an option of this name and kind with a value, written out.
fn push_value(
    alloc: Global,
    words: &mut Vec<String>,
    name: &str,
    kind: &OptionKind<&'static str>,
    value: &str,
) -> Result<(), AllocError>
    ensures { OnOk result (map string_bytes words.new.items ≡ map string_bytes words.old.items ++ value_words name.now (kind_in kind.now) value.now) }
{
    match kind {
        OptionKind::Flag => {
            if value == "on" {
                words.push(format!(in alloc; "--{name}")?)?;
            }
        }
        OptionKind::Holds | OptionKind::Opposite(_) => {}
        OptionKind::Value(_)
        | OptionKind::List(_)
        | OptionKind::Usual(_, _)
        | OptionKind::Number(_, _) => {
            words.push(value_word(alloc, name, value)?)?;
        }
    }
    Ok(())
}

// Adds what is said of an option, written out.
fn push_row(
    alloc: Global,
    words: &mut Vec<String>,
    row: &Row<&'static str>,
    said: &[Saying<&str>],
) -> Result<(), AllocError>
    ensures { OnOk result (map string_bytes words.new.items ≡ map string_bytes words.old.items ++ row_words (row_in row.now) (value_of (map saying_in said.now) (row_in row.now))) }
{
    match value_in(alloc, row.name, is_list(&row.kind), said)? {
        Some(value) => push_value(alloc, words, row.name, &row.kind, value.as_str()),
        None => Ok(()),
    }
}

// Adds what is said of these options, written out.
fn push_rows(
    alloc: Global,
    words: &mut Vec<String>,
    rows: &[Row<&'static str>],
    said: &[Saying<&str>],
) -> Result<(), AllocError>
    ensures { OnOk result (map string_bytes words.new.items ≡ map string_bytes words.old.items
        ++ flat_map (λ row. row_words row (value_of (map saying_in said.now) row)) (map row_in rows.now)) }
{
    for row in rows {
        push_row(alloc, words, row, said)?;
    }
    Ok(())
}

// Adds a word, if there is one.
fn push_if_any(alloc: Global, words: &mut Vec<String>, word: Option<&str>) -> Result<(), AllocError>
    ensures { OnOk result (map string_bytes words.new.items ≡ map string_bytes words.old.items ++ if_any (option_map (λ w. w.now) word.entry)) }
{
    if let Some(word) = word {
        words.push(String::from_str(alloc, word)?)?;
    }
    Ok(())
}

/// The starts, in their order.
pub(crate) fn starts<'a>(
    alloc: Global,
    said: &[Saying<&'a str>],
) -> Result<Vec<&'a str>, AllocError>
    ensures { IfOk result (λ starts. map (λ word. word.now) starts.items ≡ starts_in (map saying_in said.now)) }
{
    let mut starts = Vec::new(alloc);
    for saying in said {
        if let Saying::Starts(word) = saying {
            starts.push(*word)?;
        }
    }
    Ok(starts)
}

/// What is said, written out with the first start alone.
pub(crate) fn written(alloc: Global, said: &[Saying<&str>]) -> Result<Vec<String>, AllocError>
    ensures { IfOk result (λ words. map string_bytes words.items ≡ written (map saying_in said.now)) }
{
    let mut words = Vec::new(alloc);
    push_rows(alloc, &mut words, option_rows(), said)?;
    words.push(String::from_str(alloc, "--")?)?;
    push_if_any(alloc, &mut words, first_start(said))?;
    Ok(words)
}

/// The first start.
pub(crate) fn first_start<'a>(said: &[Saying<&'a str>]) -> Option<&'a str>
    ensures { option_map (λ word. word.now) result ≡ first_start (map saying_in said.now) }
{
    for saying in said {
        if let Saying::Starts(word) = saying {
            return Some(*word);
        }
    }
    None
}

/// The first word that isn't read.
pub(crate) fn first_unread<'a>(said: &[Saying<&'a str>]) -> Option<&'a str>
    ensures { option_map (λ word. word.now) result ≡ first_unread (map saying_in said.now) }
{
    for saying in said {
        if let Saying::Unread(word) = saying {
            return Some(*word);
        }
    }
    None
}
