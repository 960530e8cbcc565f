//! What words say: options by their names with their values, starts, and what isn't read (GNU Wget manual, chapters Invoking and
//! Startup File). Forms are those of the table; the front of a long form is that form.
ghost use Rattle.std.specs.Prelude.{◌≡◌, ◌++◌, ◌∷◌, [], IfOk, List, MatchResult, OnOk, codes, map, option_map};
ghost use Rattle.clap.specs.Lexer.{name_and_value};
ghost use Rattle.clap.specs.Walk.{Text};
ghost use Rattle.options.specs.Said.{after_front, at_end, beside, command_meaning, commanded, heard, heard_as, heard_in, heard_letters, heard_short, held, is_negative, is_no, is_switch, is_word, letter_by, letter_in, letter_with, long_meaning, meaning_of, named, negative, on_off, plain, said_from, saying_of, sayings, sense, settled, switched, trimmed, truth, truth_of, value_meaning, valued};
ghost use Rattle.options.specs.Meant.{without_dash};
ghost use Rattle.options.specs.Table.{commands};
ghost use Rattle.options.specs.inner.Said.{letter_by_code, meaning_in, saying_in, state_in};
ghost use Rattle.options.specs.inner.Table.{command_in, kind_in, row_in};
ghost use Rattle.options.specs.declared.said.Saying.TheVariants as saying;

use crate::meant::{long_name, meant, without_dash};
use crate::table::{Command, OptionKind, Row, commands, option_rows};
use std::alloc::{AllocError, Global};

/// What a word says. The types of texts here are parameters, so that definitions have them.
#[derive(Clone, Copy)]
pub(crate) enum Saying<T> {
    /// The option of this name has this value; one that is on or off has `on` or `off`.
    Says(T, T),
    /// This is a start.
    Starts(T),
    /// This isn't read.
    Unread(T),
}

/// What a form means.
#[derive(Clone, Copy)]
pub(crate) enum Meaning<T> {
    /// The option of this name has this value.
    Means(T, T),
    /// The value of the option of this name comes with the next word.
    Waits(T),
    /// No option has this form, or not with this value.
    Unknown,
}

/// What a letter after a dash means.
#[derive(Clone, Copy)]
pub(crate) enum Letter<T> {
    /// The option of this name has this value, `on` or `off`, and these letters follow.
    Goes(T, T, T),
    /// The word ends with this.
    Is(Meaning<T>),
}

/// How the next word is read.
#[derive(Clone, Copy)]
pub(crate) enum State<T> {
    /// As an option or a start.
    Free,
    /// As the value of the option of this name.
    Waits(T),
    /// As a start: the options have ended.
    Ended,
}

// The rest of a text that begins with this front.
fn after_front<'a>(front: &str, text: &'a str) -> Option<&'a str>
    ensures { option_map (λ rest. rest.now) result ≡ after_front front.now text.entry.now }
{
    text.strip_prefix(front)
}

// Whether these are the same word, in letters of either case.
fn is_word(one: &str, other: &str) -> bool
    ensures { result ≡ is_word one.now other.now }
{
    one.eq_ignore_ascii_case(other)
}

// Whether a value is on or off.
fn truth_of(value: &str) -> Option<bool>
    ensures { result ≡ truth_of value.now }
{
    if is_word(value, "on") || is_word(value, "yes") || is_word(value, "1") {
        return Some(true);
    }
    if is_word(value, "off") || is_word(value, "no") || is_word(value, "0") {
        return Some(false);
    }
    None
}

// Whether an option with this value is on or off: without one it is on.
fn truth(value: Option<&str>) -> Option<bool>
    ensures { result ≡ truth (option_map (λ value. value.now) value.entry) }
{
    match value {
        Some(value) => truth_of(value),
        None => Some(true),
    }
}

fn on_off(on: bool) -> &'static str
    ensures { result.now ≡ on_off on }
{
    if on { "on" } else { "off" }
}

// The option of this name, or its opposite, with this value.
fn switched<'a>(name: &'a str, on: bool, value: Option<&str>) -> Meaning<&'a str>
    ensures { meaning_in result ≡ switched name.entry.now on (option_map (λ value. value.now) value.entry) }
{
    match truth(value) {
        Some(said) => Meaning::Means(name, on_off(if on { said } else { !said })),
        None => Meaning::Unknown,
    }
}

// What is so already is said, and nothing else.
fn held<'a>(meaning: Meaning<&'a str>) -> Meaning<&'a str>
    ensures { meaning_in result ≡ held (meaning_in meaning.entry) }
{
    match meaning {
        Meaning::Means(name, value) if value == "on" => Meaning::Means(name, value),
        _ => Meaning::Unknown,
    }
}

// An option whose value is beside it, or comes with the next word.
fn valued<'a>(name: &'a str, value: Option<&'a str>) -> Meaning<&'a str>
    ensures { meaning_in result ≡ valued name.entry.now (option_map (λ value. value.now) value.entry) }
{
    match value {
        Some(value) => Meaning::Means(name, value),
        None => Meaning::Waits(name),
    }
}

// An option of this name and kind, or its opposite, with this value.
fn meaning_of<'a>(
    name: &'a str,
    kind: &OptionKind<&'static str>,
    on: bool,
    value: Option<&'a str>,
) -> Meaning<&'a str>
    ensures { meaning_in result ≡ meaning_of name.entry.now (kind_in kind.now) on (option_map (λ value. value.now) value.entry) }
{
    match kind {
        OptionKind::Flag => switched(name, on, value),
        OptionKind::Holds => held(switched(name, on, value)),
        OptionKind::Opposite(other) => switched(*other, !on, value),
        OptionKind::Value(_)
        | OptionKind::List(_)
        | OptionKind::Usual(_, _)
        | OptionKind::Number(_, _) => { valued(name, value) }
    }
}

// Whether an option is on or off.
fn is_switch(kind: &OptionKind<&'static str>) -> bool
    ensures { result ≡ is_switch (kind_in kind.now) }
{
    match kind {
        OptionKind::Flag | OptionKind::Holds | OptionKind::Opposite(_) => true,
        OptionKind::Value(_)
        | OptionKind::List(_)
        | OptionKind::Usual(_, _)
        | OptionKind::Number(_, _) => false,
    }
}

// Whether the one name is `no-` and then the other one.
fn is_no(one: &str, other: &str) -> bool
    ensures { result ≡ is_no one.now other.now }
{
    after_front("no-", one) == Some(other)
}

// Whether the name is that of the option or of its opposite, if it is one of these.
fn sense(name: &str, row: &Row<&'static str>) -> Option<bool>
    ensures { result ≡ sense name.now (row_in row.now) }
{
    if row.name == row.short {
        return None;
    }
    if row.name == name {
        return Some(true);
    }
    if is_switch(&row.kind) && (is_no(name, row.name) || is_no(row.name, name)) {
        return Some(false);
    }
    None
}

/// The first of these options that has this name, or its opposite, with this value.
pub(crate) fn named<'a>(
    name: &str,
    value: Option<&'a str>,
    rows: &[Row<&'static str>],
) -> Meaning<&'a str>
    ensures { meaning_in result ≡ named name.now (option_map (λ value. value.now) value.entry) (map row_in rows.now) }
{
    for row in rows {
        if let Some(on) = sense(name, row) {
            return meaning_of(row.name, &row.kind, on, value);
        }
    }
    Meaning::Unknown
}

// A long form, or a front of one, with this value.
fn long_meaning<'a>(form: &str, value: Option<&'a str>) -> Meaning<&'a str>
    ensures { meaning_in result ≡ long_meaning form.now (option_map (λ value. value.now) value.entry) }
{
    match long_name(meant(form)) {
        Some(name) => named(name, value, option_rows()),
        None => Meaning::Unknown,
    }
}

// Whether this makes the option's short form with an `n` before it.
fn is_negative(text: &str, row: &Row<&'static str>) -> bool
    ensures { result ≡ is_negative text.now (row_in row.now) }
{
    !text.is_empty() && after_front("n", row.short) == Some(text)
}

// What is after `-n`: one letter, of an option of two.
fn negative<'a>(text: &str, rows: &[Row<&'static str>]) -> Meaning<&'a str>
    ensures { meaning_in result ≡ negative text.now (map row_in rows.now) }
{
    for row in rows {
        if is_negative(text, row) {
            return meaning_of(row.name, &row.kind, true, None);
        }
    }
    Meaning::Unknown
}

// The text without white space at its ends.
fn trimmed(text: &str) -> &str
    ensures { result.now ≡ trimmed text.now }
{
    text.trim_ascii()
}

// The name of a command, in small letters and without `-` and `_`.
fn plain(alloc: Global, key: &str) -> Result<Vec<u8>, AllocError>
    ensures { IfOk result (λ plain_key. plain_key.items ≡ plain key.now) }
{
    let mut plain = Vec::new(alloc);
    for byte in key.as_bytes() {
        if *byte != b'-' && *byte != b'_' {
            plain.push(byte.to_ascii_lowercase())?;
        }
    }
    Ok(plain)
}

// What a command says: what the long form of its option says with this value.
fn commanded<'a>(key: &[u8], value: &'a str, commands: &[Command<&'static str>]) -> Meaning<&'a str>
    ensures { meaning_in result ≡ commanded key.now value.entry.now (map command_in commands.now) }
{
    for command in commands {
        if command.name.as_bytes() == key {
            return named(command.option, Some(value), option_rows());
        }
    }
    Meaning::Unknown
}

// What is before the first `=`, and what is after it if there is one.
fn split_value(text: &str) -> (&str, Option<&str>)
    ensures { (result.0.now, option_map (λ value. value.now) result.1) ≡ name_and_value text.entry.now }
{
    match text.split_once('=') {
        Some((name, value)) => (name, Some(value)),
        None => (text, None),
    }
}

// A command with its value.
fn command_meaning(alloc: Global, text: &str) -> Result<Meaning<&str>, AllocError>
    ensures { IfOk result (λ meaning. meaning_in meaning ≡ command_meaning text.entry.now) }
{
    let (key, value) = split_value(text);
    let Some(value) = value else {
        return Ok(Meaning::Unknown);
    };
    let key = plain(alloc, trimmed(key))?;
    Ok(commanded(key.as_slice(), trimmed(value), commands()))
}

// An option of this name with its value: a command and the letter after `-n` are other options.
fn value_meaning<'a>(
    alloc: Global,
    name: &'a str,
    value: &'a str,
) -> Result<Meaning<&'a str>, AllocError>
    ensures { IfOk result (λ meaning. meaning_in meaning ≡ value_meaning name.entry.now value.entry.now) }
{
    if name == "execute" {
        return command_meaning(alloc, value);
    }
    if name == "n" {
        return Ok(negative(value, option_rows()));
    }
    Ok(Meaning::Means(name, value))
}

// What the word says by this meaning.
fn saying_of<'a>(word: &'a str, meaning: Meaning<&'a str>) -> Saying<&'a str>
    ensures { saying_in result ≡ saying_of word.entry.now (meaning_in meaning.entry) }
{
    match meaning {
        Meaning::Means(name, value) => Saying::Says(name, value),
        Meaning::Waits(_) | Meaning::Unknown => Saying::Unread(word),
    }
}

// Adds what the word says by this meaning, if it doesn't wait for the next. Answers how that is read.
fn hear_as<'a>(
    alloc: Global,
    said: &mut Vec<Saying<&'a str>>,
    word: &'a str,
    meaning: Meaning<&'a str>,
) -> Result<State<&'a str>, AllocError>
    ensures said { IfOk result (λ next. map saying_in said.new.items ≡ map saying_in said.old.items ++ (heard_as word.entry.now (meaning_in meaning.entry)).said) }
    ensures state { IfOk result (λ next. state_in next ≡ (heard_as word.entry.now (meaning_in meaning.entry)).state) }
{
    match meaning {
        Meaning::Waits(name) => Ok(State::Waits(name)),
        Meaning::Means(name, value) => {
            let settled = value_meaning(alloc, name, value)?;
            said.push(saying_of(word, settled))?;
            Ok(State::Free)
        }
        Meaning::Unknown => {
            said.push(Saying::Unread(word))?;
            Ok(State::Free)
        }
    }
}

// The rest of a word that is a value, if anything.
fn beside(rest: &str) -> Option<&str>
    ensures { option_map (λ rest. rest.now) result ≡ beside rest.entry.now }
{
    if rest.is_empty() { None } else { Some(rest) }
}

// What the letter of an option that is on or off means, with the letters that follow.
fn letter_with<'a>(rest: &'a str, meaning: Meaning<&'a str>) -> Letter<&'a str>
    ensures { letter_by_code result ≡ letter_with rest.entry.now (meaning_in meaning.entry) }
{
    match meaning {
        Meaning::Means(name, value) => Letter::Goes(name, value, rest),
        other => Letter::Is(other),
    }
}

fn letter_by<'a>(row: &Row<&'static str>, rest: &'a str) -> Letter<&'a str>
    ensures { letter_by_code result ≡ letter_by (row_in row.now) rest.entry.now }
{
    if is_switch(&row.kind) {
        letter_with(rest, meaning_of(row.name, &row.kind, true, None))
    } else {
        Letter::Is(valued(row.name, beside(rest)))
    }
}

/// The first of these options whose letter the letters begin with.
pub(crate) fn letter_in<'a>(letters: &'a str, rows: &[Row<&'static str>]) -> Letter<&'a str>
    ensures { letter_by_code result ≡ letter_in letters.entry.now (map row_in rows.now) }
{
    for row in rows {
        if row.short.len() == 1 {
            if let Some(rest) = after_front(row.short, letters) {
                return letter_by(row, rest);
            }
        }
    }
    Letter::Is(Meaning::Unknown)
}

// Adds what the letters after a dash say, in this word. Returns how the next word is read.
fn hear_letters<'a>(
    alloc: Global,
    said: &mut Vec<Saying<&'a str>>,
    word: &'a str,
    letters: &'a str,
) -> Result<State<&'a str>, AllocError>
    ensures said { IfOk result (λ next. map saying_in said.new.items ≡ map saying_in said.old.items ++ (heard_letters word.entry.now letters.entry.now).said) }
    ensures state { IfOk result (λ next. state_in next ≡ (heard_letters word.entry.now letters.entry.now).state) }
{
    let mut letters = letters;
    while !letters.is_empty() {
        match letter_in(letters, option_rows()) {
            Letter::Goes(name, value, rest) => {
                said.push(Saying::Says(name, value))?;
                letters = rest;
            }
            Letter::Is(meaning) => return hear_as(alloc, said, word, meaning),
        }
    }
    Ok(State::Free)
}

// Adds what a word says that is no long form.
fn hear_short<'a>(
    alloc: Global,
    said: &mut Vec<Saying<&'a str>>,
    word: &'a str,
) -> Result<State<&'a str>, AllocError>
    ensures said { IfOk result (λ next. map saying_in said.new.items ≡ map saying_in said.old.items ++ (heard_short word.entry.now (without_dash word.entry.now)).said) }
    ensures state { IfOk result (λ next. state_in next ≡ (heard_short word.entry.now (without_dash word.entry.now)).state) }
{
    match without_dash(word) {
        Some(letters) if !letters.is_empty() => hear_letters(alloc, said, word, letters),
        _ => {
            said.push(Saying::Starts(word))?;
            Ok(State::Free)
        }
    }
}

// Adds what a word says if no value is expected and the options haven't ended.
fn hear<'a>(
    alloc: Global,
    said: &mut Vec<Saying<&'a str>>,
    word: &'a str,
) -> Result<State<&'a str>, AllocError>
    ensures said { IfOk result (λ next. map saying_in said.new.items ≡ map saying_in said.old.items ++ (heard word.entry.now).said) }
    ensures state { IfOk result (λ next. state_in next ≡ (heard word.entry.now).state) }
{
    match long_name(word) {
        Some(_) => {
            let (form, value) = split_value(word);
            hear_as(alloc, said, word, long_meaning(form, value))
        }
        None => hear_short(alloc, said, word),
    }
}

// Adds what a word says, read as the words before it require.
fn hear_in<'a>(
    alloc: Global,
    said: &mut Vec<Saying<&'a str>>,
    state: State<&'a str>,
    word: &'a str,
) -> Result<State<&'a str>, AllocError>
    ensures said { IfOk result (λ next. map saying_in said.new.items ≡ map saying_in said.old.items ++ (heard_in (state_in state.entry) word.entry.now).said) }
    ensures state { IfOk result (λ next. state_in next ≡ (heard_in (state_in state.entry) word.entry.now).state) }
{
    match state {
        State::Ended => {
            said.push(Saying::Starts(word))?;
            Ok(State::Ended)
        }
        State::Waits(name) => {
            let meaning = value_meaning(alloc, name, word)?;
            said.push(saying_of(word, meaning))?;
            Ok(State::Free)
        }
        State::Free if word == "--" => Ok(State::Ended),
        State::Free => hear(alloc, said, word),
    }
}

// Adds what the end of the words says: an option without its value isn't read.
fn hear_end<'a>(said: &mut Vec<Saying<&'a str>>, state: State<&'a str>) -> Result<(), AllocError>
    ensures { OnOk result (map saying_in said.new.items ≡ map saying_in said.old.items ++ at_end (state_in state.entry)) }
{
    match state {
        State::Waits(name) => {
            said.push(Saying::Unread(name))?;
            Ok(())
        }
        State::Free | State::Ended => Ok(()),
    }
}

/// What the words of a command line say, one after another.
pub(crate) fn sayings<'a>(
    alloc: Global,
    words: &[&'a str],
) -> Result<Vec<Saying<&'a str>>, AllocError>
    ensures { IfOk result (λ said. map saying_in said.items ≡ sayings (map (λ word. word.now) words.now)) }
{
    let mut said = Vec::new(alloc);
    let mut state = State::Free;
    for word in words {
        state = hear_in(alloc, &mut said, state, word)?;
    }
    hear_end(&mut said, state)?;
    Ok(said)
}
