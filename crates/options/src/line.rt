//! The command line as `clap` reads it: the table's options, and what words match (GNU Wget manual, chapter Invoking).
ghost use Rattle.std.specs.Prelude.{◌≡◌, false, All, IfOk, MatchResult, map, option_map, string_bytes, []};
ghost use Rattle.clap.specs.Words.{app_of, found_of, new_rule, rows_of, rule_of, HasKind};
ghost use Rattle.options.specs.Line.{letter_of, line, line_rules, no_options, number_rule, option_rule, refusals, rows, start_rule, with_kind, with_letter};
ghost use Rattle.options.specs.inner.Line.{long_form, with_long_form};
ghost use Rattle.options.specs.inner.Table.{kind_in, row_in};

use crate::help::VERSION;
use crate::table::{OptionKind, Row, option_rows};
use clap::{Arg, ArgAction, ArgMatches, Command, Error, value_parser};
use std::alloc::{AllocError, Global};

// The letter that is the short form, for `clap`.
fn letter(short: &str) -> Option<char>
    ensures { result ≡ letter_of short.now }
{
    match short.as_bytes() {
        [letter] => Some(char::from(*letter)),
        _ => None,
    }
}

// The argument of a number from 1 to the most.
fn number<'a>(alloc: Global, name: &'a str, most: u32) -> Arg<'a>
    ensures rule { rule_of result ≡ number_rule most (new_rule name.entry.now) }
    ensures own { result.global ≡ false }
{
    Arg::new(alloc, name).value_parser(value_parser!(u32).range(1..=i64::from(most)))
}

// The argument of this name with its value.
fn of_kind<'a>(alloc: Global, name: &'a str, kind: &OptionKind<&'static str>) -> Arg<'a>
    ensures rule { rule_of result ≡ with_kind (kind_in kind.now) (new_rule name.entry.now) }
    ensures own { result.global ≡ false }
{
    match kind {
        OptionKind::Flag | OptionKind::Holds | OptionKind::Opposite(_) => {
            Arg::new(alloc, name).action(ArgAction::SetTrue)
        }
        OptionKind::Value(_) | OptionKind::List(_) | OptionKind::Usual(_, _) => Arg::new(
            alloc, name,
        ),
        OptionKind::Number(most, _) => number(alloc, name, *most),
    }
}

// The argument with its short form, if it has one.
fn with_letter<'a>(arg: Arg<'a>, letter: Option<char>) -> Arg<'a>
    ensures rule { rule_of result ≡ with_letter letter (rule_of arg.entry) }
    ensures own { result.global ≡ arg.entry.global }
{
    match letter {
        Some(letter) => arg.short(letter),
        None => arg,
    }
}

// The long form of an option of this name, unless the name is the short form.
fn long_form<'a>(name: &'a str, short: &str) -> Option<&'a str>
    ensures { option_map (λ name. name.now) result ≡ long_form name.entry.now short.now }
{
    if name == short { None } else { Some(name) }
}

// The argument with its long form, if it has one.
fn with_long<'a>(arg: Arg<'a>, name: Option<&'a str>) -> Arg<'a>
    ensures rule { rule_of result ≡ with_long_form (option_map (λ name. name.now) name.entry) (rule_of arg.entry) }
    ensures own { result.global ≡ arg.entry.global }
{
    match name {
        Some(name) => arg.long(name),
        None => arg,
    }
}

// An option of these forms. It takes a row's parts, since an argument made of a whole row is dear to prove.
fn option<'a>(alloc: Global, short: &str, name: &'a str, kind: &OptionKind<&'static str>) -> Arg<'a>
    ensures rule { rule_of result ≡ with_long_form (long_form name.entry.now short.now)
        (with_letter (letter_of short.now) (with_kind (kind_in kind.now) (new_rule name.entry.now))) }
    ensures own { result.global ≡ false }
{
    let arg = with_letter(of_kind(alloc, name, kind), letter(short));
    with_long(arg, long_form(name, short))
}

// The arguments of these rows.
fn arguments_of<'a>(alloc: Global, rows: &[Row<&'static str>]) -> Result<Vec<Arg<'a>>, AllocError>
    ensures rules { IfOk result (λ args. map rule_of args.items ≡ map option_rule (map row_in rows.now)) }
    ensures own { IfOk result (λ args. All (λ a. a.global ≡ false) args.items) }
{
    let mut args = Vec::new(alloc);
    for row in rows {
        args.push(option(alloc, row.short, row.name, &row.kind))?;
    }
    Ok(args)
}

// START
fn start<'a>(alloc: Global) -> Arg<'a>
    ensures rule { rule_of result ≡ start_rule }
    ensures own { result.global ≡ false }
{
    Arg::new(alloc, "start").required(true)
}

// The arguments: the options in the order of the table, and START.
fn arguments<'a>(alloc: Global) -> Result<Vec<Arg<'a>>, AllocError>
    ensures rules { IfOk result (λ args. map rule_of args.items ≡ line_rules) }
    ensures own { IfOk result (λ args. All (λ a. a.global ≡ false) args.items) }
{
    let mut args = arguments_of(alloc, option_rows())?;
    args.push(start(alloc))?;
    Ok(args)
}

fn command<'a>(alloc: Global) -> Result<Command<'a>, AllocError>
    ensures { IfOk result (λ c. app_of c ≡ line) }
{
    let arguments = arguments(alloc)?;
    empty_command(alloc).args(arguments)
}

fn empty_command<'a>(alloc: Global) -> Command<'a>
    ensures { app_of result ≡ no_options }
{
    Command::new(alloc, "wgetr")
        .no_binary_name(true)
        .version(VERSION)
}

/// What is found for each option in words that are written out, or the kind of the first thing that is wrong.
pub(crate) fn parse<'a>(alloc: Global, words: &'a [String]) -> Result<ArgMatches<'a>, Error>
    ensures { MatchResult result
        (λ m. (refusals (map string_bytes words.now) ≡ [])
        × (rows_of (found_of m) ≡ rows (map string_bytes words.now)))
        (HasKind (refusals (map string_bytes words.now))) }
{
    command(alloc)?.try_get_matches_from(words)
}
