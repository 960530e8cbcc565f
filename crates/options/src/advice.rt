//! What a person reads about words that are refused: what is wrong, what was likely meant and what is accepted; or the help, or
//! the version, if they request it.
ghost use Rattle.std.specs.Prelude.{◌≡◌, ◌++◌, IfOk, OnOk, codes, map, option_map, string_bytes};
ghost use Rattle.std.specs.List.{flat_map};
ghost use Rattle.options.specs.Advice.{advice_text, correction_text, no_text_advice, wrong_start, told_of_asked, told_of_kind, told_on, told_lines, word_text};
ghost use Rattle.options.specs.inner.Advice.{told_by};

use crate::fault::LineFault;
use crate::help::{VERSION, help_text};
use crate::hint::hint_on;
use address::AddressFault;
use clap::error::ErrorKind;
use std::alloc::{AllocError, Global};

/// What a person is to read.
#[derive(Clone, Copy)]
pub(crate) enum Advice {
    /// The help, which was requested.
    Help,
    /// Name and version, which were requested.
    Version,
    /// What is wrong with the words, and what is accepted in its place.
    Correction(&'static str, &'static str),
}

const OPTIONS: &str = "wgetr --help says which words are accepted";

const START: &str = "START is an address in full, as http://example.org/path?query, with at most \
8192 bytes and a host of at most 255 (see wgetr --help)";

const FIELD: &str =
    "a field is a name, a colon and a value, as Accept-Language: en, without control characters and with at most 8192 bytes (see wgetr --help)";

const LOGIN: &str =
    "--user=USER --password=PASSWORD --auth-no-challenge send both with each request to the servers of STARTs; USER has no colon (see wgetr --help)";

const PROXY: &str =
    "a proxy is host and port, as http://127.0.0.1:3128/, and --no-proxy is for none (see wgetr --help)";

// What is wrong with a start that is no address.
fn wrong_start(refused: AddressFault) -> Option<&'static str>
    ensures { option_map (λ wrong. wrong.now) result ≡ wrong_start refused }
{
    match refused {
        AddressFault::TooLong => Some("START is too long"),
        AddressFault::NotUrl => Some("START is no URL"),
        AddressFault::NotHttp => Some(
            "START isn't an http address, and an https one needs --https-proxy, a proxy that speaks TLS",
        ),
        AddressFault::UserInfo => Some(
            "START has a user name with a colon, or it and the password are too long",
        ),
        AddressFault::Memory => None,
    }
}

// The advice on words that request something: the version or the help.
fn asked_advice(kind: ErrorKind) -> Advice
    ensures { told_by result ≡ told_of_asked kind }
{
    match kind {
        ErrorKind::DisplayVersion => Advice::Version,
        _ => Advice::Help,
    }
}

// The advice on words that the parser refuses: its own short text. It has none for words that request something.
fn kind_advice(kind: ErrorKind) -> Advice
    ensures { told_by result ≡ told_of_kind kind }
{
    match kind.as_str() {
        Some(wrong) => Advice::Correction(wrong, OPTIONS),
        None => asked_advice(kind),
    }
}

// The advice on words that are no order; nothing if memory ran out.
fn advice_on(wrong: LineFault) -> Option<Advice>
    ensures { option_map told_by result ≡ told_on wrong }
{
    match wrong {
        LineFault::Words(kind) => Some(kind_advice(kind)),
        LineFault::NoProxy => Some(Advice::Correction(
            "the value of --https-proxy, --http-proxy or their variable is no proxy",
            PROXY,
        )),
        LineFault::ProxyUser => Some(Advice::Correction(
            "the user name of the proxy has a colon, or it and the password are too long",
            PROXY,
        )),
        LineFault::Login => Some(Advice::Correction(
            "user name and password are only sent together and with --auth-no-challenge",
            LOGIN,
        )),
        LineFault::Agent => Some(Advice::Correction(
            "the value of -U, --user-agent has a control character or more than 8192 bytes",
            FIELD,
        )),
        LineFault::Referer => Some(Advice::Correction(
            "the value of --referer has a control character or more than 8192 bytes",
            FIELD,
        )),
        LineFault::Header => Some(Advice::Correction(
            "a value of --header is no field that can be sent",
            FIELD,
        )),
        LineFault::Fields => Some(Advice::Correction(
            "the fields of a request have more than 32768 bytes",
            FIELD,
        )),
        LineFault::Depth => Some(Advice::Correction(
            "the value of -l, --level is no level",
            "a level is inf or decimal digits, at most 1000000 (see wgetr --help)",
        )),
        LineFault::Pattern => Some(Advice::Correction(
            "an element of -A, --accept or -R, --reject is no pattern",
            "an element is a suffix, or a pattern with *, ? and classes as [a-z], each closed (see wgetr --help)",
        )),
        LineFault::Directory => Some(Advice::Correction(
            "an element of -I, --include-directories or -X, --exclude-directories is no directory",
            "an element is a directory, as /a or /a*/b, its classes as [a-z] closed and without / (see wgetr --help)",
        )),
        LineFault::Domain => Some(Advice::Correction(
            "an element of -D, --domains or --exclude-domains is no domain",
            "an element is letters, digits, -, _ and dots, as example.org (see wgetr --help)",
        )),
        LineFault::Expression(_) => Some(Advice::Correction(
            "the value of --accept-regex or --reject-regex is no expression",
            "an expression is looked for in addresses, as [?]C= or [.]pdf$ (see wgetr --help)",
        )),
        LineFault::LargeExpression => Some(Advice::Correction(
            "the value of --accept-regex or --reject-regex is too large",
            "an expression has at most 1024 states, some for each character and repetition (see wgetr --help)",
        )),
        LineFault::Tags => Some(Advice::Correction(
            "an element of --follow-tags or --ignore-tags is none with a link",
            "an element is a name, as a, or a name and an attribute with a link, as img/srcset (see wgetr --help)",
        )),
        LineFault::Start(refused) => Some(Advice::Correction(wrong_start(refused)?, START)),
        LineFault::StartIsRobots => Some(Advice::Correction(
            "START is a robots file",
            "START is any other page (see wgetr --help)",
        )),
        LineFault::FarProxy => Some(Advice::Correction(
            "the proxy is on another machine, and what is sent there for https isn't encrypted",
            "a proxy at localhost, 127.0.0.1 or [::1] is taken, and another one with --trust-proxy (see wgetr --help)",
        )),
        LineFault::Memory => None,
    }
}

// Adds these words, each after a space.
fn push_words(text: &mut String, words: &[&str]) -> Result<(), AllocError>
    ensures ok { OnOk result (string_bytes text.new ≡ string_bytes text.old ++ flat_map (λ word. word_text word.now) words.now) }
{
    for word in words {
        write!(text, " {word}")?;
    }
    Ok(())
}

// The lines of a correction: what is wrong, what was likely meant, in these words, and what is accepted.
fn correction_text(
    alloc: Global,
    wrong: &str,
    hint: &str,
    accepted: &str,
    words: &[&str],
) -> Result<String, AllocError>
    ensures { IfOk result (λ text. string_bytes text ≡ codes "wgetr: " ++ wrong.now ++ hint.now ++ codes ", in:"
        ++ flat_map (λ word. word_text word.now) words.now ++ codes "\n" ++ accepted.now ++ codes "\n") }
{
    let mut text = format!(in alloc; "wgetr: {wrong}{hint}, in:")?;
    push_words(&mut text, words)?;
    writeln!(text, "\n{accepted}")?;
    Ok(text)
}

// The lines of an advice on these words, with what was likely meant.
fn said(alloc: Global, advice: Advice, hint: &str, words: &[&str]) -> Result<String, AllocError>
    ensures { IfOk result (λ text. string_bytes text ≡ told_lines (map (λ word. word.now) words.now) hint.now (told_by advice)) }
{
    match advice {
        Advice::Help => help_text(alloc),
        Advice::Version => format!(in alloc; "wgetr {VERSION}\n"),
        Advice::Correction(wrong, accepted) => {
            correction_text(alloc, wrong, hint, accepted, words)
        }
    }
}

/// The text for a person whose words are refused for this fault: what is wrong with them, what was likely meant, and a line on
/// what is accepted; or the help, or name and version, if they request it. Empty if memory ran out.
pub fn advice_text(alloc: Global, fault: LineFault, words: &[&str]) -> Result<String, AllocError>
    ensures { IfOk result (λ text. string_bytes text ≡ advice_text (map (λ word. word.now) words.now) fault) }
{
    match advice_on(fault) {
        Some(advice) => said(alloc, advice, hint_on(alloc, fault, words)?.as_str(), words),
        None => Ok(String::new(alloc)),
    }
}

/// The text for a person if a word isn't UTF-8; these are the other words.
pub fn no_text_advice(alloc: Global, words: &[&str]) -> Result<String, AllocError>
    ensures { IfOk result (λ text. string_bytes text ≡ no_text_advice (map (λ word. word.now) words.now)) }
{
    said(
        alloc,
        Advice::Correction("a word isn't UTF-8", OPTIONS),
        "",
        words,
    )
}
