//! Words are read as an order, or refused by the lowest fault.
ghost use Rattle.std.specs.Prelude.{◌≡◌, ◌⊎◌, drop, Ok, map, string_bytes};
ghost use Rattle.clap.specs.Words.{kind_of};
ghost use Rattle.options.specs.declared.fault.LineFault.TheVariants as fault;
ghost use Rattle.options.specs.Line.{rows};
ghost use Rattle.options.specs.Order.{AnswersOrder, AnswersRows, AnswersWords, OrdersBySayings, order_of_written, order_said, logged, ordered_by, guarded, with_others};
ghost use Rattle.options.specs.Asked.{refusal_of, without_kind, words_refused};
ghost use Rattle.options.specs.inner.Said.{saying_in};
ghost use Rattle.options.specs.inner.Order.{fault_of_kind, unasked};
ghost use Rattle.options.specs.Written.{written};

use crate::asked::{is_asking, wish_fault, wish_of};
use crate::fault::LineFault;
use crate::line::parse;
use crate::login::logins;
use crate::matched_order::order_of_matches;
use crate::order::Order;
use crate::others::with_others;
use crate::said::{Saying, sayings};
use crate::trust::guarded;
use crate::written::{first_unread, starts, written};
use clap::Error;
use clap::error::ErrorKind;
use std::alloc::{AllocError, Global};

fn fault_of(error: &Error) -> LineFault
    ensures { result ≡ fault_of_kind (kind_of error.now) }
{
    match error.kind() {
        ErrorKind::OutOfMemory => LineFault::Memory,
        kind => unasked(kind),
    }
}

// What is wrong with words that request nothing, whatever `clap` says of them.
fn unasked(kind: ErrorKind) -> LineFault
    ensures value { result ≡ unasked kind }
    ensures refused { without_kind result ≡ words_refused }
{
    if is_asking(kind) {
        return LineFault::Words(ErrorKind::InvalidValue);
    }
    LineFault::Words(kind)
}

// Reads words that are written out.
fn read_written(alloc: Global, words: &[String]) -> Result<Order, LineFault>
    ensures { AnswersRows (rows (map string_bytes words.now)) result (order_of_written (map string_bytes words.now)) }
{
    match parse(alloc, words) {
        Ok(matches) => order_of_matches(alloc, &matches),
        Err(error) => Err(fault_of(&error)),
    }
}

// What is wrong with a word that isn't read if `clap` alone gives this kind: of a word that it accepts it says that START is missing.
fn unread_kind(kind: ErrorKind) -> LineFault
    ensures { (without_kind result ≡ words_refused) ⊎ (result ≡ fault.Memory) }
{
    match kind {
        ErrorKind::OutOfMemory => LineFault::Memory,
        ErrorKind::MissingRequiredArgument => LineFault::Words(ErrorKind::InvalidValue),
        kind => unasked(kind),
    }
}

// What `clap` says of words, if it doesn't take them.
fn kind_of_words(alloc: Global, words: &[String]) -> ErrorKind {
    match parse(alloc, words) {
        Ok(_) => ErrorKind::InvalidValue,
        Err(error) => error.kind(),
    }
}

// What `clap` says of a word alone.
fn kind_alone(alloc: Global, word: &str) -> Result<ErrorKind, AllocError> {
    let mut words = Vec::new(alloc);
    words.push(String::from_str(alloc, word)?)?;
    Ok(kind_of_words(alloc, words.as_slice()))
}

// What is wrong with a word that isn't read, or what it requests.
fn unread_fault(alloc: Global, word: &str) -> LineFault
    ensures { (without_kind result ≡ refusal_of word.now) ⊎ (result ≡ fault.Memory) }
{
    if let Some(wish) = wish_of(word) {
        return wish_fault(wish);
    }
    match kind_alone(alloc, word) {
        Ok(kind) => unread_kind(kind),
        Err(_) => LineFault::Memory,
    }
}

// Reads what is said by words, with the first start alone.
fn read_first(alloc: Global, said: &[Saying<&str>]) -> Result<Order, LineFault>
    ensures { AnswersRows (rows (written (map saying_in said.now))) result (order_of_written (written (map saying_in said.now))) }
{
    let Ok(words) = written(alloc, said) else {
        return Err(LineFault::Memory);
    };
    let order = read_written(alloc, words.as_slice());
    drop(words);
    order
}

// The starts after the first.
fn after_first<'a, 'b>(starts: &'b [&'a str]) -> &'b [&'a str]
    ensures { result.now ≡ drop 1 starts.now }
{
    match starts {
        [_, others @ ..] => others,
        [] => starts,
    }
}

// The order with the starts that these texts name besides its own, unless https would go to a proxy that isn't trusted.
fn with_all(alloc: Global, order: Order, texts: &[&str]) -> Result<Order, LineFault>
    ensures { AnswersOrder result (guarded (with_others (map (λ text. text.now) texts.now) (Ok (ordered_by order)))) }
{
    match with_others(alloc, order, texts) {
        Ok(order) => guarded(order),
        Err(fault) => Err(fault),
    }
}

// The order with the credentials of these starts.
fn logged(alloc: Global, order: Order, starts: &[&str]) -> Result<Order, LineFault>
    ensures { AnswersOrder result (logged (map (λ text. text.now) starts.now) (Ok (ordered_by order))) }
{
    match logins(alloc, starts) {
        Ok(logins) => Ok(order.with_logins(logins)),
        Err(_) => {
            drop(order);
            Err(LineFault::Memory)
        }
    }
}

// The order with the starts besides its own, and with the credentials of all.
fn with_starts(alloc: Global, order: Order, starts: &[&str]) -> Result<Order, LineFault>
    ensures { AnswersOrder result (logged (map (λ text. text.now) starts.now) (guarded (with_others (map (λ text. text.now) (drop 1 starts.now)) (Ok (ordered_by order))))) }
{
    match with_all(alloc, order, after_first(starts)) {
        Ok(order) => logged(alloc, order, starts),
        Err(fault) => Err(fault),
    }
}

// Reads what is said by words.
fn read_said(alloc: Global, said: &[Saying<&str>]) -> Result<Order, LineFault>
    ensures { AnswersRows (rows (written (map saying_in said.now))) result (order_said (map saying_in said.now)) }
{
    if let Some(word) = first_unread(said) {
        return Err(unread_fault(alloc, word));
    }
    let order = match read_first(alloc, said) {
        Ok(order) => order,
        Err(fault) => return Err(fault),
    };
    let Ok(starts) = starts(alloc, said) else {
        drop(order);
        return Err(LineFault::Memory);
    };
    let order = with_starts(alloc, order, starts.as_slice());
    drop(starts);
    order
}

/// Reads the words of a command line, without the program's name. Of several faults the lowest is named, in the order of
/// `LineFault`, except `Memory` and `LargeExpression`. An option may be given several times, and the last counts: words that say the same of each
/// option last order the same, in whatever order they say it.
pub fn read_order(alloc: Global, words: &[&str]) -> Result<Order, LineFault>
    ensures answers { AnswersWords (map (λ w. w.now) words.now) result }
    ensures last { OrdersBySayings (map (λ w. w.now) words.now) }
{
    match sayings(alloc, words) {
        Ok(said) => read_said(alloc, said.as_slice()),
        Err(_) => Err(LineFault::Memory),
    }
}
