//! The arguments of the program, with what its environment sets, and the starts of a file, before the words.
ghost use Rattle.std.specs.Prelude.{◌≡◌, ◌++◌, IfOk};
ghost use Rattle.std.specs.Vec.Iter.{into_iter_items};
ghost use Rattle.options.specs.Environment.{with_environment};
ghost use Rattle.retriever.specs.Cookies.{AreCookiesRefused};
ghost use Rattle.retriever.specs.Lists.{IsListRefused};
ghost use Rattle.retriever.specs.Program.{IsExplained, outputs, words_behind};
ghost use Rattle.retriever.specs.declared.fault.Fault.TheVariants.{Line};
ghost use Rattle.start_lists.specs.declared.fault.NoStarts.TheVariants.{List, Words};

use crate::fault::Fault;
use crate::input_run::deliver;
use crate::program::{all_words, explain, texts_behind};
use address::Address;
use cookie_files::{CookieFault, cookies_text};
use options::{Environment, LineFault};
use start_lists::{ListFault, NoStarts, before, list_text};
use std::alloc::{AllocError, Global};
use std::env::{Args, Env, VarError};
use std::io::{ErrorKind, Write};
use std::{env, io};

/// These arguments, the program's name first, with what the environment sets before the words.
pub fn with_environment(
    alloc: Global,
    args: Args,
    environment: &Environment,
) -> Result<Args, AllocError>
    ensures { IfOk result (λ all. words_behind (into_iter_items all) ≡ with_environment environment.now (words_behind (into_iter_items args))) }
{
    let given = all_words(alloc, args)?;
    let all = environment.before(alloc, given.as_slice())?;
    Ok(all.into_iter())
}

/// The arguments of the program, its name first, with what its environment sets before the words. The error is that one of them
/// isn't UTF-8, or that memory ran out.
pub fn arguments<R: Env>(rt: &R, alloc: Global) -> io::Result<Args> {
    let args = env::args(&(rt, alloc))?;
    match Environment::read(rt, alloc) {
        Ok(environment) => Ok(with_environment(alloc, args, &environment)?),
        Err(VarError::OutOfMemory) => Err(io::Error::from(AllocError)),
        Err(_) => Err(io::Error::from(ErrorKind::InvalidData)),
    }
}

// These arguments, the program's name first, with these starts before the words.
fn starts_before(alloc: Global, args: Args, starts: &[Address]) -> Result<Args, AllocError>
    ensures { IfOk result (λ all. words_behind (into_iter_items all) ≡ starts.now ++ words_behind (into_iter_items args)) }
{
    let given = all_words(alloc, args)?;
    let all = before(alloc, starts, given.as_slice())?;
    Ok(all.into_iter())
}

/// These arguments, if they can be had, the program's name first, with these starts before the words.
pub fn with_starts(alloc: Global, args: io::Result<Args>, starts: &[Address]) -> io::Result<Args>
    ensures { IfOk args (λ given. IfOk result (λ all. words_behind (into_iter_items all) ≡ starts.now ++ words_behind (into_iter_items given))) }
{
    Ok(starts_before(alloc, args?, starts)?)
}

// Writes the line of a file of starts that gives none, and gives the status of the run.
fn refuse_list<W: Write>(alloc: Global, fault: ListFault, writer: &mut W) -> u8
    ensures { IsListRefused (W.contents writer.old) (W.contents writer.new) fault result }
{
    match list_text(alloc, fault) {
        Ok(text) => deliver(writer, text.as_bytes(), fault.status()),
        Err(_) => deliver(writer, b"stopped memory\n", 1),
    }
}

// Writes the line of these words, which are refused, or what they request, and gives the status of the run; a person reads what is
// wrong with them.
fn refuse_words<W: Write, E: Write>(
    alloc: Global,
    wrong: LineFault,
    all: &[String],
    writer: &mut W,
    errors: &mut E,
) -> u8
    ensures { IsExplained (words_behind all.now) (Line wrong) (outputs E.contents (W.contents writer.old) errors.old)
        (outputs E.contents (W.contents writer.new) errors.new) result }
{
    match texts_behind(alloc, all) {
        Ok(words) => explain(alloc, Fault::Line(wrong), words.as_slice(), writer, errors),
        Err(_) => deliver(writer, b"stopped memory\n", 1),
    }
}

// The words of the arguments, the program's name first; none if they can't be had.
fn words_or_none(alloc: Global, args: io::Result<Args>) -> Result<Vec<String>, AllocError>
    ensures { IfOk args (λ given. IfOk result (λ all. all.items ≡ into_iter_items given)) }
{
    match args {
        Ok(args) => all_words(alloc, args),
        Err(_) => Ok(Vec::new(alloc)),
    }
}

/// Ends the run of a program that has no starts: it writes why, and gives the status. Its arguments have the program's name first.
pub fn refuse_starts<W: Write, E: Write>(
    alloc: Global,
    why: NoStarts,
    args: io::Result<Args>,
    writer: &mut W,
    errors: &mut E,
) -> u8
    ensures list { (fault : ListFault) → why ≡ List fault → IsListRefused (W.contents writer.old) (W.contents writer.new) fault result }
    ensures words { (wrong : LineFault) → why ≡ Words wrong → IfOk args (λ given. IsExplained (words_behind (into_iter_items given)) (Line wrong)
        (outputs E.contents (W.contents writer.old) errors.old) (outputs E.contents (W.contents writer.new) errors.new) result) }
{
    match why {
        NoStarts::List(fault) => refuse_list(alloc, fault, writer),
        NoStarts::Words(wrong) => match words_or_none(alloc, args) {
            Ok(all) => refuse_words(alloc, wrong, all.as_slice(), writer, errors),
            Err(_) => deliver(writer, b"stopped memory\n", 1),
        },
    }
}

/// Ends the run of a program whose cookie file can't be used: it writes why, and gives the status.
pub fn refuse_cookies<W: Write>(alloc: Global, fault: CookieFault, writer: &mut W) -> u8
    ensures { AreCookiesRefused (W.contents writer.old) (W.contents writer.new) fault result }
{
    match cookies_text(alloc, fault) {
        Ok(text) => deliver(writer, text.as_bytes(), fault.status()),
        Err(_) => deliver(writer, b"stopped memory\n", 1),
    }
}
