//! What the environment sets, as words before those of the command line (GNU Wget manual, chapters Startup File and Proxies).
ghost use Rattle.std.specs.Prelude.{◌≡◌, ◌++◌, IfOk, OnOk, drop, map, option_map, string_bytes};
ghost use Rattle.options.specs.Environment.{command_words, environment_words};

use std::alloc::{AllocError, Global};
use std::env;
use std::env::{Env, VarError};
use std::marker::Model;

/// What the environment sets: `https_proxy`, `http_proxy` and `no_proxy`.
#[derive(Drop)]
pub struct Environment {
    https_proxy: Option<String>,
    http_proxy: Option<String>,
    no_proxy: Option<String>,
}

// Contracts see what the variables say.
impl Model for Environment {
    ghost use Rattle.std.specs.Prelude.{option_map};
    ghost use Rattle.std.specs.String.{string_bytes};
    ghost use Rattle.options.specs.Environment.{Variables};

    ghost Value = { Variables };

    ghost view = { λ e. record { https_proxy = option_map string_bytes e.https_proxy; http_proxy = option_map string_bytes e.http_proxy; no_proxy = option_map string_bytes e.no_proxy } };
}

// The value of a variable, if it is set.
fn value_of<R: Env>(rt: &R, alloc: Global, name: &str) -> Result<Option<String>, VarError> {
    match env::var(&(rt, alloc), name) {
        Ok(value) => Ok(Some(value)),
        Err(VarError::NotPresent) => Ok(None),
        Err(wrong) => Err(wrong),
    }
}

// Adds a command of wgetrc, if there is a value for it.
fn push_command(
    alloc: Global,
    words: &mut Vec<String>,
    key: &str,
    value: &Option<String>,
) -> Result<(), AllocError>
    ensures { OnOk result (map string_bytes words.new.items ≡ map string_bytes words.old.items ++ command_words key.now (option_map string_bytes value.now)) }
{
    if let Some(value) = value {
        let value = value.as_str();
        words.push(String::from_str(alloc, "-e")?)?;
        words.push(format!(in alloc; "{key}={value}")?)?;
    }
    Ok(())
}

// The program's name, which a system may leave out.
fn name_of(all: &[String]) -> &str {
    match all {
        [name, ..] => name.as_str(),
        [] => "",
    }
}

// What follows the program's name.
fn after_name(all: &[String]) -> &[String]
    ensures { result.now ≡ drop 1 all.now }
{
    match all {
        [_, words @ ..] => words,
        [] => all,
    }
}

// Adds copies of these words.
fn push_copies(alloc: Global, all: &mut Vec<String>, words: &[String]) -> Result<(), AllocError>
    ensures { OnOk result (map string_bytes all.new.items ≡ map string_bytes all.old.items ++ map string_bytes words.now) }
{
    for word in words {
        all.push(String::from_str(alloc, word.as_str())?)?;
    }
    Ok(())
}

impl Environment {
    ghost use Rattle.std.specs.Prelude.{◌≡◌, ◌++◌, IfOk, OnOk, drop, map, option_map, string_bytes};
    ghost use Rattle.options.specs.Environment.{environment_words, with_environment};

    /// With these values of `https_proxy`, `http_proxy` and `no_proxy`, if they are set. Takes no memory.
    pub fn new(
        https_proxy: Option<String>,
        http_proxy: Option<String>,
        no_proxy: Option<String>,
    ) -> Environment
        ensures { result ≡ record { https_proxy = option_map string_bytes https_proxy; http_proxy = option_map string_bytes http_proxy; no_proxy = option_map string_bytes no_proxy } }
    {
        Environment {
            https_proxy,
            http_proxy,
            no_proxy,
        }
    }

    /// Reads the environment. The error is that a value isn't UTF-8, or that memory ran out.
    pub fn read<R: Env>(rt: &R, alloc: Global) -> Result<Environment, VarError> {
        Ok(Environment {
            https_proxy: value_of(rt, alloc, "https_proxy")?,
            http_proxy: value_of(rt, alloc, "http_proxy")?,
            no_proxy: value_of(rt, alloc, "no_proxy")?,
        })
    }

    // Adds what is set as words: each as a command of wgetrc.
    fn push_words(&self, alloc: Global, words: &mut Vec<String>) -> Result<(), AllocError>
        ensures { OnOk result (map string_bytes words.new.items ≡ map string_bytes words.old.items ++ environment_words self.now) }
    {
        push_command(alloc, words, "https_proxy", &self.https_proxy)?;
        push_command(alloc, words, "http_proxy", &self.http_proxy)?;
        push_command(alloc, words, "no_proxy", &self.no_proxy)
    }

    /// These arguments of the program, its name first, with what is set before the words.
    pub fn before(&self, alloc: Global, given: &[String]) -> Result<Vec<String>, AllocError>
        ensures { IfOk result (λ all. map string_bytes (drop 1 all.items) ≡ with_environment self.now (map string_bytes (drop 1 given.now))) }
    {
        let mut all = Vec::new(alloc);
        all.push(String::from_str(alloc, name_of(given))?)?;
        self.push_words(alloc, &mut all)?;
        push_copies(alloc, &mut all, after_name(given))?;
        Ok(all)
    }
}
