//! The file of starts that the words name, read from the disk or from standard input.
use crate::shared_failures::SharedFailures;
use address::Address;
use options::{StartList, start_list};
use start_lists::{
    FileOfStarts, ListFault, NoStarts, file_of, order_with, order_without, starts_of_file,
};
use std::alloc::{AllocError, Global};
use std::env::Args;
use std::fs::{File, Files};
use std::io;
use std::io::{Error, Read};
use std::sync::Wait;
use streams::{ReadInputFault, read_input};

/// The most bytes of a file of starts.
const MAX_FILE: usize = 1_073_741_824;

// The words after the program's name.
pub(crate) fn words_of(alloc: Global, args: Args) -> Result<Vec<String>, AllocError> {
    let mut words = Vec::new(alloc);
    let mut is_name = true;
    for word in args {
        if is_name {
            is_name = false;
        } else {
            words.push(word)?;
        }
    }
    Ok(words)
}

// Their texts.
pub(crate) fn texts_of(alloc: Global, words: &[String]) -> Result<Vec<&str>, AllocError> {
    let mut texts = Vec::new(alloc);
    for word in words {
        texts.push(word.as_str())?;
    }
    Ok(texts)
}

// Why the file at a path can't be read, for a person. If there is no memory for it, nothing is kept.
pub(crate) fn tell<R: Wait>(
    rt: &R,
    alloc: Global,
    failures: &SharedFailures,
    path: &str,
    error: &Error,
) {
    if let Ok(text) = format!(in alloc; "couldn't read {path}: {error}\n") {
        failures.say(rt, text.as_str());
    }
}

// All bytes of the file at a path, at most so many.
pub(crate) fn read_at<D: Files + Wait>(
    disk: &D,
    alloc: Global,
    failures: &SharedFailures,
    path: &str,
    most: usize,
) -> Result<Vec<u8>, ReadInputFault> {
    match File::open(disk, path) {
        Ok(mut file) => read_input(alloc, &mut file, most),
        Err(error) => {
            tell(disk, alloc, failures, path, &error);
            Err(ReadInputFault::Failed)
        }
    }
}

// The starts of a file.
fn read_file<D: Files + Wait, R: Read>(
    disk: &D,
    alloc: Global,
    failures: &SharedFailures,
    file: &FileOfStarts,
    input: &mut R,
) -> Result<Vec<Address>, ListFault> {
    let path = file.path.as_str();
    let bytes = if path == "-" {
        read_input(alloc, input, MAX_FILE)?
    } else {
        read_at(disk, alloc, failures, path, MAX_FILE)?
    };
    starts_of_file(alloc, file, bytes.as_slice())
}

// The starts, if the words order something with them.
fn checked(alloc: Global, starts: Vec<Address>, words: &[&str]) -> Result<Vec<Address>, NoStarts> {
    match order_with(alloc, starts.as_slice(), words) {
        Ok(order) => {
            drop(order);
            Ok(starts)
        }
        Err(wrong) => {
            drop(starts);
            Err(NoStarts::Words(wrong))
        }
    }
}

// The starts of the file that these words name. If they are refused whatever it has, it isn't read.
fn listed<D: Files + Wait, R: Read>(
    disk: &D,
    alloc: Global,
    failures: &SharedFailures,
    list: StartList,
    words: &[&str],
    input: &mut R,
) -> Result<Vec<Address>, NoStarts> {
    let order = match order_without(alloc, words) {
        Ok(order) => order,
        Err(wrong) => {
            drop(list);
            return Err(NoStarts::Words(wrong));
        }
    };
    let file = file_of(alloc, list, order.source, order.proxies.https().is_some());
    drop(order);
    let starts = read_file(disk, alloc, failures, &file?, input)?;
    checked(alloc, starts, words)
}

// The starts of the file that these words name, if they name one.
fn starts_by<D: Files + Wait, R: Read>(
    disk: &D,
    alloc: Global,
    failures: &SharedFailures,
    words: &[&str],
    input: &mut R,
) -> Result<Vec<Address>, NoStarts> {
    match start_list(alloc, words)? {
        Some(list) => listed(disk, alloc, failures, list, words, input),
        None => Ok(Vec::new(alloc)),
    }
}

/// The starts of the file that the arguments of the program name, its name first, if they name one. It is read from the disk, or
/// from this reader if its path is `-`; why it can't be read is kept for a person. It isn't read if the words are refused whatever it
/// has, or request the help. Arguments that can't be had name no file.
pub fn starts_of<D: Files + Wait, R: Read>(
    disk: &D,
    alloc: Global,
    failures: &SharedFailures,
    args: io::Result<Args>,
    input: &mut R,
) -> Result<Vec<Address>, NoStarts> {
    let Ok(args) = args else {
        return Ok(Vec::new(alloc));
    };
    let words = words_of(alloc, args)?;
    let texts = texts_of(alloc, words.as_slice())?;
    starts_by(disk, alloc, failures, texts.as_slice(), input)
}
