//! The cookie file that the words name, read from the disk.
use crate::shared_failures::SharedFailures;
use crate::start_file::{read_at, tell, texts_of, words_of};
use address::Address;
use cookie_files::{CookieFault, Cookies, MAX_FILE, MAX_LINES};
use options::{LineFault, cookie_file};
use requests::Jar;
use start_lists::order_with;
use std::alloc::{AllocError, Global};
use std::env::Args;
use std::fs::Files;
use std::io;
use std::sync::Wait;
use std::time::{Clock, SystemTime, UNIX_EPOCH};
use streams::ReadInputFault;

// Why the file at a path isn't used, for a person. If there is no memory for it, nothing is kept.
fn told(alloc: Global, path: &str, fault: CookieFault) -> Result<String, AllocError> {
    match fault {
        CookieFault::TooLong | CookieFault::TooManyLines => {
            format!(in alloc;
                "couldn't read {path}: it has more than {MAX_FILE} bytes or {MAX_LINES} lines\n"
            )
        }
        CookieFault::Line(number, why) => {
            let why = why.as_str();
            format!(in alloc; "couldn't read {path}: line {number}: {why}\n")
        }
        // The one was reported when it was found, and the other has no memory for it.
        CookieFault::Unread | CookieFault::Memory => Ok(String::new(alloc)),
    }
}

fn tell_fault<R: Wait>(
    rt: &R,
    alloc: Global,
    failures: &SharedFailures,
    path: &str,
    fault: CookieFault,
) {
    if let Ok(text) = told(alloc, path, fault) {
        failures.say(rt, text.as_str());
    }
}

// The bytes of the file at a path.
fn bytes_at<D: Files + Wait>(
    disk: &D,
    alloc: Global,
    failures: &SharedFailures,
    path: &str,
) -> Result<Vec<u8>, CookieFault> {
    match read_at(disk, alloc, failures, path, MAX_FILE) {
        Ok(bytes) => Ok(bytes),
        Err(ReadInputFault::Long) => Err(CookieFault::TooLong),
        Err(ReadInputFault::Failed) => Err(CookieFault::Unread),
        Err(ReadInputFault::Memory) => Err(CookieFault::Memory),
    }
}

// The cookies of the file at a path.
fn cookies_at<D: Files + Wait>(
    disk: &D,
    alloc: Global,
    failures: &SharedFailures,
    path: &str,
) -> Result<Cookies, CookieFault> {
    let bytes = bytes_at(disk, alloc, failures, path)?;
    Cookies::read(alloc, bytes.as_slice())
}

// The seconds since 1970 began.
fn seconds<D: Clock + Wait>(
    disk: &D,
    alloc: Global,
    failures: &SharedFailures,
) -> Result<u64, CookieFault> {
    match SystemTime::now(disk) {
        Ok(now) => match now.duration_since(UNIX_EPOCH) {
            Ok(since) => Ok(since.as_secs()),
            Err(_) => Ok(0),
        },
        Err(error) => {
            tell(disk, alloc, failures, "the clock", &error);
            Err(CookieFault::Unread)
        }
    }
}

// The same, with the time of now.
fn jar_at<D: Files + Clock + Wait>(
    disk: &D,
    alloc: Global,
    failures: &SharedFailures,
    path: &str,
) -> Result<Jar, CookieFault> {
    let now = seconds(disk, alloc, failures)?;
    match cookies_at(disk, alloc, failures, path) {
        Ok(cookies) => Ok(Jar::new(alloc, cookies, now)?),
        Err(fault) => {
            tell_fault(disk, alloc, failures, path, fault);
            Err(fault)
        }
    }
}

// Whether these words order something with these starts.
fn do_order(alloc: Global, starts: &[Address], words: &[&str]) -> Result<bool, AllocError> {
    match order_with(alloc, starts, words) {
        Ok(order) => {
            drop(order);
            Ok(true)
        }
        Err(LineFault::Memory) => Err(AllocError),
        Err(_) => Ok(false),
    }
}

// The cookies of the file that these words name, if they name one.
fn jar_by<D: Files + Clock + Wait>(
    disk: &D,
    alloc: Global,
    failures: &SharedFailures,
    starts: &[Address],
    words: &[&str],
) -> Result<Option<Jar>, CookieFault> {
    let Some(path) = cookie_file(alloc, words)? else {
        return Ok(None);
    };
    if do_order(alloc, starts, words)? {
        let jar = jar_at(disk, alloc, failures, path.as_str())?;
        return Ok(Some(jar));
    }
    Ok(None)
}

/// The cookies of the file that the arguments of the program name, its name first, if they name one, with the time of now. It isn't
/// read if the words are refused with these starts of a list, or request the help. Why it can't be used is kept for a person.
/// Arguments that can't be had name no file.
pub fn jar_of<D: Files + Clock + Wait>(
    disk: &D,
    alloc: Global,
    failures: &SharedFailures,
    args: io::Result<Args>,
    starts: &[Address],
) -> Result<Option<Jar>, CookieFault> {
    let Ok(args) = args else {
        return Ok(None);
    };
    let words = words_of(alloc, args)?;
    let texts = texts_of(alloc, words.as_slice())?;
    jar_by(disk, alloc, failures, starts, texts.as_slice())
}
