//! Why a file is no cookie file: the line that is written in place of a report, and what is reported to a person.
ghost use Rattle.std.specs.Prelude.{◌≡◌, ◌++◌, IfOk, codes, string_bytes};
ghost use Rattle.cookie_files.specs.Faults.{cookies_words};

use std::alloc::{AllocError, Global};

/// Why a line says no cookie: the first of its fields that can't be.
#[derive(Clone, Copy, PartialEq, Eq, Debug)]
pub enum CookieLineFault {
    /// There are fewer than seven fields, with a TAB between two.
    Fields,
    /// The domain is no host with a port or without one.
    Domain,
    /// Whether subdomains count is neither `TRUE` nor `FALSE`.
    Subdomains,
    /// The path doesn't begin with a slash, or has a control byte.
    Path,
    /// Whether the cookie is for https alone is neither `TRUE` nor `FALSE`.
    Secure,
    /// The expiry is no number of seconds.
    Expiry,
    /// The name is empty, or has a control byte, a `;` or a `=`.
    Name,
    /// The value has a control byte or a `;`.
    Value,
}

/// Why a file can't be used.
#[derive(Clone, Copy, PartialEq, Eq, Debug)]
pub enum CookieFault {
    /// It can't be read.
    Unread,
    /// It has more than 4 MiB.
    TooLong,
    /// It has more than 10,000 lines.
    TooManyLines,
    /// The line of this number, the first that does so, says no cookie.
    Line(usize, CookieLineFault),
    /// Memory ran out.
    Memory,
}

impl CookieLineFault {
    ghost use Rattle.std.specs.Prelude.{◌≡◌};
    ghost use Rattle.cookie_files.specs.Faults.{why};

    /// What is wrong with the line.
    pub fn as_str(&self) -> &'static str
        ensures { result.now ≡ why self.now }
    {
        match self {
            CookieLineFault::Fields => "a cookie has seven fields, with a TAB between two",
            CookieLineFault::Domain => "the domain is no host",
            CookieLineFault::Subdomains => "the second field is neither TRUE nor FALSE",
            CookieLineFault::Path =>
                "the path doesn't begin with a slash, or has a control character",
            CookieLineFault::Secure => "the fourth field is neither TRUE nor FALSE",
            CookieLineFault::Expiry => "the expiry is no number of seconds",
            CookieLineFault::Name =>
                "the name is empty, or has a control character, a semicolon or an equals sign",
            CookieLineFault::Value => "the value has a control character or a semicolon",
        }
    }
}

impl CookieFault {
    ghost use Rattle.std.specs.Prelude.{◌≡◌};
    ghost use Rattle.cookie_files.specs.Faults.{cookies_status};

    /// The status with which the run ends: 1 if memory ran out, and else 2.
    pub fn status(&self) -> u8
        ensures { result ≡ cookies_status self.now }
    {
        match self {
            CookieFault::Unread
            | CookieFault::TooLong
            | CookieFault::TooManyLines
            | CookieFault::Line(_, _) => 2,
            CookieFault::Memory => 1,
        }
    }
}

/// The line of a fault.
pub fn cookies_text(alloc: Global, fault: CookieFault) -> Result<String, AllocError>
    ensures { IfOk result (λ text. string_bytes text ≡ cookies_words fault ++ codes "\n") }
{
    match fault {
        CookieFault::Unread => String::from_str(alloc, "cookies read\n"),
        CookieFault::TooLong | CookieFault::TooManyLines => {
            String::from_str(alloc, "cookies long\n")
        }
        CookieFault::Line(number, _) => format!(in alloc; "cookies line {number}\n"),
        CookieFault::Memory => String::from_str(alloc, "stopped memory\n"),
    }
}

impl From<AllocError> for CookieFault {
    ghost use Rattle.std.specs.Prelude.{◌≡◌};
    ghost use Rattle.cookie_files.specs.declared.fault.CookieFault.TheVariants.{Memory};

    ghost from_gives = { λ e fault. fault ≡ Memory };

    fn from(_error: AllocError) -> CookieFault {
        CookieFault::Memory
    }
}
