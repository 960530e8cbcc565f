//! The help: what the program is for, its usage, and a line for each option (GNU Wget manual, chapter Invoking).
ghost use Rattle.std.specs.Prelude.{◌≡◌, ◌++◌, IfOk, OnOk, codes, map, option_map, replicate, string_bytes};
ghost use Rattle.std.specs.Fmt.{decimal};
ghost use Rattle.options.specs.Help.{help_text, in_columns, left_text, row_text, rows_text, short_text, usual_text, value_name, value_text};
ghost use Rattle.options.specs.inner.Table.{kind_in, row_in};

use crate::summary::summary_of;
use crate::table::{OptionKind, Row, option_rows};
use std::alloc::{AllocError, Global};

/// The version of the program.
pub const VERSION: &str = "1.0";

const HEAD: &str = "\
wgetr retrieves a site recursively and reports what it found: it follows links\n\
by GNU Wget's rules and heeds robots files.\n\
\n\
usage: wgetr [OPTION]... START...\n       \
wgetr [OPTION]... --map START < MAP\n       \
wgetr [OPTION]... --record START < RECORD\n";

const FOOT: &str = "
Others:
  -h,  --help                      print this help
  -V,  --version                   print name and version

START is an http address. A LIST has commas between its elements.
";

// Adds so many spaces.
fn push_spaces(text: &mut String, count: usize) -> Result<(), AllocError>
    ensures ok { OnOk result (string_bytes text.new ≡ string_bytes text.old ++ replicate count 32) }
{
    for at in 0..count {
        text.push_str(" ")?;
    }
    Ok(())
}

// Adds a text, and spaces up to a width.
fn push_column(text: &mut String, shown: &str, width: usize) -> Result<(), AllocError>
    ensures ok { OnOk result (string_bytes text.new ≡ string_bytes text.old ++ in_columns width shown.now) }
{
    text.push_str(shown)?;
    push_spaces(text, width.saturating_sub(shown.len()))
}

// The short form as it is shown.
fn short_text(alloc: Global, short: &str) -> Result<String, AllocError>
    ensures { IfOk result (λ text. string_bytes text ≡ short_text short.now) }
{
    if short.is_empty() {
        return Ok(String::new(alloc));
    }
    format!(in alloc; "  -{short},")
}

// The name of an option's value.
fn value_name(kind: &OptionKind<&'static str>) -> Option<&'static str>
    ensures { option_map (λ name. name.now) result ≡ value_name (kind_in kind.now) }
{
    match kind {
        OptionKind::Flag | OptionKind::Holds | OptionKind::Opposite(_) => None,
        OptionKind::Value(name) | OptionKind::List(name) => Some(*name),
        OptionKind::Usual(name, _) => Some(*name),
        OptionKind::Number(_, _) => Some("N"),
    }
}

// Adds the value of an option.
fn push_value(text: &mut String, name: Option<&str>) -> Result<(), AllocError>
    ensures ok { OnOk result (string_bytes text.new ≡ string_bytes text.old ++ value_text (option_map (λ name. name.now) name.entry)) }
{
    match name {
        Some(name) => {
            text.push_str("=")?;
            text.push_str(name)
        }
        None => Ok(()),
    }
}

// Adds the forms of an option, the short one as it is shown, and then its value.
fn push_forms(text: &mut String, short: &str, row: &Row<&'static str>) -> Result<(), AllocError>
    ensures ok { OnOk result (string_bytes text.new ≡ string_bytes text.old ++ in_columns 7 short.now ++ codes "--" ++ (row_in row.now).name
        ++ value_text (value_name (row_in row.now).kind)) }
{
    push_column(text, short, 7)?;
    text.push_str("--")?;
    text.push_str(row.name)?;
    push_value(text, value_name(&row.kind))
}

// The forms of an option, and then its value.
fn left_text(alloc: Global, row: &Row<&'static str>) -> Result<String, AllocError>
    ensures { IfOk result (λ text. string_bytes text ≡ left_text (row_in row.now)) }
{
    let short = short_text(alloc, row.short)?;
    let mut text = String::new(alloc);
    push_forms(&mut text, short.as_str(), row)?;
    Ok(text)
}

// The default of an option, and its range.
fn usual_text(alloc: Global, kind: &OptionKind<&'static str>) -> Result<String, AllocError>
    ensures { IfOk result (λ text. string_bytes text ≡ usual_text (kind_in kind.now)) }
{
    match kind {
        OptionKind::Flag | OptionKind::Holds | OptionKind::Opposite(_) => Ok(String::new(alloc)),
        OptionKind::Value(_) | OptionKind::List(_) => Ok(String::new(alloc)),
        OptionKind::Usual(_, usual) => format!(in alloc; " ({usual})"),
        OptionKind::Number(most, usual) => range_text(alloc, *most, *usual),
    }
}

// The range of a number, and its default.
fn range_text(alloc: Global, most: u32, usual: u32) -> Result<String, AllocError>
    ensures { IfOk result (λ text. string_bytes text ≡ codes ", 1 to " ++ decimal most ++ codes " (" ++ decimal usual ++ codes ")") }
{
    format!(in alloc; ", 1 to {most} ({usual})")
}

// Adds the line of an option, after its heading, with its forms and its default.
fn push_line(
    text: &mut String,
    row: &Row<&'static str>,
    left: &str,
    says: &str,
    usual: &str,
) -> Result<(), AllocError>
    ensures ok { OnOk result (string_bytes text.new ≡ string_bytes text.old ++ ((row_in row.now).heading ++ in_columns 35 left.now ++ says.now
        ++ usual.now ++ codes "\n")) }
{
    text.push_str(row.heading)?;
    push_column(text, left, 35)?;
    text.push_str(says)?;
    text.push_str(usual)?;
    text.push_str("\n")
}

// Adds the line of an option, after its heading.
fn push_row(alloc: Global, text: &mut String, row: &Row<&'static str>) -> Result<(), AllocError>
    ensures ok { OnOk result (string_bytes text.new ≡ string_bytes text.old ++ row_text (row_in row.now)) }
{
    let Some(says) = summary_of(row.name) else {
        return Ok(());
    };
    let left = left_text(alloc, row)?;
    let usual = usual_text(alloc, &row.kind)?;
    push_line(text, row, left.as_str(), says, usual.as_str())
}

// Adds the lines of these options.
fn push_rows(alloc: Global, text: &mut String, rows: &[Row<&'static str>]) -> Result<(), AllocError>
    ensures ok { OnOk result (string_bytes text.new ≡ string_bytes text.old ++ rows_text (map row_in rows.now)) }
{
    for row in rows {
        push_row(alloc, text, row)?;
    }
    Ok(())
}

// The lines of these options between two texts.
fn between(
    alloc: Global,
    head: &str,
    rows: &[Row<&'static str>],
    foot: &str,
) -> Result<String, AllocError>
    ensures { IfOk result (λ text. string_bytes text ≡ head.now ++ rows_text (map row_in rows.now) ++ foot.now) }
{
    let mut text = String::from_str(alloc, head)?;
    push_rows(alloc, &mut text, rows)?;
    text.push_str(foot)?;
    Ok(text)
}

/// The help, in 80 columns.
pub fn help_text(alloc: Global) -> Result<String, AllocError>
    ensures { IfOk result (λ text. string_bytes text ≡ help_text) }
{
    between(alloc, HEAD, option_rows(), FOOT)
}
