//! What a run says in its requests besides the host: its own fields, and those that a person adds or puts in their place.
ghost use Rattle.std.specs.Prelude.{◌≡◌, ◌⊎◌, ◌||◌, ◌<◌, ◌≤◌, ◌+◌, ◌++◌, ◌∷◌, [], codes, Err, IfOk, None, Ok, OnOk, Some, MatchOption, MatchResult, length, nat_le, option_map, string_bytes, unwrap_or};
ghost use Rattle.std.specs.List.{slice_split};
ghost use Rattle.requests.specs.Lines.{is_clean, line_of};
ghost use Rattle.requests.specs.Fields.{accept_fields, agent_fields, bad_line, bytes_sent, cache_fields, field, first_text, fitting, goes, is_among, is_bad_line, is_nul, is_value, last_named, lines_text, own_fields, read_fields, read_lines, referer_fields, sent, sent_with, some_field};
ghost use Rattle.requests.specs.declared.fields.FieldsFault.TheVariants.{Agent, Line, Memory, Referer, Size};

use crate::line::{Field, MAX_FIELD_LINE, is_clean, is_named, is_secret, read_line};
use crate::login::{Login, copy_of};
use std::alloc::{AllocError, AllocFailed, Global};
use std::marker::Model;

/// The most bytes of all that a run says in a request besides its address and the field about the connection.
pub const MAX_SENT: usize = 32_768;

/// Why fields can't be sent.
#[derive(Clone, Copy, PartialEq, Eq, Debug)]
pub enum FieldsFault {
    /// The agent has a control byte, or more than 8,192 bytes.
    Agent,
    /// The page that led here has.
    Referer,
    /// A line says no field, or one that isn't sent.
    Line,
    /// All fields have more than 32,768 bytes.
    Size,
    /// Memory ran out.
    Memory,
}

impl From<AllocError> for FieldsFault {
    ghost use Rattle.std.specs.Prelude.{◌≡◌};
    ghost use Rattle.requests.specs.declared.fields.FieldsFault.TheVariants.{Memory};

    ghost from_gives = { λ e fault. fault ≡ Memory };

    fn from(_error: AllocError) -> FieldsFault {
        FieldsFault::Memory
    }
}

impl<T: Drop> From<AllocFailed<T>> for FieldsFault {
    ghost use Rattle.std.specs.Prelude.{◌≡◌};
    ghost use Rattle.requests.specs.declared.fields.FieldsFault.TheVariants.{Memory};

    ghost from_gives = { λ e fault. fault ≡ Memory };

    fn from(_refused: AllocFailed<T>) -> FieldsFault {
        FieldsFault::Memory
    }
}

/// What requests say: a host in place of the address's, if one is given, lines to each server, and lines that go to the origins of
/// the starts alone. Together these have at most 32,768 bytes. The credentials are for these origins, too.
#[derive(Drop)]
pub struct Fields {
    host: Option<String>,
    common: String,
    secret: String,
    // Whether an `Authorization` is among the secret lines.
    signs: bool,
    // Whether a `Cookie` is.
    has_cookie: bool,
    // Whether an `If-None-Match` or an `If-Modified-Since` is among all lines.
    has_condition: bool,
    login: Option<Login>,
}

impl Model for Fields {
    ghost use Rattle.std.specs.Prelude.{◌≤◌, option_map};
    ghost use Rattle.std.specs.String.{string_bytes};
    ghost use Rattle.requests.specs.Fields.{Sent, bytes_sent};
    ghost use Rattle.requests.specs.declared.fields.TheConstants.{MAX_SENT};

    ghost Value = { Sent };

    ghost view = { λ f. record { host = option_map string_bytes f.host; common = string_bytes f.common; secret = string_bytes f.secret; signs = f.signs; has_cookie = f.has_cookie; has_condition = f.has_condition; login = f.login } };

    ghost invariant = { λ f. bytes_sent (record { host = option_map string_bytes f.host; common = string_bytes f.common; secret = string_bytes f.secret; signs = f.signs; has_cookie = f.has_cookie; has_condition = f.has_condition; login = f.login }) ≤ MAX_SENT };
}

// Adds a field of these texts.
fn push(alloc: Global, fields: &mut Vec<Field>, name: &str, value: &str) -> Result<(), AllocError>
    ensures { OnOk result (fields.new.items ≡ fields.old.items ++ field name.now value.now ∷ []) }
{
    let field = Field::of(alloc, name, value)?;
    fields.push(field)?;
    Ok(())
}

// Adds a field of these texts, unless its value is empty.
fn push_some(
    alloc: Global,
    fields: &mut Vec<Field>,
    name: &str,
    value: &str,
) -> Result<(), AllocError>
    ensures { OnOk result (fields.new.items ≡ fields.old.items ++ some_field name.now value.now) }
{
    if value.is_empty() {
        return Ok(());
    }
    push(alloc, fields, name, value)
}

// Adds what the program is called.
fn push_agent(alloc: Global, fields: &mut Vec<Field>, agent: Option<&str>) -> Result<(), AllocError>
    ensures { OnOk result (fields.new.items ≡ fields.old.items ++ agent_fields (option_map (λ s. s.now) agent.entry)) }
{
    match agent {
        Some(agent) => push_some(alloc, fields, "User-Agent", agent),
        None => push(alloc, fields, "User-Agent", "wgetr/1.0"),
    }
}

// Adds which bodies are requested.
fn push_accept(alloc: Global, fields: &mut Vec<Field>) -> Result<(), AllocError>
    ensures { OnOk result (fields.new.items ≡ fields.old.items ++ accept_fields) }
{
    push(alloc, fields, "Accept", "*/*")?;
    push(alloc, fields, "Accept-Encoding", "identity")
}

// Adds that answers of caches aren't taken, if they aren't.
fn push_cache(alloc: Global, fields: &mut Vec<Field>, is_uncached: bool) -> Result<(), AllocError>
    ensures { OnOk result (fields.new.items ≡ fields.old.items ++ cache_fields is_uncached) }
{
    if !is_uncached {
        return Ok(());
    }
    push(alloc, fields, "Cache-Control", "no-cache")?;
    push(alloc, fields, "Pragma", "no-cache")
}

// Adds the page that is said to have led here.
fn push_referer(
    alloc: Global,
    fields: &mut Vec<Field>,
    referer: Option<&str>,
) -> Result<(), AllocError>
    ensures { OnOk result (fields.new.items ≡ fields.old.items ++ referer_fields (option_map (λ s. s.now) referer.entry)) }
{
    match referer {
        Some(url) => push_some(alloc, fields, "Referer", url),
        None => Ok(()),
    }
}

// The program's own fields.
fn own_fields(
    alloc: Global,
    agent: Option<&str>,
    referer: Option<&str>,
    is_uncached: bool,
) -> Result<Vec<Field>, AllocError>
    ensures { IfOk result (λ fields. fields.items ≡ own_fields (option_map (λ s. s.now) agent.entry) (option_map (λ s. s.now) referer.entry) is_uncached) }
{
    let mut fields = Vec::new(alloc);
    push_agent(alloc, &mut fields, agent)?;
    push_accept(alloc, &mut fields)?;
    push_cache(alloc, &mut fields, is_uncached)?;
    push_referer(alloc, &mut fields, referer)?;
    Ok(fields)
}

// What is before the first NUL, and what is after it, if there is one.
fn split_lines(lines: &str) -> (&str, Option<&str>)
    ensures { MatchOption result.1 (slice_split is_nul lines.now ≡ result.0.now ∷ [])
        (λ rest. (slice_split is_nul lines.now ≡ result.0.now ∷ slice_split is_nul rest.now) × (length rest.now < length lines.now)) }
{
    match lines.split_once('\0') {
        Some((first, rest)) => (first, Some(rest)),
        None => (lines, None),
    }
}

// The fields that lines say, with a NUL between them.
fn read_lines(alloc: Global, lines: &str) -> Result<Vec<Field>, FieldsFault>
    ensures { MatchResult result
        (λ fields. read_lines lines.now ≡ Some fields.items)
        (λ f. ((f ≡ Line) × (read_lines lines.now ≡ None)) ⊎ (f ≡ Memory)) }
{
    let mut fields = Vec::new(alloc);
    let mut rest = lines;
    loop {
        let (first, behind) = split_lines(rest);
        if !first.is_empty() {
            match read_line(alloc, first) {
                Ok(field) => fields.push(field)?,
                Err(fault) => return Err(fault),
            }
        }
        match behind {
            Some(behind) => rest = behind,
            None => return Ok(fields),
        }
    }
}

// Whether a line that isn't empty says no field that may be sent.
fn is_bad_line(alloc: Global, line: &str) -> Result<bool, AllocError>
    ensures { IfOk result (λ bad. bad ≡ is_bad_line line.now) }
{
    if line.is_empty() {
        return Ok(false);
    }
    match read_line(alloc, line) {
        Ok(_) => Ok(false),
        Err(FieldsFault::Memory) => Err(AllocError),
        Err(_) => Ok(true),
    }
}

/// The first of lines, which have a NUL between them, that says no field that may be sent, and isn't empty.
pub fn bad_line(alloc: Global, lines: &str) -> Result<Option<&str>, AllocError>
    ensures { IfOk result (λ bad. option_map (λ line. line.now) bad ≡ bad_line lines.now) }
{
    let mut rest = lines;
    'lines: loop {
        let (first, behind) = split_lines(rest);
        let is_bad = is_bad_line(alloc, first)?;
        if is_bad {
            return Ok(Some(first));
        }
        match behind {
            Some(behind) => rest = behind,
            None => return Ok(None),
        }
    }
}

// Whether one of these fields has this name.
fn is_among(name: &str, fields: &[Field]) -> bool
    ensures { result ≡ is_among name.now fields.now }
{
    fields.iter().any(|other| is_named(other.name(), name))
}

// Whether a field goes to origins of starts alone, or with all requests.
fn goes(secret: bool, name: &str) -> bool
    ensures { result ≡ goes secret name.now }
{
    if secret {
        is_secret(name)
    } else {
        !is_secret(name) && !is_named(name, "host")
    }
}

// Adds the line of a field.
fn push_line(text: &mut String, field: &Field) -> Result<(), AllocError>
    ensures { OnOk result (string_bytes text.new ≡ string_bytes text.old ++ line_of field.now) }
{
    text.push_str(field.name())?;
    text.push_str(": ")?;
    text.push_str(field.value())?;
    text.push_str("\r\n")?;
    Ok(())
}

// Adds the line of a field that goes there, unless a later one takes its place.
fn push_first(
    text: &mut String,
    secret: bool,
    first: &Field,
    later: &[Field],
) -> Result<(), AllocError>
    ensures { OnOk result (string_bytes text.new ≡ string_bytes text.old ++ first_text secret first.now later.now) }
{
    if goes(secret, first.name()) && !is_among(first.name(), later) {
        return push_line(text, first);
    }
    Ok(())
}

// The lines of those fields that are secret, or of those that aren't: a field takes the place of those of its name before it.
fn lines_text(alloc: Global, secret: bool, fields: &[Field]) -> Result<String, AllocError>
    ensures { IfOk result (λ text. string_bytes text ≡ lines_text secret fields.now) }
{
    let mut text = String::new(alloc);
    let mut rest = fields;
    while let Some((first, later)) = rest.split_first() {
        push_first(&mut text, secret, first, later)?;
        rest = later;
    }
    Ok(text)
}

// The value of the last field of this name.
fn last_named(alloc: Global, name: &str, fields: &[Field]) -> Result<Option<String>, AllocError>
    ensures { IfOk result (λ value. option_map string_bytes value ≡ last_named name.now None fields.now) }
{
    let mut value = None;
    for field in fields {
        if is_named(field.name(), name) {
            value = Some(String::from_str(alloc, field.value())?);
        }
    }
    Ok(value)
}

// How many bytes a value has, if there is one.
fn size_of(value: &Option<String>) -> usize
    ensures { result ≡ length (unwrap_or (option_map string_bytes value.now) []) }
{
    match value {
        Some(value) => value.len(),
        None => 0,
    }
}

// Whether one of these fields is a condition.
fn has_condition(fields: &[Field]) -> bool
    ensures { result ≡ (is_among (codes "if-none-match") fields.now || is_among (codes "if-modified-since") fields.now) }
{
    is_among("if-none-match", fields) || is_among("if-modified-since", fields)
}

// Whether so many bytes of host, common and secret lines aren't too many.
fn fits(host: usize, common: usize, secret: usize) -> bool
    ensures { result ≡ nat_le (host + (common + secret)) MAX_SENT }
{
    host <= MAX_SENT && common <= MAX_SENT - host && secret <= MAX_SENT - host - common
}

// What is sent of these fields and with these credentials.
fn sent(alloc: Global, login: Option<Login>, fields: &[Field]) -> Result<Fields, FieldsFault>
    ensures { MatchResult result
        (λ said. fitting (sent login fields.now) ≡ Ok said)
        (λ f. (fitting (sent login fields.now) ≡ Err f) ⊎ (f ≡ Memory)) }
{
    let host = last_named(alloc, "host", fields)?;
    let common = lines_text(alloc, false, fields)?;
    let secret = lines_text(alloc, true, fields)?;
    if fits(size_of(&host), common.len(), secret.len()) {
        Ok(Fields {
            host,
            common,
            secret,
            signs: is_among("authorization", fields),
            has_cookie: is_among("cookie", fields),
            has_condition: has_condition(fields),
            login,
        })
    } else {
        Err(FieldsFault::Size)
    }
}

// Whether a value of a field of the program's own may be.
fn is_value(value: Option<&str>) -> bool
    ensures { result ≡ is_value (option_map (λ s. s.now) value.entry) }
{
    match value {
        Some(text) => is_clean(text) && text.len() <= MAX_FIELD_LINE,
        None => true,
    }
}

// The program's own fields, and these.
fn all_fields(
    alloc: Global,
    agent: Option<&str>,
    referer: Option<&str>,
    is_uncached: bool,
    said: Vec<Field>,
) -> Result<Vec<Field>, AllocError>
    ensures { IfOk result (λ fields. fields.items ≡ own_fields (option_map (λ s. s.now) agent.entry) (option_map (λ s. s.now) referer.entry) is_uncached ++ said.items) }
{
    let mut said = said;
    let mut fields = own_fields(alloc, agent, referer, is_uncached)?;
    fields.append(&mut said)?;
    Ok(fields)
}

// What is sent of the program's own fields and these.
fn sent_with(
    alloc: Global,
    agent: Option<&str>,
    referer: Option<&str>,
    is_uncached: bool,
    login: Option<Login>,
    said: Vec<Field>,
) -> Result<Fields, FieldsFault>
    ensures { MatchResult result
        (λ all. sent_with (option_map (λ s. s.now) agent.entry) (option_map (λ s. s.now) referer.entry) is_uncached login (Some said.items) ≡ Ok all)
        (λ f. (sent_with (option_map (λ s. s.now) agent.entry) (option_map (λ s. s.now) referer.entry) is_uncached login (Some said.items) ≡ Err f) ⊎ (f ≡ Memory)) }
{
    match all_fields(alloc, agent, referer, is_uncached, said) {
        Ok(fields) => sent(alloc, login, fields.as_slice()),
        Err(_) => Err(FieldsFault::Memory),
    }
}

impl Fields {
    /// What is sent with this agent, this page that led here, whether answers of caches aren't taken, these credentials, and lines as
    /// `Accept-Language: en` with a NUL between them, of which an empty one says nothing. The fault is the first of these that can't
    /// be sent, that all are too long, or that memory ran out.
    #[tactic(auto, unfolding(crate::specs::Fields::read_fields))]
    pub fn read(
        alloc: Global,
        agent: Option<&str>,
        referer: Option<&str>,
        is_uncached: bool,
        login: Option<Login>,
        lines: &str,
    ) -> Result<Fields, FieldsFault>
        ensures { MatchResult result
            (λ said. read_fields (option_map (λ s. s.now) agent.entry) (option_map (λ s. s.now) referer.entry) is_uncached login lines.now ≡ Ok said)
            (λ f. (read_fields (option_map (λ s. s.now) agent.entry) (option_map (λ s. s.now) referer.entry) is_uncached login lines.now ≡ Err f) ⊎ (f ≡ Memory)) }
    {
        if !is_value(agent) {
            return Err(FieldsFault::Agent);
        }
        if !is_value(referer) {
            return Err(FieldsFault::Referer);
        }
        match read_lines(alloc, lines) {
            Ok(said) => sent_with(alloc, agent, referer, is_uncached, login, said),
            Err(fault) => Err(fault),
        }
    }

    /// The host that is sent in place of the address's, if one is given. Takes no memory.
    pub(crate) fn host(&self) -> Option<&str>
        ensures value { option_map (λ s. s.now) result ≡ self.now.host }
        // What all fields are, for callers to use.
        ensures short { bytes_sent self.now ≤ MAX_SENT }
    {
        match &self.host {
            Some(host) => Some(host.as_str()),
            None => None,
        }
    }

    /// The lines to each server. Takes no memory.
    pub(crate) fn common(&self) -> &str
        ensures { result.now ≡ self.now.common }
    {
        self.common.as_str()
    }

    /// The lines to origins of starts alone. Takes no memory.
    pub(crate) fn secret(&self) -> &str
        ensures { result.now ≡ self.now.secret }
    {
        self.secret.as_str()
    }

    /// Whether an `Authorization` is among the secret lines. Takes no memory.
    pub(crate) fn signs(&self) -> bool
        ensures { result ≡ self.now.signs }
    {
        self.signs
    }

    /// Whether a `Cookie` is among the secret lines. Takes no memory.
    pub(crate) fn has_cookie(&self) -> bool
        ensures { result ≡ self.now.has_cookie }
    {
        self.has_cookie
    }

    /// Whether an `If-None-Match` or an `If-Modified-Since` is among all lines. Takes no memory.
    pub(crate) fn has_condition(&self) -> bool
        ensures { result ≡ self.now.has_condition }
    {
        self.has_condition
    }

    /// The credentials for the origins of starts, if there are any. Takes no memory.
    pub(crate) fn login(&self) -> Option<&Login>
        ensures { option_map (λ l. l.now) result ≡ self.now.login }
    {
        match &self.login {
            Some(login) => Some(login),
            None => None,
        }
    }

    /// The same once more.
    pub fn try_clone(&self) -> Result<Fields, AllocError>
        ensures { IfOk result (λ copy. copy ≡ self.now) }
    {
        Ok(Fields {
            host: self.host.clone()?,
            common: self.common.clone()?,
            secret: self.secret.clone()?,
            signs: self.signs,
            has_cookie: self.has_cookie,
            has_condition: self.has_condition,
            login: copy_of(&self.login)?,
        })
    }
}
