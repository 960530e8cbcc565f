//! How long this agent is to wait between requests by a robots file: its `Crawl-delay` lines.
ghost use Rattle.std.specs.Prelude.{◌≡◌, ℕ, Bool, [], ◌∷◌, List, map, IfOk};
ghost use Rattle.std.specs.Duration.{as_nanos};
ghost use Rattle.std.specs.Option.{option_map};
ghost use Rattle.robots_rules.specs.Lines.{agent, lines_in};
ghost use Rattle.robots_rules.specs.Groups.{groups_of};
ghost use Rattle.robots_rules.specs.Delays.{crawl_delay_in, says, delay_by, delay_groups_of, delay_of, file_line_of, file_lines_in, longest_naming};
ghost use Rattle.robots_rules.specs.Delays as values;
ghost use Rattle.robots_rules.specs.inner.AudienceView.{names_one};
ghost use Rattle.robots_rules.specs.inner.LineView.{line_value};
ghost use Rattle.robots_rules.specs.inner.DelayTally.{file_line_value, tallied};

use crate::groups::{Audience, audience_of, names_one};
use crate::lines::{
    Line, first_colon, is_line_end, is_word, line_of, lines_in, trimmed, uncommented, used,
};
use crate::seconds::delay_in;
use std::alloc::{AllocError, Global};
use std::time::Duration;

/// A line that says something of access, or a delay in nanoseconds.
#[derive(Clone, Copy)]
enum FileLine<'a> {
    Says(Line<'a>),
    Delays(u64),
}

/// What was found in the lines so far: the longest delay of the groups for us that have ended, the longest of the group that is being read, whether that is for us,
/// and whether a rule came since its last user agent.
#[derive(Clone, Copy)]
struct Tally {
    longest: u64,
    here: u64,
    is_ours: bool,
    is_behind_rule: bool,
}

/// How long this agent, `wget`, is to wait between the beginnings of two requests to the origin of a robots file: the longest delay that its groups for this agent
/// state, at most 60 seconds, and no time if there is none. The error is that memory ran out.
pub fn crawl_delay(alloc: Global, file: &[u8]) -> Result<Duration, AllocError>
    ensures delay { IfOk result (λ delay. as_nanos delay ≡ crawl_delay_in file.now) }
    // the groups that the delays are of are those that the rules are of
    ensures groups { map (λ group. group.agents) (delay_groups_of (file_lines_in file.now)).groups ≡ map (λ group. group.agents) (groups_of (lines_in file.now)).groups }
{
    let audience = audience_of(&lines_in(alloc, file)?);
    let lines = file_lines_in(alloc, file)?;
    Ok(Duration::from_nanos(longest_delay(&lines, audience)))
}

/// The lines of a file that say something or state a delay.
fn file_lines_in(alloc: Global, file: &[u8]) -> Result<Vec<FileLine<'_>>, AllocError>
    ensures { IfOk result (λ lines. map file_line_value lines.items ≡ file_lines_in file.now) }
{
    let mut lines = Vec::new(alloc);
    for text in used(file).split(|octet| is_line_end(*octet)) {
        if let Some(line) = file_line_of(text) {
            lines.push(line)?;
        }
    }
    Ok(lines)
}

/// What the line says, or `None` if it says nothing.
#[tactic(auto, unfolding(crate::specs::Delays::file_line_of))]
fn file_line_of(text: &[u8]) -> Option<FileLine<'_>>
    ensures { option_map file_line_value result ≡ file_line_of text.now }
{
    if let Some(line) = line_of(text) {
        return Some(FileLine::Says(line));
    }
    match delay_of(text) {
        Some(nanos) => Some(FileLine::Delays(nanos)),
        None => None,
    }
}

/// The delay that the line states, if it does.
fn delay_of(text: &[u8]) -> Option<u64>
    ensures { result ≡ delay_of text.now }
{
    let text = uncommented(text);
    match first_colon(text) {
        Some(colon) => delay_by(trimmed(&text[..colon]), trimmed(&text[colon + 1..])),
        None => None,
    }
}

fn delay_by(key: &[u8], value: &[u8]) -> Option<u64>
    ensures { result ≡ delay_by key.now value.now }
{
    if is_word(b"crawl-delay", key) {
        delay_in(value)
    } else {
        None
    }
}

/// The longest delay of all groups with a user agent of this audience.
fn longest_delay(lines: &[FileLine<'_>], audience: Audience) -> u64
    ensures { result ≡ longest_naming (names_one audience) (delay_groups_of (map file_line_value lines.now)).groups }
{
    let mut tally = Tally {
        longest: 0,
        here: 0,
        is_ours: false,
        is_behind_rule: true,
    };
    for line in lines {
        tally = with_line(tally, *line, audience);
    }
    with_group(tally)
}

/// The longest delay if the group that is being read ends here.
fn with_group(tally: Tally) -> u64
    ensures { (names : List ℕ → Bool) → result ≡ tallied names tally [] }
{
    if tally.is_ours {
        tally.longest.max(tally.here)
    } else {
        tally.longest
    }
}

/// The tally with one line more.
fn with_line(tally: Tally, line: FileLine<'_>, audience: Audience) -> Tally
    ensures { (rest : List values.FileLine) → tallied (names_one audience) result rest ≡ tallied (names_one audience) tally (file_line_value line.entry ∷ rest) }
{
    match line {
        FileLine::Says(line) => with_said(tally, line, audience),
        FileLine::Delays(nanos) => Tally {
            here: tally.here.max(nanos),
            ..tally
        },
    }
}

/// The tally with one line of access more.
fn with_said(tally: Tally, line: Line<'_>, audience: Audience) -> Tally
    ensures { (rest : List values.FileLine) → tallied (names_one audience) result rest ≡ tallied (names_one audience) tally (says (line_value line.entry) ∷ rest) }
{
    match line {
        Line::Agent(value) => with_agent(tally, names_one(audience, value)),
        Line::Rule { .. } => Tally {
            is_behind_rule: true,
            ..tally
        },
    }
}

/// The tally with one user agent more, which is for us or not.
fn with_agent(tally: Tally, is_named: bool) -> Tally
    ensures { (names : List ℕ → Bool) (name : List ℕ) (rest : List values.FileLine) → names name ≡ is_named → tallied names result rest ≡ tallied names tally (says (agent name) ∷ rest) }
{
    if tally.is_behind_rule {
        Tally {
            longest: with_group(tally),
            here: 0,
            is_ours: is_named,
            is_behind_rule: false,
        }
    } else {
        Tally {
            is_ours: is_named || tally.is_ours,
            ..tally
        }
    }
}
