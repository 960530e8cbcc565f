//! The log of a harvest's rejected links.
ghost use Rattle.std.specs.Prelude.{◌≡◌, ◌++◌, All, IfOk, OnOk, string_bytes};
ghost use Rattle.std.specs.List.{flat_map};
ghost use Rattle.rejected_links.specs.Lines.{line_text};
ghost use Rattle.rejected_links.specs.Rejections.{IsLogOf};
ghost use Rattle.rejected_links.specs.inner.Links.{seen, IsOfAddresses};

use crate::finding::rejected_links;
use crate::line::push_line;
use crate::rejected_link::RejectedLink;
use harvest::Harvest;
use std::alloc::{AllocError, Global};

/// The names of the columns: the reason, and eight of the link and of its page.
const HEADER: &str =
    "REASON\tU_URL\tU_SCHEME\tU_HOST\tU_PORT\tU_PATH\tU_PARAMS\tU_QUERY\tU_FRAGMENT\tP_URL\tP_SCHEME\tP_HOST\tP_PORT\tP_PATH\tP_PARAMS\tP_QUERY\tP_FRAGMENT\n";

// Adds the lines of these links.
fn push_lines(text: &mut String, links: &[RejectedLink<'_>]) -> Result<(), AllocError>
    ensures ok { OnOk result (string_bytes text.new ≡ string_bytes text.old ++ flat_map (λ link. line_text (seen link)) links.now) }
    ensures addresses { OnOk result (All IsOfAddresses links.now) }
{
    for link in links {
        push_line(text, link)?;
    }
    Ok(())
}

/// The log of a harvest: the line of the columns' names, and one for each link of an answered page that the report has no line of,
/// with the first rule that it doesn't meet, sorted by their bytes. A link that meets all rules and is too deep has none, as one
/// that robots rules refuse, which the report has. Takes n log n steps for n links. Fails only if memory runs out.
pub fn rejected_log<B: Drop>(alloc: Global, harvest: &Harvest<B>) -> Result<String, AllocError>
    ensures { IfOk result (λ text. IsLogOf harvest.now (string_bytes text)) }
{
    let mut text = String::from_str(alloc, HEADER)?;
    let Some(plan) = harvest.plan() else {
        return Ok(text);
    };
    let links = rejected_links(alloc, plan, harvest.entries(), harvest.records())?;
    push_lines(&mut text, links.as_slice())?;
    Ok(text)
}
