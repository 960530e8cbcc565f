//! What the name of one page by itself depends on.
ghost use Rattle.std.specs.Prelude.{◌≡◌, ℕ, List, IfOk, string_bytes};
ghost use Rattle.follow_filters.specs.Rules.{keeps_of};
ghost use Rattle.early_names.specs.LoneNames.{lone_name};

use crate::lone::lone_name;
use address::Address;
use follow_filters::Plan;
use kept_bodies::BodyKind;
use local_names::NameRules;
use std::alloc::{AllocError, Global};

/// What a run says of the names of its pages.
#[derive(Drop)]
pub struct EarlyRules {
    /// A plan that keeps the pages that the run's does.
    pub plan: Plan,
    /// What shapes the names.
    pub names: NameRules,
    /// Whether they end as the kinds of bodies say.
    pub has_endings: bool,
}

// A plan that keeps the same pages, without the starts.
fn kept_by(alloc: Global, plan: &Plan) -> Result<Plan, AllocError>
    ensures { IfOk result (λ copy. (address : List ℕ) → keeps_of copy address ≡ keeps_of plan.now address) }
{
    let mut copy = Plan::unfiltered(alloc, plan.start.try_clone()?, plan.limit, 1);
    copy.accept = plan.accept.clone()?;
    copy.reject = plan.reject.clone()?;
    copy.ignore_case = plan.ignore_case;
    Ok(copy)
}

// A copy of a page's name, if there is one.
fn copy_of(alloc: Global, name: &Option<String>) -> Result<Option<String>, AllocError> {
    match name {
        Some(name) => Ok(Some(String::from_str(alloc, name.as_str())?)),
        None => Ok(None),
    }
}

impl EarlyRules {
    /// Those of a run with this plan, these rules of names, and endings or not.
    pub fn of(
        alloc: Global,
        plan: &Plan,
        names: &NameRules,
        has_endings: bool,
    ) -> Result<EarlyRules, AllocError>
        ensures keeps { IfOk result (λ rules. (address : List ℕ) → keeps_of rules.plan address ≡ keeps_of plan.now address) }
        ensures endings { IfOk result (λ rules. rules.has_endings ≡ has_endings) }
    {
        Ok(EarlyRules {
            plan: kept_by(alloc, plan)?,
            names: NameRules {
                has_directories: names.has_directories,
                has_protocol: names.has_protocol,
                has_host: names.has_host,
                cut_dirs: names.cut_dirs,
                default_page: copy_of(alloc, &names.default_page)?,
                chars: names.chars,
                has_originals: names.has_originals,
            },
            has_endings,
        })
    }

    /// Whether a page of this address is kept. Takes no memory.
    pub fn keeps(&self, page: &Address) -> bool
        ensures { result ≡ keeps_of self.now.plan page.now }
    {
        self.plan.keeps(page)
    }

    /// The name that a page has by itself if its body is of this kind.
    pub fn name_of(
        &self,
        alloc: Global,
        kind: BodyKind,
        page: &Address,
    ) -> Result<String, AllocError>
        ensures { IfOk result (λ name. string_bytes name ≡ lone_name self.now.has_endings self.now.names kind page.now) }
    {
        lone_name(alloc, &self.names, self.has_endings, kind, page)
    }
}
