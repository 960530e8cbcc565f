//! Starts that moved away, for a person.
use live_system::System;
use moved_starts::moves_text;
use std::alloc::Global;
use workers::{Halt, Harvest};

/// Reports to a person the starts that moved away, unless there is no memory for it or the retrieval stopped.
pub(crate) fn report_moves<S: System, B: Drop>(
    alloc: Global,
    system: &S,
    retrieved: &Result<Harvest<B>, Halt<B>>,
) {
    let Ok(harvest) = retrieved else {
        return;
    };
    let Some(plan) = harvest.plan() else {
        return;
    };
    if let Ok(text) = moves_text(alloc, plan, harvest.records()) {
        system.report(text.as_str());
    }
}
