//! Quotas: how many bytes kept bodies may have together before nothing more is requested (GNU Wget manual, Download Options).
ghost use Rattle.std.specs.Prelude.{◌≡◌, ◌≤◌, ◌+◌, ◌↔◌, ℕ, Option, None, IsTrue, false, length, take};
ghost use Rattle.std.specs.List.{sum_by};
ghost use Rattle.workers.specs.Quotas.{IsPassed, page_len};
ghost use Rattle.workers.specs.inner.Lefts.{IsLeft};

use harvest::KeptPage;
use std::sync::atomic::{AtomicU64, Ordering};

/// The most bytes that bodies may have, and how many each has.
pub trait Quota<B> {
    // The most bytes; none if there may be any number.
    ghost most: { Self → Option ℕ };

    // How many bytes a body has.
    ghost len_of: { B → ℕ };

    /// The most bytes, if there is a limit. Takes no memory.
    fn most(&self) -> Option<u64>
        ensures { result ≡ most self.now };

    /// How many bytes a body has. Takes no memory.
    fn len_of(&self, body: &B) -> u64
        ensures { result ≡ len_of body.now };
}

/// No quota.
#[derive(Clone, Copy)]
pub struct NoQuota;

impl<B> Quota<B> for NoQuota {
    ghost use Rattle.std.specs.Prelude.{None};

    ghost most = { λ quota. None };

    // Nothing is counted.
    ghost len_of = { λ body. 0 };

    fn most(&self) -> Option<u64> {
        None
    }

    fn len_of(&self, _body: &B) -> u64 {
        0
    }
}

/// Whether the bodies of these pages have more bytes than the quota.
pub(crate) fn are_passed<B, Q: Quota<B>>(quota: &Q, pages: &[KeptPage<B>]) -> bool
    ensures { IsTrue result ↔ IsPassed (Q.most quota.now) (sum_by (page_len Q.len_of) pages.now) }
{
    let Some(most) = quota.most() else {
        return false;
    };
    let mut left = most;
    for page in pages {
        let len = quota.len_of(&page.body);
        if left < len {
            return true;
        }
        left -= len;
    }
    false
}

/// How many bytes are left of the quota at first; 0 if there is none.
pub(crate) fn left_at_first<B, Q: Quota<B>>(quota: &Q) -> u64
    ensures { IsLeft (Q.most quota.now) 0 result }
{
    quota.most().unwrap_or(0)
}

/// Whether the page at this place, if there is one, passes the quota, by how many bytes the pages before it have left of it.
/// What it leaves itself is left from now on.
pub(crate) fn passes<B, Q: Quota<B>>(
    quota: &Q,
    left: &mut u64,
    pages: &[KeptPage<B>],
    place: usize,
) -> bool
    requires left { IsLeft (Q.most quota.now) (sum_by (page_len Q.len_of) (take place pages.now)) left.old }
    requires last { length pages.now ≤ place + 1 }
    ensures passed { IsTrue result ↔ IsPassed (Q.most quota.now) (sum_by (page_len Q.len_of) pages.now) }
    ensures left { result ≡ false → IsLeft (Q.most quota.now) (sum_by (page_len Q.len_of) pages.now) left.new }
{
    if quota.most().is_none() {
        return false;
    }
    let Some(page) = pages.get(place) else {
        return false;
    };
    let len = quota.len_of(&page.body);
    if *left < len {
        return true;
    }
    *left -= len;
    false
}

/// How many bytes all workers together keep. What it counts no clause can say.
#[derive(Drop)]
pub(crate) struct Meter<'a, Q> {
    quota: &'a Q,
    kept: AtomicU64,
}

impl<'a, Q> Meter<'a, Q> {
    /// Nothing is kept yet.
    pub fn new(quota: &'a Q) -> Self {
        Meter {
            quota,
            kept: AtomicU64::new(0),
        }
    }

    /// Counts a body, and says whether it passes the quota with those that were counted before.
    pub fn passes<B>(&self, body: &B) -> bool
    where
        Q: Quota<B>,
    {
        let Some(most) = self.quota.most() else {
            return false;
        };
        let len = self.quota.len_of(body);
        let before = self.kept.fetch_add(len, Ordering::Relaxed);
        before.saturating_add(len) > most
    }
}
