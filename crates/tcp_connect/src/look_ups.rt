//! Look-ups of hosts that are waited for no longer than a limit: each is made in a thread of its own.
use crate::hosts::look_up;
use crate::lacks::{Lack, OpenFault};
use run_failures::LossKind;
use std::alloc::{AllocError, Global};
use std::net::{Net, SocketAddr};
use std::sync::{Arc, Condvar, Mutex, Wait};
use std::thread;
use std::thread::Threads;
use std::time::{Clock, Duration};

// What came of a look-up: the addresses of a host, or why there are none.
type LookedUp = Result<Vec<SocketAddr>, OpenFault>;

// A host that is looked up in another thread, and what came of it: none until then.
#[derive(Drop)]
struct LookUp {
    alloc: Global,
    name: String,
    found: Mutex<Option<LookedUp>>,
    is_found: Condvar,
}

impl LookUp {
    fn of(alloc: Global, name: &str) -> Result<Arc<LookUp>, AllocError> {
        let name = String::from_str(alloc, name)?;
        let look_up = LookUp {
            alloc,
            name,
            found: Mutex::new(None),
            is_found: Condvar::new(),
        };
        Ok(Arc::new(alloc, look_up)?)
    }

    // Makes it, however long that takes.
    fn make<R: Net + Wait>(&self, rt: &R) {
        self.end(rt, look_up(rt, self.alloc, self.name.as_str()));
    }

    // This came of it.
    fn end<R: Wait>(&self, rt: &R, found: LookedUp) {
        *self.found.lock(rt) = Some(found);
        self.is_found.notify_one();
    }

    // What comes of it within the limit. If nothing does, the resolver had no answer.
    fn wait<R: Wait + Clock>(&self, rt: &R, limit: Duration) -> LookedUp {
        let found = self.found.lock(rt);
        let (mut found, _) = self
            .is_found
            .wait_timeout_while(rt, found, limit, |found| found.is_none());
        taken_of(&mut found)
    }
}

// What came of a look-up by now. It takes `&mut` to what is under the lock, so that no early return releases it.
fn taken_of(found: &mut Option<LookedUp>) -> LookedUp {
    match found.take() {
        Some(found) => found,
        None => Err(OpenFault::Failed(LossKind::Resolver)),
    }
}

// Look-ups that nobody makes yet. One thread waits for them, as long as the program runs, and starts another for each.
#[derive(Drop)]
pub(crate) struct Desk {
    wanted: Mutex<Vec<Arc<LookUp>>>,
    is_wanted: Condvar,
}

impl Desk {
    // None is wanted. The thread that waits for them is started.
    pub(crate) fn open<R: Net + Wait + Threads + Copy + Send + 'static>(
        rt: &R,
        alloc: Global,
    ) -> Result<Arc<Desk>, AllocError>
    where
        R::Stream: Send,
        R::Listener: Send,
    {
        let desk = Desk {
            wanted: Mutex::new(Vec::new(alloc)),
            is_wanted: Condvar::new(),
        };
        let desk = Arc::new(alloc, desk)?;
        let theirs = Arc::try_clone(&desk)?;
        let own = *rt;
        drop(thread::spawn(rt, move || theirs.serve(own))?);
        Ok(desk)
    }

    // What a host's look-up comes to within the limit. A look-up that takes longer goes on, and nobody waits for it.
    pub(crate) fn look_up<R: Wait + Clock>(
        &self,
        rt: &R,
        alloc: Global,
        name: &str,
        limit: Duration,
    ) -> LookedUp {
        let look_up = LookUp::of(alloc, name)?;
        want(&mut self.wanted.lock(rt), Arc::try_clone(&look_up)?)?;
        self.is_wanted.notify_one();
        look_up.wait(rt, limit)
    }

    // Has each look-up made that is wanted.
    fn serve<R: Net + Wait + Threads + Copy + Send + 'static>(&self, rt: R)
    where
        R::Stream: Send,
        R::Listener: Send,
    {
        for _ in rt.forever() {
            let wanted = self
                .is_wanted
                .wait_while(&rt, self.wanted.lock(&rt), |wanted| wanted.is_empty())
                .pop();
            if let Some(look_up) = wanted {
                start(rt, look_up);
            }
        }
    }
}

// Wants one more look-up.
fn want(wanted: &mut Vec<Arc<LookUp>>, look_up: Arc<LookUp>) -> Result<(), AllocError> {
    match wanted.push(look_up) {
        Ok(()) => Ok(()),
        Err(_) => Err(AllocError),
    }
}

// Has a look-up made in a thread of its own. If there is none, it is waited for as for a descriptor.
fn start<R: Net + Wait + Threads + Copy + Send + 'static>(rt: R, look_up: Arc<LookUp>)
where
    R::Stream: Send,
    R::Listener: Send,
{
    let Ok(theirs) = Arc::try_clone(&look_up) else {
        look_up.end(&rt, Err(OpenFault::Memory));
        return;
    };
    if thread::spawn(&rt, move || theirs.make(&rt)).is_err() {
        look_up.end(&rt, Err(OpenFault::Lacking(Lack::Descriptor)));
    }
}
