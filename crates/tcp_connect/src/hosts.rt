//! What the connections of a run know of hosts.
ghost use Rattle.std.specs.Prelude.{◌<◌};

use crate::lacks::{Lack, OpenFault, is_again, lack_of, lacks_descriptor};
use crate::look_ups::Desk;
use address::Origin;
use indexmap::IndexMap;
use pacing::{Flow, Manner, Turns};
use run_failures::LossKind;
use std::alloc::{AllocError, Global};
use std::io::{Error, ErrorKind};
use std::net::{IpAddr, Net, SocketAddr, ToSocketAddrs};
use std::sync::atomic::{AtomicBool, AtomicU64, Ordering};
use std::sync::{Arc, Mutex, Wait};
use std::thread::Threads;
use std::time::{Clock, Duration};

/// What the connections of a run know of hosts, shared by all workers: each host's addresses, which servers keep their
/// connections open, which don't answer, when an origin's next request may begin, and when the next read of all may.
pub struct Hosts {
    // By the host of a URL, with its brackets.
    by_name: Mutex<IndexMap<String, Arc<Host>>>,
    open: Mutex<Vec<SocketAddr>>,
    silent: Mutex<Vec<SocketAddr>>,
    // How many connections have ended.
    ended: AtomicU64,
    turns: Mutex<Turns>,
    flow: Mutex<Flow>,
    // Whether an origin was to be left alone at some time.
    has_holds: AtomicBool,
    // What looks hosts up within a limit, if anything does.
    desk: Mutex<Option<Arc<Desk>>>,
    alloc: Global,
}

// By hand: who drops one proves a call, and nothing of what it holds.
impl Drop for Hosts {
    fn drop(self) {
        let Hosts {
            by_name: _by_name,
            open: _open,
            silent: _silent,
            ended: _ended,
            turns: _turns,
            flow: _flow,
            has_holds: _has_holds,
            desk: _desk,
            alloc: _alloc,
        } = self;
    }
}

// What is known of a host. None if nobody looked it up yet.
//
// The lock is held while it is looked up, so that a worker who needs the same host waits, and no other does.
#[derive(Drop)]
pub(crate) struct Host {
    known: Mutex<Option<KnownHost>>,
}

// The addresses of a host, with no port, in the order in which they are to be tried; none if the look-up failed.
#[derive(Drop)]
pub(crate) struct KnownHost {
    pub(crate) addresses: Vec<SocketAddr>,
    // The one that took a connection last. It is in front.
    pub(crate) took: Option<SocketAddr>,
    // Why a connection is lost if there is no address for it.
    pub(crate) why: LossKind,
}

impl Hosts {
    /// Knows of no host. Takes no memory.
    pub fn new(alloc: Global) -> Hosts {
        Hosts {
            by_name: Mutex::new(IndexMap::new(alloc)),
            open: Mutex::new(Vec::new(alloc)),
            silent: Mutex::new(Vec::new(alloc)),
            ended: AtomicU64::new(0),
            turns: Mutex::new(Turns::new(alloc)),
            flow: Mutex::new(Flow::new()),
            has_holds: AtomicBool::new(false),
            desk: Mutex::new(None),
            alloc,
        }
    }

    /// Has hosts looked up in threads of their own from now on if this manner has a limit on that: without this call there is none. A look-up
    /// that takes longer goes on until the resolver ends it, and nobody waits for it. The error is that there is no memory, or no thread.
    pub fn limit_lookups<R: Net + Wait + Threads + Copy + Send + 'static>(
        &self,
        rt: &R,
        manner: &Manner,
    ) -> Result<(), AllocError>
    where
        R::Stream: Send,
        R::Listener: Send,
    {
        if manner.lookup_limit.is_none() {
            return Ok(());
        }
        open_desk(rt, self.alloc, &mut self.desk.lock(rt))
    }

    // The addresses of the host of this name, looked up within a limit, if there is one.
    fn look_up<R: Net + Wait + Clock>(
        &self,
        rt: &R,
        name: &str,
        limit: Option<Duration>,
    ) -> Result<Vec<SocketAddr>, OpenFault> {
        let desk = desk_among(&self.desk.lock(rt));
        match (limit, desk) {
            (Some(limit), Some(desk)) if !is_address(name) => {
                desk.look_up(rt, self.alloc, name, limit)
            }
            _ => look_up(rt, self.alloc, name),
        }
    }

    // The host of this name, which is known from now on.
    pub(crate) fn host<R: Wait>(&self, rt: &R, name: &str) -> Result<Arc<Host>, AllocError> {
        host_among(self.alloc, &mut self.by_name.lock(rt), name)
    }

    // Whether this server keeps its connections open, so that nobody waits for it to close one.
    pub(crate) fn is_open<R: Wait>(&self, rt: &R, server: SocketAddr) -> bool {
        has(&self.open.lock(rt), server)
    }

    // Keeps that this server keeps its connections open. If there is no memory for it, it is waited for again.
    pub(crate) fn note_open<R: Wait>(&self, rt: &R, server: SocketAddr) {
        let _ = self.open.lock(rt).push(server);
    }

    // Whether a connection to this server ran into the system's time limit.
    pub(crate) fn is_silent<R: Wait>(&self, rt: &R, server: SocketAddr) -> bool {
        has(&self.silent.lock(rt), server)
    }

    // Keeps that a connection to this server ran into the system's time limit. If there is no memory for it, the server is
    // tried again.
    pub(crate) fn note_silent<R: Wait>(&self, rt: &R, server: SocketAddr) {
        let _ = self.silent.lock(rt).push(server);
    }

    // When a request to an origin is to begin that could begin now, and after which there is this pause. It is waited for after the
    // lock was released.
    pub(crate) fn book<R: Wait>(
        &self,
        rt: &R,
        of: &Origin,
        now: u64,
        pause: u64,
    ) -> Result<u64, AllocError> {
        book_among(&mut self.turns.lock(rt), of, now, pause)
    }

    // No request to an origin is to begin before this time. If there is no memory for it, it may.
    pub(crate) fn hold<R: Wait>(&self, rt: &R, of: &Origin, until: u64) {
        self.has_holds.store(true, Ordering::SeqCst);
        hold_among(&mut self.turns.lock(rt), of, until);
    }

    // From the last request to an origin on, so many nanoseconds at least are to pass between the beginnings of two requests to it. If
    // there is no memory for it, fewer may.
    pub(crate) fn space<R: Wait>(&self, rt: &R, of: &Origin, delay: u64) {
        space_among(&mut self.turns.lock(rt), of, delay);
    }

    // When the next read may begin after so many bytes were read by now, at a rate. It is waited for after the lock was released.
    pub(crate) fn book_read<R: Wait>(&self, rt: &R, rate: u64, bytes: u64, now: u64) -> u64
        requires { 0 < rate }
    {
        book_read_among(&mut self.flow.lock(rt), rate, bytes, now)
    }

    // Whether an origin was to be left alone at some time.
    pub(crate) fn has_holds(&self) -> bool {
        self.has_holds.load(Ordering::SeqCst)
    }

    // Forgets that the host of this name had no address, and that its servers didn't answer.
    pub(crate) fn forget_faults<R: Wait>(&self, rt: &R, name: &str) {
        let host = found_among(&self.by_name.lock(rt), name);
        if let Some(host) = host {
            forget_among(&mut host.known.lock(rt), &mut self.silent.lock(rt));
        }
    }

    // How many connections of the run have ended.
    pub(crate) fn ended(&self) -> u64 {
        self.ended.load(Ordering::SeqCst)
    }

    // One more connection has ended: what the system gave for it is free again.
    pub(crate) fn note_end(&self) {
        self.ended.fetch_add(1, Ordering::SeqCst);
    }
}

// Whether this server is one of these.
pub(crate) fn has(servers: &[SocketAddr], server: SocketAddr) -> bool {
    servers.iter().any(|known| *known == server)
}

impl KnownHost {
    // None of the addresses took a connection yet.
    fn of(addresses: Vec<SocketAddr>, why: LossKind) -> KnownHost {
        KnownHost {
            addresses,
            took: None,
            why,
        }
    }

    fn copied(&self) -> Result<KnownHost, OpenFault> {
        Ok(KnownHost {
            addresses: self.addresses.clone()?,
            took: self.took,
            why: self.why,
        })
    }
}

impl Host {
    // What is known of the host. It is looked up if nobody did yet, within a limit, if there is one.
    pub(crate) fn known<R: Net + Wait + Clock>(
        &self,
        rt: &R,
        hosts: &Hosts,
        name: &str,
        limit: Option<Duration>,
    ) -> Result<KnownHost, OpenFault> {
        known_among(rt, hosts, name, limit, &mut self.known.lock(rt))
    }

    // This address took a connection: the next one begins with it, and goes round.
    pub(crate) fn took<R: Wait>(&self, rt: &R, address: SocketAddr) {
        if let Some(known) = &mut *self.known.lock(rt) {
            begin_with(&mut known.addresses, address);
            known.took = Some(address);
        }
    }
}

// These functions take `&mut` to what is under a lock, so that no early return of theirs releases it.

// Has look-ups made within limits, if they aren't yet.
fn open_desk<R: Net + Wait + Threads + Copy + Send + 'static>(
    rt: &R,
    alloc: Global,
    desk: &mut Option<Arc<Desk>>,
) -> Result<(), AllocError>
where
    R::Stream: Send,
    R::Listener: Send,
{
    if desk.is_none() {
        *desk = Some(Desk::open(rt, alloc)?);
    }
    Ok(())
}

// What looks hosts up within a limit, if anything does.
fn desk_among(desk: &Option<Arc<Desk>>) -> Option<Arc<Desk>> {
    Arc::try_clone(desk.as_ref()?).ok()
}

// When a request to an origin is to begin, by the turns of the run.
fn book_among(turns: &mut Turns, of: &Origin, now: u64, pause: u64) -> Result<u64, AllocError> {
    turns.book(of, now, pause)
}

// An origin is left alone until this time.
fn hold_among(turns: &mut Turns, of: &Origin, until: u64) {
    let _ = turns.hold(of, until);
}

// An origin has this least pause from now on.
fn space_among(turns: &mut Turns, of: &Origin, delay: u64) {
    let _ = turns.space(of, delay);
}

// When the next read may begin, by all reads of the run.
fn book_read_among(flow: &mut Flow, rate: u64, bytes: u64, now: u64) -> u64
    requires { 0 < rate }
{
    flow.book(rate, bytes, now)
}

// The host of this name, if it is known.
fn found_among(by_name: &IndexMap<String, Arc<Host>>, name: &str) -> Option<Arc<Host>> {
    Arc::try_clone(by_name.get(name)?).ok()
}

// Forgets that a host has no address, and that servers at its addresses don't answer.
fn forget_among(known: &mut Option<KnownHost>, silent: &mut Vec<SocketAddr>) {
    let Some(KnownHost { addresses, .. }) = known else {
        return;
    };
    if addresses.is_empty() {
        *known = None;
    } else {
        silent.retain(|server| !has_ip(addresses, *server));
    }
}

// Whether a server is at one of these addresses.
fn has_ip(addresses: &[SocketAddr], server: SocketAddr) -> bool {
    addresses.iter().any(|address| address.ip() == server.ip())
}

// The host of this name among those that are known, or a new one.
fn host_among(
    alloc: Global,
    by_name: &mut IndexMap<String, Arc<Host>>,
    name: &str,
) -> Result<Arc<Host>, AllocError> {
    match by_name.get(name) {
        Some(host) => Arc::try_clone(host),
        None => add_host(alloc, by_name, name),
    }
}

// A new host, which is known by this name from now on.
fn add_host(
    alloc: Global,
    by_name: &mut IndexMap<String, Arc<Host>>,
    name: &str,
) -> Result<Arc<Host>, AllocError> {
    let name = String::from_str(alloc, name)?;
    let host = Arc::new(
        alloc,
        Host {
            known: Mutex::new(None),
        },
    )?;
    by_name.insert(name, Arc::try_clone(&host)?)?;
    Ok(host)
}

// What is known, or looked up now. Only an answer about the host is kept, or that none came within the limit.
fn known_among<R: Net + Wait + Clock>(
    rt: &R,
    hosts: &Hosts,
    name: &str,
    limit: Option<Duration>,
    known: &mut Option<KnownHost>,
) -> Result<KnownHost, OpenFault> {
    if let Some(known) = known {
        return known.copied();
    }
    let found = match hosts.look_up(rt, name, limit) {
        Ok(addresses) => KnownHost::of(addresses, LossKind::Unknown),
        Err(OpenFault::Failed(why)) => KnownHost::of(Vec::new(hosts.alloc), why),
        Err(fault) => return Err(fault),
    };
    let copy = found.copied()?;
    *known = Some(found);
    Ok(copy)
}

// Puts this address in front, if it is there; the others follow as they go round.
fn begin_with(addresses: &mut [SocketAddr], first: SocketAddr) {
    if let Some(at) = addresses.iter().position(|a| *a == first) {
        addresses.rotate_left(at);
    }
}

// A host as a lookup takes it: an IPv6 address is in brackets in a URL, and without them here (URL Standard, section
// 3.5).
fn plain_host(host: &str) -> &str {
    match host.strip_prefix('[') {
        Some(rest) => rest.strip_suffix(']').unwrap_or(host),
        None => host,
    }
}

// Whether the host of a URL is an address, which needs no look-up.
fn is_address(name: &str) -> bool {
    plain_host(name).parse::<IpAddr>().is_ok()
}

// What is known if a look-up failed: no addresses, except if memory runs out or the system is short of something. The
// resolver may say that there is no such host if it had no descriptor for its question.
fn none_found<R: Net>(rt: &R, alloc: Global, e: &Error) -> Result<Vec<SocketAddr>, OpenFault> {
    if e.kind() == ErrorKind::OutOfMemory {
        return Err(OpenFault::Memory);
    }
    if let Some(lack) = lack_of(e) {
        return Err(OpenFault::Lacking(lack));
    }
    if lacks_descriptor(rt) {
        return Err(OpenFault::Lacking(Lack::Descriptor));
    }
    if is_again(alloc, e)? {
        return Err(OpenFault::Lacking(Lack::Resolver));
    }
    Ok(Vec::new(alloc))
}

// The addresses of a host. A descriptor has to be there before it is asked, and after an answer that there is none.
pub(crate) fn look_up<R: Net>(
    rt: &R,
    alloc: Global,
    name: &str,
) -> Result<Vec<SocketAddr>, OpenFault> {
    if lacks_descriptor(rt) {
        return Err(OpenFault::Lacking(Lack::Descriptor));
    }
    match (plain_host(name), 0u16).to_socket_addrs(rt) {
        Ok(found) => {
            let mut addresses = Vec::new(alloc);
            for address in found {
                let Ok(()) = addresses.push(address) else {
                    return Err(OpenFault::Memory);
                };
            }
            Ok(addresses)
        }
        Err(e) => none_found(rt, alloc, &e),
    }
}
