//! Questions over connections: if one is refused memory, the connection that it was given is ended or kept all the same.
use crate::growth::common::address;
use address::{Address, Origin};
use fetcher::Fetcher;
use html_links::LinkRules;
use http_fetcher::{Connect, ConnectFault, HttpFetcher};
use memory_connect::{MemoryConnect, StoredAnswer};
use std::alloc::{AllocError, Global};
use std::process::Abort;

/// What is answered, a line for each address, CR LF as `|`.
const SITE: &str =
    "http://h/ HTTP/1.1 200 |Content-Type: text/html||<a href=\"/aaaaaaaaaaaaaaaa\">b</a>
http://h/m HTTP/1.1 302 |Location: /nnnnnnnnnnnnnnnnn|Content-Length: 0||
http://h/cut HTTP/1.1 2
http://h/robots.txt HTTP/1.1 302 |Location: /r|Content-Length: 0||
http://h/r HTTP/1.1 200 ||User-agent: *|Disallow: /a";

// Counts the connections that another gave, new or kept, and those that were ended or given back.
#[derive(Drop)]
struct Counted<C: Connect> {
    inner: C,
    given: u32,
    ended: u32,
}

impl<C: Connect> Counted<C> {
    fn new(inner: C) -> Counted<C> {
        Counted {
            inner,
            given: 0,
            ended: 0,
        }
    }
}

impl<C: Connect> Connect for Counted<C> {
    type Wire = C::Wire;

    ghost made = { λ e. C.made e.inner };

    ghost failed = { λ e. C.failed e.inner };

    ghost refused = { λ e. C.refused e.inner };

    ghost gives = { λ e of wire. C.gives e.inner of wire };

    ghost taken = { λ e. C.taken e.inner };

    ghost stands = { λ e of wire. C.stands e.inner of wire };

    ghost again = { C.again };

    fn connect(&mut self, of: &Origin) -> Result<C::Wire, ConnectFault> {
        let wire = self.inner.connect(of)?;
        self.given = self.given.saturating_add(1);
        Ok(wire)
    }

    fn take(&mut self, of: &Origin) -> Option<C::Wire> {
        let wire = self.inner.take(of)?;
        self.given = self.given.saturating_add(1);
        Some(wire)
    }

    fn give_back(&mut self, of: &Origin, wire: C::Wire) {
        self.inner.give_back(of, wire);
        self.ended = self.ended.saturating_add(1);
    }

    fn close(&mut self, wire: C::Wire) {
        self.inner.close(wire);
        self.ended = self.ended.saturating_add(1);
    }

    fn failures(&self) -> u64 {
        self.inner.failures()
    }
}

fn try_bytes(alloc: Global, text: &str) -> Result<Vec<u8>, AllocError> {
    let mut bytes = Vec::new(alloc);
    for byte in text.bytes() {
        if byte == b'|' {
            bytes.push(b'\r')?;
        }
        bytes.push(if byte == b'|' { b'\n' } else { byte })?;
    }
    Ok(bytes)
}

fn try_site(rt: &impl Abort, alloc: Global) -> Result<Vec<StoredAnswer>, AllocError> {
    let mut answers = Vec::new(alloc);
    for line in SITE.lines() {
        if let Some((at, text)) = line.split_once(' ') {
            let bytes = try_bytes(alloc, text)?;
            let at = address(rt, alloc, at);
            answers.push(StoredAnswer { at, bytes })?;
        }
    }
    Ok(answers)
}

/// The answers of the site.
fn site(rt: &impl Abort, alloc: Global) -> Vec<StoredAnswer> {
    match try_site(rt, alloc) {
        Ok(answers) => answers,
        Err(_) => try_site(rt, alloc).expect(rt, "memory"),
    }
}

fn try_origin(rt: &impl Abort, alloc: Global) -> Origin {
    let start = address(rt, alloc, "http://h/");
    match Origin::of(&start) {
        Ok(of) => of,
        Err(_) => Origin::of(&start).expect(rt, "memory"),
    }
}

/// Requests each address, and what is refused once more; and the rules of the origin.
fn ask_all<C: Connect>(fetcher: &mut HttpFetcher<C>, all: &[Address], of: &Origin) -> bool {
    for at in all {
        if fetcher.ask(at).is_err() && fetcher.ask(at).is_err() {
            return false;
        }
    }
    fetcher.ask_robots(of).is_ok() || fetcher.ask_robots(of).is_ok()
}

/// What a fetcher does besides asking.
#[derive(Clone, Copy, PartialEq, Eq)]
enum Besides {
    Nothing,
    Records,
    Keeps,
}

/// A fetcher over these connections.
fn fetcher_of<C: Connect>(
    alloc: Global,
    counted: Counted<C>,
    besides: Besides,
) -> HttpFetcher<Counted<C>> {
    match besides {
        Besides::Nothing => HttpFetcher::new(alloc, counted, LinkRules::all(true)),
        Besides::Records => HttpFetcher::recording(alloc, counted, LinkRules::all(true)),
        Besides::Keeps => HttpFetcher::new(alloc, counted, LinkRules::all(true)).keeping(),
    }
}

/// Demands that each connection that was given was ended or given back, whatever was refused. Gives whether there was one for each
/// question and for the robots file's redirect: a connection that finds no memory for a request fails, and then no redirect is
/// followed.
fn are_all_ended<C: Connect>(
    rt: &impl Abort,
    alloc: Global,
    inner: C,
    besides: Besides,
    all: &[Address],
    of: &Origin,
) -> bool {
    let mut fetcher = fetcher_of(alloc, Counted::new(inner), besides);
    let is_done = ask_all(&mut fetcher, all, of);
    let counted = fetcher.connect();
    assert!(rt; is_done && counted.ended == counted.given);
    counted.given >= 6
}

fn try_addresses(rt: &impl Abort, alloc: Global) -> Result<Vec<Address>, AllocError> {
    let mut all = Vec::new(alloc);
    for at in ["http://h/", "http://h/m", "http://h/cut", "http://h/none"] {
        all.push(address(rt, alloc, at))?;
    }
    Ok(all)
}

/// What is requested.
fn addresses(rt: &impl Abort, alloc: Global) -> Vec<Address> {
    match try_addresses(rt, alloc) {
        Ok(all) => all,
        Err(_) => try_addresses(rt, alloc).expect(rt, "memory"),
    }
}

/// Demands it over connections in memory, and gives whether there was one for each.
fn are_ended(rt: &impl Abort, alloc: Global, besides: Besides) -> bool {
    let answers = site(rt, alloc);
    let all = addresses(rt, alloc);
    let of = try_origin(rt, alloc);
    let connect = MemoryConnect::new(alloc, answers.as_slice(), &[]);
    are_all_ended(rt, alloc, connect, besides, all.as_slice(), &of)
}

#[test]
fn each_connection_is_ended_where_memory_is_refused(rt: HostRuntime) {
    let besides = Besides::Nothing;
    assert!(rt; are_ended(&rt, rt.alloc(), besides) || are_ended(&rt, rt.alloc(), besides));
}

#[test]
fn each_connection_of_a_recording_fetcher_is_ended_too(rt: HostRuntime) {
    let besides = Besides::Records;
    assert!(rt; are_ended(&rt, rt.alloc(), besides) || are_ended(&rt, rt.alloc(), besides));
}

#[test]
fn each_connection_of_a_keeping_fetcher_is_ended_or_kept(rt: HostRuntime) {
    let besides = Besides::Keeps;
    assert!(rt; are_ended(&rt, rt.alloc(), besides) || are_ended(&rt, rt.alloc(), besides));
}
