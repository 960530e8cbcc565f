//! Connections over TCP.
ghost use Rattle.std.specs.Prelude.{◌≡◌, ◌++◌, ⊤, IfOk, IfSome, MatchOption, None, Some, codes, option_map};
ghost use Rattle.address.specs.Address.{host_of, scheme_of};
ghost use Rattle.requests.specs.Proxies.{proxy_for};
ghost use Rattle.tcp_connect.specs.Connecting.{server_by, server_itself};
ghost use Rattle.tcp_connect.specs.Losses.{MayBreak, TellsLoss, lost_with};
ghost use Rattle.response_reader.specs.Wire.{CountsFault, counted};
ghost use Rattle.connect.specs.Connects.{CountsRefusal, refused_by};

use crate::connection::Connection;
use crate::hosts::{Host, Hosts, KnownHost, has};
use crate::kept::{KeptConnections, MOST, PlaceInUse, Waiting, is_fresh};
use crate::lacks::{Lack, OpenFault, Patience, lack_of, loss_of};
use crate::turn::{hold_turn, space_turns, wait_turn};
use address::{Origin, Scheme};
use connect::{Connect, ConnectFault};
use pacing::{Family, Manner};
use requests::Proxies;
use response_reader::TcpWire;
use run_failures::LossKind;
use std::alloc::{AllocError, Global};
use std::io;
use std::io::{ErrorKind, Read};
use std::marker::Model;
use std::net::{Net, OpenStream, SocketAddr};
use std::sync::Wait;
use std::time::{Clock, Duration, Instant};

/// The most milliseconds that the server is waited for at the end of a connection.
const CLOSE_TIMEOUT: u64 = 100;

// What a run keeps of connections, and how many may be open to a server.
#[derive(Drop)]
struct Reuse<'a, S: Drop> {
    kept: &'a KeptConnections<S>,
    most: usize,
}

/// Makes connections over TCP, for one worker. A host is looked up once for a run, by whoever needs it first, and a lookup
/// that failed isn't made again; its addresses are tried from the one that took a connection last, and a server that didn't
/// answer within the system's time limit isn't tried again. There is no limit on the time of a lookup, nor of a connection's
/// making, except the system's, unless the [`Manner`] has one; that of lookups holds after [`Hosts::limit_lookups`]. What the system itself is short of, such as a descriptor or a port, says nothing of the
/// host: it is waited for, and tried again. If connections are kept, one that waited is ended for it first.
#[derive(Drop)]
pub struct TcpConnect<'a, R: Net + Wait + Clock> {
    rt: &'a R,
    alloc: Global,
    hosts: &'a Hosts,
    // The servers that were late to close the last connection that this worker had to them.
    late: Vec<SocketAddr>,
    // Where connections are kept; none if each ends after its exchange.
    keeping: Option<Reuse<'a, R::Stream>>,
    // The proxies that are asked in place of servers.
    proxies: Proxies,
    manner: Manner,
    // The origin whose turn was waited for, while no connection was had for it yet.
    turn: Option<Origin>,
    made: u64,
    taken: u64,
    failed: u64,
    refused: u64,
    // Why the last connection was lost; none if it was made, and didn't break.
    loss: Option<LossKind>,
}

impl<'a, R: Net + Wait + Clock> Model for TcpConnect<'a, R> {
    ghost use Rattle.std.specs.Option.{option_map};
    ghost use Rattle.tcp_connect.specs.Connecting.{Connecting};

    ghost Value = { Connecting };

    ghost view = { λ c. record { made = c.made; failed = c.failed; refused = c.refused; taken = c.taken; most = option_map (λ k. k.most) c.keeping; lost = c.loss } };
}

// The server of an origin itself, which is connected to without a proxy: there is none of https.
fn server_itself(of: &Origin) -> Option<&Origin>
    ensures { option_map (λ o. o.now) result ≡ server_itself (scheme_of (of.entry.now ++ codes "/")) of.entry.now }
{
    match of.scheme() {
        Scheme::Http => Some(of),
        Scheme::Https => None,
    }
}

// The server that is connected to for an origin: the proxy, if one is asked (RFC 9112, section 3.2.2), or its own.
fn server_of<'b>(proxies: &'b Proxies, of: &'b Origin) -> Option<&'b Origin>
    ensures { option_map (λ o. o.now) result ≡ server_by (scheme_of (of.entry.now ++ codes "/")) (proxy_for proxies.entry.now (scheme_of (of.entry.now ++ codes "/")) (host_of (of.entry.now ++ codes "/"))) of.entry.now }
{
    match proxies.proxy_for(of.scheme(), of.host()) {
        Some(proxy) => Some(proxy.origin()),
        None => server_itself(of),
    }
}

// Whether an address is among those that are connected to.
fn is_of(family: Family, address: SocketAddr) -> bool {
    match family {
        Family::Any => true,
        Family::V4 => address.is_ipv4(),
        Family::V6 => address.is_ipv6(),
    }
}

// A connection to the server, within the limit if there is one.
fn call<R: Net>(rt: &R, server: SocketAddr, limit: Option<Duration>) -> io::Result<R::Stream> {
    match limit {
        Some(limit) => rt.connect_timeout(server, limit),
        None => rt.connect(server),
    }
}

// A connection to the first of the addresses that takes one, and that address. Else it is lost for what the first of them
// answered. A missing port is waited for if no address gave an answer, or at the one that took a connection before.
fn stream_to<R: Net + Wait>(
    rt: &R,
    hosts: &Hosts,
    manner: &Manner,
    known: &KnownHost,
    port: u16,
) -> Result<(R::Stream, SocketAddr), OpenFault> {
    let mut loss = None;
    let mut fault = OpenFault::Failed(known.why);
    for address in &known.addresses {
        if !is_of(manner.family, *address) {
            continue;
        }
        let unmade = match stream_at(rt, hosts, manner, *address, port) {
            Ok(stream) => return Ok((stream, *address)),
            Err(unmade) => unmade,
        };
        match unmade {
            OpenFault::Lacking(Lack::Port) if known.took != Some(*address) => {
                fault = OpenFault::Lacking(Lack::Address);
            }
            OpenFault::Failed(kind) => loss = loss.or(Some(kind)),
            lacking => return Err(lacking),
        }
    }
    match loss {
        Some(kind) => Err(OpenFault::Failed(kind)),
        None => Err(fault),
    }
}

// A connection to the server at an address, if it isn't known not to answer.
fn stream_at<R: Net + Wait>(
    rt: &R,
    hosts: &Hosts,
    manner: &Manner,
    address: SocketAddr,
    port: u16,
) -> Result<R::Stream, OpenFault> {
    let mut server = address;
    server.set_port(port);
    if hosts.is_silent(rt, server) {
        return Err(OpenFault::Failed(LossKind::TimedOut));
    }
    match call(rt, server, manner.connect_limit) {
        Ok(stream) => Ok(stream),
        Err(e) => {
            if e.kind() == ErrorKind::TimedOut {
                hosts.note_silent(rt, server);
            }
            Err(fault_of(&e))
        }
    }
}

// Why a connection wasn't made, by what the system answered.
fn fault_of(e: &io::Error) -> OpenFault {
    match lack_of(e) {
        Some(lack) => OpenFault::Lacking(lack),
        None => OpenFault::Failed(loss_of(e)),
    }
}

// The shorter of two limits, of which there may be none.
fn shorter(first: Option<Duration>, second: Option<Duration>) -> Option<Duration> {
    match (first, second) {
        (Some(first), Some(second)) => Some(first.min(second)),
        (limit, None) | (None, limit) => limit,
    }
}

// Sets what holds for each connection: the time limits, without which none is used, and that a long request's last packet
// doesn't wait for the peer, which a connection can do without.
fn prepare<S: OpenStream>(stream: &S, manner: &Manner) -> io::Result<()> {
    stream.set_read_timeout(manner.read_limit)?;
    stream.set_write_timeout(shorter(manner.read_limit, manner.answer_limit))?;
    let _ = stream.set_nodelay(true);
    Ok(())
}

// A read that answered this found nothing within its time.
fn is_late(kind: ErrorKind) -> bool {
    matches!(kind, ErrorKind::WouldBlock | ErrorKind::TimedOut)
}

// Waits a moment for the server to close the connection first, and says whether it kept it open.
fn stays_open<S: Read + OpenStream>(stream: &mut S) -> bool {
    let wait = Some(Duration::from_millis(CLOSE_TIMEOUT));
    if stream.set_read_timeout(wait).is_err() {
        return false;
    }
    let mut room = [0u8; 1];
    match stream.read(&mut room) {
        Ok(_) => false,
        Err(e) => is_late(e.kind()),
    }
}

// Ends a connection. Whoever closes first keeps the local port for a minute. So the server is waited for, unless it is known
// to keep its connections open, which it is if it was late twice in a row for this worker.
fn end<R: Net + Wait>(rt: &R, hosts: &Hosts, late: &mut Vec<SocketAddr>, mut stream: R::Stream) {
    let Ok(server) = stream.peer_addr() else {
        return;
    };
    if hosts.is_open(rt, server) {
        return;
    }
    if !stays_open(&mut stream) {
        late.retain(|known| *known != server);
    } else if has(late, server) {
        hosts.note_open(rt, server);
    } else {
        // If there is no memory for it, it counts as in time.
        let _ = late.push(server);
    }
}

impl<'a, R: Net + Wait + Clock> TcpConnect<'a, R> {
    /// Makes connections by this handle, with what the run knows of hosts. Takes no memory.
    pub fn new(rt: &'a R, alloc: Global, hosts: &'a Hosts) -> TcpConnect<'a, R>
        ensures { result ≡ record { made = 0; failed = 0; refused = 0; taken = 0; most = None; lost = None } }
    {
        TcpConnect {
            rt,
            alloc,
            hosts,
            late: Vec::new(alloc),
            keeping: None,
            proxies: Proxies::none(alloc),
            manner: Manner::usual(),
            turn: None,
            made: 0,
            taken: 0,
            failed: 0,
            refused: 0,
            loss: None,
        }
    }

    /// Why the connection that was last requested or taken was lost: it wasn't made, or it broke by the time when it was ended. None
    /// if neither is so, or memory ran out.
    pub fn loss(&self) -> Option<LossKind>
        ensures { result ≡ self.now.lost }
    {
        self.loss
    }

    /// The seconds since 1970, if there is a clock that shows them.
    pub fn now(&self) -> Option<u64> {
        let time = self.rt.since_1970().ok()?;
        Some(time.as_secs())
    }

    /// The same, which keeps connections among those of the run: at most so many are open to a server at any time.
    pub fn keeping(self, kept: &'a KeptConnections<R::Stream>, most: u32) -> TcpConnect<'a, R>
        ensures { result ≡ record self.entry { most = Some most } }
    {
        let most = most as usize;
        TcpConnect {
            keeping: Some(Reuse { kept, most }),
            ..self
        }
    }

    /// The same, which connects to these proxies in place of servers. Without one there is no connection to an https origin.
    pub fn through(self, proxies: Proxies) -> TcpConnect<'a, R>
        ensures { result ≡ self.entry }
    {
        TcpConnect { proxies, ..self }
    }

    /// The same, which treats servers so.
    pub fn treating(self, manner: Manner) -> TcpConnect<'a, R>
        ensures { result ≡ self.entry }
    {
        TcpConnect { manner, ..self }
    }

    /// Has no request to an origin begin before this time is over, whichever worker's. What was found out of the faults of its
    /// server's host is forgotten: it is looked up again if it had no address, and connected to again if it didn't answer.
    pub fn leave_alone(&self, of: &Origin, pause: Duration) {
        if let Some(server) = server_of(&self.proxies, of) {
            self.hosts.forget_faults(self.rt, server.host());
        }
        hold_turn(self.rt, self.hosts, of, pause);
    }

    /// Has so much time at least pass between the beginnings of two requests to an origin, whichever workers', from the last one on.
    pub fn space_out(&self, of: &Origin, delay: Duration) {
        space_turns(self.rt, self.hosts, of, delay);
    }

    // Waits until a request to an origin may begin, unless that was done, and no request was begun since. The error is that memory
    // ran out.
    fn begin(&mut self, of: &Origin) -> Result<(), AllocError>
        ensures { self.new ≡ self.old }
    {
        let turn = self.turn.take();
        if self.manner.wait.is_zero() && !self.manner.crawl_delay && !self.hosts.has_holds() {
            return Ok(());
        }
        match turn {
            Some(turn) if turn == *of => Ok(()),
            _ => wait_turn(self.rt, self.hosts, &self.manner, of),
        }
    }

    // Where connections are kept.
    fn kept(&self) -> Option<&'a KeptConnections<R::Stream>> {
        let keeping = self.keeping.as_ref()?;
        Some(keeping.kept)
    }

    // A place for a new connection to an origin, if connections are kept. One that waited may have to go for it.
    fn enter(&self, of: &Origin) -> Result<Option<PlaceInUse<'a, R::Stream>>, AllocError> {
        let Some(Reuse { kept, most }) = &self.keeping else {
            return Ok(None);
        };
        let (place, ended) = kept.enter(self.rt, of, *most)?;
        if let Some(ended) = ended {
            kept.end(self.rt, ended);
            self.hosts.note_end();
        }
        Ok(place)
    }

    // The connection of this place isn't open any more.
    fn leave(&self, place: Option<PlaceInUse<'a, R::Stream>>) {
        match place {
            Some(place) => place.leave(self.rt),
            None => {}
        }
    }

    // A connection to an origin that waits, not too long, and from which nothing can be read. Others are ended.
    fn next_kept(
        &self,
        kept: &'a KeptConnections<R::Stream>,
        of: &Origin,
    ) -> Option<Connection<'a, R>>
        ensures { IfSome result (λ connection. connection ≡ of.now) }
    {
        for _ in 0..MOST {
            let (place, waiting) = kept.take(self.rt, of)?;
            let Waiting { of, since, stream } = waiting;
            if kept.is_quiet(self.rt, &of, &stream) && is_fresh(self.rt, &since) {
                return Some(self.connection(stream, of, Some(place)));
            }
            drop(stream);
            place.leave(self.rt);
            self.hosts.note_end();
        }
        None
    }

    // Ends those that wait too long.
    fn end_stale(&self, kept: &KeptConnections<R::Stream>) {
        for _ in 0..MOST {
            match kept.take_stale(self.rt) {
                Some(stale) => kept.end(self.rt, stale),
                None => return,
            }
            self.hosts.note_end();
        }
    }

    // Ends the one that waits longest, and says whether there was one.
    fn end_oldest(&self) -> bool {
        let Some(kept) = self.kept() else {
            return false;
        };
        match kept.take_oldest(self.rt) {
            Some(oldest) => {
                kept.end(self.rt, oldest);
                self.hosts.note_end();
                true
            }
            None => false,
        }
    }

    // Keeps a connection from now on that was made for an origin. If it isn't kept it is ended, and its place comes back.
    fn keep(
        &self,
        of: Origin,
        place: PlaceInUse<'a, R::Stream>,
        stream: R::Stream,
    ) -> Option<PlaceInUse<'a, R::Stream>> {
        if !place.kept().is_quiet(self.rt, &of, &stream) {
            return Some(place);
        }
        let Ok(since) = Instant::now(self.rt) else {
            return Some(place);
        };
        let waiting = Waiting { of, since, stream };
        match place.put(self.rt, waiting) {
            Some((place, _ended)) => Some(place),
            None => None,
        }
    }

    // What is read and written of a stream to an origin, in its place.
    fn connection(
        &self,
        stream: R::Stream,
        of: Origin,
        place: Option<PlaceInUse<'a, R::Stream>>,
    ) -> Connection<'a, R>
        ensures { result ≡ of }
    {
        Connection::new(self.rt, self.hosts, stream, of, place, &self.manner)
    }

    // A connection to an origin, as it can be had now.
    fn open(&self, of: &Origin) -> Result<R::Stream, OpenFault> {
        let Some(server) = server_of(&self.proxies, of) else {
            return Err(OpenFault::Failed(LossKind::Unknown));
        };
        let host = self.hosts.host(self.rt, server.host())?;
        let stream = self.stream(&host, server)?;
        match prepare(&stream, &self.manner) {
            Ok(()) => Ok(stream),
            Err(e) => Err(OpenFault::Failed(loss_of(&e))),
        }
    }

    // A connection to the host of an origin. The host knows from then on which address took it.
    fn stream(&self, host: &Host, of: &Origin) -> Result<R::Stream, OpenFault> {
        let known = host.known(self.rt, self.hosts, of.host(), self.manner.lookup_limit)?;
        let (stream, took) = stream_to(self.rt, self.hosts, &self.manner, &known, of.port())?;
        if known.took != Some(took) {
            host.took(self.rt, took);
        }
        Ok(stream)
    }

    // A connection to an origin. What the system is short of is waited for.
    fn wait_for(&self, of: &Origin) -> Result<R::Stream, OpenFault> {
        let mut patience = Patience::new();
        for _ in self.rt.forever() {
            match self.open(of) {
                Ok(stream) => return Ok(stream),
                Err(OpenFault::Lacking(_)) if self.end_oldest() => {}
                Err(OpenFault::Lacking(lack)) => {
                    if !patience.pause(self.rt, lack, self.hosts.ended()) {
                        return Err(OpenFault::Lacking(lack));
                    }
                }
                Err(fault) => return Err(fault),
            }
        }
        unreachable!()
    }

    // A connection to an origin whose turn has come, in a place of its own if connections are kept.
    fn make(&mut self, of: &Origin) -> Result<Connection<'a, R>, OpenFault>
        ensures same { self.new ≡ self.old }
        ensures of { IfOk result (λ connection. connection ≡ of.now) }
    {
        let copy = of.try_clone()?;
        self.begin(of)?;
        let place = self.enter(of)?;
        match self.wait_for(of) {
            Ok(stream) => Ok(self.connection(stream, copy, place)),
            Err(fault) => {
                self.leave(place);
                Err(fault)
            }
        }
    }

    // If bytes that nobody had requested came with a response, no connection to its origin is kept from now on.
    fn judge(&self, connection: &Connection<'a, R>, has_unasked: bool) {
        if let (true, Some(kept)) = (has_unasked, self.kept()) {
            kept.refuse(self.rt, connection.of());
        }
    }

    // Ends a connection, and leaves its place. One that failed says nothing of how the server ends it: it is ended at once.
    fn end_parts(&mut self, stream: Option<R::Stream>, place: Option<PlaceInUse<'a, R::Stream>>)
        ensures { self.new ≡ record self.old { lost = lost_with stream self.old.lost } }
    {
        match stream {
            Some(stream) => end(self.rt, self.hosts, &mut self.late, stream),
            None => self.loss = Some(LossKind::Broken),
        }
        self.leave(place);
        self.hosts.note_end();
    }

    // Keeps a connection that was made for an origin in its place, or ends it: one that failed isn't kept.
    fn put_down(&mut self, of: Origin, stream: Option<R::Stream>, place: PlaceInUse<'a, R::Stream>)
        ensures { self.new ≡ record self.old { lost = lost_with stream self.old.lost } }
    {
        self.end_stale(place.kept());
        match stream {
            Some(stream) => match self.keep(of, place, stream) {
                Some(place) => {
                    place.leave(self.rt);
                    self.hosts.note_end();
                }
                None => {}
            },
            None => self.end_parts(None, Some(place)),
        }
    }

    // Ends a connection.
    fn end_wire(&mut self, wire: TcpWire<Connection<'a, R>>)
        ensures same { self.new ≡ record self.old { lost = self.new.lost } }
        ensures lost { MayBreak self.old.lost self.new.lost }
    {
        let has_unasked = wire.has_unasked();
        let connection = wire.into_stream();
        self.judge(&connection, has_unasked);
        let (_of, stream, place) = connection.into_parts();
        self.end_parts(stream, place);
    }

    // Counts a fault.
    fn note(&mut self, fault: ConnectFault)
        ensures { self.new ≡ record self.old { failed = counted self.old.failed 1; refused = refused_by self.old.refused fault } }
    {
        self.failed = self.failed.saturating_add(1);
        match fault {
            ConnectFault::Failed => self.refused = self.refused.saturating_add(1),
            ConnectFault::Memory => {}
        }
    }
}

impl<'a, R: Net + Wait + Clock> Connect for TcpConnect<'a, R> {
    type Wire = TcpWire<Connection<'a, R>>;

    // Of a connection of the system nothing is known.
    ghost gives = { λ _ _ _. ⊤ };

    ghost stands = { λ _ _ _. ⊤ };

    ghost again = { λ _ _. ⊤ };

    ghost made = { λ c. c.made };

    ghost failed = { λ c. c.failed };

    ghost refused = { λ c. c.refused };

    ghost taken = { λ c. c.taken };

    fn connect(&mut self, of: &Origin) -> Result<TcpWire<Connection<'a, R>>, ConnectFault>
        ensures given { IfOk result (λ _. ⊤) }
        ensures made { self.new.made ≡ counted self.old.made 1 }
        ensures counted { CountsFault self.old.failed self.new.failed result }
        ensures refused { CountsRefusal self.old.refused self.new.refused result }
        ensures taken { self.new.taken ≡ self.old.taken }
        ensures lost { TellsLoss result self.new.lost }
    {
        self.made = self.made.saturating_add(1);
        self.loss = None;
        match self.make(of) {
            Ok(connection) => Ok(TcpWire::new(connection)),
            Err(unmade) => {
                self.loss = unmade.loss();
                let fault = unmade.told();
                self.note(fault);
                Err(fault)
            }
        }
    }

    fn take(&mut self, of: &Origin) -> Option<TcpWire<Connection<'a, R>>>
        ensures given { IfSome result (λ _. ⊤) }
        ensures made { self.new.made ≡ self.old.made }
        ensures failed { self.new.failed ≡ self.old.failed }
        ensures refused { self.new.refused ≡ self.old.refused }
        ensures taken { MatchOption result (self.new.taken ≡ self.old.taken) (λ _. self.new.taken ≡ counted self.old.taken 1) }
        ensures lost { MatchOption result (self.new.lost ≡ self.old.lost) (λ _. self.new.lost ≡ None) }
    {
        let kept = self.kept()?;
        self.begin(of).ok()?;
        let Some(connection) = self.next_kept(kept, of) else {
            self.turn = of.try_clone().ok();
            return None;
        };
        self.taken = self.taken.saturating_add(1);
        self.loss = None;
        Some(TcpWire::new(connection))
    }

    // One that failed, or that has no place, isn't kept. It is kept for the origin that it was made for.
    fn give_back(&mut self, _of: &Origin, wire: TcpWire<Connection<'a, R>>) {
        let (of, stream, place) = wire.into_stream().into_parts();
        match place {
            Some(place) => self.put_down(of, stream, place),
            None => self.end_parts(stream, None),
        }
    }

    fn close(&mut self, wire: TcpWire<Connection<'a, R>>)
        ensures same { self.new ≡ record self.old { lost = self.new.lost } }
        ensures lost { MayBreak self.old.lost self.new.lost }
    {
        self.end_wire(wire);
    }

    fn failures(&self) -> u64 {
        self.failed
    }
}
