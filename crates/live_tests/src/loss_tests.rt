//! Why connections are lost, over a network that isn't there.
use crate::connect_tests::read_once;
use crate::network::Network;
use std::alloc::Global;
use std::process::Abort;
use std::sync::Wait;
use tcp_connect::{Hosts, TcpConnect};

/// Where a worker goes in a network of its own, and why it loses the connection. The errors of a port's number are Linux's
/// (errno(3)); at port 83 the connection breaks.
const LOSSES: &str = "http://two/ None
http://two:83/ Some(Broken)
http://none/ Some(Unknown)
http://10.0.0.1/ Some(Refused)
http://10.0.0.6/ Some(TimedOut)
http://lacking:1/ Some(Other)
http://lacking:101/ Some(Unreachable)
http://lacking:104/ Some(Broken)
http://lacking:110/ Some(TimedOut)
http://lacking:111/ Some(Refused)
http://lacking:113/ Some(Unreachable)
http://never:24/ Some(Descriptor)
http://never:99/ Some(Port)
http://mixed:99/ Some(Refused)
http://never-again/ Some(Resolver)
http://full/ None";

/// Why a connection is lost that is made, read once and closed.
fn loss<R: Wait + Abort>(rt: &R, alloc: Global, text: &str) -> String {
    let network = Network::new(rt, alloc);
    let hosts = Hosts::new(alloc);
    let mut connect = TcpConnect::new(&network, alloc, &hosts);
    let _ = read_once(rt, alloc, &mut connect, text);
    format!(in alloc; "{:?}", connect.loss()).expect(rt, "memory")
}

#[test]
fn each_lost_connection_has_a_kind(rt: HostRuntime) {
    for line in LOSSES.lines() {
        let Some((text, wanted)) = line.split_once(' ') else {
            panic!(rt; "no row");
        };
        assert!(rt; loss(&rt, rt.alloc(), text).as_str() == wanted, "{text}");
    }
}
