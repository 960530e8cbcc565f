//! Connections over TCP (RFC 9293). This is the one crate below the program that uses the network: hosts are looked up once for a run, each
//! connection has a time limit on its reads and its writes, what the system is short of for one is waited for, a request begins when its origin's
//! turn has come, and connections that serve again are kept. What a peer gives, no contract says. Its tests are in `live_tests`.
#![tactic(auto)]

mod connection;
mod flow;
mod hosts;
mod kept;
mod lacks;
mod look_ups;
mod standing;
mod tcp_connect;
mod turn;

pub use connection::Connection;
pub use hosts::Hosts;
pub use kept::KeptConnections;
pub use tcp_connect::TcpConnect;
