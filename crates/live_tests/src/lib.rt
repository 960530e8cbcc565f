//! Connections and streams, which no run of the program shows as closely: tests alone, of connections over a network that isn't
//! there: how hosts are looked up, which addresses are tried, how a connection ends and why it is lost, what a fault of a stream
//! is to a wire, and what a person sees of it on a terminal; of connections over TCP that are kept; and of inputs and outputs that
//! are interrupted or fail. What runs write is in `tests/runs`. They are above the crates that they are of, so none is proved once
//! more with them.
#![tactic(auto)]

#[cfg(test)]
mod connect_tests;
#[cfg(test)]
mod loss_tests;
#[cfg(test)]
mod network;
#[cfg(test)]
mod pool_tests;
#[cfg(test)]
mod progress_tests;
#[cfg(test)]
mod stream_tests;
