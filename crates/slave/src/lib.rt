// The measuring half of a port, the Rust's slave.rs: what Sync, FollowUp, DelayResp and the peer's answers bring, and the
// stamps of our own requests, which crate requests sends. Crate rules says what each of them does, crate measurement what
// a complete exchange measures; crate dispatch says which events come here. A handler for each message and stamp, by the Rust's names:
// each promises one rule.
#![tactic(auto)]

mod answers;
mod hearing;

use record::Port;

#[derive(Clone, Copy)]
pub struct Measuring {
    pub port: Port,
}
