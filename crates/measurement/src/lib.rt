// The measurement of an exchange that has all its times (document 01, 'The measurement'; the Rust's extract_measurement).
// Crate rules says what is measured, crate slave when this is asked.
#![tactic(auto)]

pub mod complete;
pub mod extract;
mod measure;

use time::Time;
use wire::Identity;

// A peer exchange that has all four times: its id, its responder, the request's times and the response's.
#[derive(Clone, Copy)]
pub struct PeerTimes {
    pub id: u16,
    pub responder: Identity,
    pub request_send: Time,
    pub request_receive: Time,
    pub response_send: Time,
    pub response_receive: Time,
}
