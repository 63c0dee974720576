// A port at work: the seven entries of document 01's event list, each over the packet buffer that its caller lends.
// Every entry is the same: the gate of rows 1, 2 and 3, what the event's handler hands on, and the packet. They stay seven, by the
// names that the Rust has for them, each with its own event's parts. A closure behind and_then in place of the two arms would need a
// clause of its own in each.
#![tactic(auto)]

ghost use Rattle.std.specs.Prelude.{◌≡◌, length};
ghost use Rattle.rules.specs.Events.{event, general, stamp, sync_timer, delay_timer, filter_answer, set_state};
ghost use Rattle.port.specs.Entries.{Answers};
ghost use Rattle.port.specs.Pieces.{answer_by, buffer_by};

use dispatch::{hearing, stamps};
use handling::{Handled, sending};
use master::Answering;
use record::{Answer, Context, FilterUpdate, NewState, Outcome, Port};
use time::Time;

// The Rust's Port<Running>: it goes in by value, and the record to go on with is in the answer.
#[derive(Clone, Copy)]
pub struct Running {
    pub record: Port,
}

// What was handed on, its message written into the packet; or a refusal, with the record as it was found.
fn answered(port: Port, handled: Result<Handled, Outcome>, packet: &mut [u8]) -> Answer
    ensures { (result ≡ answer_by port handled (length packet.old)) × (packet.new ≡ buffer_by handled packet.old) }
{
    match handled {
        Ok(Handled { answer, message }) => {
            let length = sending::send(packet, message, answer.length);
            answer.with_length(length)
        }
        Err(outcome) => Answer::refused(outcome, port),
    }
}

impl Running {
    // A message on the event entry, with the time at which it came.
    pub fn handle_event_receive(self, recv_time: Time, message: &[u8], packet: &mut [u8]) -> Answer
        ensures { Answers self.record (event recv_time message.now) packet.old result packet.new }
    {
        let port = self.record;
        let time_out = fitness::time_out(recv_time);
        match rows::gate(port, packet.len(), time_out) {
            Ok(()) => answered(port, hearing::on_event(port, recv_time, message), packet),
            Err(outcome) => Answer::refused(outcome, port),
        }
    }

    // A message on the general entry.
    pub fn handle_general_receive(self, message: &[u8], packet: &mut [u8]) -> Answer
        ensures { Answers self.record (general message.now) packet.old result packet.new }
    {
        let port = self.record;
        match rows::gate(port, packet.len(), false) {
            Ok(()) => answered(port, hearing::on_general(port, message), packet),
            Err(outcome) => Answer::refused(outcome, port),
        }
    }

    // The stamp at which a message of ours left.
    pub fn handle_send_timestamp(
        self,
        context: Context,
        timestamp: Time,
        packet: &mut [u8],
    ) -> Answer
        ensures { Answers self.record (stamp timestamp context) packet.old result packet.new }
    {
        let port = self.record;
        let stamp_out = fitness::time_out(timestamp);
        match rows::gate(port, packet.len(), stamp_out) {
            Ok(()) => answered(port, stamps::on_stamp(port, context, timestamp), packet),
            Err(outcome) => Answer::refused(outcome, port),
        }
    }

    pub fn handle_sync_timer(self, packet: &mut [u8]) -> Answer
        ensures { Answers self.record sync_timer packet.old result packet.new }
    {
        let port = self.record;
        match rows::gate(port, packet.len(), false) {
            Ok(()) => answered(port, Answering { port }.send_sync(), packet),
            Err(outcome) => Answer::refused(outcome, port),
        }
    }

    // The draw says how long the timer is to run next.
    pub fn handle_delay_request_timer(self, draw: u64, packet: &mut [u8]) -> Answer
        ensures { Answers self.record (delay_timer draw) packet.old result packet.new }
    {
        let port = self.record;
        let draw_out = fitness::draw_out(draw);
        match rows::gate(port, packet.len(), draw_out) {
            Ok(()) => answered(port, requests::send_delay_request(port, draw), packet),
            Err(outcome) => Answer::refused(outcome, port),
        }
    }

    // What the host's filter made of a measurement.
    pub fn handle_filter_update(self, update: FilterUpdate, packet: &mut [u8]) -> Answer
        ensures { Answers self.record (filter_answer update) packet.old result packet.new }
    {
        let port = self.record;
        match rows::gate(port, packet.len(), false) {
            Ok(()) => answered(port, Ok(from_host::on_filter(port, update)), packet),
            Err(outcome) => Answer::refused(outcome, port),
        }
    }

    // The host decides which state the port is in.
    pub fn set_state(self, state: NewState, packet: &mut [u8]) -> Answer
        ensures { Answers self.record (set_state state) packet.old result packet.new }
    {
        let port = self.record;
        match rows::gate(port, packet.len(), false) {
            Ok(()) => answered(port, Ok(from_host::on_state(port, state)), packet),
            Err(outcome) => Answer::refused(outcome, port),
        }
    }
}
