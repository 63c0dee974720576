// What the port sends (document 01, 'Sent messages'): the header and body values of the seven messages,
// from one Sender. Nothing is written here: crate writing does that.
#![tactic(auto)]

ghost use Rattle.std.specs.Prelude.{◌≡◌, pos, ◌-ℤ◌};
ghost use Rattle.time.specs.Units.{signed};
ghost use Rattle.sent.specs.Messages.{correction_of, answer_stamp, follow_stamp, header_for, sync_of, follow_up_of, delay_req_of, delay_resp_of, p_delay_req_of, p_delay_resp_of, p_delay_resp_follow_up_of, zero_timestamp};

use time::{Time, TimeError, WireTimestamp};
use wire::{Body, Header, Identity, MessageType};

// What every sent message carries of us.
#[derive(Clone, Copy)]
pub struct Sender {
    pub sdo: u16,
    pub domain: u8,
    pub minor: u8,
    pub identity: Identity,
}

// A message to be written.
#[derive(Clone, Copy)]
pub struct Message {
    pub header: Header,
    pub body: Body,
}

// The flags of a message whose time follows in another: 0x02 in byte 6.
const TWO_STEP: u16 = 0x0200;

// A log interval that is not told.
const NO_INTERVAL: u8 = 0x7f;

// A correction less the fraction of a nanosecond, both in 2^-16 ns; out of range where it leaves 64 bits.
#[inline(always)]
#[tactic(auto, using(crate::proofs::Laws::correction_fits, crate::proofs::Laws::correction_off, crate::proofs::Laws::signed_is_cast))]
pub fn less_fraction(c: u64, f: u16) -> Result<u64, TimeError>
    ensures { result ≡ correction_of (signed 64 c -ℤ pos f) }
{
    let left = c.cast_signed().checked_sub(i64::from(f));
    Ok(left.ok_or(TimeError::OutOfRange)?.cast_unsigned())
}

// What the answer to a request with this correction carries of the stamp at which the request came: its timestamp and a
// correction; out of range where either leaves its bits.
#[tactic(auto, unfolding(crate::specs::Messages::answer_stamp))]
pub fn answer_stamp(asked: u64, received: Time) -> Result<(WireTimestamp, u64), TimeError>
    ensures { result ≡ answer_stamp asked received }
{
    let (timestamp, fraction) = received.to_wire()?;
    let correction = less_fraction(asked, fraction)?;
    Ok((timestamp, correction))
}

// What a follow-up carries of the stamp at which the message left that it follows.
#[tactic(auto, unfolding(crate::specs::Messages::follow_stamp))]
pub fn follow_stamp(sent: Time) -> Result<(WireTimestamp, u64), TimeError>
    ensures { result ≡ follow_stamp sent }
{
    let (timestamp, fraction) = sent.to_wire()?;
    Ok((timestamp, u64::from(fraction)))
}

// The origin time that is not told.
fn no_time() -> WireTimestamp
    ensures { result ≡ zero_timestamp }
{
    WireTimestamp {
        seconds: 0,
        nanos: 0,
    }
}

impl Sender {
    // The header of a message that this sender sends. Five parts differ from message to message: a struct for them would be built and
    // taken apart at once.
    #[tactic(auto, unfolding(crate::specs::Messages::header_for))]
    fn header(self, t: MessageType, flags: u16, correction: u64, id: u16, interval: u8) -> Header
        ensures { result ≡ header_for self t flags correction id interval }
    {
        let [major_sdo, minor_sdo] = self.sdo.to_be_bytes();
        let source = self.identity;
        Header {
            major_sdo,
            kind: t.number(),
            minor: self.minor,
            version: 2,
            length: t.length(),
            domain: self.domain,
            minor_sdo,
            flags,
            correction,
            source,
            id,
            interval,
        }
    }

    // Sync, with the sync interval; its time follows in the FollowUp.
    #[tactic(auto, unfolding(crate::specs::Messages::sync_of))]
    pub fn sync(self, id: u16, interval: u8) -> Message
        ensures { result ≡ sync_of self id interval }
    {
        let header = self.header(MessageType::Sync, TWO_STEP, 0, id, interval);
        let body = Body::Sync { origin: no_time() };
        Message { header, body }
    }

    #[tactic(auto, unfolding(crate::specs::Messages::delay_req_of))]
    pub fn delay_req(self, id: u16) -> Message
        ensures { result ≡ delay_req_of self id }
    {
        let header = self.header(MessageType::DelayReq, 0, 0, id, NO_INTERVAL);
        let body = Body::DelayReq { origin: no_time() };
        Message { header, body }
    }

    // The FollowUp of the Sync with this id, which left at this time; with the sync interval.
    #[tactic(auto, unfolding(crate::specs::Messages::follow_up_of))]
    pub fn follow_up(self, id: u16, interval: u8, sent: Time) -> Result<Message, TimeError>
        ensures { result ≡ follow_up_of self id interval sent }
    {
        let (timestamp, correction) = follow_stamp(sent)?;
        let header = self.header(MessageType::FollowUp, 0, correction, id, interval);
        let body = Body::FollowUp {
            precise_origin: timestamp,
        };
        Ok(Message { header, body })
    }

    #[tactic(auto, unfolding(crate::specs::Messages::p_delay_req_of))]
    pub fn pdelay_req(self, id: u16) -> Message
        ensures { result ≡ p_delay_req_of self id }
    {
        let header = self.header(MessageType::PDelayReq, 0, 0, id, NO_INTERVAL);
        let body = Body::PDelayReq { origin: no_time() };
        Message { header, body }
    }

    // The answer to a PDelayReq that came at this time; the time at which it leaves follows.
    #[tactic(auto, unfolding(crate::specs::Messages::p_delay_resp_of))]
    pub fn pdelay_resp(self, request: Header, received: Time) -> Result<Message, TimeError>
        ensures { result ≡ p_delay_resp_of self request received }
    {
        let (timestamp, correction) = answer_stamp(request.correction, received)?;
        let requester = request.source;
        let id = request.id;
        let t = MessageType::PDelayResp;
        let header = self.header(t, TWO_STEP, correction, id, NO_INTERVAL);
        let body = Body::PDelayResp {
            request_receive: timestamp,
            requester,
        };
        Ok(Message { header, body })
    }

    // The answer to a DelayReq that came at this time; with the delay interval.
    #[tactic(auto, unfolding(crate::specs::Messages::delay_resp_of))]
    pub fn delay_resp(
        self,
        request: Header,
        interval: u8,
        received: Time,
    ) -> Result<Message, TimeError>
        ensures { result ≡ delay_resp_of self request interval received }
    {
        let (timestamp, correction) = answer_stamp(request.correction, received)?;
        let requester = request.source;
        let id = request.id;
        let header = self.header(MessageType::DelayResp, 0, correction, id, interval);
        let body = Body::DelayResp {
            receive: timestamp,
            requester,
        };
        Ok(Message { header, body })
    }

    // The follow-up of the PDelayResp with this id to this requester, which left at this time.
    #[tactic(auto, unfolding(crate::specs::Messages::p_delay_resp_follow_up_of))]
    pub fn pdelay_resp_follow_up(
        self,
        id: u16,
        requester: Identity,
        sent: Time,
    ) -> Result<Message, TimeError>
        ensures { result ≡ p_delay_resp_follow_up_of self id requester sent }
    {
        let (timestamp, correction) = follow_stamp(sent)?;
        let t = MessageType::PDelayRespFollowUp;
        let header = self.header(t, 0, correction, id, NO_INTERVAL);
        let body = Body::PDelayRespFollowUp {
            response_origin: timestamp,
            requester,
        };
        Ok(Message { header, body })
    }
}
