// What a line asks.
//
//     r LENGTH BYTES
//     w HEADER TYPE SECONDS NANOS REQUESTER ROOM FILL
//     s HEADER TYPE SDO DOMAIN MINOR IDENTITY ID INTERVAL TIME
//     d HEADER
//     f HEADER
//     k NUMBER
//     l CORRECTION FRACTION
use questions::{Fields, UnknownLetter};
use sent::{Message, Sender};
use time::{Time, TimeError, WireTimestamp};
use wire::{Body, Header, Identity, MessageType};

// The bytes of a line, with its end.
pub(crate) const LINE: usize = 262;

#[derive(Clone, Copy)]
pub(crate) enum Question {
    // The message that the first bytes are. The line has 128 whatever is lent, so the count stays beside them.
    Read {
        lent: u8,
        bytes: [u8; 128],
    },
    // A header and a body written to a buffer whose bytes each hold the fill before.
    Write {
        header: Header,
        body: Body,
        lent: u8,
        fill: u8,
    },
    Send(Sending),
    SdoId(Header),
    IsTwoStep(Header),
    KindOf(u8),
    LessFraction {
        correction: u64,
        fraction: u16,
    },
}

// The message of a type that a sender sends, with the request that it answers if it answers one.
#[derive(Clone, Copy)]
pub(crate) struct Sending {
    pub(crate) request: Header,
    // a byte of the question, which asks for the numbers of no type too
    pub(crate) number: u8,
    pub(crate) sender: Sender,
    pub(crate) id: u16,
    pub(crate) interval: u8,
    pub(crate) time: Time,
}

impl TryFrom<&[u8; LINE]> for Question {
    type Error = UnknownLetter;

    fn try_from(line: &[u8; LINE]) -> Result<Question, UnknownLetter> {
        let mut rest = Fields { rest: &line[1..] };
        let fields = &mut rest;
        Ok(match line[0] {
            b'r' => Question::Read {
                lent: u8::from_be_bytes(fields.bytes()),
                bytes: fields.bytes(),
            },
            b'w' => Question::Write {
                header: header(fields),
                body: body(fields),
                lent: u8::from_be_bytes(fields.bytes()),
                fill: u8::from_be_bytes(fields.bytes()),
            },
            b's' => Question::Send(sent(fields)),
            b'd' => Question::SdoId(header(fields)),
            b'f' => Question::IsTwoStep(header(fields)),
            b'k' => Question::KindOf(u8::from_be_bytes(fields.bytes())),
            b'l' => Question::LessFraction {
                correction: u64::from_be_bytes(fields.bytes()),
                fraction: u16::from_be_bytes(fields.bytes()),
            },
            _ => return Err(UnknownLetter),
        })
    }
}

fn identity(fields: &mut Fields<'_>) -> Identity {
    Identity {
        clock: u64::from_be_bytes(fields.bytes()),
        port: u16::from_be_bytes(fields.bytes()),
    }
}

fn header(fields: &mut Fields<'_>) -> Header {
    Header {
        major_sdo: u8::from_be_bytes(fields.bytes()),
        kind: u8::from_be_bytes(fields.bytes()),
        minor: u8::from_be_bytes(fields.bytes()),
        version: u8::from_be_bytes(fields.bytes()),
        length: u16::from_be_bytes(fields.bytes()),
        domain: u8::from_be_bytes(fields.bytes()),
        minor_sdo: u8::from_be_bytes(fields.bytes()),
        flags: u16::from_be_bytes(fields.bytes()),
        correction: u64::from_be_bytes(fields.bytes()),
        source: identity(fields),
        id: u16::from_be_bytes(fields.bytes()),
        interval: u8::from_be_bytes(fields.bytes()),
    }
}

fn body(fields: &mut Fields<'_>) -> Body {
    let number = u8::from_be_bytes(fields.bytes());
    let stamp = WireTimestamp {
        seconds: u64::from_be_bytes(fields.bytes()),
        nanos: u32::from_be_bytes(fields.bytes()),
    };
    questions::body_of(number, stamp, identity(fields))
}

fn sent(fields: &mut Fields<'_>) -> Sending {
    Sending {
        request: header(fields),
        number: u8::from_be_bytes(fields.bytes()),
        sender: Sender {
            sdo: u16::from_be_bytes(fields.bytes()),
            domain: u8::from_be_bytes(fields.bytes()),
            minor: u8::from_be_bytes(fields.bytes()),
            identity: identity(fields),
        },
        id: u16::from_be_bytes(fields.bytes()),
        interval: u8::from_be_bytes(fields.bytes()),
        time: Time {
            hi: u64::from_be_bytes(fields.bytes()),
            lo: u64::from_be_bytes(fields.bytes()),
        },
    }
}

impl Sending {
    pub(crate) fn message(self, message_type: MessageType) -> Result<Message, TimeError> {
        let Sending {
            request,
            number: _,
            sender,
            id,
            interval,
            time,
        } = self;
        match message_type {
            MessageType::Sync => Ok(sender.sync(id, interval)),
            MessageType::DelayReq => Ok(sender.delay_req(id)),
            MessageType::PDelayReq => Ok(sender.pdelay_req(id)),
            MessageType::PDelayResp => sender.pdelay_resp(request, time),
            MessageType::FollowUp => sender.follow_up(id, interval, time),
            MessageType::DelayResp => sender.delay_resp(request, interval, time),
            MessageType::PDelayRespFollowUp => {
                sender.pdelay_resp_follow_up(id, request.source, time)
            }
        }
    }
}
