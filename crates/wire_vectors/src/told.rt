// What an answer looks like: document 01's number, then values in hexadecimal, with a space between;
// the two words of a time stand side by side, and where there is no requester or no byte, a dash.
use reading::{ReadError, Received};
use std::fmt;
use time::{Time, TimeError};
use wire::{Body, Header, Identity, Kind};
use writing::WriteError;

// A value as an answer tells it.
#[derive(Clone, Copy)]
pub(crate) struct Told<T>(pub(crate) T);

impl fmt::Display for Told<Identity> {
    fn fmt<W: fmt::Write>(&self, f: &mut fmt::Formatter<W>) -> fmt::Result {
        let Identity { clock, port } = self.0;
        write!(f, "{clock:x} {port:x}")
    }
}

impl fmt::Display for Told<Header> {
    fn fmt<W: fmt::Write>(&self, f: &mut fmt::Formatter<W>) -> fmt::Result {
        let Header {
            major_sdo,
            kind,
            minor,
            version,
            length,
            domain,
            minor_sdo,
            flags,
            correction,
            source,
            id,
            interval,
        } = self.0;
        write!(
            f,
            "{major_sdo:x} {kind:x} {minor:x} {version:x} {length:x} "
        )?;
        write!(f, "{domain:x} {minor_sdo:x} {flags:x} {correction:x} ")?;
        write!(f, "{} {id:x} {interval:x}", Told(source))
    }
}

impl fmt::Display for Told<Time> {
    fn fmt<W: fmt::Write>(&self, f: &mut fmt::Formatter<W>) -> fmt::Result {
        let Time { hi, lo } = self.0;
        write!(f, "{hi:016x}{lo:016x}")
    }
}

// The body's own type is told too, since it is another value than the header's; the time is that of its timestamp.
impl fmt::Display for Told<(Body, Time)> {
    fn fmt<W: fmt::Write>(&self, f: &mut fmt::Formatter<W>) -> fmt::Result {
        let (body, time) = self.0;
        let number = body.message_type().number();
        let stamp = body.timestamp();
        let seconds = stamp.seconds;
        let nanos = stamp.nanos;
        write!(f, "{number:x} {seconds:x} {nanos:x} {} ", Told(time))?;
        match body {
            Body::PDelayResp { requester, .. }
            | Body::DelayResp { requester, .. }
            | Body::PDelayRespFollowUp { requester, .. } => write!(f, "{}", Told(requester)),
            Body::Sync { .. }
            | Body::DelayReq { .. }
            | Body::PDelayReq { .. }
            | Body::FollowUp { .. } => write!(f, "-"),
        }
    }
}

impl fmt::Display for Told<Result<Received, ReadError>> {
    fn fmt<W: fmt::Write>(&self, f: &mut fmt::Formatter<W>) -> fmt::Result {
        match self.0 {
            Ok(Received::Message { header, body, time }) => {
                write!(f, "0 {} {}", Told(header), Told((body, time)))
            }
            Ok(Received::Host { header }) => write!(f, "8 {}", Told(header)),
            Err(ReadError::Version) => write!(f, "4"),
            Err(ReadError::Malformed) => write!(f, "5"),
        }
    }
}

impl fmt::Display for Told<Result<usize, WriteError>> {
    fn fmt<W: fmt::Write>(&self, f: &mut fmt::Formatter<W>) -> fmt::Result {
        match self.0 {
            Ok(n) => write!(f, "{n:x}"),
            Err(WriteError::Short) => write!(f, "short"),
            Err(WriteError::Unfit) => write!(f, "unfit"),
        }
    }
}

impl fmt::Display for Told<Kind> {
    fn fmt<W: fmt::Write>(&self, f: &mut fmt::Formatter<W>) -> fmt::Result {
        match self.0 {
            Kind::Table(t) => {
                let number = t.number();
                let control = t.control();
                let length = t.length();
                write!(f, "0 {number:x} {control:x} {length:x}")
            }
            Kind::Host => write!(f, "8"),
            Kind::Reserved => write!(f, "5"),
        }
    }
}

impl fmt::Display for Told<Result<u64, TimeError>> {
    fn fmt<W: fmt::Write>(&self, f: &mut fmt::Formatter<W>) -> fmt::Result {
        match self.0 {
            Ok(x) => write!(f, "0 {x:x}"),
            Err(_) => write!(f, "7"),
        }
    }
}

// How many bytes are spelled at once. No packet here has more.
const PIECE: usize = 128;

// Two digits for each byte. A piece is handed on whole, since standard output has no buffer.
#[derive(Clone, Copy)]
pub(crate) struct Hex<'a>(pub(crate) &'a [u8]);

impl fmt::Display for Hex<'_> {
    fn fmt<W: fmt::Write>(&self, f: &mut fmt::Formatter<W>) -> fmt::Result {
        if self.0.is_empty() {
            return write!(f, "-");
        }
        for piece in self.0.chunks(PIECE) {
            let mut digits = [[0; 2]; PIECE];
            let pairs = &mut digits[..piece.len().min(PIECE)];
            for (pair, byte) in pairs.iter_mut().zip(piece) {
                *pair = [digit(byte / 16), digit(*byte)];
            }
            let text = std::str::from_utf8(pairs.as_flattened());
            f.write_str(text.map_err(|_| fmt::Error)?)?;
        }
        Ok(())
    }
}

// The digit of a byte's low half.
fn digit(byte: u8) -> u8 {
    let half = byte % 16;
    if half < 10 {
        b'0' + half
    } else {
        b'a' - 10 + half
    }
}
