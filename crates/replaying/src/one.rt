// One field: its line, and what comes behind it.
ghost use Rattle.std.specs.Prelude.{◌≡◌, ◌+◌, ◌≤◌, length};
ghost use Rattle.replaying.specs.OneLaws.{One};

use crate::{State, Stop, TurnEnd, answering};
use event_log::Next;
use lines::Style;
use text::Page;

// A turn under way over the window s: the state behind what was read of it, and the place behind what was written to the buffer.
#[derive(Drop)]
pub(crate) struct Turn<'a> {
    pub(crate) style: Style,
    pub(crate) s: &'a [u8],
    pub(crate) last: bool,
    pub(crate) state: State,
    pub(crate) read: usize,
    pub(crate) wrote: usize,
}

impl Turn<'_> {
    // The next field: its line goes behind those that were written. Answers why nothing comes behind it, if nothing does. Compiled into its caller
    // it takes longer, since copies of the record are then cut into small pieces.
    #[inline(never)]
    pub(crate) fn step(&mut self, packet: &mut [u8], out: &mut [u8]) -> Option<Stop>
        requires read_in_bounds { self.old.read ≤ length self.old.s.now }
        requires packet_len { length packet.old ≡ 128 }
        requires wrote_in_bounds { self.old.wrote + 1024 ≤ length out.old }
        ensures { One self.old out.old self.new out.new result }
    {
        let style = self.style;
        let number = self.state.number;
        let mut page = Page {
            buffer: out,
            at: self.wrote,
        };
        match event_log::front(self.state.port.is_none(), &self.s[self.read..], self.last) {
            Next::Config(config) => {
                self.state.open(config, 36);
                self.read += 36;
                None
            }
            Next::Event { event, size } => {
                let Some(port) = &mut self.state.port else {
                    unreachable!()
                };
                let answer = answering::answer(*port, event, packet);
                *port = answer.port;
                self.state.number = number.wrapping_add(1);
                // a usize has no From into u64
                self.state.offset = self.state.offset.wrapping_add(size as u64);
                self.read += size;
                lines::line(&mut page, style, number, answer, &packet[..answer.length]);
                self.wrote = page.at;
                None
            }
            Next::More => Some(Stop::More),
            Next::End => {
                let port = self.state.port.unwrap();
                lines::last_line(&mut page, style, port);
                self.wrote = page.at;
                Some(Stop::Done)
            }
            Next::Bad => {
                lines::bad_line(&mut page, self.state.offset);
                self.wrote = page.at;
                Some(Stop::Done)
            }
        }
    }

    // What the caller of a turn that stopped so is told.
    pub(crate) fn end(&self, stop: Stop) -> TurnEnd
        ensures { result ≡ record { state = self.now.state; read = self.now.read; wrote = self.now.wrote; stop = stop } }
    {
        TurnEnd {
            state: self.state,
            read: self.read,
            wrote: self.wrote,
            stop,
        }
    }
}
