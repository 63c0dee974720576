// Replaying a log, a window at a time: the lines of the events in some bytes, as many as a buffer takes. A program lends the bytes that it has
// read and a buffer, writes what stands in the buffer, and comes again with what was left unread and more behind it.
#![tactic(auto)]

ghost use Rattle.std.specs.Prelude.{◌≡◌, length};
ghost use Rattle.replaying.specs.Turns.{Turned, Leaves, opened};
ghost use Rattle.replaying.specs.Sessions.{start_of};

mod answering;
mod one;

use lines::Style;
use one::Turn;
use record::{Config, Port};

// What stands between two fields: the port, which there is once the configuration has been read, the number of the next event, and the offset of
// the next field.
#[derive(Clone, Copy)]
pub struct State {
    pub port: Option<Port>,
    pub number: u64,
    pub offset: u64,
}

// Why a turn ended: no room for a line, bytes wanted, or nothing more to come.
#[derive(Clone, Copy, Debug, PartialEq, Eq)]
pub enum Stop {
    Full,
    More,
    Done,
}

// How many bytes of the window were read, and how many of the buffer written.
#[derive(Clone, Copy)]
pub struct TurnEnd {
    pub state: State,
    pub read: usize,
    pub wrote: usize,
    pub stop: Stop,
}

impl State {
    // Before the first byte.
    #[tactic(auto, unfolding(crate::specs::Sessions::start_of))]
    pub fn start() -> State
        ensures { result ≡ start_of }
    {
        State {
            port: None,
            number: 1,
            offset: 0,
        }
    }

    // The configuration was read, a field of so many bytes.
    fn open(&mut self, config: Config, size: usize)
        ensures { self.new ≡ opened self.old config size }
    {
        self.port = Some(Port::new(config));
        // A usize has no From into u64.
        self.offset = self.offset.wrapping_add(size as u64);
    }
}

// last says that nothing follows s. Five parameters, as hosts call it: a style, a state, a window, whether it is the last, a buffer.
pub fn turn(style: Style, q: State, s: &[u8], last: bool, out: &mut [u8]) -> TurnEnd
    ensures turned { Turned style q s.now last out.old result out.new }
    ensures leaves { Leaves (length s.now) (length out.old) result }
{
    let mut packet = [0u8; 128];
    let mut turn = Turn {
        style,
        s,
        last,
        state: q,
        read: 0,
        wrote: 0,
    };
    // No index is counted: a field takes what it takes of the window and of the buffer.
    while out.len() - turn.wrote >= 1024 {
        if let Some(stop) = turn.step(&mut packet, out) {
            return turn.end(stop);
        }
    }
    turn.end(Stop::Full)
}
