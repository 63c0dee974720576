// Writing an event log (document 01, 'Event log'): the configuration, and an event of each kind, laid at the front of a lent buffer. A host
// that records its day lends what is left of its buffer. Each function answers the size of what it laid, `Short` where there is no room,
// or `Unfit` for a message of more than 1024 bytes; a refusal leaves the buffer as it was. They stay a function for each event: a
// host calls each by its event's parts.
#![tactic(auto)]

ghost use Rattle.std.specs.Prelude.{true};
ghost use Rattle.rules.specs.Events.{event, general, stamp, sync_timer, delay_timer, filter_answer, set_state};
ghost use Rattle.recording.specs.Recording.{config_bytes, Appends, Records};

mod laying;

use record::{Config, Context, FilterUpdate, NewState};
use text::Page;
use time::Time;
use writing::WriteError;

// A message has no more bytes than this.
const LONGEST: usize = 1024;

// 0x0F. A log begins with it. (A host calls the eight functions by these names, one for each kind of record.)
pub fn record_config(out: &mut [u8], config: Config) -> Result<usize, WriteError>
    ensures { Appends true (config_bytes config) out.old result out.new }
{
    if out.len() < 36 {
        return Err(WriteError::Short);
    }
    let mut page = Page { buffer: out, at: 0 };
    laying::heading(&mut page, 0x0f, 33);
    laying::config(&mut page, config);
    Ok(36)
}

// 0x10: time, message.
pub fn record_event(out: &mut [u8], recv_time: Time, message: &[u8]) -> Result<usize, WriteError>
    ensures { Records (event recv_time message.now) out.old result out.new }
{
    let n = message.len();
    if n > LONGEST {
        return Err(WriteError::Unfit);
    }
    let size = 25 + n;
    if out.len() < size {
        return Err(WriteError::Short);
    }
    let mut page = Page { buffer: out, at: 0 };
    laying::heading(&mut page, 0x10, 22 + n);
    laying::time(&mut page, recv_time);
    laying::message(&mut page, message);
    Ok(size)
}

// 0x11: message.
pub fn record_general(out: &mut [u8], message: &[u8]) -> Result<usize, WriteError>
    ensures { Records (general message.now) out.old result out.new }
{
    let n = message.len();
    if n > LONGEST {
        return Err(WriteError::Unfit);
    }
    let size = 6 + n;
    if out.len() < size {
        return Err(WriteError::Short);
    }
    let mut page = Page { buffer: out, at: 0 };
    laying::heading(&mut page, 0x11, 3 + n);
    laying::message(&mut page, message);
    Ok(size)
}

// 0x12: time, context.
pub fn record_stamp(out: &mut [u8], context: Context, timestamp: Time) -> Result<usize, WriteError>
    ensures { Records (stamp timestamp context) out.old result out.new }
{
    let n = laying::context_size(context);
    let size = 25 + n;
    if out.len() < size {
        return Err(WriteError::Short);
    }
    let mut page = Page { buffer: out, at: 0 };
    laying::heading(&mut page, 0x12, 22 + n);
    laying::time(&mut page, timestamp);
    laying::heading(&mut page, 3, n);
    laying::context(&mut page, context);
    Ok(size)
}

// 0x13: nothing.
pub fn record_sync_timer(out: &mut [u8]) -> Result<usize, WriteError>
    ensures { Records sync_timer out.old result out.new }
{
    if out.len() < 3 {
        return Err(WriteError::Short);
    }
    let mut page = Page { buffer: out, at: 0 };
    laying::heading(&mut page, 0x13, 0);
    Ok(3)
}

// 0x14: draw.
pub fn record_delay_timer(out: &mut [u8], draw: u64) -> Result<usize, WriteError>
    ensures { Records (delay_timer draw) out.old result out.new }
{
    if out.len() < 14 {
        return Err(WriteError::Short);
    }
    let mut page = Page { buffer: out, at: 0 };
    laying::heading(&mut page, 0x14, 11);
    laying::heading(&mut page, 4, 8);
    laying::long(&mut page, draw);
    Ok(14)
}

// 0x15: perhaps a mean delay, perhaps a next update.
pub fn record_filter_update(out: &mut [u8], update: FilterUpdate) -> Result<usize, WriteError>
    ensures { Records (filter_answer update) out.old result out.new }
{
    let n = laying::mean_size(update.mean_delay) + laying::next_size(update.next_update);
    let size = 3 + n;
    if out.len() < size {
        return Err(WriteError::Short);
    }
    let mut page = Page { buffer: out, at: 0 };
    laying::heading(&mut page, 0x15, n);
    laying::mean(&mut page, update.mean_delay);
    laying::next(&mut page, update.next_update);
    Ok(size)
}

// 0x16: state.
pub fn record_state(out: &mut [u8], state: NewState) -> Result<usize, WriteError>
    ensures { Records (set_state state) out.old result out.new }
{
    let n = laying::state_size(state);
    let size = 6 + n;
    if out.len() < size {
        return Err(WriteError::Short);
    }
    let mut page = Page { buffer: out, at: 0 };
    laying::heading(&mut page, 0x16, 3 + n);
    laying::heading(&mut page, 7, n);
    laying::state(&mut page, state);
    Ok(size)
}
