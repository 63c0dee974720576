// An event of the log goes to the entry that it is for.
ghost use Rattle.port.specs.Entries.{Answers};
ghost use Rattle.event_log.specs.Told.{told};

use event_log::Logged;
use port::Running;
use record::{Answer, Port};

pub(crate) fn answer(port: Port, event: Logged, packet: &mut [u8]) -> Answer
    ensures { Answers port (told event.entry) packet.old result packet.new }
{
    let running = Running { record: port };
    match event {
        Logged::Event { time, message } => running.handle_event_receive(time, message, packet),
        Logged::General { message } => running.handle_general_receive(message, packet),
        Logged::Stamp { time, context } => running.handle_send_timestamp(context, time, packet),
        Logged::SyncTimer => running.handle_sync_timer(packet),
        Logged::DelayTimer { draw } => running.handle_delay_request_timer(draw, packet),
        Logged::FilterAnswer { update } => running.handle_filter_update(update, packet),
        Logged::SetState { state } => running.set_state(state, packet),
    }
}
