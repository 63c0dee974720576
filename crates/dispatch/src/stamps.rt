// Send stamps: which handler one goes to.
ghost use Rattle.std.specs.Prelude.{◌≡◌};
ghost use Rattle.rules.specs.Rules.{stamped};
ghost use Rattle.rules.specs.Given.{StampIn};
ghost use Rattle.handling.specs.Handling.{handled_of};

use handling::Handled;
use master::Answering;
use record::{Context, Outcome, Port};
use slave::Measuring;
use time::Time;

// The bounds that a context's types give are promised here, where its parts are taken out.
pub fn on_stamp(port: Port, context: Context, timestamp: Time) -> Result<Handled, Outcome>
    ensures { (result ≡ handled_of (stamped port timestamp context)) × StampIn context }
{
    let slave = Measuring { port };
    let master = Answering { port };
    match context {
        Context::Sync { id } => master.handle_sync_timestamp(id, timestamp),
        Context::DelayReq { id } => slave.handle_delay_timestamp(id, timestamp),
        Context::PDelayReq { id } => slave.handle_pdelay_timestamp(id, timestamp),
        Context::PDelayResp { id, requester } => {
            master.handle_pdelay_response_timestamp(id, requester, timestamp)
        }
    }
}
