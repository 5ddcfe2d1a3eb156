ghost use Rattle.std.specs.Prelude.{◌≡◌, ◌<◌};
ghost use Rattle.crude_run.specs.Answered.{Answered, outlet_between};
ghost use Rattle.crude_run.specs.Stopping.{IfDue, IsDue};

use crate::answer::Answer;
use crate::opening::Stop;
use crate::status::{NO_MEMORY, Status, WRITE_FAILED};
use outer_edge::{Sink, write_all};

/// Writes the text of the answer that is due, if there is one, and tells how the run ends.
pub(crate) fn finish<K: Sink>(outcome: Result<Answer, Stop>, out: &mut K) -> Status
    requires { IfDue outcome (λ due. due.status < NO_MEMORY) }
    ensures answered { Answered (IsDue outcome) (outlet_between K.taken K.faults out.old out.new) result }
    ensures cut_off { K.faults out.old < K.faults out.new → result ≡ WRITE_FAILED }
{
    match outcome {
        Ok(answer) | Err(Stop::Due(answer)) => send(&answer, out),
        Err(Stop::Memory) => Status::new(NO_MEMORY),
    }
}

/// Writes the text of the answer.
fn send<K: Sink>(answer: &Answer, out: &mut K) -> Status
    requires { answer.now.status < NO_MEMORY }
    ensures answered { Answered (λ due. due ≡ answer.now) (outlet_between K.taken K.faults out.old out.new) result }
    ensures cut_off { K.faults out.old < K.faults out.new → result ≡ WRITE_FAILED }
{
    match write_all(out, answer.text.as_slice()) {
        Ok(()) => answer.status,
        Err(_) => Status::new(WRITE_FAILED),
    }
}
