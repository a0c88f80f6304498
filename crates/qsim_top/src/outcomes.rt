//! What comes of an answer.

ghost use Rattle.std.specs.Prelude.{◌≡◌, false, IfOk};
ghost use Rattle.iterations.specs.Performed.{moment};
ghost use Rattle.qsim_top.specs.{Answer.IsSound, Answer.IsAnswer, Came.status_after, Came.IsCarriedOut, declared.answers.Answer.Answer};

use crate::answers::{Answer, Status};
use edge_files::{EffectError, Keeper, Outputs, perform};
use std::alloc::AllocError;

/// The status at the end: `whole` where all was done.
pub fn status_after(whole: Status, outcome: Result<(), EffectError>) -> Status
    ensures { result ≡ status_after whole outcome }
{
    match outcome {
        Ok(()) => whole,
        Err(EffectError::WriteFailed) => Status::WriteFault,
        Err(EffectError::KeepFailed) => Status::KeepFault,
        Err(EffectError::NoMemory) => Status::NoMemory,
    }
}

/// Does outside what an answer says that keeps nothing.
fn do_answer<O: Outputs, K: Keeper>(answer: Answer, outputs: &mut O, keeper: &mut K) -> Status
    requires sound { IsSound answer }
    ensures done { IsCarriedOut false answer result
        (moment (O.written outputs.old) (K.kept keeper.old) (O.faults outputs.old) (K.faults keeper.old))
        (moment (O.written outputs.new) (K.kept keeper.new) (O.faults outputs.new) (K.faults keeper.new)) }
    ensures keeper { keeper.new ≡ keeper.old }
{
    let Answer { status, effects } = answer;
    let outcome = perform(outputs, keeper, &effects.rows);
    status_after(status, outcome)
}

/// The same of an answer for which there may have been no memory.
pub fn carry_out<O: Outputs, K: Keeper>(
    answer: Result<Answer, AllocError>,
    outputs: &mut O,
    keeper: &mut K,
) -> Status
    requires sound { IfOk answer IsSound }
    ensures done { (told : Answer) → IfOk answer (λ a. a ≡ told) → IsCarriedOut false told result
        (moment (O.written outputs.old) (K.kept keeper.old) (O.faults outputs.old) (K.faults keeper.old))
        (moment (O.written outputs.new) (K.kept keeper.new) (O.faults outputs.new) (K.faults keeper.new)) }
    ensures keeper { keeper.new ≡ keeper.old }
{
    match answer {
        Ok(answer) => do_answer(answer, outputs, keeper),
        Err(AllocError) => Status::NoMemory,
    }
}
