ghost use Rattle.std.specs.Prelude.{◌≡◌, ◌≤◌, false, Err, OnOk, OnErr};
ghost use Rattle.edge_files.specs.{Causes.Rose, Effects.all_steps, Effects.has_save, Keeping.StaysTold};
ghost use Rattle.edge_files.specs.World.{Does, DoesPart, outside};

use crate::bytes::Bytes;
use crate::files::OutFile;
use crate::keeping::{KeepFail, Keeper, KeptRows};
use crate::writing::{Outputs, write_whole};
use events::Rows;
use thiserror::Error;

/// What a run does outside: it writes a text behind a file, or has an iteration's plans kept.
#[derive(Drop)]
pub enum Effect {
    Write { file: OutFile, text: Bytes },
    Save { iteration: u32, rows: KeptRows },
}

/// Effects, in order.
pub type EffectList = Rows<Effect>;

/// Why effects were not done to their end.
#[derive(Clone, Copy, Debug, PartialEq, Eq, Error)]
pub enum EffectError {
    #[error("a write failed")]
    WriteFailed,
    #[error("the keeper failed")]
    KeepFailed,
    #[error("no memory")]
    NoMemory,
}

/// What a keeper's refusal is among the errors of effects.
fn refusal(error: KeepFail) -> EffectError
    ensures failed { result ≡ EffectError.KeepFailed → error ≡ KeepFail.Failed }
    ensures keeps { result ≡ EffectError.WriteFailed → ⊥ }
{
    match error {
        KeepFail::Failed => EffectError::KeepFailed,
        KeepFail::NoMemory => EffectError::NoMemory,
    }
}

/// Does the effects in order. At an `Err` a front of their steps was done, and nothing after it.
/// Without a save among them the keeper is not called, and only a write can fail.
pub fn perform<O: Outputs, K: Keeper>(
    outputs: &mut O,
    keeper: &mut K,
    effects: &[Effect],
) -> Result<(), EffectError>
    ensures done { OnOk result (Does (outside (O.written outputs.old) (K.kept keeper.old))
        (outside (O.written outputs.new) (K.kept keeper.new))
        (all_steps effects.now)) }
    ensures part { OnErr result (DoesPart (outside (O.written outputs.old) (K.kept keeper.old))
        (outside (O.written outputs.new) (K.kept keeper.new))
        (all_steps effects.now)) }
    ensures write_later { O.faults outputs.old ≤ O.faults outputs.new }
    ensures keep_later { K.faults keeper.old ≤ K.faults keeper.new }
    ensures write_failed { result ≡ Err EffectError.WriteFailed → Rose (O.faults outputs.old) (O.faults outputs.new) }
    ensures keep_failed { result ≡ Err EffectError.KeepFailed → Rose (K.faults keeper.old) (K.faults keeper.new) }

    // Only a keeper's refusal lets it stop telling.
    ensures told { result ≡ Err EffectError.WriteFailed → StaysTold (K.kept keeper.old) (K.kept keeper.new) }
    ensures untouched { has_save effects.now ≡ false → keeper.new ≡ keeper.old }
    ensures only_write { has_save effects.now ≡ false → OnErr result (result ≡ Err EffectError.WriteFailed) }
{
    for effect in effects {
        match effect {
            Effect::Write { file, text } => {
                if write_whole(outputs, *file, &text.rows).is_err() {
                    return Err(EffectError::WriteFailed);
                }
            }
            Effect::Save { iteration, rows } => {
                if let Err(error) = keeper.save(*iteration, &rows.rows) {
                    return Err(refusal(error));
                }
            }
        }
    }
    Ok(())
}
