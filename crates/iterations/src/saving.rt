//! What is kept of a run.

ghost use Rattle.std.specs.Prelude.{◌≡◌, false};
ghost use Rattle.edge_files.specs.Effects.{all_steps};
ghost use Rattle.iterations.specs.{Acts.saves, Performed.IsPerformed, Performed.moment, Runs.CanRun, Views.run_rows};

use crate::run::RunInput;
use edge_files::{Effect, EffectError, Keeper, Outputs, perform};
use keep::rows_of;
use plan_memory::Memory;
use std::alloc::Global;

/// Keeps what is remembered after an iteration, where the run keeps anything.
#[tactic(auto, unfolding(crate::specs::Acts::saves))]
pub fn save<O: Outputs, K: Keeper, G>(
    alloc: Global,
    run: &RunInput<G>,
    iteration: u32,
    memories: &[Memory],
    outputs: &mut O,
    keeper: &mut K,
) -> Result<(), EffectError>
    requires { CanRun (run_rows run.now) memories.now }
    ensures performed { IsPerformed run.now.keeps
        (moment (O.written outputs.old) (K.kept keeper.old) (O.faults outputs.old) (K.faults keeper.old))
        (moment (O.written outputs.new) (K.kept keeper.new) (O.faults outputs.new) (K.faults keeper.new))
        (all_steps (saves (run_rows run.now) iteration memories.now)) result }
    ensures keeper { run.now.keeps ≡ false → keeper.new ≡ keeper.old }
{
    if !run.keeps {
        return Ok(());
    }
    let Ok(rows) = rows_of(alloc, &run.town.book, memories) else {
        return Err(EffectError::NoMemory);
    };
    let effects = [Effect::Save { iteration, rows }];
    perform(outputs, keeper, &effects)
}
