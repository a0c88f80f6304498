//! What a run writes, piece by piece.

ghost use Rattle.std.specs.Prelude.{◌≡◌, ◌≤◌, length, All};
ghost use Rattle.edge_files.specs.World.{byte_steps};
ghost use Rattle.day_scores.specs.Texts.{scores_text};
ghost use Rattle.limits.specs.declared.TheConstants.{MAX_PERSONS};
ghost use Rattle.scoring.specs.{Ranges.IsWithin, Score.total, declared.TheConstants.MAX_SCORE};
ghost use Rattle.iterations.specs.{Performed.IsWritten, Performed.moment, Texts.iteration_counts};

use crate::texts::iteration_line;
use day_scores::scores_text;
use edge_files::{Bytes, Effect, EffectError, Keeper, OutFile, Outputs, perform};
use event_handler::EventCounts;
use events::Book;
use std::alloc::Global;

/// Writes a text behind a file.
pub fn write<O: Outputs, K: Keeper>(
    outputs: &mut O,
    keeper: &mut K,
    file: OutFile,
    text: Vec<u8>,
) -> Result<(), EffectError>
    ensures performed { IsWritten
        (moment (O.written outputs.old) (K.kept keeper.old) (O.faults outputs.old) (K.faults keeper.old))
        (moment (O.written outputs.new) (K.kept keeper.new) (O.faults outputs.new) (K.faults keeper.new))
        (byte_steps file text.items) result }
    ensures keeper { keeper.new ≡ keeper.old }
{
    let effects = [Effect::Write {
        file,
        text: Bytes { rows: text },
    }];
    perform(outputs, keeper, &effects)
}

/// Writes the scores of the plans that were followed, by the numbers of these.
pub fn write_scores<O: Outputs, K: Keeper>(
    alloc: Global,
    iteration: u32,
    scores: &[i64],
    chosen: &[u32],
    book: &Book,
    outputs: &mut O,
    keeper: &mut K,
) -> Result<(), EffectError>
    requires each_score { length scores.now ≡ length book.now.persons }
    requires each_plan { length chosen.now ≡ length book.now.persons }
    ensures performed { IsWritten
        (moment (O.written outputs.old) (K.kept keeper.old) (O.faults outputs.old) (K.faults keeper.old))
        (moment (O.written outputs.new) (K.kept keeper.new) (O.faults outputs.new) (K.faults keeper.new))
        (byte_steps OutFile.Scores (scores_text iteration book.now.persons chosen.now scores.now)) result }
    ensures keeper { keeper.new ≡ keeper.old }
{
    match scores_text(alloc, iteration, &book.persons, chosen, scores) {
        Ok(text) => write(outputs, keeper, OutFile::Scores, text),
        Err(_) => Err(EffectError::NoMemory),
    }
}

/// Writes the line of the report of an iteration.
pub fn write_line<O: Outputs, K: Keeper>(
    alloc: Global,
    iteration: u32,
    counts: EventCounts,
    scores: &[i64],
    outputs: &mut O,
    keeper: &mut K,
) -> Result<(), EffectError>
    requires few { length scores.now ≤ MAX_PERSONS }
    requires within { All (IsWithin MAX_SCORE) scores.now }
    ensures performed { IsWritten
        (moment (O.written outputs.old) (K.kept keeper.old) (O.faults outputs.old) (K.faults keeper.old))
        (moment (O.written outputs.new) (K.kept keeper.new) (O.faults outputs.new) (K.faults keeper.new))
        (byte_steps OutFile.Report (iteration_counts iteration counts.events counts.stuck (total scores.now))) result }
    ensures keeper { keeper.new ≡ keeper.old }
{
    match iteration_line(alloc, iteration, counts, scores) {
        Ok(text) => write(outputs, keeper, OutFile::Report, text),
        Err(_) => Err(EffectError::NoMemory),
    }
}
