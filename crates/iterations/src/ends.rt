//! The end of a run: the plans that may be read again, and the last line of the report.

ghost use Rattle.std.specs.Prelude.{◌≡◌, ◌<◌, ◌≤◌, ◌+◌, ◌++◌, length, map, drop, true, None, slice_index_or, IfOk};
ghost use Rattle.std.specs.Prelude.{OnOk};
ghost use Rattle.edge_files.specs.{Effects.all_steps, World.byte_steps};
ghost use Rattle.law_replanning.specs.Memories.{hold_fitting, all_hold_fitting};
ghost use Rattle.plan_text.specs.Lines.{own_lines, persons_lines, plans_text};
ghost use Rattle.town.specs.Views.{rows_of};
ghost use Rattle.plan_memory.specs.Scores.{worst};
ghost use Rattle.iterations.specs.{Acts.end_effects, Performed.IsWritten, Performed.moment, Runs.CanRun, Texts.done_line, Views.run_rows};
ghost use Rattle.iterations.specs.Written.{other_places, scores_at, kept_places, written_places, written_plans};

use crate::performing::write;
use crate::run::RunInput;
use crate::texts::{done_line, plans_header};
use edge_files::{EffectError, Keeper, OutFile, Outputs};
use limits::MAX_PLANS;
use plan_memory::{Memory, worst};
use plan_text::write_plan;
use std::alloc::{AllocError, Global};
use town::Town;

/// The plans of how many persons are written at once.
const PERSONS_AT_ONCE: usize = 64;

/// The places of the plans of a memory that are not chosen.
fn other_places(alloc: Global, memory: &Memory) -> Result<Vec<u32>, AllocError>
    ensures places { IfOk result (λ places. places.items ≡ other_places memory.now) }
{
    let chosen = memory.chosen();
    (0..memory.len())
        .filter(|place| *place != chosen)
        .collect(alloc)
}

/// The score of the plan at a place, where it has one.
fn score_at(memory: &Memory, place: u32) -> Option<i64>
    ensures { result ≡ slice_index_or memory.now.scores place None }
{
    if place < memory.len() {
        memory.score(place)
    } else {
        None
    }
}

/// The scores of the plans at these places.
fn scores_at(alloc: Global, memory: &Memory, places: &[u32]) -> Result<Vec<Option<i64>>, AllocError>
    ensures { IfOk result (λ scores. scores.items ≡ scores_at memory.now places.now) }
{
    let mut scores = Vec::new(alloc);
    for place in places {
        scores.push(score_at(memory, *place))?;
    }
    Ok(scores)
}

/// The place of the worst of the plans at these places.
fn worst_of(alloc: Global, memory: &Memory, places: &[u32]) -> Result<usize, AllocError>
    requires { 0 < length places.now }
    ensures { IfOk result (λ place. (place ≡ worst (scores_at memory.now places.now)) × (place < length places.now)) }
{
    let scores = scores_at(alloc, memory, places)?;
    Ok(worst(&scores))
}

/// Those of the other places whose plans a file may have beside the chosen one.
fn kept_places(alloc: Global, memory: &Memory, others: Vec<u32>) -> Result<Vec<u32>, AllocError>
    ensures { IfOk result (λ kept. kept.items ≡ kept_places memory.now others.items) }
{
    if others.len() < MAX_PLANS as usize {
        return Ok(others);
    }
    let place = worst_of(alloc, memory, &others)?;
    let mut kept = others;
    kept.remove(place);
    Ok(kept)
}

/// The places of the plans of a memory that are written: the chosen one first, and then the others in their order. Of as many others as
/// a file may have plans, the worst is left out.
#[tactic(auto, unfolding(crate::specs::Written::written_places))]
fn written_places(alloc: Global, memory: &Memory) -> Result<Vec<u32>, AllocError>
    ensures { IfOk result (λ places. places.items ≡ written_places memory.now) }
{
    let others = other_places(alloc, memory)?;
    let kept = kept_places(alloc, memory, others)?;
    let mut places = Vec::new(alloc);
    places.push(memory.chosen())?;
    places.extend_from_slice(&kept)?;
    Ok(places)
}

/// Appends the lines of the plan at a place of those that are written.
fn push_plan(
    town: &Town,
    person: u32,
    memory: &Memory,
    places: &[u32],
    index: usize,
    text: &mut Vec<u8>,
) -> Result<(), AllocError>
    requires person { person < length town.now.book.persons }
    requires fit { hold_fitting (rows_of town.now) memory.now ≡ true }
    requires places { places.now ≡ written_places memory.now }
    requires index { index < length places.now }
    ensures { OnOk result (text.new.items ++ own_lines town.now.book person (index + 1) (drop (index + 1) (written_plans memory.now))
        ≡ text.old.items ++ own_lines town.now.book person index (drop index (written_plans memory.now))) }
{
    let _count = memory.len();
    let place = places[index];
    write_plan(person, index as u32, memory.plan(place), &town.book, text)
}

/// Appends the lines of the plans of a person that are written, numbered from 0.
fn push_own(
    alloc: Global,
    town: &Town,
    person: u32,
    memory: &Memory,
    text: &mut Vec<u8>,
) -> Result<(), AllocError>
    requires person { person < length town.now.book.persons }
    requires fit { hold_fitting (rows_of town.now) memory.now ≡ true }
    ensures { OnOk result (text.new.items ≡ text.old.items ++ own_lines town.now.book person 0 (written_plans memory.now)) }
{
    let places = written_places(alloc, memory)?;
    for index in 0..places.len() {
        push_plan(town, person, memory, &places, index, text)?;
    }
    Ok(())
}

/// Appends the lines of the plans of persons, numbered from `first` on.
fn push_persons(
    alloc: Global,
    town: &Town,
    first: u32,
    memories: &[Memory],
    text: &mut Vec<u8>,
) -> Result<(), AllocError>
    requires persons { first + length memories.now ≤ length town.now.book.persons }
    requires fit { all_hold_fitting (rows_of town.now) memories.now ≡ true }
    ensures { OnOk result (text.new.items ≡ text.old.items
        ++ persons_lines town.now.book first (map written_plans memories.now)) }
{
    for place in 0..memories.len() {
        push_own(alloc, town, first + place as u32, &memories[place], text)?;
    }
    Ok(())
}

/// Writes the plans of some persons, numbered from `first` on.
fn write_some_plans<O: Outputs, K: Keeper>(
    alloc: Global,
    town: &Town,
    first: u32,
    memories: &[Memory],
    outputs: &mut O,
    keeper: &mut K,
) -> Result<(), EffectError>
    requires persons { first + length memories.now ≤ length town.now.book.persons }
    requires fit { all_hold_fitting (rows_of town.now) memories.now ≡ true }
    ensures performed { IsWritten
        (moment (O.written outputs.old) (K.kept keeper.old) (O.faults outputs.old) (K.faults keeper.old))
        (moment (O.written outputs.new) (K.kept keeper.new) (O.faults outputs.new) (K.faults keeper.new))
        (byte_steps OutFile.Plans (persons_lines town.now.book first (map written_plans memories.now))) result }
    ensures keeper { keeper.new ≡ keeper.old }
{
    let mut text = Vec::new(alloc);
    match push_persons(alloc, town, first, memories, &mut text) {
        Ok(()) => write(outputs, keeper, OutFile::Plans, text),
        Err(_) => Err(EffectError::NoMemory),
    }
}

/// Writes the plans of all persons, some at once, with the layout of plans.csv.
#[tactic(auto, unfolding(plan_text::specs::Lines::plans_text))]
fn write_plans<O: Outputs, K: Keeper>(
    alloc: Global,
    town: &Town,
    memories: &[Memory],
    outputs: &mut O,
    keeper: &mut K,
) -> Result<(), EffectError>
    requires persons { length memories.now ≡ length town.now.book.persons }
    requires fit { all_hold_fitting (rows_of town.now) memories.now ≡ true }
    ensures performed { IsWritten
        (moment (O.written outputs.old) (K.kept keeper.old) (O.faults outputs.old) (K.faults keeper.old))
        (moment (O.written outputs.new) (K.kept keeper.new) (O.faults outputs.new) (K.faults keeper.new))
        (byte_steps OutFile.Plans (plans_text (map written_plans memories.now) town.now.book)) result }
    ensures keeper { keeper.new ≡ keeper.old }
{
    let Ok(header) = plans_header(alloc) else {
        return Err(EffectError::NoMemory);
    };
    match write(outputs, keeper, OutFile::Plans, header) {
        Ok(()) => {}
        Err(error) => return Err(error),
    }
    let mut first = 0;
    let mut rest = memories;
    while !rest.is_empty() {
        let count = rest.len().min(PERSONS_AT_ONCE);
        let (piece, after) = rest.split_at(count);
        match write_some_plans(alloc, town, first, piece, outputs, keeper) {
            Ok(()) => {
                first += count as u32;
                rest = after;
            }
            Err(error) => return Err(error),
        }
    }
    Ok(())
}

/// Writes the last line of the report.
fn write_done<O: Outputs, K: Keeper>(
    alloc: Global,
    last: u32,
    outputs: &mut O,
    keeper: &mut K,
) -> Result<(), EffectError>
    ensures performed { IsWritten
        (moment (O.written outputs.old) (K.kept keeper.old) (O.faults outputs.old) (K.faults keeper.old))
        (moment (O.written outputs.new) (K.kept keeper.new) (O.faults outputs.new) (K.faults keeper.new))
        (byte_steps OutFile.Report (done_line last)) result }
    ensures keeper { keeper.new ≡ keeper.old }
{
    match done_line(alloc, last) {
        Ok(line) => write(outputs, keeper, OutFile::Report, line),
        Err(_) => Err(EffectError::NoMemory),
    }
}

/// Writes the end of a run that ends with these memories.
#[tactic(auto, unfolding(crate::specs::Acts::end_effects))]
pub fn write_end<O: Outputs, K: Keeper, G>(
    alloc: Global,
    run: &RunInput<G>,
    memories: &[Memory],
    outputs: &mut O,
    keeper: &mut K,
) -> Result<(), EffectError>
    requires { CanRun (run_rows run.now) memories.now }
    ensures performed { IsWritten
        (moment (O.written outputs.old) (K.kept keeper.old) (O.faults outputs.old) (K.faults keeper.old))
        (moment (O.written outputs.new) (K.kept keeper.new) (O.faults outputs.new) (K.faults keeper.new))
        (all_steps (end_effects (run_rows run.now) memories.now)) result }
    ensures keeper { keeper.new ≡ keeper.old }
{
    match write_plans(alloc, run.town, memories, outputs, keeper) {
        Ok(()) => write_done(alloc, run.last_iteration, outputs, keeper),
        Err(error) => Err(error),
    }
}
