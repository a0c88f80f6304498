//! One more kept row.

ghost use Rattle.std.specs.Prelude.{◌≡◌, ◌<◌, ◌∷◌, ◌++◌, ◌&&◌, [], length, option_map, is_some, IfOk, IsTrue};
ghost use Rattle.rows.specs.PlanRows.{plan_rows};
ghost use Rattle.plan_memory.specs.declared.TheConstants.{MAX_HELD};
ghost use Rattle.town.specs.Views.{rows_of};
ghost use Rattle.keep.specs.Reading.{nothing, start, begun_of, progress_of, plan_in, closed, is_of, is_numbered, is_next};
ghost use Rattle.keep.specs.Reading.{begun_with, grown, extended, step, ended};

use crate::progress::{Begun, Reading};
use edge_files::{Bytes, KeptRow};
use events::{Book, Names, Rows};
use plan_memory::{MAX_HELD, Memory, MemoryList};
use plan_text::{know_names, read_body};
use records::is_text;
use rows::Plan;
use std::alloc::{AllocError, Global};
use town::{Town, plan_fits};

/// Nothing of a person.
fn nothing(alloc: Global) -> Begun
    ensures { begun_of result ≡ nothing }
{
    Begun {
        plans: Rows {
            rows: Vec::new(alloc),
        },
        scores: Rows {
            rows: Vec::new(alloc),
        },
        chosen: None,
    }
}

/// No row is read.
pub fn start(alloc: Global) -> Reading
    ensures { progress_of result ≡ start }
{
    Reading {
        done: Rows {
            rows: Vec::new(alloc),
        },
        begun: nothing(alloc),
    }
}

fn bytes_of(bytes: &Bytes) -> &[u8]
    ensures { result.now ≡ bytes.now }
{
    &bytes.rows
}

/// The plan whose lines a row has, where it fits the town.
fn plan_in(
    alloc: Global,
    town: &Town,
    person: u32,
    index: u32,
    text: &[u8],
) -> Result<Option<Plan>, AllocError>
    requires { person < length town.now.book.persons }
    ensures { IfOk result (λ plan. option_map plan_rows plan ≡ plan_in (rows_of town.now) person index text.now) }
{
    know_names(&town.book);
    let read = read_body(alloc, text, person, index, &town.book)?;
    let Some(plan) = read else {
        return Ok(None);
    };
    if plan_fits(town, &plan) {
        return Ok(Some(plan));
    }
    Ok(None)
}

/// The items, and one more.
fn with_item<T: Drop>(items: Rows<T>, item: T) -> Result<Rows<T>, AllocError>
    ensures { IfOk result (λ more. more ≡ items ++ item ∷ []) }
{
    let mut items = items;
    items.rows.push(item)?;
    Ok(items)
}

/// The person whose plans are begun is done with.
#[tactic(auto, using(crate::proofs::PlanViews::plans_count), unfolding(crate::specs::Reading::closed))]
pub fn closed(alloc: Global, reading: Reading) -> Result<Option<Reading>, AllocError>
    ensures { IfOk result (λ next. option_map progress_of next ≡ closed (progress_of reading)) }
{
    if reading.begun.plans.is_empty() {
        return Ok(Some(reading));
    }
    let Reading { done, begun } = reading;
    let Begun {
        plans,
        scores,
        chosen,
    } = begun;
    let Some(chosen) = chosen else {
        return Ok(None);
    };
    let done = with_item(done, Memory::of_kept(plans, scores, chosen))?;
    Ok(Some(Reading {
        done,
        begun: nothing(alloc),
    }))
}

/// Whether a row is of the person of this number.
fn is_of(persons: &Names, person: usize, name: &[u8]) -> bool
    ensures { result ≡ is_of persons.now person name.now }
{
    person < persons.len() as usize && is_text(name, persons.get(person as u32))
}

/// Whether a row has the number of the next plan, of six at most, and is no second chosen one.
#[tactic(auto, using(crate::proofs::PlanViews::plans_count))]
fn is_numbered(begun: &Begun, row: &KeptRow) -> bool
    ensures { result ≡ is_numbered (begun_of begun.now) row.now }
{
    let count = begun.plans.len();
    row.plan as usize == count && count < MAX_HELD && !(row.chosen && begun.chosen.is_some())
}

#[tactic(auto, using(crate::proofs::PlanViews::plans_count), unfolding(crate::specs::Reading::is_next))]
fn is_next(town: &Town, reading: &Reading, row: &KeptRow) -> bool
    ensures next { result ≡ is_next (rows_of town.now) (progress_of reading.now) row.now }
    ensures person { IsTrue result → length reading.now.done < length town.now.book.persons }
    ensures number { IsTrue result → row.now.plan ≡ length reading.now.begun.plans }
    ensures room { IsTrue result → length reading.now.begun.plans < MAX_HELD }
{
    is_of(
        &town.book.persons,
        reading.done.len(),
        bytes_of(&row.person),
    ) && is_numbered(&reading.begun, row)
}

/// One more plan of a person.
#[tactic(auto, using(crate::proofs::PlanViews::plans_push))]
fn begun_with(begun: Begun, row: &KeptRow, plan: Plan) -> Result<Begun, AllocError>
    requires number { row.now.plan ≡ length begun.plans }
    requires room { length begun.plans < MAX_HELD }
    ensures { IfOk result (λ more. begun_of more ≡ begun_with (begun_of begun) row.now (plan_rows plan)) }
{
    let Begun {
        plans,
        scores,
        chosen,
    } = begun;
    let plans = with_item(plans, plan)?;
    let scores = with_item(scores, row.score)?;
    let chosen = if row.chosen { Some(row.plan) } else { chosen };
    Ok(Begun {
        plans,
        scores,
        chosen,
    })
}

/// One more plan of the person whose plans are begun; of six one has to be the chosen one.
#[tactic(auto, using(crate::proofs::PlanViews::plans_count), unfolding(crate::specs::Reading::grown))]
fn grown(reading: Reading, row: &KeptRow, plan: Plan) -> Result<Option<Reading>, AllocError>
    requires number { row.now.plan ≡ length reading.begun.plans }
    requires room { length reading.begun.plans < MAX_HELD }
    ensures { IfOk result (λ next. option_map progress_of next ≡ grown (progress_of reading) row.now (plan_rows plan)) }
{
    let Reading { done, begun } = reading;
    let begun = begun_with(begun, row, plan)?;
    if begun.plans.len() == MAX_HELD && begun.chosen.is_none() {
        return Ok(None);
    }
    Ok(Some(Reading { done, begun }))
}

/// One more row of the person whose plans are begun.
#[tactic(auto, unfolding(crate::specs::Reading::extended))]
fn extended(
    alloc: Global,
    town: &Town,
    reading: Reading,
    row: &KeptRow,
) -> Result<Option<Reading>, AllocError>
    ensures { IfOk result (λ next. option_map progress_of next ≡ extended (rows_of town.now) row.now (progress_of reading)) }
{
    if !is_next(town, &reading, row) {
        return Ok(None);
    }
    let person = reading.done.len() as u32;
    let read = plan_in(alloc, town, person, row.plan, bytes_of(&row.body))?;
    let Some(plan) = read else {
        return Ok(None);
    };
    let next = grown(reading, row, plan)?;
    Ok(next)
}

/// One more row: a row of plan 0 is the next person's.
#[tactic(auto, unfolding(crate::specs::Reading::step))]
pub fn next_reading(
    alloc: Global,
    town: &Town,
    reading: Reading,
    row: &KeptRow,
) -> Result<Option<Reading>, AllocError>
    ensures { IfOk result (λ next. option_map progress_of next ≡ step (rows_of town.now) (progress_of reading) row.now) }
{
    if row.plan != 0 {
        let next = extended(alloc, town, reading, row)?;
        return Ok(next);
    }
    let Some(reading) = closed(alloc, reading)? else {
        return Ok(None);
    };
    let next = extended(alloc, town, reading, row)?;
    Ok(next)
}

/// The memories at the end, where there is one of each person.
#[tactic(auto, unfolding(crate::specs::Reading::ended))]
pub fn ended(alloc: Global, town: &Town, reading: Reading) -> Result<Option<MemoryList>, AllocError>
    ensures { IfOk result (λ memories. memories ≡ ended (rows_of town.now) (progress_of reading)) }
{
    let Some(reading) = closed(alloc, reading)? else {
        return Ok(None);
    };
    let Reading { done, begun: _ } = reading;
    if done.len() == town.book.persons.len() as usize {
        return Ok(Some(done));
    }
    Ok(None)
}
