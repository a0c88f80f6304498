//! Memories as rows that are kept.

ghost use Rattle.std.specs.Prelude.{◌≡◌, ◌<◌, ◌++◌, length, slice_get, slice_index_or, true, All, Some, None, OnOk, IfOk};
ghost use Rattle.events.specs.Names.{name_at};
ghost use Rattle.rows.specs.PlanRows.{PlanRows, plan_rows};
ghost use Rattle.plan_text.specs.Lines.{are_in_book, is_plan_in, plan_lines};
ghost use Rattle.keep.specs.Kept.{row_of, is_choice, own_rows, kept_rows};
ghost use Rattle.keep.specs.Fitting.{are_named, all_named, IsReadable};

use edge_files::{Bytes, KeptRow, KeptRows};
use events::{Book, Rows};
use plan_memory::Memory;
use plan_text::write_plan;
use rows::Plan;
use std::alloc::{AllocError, Global};

/// The lines of a plan, as the plan of this number of a person.
fn lines_of(
    alloc: Global,
    book: &Book,
    person: u32,
    index: u32,
    plan: &Plan,
) -> Result<Bytes, AllocError>
    requires person { person < length book.now.persons }
    requires named { are_in_book book.now plan.now.acts plan.now.legs ≡ true }
    ensures lines { IfOk result (λ text. text ≡ plan_lines person index (plan_rows plan.now) book.now) }
    ensures readable { is_plan_in book.now (plan_rows plan.now) ≡ true }
{
    let mut text = Vec::new(alloc);
    write_plan(person, index, plan, book, &mut text)?;
    Ok(Bytes { rows: text })
}

/// The name of a person.
fn name_of(alloc: Global, book: &Book, person: u32) -> Result<Bytes, AllocError>
    requires { person < length book.now.persons }
    ensures { IfOk result (λ name. name ≡ name_at book.now.persons person) }
{
    let rows = Vec::from_slice(alloc, book.persons.get(person))?;
    Ok(Bytes { rows })
}

/// The row of a plan of a person's memory.
fn row_of(
    alloc: Global,
    book: &Book,
    person: u32,
    index: u32,
    memory: &Memory,
) -> Result<KeptRow, AllocError>
    requires person { person < length book.now.persons }
    requires index { index < length memory.now.plans }
    requires named { are_named book.now memory.now ≡ true }
    ensures row { IfOk result (λ row. (plan : PlanRows) → slice_get memory.now.plans index ≡ Some plan →
        row ≡ row_of book.now person index (is_choice (Some memory.now.chosen) index) plan
        (slice_index_or memory.now.scores index None)) }
    ensures readable { (plan : PlanRows) → slice_get memory.now.plans index ≡ Some plan → is_plan_in book.now plan ≡ true }
{
    let body = lines_of(alloc, book, person, index, memory.plan(index))?;
    let name = name_of(alloc, book, person)?;
    Ok(KeptRow {
        person: name,
        plan: index,
        chosen: index == memory.chosen(),
        score: memory.score(index),
        body,
    })
}

/// Adds the rows of a person's memory.
fn push_own(
    book: &Book,
    person: u32,
    memory: &Memory,
    rows: &mut Vec<KeptRow>,
) -> Result<(), AllocError>
    requires person { person < length book.now.persons }
    requires named { are_named book.now memory.now ≡ true }
    ensures rows { OnOk result (rows.new.items ≡ rows.old.items ++ own_rows book.now person memory.now) }
    ensures sound { OnOk result (IsReadable book.now memory.now) }
{
    let alloc = *rows.allocator();
    for index in 0..memory.len() {
        let row = row_of(alloc, book, person, index, memory)?;
        rows.push(row)?;
    }
    Ok(())
}

/// The rows that are kept of the memories of all persons, which stand by the persons' numbers: a row for each plan, with its lines in the
/// layout of plans.csv. A memory so kept has plans whose lines are read back (`memories_of`).
#[tactic(auto, unfolding(crate::specs::Kept::kept_rows))]
pub fn rows_of(alloc: Global, book: &Book, memories: &[Memory]) -> Result<KeptRows, AllocError>
    requires persons { length memories.now ≡ length book.now.persons }
    requires named { all_named book.now memories.now ≡ true }
    ensures rows { IfOk result (λ rows. rows ≡ kept_rows book.now memories.now) }
    ensures sound { OnOk result (All (IsReadable book.now) memories.now) }
{
    let mut rows = Vec::new(alloc);
    for person in 0..book.persons.len() {
        push_own(book, person, &memories[person as usize], &mut rows)?;
    }
    Ok(Rows { rows })
}
