//! A whole file of plans.

ghost use Rattle.std.specs.Prelude.{◌≡◌, ◌<◌, ◌≤◌, ◌+◌, ◌++◌, length, drop, map, true, OnOk, IfOk};
ghost use Rattle.rows.specs.PlanRows.{plan_rows, all_plan_rows};
ghost use Rattle.plans.specs.Kinds.{plans_header};
ghost use Rattle.plan_text.specs.Lines.{row_line, own_lines, persons_lines, plans_text, are_own_in, are_all_in};

use crate::fields::push_row;
use crate::writing::write_plan;
use events::Book;
use rows::{Plan, PlanList, PlanLists};
use std::alloc::{AllocError, Global};

/// Appends the lines of the plans of a person, numbered from 0.
fn push_own(book: &Book, person: u32, plans: &[Plan], text: &mut Vec<u8>) -> Result<(), AllocError>
    requires person { person < length book.now.persons }
    requires named { are_own_in book.now (map plan_rows plans.now) ≡ true }
    ensures { OnOk result (text.new.items ≡ text.old.items ++ own_lines book.now person 0 (map plan_rows plans.now)) }
{
    for index in 0..plans.len() {
        write_plan(person, index as u32, &plans[index], book, text)?;
    }
    Ok(())
}

fn push_list(
    book: &Book,
    person: u32,
    plans: &PlanList,
    text: &mut Vec<u8>,
) -> Result<(), AllocError>
    requires person { person < length book.now.persons }
    requires named { are_own_in book.now (map plan_rows plans.now) ≡ true }
    ensures { OnOk result (text.new.items ≡ text.old.items ++ own_lines book.now person 0 (map plan_rows plans.now)) }
{
    push_own(book, person, &plans.rows, text)
}

/// Appends the lines of the plans of all persons.
fn push_persons(book: &Book, plans: &[PlanList], text: &mut Vec<u8>) -> Result<(), AllocError>
    requires persons { length plans.now ≡ length book.now.persons }
    requires named { are_all_in book.now (all_plan_rows plans.now) ≡ true }
    ensures { OnOk result (text.new.items ≡ text.old.items ++ persons_lines book.now 0 (all_plan_rows plans.now)) }
{
    for person in 0..book.persons.len() {
        push_list(book, person, &plans[person as usize], text)?;
    }
    Ok(())
}

/// The file of these plans, with the layout of plans.csv: of each person by number, his plans in order,
/// numbered from 0. The last activity of a plan has no time.
#[tactic(auto, unfolding(crate::specs::Lines::plans_text))]
pub fn plans_text(alloc: Global, plans: &PlanLists, book: &Book) -> Result<Vec<u8>, AllocError>
    requires persons { length plans.now ≡ length book.now.persons }
    requires named { are_all_in book.now (all_plan_rows plans.now) ≡ true }
    ensures { IfOk result (λ text. text.items ≡ plans_text (all_plan_rows plans.now) book.now) }
{
    let header = [
        b"person".as_slice(),
        b"plan".as_slice(),
        b"kind".as_slice(),
        b"name".as_slice(),
        b"link".as_slice(),
        b"time".as_slice(),
        b"route".as_slice(),
    ];
    let mut text = Vec::new(alloc);
    push_row(&header, &mut text)?;
    push_persons(book, &plans.rows, &mut text)?;
    Ok(text)
}
