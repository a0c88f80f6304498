ghost use Rattle.std.specs.Prelude.{◌≡◌, ◌<◌, ◌++◌, ◌∷◌, [], length, map, option_map, true, false, IfOk, OnOk, is_some};
ghost use Rattle.std.specs.Prelude.{Some, nat_eq};
ghost use Rattle.csv.specs.Records.{fields_of};
ghost use Rattle.events.specs.Names.{number_of, with_name, is_name};
ghost use Rattle.records.specs.{Fields.field, Fields.holds_name, Lists.numbers_of, Lists.are_names};
ghost use Rattle.rows.specs.{Plan.is_leg, Plan.has_end, PlanRows.plan_rows};
ghost use Rattle.plans.specs.Kinds.{kind_of, is_car, items_of, item};
ghost use Rattle.plans.specs.Progress.{closed_acts, new_person, new_plan, same_plan_act, put_act, step_act};
ghost use Rattle.plans.specs.{Read.progress_of, Refusals.begins_plan, Refusals.begins_person, Values.act_of};

use crate::kinds::{ElementKind, end_in, is_car, kind_of, seconds_in};
use crate::open_plan::{OpenPlan, begun, closed, with_act, with_leg};
use crate::orders::{begins_person, begins_plan};
use crate::refusals::Named;
use crate::rows_read::RowsRead;
use csv::ByteRecord;
use events::{Mode, Names, Route};
use records::{field, items_in, number, numbers_of};
use rows::{Act, Leg, Plan, PlanList};
use std::alloc::{AllocError, Global};
use std::mem::replace;

/// What the row names.
pub fn named_in<'a>(
    alloc: Global,
    row: &'a ByteRecord,
    links: &Names,
) -> Result<Named<'a>, AllocError>
    ensures items { IfOk result (λ named. map (λ item. item.now) named.items.items ≡ items_of (fields_of row.now)) }
    ensures link { IfOk result (λ named. named.link ≡ number_of (field (fields_of row.now) 4) links.now) }
    ensures route { IfOk result
        (λ named. is_car (kind_of (fields_of row.now)) ≡ true → option_map (λ route. route.items) named.route
        ≡ numbers_of (items_of (fields_of row.now)) links.now) }
{
    let items = items_in(alloc, field(row, 6))?;
    let link = links.find(field(row, 4));
    if is_car(kind_of(row)) {
        let route = numbers_of(alloc, &items, links)?;
        return Ok(Named { items, link, route });
    }
    Ok(Named {
        items,
        link,
        route: None,
    })
}

/// The person's plans, with the current one closed.
pub fn with_closed(own: Vec<Plan>, current: OpenPlan) -> Result<Vec<Plan>, AllocError>
    requires { is_some current.last ≡ true }
    ensures { IfOk result
        (λ v. map plan_rows v.items ≡ map plan_rows own.items
        ++ (record { acts = closed_acts current.acts.items current.last; legs = current.legs.items }) ∷ []) }
{
    let Some(last) = current.last else {
        unreachable!()
    };
    let plan = closed(current, last)?;
    let mut own = own;
    own.push(plan)?;
    Ok(own)
}

/// The row begins a person.
fn new_person(
    alloc: Global,
    read: &mut RowsRead,
    row: &ByteRecord,
    number_of_row: u32,
    act: Act,
) -> Result<(), AllocError>
    requires closes { is_some read.old.current.last ≡ true }
    requires person { is_name (field (fields_of row.now) 0) ≡ true }
    ensures { OnOk result (progress_of read.new ≡ new_person (progress_of read.old) (fields_of row.now) number_of_row act) }
{
    number(alloc, &mut read.persons, field(row, 0))?;
    let own = replace(&mut read.own, Vec::new(alloc));
    let current = replace(&mut read.current, begun(alloc, act));
    let rows = with_closed(own, current)?;
    read.plans.push(PlanList { rows })?;
    read.starts.push(number_of_row)?;
    Ok(())
}

/// The row begins a further plan of the last person.
fn new_plan(
    alloc: Global,
    read: &mut RowsRead,
    number_of_row: u32,
    act: Act,
) -> Result<(), AllocError>
    requires { is_some read.old.current.last ≡ true }
    ensures { OnOk result (progress_of read.new ≡ new_plan (progress_of read.old) number_of_row act) }
{
    let own = replace(&mut read.own, Vec::new(alloc));
    let current = replace(&mut read.current, begun(alloc, act));
    read.own = with_closed(own, current)?;
    read.starts.push(number_of_row)?;
    Ok(())
}

/// The row goes on with the current plan.
fn same_plan(alloc: Global, read: &mut RowsRead, act: Act)
    ensures { progress_of read.new ≡ same_plan_act (progress_of read.old) act }
{
    let current = replace(&mut read.current, begun(alloc, act));
    read.current = with_act(current, act);
}

/// The activity that the row is, with its kind among the names.
#[tactic(auto, unfolding(crate::specs::Values::act_of))]
pub fn numbered_act(
    alloc: Global,
    kinds: &mut Names,
    row: &ByteRecord,
    named: &Named,
    links: &Names,
) -> Result<Act, AllocError>
    requires kind { is_name (field (fields_of row.now) 3) ≡ true }
    requires link { named.now.link ≡ number_of (field (fields_of row.now) 4) links.now }
    requires found { is_some named.now.link ≡ true }
    ensures kinds { OnOk result (kinds.new ≡ with_name kinds.old (field (fields_of row.now) 3)) }
    ensures act { IfOk result (λ act. act ≡ act_of kinds.new links.now (fields_of row.now)) }
{
    let Some(link) = named.link else {
        unreachable!()
    };
    let kind = number(alloc, kinds, field(row, 3))?;
    let end = end_in(row);
    Ok(Act { kind, link, end })
}

/// The activity begins a person or a plan, or goes on with the current one.
#[tactic(auto, unfolding(crate::specs::Progress::put_act))]
fn put_act(
    alloc: Global,
    read: &mut RowsRead,
    before: Option<&ByteRecord>,
    row: &ByteRecord,
    number_of_row: u32,
    act: Act,
) -> Result<(), AllocError>
    requires person { is_name (field (fields_of row.now) 0) ≡ true }
    requires closes { begins_plan (option_map (λ r. fields_of r.now) before) (fields_of row.now) ≡ true → is_some read.old.current.last
        ≡ true }
    ensures { OnOk result
        (progress_of read.new
        ≡ put_act (progress_of read.old) (begins_plan (option_map (λ r. fields_of r.now) before.entry) (fields_of row.now))
        (begins_person (option_map (λ r. fields_of r.now) before.entry) (fields_of row.now))
        (fields_of row.now) number_of_row act) }
{
    if begins_plan(before, row) {
        if begins_person(before, row) {
            return new_person(alloc, read, row, number_of_row, act);
        }
        return new_plan(alloc, read, number_of_row, act);
    }
    same_plan(alloc, read, act);
    Ok(())
}

/// One more row, which is an activity.
#[tactic(auto, unfolding(crate::specs::Progress::step_act))]
pub fn step_act(
    alloc: Global,
    read: RowsRead,
    before: Option<&ByteRecord>,
    row: &ByteRecord,
    number_of_row: u32,
    named: &Named,
    links: &Names,
) -> Result<RowsRead, AllocError>
    requires person { is_name (field (fields_of row.now) 0) ≡ true }
    requires kind { is_name (field (fields_of row.now) 3) ≡ true }
    requires link { named.now.link ≡ number_of (field (fields_of row.now) 4) links.now }
    requires found { is_some named.now.link ≡ true }
    requires closes { begins_plan (option_map (λ r. fields_of r.now) before) (fields_of row.now) ≡ true
        → is_some read.current.last ≡ true }
    ensures { IfOk result
        (λ r. progress_of r ≡ step_act links.now (progress_of read) (option_map (λ r. fields_of r.now) before.entry)
        (fields_of row.now) number_of_row) }
{
    let mut read = read;
    let act = numbered_act(alloc, &mut read.kinds, row, named, links)?;
    put_act(alloc, &mut read, before, row, number_of_row, act)?;
    Ok(read)
}
