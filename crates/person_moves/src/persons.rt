//! The turns of persons and departures.

ghost use Rattle.std.specs.{List.list_all, Prelude.◌≡◌};
ghost use Rattle.std.specs.Prelude.{◌<◌, ◌+◌, ◌++◌, ◌∷◌, [], ℕ, true, length, OnOk, IfOk, if◌then◌else◌};
ghost use Rattle.rows.specs.{Plan.mode_of_leg, Plan.HasRoute, PlanRows.plan_rows, PlanRows.act_in, PlanRows.leg_in, declared.plan.Leg.Leg};
ghost use Rattle.town.specs.{Fits.fits, Views.rows_of, Views.chosen_in, Views.setup};
ghost use Rattle.traffic.specs.Persons.{lands, landing, landing_moves, departs, car, sets_out, leaving, leaving_moves};
ghost use Rattle.traffic.specs.{Setup.person_plan, declared.moves.Move.TheVariants.Report};
ghost use Rattle.person_moves.specs.Legs.{nth_leg, ends_in, CanLeave};

use crate::legs::{LegKind, kind_in, kind_of, mode_of_kind};
use crate::stops::link_of_stop;
use events::{Calls, Mode, More, Route, VehicleId, Word};
use rows::{Act, Leg, Legs, Plan, act_after, act_in};
use std::alloc::{AllocError, Global};
use town::{DayInput, chosen_plan};
use traffic::{
    Move, Occurrence, OccurrenceList, Person, Place, Rider, Riders, Row, Stage, Vehicle,
};
use vehicles::of_person;

/// A teleported leg is over.
fn lands(
    alloc: Global,
    i: u32,
    mode: Mode,
    seconds: u32,
    next: Act,
) -> Result<OccurrenceList, AllocError>
    ensures { IfOk result (λ says. says ≡ lands i mode seconds next) }
{
    let mut rows = Vec::new(alloc);
    rows.push(Occurrence {
        word: Word::Travelled,
        person: Some(i),
        vehicle: None,
        link: None,
        more: More::Seconds(seconds),
    })?;
    rows.push(of_person(Word::Arrival, i, next.link, More::Mode(mode)))?;
    rows.push(of_person(Word::ActStart, i, next.link, More::Kind(next.kind)))?;
    Ok(OccurrenceList { rows })
}

/// One move that tells.
fn one_report(alloc: Global, says: OccurrenceList) -> Result<Vec<Move>, AllocError>
    ensures { IfOk result (λ moves. moves.items ≡ Report says ∷ []) }
{
    let mut moves = Vec::new(alloc);
    moves.push(Move::Report { says })?;
    Ok(moves)
}

/// The moves of a person with this plan whose leg may end.
fn landing(
    alloc: Global,
    second: u32,
    i: u32,
    plan: &Plan,
    person: Person,
) -> Result<Vec<Move>, AllocError>
    ensures { IfOk result (λ moves. moves.items
        ≡ landing second i (leg_in (plan_rows plan.now) person.element) (act_in (plan_rows plan.now) (person.element + 2)) person.place) }
{
    let Place::Teleporting { start } = person.place else {
        return Ok(Vec::new(alloc));
    };
    let LegKind::Teleport { mode, seconds } = kind_in(plan, person.element) else {
        return Ok(Vec::new(alloc));
    };
    if u64::from(start) + u64::from(seconds) != u64::from(second) {
        return Ok(Vec::new(alloc));
    }
    let says = lands(alloc, i, mode, seconds, act_after(plan, person.element))?;
    let moves = one_report(alloc, says)?;
    Ok(moves)
}

/// The moves of a person in the phase in which teleported legs end. Without such an end nothing is allocated.
///
/// # Errors
///
/// `AllocError`: there is no memory for the moves.
pub fn landing_moves(
    alloc: Global,
    day: &DayInput,
    second: u32,
    i: u32,
    person: Person,
) -> Result<Vec<Move>, AllocError>
    requires { i < length day.now.chosen.now }
    ensures { IfOk result (λ moves. moves.items ≡ landing_moves (setup day.now) second i person) }
{
    let plan = chosen_plan(day, i);
    let moves = landing(alloc, second, i, plan, person)?;
    Ok(moves)
}

/// An activity ends, and the leg after it begins.
fn departs(alloc: Global, i: u32, here: Act, mode: Mode) -> Result<OccurrenceList, AllocError>
    ensures { IfOk result (λ says. (w : Leg) → mode_of_leg w ≡ mode → says ≡ departs i here w) }
{
    let mut rows = Vec::new(alloc);
    rows.push(of_person(Word::ActEnd, i, here.link, More::Kind(here.kind)))?;
    rows.push(of_person(Word::Departure, i, here.link, More::Mode(mode)))?;
    Ok(OccurrenceList { rows })
}

/// A car with its driver, at the end of the wait list of the first link of its route.
fn car(alloc: Global, i: u32, route: &Route, kind: u32) -> Result<Row, AllocError>
    requires { 0 < length route.now }
    ensures { IfOk result (λ row. row ≡ car i route.now kind) }
{
    let link = route.rows[0];
    let route = route.try_clone()?;
    let mut riders = Vec::new(alloc);
    riders.push(Rider {
        person: i,
        egress: None,
        kind,
    })?;
    let vehicle = Vehicle {
        id: VehicleId::Car(i),
        route,
        place: 0,
        started: false,
        riders: Riders { rows: riders },
        line: 0,
        calls: Calls {
            rows: Vec::new(alloc),
        },
        served: 0,
        departed: 0,
        seats: 0,
        pushed: false,
    };
    Ok(Row {
        vehicle,
        link,
        stage: Stage::Wait,
        second: 0,
    })
}

/// Appends how a leg begins.
fn push_sets_out(
    alloc: Global,
    day: &DayInput,
    i: u32,
    leg: &Leg,
    next: Act,
    moves: &mut Vec<Move>,
) -> Result<(), AllocError>
    requires { HasRoute leg.now }
    ensures { OnOk result (moves.new.items ≡ moves.old.items ++ sets_out (setup day.now) i leg.now next) }
{
    match leg {
        Leg::Car { route } => {
            let now = car(alloc, i, route, next.kind)?;
            moves.push(Move::Enter { now })?;
            Ok(())
        }
        Leg::Teleport { .. } => Ok(()),
        Leg::Transit { access, .. } => {
            let mut rows = Vec::new(alloc);
            rows.push(of_person(
                Word::WaitingForPt,
                i,
                link_of_stop(day, *access),
                More::Stop(*access),
            ))?;
            moves.push(Move::Report {
                says: OccurrenceList { rows },
            })?;
            Ok(())
        }
    }
}

/// A person leaves for the leg at a place of the plan.
fn leave_for(
    alloc: Global,
    day: &DayInput,
    i: u32,
    legs: &Legs,
    place: usize,
    here: Act,
    next: Act,
) -> Result<Vec<Move>, AllocError>
    requires there { place < length legs.now }
    requires route { HasRoute (nth_leg legs.now place) }
    ensures { IfOk result (λ moves. moves.items
        ≡ Report (departs i here (nth_leg legs.now place)) ∷ sets_out (setup day.now) i (nth_leg legs.now place) next) }
{
    let leg = &legs.rows[place];
    let says = departs(alloc, i, here, mode_of_kind(kind_of(leg)))?;
    let mut moves = one_report(alloc, says)?;
    push_sets_out(alloc, day, i, leg, next, &mut moves)?;
    Ok(moves)
}

/// Whether an activity at this place ends in this second.
fn ends_in(second: u32, place: Place) -> bool
    ensures { result ≡ ends_in second place }
{
    match place {
        Place::At { end: Some(end) } => end == second,
        Place::At { end: None } => false,
        Place::Teleporting { .. } => false,
        Place::Waiting { .. } => false,
        Place::Riding { .. } => false,
        Place::Aborted { .. } => false,
    }
}

/// The moves of a person with this plan whose activity may end.
fn leaving(
    alloc: Global,
    day: &DayInput,
    second: u32,
    i: u32,
    plan: &Plan,
    person: Person,
) -> Result<Vec<Move>, AllocError>
    requires leg { CanLeave (plan_rows plan.now) person }
    requires fits { fits (rows_of day.now.town.now) (plan_rows plan.now) ≡ true }
    ensures { IfOk result (λ moves. moves.items
        ≡ leaving (setup day.now) second i (act_in (plan_rows plan.now) person.element) (leg_in (plan_rows plan.now) person.element)
        (act_in (plan_rows plan.now) (person.element + 2)) person.place) }
{
    if !ends_in(second, person.place) {
        return Ok(Vec::new(alloc));
    }
    let place = person.element as usize / 2;
    let here = act_in(plan, person.element);
    let next = act_after(plan, person.element);
    let moves = leave_for(alloc, day, i, &plan.legs, place, here, next)?;
    Ok(moves)
}

/// The moves of a person in the phase in which activities end. Without such an end nothing is allocated.
///
/// # Errors
///
/// `AllocError`: there is no memory for the moves.
pub fn leaving_moves(
    alloc: Global,
    day: &DayInput,
    second: u32,
    i: u32,
    person: Person,
) -> Result<Vec<Move>, AllocError>
    requires there { i < length day.now.chosen.now }
    requires leg { CanLeave (person_plan (setup day.now) i) person }
    requires fits { list_all (fits (rows_of day.now.town.now)) (chosen_in day.now) ≡ true }
    ensures { IfOk result (λ moves. moves.items ≡ leaving_moves (setup day.now) second i person) }
{
    let plan = chosen_plan(day, i);
    let moves = leaving(alloc, day, second, i, plan, person)?;
    Ok(moves)
}
