//! What a move tells.

ghost use Rattle.std.specs.{List.flat_map, Prelude.◌≡◌, Prelude.◌<◌, Prelude.◌++◌, Prelude.OnOk, Prelude.IfOk};
ghost use Rattle.traffic.specs.{Moves.told, Stops.alighting, Stops.staying, Telling.of_person};
ghost use Rattle.traffic.specs.Telling.{of_rider, of_vehicle, of_driver, driver, mode_in, leaves, enters, starts, arrives, strands, aborts};
ghost use Rattle.traffic.specs.Telling.{boarded, serves, goes_on, changes_links, told_to, told_transfer, told_removal, told_entering};

use crate::stops::{alights, call_at, next_call, staying};
use events::{Mode, More, VehicleId, Word};
use std::alloc::{AllocError, Global};
use traffic::{Move, Occurrence, Rider, Row, Stage};

/// An event of a person on a link.
pub fn of_person(word: Word, person: u32, link: u32, more: More) -> Occurrence
    ensures { result ≡ of_person word person link more }
{
    Occurrence {
        word,
        person: Some(person),
        vehicle: None,
        link: Some(link),
        more,
    }
}

/// An event of a person and a vehicle.
pub fn of_rider(word: Word, person: u32, vehicle: VehicleId) -> Occurrence
    ensures { result ≡ of_rider word person vehicle }
{
    Occurrence {
        word,
        person: Some(person),
        vehicle: Some(vehicle),
        link: None,
        more: More::Nothing,
    }
}

/// An event of a vehicle on a link.
pub fn of_vehicle(word: Word, vehicle: VehicleId, link: u32, more: More) -> Occurrence
    ensures { result ≡ of_vehicle word vehicle link more }
{
    Occurrence {
        word,
        person: None,
        vehicle: Some(vehicle),
        link: Some(link),
        more,
    }
}

/// The driver of a car.
fn driver(vehicle: VehicleId) -> Option<u32>
    ensures { result ≡ driver vehicle }
{
    match vehicle {
        VehicleId::Car(person) => Some(person),
        VehicleId::Transit(_) => None,
    }
}

/// The mode of who rides in it.
fn mode_in(vehicle: VehicleId) -> Mode
    ensures { result ≡ mode_in vehicle }
{
    match vehicle {
        VehicleId::Car(_) => Mode::Car,
        VehicleId::Transit(_) => Mode::Pt,
    }
}

/// An event of a vehicle and its driver on a link.
pub fn of_driver(word: Word, vehicle: VehicleId, link: u32) -> Occurrence
    ensures { result ≡ of_driver word vehicle link }
{
    Occurrence {
        word,
        person: driver(vehicle),
        vehicle: Some(vehicle),
        link: Some(link),
        more: More::Nothing,
    }
}

/// A rider leaves the vehicle, and his next activity begins.
fn push_leaves(
    vehicle: VehicleId,
    link: u32,
    rider: &Rider,
    out: &mut Vec<Occurrence>,
) -> Result<(), AllocError>
    ensures { OnOk result (out.new.items ≡ out.old.items ++ leaves vehicle link rider.now) }
{
    out.push(of_rider(Word::PersonLeavesVehicle, rider.person, vehicle))?;
    out.push(of_person(
        Word::Arrival,
        rider.person,
        link,
        More::Mode(mode_in(vehicle)),
    ))?;
    out.push(of_person(Word::ActStart, rider.person, link, More::Kind(rider.kind)))?;
    Ok(())
}

/// Riders leave the vehicle, in order, and their next activities begin.
pub fn push_all_leave(
    vehicle: VehicleId,
    link: u32,
    riders: &[Rider],
    out: &mut Vec<Occurrence>,
) -> Result<(), AllocError>
    ensures { OnOk result (out.new.items ≡ out.old.items ++ flat_map (leaves vehicle link) riders.now) }
{
    for rider in riders {
        push_leaves(vehicle, link, rider, out)?;
    }
    Ok(())
}

/// Persons enter the vehicle, in order.
pub fn push_all_enter(
    vehicle: VehicleId,
    riders: &[Rider],
    out: &mut Vec<Occurrence>,
) -> Result<(), AllocError>
    ensures { OnOk result (out.new.items ≡ out.old.items ++ flat_map (enters vehicle) riders.now) }
{
    for rider in riders {
        out.push(of_rider(Word::PersonEntersVehicle, rider.person, vehicle))?;
    }
    Ok(())
}

/// The riders of a vehicle that is removed, in order.
pub fn push_all_strand(
    vehicle: VehicleId,
    link: u32,
    riders: &[Rider],
    out: &mut Vec<Occurrence>,
) -> Result<(), AllocError>
    ensures { OnOk result (out.new.items ≡ out.old.items ++ flat_map (strands vehicle link) riders.now) }
{
    for rider in riders {
        out.push(of_person(
            Word::StuckAndAbort,
            rider.person,
            link,
            More::Mode(mode_in(vehicle)),
        ))?;
    }
    Ok(())
}

/// A vehicle that leaves the wait list for the first time enters traffic.
pub fn push_starts(row: &Row, out: &mut Vec<Occurrence>) -> Result<(), AllocError>
    ensures { OnOk result (out.new.items ≡ out.old.items ++ starts row.now) }
{
    if row.vehicle.started {
        return Ok(());
    }
    out.push(of_driver(Word::VehicleEntersTraffic, row.vehicle.id, row.link))?;
    Ok(())
}

/// A vehicle at the end of its route leaves traffic, and its riders leave it.
pub fn push_arrives(row: &Row, out: &mut Vec<Occurrence>) -> Result<(), AllocError>
    ensures { OnOk result (out.new.items ≡ out.old.items ++ arrives row.now) }
{
    out.push(of_driver(Word::VehicleLeavesTraffic, row.vehicle.id, row.link))?;
    push_all_leave(row.vehicle.id, row.link, &row.vehicle.riders.rows, out)
}

/// A vehicle is removed with its riders.
pub fn push_aborts(row: &Row, out: &mut Vec<Occurrence>) -> Result<(), AllocError>
    ensures { OnOk result (out.new.items ≡ out.old.items ++ aborts row.now) }
{
    out.push(of_vehicle(Word::VehicleAborts, row.vehicle.id, row.link, More::Nothing))?;
    push_all_strand(row.vehicle.id, row.link, &row.vehicle.riders.rows, out)
}

/// Those who alight.
pub fn alighting(alloc: Global, stop: u32, riders: &[Rider]) -> Result<Vec<Rider>, AllocError>
    ensures { IfOk result (λ leave. leave.items ≡ alighting stop riders.now) }
{
    let mut leave = Vec::new(alloc);
    let mut rest = riders;
    while let [rider, later @ ..] = rest {
        if alights(stop, rider) {
            leave.push(*rider)?;
        }
        rest = later;
    }
    Ok(leave)
}

/// Those of the riders after the stop who boarded there.
fn boarded(
    alloc: Global,
    stop: u32,
    before: &[Rider],
    after: &[Rider],
) -> Result<Vec<Rider>, AllocError>
    ensures { IfOk result (λ came. came.items ≡ boarded stop before.now after.now) }
{
    let stay = staying(alloc, stop, before)?;
    if stay.len() < after.len() {
        return Ok(Vec::from_slice(alloc, &after[stay.len()..])?);
    }
    Ok(Vec::new(alloc))
}

/// A vehicle is served at its next call.
fn push_serves(
    alloc: Global,
    was: &Row,
    now: &Row,
    out: &mut Vec<Occurrence>,
) -> Result<(), AllocError>
    ensures { OnOk result (out.new.items ≡ out.old.items ++ serves was.now now.now) }
{
    let stop = next_call(&was.vehicle).stop;
    let leave = alighting(alloc, stop, &was.vehicle.riders.rows)?;
    let came = boarded(
        alloc,
        stop,
        &was.vehicle.riders.rows,
        &now.vehicle.riders.rows,
    )?;
    let id = was.vehicle.id;
    out.push(of_vehicle(
        Word::VehicleArrivesAtFacility,
        id,
        was.link,
        More::Stop(stop),
    ))?;
    push_all_leave(id, was.link, &leave, out)?;
    push_all_enter(id, &came, out)
}

/// A vehicle goes on from the call that it served last.
pub fn push_goes_on(row: &Row, out: &mut Vec<Occurrence>) -> Result<(), AllocError>
    ensures { OnOk result (out.new.items ≡ out.old.items ++ goes_on row.now) }
{
    let call = call_at(&row.vehicle, row.vehicle.served.saturating_sub(1));
    out.push(of_vehicle(
        Word::VehicleDepartsAtFacility,
        row.vehicle.id,
        row.link,
        More::Stop(call.stop),
    ))?;
    Ok(())
}

/// A vehicle leaves its link and enters the next one.
pub fn push_changes_links(was: &Row, now: &Row, out: &mut Vec<Occurrence>) -> Result<(), AllocError>
    ensures { OnOk result (out.new.items ≡ out.old.items ++ changes_links was.now now.now) }
{
    out.push(of_vehicle(Word::LeftLink, was.vehicle.id, was.link, More::Nothing))?;
    out.push(of_vehicle(Word::EnteredLink, now.vehicle.id, now.link, More::Nothing))?;
    Ok(())
}

fn push_told_to(
    alloc: Global,
    was: &Row,
    now: &Row,
    out: &mut Vec<Occurrence>,
) -> Result<(), AllocError>
    ensures { OnOk result (out.new.items ≡ out.old.items ++ told_to now.now.stage was.now now.now) }
{
    match now.stage {
        Stage::Queue => Ok(()),
        Stage::Buffer => Ok(()),
        Stage::Wait => Ok(()),
        Stage::Bay => push_serves(alloc, was, now, out),
    }
}

fn push_told_transfer(
    alloc: Global,
    stage: Stage,
    was: &Row,
    now: &Row,
    out: &mut Vec<Occurrence>,
) -> Result<(), AllocError>
    ensures { OnOk result (out.new.items ≡ out.old.items ++ told_transfer stage was.now now.now) }
{
    match stage {
        Stage::Queue => push_told_to(alloc, was, now, out),
        Stage::Buffer => push_changes_links(was, now, out),
        Stage::Wait => {
            push_starts(was, out)?;
            push_told_to(alloc, was, now, out)
        }
        Stage::Bay => push_goes_on(was, out),
    }
}

fn push_told_removal(stage: Stage, was: &Row, out: &mut Vec<Occurrence>) -> Result<(), AllocError>
    ensures { OnOk result (out.new.items ≡ out.old.items ++ told_removal stage was.now) }
{
    match stage {
        Stage::Queue => push_arrives(was, out),
        Stage::Buffer => push_aborts(was, out),
        Stage::Wait => {
            push_starts(was, out)?;
            push_arrives(was, out)
        }
        Stage::Bay => Ok(()),
    }
}

fn push_told_entering(now: &Row, out: &mut Vec<Occurrence>) -> Result<(), AllocError>
    ensures { OnOk result (out.new.items ≡ out.old.items ++ told_entering now.now.vehicle.id now.now.link now.now.vehicle.line) }
{
    match now.vehicle.id {
        VehicleId::Car(person) => {
            out.push(of_rider(Word::PersonEntersVehicle, person, VehicleId::Car(person)))?;
            Ok(())
        }
        VehicleId::Transit(departure) => {
            let line = More::Line(now.vehicle.line);
            out.push(of_vehicle(
                Word::TransitDriverStarts,
                VehicleId::Transit(departure),
                now.link,
                line,
            ))?;
            Ok(())
        }
    }
}

/// Appends what a move tells.
pub fn push_told(alloc: Global, step: &Move, out: &mut Vec<Occurrence>) -> Result<(), AllocError>
    ensures { OnOk result (out.new.items ≡ out.old.items ++ told step.now) }
{
    match step {
        Move::Transfer {
            stage,
            was,
            now,
            ..
        } => push_told_transfer(alloc, *stage, was, now, out),
        Move::Remove { stage, was, .. } => push_told_removal(*stage, was, out),
        Move::Enter { now } => push_told_entering(now, out),
        Move::SetFrontSince { .. } => Ok(()),
        Move::Credit { .. } => Ok(()),
        Move::LeaveHole { .. } => Ok(()),
        Move::Report { says } => {
            out.extend_from_slice(&says.rows)?;
            Ok(())
        }
    }
}
