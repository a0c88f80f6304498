ghost use Rattle.std.specs.Prelude.{◌≡◌, ◌++◌, take, length, decimal, codes, OnOk, OnErr, Err};
ghost use Rattle.events.specs.Lines.{name_text, vehicle_text, more_text, field_text, event_line, event_lines, IsNamed, IsVehicleNamed};
ghost use Rattle.events.specs.Lines.{IsMoreNamed, IsInBook, AreInBook};

use crate::event::{Book, Event, More, VehicleId};
use crate::names::Names;
use itoa::Buffer;
use std::alloc::AllocError;

/// Takes back what came after the start, and refuses.
fn taken_back(start: usize, out: &mut Vec<u8>) -> Result<(), AllocError>
    ensures refused { OnOk result ⊥ }
    ensures front { out.new.items ≡ take start out.old.items }
{
    out.truncate(start);
    Err(AllocError)
}

fn name_bytes(names: &Names, number: Option<u32>) -> &[u8]
    requires { IsNamed names.now number }
    ensures { result.now ≡ name_text names.now number }
{
    match number {
        None => b"",
        Some(number) => names.get(number),
    }
}

/// Appends a number, or nothing.
fn push_number(number: u32, out: &mut Vec<u8>) -> Result<(), AllocError>
    ensures ok { OnOk result (out.new.items ≡ out.old.items ++ decimal number) }
    ensures err { OnErr result (out.new.items ≡ out.old.items) }
{
    let mut buffer = Buffer::new();
    out.extend_from_slice(buffer.format(number).as_bytes())
}

/// Appends a comma and the bytes, or nothing.
#[tactic(auto, using(crate::proofs::Fronts::front_of_one))]
fn push_field(bytes: &[u8], out: &mut Vec<u8>) -> Result<(), AllocError>
    ensures ok { OnOk result (out.new.items ≡ out.old.items ++ field_text bytes.now) }
    ensures err { OnErr result (out.new.items ≡ out.old.items) }
{
    let start = out.len();
    out.extend_from_slice(b",")?;
    match out.extend_from_slice(bytes) {
        Ok(()) => Ok(()),
        Err(_) => taken_back(start, out),
    }
}

/// Appends the field of a vehicle, or nothing.
#[tactic(auto, using(crate::proofs::Fronts::front_of_one))]
fn push_vehicle(
    vehicle: Option<VehicleId>,
    book: &Book,
    out: &mut Vec<u8>,
) -> Result<(), AllocError>
    requires { IsVehicleNamed book.now vehicle }
    ensures ok { OnOk result (out.new.items ≡ out.old.items ++ field_text (vehicle_text book.now vehicle)) }
    ensures err { OnErr result (out.new.items ≡ out.old.items) }
{
    match vehicle {
        None => push_field(b"", out),
        Some(VehicleId::Car(person)) => push_field(book.persons.get(person), out),
        Some(VehicleId::Transit(departure)) => {
            let start = out.len();
            push_field(b"pt:", out)?;
            match out.extend_from_slice(book.departures.get(departure)) {
                Ok(()) => Ok(()),
                Err(_) => taken_back(start, out),
            }
        }
    }
}

/// Appends the last field, or nothing.
fn push_more(more: More, book: &Book, out: &mut Vec<u8>) -> Result<(), AllocError>
    requires { IsMoreNamed book.now more }
    ensures ok { OnOk result (out.new.items ≡ out.old.items ++ field_text (more_text book.now more)) }
    ensures err { OnErr result (out.new.items ≡ out.old.items) }
{
    match more {
        More::Nothing => push_field(b"", out),
        More::Kind(kind) => push_field(book.kinds.get(kind), out),
        More::Mode(mode) => push_field(mode.name().as_bytes(), out),
        More::Seconds(seconds) => {
            let mut buffer = Buffer::new();
            push_field(buffer.format(seconds).as_bytes(), out)
        }
        More::Stop(stop) => push_field(book.stops.get(stop), out),
        More::Line(line) => push_field(book.lines.get(line), out),
    }
}

/// Appends the line of an event; a refusal may leave a front of it.
#[tactic(auto, using(crate::proofs::Fronts::front_of_front), unfolding(crate::specs::Lines::event_line))]
fn push_line(event: &Event, book: &Book, out: &mut Vec<u8>) -> Result<(), AllocError>
    requires { IsInBook event.now book.now }
    ensures ok { OnOk result (out.new.items ≡ out.old.items ++ event_line event.now book.now) }
    ensures err { OnErr result (take (length out.old.items) out.new.items ≡ out.old.items) }
{
    push_number(event.key.second, out)?;
    push_field(event.word.text().as_bytes(), out)?;
    push_field(name_bytes(&book.persons, event.person), out)?;
    push_vehicle(event.vehicle, book, out)?;
    push_field(name_bytes(&book.links, event.link), out)?;
    push_more(event.more, book, out)?;
    out.extend_from_slice(b"\n")
}

/// Appends the line of an event, or nothing.
pub fn line(event: &Event, book: &Book, out: &mut Vec<u8>) -> Result<(), AllocError>
    requires { IsInBook event.now book.now }
    ensures ok { OnOk result (out.new.items ≡ out.old.items ++ event_line event.now book.now) }
    ensures err { OnErr result (out.new.items ≡ out.old.items) }
{
    let start = out.len();
    match push_line(event, book, out) {
        Ok(()) => Ok(()),
        Err(_) => taken_back(start, out),
    }
}

/// Appends the lines of the events in order, or nothing.
#[tactic(auto, using(crate::proofs::Fronts::front_of_one))]
pub fn lines(events: &[Event], book: &Book, out: &mut Vec<u8>) -> Result<(), AllocError>
    requires { AreInBook events.now book.now }
    ensures ok { OnOk result (out.new.items ≡ out.old.items ++ event_lines events.now book.now) }
    ensures err { OnErr result (out.new.items ≡ out.old.items) }
{
    let start = out.len();
    for event in events {
        match line(event, book, out) {
            Ok(()) => {}
            Err(_) => return taken_back(start, out),
        }
    }
    Ok(())
}
