ghost use Rattle.std.specs.Prelude.{◌≡◌, IfOk};

use crate::names::Names;
use std::alloc::AllocError;

/// How a leg is made.
#[derive(Clone, Copy, Debug, PartialEq, Eq)]
pub enum Mode {
    Car,
    Walk,
    Bike,
    Ride,
    Pt,
}

impl Mode {
    ghost use Rattle.events.specs.Words.{mode_text, mode_of};

    /// The name of the mode, as files have it.
    pub fn name(self) -> &'static str
        ensures { result.now ≡ mode_text self }
    {
        match self {
            Mode::Car => "car",
            Mode::Walk => "walk",
            Mode::Bike => "bike",
            Mode::Ride => "ride",
            Mode::Pt => "pt",
        }
    }

    /// The mode of this name, or `None` exactly where there is none.
    #[tactic(auto, unfolding(crate::specs::Words::mode_of))]
    pub fn read(bytes: &[u8]) -> Option<Mode>
        ensures { result ≡ mode_of bytes.now }
    {
        if bytes == b"car".as_slice() {
            return Some(Mode::Car);
        }
        if bytes == b"walk".as_slice() {
            return Some(Mode::Walk);
        }
        if bytes == b"bike".as_slice() {
            return Some(Mode::Bike);
        }
        if bytes == b"ride".as_slice() {
            return Some(Mode::Ride);
        }
        if bytes == b"pt".as_slice() {
            return Some(Mode::Pt);
        }
        None
    }
}

/// What happened.
#[derive(Clone, Copy, Debug, PartialEq, Eq)]
pub enum Word {
    ActEnd,
    Departure,
    Travelled,
    Arrival,
    ActStart,
    PersonEntersVehicle,
    VehicleEntersTraffic,
    LeftLink,
    EnteredLink,
    VehicleLeavesTraffic,
    PersonLeavesVehicle,
    WaitingForPt,
    TransitDriverStarts,
    VehicleArrivesAtFacility,
    VehicleDepartsAtFacility,
    VehicleAborts,
    StuckAndAbort,
}

impl Word {
    ghost use Rattle.events.specs.Words.{word_text};

    /// The word as MATSim writes it.
    pub fn text(self) -> &'static str
        ensures { result.now ≡ word_text self }
    {
        match self {
            Word::ActEnd => "actend",
            Word::Departure => "departure",
            Word::Travelled => "travelled",
            Word::Arrival => "arrival",
            Word::ActStart => "actstart",
            Word::PersonEntersVehicle => "PersonEntersVehicle",
            Word::VehicleEntersTraffic => "vehicle enters traffic",
            Word::LeftLink => "left link",
            Word::EnteredLink => "entered link",
            Word::VehicleLeavesTraffic => "vehicle leaves traffic",
            Word::PersonLeavesVehicle => "PersonLeavesVehicle",
            Word::WaitingForPt => "waitingForPt",
            Word::TransitDriverStarts => "TransitDriverStarts",
            Word::VehicleArrivesAtFacility => "VehicleArrivesAtFacility",
            Word::VehicleDepartsAtFacility => "VehicleDepartsAtFacility",
            Word::VehicleAborts => "vehicle aborts",
            Word::StuckAndAbort => "stuckAndAbort",
        }
    }
}

/// A vehicle: the car of this person, or the vehicle of this departure.
#[derive(Clone, Copy, Debug, PartialEq, Eq)]
pub enum VehicleId {
    Car(u32),
    Transit(u32),
}

/// A phase of a second, in the order in which they come.
#[derive(Clone, Copy, Debug, PartialEq, Eq)]
pub enum Phase {
    /// Teleported legs end.
    A,
    /// Activities end.
    B1,
    /// Transit vehicles start.
    B2,
    /// Nodes hand vehicles over.
    C,
    /// Links move their vehicles.
    D,
    /// The day is over.
    E,
}

impl Phase {
    ghost use Rattle.events.specs.Keys.{phase_code};

    /// The number of the phase in a key.
    pub fn code(self) -> u8
        ensures { result ≡ phase_code self }
    {
        match self {
            Phase::A => 0,
            Phase::B1 => 1,
            Phase::B2 => 2,
            Phase::C => 3,
            Phase::D => 4,
            Phase::E => 5,
        }
    }
}

/// Where an event stands in the day. Keys are in the order of their fields.
#[derive(Clone, Copy, Debug, PartialEq, Eq, PartialOrd, Ord)]
pub struct Key {
    pub second: u32,
    /// The code of a `Phase`.
    pub phase: u8,
    /// The person, departure, node or link that is treated.
    pub number: u32,
    /// Counts from 0 within it.
    pub index: u32,
}

/// What the last field of a line tells.
#[derive(Clone, Copy, Debug, PartialEq, Eq)]
pub enum More {
    Nothing,
    Kind(u32),
    Mode(Mode),
    Seconds(u32),
    Stop(u32),
    Line(u32),
}

/// An event of a day.
#[derive(Clone, Copy, Debug, PartialEq, Eq)]
pub struct Event {
    pub key: Key,
    pub word: Word,
    pub person: Option<u32>,
    pub vehicle: Option<VehicleId>,
    pub link: Option<u32>,
    pub more: More,
}

/// The names that the numbers of events stand for.
#[derive(Drop)]
pub struct Book {
    pub persons: Names,
    pub links: Names,
    pub kinds: Names,
    pub stops: Names,
    pub lines: Names,
    pub departures: Names,
}

impl Book {
    /// The same book.
    pub fn try_clone(&self) -> Result<Book, AllocError>
        ensures { IfOk result (λ copy. copy ≡ self.now) }
    {
        let persons = self.persons.try_clone()?;
        let links = self.links.try_clone()?;
        let kinds = self.kinds.try_clone()?;
        let stops = self.stops.try_clone()?;
        let lines = self.lines.try_clone()?;
        let departures = self.departures.try_clone()?;
        Ok(Book {
            persons,
            links,
            kinds,
            stops,
            lines,
            departures,
        })
    }
}
