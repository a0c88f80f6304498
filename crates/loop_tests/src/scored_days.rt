//! Worked days: the second, the word and what more it tells, of each event of one person.

use events::{Mode, More, Word};

pub type Told = (u32, Word, More);

/// The kinds of activities.
pub const HOME: u32 = 0;

pub const WORK: u32 = 1;

/// What so many seconds at home, and at work, are worth in the tables.
pub static HOME_POINTS: [(u32, i64); 3] = [
    (0, -20_000_000),
    (43_200, 60_000_000),
    (86_400, 80_000_000),
];

pub static WORK_POINTS: [(u32, i64); 2] = [(0, -20_000_000), (28_800, 60_000_000)];

/// Nothing is told of a person with one activity.
pub static AT_HOME: [Told; 0] = [];

pub static WALK: [Told; 5] = [
    (100, Word::ActEnd, More::Kind(HOME)),
    (100, Word::Departure, More::Mode(Mode::Walk)),
    (150, Word::Travelled, More::Seconds(50)),
    (150, Word::Arrival, More::Mode(Mode::Walk)),
    (150, Word::ActStart, More::Kind(WORK)),
];

pub static DRIVE: [Told; 8] = [
    (100, Word::ActEnd, More::Kind(HOME)),
    (100, Word::Departure, More::Mode(Mode::Car)),
    (100, Word::PersonEntersVehicle, More::Nothing),
    (100, Word::VehicleEntersTraffic, More::Nothing),
    (111, Word::VehicleLeavesTraffic, More::Nothing),
    (111, Word::PersonLeavesVehicle, More::Nothing),
    (111, Word::Arrival, More::Mode(Mode::Car)),
    (111, Word::ActStart, More::Kind(WORK)),
];

/// A bus that comes too late for the second passenger.
pub static LEFT_BEHIND: [Told; 4] = [
    (100, Word::ActEnd, More::Kind(HOME)),
    (100, Word::Departure, More::Mode(Mode::Pt)),
    (100, Word::WaitingForPt, More::Stop(0)),
    (108_000, Word::StuckAndAbort, More::Mode(Mode::Pt)),
];

pub static COMMUTE: [Told; 8] = [
    (28_800, Word::ActEnd, More::Kind(HOME)),
    (28_800, Word::Departure, More::Mode(Mode::Car)),
    (28_811, Word::Arrival, More::Mode(Mode::Car)),
    (28_811, Word::ActStart, More::Kind(WORK)),
    (57_600, Word::ActEnd, More::Kind(WORK)),
    (57_600, Word::Departure, More::Mode(Mode::Car)),
    (57_611, Word::Arrival, More::Mode(Mode::Car)),
    (57_611, Word::ActStart, More::Kind(HOME)),
];

/// Work begins behind 86,400, where a day of activities ends: it has no duration.
pub static AT_WORK_BEHIND_MIDNIGHT: [Told; 5] = [
    (100, Word::ActEnd, More::Kind(HOME)),
    (100, Word::Departure, More::Mode(Mode::Walk)),
    (90_100, Word::Travelled, More::Seconds(90_000)),
    (90_100, Word::Arrival, More::Mode(Mode::Walk)),
    (90_100, Word::ActStart, More::Kind(WORK)),
];

/// Home again a day later, and longer away than a night would last.
pub static AT_HOME_BEHIND_MIDNIGHT: [Told; 5] = [
    (100, Word::ActEnd, More::Kind(HOME)),
    (100, Word::Departure, More::Mode(Mode::Walk)),
    (90_100, Word::Travelled, More::Seconds(90_000)),
    (90_100, Word::Arrival, More::Mode(Mode::Walk)),
    (90_100, Word::ActStart, More::Kind(HOME)),
];

/// An arrival without a departure.
pub static OUT_OF_TURN: [Told; 2] = [
    (100, Word::ActEnd, More::Kind(HOME)),
    (150, Word::Arrival, More::Mode(Mode::Walk)),
];

/// A departure that tells no mode.
pub static UNTOLD: [Told; 2] = [
    (100, Word::ActEnd, More::Kind(HOME)),
    (100, Word::Departure, More::Nothing),
];

/// A departure behind being stuck.
pub static STUCK_AND_ON: [Told; 4] = [
    (100, Word::ActEnd, More::Kind(HOME)),
    (100, Word::Departure, More::Mode(Mode::Car)),
    (200, Word::StuckAndAbort, More::Mode(Mode::Car)),
    (200, Word::ActStart, More::Kind(WORK)),
];
