ghost use Rattle.std.specs.{List.list_all, Prelude.◌≡◌, Prelude.◌≤◌, Prelude.◌+◌, Prelude.length, Prelude.true};
ghost use Rattle.limits.specs.declared.TheConstants.{MAX_LEGS};
ghost use Rattle.rows.specs.Plan.{is_leg, are_acts};

use events::{Mode, Route, Rows};

/// An activity: the numbers of its kind and of its link, and its planned end in seconds.
#[derive(Clone, Copy, Debug, PartialEq, Eq)]
pub struct Act {
    pub kind: u32,
    pub link: u32,
    pub end: Option<u32>,
}

/// How a person comes from one activity to the next.
#[derive(Drop)]
pub enum Leg {
    /// By car over these links; without a link a route is still to be found.
    Car { route: Route },
    /// By a mode that takes this many seconds and no place on the network.
    Teleport { mode: Mode, seconds: u32 },
    /// By a vehicle of a line, from one stop to another.
    Transit { line: u32, access: u32, egress: u32 },
}

/// Activities in the order of the day.
pub type Acts = Rows<Act>;

/// Legs in the order of the day.
pub type Legs = Rows<Leg>;

/// A day plan: activities, one more than legs.
///
/// Every activity but the last has a planned end from 0 to `LAST_SECOND`, and the last one has none.
/// A plan has at most `MAX_LEGS` legs; a car route has at most `MAX_ROUTE_LINKS` links; a teleported leg is a walk, bike
/// or ride of 1 to `LAST_SECOND` seconds.
#[derive(Drop)]
pub struct Plan {
    pub acts: Acts,
    pub legs: Legs,
    ghost one_more: { length acts ≡ length legs + 1 },
    ghost few: { length legs ≤ MAX_LEGS },
    ghost ends: { are_acts acts ≡ true },
    ghost sound: { list_all is_leg legs ≡ true },
}

/// The plans of one person.
pub type PlanList = Rows<Plan>;

/// The plans of all persons, by the persons' numbers.
pub type PlanLists = Rows<PlanList>;
