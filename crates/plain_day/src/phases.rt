//! The phases of a second.

ghost use Rattle.std.specs.{List.flat_map, Prelude.◌≡◌, Prelude.◌<◌, Prelude.◌++◌, Prelude.length, Prelude.OnOk};
ghost use Rattle.std.specs.{Prelude.IfOk};
ghost use Rattle.limits.specs.declared.TheConstants.{LAST_SECOND};
ghost use Rattle.law_in_range.specs.{Rows.IsFitWorld, Setups.counts_in, Setups.HaveFittingPlans};
ghost use Rattle.town.specs.Views.{setup};
ghost use Rattle.traffic.specs.{Day.turns_of, Day.count_of, Day.turns_in, Day.after, Day.events_of, Day.events_in, Moves.told, Moves.run};

use crate::turns::{link_turn, node_turn};
use events::{Event, Phase};
use person_moves::{
    World, departure_moves, do_moves, landing_moves, leaving_moves, person_of, push_keyed,
};
use std::alloc::{AllocError, Global};
use town::DayInput;
use traffic::{Move, Occurrence};

/// How many have a turn in a phase.
#[tactic(auto, unfolding(town::specs::Setups::setup_of))]
fn count_of(day: &DayInput, phase: Phase) -> u32
    requires { length day.now.town.now.book.persons ≡ length day.now.chosen.now }
    ensures { result ≡ count_of (setup day.now) phase }
{
    match phase {
        Phase::A => day.town.book.persons.len(),
        Phase::B1 => day.town.book.persons.len(),
        Phase::B2 => day.town.departures.rows.len() as u32,
        Phase::C => day.town.network.nodes.len() as u32,
        Phase::D => day.town.network.links.len() as u32,
        Phase::E => 0,
    }
}

/// A turn of a second: the phase, and the number of the person, the departure, the node or the link that has it.
#[derive(Clone, Copy)]
struct Turn {
    phase: Phase,
    number: u32,
}

/// The moves of one person, departure, node or link in its turn.
#[tactic(auto, unfolding(traffic::specs::Day::turns_of))]
fn moves_of_turn(
    alloc: Global,
    day: &DayInput,
    second: u32,
    turn: Turn,
    world: &World,
) -> Result<Vec<Move>, AllocError>
    requires second_in { second < LAST_SECOND }
    requires given { HaveFittingPlans day.now }
    requires fit { IsFitWorld (counts_in day.now) world.now }
    requires there { turn.number < count_of (setup day.now) turn.phase }
    ensures { IfOk result (λ moves. moves.items ≡ turns_of (setup day.now) second turn.phase turn.number world.now) }
{
    let number = turn.number;
    match turn.phase {
        Phase::A => landing_moves(alloc, day, second, number, person_of(world, number)),
        Phase::B1 => leaving_moves(alloc, day, second, number, person_of(world, number)),
        Phase::B2 => departure_moves(alloc, day, second, number),
        Phase::C => node_turn(alloc, day, second, number, world),
        Phase::D => link_turn(alloc, day, second, number, world),
        Phase::E => Ok(Vec::new(alloc)),
    }
}

/// Does the moves of a turn: what they tell.
fn do_turn(
    alloc: Global,
    day: &DayInput,
    second: u32,
    moves: Vec<Move>,
    world: &mut World,
) -> Result<Vec<Occurrence>, AllocError>
    requires { second < LAST_SECOND }
    ensures world { OnOk result (world.new ≡ run (setup day.now) second moves.items world.old) }
    ensures told { IfOk result (λ said. said.items ≡ flat_map told moves.items) }
{
    let mut said = Vec::new(alloc);
    do_moves(alloc, day, second, moves, world, &mut said)?;
    Ok(said)
}

/// Does the next turn of a phase, and appends what it tells. The world stays fit.
fn next_turn(
    alloc: Global,
    day: &DayInput,
    second: u32,
    turn: Turn,
    world: &mut World,
    out: &mut Vec<Event>,
) -> Result<(), AllocError>
    requires second_in { second < LAST_SECOND }
    requires given { HaveFittingPlans day.now }
    requires fit { IsFitWorld (counts_in day.now) world.old }
    requires there { turn.number < count_of (setup day.now) turn.phase }
    ensures world { OnOk result (world.new
        ≡ run (setup day.now) second (turns_of (setup day.now) second turn.phase turn.number world.old) world.old) }
    ensures events { OnOk result (out.new.items ≡ out.old.items ++ events_of second turn.phase
        (record { number = turn.number; moves = turns_of (setup day.now) second turn.phase turn.number world.old })) }
    ensures fit { OnOk result (IsFitWorld (counts_in day.now) world.new) }
{
    let moves = moves_of_turn(alloc, day, second, turn, world)?;
    let said = do_turn(alloc, day, second, moves, world)?;
    push_keyed(second, turn.phase, turn.number, &said, out)?;
    Ok(())
}

/// Does a phase of a second, and appends its events. The world stays fit.
pub(crate) fn do_phase(
    alloc: Global,
    day: &DayInput,
    second: u32,
    phase: Phase,
    world: &mut World,
    out: &mut Vec<Event>,
) -> Result<(), AllocError>
    requires second_in { second < LAST_SECOND }
    requires given { HaveFittingPlans day.now }
    requires fit { IsFitWorld (counts_in day.now) world.old }
    ensures world { OnOk result (world.new ≡ after (setup day.now) second (turns_in (setup day.now) second phase world.old) world.old) }
    ensures events { OnOk result (out.new.items
        ≡ out.old.items ++ events_in second phase (turns_in (setup day.now) second phase world.old)) }
    ensures fit { OnOk result (IsFitWorld (counts_in day.now) world.new) }
{
    let count = count_of(day, phase);
    for number in 0..count {
        next_turn(alloc, day, second, Turn { phase, number }, world, out)?;
    }
    Ok(())
}
