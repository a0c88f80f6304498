//! The world of a day.

ghost use Rattle.std.specs.Prelude.{◌≡◌, ◌<◌, length, get_or};
ghost use Rattle.traffic.specs.Rows.{person_of, nobody};

use crate::link_credits::LinkCredits;
use std::marker::Model;
use traffic::{Hole, Person, Row};

/// The world of a day: the rows of vehicles in the order of their last move, a row for each person, a credit for each
/// link, and the holes in the order in which they were left.
#[derive(Drop)]
pub struct World {
    pub rows: Vec<Row>,
    pub persons: Vec<Person>,
    pub credits: LinkCredits,
    pub holes: Vec<Hole>,
}

impl Model for World {
    ghost use Rattle.traffic.specs.Rows as lists;
    ghost use Rattle.person_moves.specs.Worlds.{world_of};

    ghost Value = { lists.World };

    ghost view = { world_of };
}

fn person_in(persons: &[Person], number: u32) -> Person
    requires { number < length persons.now }
    ensures { result ≡ get_or persons.now number nobody }
{
    persons[number as usize]
}

/// The row of a person.
pub fn person_of(world: &World, number: u32) -> Person
    requires { number < length world.now.persons }
    ensures { result ≡ person_of number world.now }
{
    person_in(&world.persons, number)
}
