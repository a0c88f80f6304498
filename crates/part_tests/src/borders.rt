//! What comes to a part over a border, and what leaves it: places that come free, and persons.

ghost use Rattle.std.specs.Prelude.{◌≡◌, length, IfOk};

use calendar::{Calendar, Wakes};
use node_move::Space;
use part_persons::Persons;
use part_places::{FreedLater, Places};
use person_moves::{LinkCredits, World};
use std::alloc::{AllocError, Global};
use traffic::{OutLink, Person, Place};

/// A link of three places, all taken by vehicles.
const FULL: OutLink = OutLink {
    taken: 3,
    storage: 3,
    seconds: 10,
};

/// A link within a block of 16.
const LINK: u32 = 200;

/// Links that have no place: beside it in its block, as far within other blocks, and in one that is not there.
const OTHERS: [u32; 6] = [0, 8, 184, 199, 201, 216];

/// The places of one link.
fn full_link(alloc: Global) -> Result<Places, AllocError> {
    let mut space = Space::new(alloc);
    space.set(LINK, FULL)?;
    Ok(Places {
        space,
        freed: Calendar::new(alloc),
    })
}

/// Whether in a second of the day places come free of just these full links, and how many of its places are taken then.
fn frees(places: &mut Places, second: u32, links: &[u32], taken: u64) -> bool {
    match places.free(second) {
        Ok(full) => full.as_slice() == links && places.space.taken(LINK) == Some(taken),
        Err(_) => false,
    }
}

/// Vehicles that left a link in second 4, each of which left a hole of six seconds, so that their places are free in second 10.
fn freed_later(count: u64) -> FreedLater {
    FreedLater {
        second: 4,
        link: LINK,
        count,
        hole_seconds: 6,
    }
}

/// A vehicle left in second 4, of which is heard before second 8.
fn place_comes_free(places: &mut Places) -> bool {
    frees(places, 7, &[], 3)
        && places.free_later(100, freed_later(1)).is_ok()
        && frees(places, 8, &[], 3)
        && frees(places, 9, &[], 3)
        && frees(places, 10, &[LINK], 2)
        && frees(places, 11, &[], 2)
}

/// After it no more can leave than the two that are left.
fn all_come_free(places: &mut Places) -> bool {
    places.free_later(100, freed_later(1)).is_ok()
        && places.free_later(100, freed_later(5)).is_ok()
        && frees(places, 9, &[], 3)
        && frees(places, 10, &[LINK, LINK, LINK], 0)
}

/// None comes free where the day ends before.
fn none_comes_free(places: &mut Places) -> bool {
    places.free_later(10, freed_later(1)).is_ok() && frees(places, 10, &[], 3)
}

/// Whether no other link has a place.
fn others_have_none(places: &Places) -> bool {
    for link in &OTHERS {
        if places.space.taken(*link).is_some() || places.space.holes(*link) > 0 {
            return false;
        }
    }
    true
}

/// Whether each of these is so of a full link.
fn places_come_free_in_time(alloc: Global) -> bool {
    let (Ok(mut one), Ok(mut all), Ok(mut none)) = (
        full_link(alloc),
        full_link(alloc),
        full_link(alloc),
    ) else {
        return false;
    };
    place_comes_free(&mut one)
        && all_come_free(&mut all)
        && none_comes_free(&mut none)
        && none.space.holes(LINK) == 1
        && others_have_none(&none)
}

#[test]
fn places_over_a_border_come_free_in_their_second(rt: HostRuntime) {
    assert!(rt; places_come_free_in_time(rt.alloc()));
}

/// A link of which so many of three places are taken.
fn taken(count: u64) -> OutLink {
    OutLink {
        taken: count,
        ..FULL
    }
}

/// Two links side by side in a block, and one as far within another block.
fn three_links(alloc: Global) -> Result<Space, AllocError> {
    let mut space = Space::with_room(alloc, &[8, LINK, LINK + 1])?;
    space.set(LINK, taken(3))?;
    space.set(LINK + 1, taken(2))?;
    space.set(8, taken(1))?;
    Ok(space)
}

/// Each has its own places, also once those of one were set again; links between and behind them have none.
fn each_has_its_own(space: &mut Space) -> bool {
    space.set(LINK, taken(0)).is_ok()
        && space.taken(LINK) == Some(0)
        && space.taken(LINK + 1) == Some(2)
        && space.taken(8) == Some(1)
        && space.taken(9).is_none()
        && space.taken(24).is_none()
        && space.taken(LINK - 1).is_none()
        && space.taken(LINK + 2).is_none()
}

#[test]
fn links_of_a_block_have_places_of_their_own(rt: HostRuntime) {
    match three_links(rt.alloc()) {
        Ok(mut space) => assert!(rt; each_has_its_own(&mut space)),
        Err(_) => assert!(rt; false),
    }
}

/// A person at an activity until second 60.
const AT_HOME: Person = Person {
    element: 0,
    place: Place::At { end: Some(60) },
};

/// The row of nobody.
const NOBODY: Person = Person {
    element: 0,
    place: Place::Aborted { link: 0 },
};

/// Two persons, of whom only the second is there.
fn second_person(alloc: Global) -> Result<Persons, AllocError>
    ensures { IfOk result (λ persons. length persons.world.persons ≡ 2) }
{
    Ok(Persons {
        world: World {
            rows: Vec::new(alloc),
            persons: Vec::from_slice(alloc, &[NOBODY, AT_HOME])?,
            credits: LinkCredits::new(alloc, 0),
            holes: Vec::new(alloc),
        },
        wakes: Wakes::new(alloc, 2)?,
    })
}

/// Whether the second person can go, and nobody is there then.
fn goes(persons: &mut Persons) -> bool
    requires { length persons.old.world.persons ≡ 2 }
{
    persons.give_out(1) == AT_HOME
        && persons.world.persons.as_slice() == [NOBODY, NOBODY].as_slice()
}

#[test]
fn who_goes_is_there_no_more(rt: HostRuntime) {
    match second_person(rt.alloc()) {
        Ok(mut persons) => assert!(rt; goes(&mut persons)),
        Err(_) => assert!(rt; false),
    }
}
