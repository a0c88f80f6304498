//! The places of links on which nobody is.

ghost use Rattle.std.specs.{List.Contains, Prelude.◌≡◌, Prelude.ℕ, Prelude.◌<◌, Prelude.Bool, Prelude.true, Prelude.length};
ghost use Rattle.std.specs.{Prelude.IfOk};
ghost use Rattle.calendar.specs.Due.{AreIn};
ghost use Rattle.partition.specs.Owned.{owner_in};
ghost use Rattle.town.specs.Views.{setup};
ghost use Rattle.node_move.specs.Spaces.{holes_in};
ghost use Rattle.part_places.specs.Taking.{AreFree, AreTakenOf, begins_here, empty, free_place};

use crate::places::Places;
use calendar::Calendar;
use node_move::Space;
use partition::{Owner, owner_of_node};
use person_moves::link_row;
use queue_link::numbers_of;
use std::alloc::{AllocError, Global};
use town::DayInput;
use traffic::OutLink;

/// The places of a link, none of which is taken.
#[tactic(auto, unfolding(queue_link::specs::Numbers::numbers_of, town::specs::Setups::setup_of))]
fn free_place(day: &DayInput, link: u32) -> OutLink
    requires { link < length day.now.town.now.network.links }
    ensures { result ≡ free_place (setup day.now) link }
{
    let row = link_row(day, link);
    let numbers = numbers_of(link, &row, &day.town.settings);
    OutLink {
        taken: 0,
        storage: numbers.storage,
        seconds: numbers.seconds,
    }
}

/// Whether a link begins in this partition: whether its first node belongs to it.
pub fn begins_here(day: &DayInput, owner: &Owner, partition: u32, link: u32) -> bool
    requires { link < length day.now.town.now.network.links }
    ensures { result ≡ begins_here (setup day.now) (owner_in owner.now.of_node) partition link }
{
    let row = link_row(day, link);
    owner_of_node(&owner.of_node, row.from) == partition
}

/// No place is taken of any of these links.
fn free_space(alloc: Global, day: &DayInput, links: &[u32]) -> Result<Space, AllocError>
    requires { AreIn (length day.now.town.now.network.links) links.now }
    ensures free { IfOk result (AreFree (setup day.now) links.now) }
    ensures holes { IfOk result (λ space. (m : ℕ) → holes_in space m ≡ 0) }
{
    let mut space = Space::with_room(alloc, links)?;
    for link in links {
        let places = free_place(day, *link);
        space.set(*link, places)?;
    }
    Ok(space)
}

impl Places {
    /// The places of the links of a day that begin in a part, at the start of the day: none is taken. `starts` are these links.
    ///
    /// No other link is looked at. Of links it takes memory for these and for those in their blocks of 16, which is most of it where these
    /// are scattered over the numbers of all, and at least four bytes for each block up to that of the last one (`node_move: Space`).
    ///
    /// # Errors
    ///
    /// `AllocError`: there is no memory for them.
    pub fn new(alloc: Global, day: &DayInput, starts: &[u32]) -> Result<Places, AllocError>
        requires { AreIn (length day.now.town.now.network.links) starts.now }
        ensures { (begins : ℕ → Bool) (end : ℕ)
            → ((m : ℕ) → m < length (setup day.now).links → begins m ≡ true → Contains starts.now m)
            → IfOk result (AreTakenOf begins (length (setup day.now).links) end 0 (empty (setup day.now))) }
    {
        let space = free_space(alloc, day, starts)?;
        Ok(Places {
            space,
            freed: Calendar::new(alloc),
        })
    }
}
