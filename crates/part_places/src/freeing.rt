//! Places come free.

ghost use Rattle.std.specs.Prelude.{◌≡◌, ℕ, ◌+◌, ◌-◌, ◌<◌, Bool, true, filter, OnOk};
ghost use Rattle.std.specs.Prelude.{IfOk};
ghost use Rattle.calendar.specs.Due.{due_at};
ghost use Rattle.node_move.specs.{Entries.fewer, Spaces.places_in, Spaces.holes_in};
ghost use Rattle.part_places.specs.Taking.{Taking, AreTakenOf, IsFull, is_full_in, times};

use crate::places::Places;
use node_move::Space;
use std::alloc::{AllocError, Global};

/// Whether a link has no place free.
fn is_full(space: &Space, link: u32) -> bool
    ensures { result ≡ is_full_in space.now link }
{
    match space.places(link) {
        None => false,
        Some(places) => u64::from(places.storage) <= places.taken,
    }
}

/// Those of these links that have no place free, in order.
fn full_ones(alloc: Global, links: &[u32], space: &Space) -> Result<Vec<u32>, AllocError>
    ensures { IfOk result (λ full. full.items ≡ filter (is_full_in space.now) links.now) }
{
    let mut full = Vec::new(alloc);
    let mut rest = links;
    while let [link, later @ ..] = rest {
        if is_full(space, *link) {
            full.push(*link)?;
        }
        rest = later;
    }
    Ok(full)
}

/// One place of each of these links is free, once for each time that the link stands there.
fn free_all(links: &[u32], space: &mut Space)
    ensures space { (m : ℕ) → places_in space.new m ≡ fewer (times m links.now) (places_in space.old m) }
    ensures holes { (m : ℕ) → holes_in space.new m ≡ holes_in space.old m - times m links.now }
{
    for link in links {
        space.free_place(*link);
    }
}

impl Places {
    /// The places that come free in this second are free. Answers the links of those that had no place free before, in order and once for
    /// each place: a link that begins here, had none and is not among them has none now.
    ///
    /// # Errors
    ///
    /// `AllocError`: there is no memory for it. The places are then of no use.
    pub fn free(&mut self, second: u32) -> Result<Vec<u32>, AllocError>
        ensures places { (begins : ℕ → Bool) (count end : ℕ) (T : Taking) → second < end
            → AreTakenOf begins count end second T self.old → OnOk result (AreTakenOf begins count end (second + 1) T self.new) }
        ensures links { IfOk result (λ links. links.items ≡ filter (is_full_in self.old.space) (due_at second self.old.freed)) }
        ensures full { (begins : ℕ → Bool) (count end : ℕ) (T : Taking) → second < end
            → AreTakenOf begins count end second T self.old
            → IfOk result (λ links. (m : ℕ) → m < count → begins m ≡ true → times m links.items ≡ 0 → IsFull second T m
            → IsFull (second + 1) T m) }
    {
        let links = self.freed.take(second)?;
        let alloc = *links.allocator();
        let full = full_ones(alloc, &links, &self.space)?;
        free_all(&links, &mut self.space);
        Ok(full)
    }
}
