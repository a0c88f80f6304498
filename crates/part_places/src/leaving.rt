//! Vehicles leave the queues of links.

ghost use Rattle.std.specs.Prelude.{◌≡◌, ℕ, ◌+◌, ◌-◌, ◌<◌, ◌≤◌, Bool, true, ◌++◌, [], ◌==◌};
ghost use Rattle.std.specs.Prelude.{if◌then◌else◌, replicate, OnOk};
ghost use Rattle.calendar.specs.Due.{due_at};
ghost use Rattle.node_move.specs.{Entries.holes_put, Spaces.places_in, Spaces.holes_in};
ghost use Rattle.part_places.specs.Taking.{Taking, AreTakenOf, taken_in, later};

use crate::places::Places;
use calendar::Calendar;
use node_move::Space;
use std::alloc::AllocError;

/// A link whose queue vehicles left in a second, and what is in it behind them.
#[derive(Clone, Copy, Debug, PartialEq, Eq)]
pub struct QueueAfter {
    /// The second in which they left.
    pub second: u32,
    /// The number of the link.
    pub link: u32,
    /// How many vehicles are in the queue now.
    pub queued: usize,
    /// For how many seconds a place that was left stays taken.
    pub hole_seconds: u32,
}

/// Places of a link that come free later, since vehicles left its queue in a second.
#[derive(Clone, Copy, Debug, PartialEq, Eq)]
pub struct FreedLater {
    /// The second in which they left.
    pub second: u32,
    /// The number of the link.
    pub link: u32,
    /// How many left: one place each.
    pub count: u64,
    /// For how many seconds a place that was left stays taken.
    pub hole_seconds: u32,
}

/// The number of a link comes as often as this to a second, where that is before the end.
fn add_freed(
    freed: &mut Calendar,
    end: u32,
    second: u64,
    link: u32,
    count: u64,
) -> Result<(), AllocError>
    ensures { OnOk result ((u : ℕ) → u < end → due_at u freed.new
        ≡ (if u == second then due_at u freed.old ++ replicate count link else due_at u freed.old)) }
{
    if second >= u64::from(end) {
        return Ok(());
    }
    let second = second as u32;
    for _place in 0..count {
        freed.add(second, link)?;
    }
    Ok(())
}

/// How many holes a link has.
fn holes_of(space: &Space, link: u32) -> u64
    ensures { result ≡ holes_in space.now link }
{
    u64::from(space.holes(link))
}

/// How many places of a link are taken.
fn taken_in(space: &Space, link: u32) -> u64
    ensures { result ≡ taken_in (places_in space.now link) }
{
    match space.taken(link) {
        None => 0,
        Some(taken) => taken,
    }
}

/// A link has so many holes now. It lets some millions of vehicles pass in the longest day: where no number counts its holes, there is
/// no memory for them.
fn put_holes(space: &mut Space, link: u32, count: u64) -> Result<(), AllocError>
    ensures places { OnOk result ((m : ℕ) → places_in space.new m ≡ places_in space.old m) }
    ensures holes { OnOk result ((m : ℕ) → holes_in space.new m
        ≡ (if m == link then holes_put count (places_in space.old m) else holes_in space.old m)) }
{
    let Ok(count) = u32::try_from(count) else {
        return Err(AllocError);
    };
    space.set_holes(link, count);
    Ok(())
}

impl Places {
    /// So many vehicles have left the queue of a link, no more than are in it, and their places are free once the holes have travelled
    /// along it, if the day lasts so long. Where the link ends in another part this is heard some seconds after they left, while none of
    /// these places is free yet.
    ///
    /// # Errors
    ///
    /// `AllocError`: there is no memory for a place, or no number counts the holes. The places are then of no use.
    pub fn free_later(&mut self, end: u32, freed: FreedLater) -> Result<(), AllocError>
        ensures { (begins : ℕ → Bool) (count t : ℕ) (T : Taking) → freed.link < count → begins freed.link ≡ true
            → freed.count ≤ T.queued freed.link → t ≤ freed.second + freed.hole_seconds
            → AreTakenOf begins count end t T self.old
            → OnOk result (AreTakenOf begins count end t
            (later freed.link (T.queued freed.link - freed.count) (freed.second + freed.hole_seconds) T) self.new) }
    {
        let holes = holes_of(&self.space, freed.link);
        let queued = taken_in(&self.space, freed.link).saturating_sub(holes);
        let vehicles = queued - queued.saturating_sub(freed.count);
        put_holes(&mut self.space, freed.link, holes + vehicles)?;
        let second = u64::from(freed.second) + u64::from(freed.hole_seconds);
        add_freed(&mut self.freed, end, second, freed.link, vehicles)?;
        Ok(())
    }

    /// The same of all vehicles that are in the queue of a link no more.
    ///
    /// # Errors
    ///
    /// `AllocError`: there is no memory for a place, or no number counts the holes. The places are then of no use.
    pub fn leave(&mut self, end: u32, after: QueueAfter) -> Result<(), AllocError>
        ensures { (begins : ℕ → Bool) (count t : ℕ) (T : Taking) → after.link < count → begins after.link ≡ true
            → after.queued ≤ T.queued after.link → t ≤ after.second + after.hole_seconds
            → AreTakenOf begins count end t T self.old
            → OnOk result (AreTakenOf begins count end t
            (later after.link after.queued (after.second + after.hole_seconds) T) self.new) }
    {
        let holes = holes_of(&self.space, after.link);
        let queued = taken_in(&self.space, after.link).saturating_sub(holes);
        let freed = FreedLater {
            second: after.second,
            link: after.link,
            count: queued.saturating_sub(after.queued as u64),
            hole_seconds: after.hole_seconds,
        };
        self.free_later(end, freed)
    }
}
