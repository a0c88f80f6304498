ghost use Rattle.std.specs.Prelude.{◌≡◌, ℕ, ◌-◌, ◌^◌, ◌<◌, ◌≤◌, List, [], ◌∷◌, ◌++◌, slice_index_or};
ghost use Rattle.std.specs.Prelude.{OnOk, IfSome, None, nat_eq, if◌then◌else◌};
ghost use Rattle.events.specs.declared.event.Event.{Event};
ghost use Rattle.travel_times.specs.{Known.Knows, Known.links_of, Observed.car_of};
ghost use Rattle.travel_times.specs.Tallies.{entry_of, stay_of, tally_at, HasRows, EndsStay, IsPiece};

use crate::BIN_SECONDS;
use crate::tallies::{TallyRow, add_stay};
use events::{Event, VehicleId, Word};
use std::alloc::{AllocError, Global};

/// The link that a car has entered, and when.
#[derive(Clone, Copy, Debug, PartialEq, Eq)]
pub struct Entry {
    pub link: u32,
    pub second: u32,
}

/// What was seen of cars in the events of a day so far. The events come piece by piece, in their order; they show what they would show if
/// all had come at once.
#[derive(Drop)]
pub struct Observations {
    /// How many links there are.
    links: usize,
    /// The tallies of each bin.
    pub(crate) rows: Vec<TallyRow>,
    /// The link on which each car is, where the last event that tells of it is that it entered the link.
    entries: Vec<Option<Entry>>,
}

/// The person whose car it is, where it is one.
fn car_in(vehicle: Option<VehicleId>) -> Option<u32>
    ensures { result ≡ car_of vehicle }
{
    match vehicle {
        Some(VehicleId::Car(person)) => Some(person),
        Some(VehicleId::Transit(_)) => None,
        None => None,
    }
}

/// The entry that an event tells.
fn entry_in(event: &Event) -> Option<Entry>
    ensures { result ≡ entry_of event.now }
{
    match (event.word, event.link) {
        (Word::EnteredLink, Some(link)) => Some(Entry {
            link,
            second: event.key.second,
        }),
        _ => None,
    }
}

/// The seconds of a stay on a link, where the event is its end.
fn stay(event: &Event, entry: Entry) -> Option<u32>
    requires { entry.second ≤ event.now.key.second }
    ensures { result ≡ stay_of event.now entry }
{
    if event.word == Word::LeftLink && event.link == Some(entry.link) {
        return Some(event.key.second - entry.second);
    }
    None
}

/// Where a car is.
fn entry_at(entries: &[Option<Entry>], car: usize) -> Option<Entry>
    ensures { result ≡ slice_index_or entries.now car None }
{
    if car < entries.len() {
        entries[car]
    } else {
        None
    }
}

/// Notes where a car is.
fn set_entry(
    entries: &mut Vec<Option<Entry>>,
    car: usize,
    entry: Option<Entry>,
) -> Result<(), AllocError>
    requires { car < 2 ^ 32 }
    ensures { OnOk result ((other : ℕ) → slice_index_or entries.new.items other None
        ≡ (if nat_eq other car then entry else slice_index_or entries.old.items other None)) }
{
    for _ in entries.len()..car + 1 {
        entries.push(None)?;
    }
    entries[car] = entry;
    Ok(())
}

/// Counts the stay that the event ends, of a car with this entry.
fn end_stay(
    alloc: Global,
    rows: &mut Vec<TallyRow>,
    links: usize,
    event: &Event,
    entry: Option<Entry>,
) -> Result<(), AllocError>
    requires rows { HasRows links rows.old.items }
    requires entry { IfSome entry (λ e. (e.link < links) × (e.second ≤ event.now.key.second)) }
    requires cars { (link bin : ℕ) → (tally_at rows.old.items link bin).cars < 2 ^ 64 - 1 }
    ensures rows { OnOk result (HasRows links rows.new.items) }
    ensures ends { OnOk result (EndsStay event.now entry rows.old.items rows.new.items) }
{
    let Some(entry) = entry else {
        return Ok(());
    };
    let Some(seconds) = stay(event, entry) else {
        return Ok(());
    };
    let bin = u64::from(entry.second) / BIN_SECONDS;
    add_stay(
        alloc,
        rows,
        links,
        entry.link as usize,
        bin as usize,
        seconds,
    )?;
    Ok(())
}

/// Goes on by the next event.
fn observe(alloc: Global, known: &mut Observations, event: &Event) -> Result<(), AllocError>
    requires { (taken : List Event) × Knows known.old taken × IsPiece (links_of known.old) taken (event.now ∷ []) }
    ensures known { OnOk result ((taken : List Event) → Knows known.old taken → IsPiece (links_of known.old) taken (event.now ∷ [])
        → Knows known.new (taken ++ event.now ∷ [])) }
    ensures links { links_of known.new ≡ links_of known.old }
{
    let Some(car) = car_in(event.vehicle) else {
        return Ok(());
    };
    let entry = entry_at(&known.entries, car as usize);
    end_stay(alloc, &mut known.rows, known.links, event, entry)?;
    set_entry(&mut known.entries, car as usize, entry_in(event))?;
    Ok(())
}

impl Observations {
    /// Nothing was seen yet of the cars on so many links. Takes no memory.
    pub fn new(alloc: Global, links: usize) -> Observations
        ensures known { Knows result [] }
        ensures links { links_of result ≡ links }
    {
        Observations {
            links,
            rows: Vec::new(alloc),
            entries: Vec::new(alloc),
        }
    }

    /// Takes the next events of the day. They come behind those before them, and their links are among those that there are.
    ///
    /// # Errors
    ///
    /// `AllocError`: there is no memory for what is seen. What is known then is of no use.
    pub fn take(&mut self, alloc: Global, events: &[Event]) -> Result<(), AllocError>
        requires { (taken : List Event) × Knows self.old taken × IsPiece (links_of self.old) taken events.now }
        ensures known { OnOk result ((taken : List Event) → Knows self.old taken → IsPiece (links_of self.old) taken events.now
            → Knows self.new (taken ++ events.now)) }
        ensures links { links_of self.new ≡ links_of self.old }
    {
        for event in events {
            observe(alloc, self, event)?;
        }
        Ok(())
    }
}
