//! How many places of links are taken.

ghost use Rattle.std.specs.Prelude.{◌≡◌, ℕ, ◌+◌, ◌-◌, ◌^◌, ◌≤◌, ◌++◌, ◌==◌, if◌then◌else◌};
ghost use Rattle.std.specs.Prelude.{length, replicate, option_map, Option, None, Some, IfOk, OnOk, OnErr, MatchOption};
ghost use Rattle.traffic.specs.{Nodes.one_more, declared.node_views.OutLink.OutLink};
ghost use Rattle.node_move.specs.Entries.{rows_of, StandsAt, HasItsBlock, HasNoBlock, entry_in, freed, fewer, holes_put, taken_of};
ghost use Rattle.node_move.specs.{Spaces.places_in, Spaces.holes_in, declared.TheConstants.BLOCK_LINKS};

use crate::BLOCK_LINKS;
use crate::space::{Entry, Space};
use crate::starts::{block_of, entry_number, put_start};
use std::alloc::{AllocError, Global};
use traffic::OutLink;

/// The number of the entry of a link, where it has one.
fn entry_of(starts: &[u32], entries: &[Entry], link: u32) -> Option<usize>
    ensures { MatchOption result (entry_in (rows_of starts.now entries.now) link ≡ None)
        (λ number. StandsAt starts.now entries.now link number) }
{
    let number = entry_number(starts, link);
    if number >= entries.len() {
        return None;
    }
    if entries[number].link != link {
        return None;
    }
    Some(number)
}

/// The number that the entry of a link is to have, where its block is there.
fn number_in_block(starts: &[u32], entries: &[Entry], link: u32) -> Option<usize>
    ensures { MatchOption result (HasNoBlock starts.now entries.now link) (λ number. HasItsBlock starts.now entries.now link number) }
{
    let number = entry_number(starts, link);
    if number >= entries.len() {
        return None;
    }
    if block_of(entries[number].link) != block_of(link) {
        return None;
    }
    Some(number)
}

/// A block of entries more, each of them this one: that of a link stands in its place, and those beside it are nobody's.
fn add_copies(entries: &mut Vec<Entry>, start: u32, entry: Entry) -> Result<(), AllocError>
    requires { start ≡ length entries.old.items }
    ensures ok { OnOk result (entries.new.items ≡ entries.old.items ++ replicate BLOCK_LINKS entry) }
    ensures err { OnErr result (entries.new.items ≡ entries.old.items) }
{
    entries.resize(start as usize + BLOCK_LINKS, entry)?;
    Ok(())
}

/// In how many blocks these links are, which ascend by number.
fn count_blocks(links: &[u32]) -> usize {
    let mut count = 0usize;
    let mut last = None;
    for link in links {
        let block = Some(block_of(*link));
        if block != last {
            count = count.saturating_add(1);
            last = block;
        }
    }
    count
}

/// The entry once one of its places is free, which was a hole.
fn freed(entry: Entry) -> Entry
    ensures { result ≡ freed entry }
{
    let places = entry.places;
    Entry {
        link: entry.link,
        holes: entry.holes.saturating_sub(1),
        places: OutLink {
            taken: places.taken.saturating_sub(1),
            storage: places.storage,
            seconds: places.seconds,
        },
    }
}

impl Space {
    /// No link has an entry.
    pub fn new(alloc: Global) -> Space
        ensures places { (m : ℕ) → places_in result m ≡ None }
        ensures holes { (m : ℕ) → holes_in result m ≡ 0 }
    {
        Space {
            starts: Vec::new(alloc),
            entries: Vec::new(alloc),
        }
    }

    /// No link has an entry. There is room for those of these links, which ascend by number, and for what stands in their blocks.
    ///
    /// # Errors
    ///
    /// `AllocError`: there is no memory for them.
    pub fn with_room(alloc: Global, links: &[u32]) -> Result<Space, AllocError>
        ensures places { IfOk result (λ space. (m : ℕ) → places_in space m ≡ None) }
        ensures holes { IfOk result (λ space. (m : ℕ) → holes_in space m ≡ 0) }
    {
        let room = count_blocks(links).saturating_mul(BLOCK_LINKS);
        let entries = Vec::with_capacity(alloc, room)?;
        Ok(Space {
            starts: Vec::new(alloc),
            entries,
        })
    }

    /// A block more: that of this entry, of whose links none has an entry yet. An error too where 2^32 entries stand there.
    fn add_block(&mut self, entry: Entry) -> Result<(), AllocError>
        requires { HasNoBlock self.old.starts self.old.entries entry.link }
        ensures ok { OnOk result ((m : ℕ) → entry_in self.new m ≡ (if m == entry.link then Some entry else entry_in self.old m)) }
        ensures err { OnErr result ((m : ℕ) → entry_in self.new m ≡ entry_in self.old m) }
    {
        let Ok(start) = u32::try_from(self.entries.len()) else {
            return Err(AllocError);
        };
        put_start(&mut self.starts, block_of(entry.link), start)?;
        add_copies(&mut self.entries, start, entry)?;
        Ok(())
    }

    /// Puts or replaces the entry of a link: it has these places, none of which is a hole.
    ///
    /// # Errors
    ///
    /// `AllocError`: there is no memory for the entries of its block, or for the numbers that tell where blocks begin. Each link then has
    /// the entry that it had.
    pub fn set(&mut self, link: u32, places: OutLink) -> Result<(), AllocError>
        ensures ok { OnOk result ((m : ℕ) → places_in self.new m ≡ (if m == link then Some places else places_in self.old m)) }
        ensures holes { OnOk result ((m : ℕ) → holes_in self.new m ≡ (if m == link then 0 else holes_in self.old m)) }
        ensures err { OnErr result ((m : ℕ) → places_in self.new m ≡ places_in self.old m) }
        ensures err_holes { OnErr result ((m : ℕ) → holes_in self.new m ≡ holes_in self.old m) }
    {
        let entry = Entry {
            link,
            holes: 0,
            places,
        };
        match number_in_block(&self.starts, &self.entries, link) {
            None => self.add_block(entry),
            Some(number) => {
                self.entries[number] = entry;
                Ok(())
            }
        }
    }

    /// The places of a link, and `None` exactly where it has no entry.
    pub fn places(&self, link: u32) -> Option<OutLink>
        ensures { result ≡ places_in self.now link }
    {
        match entry_of(&self.starts, &self.entries, link) {
            None => None,
            Some(number) => Some(self.entries[number].places),
        }
    }

    /// How many places of a link are taken, and `None` exactly where it has no entry.
    pub fn taken(&self, link: u32) -> Option<u64>
        ensures { result ≡ option_map (λ (e : OutLink). e.taken) (places_in self.now link) }
    {
        match self.places(link) {
            None => None,
            Some(places) => Some(places.taken),
        }
    }

    /// How many places of a link were left and are not free yet; none where it has no entry.
    pub fn holes(&self, link: u32) -> u32
        ensures { result ≡ holes_in self.now link }
    {
        match entry_of(&self.starts, &self.entries, link) {
            None => 0,
            Some(number) => self.entries[number].holes,
        }
    }

    /// So many places of a link were left and are not free yet. Where it has no entry nothing is changed.
    pub fn set_holes(&mut self, link: u32, holes: u32)
        ensures places { (m : ℕ) → places_in self.new m ≡ places_in self.old m }
        ensures holes { (m : ℕ) → holes_in self.new m
            ≡ (if m == link then holes_put holes (places_in self.old m) else holes_in self.old m) }
    {
        match entry_of(&self.starts, &self.entries, link) {
            None => {}
            Some(number) => {
                let places = self.entries[number].places;
                self.entries[number] = Entry {
                    link,
                    holes,
                    places,
                };
            }
        }
    }

    /// One place of a link is taken no more, and one hole of it is over. Where it has no entry nothing is changed.
    pub fn free_place(&mut self, link: u32)
        ensures places { (m : ℕ) → places_in self.new m
            ≡ (if m == link then fewer 1 (places_in self.old m) else places_in self.old m) }
        ensures holes { (m : ℕ) → holes_in self.new m ≡ (if m == link then holes_in self.old link - 1 else holes_in self.old m) }
    {
        match entry_of(&self.starts, &self.entries, link) {
            None => {}
            Some(number) => {
                let entry = freed(self.entries[number]);
                self.entries[number] = entry;
            }
        }
    }

    /// One place more of a link is taken. Where it has no entry nothing is changed. Places are counted by rows in memory: where no number
    /// counts them, there is no memory for them.
    ///
    /// # Errors
    ///
    /// `AllocError`: 2^64 - 1 places are taken already. Nothing is changed then.
    pub fn take_place(&mut self, link: u32) -> Result<(), AllocError>
        ensures places { OnOk result (places_in self.new ≡ one_more link (places_in self.old)) }
        ensures holes { OnOk result ((m : ℕ) → holes_in self.new m ≡ holes_in self.old m) }
        ensures full { OnErr result (2 ^ 64 ≤ taken_of (places_in self.old link) + 1) }
        ensures err { OnErr result (self.new ≡ self.old) }
    {
        match entry_of(&self.starts, &self.entries, link) {
            None => Ok(()),
            Some(number) => {
                let entry = self.entries[number];
                let Some(taken) = entry.places.taken.checked_add(1) else {
                    return Err(AllocError);
                };
                let places = OutLink {
                    taken,
                    storage: entry.places.storage,
                    seconds: entry.places.seconds,
                };
                self.entries[number] = Entry {
                    link,
                    holes: entry.holes,
                    places,
                };
                Ok(())
            }
        }
    }
}
