ghost use Rattle.std.specs.Prelude.{◌≡◌, ℕ, ◌+◌, ◌-◌, ◌^◌, ◌<◌, ◌≤◌, ◌⊎◌, max, [], length};
ghost use Rattle.std.specs.Prelude.{slice_index_or, slice_set, OnOk};
ghost use Rattle.travel_times.specs.Observed.{average_or};
ghost use Rattle.travel_times.specs.Tallies.{no_tally, with_stay, IsSmall, row_at, tally_at, HasRows, Adds};

use std::alloc::{AllocError, Global};
use std::marker::Model;

/// How many cars entered a link in a bin and were seen to leave it, and the seconds that they took together.
#[derive(Clone, Copy, Debug, PartialEq, Eq)]
pub struct Tally {
    pub cars: u64,
    pub seconds: u128,
}

/// No car was seen.
pub const NO_TALLY: Tally = Tally {
    cars: 0,
    seconds: 0,
};

impl Tally {
    /// The average seconds of the cars, without a fraction but one at least; the free ones where there is no car.
    pub fn average_or(self, free: u32) -> u32
        requires { IsSmall self }
        ensures { result ≡ average_or free self.cars self.seconds }
    {
        if self.cars == 0 {
            return free;
        }
        (self.seconds / u128::from(self.cars)).max(1) as u32
    }

    /// One car more, which took so many seconds.
    pub fn with(self, seconds: u32) -> Tally
        requires cars { self.cars < 2 ^ 64 - 1 }
        requires seconds { IsSmall self }
        ensures { result ≡ with_stay self seconds }
    {
        Tally {
            cars: self.cars + 1,
            seconds: self.seconds + u128::from(seconds),
        }
    }
}

/// The tallies of all links in a bin, by the links' numbers; none at all before the first car is seen in it.
#[derive(Debug, Drop)]
pub struct TallyRow {
    tallies: Vec<Tally>,
}

impl Model for TallyRow {
    ghost use Rattle.std.specs.Prelude.{List};
    ghost use Rattle.travel_times.specs.declared.tallies.Tally.{Tally};

    ghost Value = { List Tally };

    ghost view = { λ row. row.tallies.items };
}

impl TallyRow {
    pub fn new(alloc: Global) -> TallyRow
        ensures { result ≡ [] }
    {
        TallyRow {
            tallies: Vec::new(alloc),
        }
    }

    /// The tally of a link.
    pub fn tally(&self, link: usize) -> Tally
        ensures { result ≡ slice_index_or self.now link no_tally }
    {
        if link < self.tallies.len() {
            self.tallies[link]
        } else {
            NO_TALLY
        }
    }

    /// Makes a tally for each of so many links, where there is none yet.
    fn fill(&mut self, alloc: Global, links: usize) -> Result<(), AllocError>
        requires { (length self.old ≡ 0) ⊎ (length self.old ≡ links) }
        ensures count { OnOk result (length self.new ≡ links) }
        ensures same { (link : ℕ) → slice_index_or self.new link no_tally ≡ slice_index_or self.old link no_tally }
    {
        if self.tallies.is_empty() {
            self.tallies = vec![in alloc; NO_TALLY; links]?;
        }
        Ok(())
    }

    /// Adds a car that took so many seconds on the link.
    fn add(&mut self, link: usize, seconds: u32)
        requires link { link < length self.old }
        requires cars { (slice_index_or self.old link no_tally).cars < 2 ^ 64 - 1 }
        requires seconds { IsSmall (slice_index_or self.old link no_tally) }
        ensures { self.new ≡ slice_set self.old link (with_stay (slice_index_or self.old link no_tally) seconds) }
    {
        self.tallies[link] = self.tallies[link].with(seconds);
    }
}

/// Makes rows up to and with this bin.
fn reach(alloc: Global, rows: &mut Vec<TallyRow>, bin: usize) -> Result<(), AllocError>
    requires { bin < 4772186 }
    ensures there { OnOk result (bin < length rows.new.items) }
    ensures few { length rows.new.items ≤ max (length rows.old.items) (bin + 1) }
    ensures same { (other : ℕ) → row_at rows.new.items other ≡ row_at rows.old.items other }
{
    for _ in rows.len()..bin + 1 {
        rows.push(TallyRow::new(alloc))?;
    }
    Ok(())
}

/// Adds a car that entered the link in the bin and took so many seconds.
pub fn add_stay(
    alloc: Global,
    rows: &mut Vec<TallyRow>,
    links: usize,
    link: usize,
    bin: usize,
    seconds: u32,
) -> Result<(), AllocError>
    requires rows { HasRows links rows.old.items }
    requires link { link < links }
    requires bin { bin < 4772186 }
    requires cars { (tally_at rows.old.items link bin).cars < 2 ^ 64 - 1 }
    ensures rows { OnOk result (HasRows links rows.new.items) }
    ensures adds { OnOk result (Adds link bin seconds rows.old.items rows.new.items) }
{
    reach(alloc, rows, bin)?;
    let row = &mut rows[bin];
    row.fill(alloc, links)?;
    row.add(link, seconds);
    Ok(())
}
