ghost use Rattle.std.specs.Prelude.{◌≡◌, ℕ, ◌≤◌, ◌<◌, length, map, IfOk, All};
ghost use Rattle.travel_times.specs.{Binned.tallies_of, Binned.bins_from, Observed.link_at, Tallies.no_tally, Tallies.tally_at};
ghost use Rattle.travel_times.specs.{Tallies.HasRows, Tallies.IsSmall, Tallies.IsSeen, Times.free_of, Times.profile_at};

use crate::BIN_SECONDS;
use crate::profiles::{Bin, Profile};
use crate::tallies::TallyRow;
use fixed_flow::free_seconds;
use rows::LinkList;
use std::alloc::{AllocError, Global};

/// How many bins there are up to the last in which a car was seen on the link.
fn seen_bins(rows: &[TallyRow], link: usize) -> usize
    ensures within { result ≤ length rows.now }
    ensures unseen { (bin : ℕ) → result ≤ bin → (tally_at rows.now link bin).cars ≡ 0 }
{
    let mut seen = 0;
    for (bin, row) in rows.iter().enumerate() {
        if row.tally(link).cars > 0 {
            seen = bin + 1;
        }
    }
    seen
}

/// The bins of a link, and behind them one that stands for all later ones, which are free.
fn binned(alloc: Global, rows: &[TallyRow], link: usize, free: u32) -> Result<Vec<Bin>, AllocError>
    requires small { (bin : ℕ) → IsSmall (tally_at rows.now link bin) }
    ensures { IfOk result (λ bins. bins.items ≡ bins_from free 0 (tallies_of link rows.now)) }
{
    let mut bins = Vec::new(alloc);
    let mut hold = 0u32;
    for row in rows {
        let time = row.tally(link).average_or(free);
        bins.push(Bin { time, hold })?;
        hold = hold
            .saturating_sub(BIN_SECONDS as u32)
            .max(time.saturating_sub(1));
    }
    bins.push(Bin { time: free, hold })?;
    Ok(bins)
}

/// The travel times of a link by what was seen of it.
fn seen_profile(
    alloc: Global,
    rows: &[TallyRow],
    link: usize,
    free: u32,
) -> Result<Profile, AllocError>
    requires free { 1 ≤ free }
    requires few { length rows.now ≤ 4772186 }
    requires small { (bin : ℕ) → IsSmall (tally_at rows.now link bin) }
    ensures { IfOk result (λ profile. IsSeen free link rows.now profile) }
{
    let seen = seen_bins(rows, link);
    if seen == 0 {
        return Ok(Profile::free(alloc, free));
    }
    let bins = binned(alloc, &rows[..seen], link, free)?;
    Ok(Profile { free, bins })
}

/// The travel times of these links by what was seen of each.
pub fn seen_profiles(
    alloc: Global,
    links: &LinkList,
    rows: &[TallyRow],
) -> Result<Vec<Profile>, AllocError>
    requires moving { All (λ link. 0 < link.speed) links.now }
    requires rows { HasRows (length links.now) rows.now }
    ensures count { IfOk result (λ profiles. length profiles.items ≡ length links.now) }
    ensures seen { IfOk result (λ profiles. (link : ℕ) → link < length links.now
        → IsSeen (free_of (link_at links.now link)) link rows.now (profile_at profiles.items link)) }
{
    let mut profiles = Vec::new(alloc);
    for (place, link) in links.rows.iter().enumerate() {
        let free = free_seconds(link.length, link.speed);
        profiles.push(seen_profile(alloc, rows, place, free)?)?;
    }
    Ok(profiles)
}
