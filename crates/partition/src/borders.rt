//! The lags between partitions.

ghost use Rattle.std.specs.Prelude.{◌≡◌, ◌<◌, true, length, map, All, IfOk};
ghost use Rattle.std.specs.List.{list_all, flat_map};
ghost use Rattle.limits.specs.declared.TheConstants.{MAX_PARTITIONS};
ghost use Rattle.rows.specs.{Networks.is_link, PlanRows.plan_rows, Settings.is_hole_speed};
ghost use Rattle.town.specs.Views.{setup};
ghost use Rattle.partition.specs.Neighbours.{AreShorter, AreLags, shortened, shortest, hole_at, seconds_of_hop, IsPairOf, hops_in};
ghost use Rattle.partition.specs.{Neighbours.leads_over, Neighbours.hop_leads_over, Neighbours.lags_of, Owned.owner_in};
ghost use Rattle.travel_times.specs.Times.{free_of};

use crate::crossings::{hop_of, link_seconds, owners_of_hop};
use crate::joining::{PLACES, Pair, place_of};
use crate::owner::{Owner, owner_of_node};
use limits::MAX_LAG;
use rows::{LinkList, LinkRow, Plan};
use std::alloc::{AllocError, Global};
use town::DayInput;
use vehicles::hole_seconds;

/// The lags of two partitions, in seconds: what the lesser one does in a second changes nothing at the greater one before `there` seconds
/// have passed, and the other way nothing before `back`.
#[derive(Clone, Copy, Debug, PartialEq, Eq)]
pub struct LagPair {
    pub there: u32,
    pub back: u32,
}

/// The lag from a partition to another one is no longer than so many seconds.
fn shorten(from: u32, to: u32, seconds: u32, lags: &mut [u32])
    requires from { from < MAX_PARTITIONS }
    requires to { to < MAX_PARTITIONS }
    requires long { length lags.old ≡ PLACES }
    ensures { AreShorter (shortened from to seconds) lags.old lags.new }
{
    let place = place_of(from, to);
    lags[place] = seconds.min(lags[place]);
}

/// A link holds up what goes along it for its free seconds, and its holes what goes the other way.
fn shorten_by_links(
    owner: &Owner,
    nodes: usize,
    hole_speed: Option<u32>,
    links: &[LinkRow],
    lags: &mut [u32],
)
    requires hole { is_hole_speed hole_speed ≡ true }
    requires links { list_all (is_link nodes) links.now ≡ true }
    requires long { length lags.old ≡ PLACES }
    ensures { AreShorter (λ p q n. shortest free_of (leads_over (owner_in owner.now.of_node) p q) links.now
        (shortest (hole_at hole_speed) (leads_over (owner_in owner.now.of_node) q p) links.now n))
        lags.old lags.new }
{
    for link in links {
        let from = owner_of_node(&owner.of_node, link.from);
        let to = owner_of_node(&owner.of_node, link.to);
        shorten(from, to, link_seconds(nodes, *link), lags);
        shorten(to, from, hole_seconds(link.length, hole_speed), lags);
    }
}

/// A teleported leg of a plan holds up who is on it for its seconds.
fn shorten_by_plan(owner: &Owner, links: &LinkList, plan: &Plan, lags: &mut [u32])
    requires { length lags.old ≡ PLACES }
    ensures { AreShorter (λ p q n. shortest seconds_of_hop (hop_leads_over (owner_in owner.now.of_node) links.now p q)
        (hops_in (plan_rows plan.now)) n) lags.old lags.new }
{
    for leg in 0..plan.legs.rows.len() as u32 {
        if let Some(hop) = hop_of(plan, leg) {
            let (from, to) = owners_of_hop(owner, links, hop);
            shorten(from, to, hop.seconds, lags);
        }
    }
}

/// The same of all plans.
fn shorten_by_plans(owner: &Owner, links: &LinkList, chosen: &[Plan], lags: &mut [u32])
    requires { length lags.old ≡ PLACES }
    ensures { AreShorter (λ p q n. shortest seconds_of_hop (hop_leads_over (owner_in owner.now.of_node) links.now p q)
        (flat_map hops_in (map plan_rows chosen.now)) n) lags.old lags.new }
{
    for plan in chosen {
        shorten_by_plan(owner, links, plan, lags);
    }
}

/// The lags of all ordered pairs of partitions, in a table.
fn lags_of_day(alloc: Global, day: &DayInput, owner: &Owner) -> Result<Vec<u32>, AllocError>
    ensures { IfOk result (λ lags. (length lags.items ≡ PLACES) × AreLags (setup day.now) (owner_in owner.now.of_node) lags.items) }
{
    let mut lags = vec![in alloc; MAX_LAG; PLACES]?;
    let links = &day.town.network.links;
    let nodes = day.town.network.nodes.len();
    let hole_speed = day.town.settings.hole_speed;
    shorten_by_plans(owner, links, day.chosen, &mut lags);
    shorten_by_links(owner, nodes, hole_speed, &links.rows, &mut lags);
    Ok(lags)
}

/// The lags of each of these pairs of partitions. A lag is 1 to 32 seconds, and no longer than a link over the border takes at its free
/// speed, than the holes of a link the other way take, and than a teleported leg over the border.
///
/// # Errors
///
/// `AllocError`: there is no memory for the lags, or for a table of all pairs.
pub fn lags(
    alloc: Global,
    day: &DayInput,
    owner: &Owner,
    pairs: &[Pair],
) -> Result<Vec<LagPair>, AllocError>
    requires { All (IsPairOf owner.now.parts) pairs.now }
    ensures { IfOk result (λ lags. lags.items ≡ map (lags_of (setup day.now) (owner_in owner.now.of_node)) pairs.now) }
{
    let table = lags_of_day(alloc, day, owner)?;
    let mut lags = Vec::new(alloc);
    for pair in pairs {
        lags.push(LagPair {
            there: table[place_of(pair.lesser, pair.greater)],
            back: table[place_of(pair.greater, pair.lesser)],
        })?;
    }
    Ok(lags)
}
