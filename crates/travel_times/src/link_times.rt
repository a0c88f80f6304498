ghost use Rattle.std.specs.Prelude.{◌≡◌, ℕ, ◌+◌, ◌^◌, ◌<◌, ◌≤◌, max, List, length, map, nat_eq, slice_index, IfOk, All};
ghost use Rattle.travel_times.specs.Times.{LinkProfile, time_in, arrival_by, profile_at, free_of, arrivals, free_times};
ghost use Rattle.travel_times.specs.Observed.{AreInOrder, AreOnLinks, link_at, observed_time};
ghost use Rattle.travel_times.specs.Known.{Knows, links_of};
ghost use Rattle.travel_times.specs.Steadily.{steady_of};
ghost use Rattle.events.specs.declared.event.Event.{Event};

use crate::observations::Observations;
use crate::profiles::Profile;
use crate::seen::seen_profiles;
use events::Event;
use fixed_flow::free_seconds;
use rows::{LinkList, Network};
use std::alloc::{AllocError, Global};
use std::marker::Model;

/// The travel times of the links of a network, by their numbers.
///
/// A search asks for the times of some hundred thousand links in a second, and most links take as long in every bin: what these take
/// stands in a table of its own, of four bytes a link, and their profiles are not looked at.
#[derive(Debug, Drop)]
pub struct LinkTimes {
    /// Of each link the seconds that it takes in every bin, or 0 where its profile has bins.
    steady: Vec<u32>,
    links: Vec<Profile>,
}

impl Model for LinkTimes {
    ghost use Rattle.std.specs.Prelude.{List};
    ghost use Rattle.travel_times.specs.Times.{LinkProfile};

    ghost Value = { List LinkProfile };

    ghost use Rattle.travel_times.specs.Steady.{AreSteady};

    ghost view = { λ times. times.links.items };

    ghost invariant = { AreSteady };
}

/// The seconds that each of these links takes in every bin, or 0 where its profile has bins.
fn steady_seconds(alloc: Global, links: &[Profile]) -> Result<Vec<u32>, AllocError>
    ensures { IfOk result (λ seconds. seconds.items ≡ map steady_of links.now) }
{
    let mut seconds = Vec::new(alloc);
    for link in links {
        seconds.push(link.steady())?;
    }
    Ok(seconds)
}

/// The profiles of these links at their free speed.
fn free_links(alloc: Global, links: &LinkList) -> Result<Vec<Profile>, AllocError>
    requires { All (λ link. 0 < link.speed) links.now }
    ensures { IfOk result (λ profiles. profiles.items ≡ free_times links.now) }
{
    let mut profiles = Vec::new(alloc);
    for link in &links.rows {
        profiles.push(Profile::free(alloc, free_seconds(link.length, link.speed)))?;
    }
    Ok(profiles)
}

/// The seconds of a link, or 0.
fn seconds_at(steady: &[u32], link: u32) -> u32
    requires { link < length steady.now }
    ensures { result ≡ slice_index steady.now link }
{
    steady[link as usize]
}

impl LinkTimes {
    /// The travel times of links with these profiles.
    fn of(alloc: Global, links: Vec<Profile>) -> Result<LinkTimes, AllocError>
        ensures { IfOk result (λ times. times ≡ links.items) }
    {
        let steady = steady_seconds(alloc, &links)?;
        Ok(LinkTimes { steady, links })
    }

    /// The travel times of links at their free speed.
    pub fn free(alloc: Global, network: &Network) -> Result<LinkTimes, AllocError>
        ensures { IfOk result (λ times. times ≡ free_times network.now.links) }
    {
        let links = free_links(alloc, &network.links)?;
        let times = LinkTimes::of(alloc, links)?;
        Ok(times)
    }

    /// The travel times that the observed events of a day show: in each bin the average of the cars that entered the link in it and
    /// were seen to leave it, one second at least, and where none was seen the free seconds.
    ///
    /// # Errors
    ///
    /// `AllocError`: there is no memory for the times.
    pub fn seen(
        alloc: Global,
        network: &Network,
        known: &Observations,
    ) -> Result<LinkTimes, AllocError>
        requires known { (events : List Event) × Knows known.now events }
        requires links { links_of known.now ≡ length network.now.links }
        ensures count { IfOk result (λ times. length times ≡ length network.now.links) }
        ensures free { IfOk result (λ times. (link : ℕ) → link < length network.now.links
            → (profile_at times link).free ≡ free_of (link_at network.now.links link)) }
        ensures times { IfOk result (λ times. (events : List Event) → Knows known.now events
            → (link bin : ℕ) → link < length network.now.links
            → time_in (profile_at times link) bin ≡ observed_time network.now.links events link bin) }
        ensures arrivals { IfOk result (λ times. (events : List Event) → Knows known.now events
            → (link second : ℕ) → link < length network.now.links
            → arrivals times link second ≡ arrival_by (observed_time network.now.links events link) second) }
    {
        let links = seen_profiles(alloc, &network.links, &known.rows)?;
        let times = LinkTimes::of(alloc, links)?;
        Ok(times)
    }

    /// The travel times that the events of a day show, which are observed all at once.
    pub fn of_events(
        alloc: Global,
        network: &Network,
        events: &[Event],
    ) -> Result<LinkTimes, AllocError>
        requires order { AreInOrder events.now }
        requires links { AreOnLinks (length network.now.links) events.now }
        ensures count { IfOk result (λ times. length times ≡ length network.now.links) }
        ensures free { IfOk result (λ times. (link : ℕ) → link < length network.now.links
            → (profile_at times link).free ≡ free_of (link_at network.now.links link)) }
        ensures times { IfOk result (λ times. (link bin : ℕ) → link < length network.now.links
            → time_in (profile_at times link) bin ≡ observed_time network.now.links events.now link bin) }
        ensures arrivals { IfOk result (λ times. (link second : ℕ) → link < length network.now.links
            → arrivals times link second ≡ arrival_by (observed_time network.now.links events.now link) second) }
    {
        let mut known = Observations::new(alloc, network.links.len());
        known.take(alloc, events)?;
        let times = LinkTimes::seen(alloc, network, &known)?;
        Ok(times)
    }

    /// How many links there are.
    pub fn len(&self) -> usize
        ensures { result ≡ length self.now }
    {
        self.links.len()
    }

    /// Whether there is no link.
    pub fn is_empty(&self) -> bool
        ensures { result ≡ nat_eq (length self.now) 0 }
    {
        self.links.is_empty()
    }

    /// The second in which the end of a link is reached by who enters the link in this second. It is later, and never falls with
    /// the second of entry, since nobody overtakes.
    pub fn arrive(&self, link: u32, second: u64) -> u64
        requires link { link < length self.now }
        requires second { second < 2 ^ 60 }
        ensures value { result ≡ arrivals self.now link second }
        ensures later { second < result }
        ensures in_order { (earlier : ℕ) → earlier ≤ second → arrivals self.now link earlier ≤ result }
        ensures soon { result ≤ max second (2 ^ 33) + 2 ^ 32 }
    {
        let steady = seconds_at(&self.steady, link);
        if steady > 0 {
            return second + u64::from(steady);
        }
        let profile = &self.links[link as usize];
        profile.arrive(second)
    }
}
