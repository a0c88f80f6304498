ghost use Rattle.std.specs.Prelude.{◌≡◌, ℕ, ◌+◌, ◌^◌, ◌<◌, ◌≤◌, max, []};
ghost use Rattle.travel_times.specs.{Steadily.steady_of, Times.time_in, Times.arrival_by};

use crate::BIN_SECONDS;
use std::alloc::Global;
use std::marker::Model;

/// What is known of a link that is entered in a bin.
#[derive(Clone, Copy, Debug, PartialEq, Eq)]
pub struct Bin {
    /// The seconds that the link takes.
    pub time: u32,
    /// The seconds from the start of the bin before which nobody leaves the link who enters it in the bin, since nobody
    /// overtakes those who entered it in earlier bins.
    pub hold: u32,
}

/// The travel times of a link: free, and by bins, of which the last stands for all later ones and is free.
#[derive(Debug, Drop)]
pub struct Profile {
    pub free: u32,
    pub bins: Vec<Bin>,
}

impl Model for Profile {
    ghost use Rattle.travel_times.specs.Times.{LinkProfile};

    ghost Value = { LinkProfile };

    ghost use Rattle.travel_times.specs.Profiles.{profile_of, IsProfile};

    ghost view = { profile_of };

    ghost invariant = { IsProfile };
}

impl Profile {
    /// A link that takes as long in every bin.
    pub fn free(alloc: Global, seconds: u32) -> Profile
        requires { 1 ≤ seconds }
        ensures { result ≡ record { free = seconds; times = [] } }
    {
        Profile {
            free: seconds,
            bins: Vec::new(alloc),
        }
    }

    /// The seconds that the link takes in every bin, or 0 where it has bins.
    pub fn steady(&self) -> u32
        ensures { result ≡ steady_of self.now }
    {
        if self.bins.is_empty() {
            return self.free;
        }
        0
    }

    /// The second in which the end of the link is reached by who enters it in this second.
    pub fn arrive(&self, second: u64) -> u64
        requires { second < 2 ^ 60 }
        ensures value { result ≡ arrival_by (time_in self.now) second }
        ensures later { second < result }
        ensures soon { result ≤ max second (2 ^ 33) + 2 ^ 32 }
    {
        let Some(last) = self.bins.len().checked_sub(1) else {
            return second + u64::from(self.free);
        };
        let place = (second / BIN_SECONDS).min(last as u64);
        let Bin { time, hold } = self.bins[place as usize];
        (second + u64::from(time)).max(place * BIN_SECONDS + u64::from(hold))
    }
}
