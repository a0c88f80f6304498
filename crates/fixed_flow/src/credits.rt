ghost use Rattle.std.specs.Prelude.{◌≡◌, ℕ, ◌+◌, ◌-◌, ◌*◌, ◌/◌, ◌<◌, ◌≤◌, ◌↔◌, IsTrue};
ghost use Rattle.fixed_flow.specs.{Flow.full_credit, Flow.raised, Flow.raised_times, Flow.Flow, declared.TheConstants.MAX_PER_SECOND};

use crate::{MAX_PER_SECOND, VEHICLE_COST};
use limits::LAST_SECOND;
use std::marker::Model;

/// The units of credit that a link has after the gain of one second, `per_second` units: at most those of one second,
/// but enough for a vehicle. No fraction of a vehicle is dropped.
#[tactic(auto, unfolding(crate::specs::Flow::raised))]
pub fn raised_credit(per_second: u32, credit: u32) -> u32
    ensures { result ≡ raised per_second credit }
{
    let saved = u64::from(credit) + u64::from(per_second);
    saved.min(u64::from(per_second.max(VEHICLE_COST))) as u32
}

/// What a link has saved for the vehicles that leave its queue, in units. No fraction is dropped:
/// what a second leaves over counts in the next.
#[derive(Clone, Copy, Debug, PartialEq, Eq)]
pub struct Credit {
    units: u32,
}

impl Model for Credit {
    ghost Value = { ℕ };

    ghost view = { λ c. c.units };

    ghost invariant = { λ c. c.units ≤ MAX_PER_SECOND };

    ghost inverse = { λ n. record { units = n } };
}

impl Credit {
    /// The credit at the start of a day: enough for one vehicle.
    pub fn start() -> Credit
        ensures value { result ≡ VEHICLE_COST }
        ensures kept { (per_second : ℕ) → result ≤ full_credit per_second }
    {
        Credit {
            units: VEHICLE_COST,
        }
    }

    /// Gives the gains of `times` seconds at once, as [`raised_credit`] gives them one after the other.
    #[tactic(auto, using(crate::proofs::Gains::gains_none, crate::proofs::Gains::gains_at_once))]
    pub fn raise_by(&mut self, per_second: u32, times: u32)
        requires per_second_in { per_second ≤ MAX_PER_SECOND }
        requires times_in { times ≤ LAST_SECOND }
        ensures value { self.new ≡ raised_times per_second times self.old }
        ensures kept { self.old ≤ full_credit per_second → self.new ≤ full_credit per_second }
    {
        if times == 0 {
            return;
        }
        let gained = u64::from(self.units) + u64::from(per_second) * u64::from(times);
        self.units = gained.min(u64::from(per_second.max(VEHICLE_COST))) as u32;
    }

    /// The credit, in units.
    pub fn units(&self) -> u32
        ensures { result ≡ self.now }
    {
        self.units
    }

    /// Whether the credit pays for a vehicle.
    pub fn can_pass(&self) -> bool
        ensures { IsTrue result ↔ (VEHICLE_COST ≤ self.now) }
    {
        self.units >= VEHICLE_COST
    }

    /// Pays for one vehicle.
    pub fn pay(&mut self)
        requires { VEHICLE_COST ≤ self.old }
        ensures { self.new + VEHICLE_COST ≡ self.old }
    {
        self.units -= VEHICLE_COST;
    }
}

/// How many vehicles pass at most in any `seconds` seconds of a link that gains `per_second` units
/// of credit in each.
pub fn most_passing(per_second: u32, seconds: u32) -> u64
    ensures value { result ≡ (seconds * per_second + full_credit per_second) / VEHICLE_COST }
    ensures flow { Flow per_second seconds result }
{
    let units = u64::from(seconds) * u64::from(per_second)
        + u64::from(per_second.max(VEHICLE_COST));
    units / u64::from(VEHICLE_COST)
}
