//! The law of routes in a town: they are joined, so a vehicle at the end of a link goes on along a link that begins where that one ends. It
//! is the contract of a call that does nothing.
#![tactic(auto)]

ghost use Rattle.std.specs.Prelude.{ℕ, List};
ghost use Rattle.events.specs.declared.event.Phase.{Phase};
ghost use Rattle.town.specs.{Views.setup, Views.ChosenFit, declared.day_input.DayInput.DayInput};
ghost use Rattle.traffic.specs.Day.{through, world_at};
ghost use Rattle.law_joined_routes.specs.Going.{GoOn};

/// In a town each vehicle in the buffer of a link goes on along a link that begins there, in every second and between its phases.
pub fn vehicles_go_on()
    ensures { (day : DayInput) (t : ℕ) (ps : List Phase) → ChosenFit day
        → GoOn (setup day) (through (setup day) t ps (world_at (setup day) t)) }
{}
