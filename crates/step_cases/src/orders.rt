//! Orders in which partitions are asked for their next steps.

ghost use Rattle.std.specs.Prelude.{◌≡◌, ◌<◌, true};
ghost use Rattle.step_core.specs.Cores.{IsCore, AllAt};

use step_core::{Core, Part, Step};

/// In which order partitions are asked for their next step.
pub struct Order {
    /// Partition `stride`, `2 * stride` and so on, around the row.
    pub stride: u32,
    /// Each so often, before it is the next one's turn.
    pub times: u32,
}

/// Up and down the row, and by every second one, once, three times or forty times each.
pub static ORDERS: [Order; 10] = [
    Order {
        stride: 1,
        times: 1,
    },
    Order {
        stride: 2,
        times: 1,
    },
    Order {
        stride: 3,
        times: 1,
    },
    Order {
        stride: 4,
        times: 1,
    },
    Order {
        stride: 1,
        times: 3,
    },
    Order {
        stride: 2,
        times: 3,
    },
    Order {
        stride: 4,
        times: 3,
    },
    Order {
        stride: 1,
        times: 40,
    },
    Order {
        stride: 3,
        times: 40,
    },
    Order {
        stride: 4,
        times: 40,
    },
];

impl Order {
    /// Whose turn it is among so many partitions: after as many askings as there are partitions all begin one further on, so that each has
    /// its turn whatever the stride is.
    pub fn asked(&self, turn: u32, count: u32) -> u32
        requires { 0 < count }
        ensures { result < count }
    {
        let asked = turn / self.times.max(1);
        asked.wrapping_mul(self.stride).wrapping_add(asked / count) % count
    }
}

/// The turns after which a day is given up.
const MOST_TURNS: u32 = 100_000;

/// Asks partitions at their start for their steps, in an order, until all are at the end. Whether they come there, and each found memory.
#[tactic(auto, using(crate::proofs::Ended::at_end))]
pub fn bring_to_end<T: Part>(run: &T::Run, order: &Order, core: &mut Core<T>) -> bool
    requires some { 0 < (T.net run.now).parts }
    requires core { IsCore T.nothing (T.net run.now) (T.borders run.now) T.see (T.stands run.now) T.spent (T.right run.now)
        core.old.done.items core.old.stopped.items core.old.borders.items core.old.parts.items core.old.wheels.items }
    requires start { AllAt (T.net run.now).parts 0 core.old.done.items core.old.stopped.items }
    ensures core { IsCore T.nothing (T.net run.now) (T.borders run.now) T.see (T.stands run.now) T.spent (T.right run.now)
        core.new.done.items core.new.stopped.items core.new.borders.items core.new.parts.items core.new.wheels.items }
    ensures end { result ≡ true → AllAt (T.net run.now).parts (T.net run.now).end core.new.done.items core.new.stopped.items }
{
    for turn in 0..MOST_TURNS {
        if core.all_ended(run) {
            return true;
        }
        match core.step(run, order.asked(turn, T::count(run))) {
            Ok(_) => {}
            Err(_) => return false,
        }
    }
    false
}

/// Asks a partition for its steps, and no other one, until one is not done: how many it did, and what the next one came to; none where
/// memory is wanting, or it does them without end.
pub fn steps_of<T: Part>(run: &T::Run, core: &mut Core<T>, number: u32) -> Option<(u32, Step)>
    requires core { IsCore T.nothing (T.net run.now) (T.borders run.now) T.see (T.stands run.now) T.spent (T.right run.now)
        core.old.done.items core.old.stopped.items core.old.borders.items core.old.parts.items core.old.wheels.items }
    requires there { number < (T.net run.now).parts }
{
    for turn in 0..MOST_TURNS {
        match core.step(run, number) {
            Ok(Step::Done) => {}
            Ok(step) => return Some((turn, step)),
            Err(_) => return None,
        }
    }
    None
}
