//! Steps of partitions on one thread, in several orders.

ghost use Rattle.std.specs.Prelude.{◌≡◌, ◌<◌, length, IfSome};
ghost use Rattle.step_tests.specs.Counters.{IsCoreOfRow};

use crate::counters::Counter;
use crate::results::are_right;
use crate::rows::{Row, in_row, lag};
use std::alloc::Global;
use step_cases::{InTurn, ORDERS, Order};
use step_core::{Core, Step};

/// The turns after which a day is given up.
const MOST_TURNS: u32 = 100_000;

/// Whether a neighbour is too far behind for the next second of a partition.
fn is_late(run: &Row, done: &[u32], from: u32, to: u32) -> bool
    requires { (from < run.now.count) × (to < run.now.count) × (length done.now ≡ run.now.count) }
{
    u64::from(done[from as usize]) + u64::from(lag(run.longest, from, to))
        <= u64::from(done[to as usize])
}

/// What a step of a partition is to come to, where so many seconds were done.
fn due(run: &Row, done: &[u32], number: u32) -> Step
    requires { (number < run.now.count) × (length done.now ≡ run.now.count) }
{
    if done[number as usize] >= run.end {
        return Step::Ended;
    }
    if number > 0 && is_late(run, done, number - 1, number) {
        return Step::Waits {
            neighbour: number - 1,
            published: done[number as usize - 1],
        };
    }
    if number + 1 < run.count && is_late(run, done, number + 1, number) {
        return Step::Waits {
            neighbour: number + 1,
            published: done[number as usize + 1],
        };
    }
    Step::Done
}

/// A core, and how many seconds its partitions have done by its answers.
#[derive(Drop)]
struct Trial {
    core: Core<Counter>,
    done: Vec<u32>,
}

impl Trial {
    /// All partitions of a row at their start.
    #[tactic(auto, using(crate::proofs::Neighbours::net_is, crate::proofs::Neighbours::borders_are))]
    fn start(alloc: Global, run: &Row) -> Option<Trial>
        ensures core { IfSome result (λ t. IsCoreOfRow run.now t.core.done.items t.core.stopped.items t.core.borders.items
            t.core.parts.items t.core.wheels.items) }
        ensures many { IfSome result (λ t. length t.done.items ≡ run.now.count) }
    {
        let Ok(core) = Core::<Counter>::new(alloc, run) else {
            return None;
        };
        let Ok(done) = vec![in alloc; 0u32; run.count as usize] else {
            return None;
        };
        Some(Trial { core, done })
    }

    /// A partition is asked for a step. Whether it comes to what it should; one that finds no memory has to be `poor` and in its second 50.
    fn step(&mut self, run: &Row, number: u32) -> bool
        requires core { IsCoreOfRow run.now self.old.core.done.items self.old.core.stopped.items self.old.core.borders.items
            self.old.core.parts.items self.old.core.wheels.items }
        requires many { length self.old.done.items ≡ run.now.count }
        requires there { number < run.now.count }
        ensures core { IsCoreOfRow run.now self.new.core.done.items self.new.core.stopped.items self.new.core.borders.items
            self.new.core.parts.items self.new.core.wheels.items }
        ensures many { length self.new.done.items ≡ run.now.count }
    {
        let should = due(run, &self.done, number);
        let place = number as usize;
        match self.core.step(run, number) {
            Ok(Step::Done) => {
                self.done[place] = self.done[place].saturating_add(1);
                should == Step::Done
            }
            Ok(step) => step == should,
            Err(_) => run.poor == Some(number) && self.done[place] == 50,
        }
    }
}

/// Whether all steps in this order come to what they should, and all partitions to their end.
fn goes_right(alloc: Global, run: &Row, order: &Order) -> bool
    requires { 0 < run.now.count }
{
    let Some(mut trial) = Trial::start(alloc, run) else {
        return false;
    };
    for turn in 0..MOST_TURNS {
        if trial.core.all_ended(run) {
            break;
        }
        if !trial.step(run, order.asked(turn, run.count)) {
            return false;
        }
    }
    trial.core.all_ended(run) && are_right(run, &trial.core.into_parts())
}

/// Whether ten orders bring all partitions of a row to their end.
fn go_right(alloc: Global, run: &Row) -> bool
    requires { 0 < run.now.count }
{
    for order in &ORDERS {
        if !goes_right(alloc, run, order) {
            return false;
        }
    }
    true
}

/// With lags of 1 to 5 seconds, of 2 to 32, as long as they may be, and of 1 alone.
#[test]
fn ten_orders(rt: HostRuntime) {
    assert!(rt; go_right(rt.alloc(), &in_row(5, 5, 300)));
    assert!(rt; go_right(rt.alloc(), &in_row(9, 32, 300)));
    assert!(rt; go_right(rt.alloc(), &in_row(5, 1, 300)));
}

/// Four partitions with lags of 4, 3 and 5 seconds towards partition 0, 1 and 3. Partition 2 finds no memory in second 50: so partition 1
/// comes to 50 + 3 seconds, partition 0 to 4 more, and partition 3 to 50 + 5. The steps of partition 2 are refused from then on.
static WITHOUT_MEMORY: [u32; 4] = [57, 53, 50, 55];

/// Whether the others go on so far.
fn others_go_on(alloc: Global, run: &Row) -> bool
    requires { run.now.count ≡ 4 }
{
    let Some(mut trial) = Trial::start(alloc, run) else {
        return false;
    };
    for turn in 0..MOST_TURNS {
        if !trial.step(run, turn % 4) {
            return false;
        }
    }
    trial.done.as_slice() == WITHOUT_MEMORY.as_slice() && !trial.core.all_ended(run)
}

#[test]
fn a_stopped_partition(rt: HostRuntime) {
    let mut four = in_row(4, 5, 300);
    four.poor = Some(2);
    assert!(rt; others_go_on(rt.alloc(), &four));
}

/// Whether a day on one thread ends with all partitions right.
#[tactic(auto, using(crate::proofs::Neighbours::net_is, crate::proofs::Neighbours::borders_are))]
fn is_day(alloc: Global, run: &Row, gate: &InTurn) -> bool {
    let Ok(core) = Core::<Counter>::new(alloc, run) else {
        return false;
    };
    match core.run(run, gate) {
        Ok(parts) => are_right(run, &parts),
        Err(_) => false,
    }
}

/// Always one with the fewest done seconds does the next step, and the gate is passed before each.
#[test]
fn one_thread_goes_by_seconds(rt: HostRuntime) {
    let gate = InTurn::new();
    assert!(rt; is_day(rt.alloc(), &in_row(4, 5, 300), &gate));
    assert!(rt; gate.wrong() == 0);
    assert!(rt; gate.passes() == 1200);
}
