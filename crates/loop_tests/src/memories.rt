//! What a person remembers: which plan is dropped and which one is chosen, computed by hand.

ghost use Rattle.std.specs.Prelude.{◌≡◌, ◌<◌, ◌≤◌, length, IfOk};

use events::Rows;
use plan_memory::{Choice, Memory, ScoreList};
use rows::{Act, Plan, PlanList};
use std::alloc::{AllocError, Global};

static SIX_SCORES: [Option<i64>; 6] = [Some(5), Some(3), Some(3), Some(9), Some(8), Some(7)];

/// The second best of these is ten micro-utils worse than the best; the last plan was not tried.
static THREE_SCORES: [Option<i64>; 3] = [Some(100), Some(90), None];

/// A plan of one activity, on this link.
#[tactic(auto, unfolding(rows::specs::Plan::are_acts))]
fn plan_on(alloc: Global, link: u32) -> Result<Plan, AllocError> {
    let mut acts = Vec::new(alloc);
    acts.push(Act {
        kind: 0,
        link,
        end: None,
    })?;
    Ok(Plan {
        acts: Rows { rows: acts },
        legs: Rows {
            rows: Vec::new(alloc),
        },
    })
}

/// As many plans as these scores, each on the link of its number.
fn plans_on(alloc: Global, count: u32) -> Result<PlanList, AllocError>
    ensures { IfOk result (λ plans. length plans ≡ count) }
{
    let mut rows = Vec::new(alloc);
    for link in 0..count {
        rows.push(plan_on(alloc, link)?)?;
    }
    Ok(PlanList { rows })
}

/// The memory with these scores, of which the plan of this number is chosen.
fn kept(alloc: Global, scores: &[Option<i64>], chosen: u32) -> Result<Memory, AllocError>
    requires few { length scores.now ≤ 6 }
    requires chosen { chosen < length scores.now }
{
    let plans = plans_on(alloc, scores.len() as u32)?;
    let scores = ScoreList {
        rows: Vec::from_slice(alloc, scores)?,
    };
    Ok(Memory::of_kept(plans, scores, chosen))
}

/// The link of the plan at a place.
fn link_at(memory: &Memory, place: u32) -> Option<u32> {
    if place >= memory.len() {
        return None;
    }
    match memory.plan(place).acts.rows.first() {
        Some(act) => Some(act.link),
        None => None,
    }
}

/// Whether a memory of six plans with this one chosen has five left, without the one of number 1, and has this one chosen.
fn drops_second(alloc: Global, chosen: u32, chosen_after: u32) -> bool
    requires { chosen < 6 }
{
    let Ok(mut memory) = kept(alloc, &SIX_SCORES, chosen) else {
        return false;
    };
    memory.drop_worst(5);
    memory.len() == 5
        && link_at(&memory, 0) == Some(0)
        && link_at(&memory, 1) == Some(2)
        && link_at(&memory, 4) == Some(5)
        && memory.chosen() == chosen_after
}

/// Whether a word chooses the plan at this place.
fn chooses(alloc: Global, how: Choice, word: u32, place: u32) -> bool {
    let Ok(mut memory) = kept(alloc, &THREE_SCORES, 0) else {
        return false;
    };
    memory.choose(how, 10, word);
    memory.chosen() == place
}

#[test]
fn worst_plan_is_dropped(rt: HostRuntime) {
    assert!(rt; drops_second(rt.alloc(), 4, 3));
    assert!(rt; drops_second(rt.alloc(), 1, 2));
    assert!(rt; drops_second(rt.alloc(), 0, 0));
}

#[test]
fn untried_plan_is_best(rt: HostRuntime) {
    assert!(rt; chooses(rt.alloc(), Choice::Best, 0, 2));
}

#[test]
fn words_choose_evenly(rt: HostRuntime) {
    assert!(rt; chooses(rt.alloc(), Choice::Random, 1_431_655_765, 0));
    assert!(rt; chooses(rt.alloc(), Choice::Random, 1_431_655_766, 1));
    assert!(rt; chooses(rt.alloc(), Choice::Random, u32::MAX, 2));
}

#[test]
fn words_choose_by_halved_weights(rt: HostRuntime) {
    assert!(rt; chooses(rt.alloc(), Choice::Logit, 1_717_986_918, 0));
    assert!(rt; chooses(rt.alloc(), Choice::Logit, 1_717_986_919, 1));
    assert!(rt; chooses(rt.alloc(), Choice::Logit, 2_576_980_377, 1));
    assert!(rt; chooses(rt.alloc(), Choice::Logit, 2_576_980_378, 2));
}
