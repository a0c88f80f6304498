//! TimeMutation: a plan whose activities end at other seconds.

ghost use Rattle.std.specs.{List.enumerate_from, Prelude.◌≡◌, Prelude.◌<◌};
ghost use Rattle.std.specs.Prelude.{◌≤◌, ◌+◌, ◌^◌, ◌∷◌, ◌++◌, [], ◌≤ℤ◌, ℤ, pos, neg_ℤ, length, map};
ghost use Rattle.std.specs.Prelude.{take, slice_index_or, None, true, IfOk};
ghost use Rattle.limits.specs.declared.TheConstants.{LAST_SECOND};
ghost use Rattle.rows.specs.{Plan.are_acts, PlanRows.plan_rows};
ghost use Rattle.replanning.specs.Acts.{moved, move_of, moved_act, moved_acts, mutated_plan};

use draws::{Draws, between};
use router::copied_legs;
use rows::{Act, Acts, Legs, Plan};
use std::alloc::{AllocError, Global};

/// The place of the word that moves the end of a plan's first activity; those of the others follow.
pub const FIRST_ACT_WORD: u64 = 2;

/// A second moved by so many seconds, raised to 0 and cut to the end of the day.
fn moved(end: u32, by: i64, second: u32) -> u32
    requires low { neg_ℤ (pos (2 ^ 40)) ≤ℤ by }
    requires high { by ≤ℤ pos (2 ^ 40) }
    ensures second { result ≡ moved end by second }
    ensures within { result ≤ end }
{
    let raised = (i64::from(second) + by).max(0) as u64;
    raised.min(u64::from(end)) as u32
}

/// By how many seconds the end of the activity at a place is moved.
fn move_of(range: u32, words: &Draws, place: usize) -> i64
    requires { place < 2 ^ 31 }
    ensures seconds { result ≡ move_of range words.now place }
    ensures low { neg_ℤ (pos (2 ^ 40)) ≤ℤ result }
    ensures high { result ≤ℤ pos (2 ^ 40) }
{
    let word = words.word(FIRST_ACT_WORD + place as u64);
    between(-i64::from(range), i64::from(range), word)
}

/// An activity whose planned end is moved.
fn moved_act(range: u32, end: u32, words: &Draws, place: usize, act: Act) -> Act
    requires { place < 2 ^ 31 }
    ensures act { result ≡ moved_act range end words.now (place, act) }
{
    let by = move_of(range, words, place);
    Act {
        kind: act.kind,
        link: act.link,
        end: act.end.map(|second| moved(end, by, second)),
    }
}

/// The activity at a place.
fn act_at(acts: &[Act], place: usize) -> Act
    requires { place < length acts.now }
    ensures { result ≡ slice_index_or acts.now place (record { kind = 0; link = 0; end = None }) }
{
    acts[place]
}

/// The activity at a place, with its planned end moved.
fn moved_at(range: u32, end: u32, words: &Draws, acts: &[Act], place: usize) -> Act
    requires place { place < length acts.now }
    requires few { length acts.now < 2 ^ 31 }
    ensures { map (moved_act range end words.now) (enumerate_from 0 (take (place + 1) acts.now))
        ≡ map (moved_act range end words.now) (enumerate_from 0 (take place acts.now)) ++ result ∷ [] }
{
    moved_act(range, end, words, place, act_at(acts, place))
}

/// All activities of a plan, with their planned ends moved.
#[tactic(auto, unfolding(crate::specs::Acts::moved_acts))]
fn moved_acts(
    alloc: Global,
    range: u32,
    end: u32,
    words: &Draws,
    acts: &[Act],
) -> Result<Vec<Act>, AllocError>
    requires { length acts.now < 2 ^ 31 }
    ensures { IfOk result (λ moved. moved.items ≡ moved_acts range end words.now acts.now) }
{
    let mut moved = Vec::new(alloc);
    for place in 0..acts.len() {
        moved.push(moved_at(range, end, words, acts, place))?;
    }
    Ok(moved)
}

/// A copy of a plan whose activities end up to `range` seconds earlier or later, each by its own word: not before 0, and not after the
/// end of the day.
#[tactic(auto, using(crate::proofs::Moved::moved_are_acts, crate::proofs::Moved::moved_count))]
pub fn mutate_times(
    alloc: Global,
    plan: &Plan,
    range: u32,
    end: u32,
    words: &Draws,
) -> Result<Plan, AllocError>
    requires { end ≤ LAST_SECOND }
    ensures { IfOk result (λ new. plan_rows new ≡ mutated_plan range end words.now (plan_rows plan.now)) }
{
    let acts = moved_acts(alloc, range, end, words, &plan.acts.rows)?;
    let legs = copied_legs(alloc, &plan.legs.rows)?;
    Ok(Plan {
        acts: Acts { rows: acts },
        legs: Legs { rows: legs },
    })
}
