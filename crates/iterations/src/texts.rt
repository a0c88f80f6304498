ghost use Rattle.std.specs.Prelude.{◌≡◌, ◌≤◌, ◌++◌, codes, decimal, length, IfOk, All};
ghost use Rattle.limits.specs.declared.TheConstants.{MAX_PERSONS};
ghost use Rattle.scoring.specs.{Ranges.IsWithin, Score.total, declared.TheConstants.MAX_SCORE};
ghost use Rattle.plans.specs.Kinds.{plans_header};
ghost use Rattle.plan_text.specs.Lines.{row_line};
ghost use Rattle.iterations.specs.Texts.{iteration_counts, done_line};

use day_scores::sum_of;
use event_handler::EventCounts;
use std::alloc::{AllocError, Global};

/// The line with which an iteration's events begin.
pub fn events_header(alloc: Global, iteration: u32) -> Result<Vec<u8>, AllocError>
    ensures { IfOk result (λ text. text.items ≡ codes "iteration," ++ decimal iteration ++ codes "\n") }
{
    let line = format!(in alloc; "iteration,{iteration}\n")?;
    Ok(line.into_bytes())
}

/// The report of an iteration, by the number of its events and of those of persons who are stuck, and by the sum of
/// the scores in micro-utils.
#[tactic(auto, unfolding(crate::specs::Texts::iteration_counts))]
fn iteration_counts(
    alloc: Global,
    iteration: u32,
    events: u64,
    stuck: u64,
    sum: i64,
) -> Result<Vec<u8>, AllocError>
    ensures { IfOk result (λ line. line.items ≡ iteration_counts iteration events stuck sum) }
{
    let line = format!(in alloc; "iteration,{iteration},{events},{stuck},{sum}\n")?;
    Ok(line.into_bytes())
}

/// The report of an iteration, by the counts of its events and by the scores, in micro-utils.
pub fn iteration_line(
    alloc: Global,
    iteration: u32,
    counts: EventCounts,
    scores: &[i64],
) -> Result<Vec<u8>, AllocError>
    requires few { length scores.now ≤ MAX_PERSONS }
    requires within { All (IsWithin MAX_SCORE) scores.now }
    ensures { IfOk result (λ line. line.items ≡ iteration_counts iteration counts.events counts.stuck (total scores.now)) }
{
    iteration_counts(
        alloc,
        iteration,
        counts.events,
        counts.stuck,
        sum_of(scores),
    )
}

/// The end of the report.
#[tactic(auto, unfolding(crate::specs::Texts::done_line))]
pub fn done_line(alloc: Global, last: u32) -> Result<Vec<u8>, AllocError>
    ensures { IfOk result (λ line. line.items ≡ done_line last) }
{
    let line = format!(in alloc; "done,{last}\n")?;
    Ok(line.into_bytes())
}

/// The header of plans.csv, as a line.
#[tactic(auto, unfolding(plan_text::specs::Lines::row_line))]
pub fn plans_header(alloc: Global) -> Result<Vec<u8>, AllocError>
    ensures { IfOk result (λ line. line.items ≡ row_line plans_header) }
{
    let line = Vec::from_slice(alloc, b"person,plan,kind,name,link,time,route\n")?;
    Ok(line)
}
