ghost use Rattle.std.specs.Prelude.{◌≡◌, ◌<◌, ◌++◌, length, OnOk, IfOk};
ghost use Rattle.day_scores.specs.Texts.{score_line, scores_text};

use events::Names;
use itoa::Buffer;
use std::alloc::{AllocError, Global};

/// Appends the line of a person.
#[tactic(auto, unfolding(crate::specs::Texts::score_line))]
fn push_line(
    iteration: u32,
    person: &[u8],
    plan: u32,
    score: i64,
    text: &mut Vec<u8>,
) -> Result<(), AllocError>
    ensures { OnOk result (text.new.items ≡ text.old.items ++ score_line iteration person.now plan score) }
{
    let mut number = Buffer::new();
    text.extend_from_slice(number.format(iteration).as_bytes())?;
    text.extend_from_slice(b",")?;
    text.extend_from_slice(person)?;
    text.extend_from_slice(b",")?;
    text.extend_from_slice(number.format(plan).as_bytes())?;
    text.extend_from_slice(b",")?;
    text.extend_from_slice(number.format(score).as_bytes())?;
    text.extend_from_slice(b"\n")?;
    Ok(())
}

/// The lines of scores.csv of an iteration: of each person his name, the number of his chosen plan and
/// its score in micro-utils.
pub fn scores_text(
    alloc: Global,
    iteration: u32,
    persons: &Names,
    chosen: &[u32],
    scores: &[i64],
) -> Result<Vec<u8>, AllocError>
    requires each_plan { length chosen.now ≡ length persons.now }
    requires each_score { length scores.now ≡ length persons.now }
    ensures { IfOk result (λ text. text.items ≡ scores_text iteration persons.now chosen.now scores.now) }
{
    let mut text = Vec::new(alloc);
    for person in 0..persons.len() {
        let place = person as usize;
        push_line(
            iteration,
            persons.get(person),
            chosen[place],
            scores[place],
            &mut text,
        )?;
    }
    Ok(text)
}
