//! Effects, done in order up to the first that fails.

use edge_files::{
    Bytes, Effect, EffectError, EffectList, KeepFail, Keeper, KeptRow, KeptRows, MemoryOutputs,
    OutFile, perform,
};
use std::alloc::{AllocError, Global};

/// A keeper that remembers what it was last given, or refuses.
#[derive(Drop)]
struct LastKeeper {
    refuses: Option<KeepFail>,
    iteration: Option<u32>,
    count: usize,
    faults: u64,
}

impl Keeper for LastKeeper {
    ghost use Rattle.std.specs.Prelude.{None};

    ghost kept = { λ _. None };

    ghost faults = { λ k. k.faults };

    fn save(&mut self, iteration: u32, rows: &[KeptRow]) -> Result<(), KeepFail> {
        if let Some(fail) = self.refuses {
            self.faults = self.faults.saturating_add(1);
            return Err(fail);
        }
        self.iteration = Some(iteration);
        self.count = rows.len();
        Ok(())
    }

    fn last(&mut self) -> Result<Option<u32>, KeepFail> {
        Ok(self.iteration)
    }

    fn load(&mut self, _rows: &mut Vec<KeptRow>) -> Result<(), KeepFail> {
        Ok(())
    }
}

fn text(alloc: Global, piece: &[u8]) -> Result<Bytes, AllocError> {
    let rows = Vec::from_slice(alloc, piece)?;
    Ok(Bytes { rows })
}

fn write_effect(alloc: Global, file: OutFile, piece: &[u8]) -> Result<Effect, AllocError> {
    let text = text(alloc, piece)?;
    Ok(Effect::Write { file, text })
}

fn kept_row(alloc: Global) -> Result<KeptRow, AllocError> {
    let person = text(alloc, b"p1")?;
    let body = text(alloc, b"walk")?;
    Ok(KeptRow {
        person,
        plan: 0,
        chosen: true,
        score: None,
        body,
    })
}

fn save_effect(alloc: Global) -> Result<Effect, AllocError> {
    let mut rows = Vec::new(alloc);
    rows.push(kept_row(alloc)?)?;
    Ok(Effect::Save {
        iteration: 7,
        rows: KeptRows { rows },
    })
}

/// Writes two texts, and saves one plan between them.
fn three_effects(alloc: Global) -> Result<EffectList, AllocError> {
    let mut rows = Vec::new(alloc);
    rows.push(write_effect(alloc, OutFile::Events, b"one")?)?;
    rows.push(save_effect(alloc)?)?;
    rows.push(write_effect(alloc, OutFile::Report, b"two")?)?;
    Ok(EffectList { rows })
}

/// Whether just so many of the three effects were done.
fn are_done(outputs: &MemoryOutputs, keeper: &LastKeeper, done: usize) -> bool {
    let events = if done > 0 { "one" } else { "" };
    let report = if done > 2 { "two" } else { "" };
    let iteration = if done > 1 { Some(7) } else { None };
    outputs.written(OutFile::Events) == events.as_bytes()
        && outputs.written(OutFile::Report) == report.as_bytes()
        && keeper.iteration == iteration
        && keeper.count == done / 2
}

/// Whether the effects stop so after so many of them, where a call of writing or the keeper fails.
fn ends_so(
    alloc: Global,
    effects: &EffectList,
    failing: u64,
    refuses: Option<KeepFail>,
    stop: Option<EffectError>,
    done: usize,
) -> bool {
    let mut outputs = MemoryOutputs::new(alloc);
    let _ = outputs.fail_at(failing);
    let mut keeper = LastKeeper {
        refuses,
        iteration: None,
        count: 0,
        faults: 0,
    };
    let answer = perform(&mut outputs, &mut keeper, &effects.rows);
    answer.err() == stop && are_done(&outputs, &keeper, done)
}

/// The call of writing that fails or 0, what the keeper refuses with, what stops the effects, and how many of them are done.
static CASES: [(u64, Option<KeepFail>, Option<EffectError>, usize); 5] = [
    (0, None, None, 3),
    (1, None, Some(EffectError::WriteFailed), 0),
    (2, None, Some(EffectError::WriteFailed), 2),
    (0, Some(KeepFail::Failed), Some(EffectError::KeepFailed), 1),
    (0, Some(KeepFail::NoMemory), Some(EffectError::NoMemory), 1),
];

/// The first of these cases that ends otherwise, or their number.
fn first_other(alloc: Global, effects: &EffectList) -> usize {
    for (place, &(failing, refuses, stop, done)) in CASES.iter().enumerate() {
        if !ends_so(alloc, effects, failing, refuses, stop, done) {
            return place;
        }
    }
    CASES.len()
}

/// The same of the three effects; none where memory is wanting for them.
fn first_other_of_three(alloc: Global) -> usize {
    match three_effects(alloc) {
        Ok(effects) => first_other(alloc, &effects),
        Err(_) => 0,
    }
}

#[test]
fn performs_effects(rt: HostRuntime) {
    assert_eq!(rt; first_other_of_three(rt.alloc()), 5);
}
