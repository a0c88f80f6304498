ghost use Rattle.std.specs.Prelude.{◌≡◌, map, replicate, None, IfOk};
ghost use Rattle.rows.specs.Greens.{always};
ghost use Rattle.signals.specs.Signals.{or_always};

use crate::conflict::Conflict;
use rows::{Green, GreenList, SpanList};
use std::alloc::{AllocError, Global};

/// What the rows so far give: the signal of each link that has one, and the conflicts.
#[derive(Drop)]
pub struct SignalsRead {
    pub signals: Vec<Option<Green>>,
    pub conflicts: Vec<Conflict>,
}

/// So many links without a signal.
pub fn no_signals(alloc: Global, links: u32) -> Result<Vec<Option<Green>>, AllocError>
    ensures { IfOk result (λ signals. signals.items ≡ replicate links None) }
{
    let mut signals = Vec::new(alloc);
    for _ in 0..links {
        signals.push(None)?;
    }
    Ok(signals)
}

/// A link that is always green.
fn always_green(alloc: Global) -> Result<Green, AllocError>
    ensures { IfOk result (λ green. green ≡ always) }
{
    let mut rows = Vec::new(alloc);
    rows.push((0, 1))?;
    Ok(Green {
        cycle: 1,
        offset: 0,
        spans: SpanList { rows },
    })
}

/// The signal of a link, which is always green without one.
fn or_always(alloc: Global, signal: Option<Green>) -> Result<Green, AllocError>
    ensures { IfOk result (λ green. green ≡ or_always signal) }
{
    match signal {
        Some(green) => Ok(green),
        None => always_green(alloc),
    }
}

/// The signal of each link.
pub fn greens_of(alloc: Global, signals: Vec<Option<Green>>) -> Result<GreenList, AllocError>
    ensures { IfOk result (λ greens. greens ≡ map or_always signals.items) }
{
    let mut rows = Vec::new(alloc);
    for signal in signals {
        rows.push(or_always(alloc, signal)?)?;
    }
    Ok(GreenList { rows })
}
