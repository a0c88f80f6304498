//! The pairs of neighbours of a run, as a board asks for them.

ghost use Rattle.std.specs.Prelude.{◌≡◌, ℕ, ◌+◌, ◌<◌, true, false, length, IfOk, IfSome, IfNone, OnOk};
ghost use Rattle.step_core.specs.Nets.{Net, IsNet, AreBorders, border_at};
ghost use Rattle.workers.specs.Pairs.{AreTables, ArePairsTo, ArePairsOf};

use std::alloc::{AllocError, Global};
use step_core::{Border, BorderList, Part, all_borders};

/// The lag from a partition to the one whose neighbours these are, where it is one of them.
fn lag_from(rows: &[Border], neighbour: u32) -> Option<u32>
    ensures some { IfSome result (λ lag. (k : ℕ) × (k < length rows.now)
        × ((border_at rows.now k).neighbour ≡ neighbour) × ((border_at rows.now k).lag ≡ lag)) }
    ensures none { IfNone result ((k : ℕ) → k < length rows.now → (border_at rows.now k).neighbour ≡ neighbour → ⊥) }
{
    for k in 0..rows.len() {
        if rows[k].neighbour == neighbour {
            return Some(rows[k].lag);
        }
    }
    None
}

/// The lags between two partitions, there and back, where they are neighbours.
#[tactic(auto, using(crate::proofs::Pairing::near_by, crate::proofs::Pairing::not_near))]
fn lags_between(tables: &[BorderList], p: u32, q: u32) -> Option<(u32, u32)>
    requires first { p < length tables.now }
    requires second { q < length tables.now }
    ensures some { IfSome result (λ lags. (N : Net) → AreTables N tables.now
        → (N.near p q ≡ true) × (lags.0 ≡ N.lag p q) × (lags.1 ≡ N.lag q p)) }
    ensures none { IfNone result ((N : Net) → IsNet N → AreTables N tables.now → N.near p q ≡ false) }
{
    let to_second = &tables[q as usize];
    let to_first = &tables[p as usize];
    match lag_from(to_second.rows.as_slice(), p) {
        Some(there) => match lag_from(to_first.rows.as_slice(), q) {
            Some(back) => Some((there, back)),
            None => None,
        },
        None => None,
    }
}

/// Adds the pairs whose lesser partition is `p`.
fn push_pairs_of<T: Part>(
    run: &T::Run,
    tables: &[BorderList],
    p: u32,
    pairs: &mut Vec<(u32, u32, u32, u32)>,
) -> Result<(), AllocError>
    requires net { IsNet (T.net run.now) }
    requires tables { AreTables (T.net run.now) tables.now }
    requires there { p < (T.net run.now).parts }
    requires pairs { ArePairsTo (T.net run.now) p (p + 1) pairs.old.items }
    ensures { OnOk result (ArePairsTo (T.net run.now) p (T.net run.now).parts pairs.new.items) }
{
    for q in p + 1..T::count(run) {
        match lags_between(tables, p, q) {
            Some((there, back)) => pairs.push((p, q, there, back))?,
            None => {}
        }
    }
    Ok(())
}

/// All pairs of neighbours, the lesser partition first, with the lags there and back.
///
/// # Errors
///
/// `AllocError`: there is no memory for them.
#[tactic(auto, using(crate::proofs::Pairing::none_yet, crate::proofs::Pairing::next, crate::proofs::Pairing::whole))]
pub(crate) fn pairs_of<T: Part>(
    alloc: Global,
    run: &T::Run,
) -> Result<Vec<(u32, u32, u32, u32)>, AllocError>
    requires net { IsNet (T.net run.now) }
    requires borders { (p : ℕ) → p < (T.net run.now).parts → AreBorders (T.net run.now) p (T.borders run.now p) }
    ensures { IfOk result (λ pairs. ArePairsOf (T.net run.now) pairs.items) }
{
    let tables = all_borders::<T>(alloc, run)?;
    let mut pairs = Vec::new(alloc);
    for p in 0..T::count(run) {
        push_pairs_of::<T>(run, tables.as_slice(), p, &mut pairs)?;
    }
    Ok(pairs)
}
