//! A core at the start of a run.

ghost use Rattle.std.specs.Prelude.{◌≡◌, ℕ, ◌*◌, ◌<◌, [], length, get_or, IfOk};
ghost use Rattle.limits.specs.declared.TheConstants.{MAX_PARTITIONS};
ghost use Rattle.step_core.specs.Cores.{IsCore, AllAt};
ghost use Rattle.step_core.specs.{Exchanges.neighbour_at, Exchanges.lag_at, Exchanges.AreListed, Nets.IsNet, Nets.AreBorders};
ghost use Rattle.step_core.specs.{Starts.IsEmptyWheel, Starts.AreEmptyWheels, Views.EachAt, declared.wheel.TheConstants.WHEEL};

use crate::cores::Core;
use crate::part::{Border, BorderList, Part};
use crate::wheel::{WHEEL, Wheel};
use limits::MAX_PARTITIONS;
use number_sets::NumberSet;
use std::alloc::{AllocError, Global};

/// The neighbours of each partition, by number.
///
/// # Errors
///
/// `AllocError`: there is no memory for them.
pub fn all_borders<T: Part>(alloc: Global, run: &T::Run) -> Result<Vec<BorderList>, AllocError>
    ensures count { IfOk result (λ lists. length lists.items ≡ (T.net run.now).parts) }
    ensures each { IfOk result (λ lists. (p : ℕ) → p < (T.net run.now).parts → get_or lists.items p [] ≡ T.borders run.now p) }
{
    let mut lists = Vec::new(alloc);
    for number in 0..T::count(run) {
        lists.push(T::borders(alloc, run, number)?)?;
    }
    Ok(lists)
}

/// Each partition at the start.
fn all_parts<T: Part>(alloc: Global, run: &T::Run) -> Result<Vec<T>, AllocError>
    ensures count { IfOk result (λ parts. length parts.items ≡ (T.net run.now).parts) }
    ensures each { IfOk result (λ parts. EachAt T.nothing T.see (T.stands run.now) 0 (λ p. length (T.borders run.now p))
        (T.net run.now).parts parts.items) }
{
    let mut parts = Vec::new(alloc);
    for number in 0..T::count(run) {
        parts.push(T::start(alloc, run, number)?)?;
    }
    Ok(parts)
}

/// The lags from these neighbours, by number.
fn lags_from(alloc: Global, borders: &[Border]) -> Result<Vec<u32>, AllocError>
    requires { AreListed borders.now }
    ensures count { IfOk result (λ lags. length lags.items ≡ MAX_PARTITIONS) }
    ensures each { IfOk result (λ lags. (k : ℕ) → k < length borders.now
        → get_or lags.items (neighbour_at borders.now k) 0 ≡ lag_at borders.now k) }
{
    let mut lags = vec![in alloc; 0; MAX_PARTITIONS as usize]?;
    for place in 0..borders.len() {
        let border = borders[place];
        lags[border.neighbour as usize] = border.lag;
    }
    Ok(lags)
}

/// Rows in which nothing lies.
fn empty_rows<T: Part>(alloc: Global) -> Result<Vec<T::Parcel>, AllocError>
    ensures count { IfOk result (λ parcels. length parcels.items ≡ WHEEL * MAX_PARTITIONS) }
    ensures none { IfOk result (λ parcels. (place : ℕ) → get_or parcels.items place T.nothing ≡ T.nothing) }
{
    let count = WHEEL as usize * MAX_PARTITIONS as usize;
    let mut parcels = Vec::with_capacity(alloc, count)?;
    for _place in 0..count {
        parcels.push(T::nothing())?;
    }
    Ok(parcels)
}

/// A set without a sender for each row.
fn no_notes(alloc: Global) -> Result<Vec<NumberSet>, AllocError>
    ensures count { IfOk result (λ noted. length noted.items ≡ WHEEL) }
{
    let mut noted = Vec::with_capacity(alloc, WHEEL as usize)?;
    for _row in 0..WHEEL {
        noted.push(NumberSet::new())?;
    }
    Ok(noted)
}

/// The wheel of a partition with these neighbours, in which nothing lies.
fn empty_wheel<T: Part>(alloc: Global, borders: &[Border]) -> Result<Wheel<T::Parcel>, AllocError>
    requires { AreListed borders.now }
    ensures { IfOk result (IsEmptyWheel T.nothing borders.now) }
{
    let lags = lags_from(alloc, borders)?;
    let noted = no_notes(alloc)?;
    let parcels = empty_rows::<T>(alloc)?;
    Ok(Wheel {
        lags,
        noted,
        parcels,
    })
}

/// The wheel of each partition, in which nothing lies.
fn empty_wheels<T: Part>(
    alloc: Global,
    borders: &[BorderList],
) -> Result<Vec<Wheel<T::Parcel>>, AllocError>
    requires { (p : ℕ) → p < length borders.now → AreListed (get_or borders.now p []) }
    ensures count { IfOk result (λ wheels. length wheels.items ≡ length borders.now) }
    ensures each { IfOk result (λ wheels. AreEmptyWheels T.nothing borders.now (length borders.now) wheels.items) }
{
    let mut wheels = Vec::new(alloc);
    for place in 0..borders.len() {
        let list = &borders[place];
        wheels.push(empty_wheel::<T>(alloc, &list.rows)?)?;
    }
    Ok(wheels)
}

impl<T: Part> Core<T> {
    /// The partitions of a run before their first second.
    ///
    /// # Errors
    ///
    /// `AllocError`: there is no memory for them.
    pub fn new(alloc: Global, run: &T::Run) -> Result<Core<T>, AllocError>
        requires net { IsNet (T.net run.now) }
        requires borders { (p : ℕ) → p < (T.net run.now).parts → AreBorders (T.net run.now) p (T.borders run.now p) }
        ensures core { IfOk result (λ core. IsCore T.nothing (T.net run.now) (T.borders run.now) T.see (T.stands run.now) T.spent
            (T.right run.now) core.done.items core.stopped.items core.borders.items core.parts.items core.wheels.items) }
        ensures start { IfOk result (λ core. AllAt (T.net run.now).parts 0 core.done.items core.stopped.items) }
    {
        let count = T::count(run) as usize;
        let borders = all_borders::<T>(alloc, run)?;
        let parts = all_parts::<T>(alloc, run)?;
        let wheels = empty_wheels::<T>(alloc, &borders)?;
        let done = vec![in alloc; 0; count]?;
        let stopped = vec![in alloc; false; count]?;
        Ok(Core {
            done,
            stopped,
            borders,
            parts,
            wheels,
        })
    }
}
