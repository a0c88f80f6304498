//! What lies between a partition and its neighbours.

ghost use Rattle.std.specs.Prelude.{◌≡◌, ℕ, ◌<◌, ◌≤◌, false, length, set, replicate, IfOk, OnOk, IfNone, IfSome};
ghost use Rattle.limits.specs.declared.TheConstants.{MAX_PARTITIONS};
ghost use Rattle.step_core.specs.Views.{IsNextPlace};
ghost use Rattle.part_seconds.specs.{Parcels.nothing, Parcels.HasNothing, Sending.parcel_at, Sending.with_item};

use crate::contents::{Parcel, ParcelItem};
use number_sets::NumberSet;
use std::alloc::{AllocError, Global};
use std::marker::Model;
use std::mem::replace;

/// A parcel for each neighbour, in order. Most lie there with nothing in them for most of the day, and those that may have something in
/// them are found without a look at the others. Contracts see a mailbox as the list of what is in its parcels.
#[derive(Drop)]
pub struct Mailbox {
    parcels: Vec<Parcel>,
    /// The places in whose parcels something may be.
    noted: NumberSet,
}

impl Model for Mailbox {
    ghost use Rattle.std.specs.Prelude.{List};
    ghost use Rattle.part_seconds.specs.{Parcels.IsNoted, declared.contents.Contents.Contents};

    ghost Value = { List Contents };

    ghost view = { λ m. m.parcels.items };

    ghost invariant = { λ m. IsNoted m.noted m.parcels.items };
}

/// So many parcels with nothing in them.
fn empty_parcels(alloc: Global, count: usize) -> Result<Vec<Parcel>, AllocError>
    ensures { IfOk result (λ parcels. parcels.items ≡ replicate count nothing) }
{
    let mut parcels = Vec::with_capacity(alloc, count)?;
    for _place in 0..count {
        parcels.push(Parcel::new())?;
    }
    Ok(parcels)
}

impl Mailbox {
    /// A mailbox for so many neighbours, with nothing in any parcel.
    ///
    /// # Errors
    ///
    /// `AllocError`: there is no memory for it.
    pub fn new(alloc: Global, count: usize) -> Result<Mailbox, AllocError>
        requires few { count ≤ MAX_PARTITIONS }
        ensures { IfOk result (λ mailbox. mailbox ≡ replicate count nothing) }
    {
        let parcels = empty_parcels(alloc, count)?;
        Ok(Mailbox {
            parcels,
            noted: NumberSet::new(),
        })
    }

    /// How many neighbours it is for.
    pub fn len(&self) -> usize
        ensures { result ≡ length self.now }
    {
        self.parcels.len()
    }

    /// Whether something may be in one of its parcels.
    pub fn has_some(&self) -> bool
        ensures { result ≡ false → HasNothing self.now }
    {
        !self.noted.is_empty()
    }

    /// The first place from this one on in whose parcel something may be.
    pub fn next(&self, from: usize) -> Option<usize>
        ensures none { IfNone result ((k : ℕ) → from ≤ k → parcel_at self.now k ≡ nothing) }
        ensures some { IfSome result (IsNextPlace nothing self.now from) }
    {
        if from >= self.parcels.len() {
            return None;
        }
        match self.noted.next(from as u32) {
            Some(place) => Some(place as usize),
            None => None,
        }
    }

    /// Its parcels, in order.
    pub fn parcels(&self) -> &[Parcel]
        ensures { result.now ≡ self.now }
    {
        &self.parcels
    }

    /// Lays a parcel into the place of a neighbour.
    pub fn put(&mut self, place: usize, parcel: Parcel)
        requires { place < length self.old }
        ensures { self.new ≡ set self.old place parcel }
    {
        self.noted.insert(place as u32);
        self.parcels[place] = parcel;
    }

    /// Takes the parcel of a neighbour.
    pub fn take(&mut self, place: usize) -> Parcel
        requires { place < length self.old }
        ensures parcel { result ≡ parcel_at self.old place }
        ensures rest { self.new ≡ set self.old place nothing }
    {
        self.noted.remove(place as u32);
        replace(&mut self.parcels[place], Parcel::new())
    }

    /// One thing more goes to a neighbour.
    pub(crate) fn add(
        &mut self,
        alloc: Global,
        place: usize,
        item: ParcelItem,
    ) -> Result<(), AllocError>
        requires { place < length self.old }
        ensures { OnOk result (self.new ≡ set self.old place (with_item item (parcel_at self.old place))) }
    {
        self.noted.insert(place as u32);
        self.parcels[place].add(alloc, item)?;
        Ok(())
    }
}
