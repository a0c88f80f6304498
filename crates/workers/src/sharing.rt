//! Which worker gets which partitions.

ghost use Rattle.std.specs.Prelude.{◌≡◌, ◌≢◌, ℕ, ◌<◌, ◌≤◌, length, slice_index_or, IfSome, IfNone, IfOk};
ghost use Rattle.std.specs.Prelude.{IsPermutation};
ghost use Rattle.workers.specs.{Members.number_of, Sharing.HasOne, Sharing.ArePartsOf};

use crate::members::Member;
use std::alloc::{AllocError, Global};
use std::cmp::Reverse;
use step_core::Part;

/// What a table by numbers has for a partition; 0 where it has nothing for it.
fn number_at(table: &[usize], number: u32) -> usize {
    let place = number as usize;
    if place < table.len() {
        return table[place];
    }
    0
}

/// The worker that gets the partition at a place among all, from the heaviest on: the workers are gone through to and fro.
fn worker_at(place: usize, workers: usize) -> usize
    requires { 1 ≤ workers }
    ensures { result < workers }
{
    let turn = place % workers;
    if (place / workers) % 2 == 0 {
        turn
    } else {
        workers - 1 - turn
    }
}

/// The worker of each of so many partitions, by number.
fn workers_of(
    alloc: Global,
    count: u32,
    workers: u32,
    loads: &[usize],
) -> Result<Vec<usize>, AllocError>
    requires { 1 ≤ workers }
{
    let mut heaviest = Vec::with_capacity(alloc, count as usize)?;
    for number in 0..count {
        heaviest.push(number)?;
    }
    heaviest.sort_unstable_by_key(|number| Reverse(number_at(loads, *number)));
    let mut of_partition = vec![in alloc; 0; count as usize]?;
    for (place, number) in heaviest.iter().enumerate() {
        let partition = *number as usize;
        if partition < of_partition.len() {
            of_partition[partition] = worker_at(place, workers as usize);
        }
    }
    Ok(of_partition)
}

/// Puts the members into an order in which those of one worker follow one another: the partitions go to the workers from the heaviest on,
/// to and fro, so that all workers have about as much to do. Which loads are told decides nothing but that order.
///
/// # Errors
///
/// `AllocError`: there is no memory for two numbers for each partition.
pub(crate) fn share_out<T: Part>(
    alloc: Global,
    mut members: Vec<Member<T>>,
    count: u32,
    workers: u32,
    loads: &[usize],
) -> Result<Vec<Member<T>>, AllocError>
where
    T::Parcel: Send,
    requires { 1 ≤ workers }
    ensures { IfOk result (λ shared. IsPermutation members.items shared.items) }
{
    let of_partition = workers_of(alloc, count, workers, loads)?;
    members.sort_unstable_by_key(|member| number_at(&of_partition, member.number()));
    Ok(members)
}

/// The place of the member of a partition.
fn place_of<T: Part>(members: &[Member<T>], number: u32) -> Option<usize>
where
    T::Parcel: Send,
    ensures found { IfSome result (λ k. (k < length members.now) × ((d : _) → number_of (slice_index_or members.now k d) ≡ number)) }
    ensures none { IfNone result ((i : ℕ) (d : _) → i < length members.now → number_of (slice_index_or members.now i d) ≢ number) }
{
    for k in 0..members.len() {
        if members[k].number() == number {
            return Some(k);
        }
    }
    None
}

/// The partitions of the members, by number.
///
/// # Errors
///
/// `AllocError`: there is no memory for their list.
pub(crate) fn parts_of<T: Part>(
    alloc: Global,
    mut members: Vec<Member<T>>,
    count: u32,
) -> Result<Vec<T>, AllocError>
where
    T::Parcel: Send,
    requires { (p : ℕ) → p < count → HasOne p members.items }
    ensures { IfOk result (λ parts. ArePartsOf members.items count parts.items) }
{
    let mut parts = Vec::with_capacity(alloc, count as usize)?;
    for number in 0..count {
        match place_of(members.as_slice(), number) {
            Some(place) => {
                let Member {
                    part,
                    port: _port,
                    stopped: _stopped,
                } = members.swap_remove(place);
                parts.push(part)?;
            }
            None => unreachable!(),
        }
    }
    Ok(parts)
}
