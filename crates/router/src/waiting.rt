//! The nodes that wait for their links to be looked along, by the seconds of their labels.

ghost use Rattle.std.specs.{BinaryHeap.heap_items, BinaryHeap.IsHeap, List.Sorted.IsPermutation};
ghost use Rattle.std.specs.Prelude.{◌≡◌, ℕ, ◌+◌, ◌%◌, ◌<◌, ◌≤◌, ◌⊎◌, [], ◌∷◌, ◌++◌, length, map, slice_set, slice_index_or};
ghost use Rattle.std.specs.Prelude.{IfOk, OnOk, OnErr, IfSome, IfNone};
ghost use Rattle.router.specs.declared.waiting.TheConstants.{RING_SECONDS};
ghost use Rattle.std.specs.declared.cmp.Reverse.{Reverse};
ghost use Rattle.router.specs.Rings.{all_of, bucket_at, entry_cmp, later_entries, IsRing, IsFirst, IsOut, NoneBefore, IsTaken};
ghost use Rattle.router.specs.declared.waiting.Entry.{Entry};

use std::alloc::{AllocError, Global};
use std::cmp::Reverse;
use std::collections::BinaryHeap;
use std::marker::Model;

/// A node that waits for its links to be looked along, by the second of its label.
#[derive(Clone, Copy, Debug, PartialEq, Eq, PartialOrd, Ord)]
pub struct Entry {
    pub second: u64,
    pub node: u32,
}

/// How many buckets there are, one for each second.
pub(crate) const RING_SECONDS: u64 = 256;

/// Entries, of which the earliest is taken first. Contracts see them as a list in some order.
///
/// An entry of a second that is less than 256 later than the ring's first one lies in the bucket of that second, by the remainder. So no
/// entries are compared where links take less than that, as most do. All others lie in a heap.
#[derive(Drop)]
pub struct Waiting {
    /// The ring's first second.
    from: u64,
    near: Vec<Vec<Entry>>,
    far: BinaryHeap<Reverse<Entry>>,
}

impl Model for Waiting {
    ghost use Rattle.std.specs.Prelude.{List};
    ghost use Rattle.router.specs.declared.waiting.Entry.{Entry};

    ghost Value = { List Entry };

    ghost use Rattle.router.specs.Waiters.{entries_of, IsWaiting};

    ghost view = { entries_of };

    ghost invariant = { IsWaiting };
}

/// The bucket of a second.
fn bucket_of(second: u64) -> usize
    ensures value { result ≡ second % RING_SECONDS }
    ensures within { result < RING_SECONDS }
{
    (second % RING_SECONDS) as usize
}

/// A ring in which nobody waits.
fn no_buckets(alloc: Global) -> Result<Vec<Vec<Entry>>, AllocError>
    ensures count { IfOk result (λ buckets. length buckets.items ≡ RING_SECONDS) }
    ensures none { IfOk result (λ buckets. all_of (map (λ bucket. bucket.items) buckets.items) ≡ []) }
{
    let mut buckets = Vec::new(alloc);
    for _ in 0..RING_SECONDS {
        buckets.push(Vec::new(alloc))?;
    }
    Ok(buckets)
}

/// One entry more in the bucket of its second.
fn put(buckets: &mut Vec<Vec<Entry>>, entry: Entry) -> Result<(), AllocError>
    requires { length buckets.old.items ≡ RING_SECONDS }
    ensures ok { OnOk result (map (λ bucket. bucket.items) buckets.new.items
        ≡ slice_set (map (λ bucket. bucket.items) buckets.old.items) (entry.second % RING_SECONDS)
        (bucket_at (map (λ bucket. bucket.items) buckets.old.items) (entry.second % RING_SECONDS) ++ entry ∷ [])) }
    ensures err { OnErr result (map (λ bucket. bucket.items) buckets.new.items ≡ map (λ bucket. bucket.items) buckets.old.items) }
{
    let bucket = &mut buckets[bucket_of(entry.second)];
    bucket.push(entry)?;
    Ok(())
}

/// The second of the last entry of a bucket.
fn last_second(bucket: &[Entry]) -> Option<u64>
    ensures some { IfSome result (λ second. (place : ℕ) × (place < length bucket.now)
        × ((d : Entry) → second ≡ (slice_index_or bucket.now place d).second)) }
    ensures none { IfNone result (length bucket.now ≡ 0) }
{
    match bucket.last() {
        None => None,
        Some(entry) => Some(entry.second),
    }
}

/// The second of the last entry of the bucket in a place.
fn second_in(buckets: &[Vec<Entry>], place: usize) -> Option<u64>
    requires { place < length buckets.now }
    ensures some { IfSome result (λ second. (k : ℕ) × (k < length (bucket_at (map (λ bucket. bucket.items) buckets.now) place))
        × ((d : Entry) → second ≡ (slice_index_or (bucket_at (map (λ bucket. bucket.items) buckets.now) place) k d).second)) }
    ensures none { IfNone result (length (bucket_at (map (λ bucket. bucket.items) buckets.now) place) ≡ 0) }
{
    last_second(&buckets[place])
}

/// The earliest second of an entry in this many buckets, from the ring's first one on.
fn first_near(buckets: &[Vec<Entry>], from: u64, count: u64) -> Option<u64>
    requires ring { IsRing from (map (λ bucket. bucket.items) buckets.now) }
    requires count { count ≤ RING_SECONDS }
    ensures some { IfSome result (λ second. IsFirst from second (map (λ bucket. bucket.items) buckets.now)) }
    ensures before { IfSome result (λ second. second < from + count) }
    ensures none { IfNone result (NoneBefore (from + count) (all_of (map (λ bucket. bucket.items) buckets.now))) }
{
    let first = from % RING_SECONDS;
    for passed in 0..count {
        let place = bucket_of(first + passed);
        if let Some(second) = second_in(buckets, place) {
            return Some(second);
        }
    }
    None
}

/// How many buckets of a ring that begins in this second come before the heap: those of seconds before its top.
fn near_count(far: &BinaryHeap<Reverse<Entry>>, from: u64) -> u64
    requires { IsHeap entry_cmp (heap_items far.now) }
    ensures few { result ≤ RING_SECONDS }
    ensures later { (second : ℕ) → from ≤ second → second < from + result → NoneBefore second (later_entries (heap_items far.now)) }
    ensures whole { heap_items far.now ≡ [] → result ≡ RING_SECONDS }
    ensures top { (result ≡ RING_SECONDS) ⊎ ((top : Reverse Entry) × (slice_index_or (heap_items far.now) 0 top ≡ top)
        × (top.0.second ≤ from + result)) }
{
    match far.peek() {
        None => RING_SECONDS,
        Some(top) => top.0.second.saturating_sub(from).min(RING_SECONDS),
    }
}

/// Takes the last entry out of the bucket of a second.
fn take_near(buckets: &mut Vec<Vec<Entry>>, second: u64) -> Option<Entry>
    requires { length buckets.old.items ≡ RING_SECONDS }
    ensures some { IfSome result (λ entry. IsOut entry (second % RING_SECONDS)
        (map (λ bucket. bucket.items) buckets.old.items) (map (λ bucket. bucket.items) buckets.new.items)) }
    ensures none { IfNone result (length (bucket_at (map (λ bucket. bucket.items) buckets.old.items) (second % RING_SECONDS)) ≡ 0) }
{
    let bucket = &mut buckets[bucket_of(second)];
    bucket.pop()
}

/// Takes the earliest entry out of the heap.
fn take_far(far: &mut BinaryHeap<Reverse<Entry>>) -> Option<Entry>
    requires { IsHeap entry_cmp (heap_items far.old) }
    ensures heap { IsHeap entry_cmp (heap_items far.new) }
    ensures some { IfSome result (λ entry. IsTaken entry (later_entries (heap_items far.old)) (later_entries (heap_items far.new))) }
    ensures top { IfSome result (λ entry. (d : Reverse Entry) → entry ≡ (slice_index_or (heap_items far.old) 0 d).0) }
    ensures none { IfNone result ((heap_items far.old ≡ []) × (heap_items far.new ≡ [])) }
{
    match far.pop() {
        None => None,
        Some(top) => Some(top.0),
    }
}

/// Empties the bucket in this place.
fn empty_bucket(buckets: &mut Vec<Vec<Entry>>, place: usize)
    requires { place < length buckets.old.items }
    ensures { map (λ bucket. bucket.items) buckets.new.items ≡ slice_set (map (λ bucket. bucket.items) buckets.old.items) place [] }
{
    let bucket = &mut buckets[place];
    bucket.clear();
}

/// Empties all buckets, which keep their memory.
fn empty(buckets: &mut Vec<Vec<Entry>>)
    ensures count { length buckets.new.items ≡ length buckets.old.items }
    ensures none { all_of (map (λ bucket. bucket.items) buckets.new.items) ≡ [] }
{
    for place in 0..buckets.len() {
        empty_bucket(buckets, place);
    }
}

impl Waiting {
    /// No entry; the ring begins in this second.
    pub fn new(alloc: Global, second: u64) -> Result<Waiting, AllocError>
        ensures { IfOk result (λ waiting. waiting ≡ []) }
    {
        let near = no_buckets(alloc)?;
        Ok(Waiting {
            from: second,
            near,
            far: BinaryHeap::new(alloc),
        })
    }

    /// Takes all entries out and keeps their memory; the ring begins in this second.
    pub fn clear(&mut self, second: u64)
        ensures { self.new ≡ [] }
    {
        empty(&mut self.near);
        self.far.clear();
        self.from = second;
    }

    /// One entry more.
    #[inline(always)]
    pub fn push(&mut self, entry: Entry) -> Result<(), AllocError>
        ensures { OnOk result (IsPermutation (entry ∷ self.old) self.new) }
    {
        if self.from <= entry.second && entry.second - self.from < RING_SECONDS {
            put(&mut self.near, entry)?;
            return Ok(());
        }
        self.far.push(Reverse(entry))?;
        Ok(())
    }

    /// Takes an entry out before which no other comes.
    pub fn pop(&mut self) -> Option<Entry>
        ensures some { IfSome result (λ entry. IsTaken entry self.old self.new) }
        ensures none { IfNone result ((self.old ≡ []) × (self.new ≡ [])) }
    {
        let count = near_count(&self.far, self.from);
        if let Some(second) = first_near(&self.near, self.from, count) {
            self.from = second;
            return take_near(&mut self.near, second);
        }
        let Some(entry) = take_far(&mut self.far) else {
            return None;
        };
        self.from = self.from.max(entry.second);
        Some(entry)
    }
}
