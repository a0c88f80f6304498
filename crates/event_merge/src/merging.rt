//! Many lists of events become one, in the order of their keys.

ghost use Rattle.std.specs.Prelude.{◌≡◌, map, vec_items, IfOk, ⊤};
ghost use Rattle.events.specs.Keys.{key_before};
ghost use Rattle.parts.specs.Merge.{Merges};
ghost use Rattle.event_merge.specs.Lists.{comes_before, CanMerge};

use events::{Event, EventList, Rows};
use itertools::{Itertools, MergePredicate};
use std::alloc::{AllocError, Global};

/// Whether the key of an event comes before that of another one: by second, then phase, then number, then index.
#[tactic(auto, unfolding(events::specs::Keys::key_before))]
fn is_before(a: &Event, b: &Event) -> bool
    ensures { result ≡ key_before a.now.key b.now.key }
{
    if a.key.second != b.key.second {
        return a.key.second < b.key.second;
    }
    if a.key.phase != b.key.phase {
        return a.key.phase < b.key.phase;
    }
    if a.key.number != b.key.number {
        return a.key.number < b.key.number;
    }
    a.key.index < b.key.index
}

/// The order of events, by their keys.
#[derive(Clone, Copy, Debug)]
struct ByKey;

impl MergePredicate<Event> for ByKey {
    ghost can_test = { λ _. ⊤ };

    ghost computes = { λ _ first. first ≡ comes_before };

    fn is_first(&mut self, left: &Event, right: &Event) -> bool {
        is_before(left, right)
    }
}

/// The events of each list.
fn rows_of(alloc: Global, lists: Vec<EventList>) -> Result<Vec<Vec<Event>>, AllocError>
    ensures { IfOk result (λ all. map vec_items all.items ≡ lists.items) }
{
    let mut all = Vec::new(alloc);
    for list in lists {
        let Rows { rows } = list;
        all.push(rows)?;
    }
    Ok(all)
}

/// The one list of all events of these lists, in the order of their keys. Each event is moved once, and is compared as often as the
/// logarithm of the number of lists says.
///
/// # Errors
///
/// `AllocError`: there is no memory for the list.
pub fn merge(alloc: Global, lists: Vec<EventList>) -> Result<Vec<Event>, AllocError>
    requires { CanMerge lists.items }
    ensures { IfOk result (λ merged. Merges lists.items merged.items) }
{
    let lists = rows_of(alloc, lists)?;
    let merge = lists.into_iter().kmerge_by(alloc, ByKey)?;
    let merged = merge.collect(alloc)?;
    Ok(merged)
}
