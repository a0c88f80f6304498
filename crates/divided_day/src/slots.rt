//! In which slots the links of a town stand that is divided among partitions.

ghost use Rattle.std.specs.Prelude.{◌≡◌, ◌<◌, ◌+◌, length, get_or, set, IfOk};
ghost use Rattle.limits.specs.declared.TheConstants.{MAX_LINKS};
ghost use Rattle.partition.specs.Owned.{owner_in};
ghost use Rattle.town.specs.Views.{setup};
ghost use Rattle.divided_day.specs.Slots.{AreSlots};

use partition::{Owner, owner_of_link};
use std::alloc::{AllocError, Global};
use town::DayInput;

/// A link takes the next slot of a partition, where so many of each are taken; answers it.
fn take_slot(partition: u32, taken: &mut Vec<u32>) -> u32
    requires there { partition < length taken.old.items }
    requires few { get_or taken.old.items partition 0 < MAX_LINKS }
    ensures slot { result ≡ get_or taken.old.items partition 0 }
    ensures taken { taken.new.items ≡ set taken.old.items partition (result + 1) }
{
    let place = partition as usize;
    let slot = taken[place];
    taken[place] = slot + 1;
    slot
}

/// The slot of each link, by the links' numbers, in the partition where it ends: how many links before it end there.
///
/// # Errors
///
/// `AllocError`: there is no memory for them.
pub(crate) fn link_slots(
    alloc: Global,
    day: &DayInput,
    owner: &Owner,
) -> Result<Vec<u32>, AllocError>
    ensures { IfOk result (λ slots. AreSlots (setup day.now) (owner_in owner.now.of_node) slots.items) }
{
    let mut taken = vec![in alloc; 0; owner.parts as usize]?;
    let mut slots = Vec::new(alloc);
    for link in 0..day.town.network.links.len() as u32 {
        let partition = owner_of_link(day, owner, link);
        slots.push(take_slot(partition, &mut taken))?;
    }
    Ok(slots)
}
