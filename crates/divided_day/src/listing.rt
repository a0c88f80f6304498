//! Which links end, and which begin, in each of the partitions of a town.

ghost use Rattle.std.specs.Prelude.{◌≡◌, ◌<◌, ◌++◌, ℕ, [], ◌∷◌, length, get_or, set, replicate, OnOk, IfOk};
ghost use Rattle.law_partitions.specs.Alone.{my_links};
ghost use Rattle.partition.specs.Owned.{owner_in};
ghost use Rattle.town.specs.Views.{setup};
ghost use Rattle.divided_day.specs.Slots.{my_starts};

use events::Rows;
use partition::{Owner, owner_of_link, owner_of_node};
use person_moves::link_row;
use std::alloc::{AllocError, Global};
use town::DayInput;

/// Numbers of links, ascending.
pub type NumberList = Rows<u32>;

/// A list for each of so many partitions, with no link in it.
fn empty_lists(alloc: Global, parts: u32) -> Result<Vec<NumberList>, AllocError>
    ensures { IfOk result (λ lists. lists.items ≡ replicate parts []) }
{
    let mut lists = Vec::new(alloc);
    for _partition in 0..parts {
        lists.push(NumberList {
            rows: Vec::new(alloc),
        })?;
    }
    Ok(lists)
}

/// A link comes to the end of a partition's list.
fn add(lists: &mut Vec<NumberList>, partition: u32, link: u32) -> Result<(), AllocError>
    requires { partition < length lists.old.items }
    ensures { OnOk result (lists.new.items ≡ set lists.old.items partition (get_or lists.old.items partition [] ++ link ∷ [])) }
{
    let list = &mut lists[partition as usize];
    list.rows.push(link)?;
    Ok(())
}

/// The links that end in each partition, by the partitions' numbers.
///
/// # Errors
///
/// `AllocError`: there is no memory for a number for each link.
pub(crate) fn links_that_end(
    alloc: Global,
    day: &DayInput,
    owner: &Owner,
) -> Result<Vec<NumberList>, AllocError>
    ensures { IfOk result (λ lists. (p : ℕ) → get_or lists.items p [] ≡ my_links (setup day.now) (owner_in owner.now.of_node) p) }
{
    let mut lists = empty_lists(alloc, owner.parts)?;
    for link in 0..day.town.network.links.len() as u32 {
        let partition = owner_of_link(day, owner, link);
        add(&mut lists, partition, link)?;
    }
    Ok(lists)
}

/// The links that begin in each partition, by the partitions' numbers.
///
/// # Errors
///
/// `AllocError`: there is no memory for a number for each link.
pub(crate) fn links_that_begin(
    alloc: Global,
    day: &DayInput,
    owner: &Owner,
) -> Result<Vec<NumberList>, AllocError>
    ensures { IfOk result (λ lists. (p : ℕ) → get_or lists.items p [] ≡ my_starts (setup day.now) (owner_in owner.now.of_node) p) }
{
    let mut lists = empty_lists(alloc, owner.parts)?;
    for link in 0..day.town.network.links.len() as u32 {
        let row = link_row(day, link);
        let partition = owner_of_node(&owner.of_node, row.from);
        add(&mut lists, partition, link)?;
    }
    Ok(lists)
}

/// The numbers in a partition's list, by a table that has one for each partition by number; a number that the table does not have has none.
pub fn numbers_at(lists: &[NumberList], partition: u32) -> &[u32]
    ensures { result.now ≡ get_or lists.now partition [] }
{
    let place = partition as usize;
    if place >= lists.len() {
        return &[];
    }
    let list = &lists[place];
    &list.rows
}
