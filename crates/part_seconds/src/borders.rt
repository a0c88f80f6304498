//! The neighbours of a partition.

ghost use Rattle.std.specs.Prelude.{◌≡◌, [], get_or};
ghost use Rattle.part_seconds.specs.Sending.{place_in};
ghost use Rattle.step_core.specs.Exchanges.{Ascend};

use step_core::{Border, BorderList};

/// The neighbours of a partition, by a table that has those of each by number; a number that the table does not have has none.
pub fn borders_at(borders: &[BorderList], partition: u32) -> &[Border]
    ensures { result.now ≡ get_or borders.now partition [] }
{
    let place = partition as usize;
    if place >= borders.len() {
        return &[];
    }
    let list = &borders[place];
    &list.rows
}

/// The place of a partition among these neighbours.
#[tactic(auto, using(crate::proofs::Places::place_of_is, crate::proofs::Places::no_place))]
pub(crate) fn place_of(borders: &[Border], partition: u32) -> Option<usize>
    requires { Ascend borders.now }
    ensures { result ≡ place_in borders.now partition }
{
    step_core::place_of(borders, partition)
}
