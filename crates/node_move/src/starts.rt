//! Where the blocks of links begin.

ghost use Rattle.std.specs.Prelude.{◌≡◌, ℕ, ◌/◌, ◌<◌, ◌==◌, if◌then◌else◌, length, get_or, OnOk, OnErr};
ghost use Rattle.node_move.specs.{Starts.entry_number, declared.TheConstants.BLOCK_LINKS};

use crate::BLOCK_LINKS;
use std::alloc::AllocError;

/// Where a block begins, 0 where that was not said.
fn start_of(starts: &[u32], block: usize) -> u32
    ensures { result ≡ get_or starts.now block 0 }
{
    if block < starts.len() {
        return starts[block];
    }
    0
}

/// The number of the block of a link.
pub(crate) fn block_of(link: u32) -> usize
    ensures { result ≡ link / BLOCK_LINKS }
{
    link as usize / BLOCK_LINKS
}

/// The number of the entry of a link, if it has one.
pub(crate) fn entry_number(starts: &[u32], link: u32) -> usize
    ensures { result ≡ entry_number starts.now link }
{
    start_of(starts, block_of(link)) as usize + link as usize % BLOCK_LINKS
}

/// It can be said of this block where it begins.
fn reach(starts: &mut Vec<u32>, block: usize) -> Result<(), AllocError>
    ensures long { OnOk result (block < length starts.new.items) }
    ensures same { (q : ℕ) → get_or starts.new.items q 0 ≡ get_or starts.old.items q 0 }
{
    'reached: while starts.len() <= block {
        starts.push(0)?;
    }
    Ok(())
}

/// A block begins here.
pub(crate) fn put_start(starts: &mut Vec<u32>, block: usize, start: u32) -> Result<(), AllocError>
    ensures ok { OnOk result ((q : ℕ) → get_or starts.new.items q 0 ≡ (if q == block then start else get_or starts.old.items q 0)) }
    ensures err { OnErr result ((q : ℕ) → get_or starts.new.items q 0 ≡ get_or starts.old.items q 0) }
{
    reach(starts, block)?;
    starts[block] = start;
    Ok(())
}
