//! The last hook of each second, in blocks of seconds.

ghost use Rattle.std.specs.List.{list_all};
ghost use Rattle.std.specs.Prelude.{◌≡◌, ℕ, ◌<◌, ◌≤◌, ◌/◌, true, length, get_or, is_none, None, OnOk};
ghost use Rattle.calendar.specs.{Blocks.head_at, Blocks.HasRow, Blocks.HasHead, Blocks.HasHeadIn, Blocks.HaveSameHeads};
ghost use Rattle.calendar.specs.{Blocks.HaveSameHeadsIn, declared.short_option.TheConstants.NO_NUMBER};

use crate::BLOCK_SECONDS;
use crate::short_option::{NO_NUMBER, ShortOption};
use lists::make_room;
use std::alloc::AllocError;

/// The last hook of a second of a block.
fn head_in(rows: &[ShortOption], place: usize) -> ShortOption
    ensures { result ≡ get_or rows.now place None }
{
    if place < rows.len() {
        return rows[place];
    }
    ShortOption::none()
}

/// The last hook of a second.
pub(crate) fn head_of(blocks: &[Vec<ShortOption>], second: usize) -> ShortOption
    ensures { result ≡ head_at blocks.now second }
{
    let block = second / BLOCK_SECONDS;
    if block < blocks.len() {
        return head_in(&blocks[block], second % BLOCK_SECONDS);
    }
    ShortOption::none()
}

/// The block has a row for each of its seconds.
fn fill_up(rows: &mut Vec<ShortOption>) -> Result<(), AllocError>
    ensures long { OnOk result (BLOCK_SECONDS ≤ length rows.new.items) }
    ensures same { HaveSameHeadsIn rows.old.items rows.new.items }
{
    make_room(rows, BLOCK_SECONDS)?;
    'rows: while rows.len() < BLOCK_SECONDS {
        rows.push(ShortOption::none())?;
    }
    Ok(())
}

/// There is a block of this number.
fn reach_block(blocks: &mut Vec<Vec<ShortOption>>, block: usize) -> Result<(), AllocError>
    ensures long { OnOk result (block < length blocks.new.items) }
    ensures same { HaveSameHeads blocks.old.items blocks.new.items }
{
    let alloc = *blocks.allocator();
    'reached: while blocks.len() <= block {
        blocks.push(Vec::new(alloc))?;
    }
    Ok(())
}

/// A block that is there has a row for each of its seconds.
fn fill_block(blocks: &mut Vec<Vec<ShortOption>>, second: usize) -> Result<(), AllocError>
    requires { second / BLOCK_SECONDS < length blocks.old.items }
    ensures long { OnOk result (HasRow second blocks.new.items) }
    ensures same { HaveSameHeads blocks.old.items blocks.new.items }
{
    fill_up(&mut blocks[second / BLOCK_SECONDS])?;
    Ok(())
}

/// The table has a row for this second.
pub(crate) fn reach(blocks: &mut Vec<Vec<ShortOption>>, second: usize) -> Result<(), AllocError>
    ensures long { OnOk result (HasRow second blocks.new.items) }
    ensures same { HaveSameHeads blocks.old.items blocks.new.items }
{
    reach_block(blocks, second / BLOCK_SECONDS)?;
    fill_block(blocks, second)?;
    Ok(())
}

/// A second of a block has another last hook.
fn put_in(rows: &mut Vec<ShortOption>, place: usize, head: ShortOption)
    requires { place < length rows.old.items }
    ensures head { HasHeadIn place head rows.old.items rows.new.items }
    ensures count { length rows.new.items ≡ length rows.old.items }
{
    rows[place] = head;
}

/// A second has another last hook.
pub(crate) fn put_head(blocks: &mut Vec<Vec<ShortOption>>, second: usize, head: u32)
    requires row { HasRow second blocks.old.items }
    requires short { head < NO_NUMBER }
    ensures { HasHead second (Some head) blocks.old.items blocks.new.items }
{
    put_in(
        &mut blocks[second / BLOCK_SECONDS],
        second % BLOCK_SECONDS,
        ShortOption::some(head),
    );
}

/// Whether nobody is due in any of these seconds.
fn are_all_none(rows: &[ShortOption]) -> bool
    ensures { result ≡ list_all is_none rows.now }
{
    rows.iter().all(|row| row.get().is_none())
}

/// A block whose last second this is has no rows any more, where nobody is due in any of them.
#[tactic(auto, using(crate::proofs::Tables::none_in_any))]
fn drop_past(rows: &mut Vec<ShortOption>, place: usize)
    requires { place < length rows.old.items }
    ensures { HaveSameHeadsIn rows.old.items rows.new.items }
{
    if place + 1 < rows.len() {
        return;
    }
    if are_all_none(rows) {
        *rows = Vec::new(*rows.allocator());
    }
}

/// Nobody is due in a second of a block any more.
fn clear_in(rows: &mut Vec<ShortOption>, place: usize)
    ensures { HasHeadIn place None rows.old.items rows.new.items }
{
    if place < rows.len() {
        put_in(rows, place, ShortOption::none());
        drop_past(rows, place);
    }
}

/// Nobody is due in a second any more.
pub(crate) fn clear(blocks: &mut Vec<Vec<ShortOption>>, second: usize)
    ensures { HasHead second None blocks.old.items blocks.new.items }
{
    let block = second / BLOCK_SECONDS;
    if block < blocks.len() {
        clear_in(&mut blocks[block], second % BLOCK_SECONDS);
    }
}

/// Whether it is seen at once that nobody is due in this second of a block. It is not in the last second of one that has rows: that one is
/// to be taken, so that the rows go.
fn is_quiet_in(rows: &[ShortOption], place: usize) -> bool
    ensures { result ≡ true → get_or rows.now place None ≡ None }
{
    if place < rows.len() {
        return place + 1 < rows.len() && rows[place].get().is_none();
    }
    true
}

/// Whether it is seen at once that nobody is due in a second.
pub(crate) fn is_quiet_at(blocks: &[Vec<ShortOption>], second: usize) -> bool
    ensures { result ≡ true → head_at blocks.now second ≡ None }
{
    let block = second / BLOCK_SECONDS;
    if block < blocks.len() {
        return is_quiet_in(&blocks[block], second % BLOCK_SECONDS);
    }
    true
}
