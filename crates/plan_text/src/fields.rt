ghost use Rattle.std.specs.Prelude.{◌≡◌, ◌++◌, length, map, nat_lt, true, OnOk, IfOk};
ghost use Rattle.std.specs.List.{list_all, join_with_byte};
ghost use Rattle.events.specs.Names.{name_at};
ghost use Rattle.plan_text.specs.Lines.{row_line};

use events::Names;
use std::alloc::{AllocError, Global};

/// Appends the pieces with a separator between each two.
#[tactic(auto, using(crate::proofs::Joins::piece_more, crate::proofs::Joins::join_first))]
pub fn push_joined(pieces: &[&[u8]], separator: u8, text: &mut Vec<u8>) -> Result<(), AllocError>
    ensures { OnOk result (text.new.items ≡ text.old.items ++ join_with_byte separator (map (λ piece. piece.now) pieces.now)) }
{
    let [first, after @ ..] = pieces else {
        return Ok(());
    };
    text.extend_from_slice(first)?;
    let mut rest = after;
    while let [piece, after @ ..] = rest {
        text.push(separator)?;
        text.extend_from_slice(piece)?;
        rest = after;
    }
    Ok(())
}

/// Appends the line of a row.
#[tactic(auto, unfolding(crate::specs::Lines::row_line))]
pub fn push_row(row: &[&[u8]], text: &mut Vec<u8>) -> Result<(), AllocError>
    ensures { OnOk result (text.new.items ≡ text.old.items ++ row_line (map (λ cell. cell.now) row.now)) }
{
    push_joined(row, b',', text)?;
    text.extend_from_slice(b"\n")
}

/// The names of these numbers.
pub fn names_of<'a>(
    alloc: Global,
    names: &'a Names,
    numbers: &[u32],
) -> Result<Vec<&'a [u8]>, AllocError>
    requires { list_all (λ number. nat_lt number (length names.now)) numbers.now ≡ true }
    ensures { IfOk result (λ items. map (λ item. item.now) items.items ≡ map (name_at names.now) numbers.now) }
{
    let mut items = Vec::new(alloc);
    let mut rest = numbers;
    while let [number, after @ ..] = rest {
        items.push(names.get(*number))?;
        rest = after;
    }
    Ok(items)
}
