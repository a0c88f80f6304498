ghost use Rattle.std.specs.Prelude.{◌≡◌, ◌==◌, map, length, position, IfOk, IfSome, ◌<◌, ◌+◌, ◌^◌, option_map};
ghost use Rattle.std.specs.List.{list_all};
ghost use Rattle.events.specs.Names.{is_name, number_of};
ghost use Rattle.records.specs.Lists.{part, parts_of, items_in, are_names, numbers_of};

use events::{Names, is_name};
use std::alloc::{AllocError, Global};

fn first_place(bytes: &[u8], separator: u8) -> Option<usize>
    ensures place { result ≡ position (λ b. b == separator) bytes.now }
    ensures within { IfSome result (λ place. (place < length bytes.now) × (place + 1 < 2 ^ 64)) }
{
    bytes.iter().position(|b| *b == separator)
}

/// The parts of the bytes between single separators, at least one.
pub fn parts_of(alloc: Global, bytes: &[u8], separator: u8) -> Result<Vec<&[u8]>, AllocError>
    ensures { IfOk result (λ parts. map (λ part. part.now) parts.items ≡ parts_of separator bytes.now) }
{
    let mut parts = Vec::new(alloc);
    let mut rest = bytes;
    while let Some(place) = first_place(rest, separator) {
        parts.push(&rest[..place])?;
        rest = rest.split_at(place + 1).1;
    }
    parts.push(rest)?;
    Ok(parts)
}

/// The items of a list in a field, which single spaces join. No bytes are no items.
#[tactic(auto, unfolding(crate::specs::Lists::items_in))]
pub fn items_in(alloc: Global, bytes: &[u8]) -> Result<Vec<&[u8]>, AllocError>
    ensures { IfOk result (λ items. map (λ item. item.now) items.items ≡ items_in bytes.now) }
{
    if bytes.is_empty() {
        return Ok(Vec::new(alloc));
    }
    parts_of(alloc, bytes, b' ')
}

/// The part or the item at a place, from 0 on, or no bytes where there are not so many.
pub fn part<'a>(parts: &[&'a [u8]], place: usize) -> &'a [u8]
    ensures { result.now ≡ part (map (λ p. p.now) parts.now) place }
{
    match parts.get(place) {
        Some(bytes) => bytes,
        None => b"",
    }
}

/// Whether each item is a name.
pub fn are_names(items: &[&[u8]]) -> bool
    ensures { result ≡ are_names (map (λ item. item.now) items.now) }
{
    let mut rest = items;
    while let [item, after @ ..] = rest {
        if !is_name(item) {
            return false;
        }
        rest = after;
    }
    true
}

/// The numbers of the items among the names, or `None` exactly where some item is none of them.
#[tactic(auto, unfolding(crate::specs::Lists::numbers_of))]
pub fn numbers_of(
    alloc: Global,
    items: &[&[u8]],
    names: &Names,
) -> Result<Option<Vec<u32>>, AllocError>
    ensures { IfOk result (λ found. option_map (λ numbers. numbers.items) found
        ≡ numbers_of (map (λ item. item.now) items.now) names.now) }
{
    let mut numbers = Vec::new(alloc);
    let mut rest = items;
    while let [item, after @ ..] = rest {
        let Some(number) = names.find(item) else {
            return Ok(None);
        };
        numbers.push(number)?;
        rest = after;
    }
    Ok(Some(numbers))
}
