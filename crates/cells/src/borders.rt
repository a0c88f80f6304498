// The borders of a port.
ghost use Rattle.std.specs.Prelude.{◌≡◌, ℕ, ◌<◌, ◌≤◌, length, map, IfOk, OnOk};
ghost use Rattle.cells.specs.{Ports.AreFound, Ports.AreBorders, Rule.from_of, Rule.AreSingle};

use crate::board::Handover;
use crate::table::{Border, Channel};
use std::alloc::{AllocError, Global};

/// Adds the borders of the channels from `q` to `p`.
fn find_borders_from(
    borders: &mut Vec<Border>,
    channels: &[Channel],
    p: u32,
    q: u32,
) -> Result<(), AllocError>
    requires few { length channels.now ≤ 8192 }
    requires found { AreFound channels.now p q 0 borders.old.items }
    ensures { OnOk result (AreFound channels.now p q (length channels.now) borders.new.items) }
{
    for e in 0..channels.len() {
        let channel = channels[e];
        if channel.from == q && channel.to == p {
            borders.push(Border {
                from: q,
                lag: channel.lag,
                inward: e as u32,
                outward: channel.twin,
            })?;
        }
    }
    Ok(())
}

/// The borders of `p`, by ascending neighbours.
pub(crate) fn find_borders(
    alloc: Global,
    channels: &[Channel],
    count: u32,
    p: u32,
) -> Result<Vec<Border>, AllocError>
    requires few { length channels.now ≤ 8192 }
    requires within { (e : ℕ) → e < length channels.now → from_of channels.now e < count }
    requires single { AreSingle channels.now }
    ensures { IfOk result (λ v. AreBorders channels.now p v.items) }
{
    let mut borders = Vec::new(alloc);
    for q in 0..count {
        find_borders_from(&mut borders, channels, p, q)?;
    }
    Ok(borders)
}

/// The neighbours over these borders.
pub(crate) fn neighbours_over(alloc: Global, borders: &[Border]) -> Result<Vec<u32>, AllocError>
    ensures { IfOk result (λ v. v.items ≡ map (λ r. r.from) borders.now) }
{
    borders.iter().map(|r| r.from).collect(alloc)
}

/// A handover for each border, all of them awaited.
pub(crate) fn all_awaited<P: Drop>(
    alloc: Global,
    borders: &[Border],
) -> Result<Vec<Handover<P>>, AllocError>
    ensures { IfOk result (λ v. v.items ≡ map (λ _. Handover.Awaited) borders.now) }
{
    borders.iter().map(|_| Handover::Awaited).collect(alloc)
}
