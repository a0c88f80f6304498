//! The links out of a node.

ghost use Rattle.std.specs.Prelude.{◌≡◌, ◌≤◌, ◌++◌, OnOk, IfOk, IfSome};
ghost use Rattle.limits.specs.declared.TheConstants.{MAX_LENGTH};
ghost use Rattle.traffic.specs.Nodes.{one_more};
ghost use Rattle.plain_turns.specs.OutLinks.{out_links_in, with_taken, one_taken, AreNear};

use std::alloc::{AllocError, Global};
use traffic::OutLink;

/// A link out of a node, with its number.
#[derive(Clone, Copy, Debug, PartialEq, Eq)]
pub struct OutLinkRow {
    pub link: u32,
    pub out_link: OutLink,
}

/// The out-link of a link, where it is one.
#[tactic(auto, unfolding(crate::specs::OutLinks::out_links_in))]
pub fn out_link_of(out_links: &[OutLinkRow], link: u32) -> Option<OutLink>
    requires { AreNear out_links.now }
    ensures value { result ≡ out_links_in out_links.now link }
    ensures near { IfSome result (λ e. e.seconds ≤ MAX_LENGTH) }
{
    for row in out_links {
        if row.link == link {
            return Some(row.out_link);
        }
    }
    None
}

/// The row with one place more taken. Places are counted by rows in memory: where no number counts
/// them, there is no memory for them.
fn one_taken(row: &OutLinkRow) -> Result<OutLinkRow, AllocError>
    ensures { IfOk result (λ more. more ≡ one_taken row.now) }
{
    let Some(taken) = row.out_link.taken.checked_add(1) else {
        return Err(AllocError);
    };
    Ok(OutLinkRow {
        link: row.link,
        out_link: OutLink {
            taken,
            storage: row.out_link.storage,
            seconds: row.out_link.seconds,
        },
    })
}

fn push_with_taken(
    link: u32,
    out_links: &[OutLinkRow],
    out: &mut Vec<OutLinkRow>,
) -> Result<(), AllocError>
    ensures { OnOk result (out.new.items ≡ out.old.items ++ with_taken link out_links.now) }
{
    let mut rest = out_links;
    while let [row, later @ ..] = rest {
        if row.link == link {
            out.push(one_taken(row)?)?;
            out.extend_from_slice(later)?;
            return Ok(());
        }
        out.push(*row)?;
        rest = later;
    }
    Ok(())
}

fn taken_rows(
    alloc: Global,
    link: u32,
    out_links: &[OutLinkRow],
) -> Result<Vec<OutLinkRow>, AllocError>
    ensures { IfOk result (λ after. after.items ≡ with_taken link out_links.now) }
{
    let mut after = Vec::new(alloc);
    push_with_taken(link, out_links, &mut after)?;
    Ok(after)
}

/// The out-links with one place more taken on a link.
pub fn with_taken(
    alloc: Global,
    link: u32,
    out_links: &[OutLinkRow],
) -> Result<Vec<OutLinkRow>, AllocError>
    requires { AreNear out_links.now }
    ensures out_links { IfOk result (λ after. out_links_in after.items ≡ one_more link (out_links_in out_links.now)) }
    ensures near { IfOk result (λ after. AreNear after.items) }
{
    let after = taken_rows(alloc, link, out_links)?;
    Ok(after)
}
