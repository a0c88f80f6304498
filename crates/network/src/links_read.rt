ghost use Rattle.std.specs.Prelude.{◌≡◌, ◌≤◌, ◌<◌, ◌∷◌, ◌++◌, [], ℕ, length, true, IfOk, slice_index};
ghost use Rattle.std.specs.Prelude.{replicate};
ghost use Rattle.limits.specs.declared.TheConstants.{MAX_IN_LINKS};
ghost use Rattle.events.specs.Names.{is_name, with_name};
ghost use Rattle.rows.specs.Networks.{in_links};

use events::Names;
use records::add_row;
use rows::LinkRow;
use std::alloc::{AllocError, Global};

/// The links read so far, with their names and with how many of them end at each node.
#[derive(Drop)]
pub struct LinksRead {
    pub names: Names,
    pub links: Vec<LinkRow>,
    pub into: Vec<u8>,
    pub ghost counted: { (node : ℕ) → node < length into.items → slice_index into.items node ≡ in_links links.items node },
    pub ghost few: { (node : ℕ) → in_links links.items node ≤ MAX_IN_LINKS },
}

fn zeros(alloc: Global, count: u32) -> Result<Vec<u8>, AllocError>
    ensures { IfOk result (λ v. v.items ≡ replicate count 0) }
{
    vec![in alloc; 0u8; count as usize]
}

/// No link into any of the nodes.
pub fn no_links(alloc: Global, nodes: u32) -> Result<LinksRead, AllocError>
    ensures names { IfOk result (λ read. read.names ≡ []) }
    ensures links { IfOk result (λ read. read.links.items ≡ []) }
    ensures nodes { IfOk result (λ read. length read.into.items ≡ nodes) }
{
    let into = zeros(alloc, nodes)?;
    Ok(LinksRead {
        names: Names::new(alloc),
        links: Vec::new(alloc),
        into,
    })
}

/// One more link, at the end.
pub fn with_link(
    alloc: Global,
    read: LinksRead,
    name: &[u8],
    link: LinkRow,
) -> Result<LinksRead, AllocError>
    requires name { is_name name.now ≡ true }
    requires node { link.to < length read.into.items }
    requires room { in_links read.links.items link.to < MAX_IN_LINKS }
    ensures names { IfOk result (λ after. after.names ≡ with_name read.names name.now) }
    ensures links { IfOk result (λ after. after.links.items ≡ read.links.items ++ link ∷ []) }
    ensures nodes { IfOk result (λ after. length after.into.items ≡ length read.into.items) }
{
    let LinksRead {
        mut names,
        mut links,
        mut into,
    } = read;
    add_row(alloc, &mut names, &mut links, name, link)?;
    let node = link.to as usize;
    into[node] += 1;
    Ok(LinksRead { names, links, into })
}
