ghost use Rattle.std.specs.{List.list_all, Prelude.◌≡◌, Prelude.◌≤◌, Prelude.ℕ, Prelude.length, Prelude.map, Prelude.true};
ghost use Rattle.std.specs.{Prelude.IfOk};
ghost use Rattle.limits.specs.declared.TheConstants.{MAX_IN_LINKS, MAX_LINKS, MAX_NODES};
ghost use Rattle.records.specs.Files.{body_of};
ghost use Rattle.rows.specs.{Joined.ends_of, Networks.is_link, Networks.in_links};
ghost use Rattle.network.specs.{Links.links_fault, Links.link_names, Links.link_of, Nodes.nodes_fault, Nodes.node_names, Nodes.node_of};
ghost use Rattle.scenario.specs.Faults.{Tells, TellsFile};
ghost use Rattle.scenario.specs.{FilesToScenario.network_fault, FilesToScenario.network_rows_of, Views.network_view, Views.texts_of};

use crate::faults::Stop;
use crate::files::Files;
use crate::reading::{bytes_of, with_file};
use edge_files::InFile;
use events::Names;
use network::{Network, read_links, read_nodes};
use rows::{LinkList, LinkRow, NodeList};
use std::alloc::{AllocError, Global};

/// The names and the nodes of nodes.csv, or its first fault.
#[tactic(auto, using(crate::proofs::Told::of_file))]
fn nodes_in(alloc: Global, files: &Files) -> Result<(Names, NodeList), Stop>
    ensures read { TellsFile (λ r. r) result (texts_of files.now) InFile.Nodes nodes_fault
        (λ bytes. (node_names bytes, map node_of (body_of bytes))) }
    ensures each { IfOk result (λ r. length r.0 ≡ length r.1) }
    ensures few { IfOk result (λ r. length r.1 ≤ MAX_NODES) }
{
    match bytes_of(files, InFile::Nodes) {
        Ok(bytes) => with_file(InFile::Nodes, read_nodes(alloc, bytes)),
        Err(error) => Err(error),
    }
}

/// The names and the links of links.csv, between nodes of these names, or its first fault.
#[tactic(auto, using(crate::proofs::Told::of_file))]
fn links_in(alloc: Global, files: &Files, nodes: &Names) -> Result<(Names, LinkList), Stop>
    ensures read { TellsFile (λ r. r) result (texts_of files.now) InFile.Links (links_fault nodes.now)
        (λ bytes. (link_names bytes, map (link_of nodes.now) (body_of bytes))) }
    ensures each { IfOk result (λ r. length r.0 ≡ length r.1) }
    ensures few { IfOk result (λ r. length r.1 ≤ MAX_LINKS) }
    ensures few_in_links { IfOk result (λ r. (node : ℕ) → in_links r.1 node ≤ MAX_IN_LINKS) }
    ensures sound { IfOk result (λ r. list_all (is_link (length nodes.now)) r.1 ≡ true) }
{
    match bytes_of(files, InFile::Links) {
        Ok(bytes) => with_file(InFile::Links, read_links(alloc, bytes, nodes)),
        Err(error) => Err(error),
    }
}

/// The network of nodes.csv and links.csv, or their first fault.
#[tactic(auto, unfolding(crate::specs::FilesToScenario::network_fault, crate::specs::FilesToScenario::network_rows_of))]
pub fn read_network(alloc: Global, files: &Files) -> Result<Network, Stop>
    ensures { Tells network_view result (network_fault (texts_of files.now)) (network_rows_of (texts_of files.now)) }
{
    let (node_names, nodes) = match nodes_in(alloc, files) {
        Ok(read) => read,
        Err(error) => return Err(error),
    };
    match links_in(alloc, files, &node_names) {
        Ok((link_names, links)) => Ok(Network {
            node_names,
            link_names,
            nodes,
            links,
        }),
        Err(error) => {
            drop(node_names);
            drop(nodes);
            Err(error)
        }
    }
}

/// Where each link begins and where it ends.
#[tactic(auto, unfolding(rows::specs::Joined::ends_of))]
fn ends_of(alloc: Global, links: &[LinkRow]) -> Result<Vec<(u32, u32)>, AllocError>
    ensures { IfOk result (λ ends. ends.items ≡ ends_of links.now) }
{
    links.iter().map(|link| (link.from, link.to)).collect(alloc)
}

/// Where each link of a network begins and where it ends.
pub fn ends_in(alloc: Global, network: &Network) -> Result<Vec<(u32, u32)>, AllocError>
    ensures { IfOk result (λ ends. ends.items ≡ ends_of network.now.links) }
{
    ends_of(alloc, &network.links.rows)
}
