ghost use Rattle.std.specs.Prelude.{◌≡◌, ◌++◌, length, nat_lt, true, IfOk, OnOk, List, Option};
ghost use Rattle.std.specs.List.{list_all};
ghost use Rattle.route_report.specs.Report.{RoadMap, map_of, label_line, label_text, label_lines, route_lines};

use events::Names;
use itoa::Buffer;
use plan_text::{names_of, push_joined};
use router::Found;
use rows::Network;
use std::alloc::{AllocError, Global};

/// Appends the line of a node that is reached in a second.
#[tactic(auto, unfolding(crate::specs::Report::label_line))]
fn push_label(name: &[u8], second: u64, text: &mut Vec<u8>) -> Result<(), AllocError>
    ensures { OnOk result (text.new.items ≡ text.old.items ++ label_line name.now second) }
{
    let mut buffer = Buffer::new();
    text.extend_from_slice(b"label,")?;
    text.extend_from_slice(name)?;
    text.extend_from_slice(b",")?;
    text.extend_from_slice(buffer.format(second).as_bytes())?;
    text.extend_from_slice(b"\n")
}

/// Appends the line of a node that is reached, and nothing for another.
fn push_reached(name: &[u8], label: Option<u64>, text: &mut Vec<u8>) -> Result<(), AllocError>
    ensures { OnOk result (text.new.items ≡ text.old.items ++ label_text name.now label) }
{
    match label {
        None => Ok(()),
        Some(second) => push_label(name, second, text),
    }
}

/// Appends the lines of all nodes that are reached, by their numbers.
fn push_labels(names: &Names, labels: &[Option<u64>], text: &mut Vec<u8>) -> Result<(), AllocError>
    requires { length labels.now ≡ length names.now }
    ensures { OnOk result (text.new.items ≡ text.old.items ++ label_lines names.now labels.now) }
{
    for node in 0..names.len() {
        push_reached(names.get(node), labels[node as usize], text)?;
    }
    Ok(())
}

/// The lines of a route: the second of arrival, the links, and the label of each node that is reached.
#[tactic(auto, unfolding(crate::specs::Report::route_lines))]
pub fn route_lines(alloc: Global, network: &Network, found: &Found) -> Result<Vec<u8>, AllocError>
    requires links { list_all (λ link. nat_lt link (length network.now.link_names)) found.now.links ≡ true }
    requires labels { length found.now.labels ≡ length network.now.node_names }
    ensures { IfOk result (λ text. text.items ≡ route_lines (map_of network.now) found.now.links found.now.arrival found.now.labels) }
{
    let mut buffer = Buffer::new();
    let mut text = Vec::from_slice(alloc, b"route,")?;
    text.extend_from_slice(buffer.format(found.arrival).as_bytes())?;
    text.extend_from_slice(b"\nlinks,")?;
    let names = names_of(alloc, &network.link_names, &found.links.rows)?;
    push_joined(&names, b' ', &mut text)?;
    text.extend_from_slice(b"\n")?;
    push_labels(&network.node_names, &found.labels.rows, &mut text)?;
    Ok(text)
}
