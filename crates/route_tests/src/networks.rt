//! Networks and events of tests.

use events::{Event, Key, More, VehicleId, Word};
use network::{read_links, read_nodes};
use rows::Network;
use std::alloc::Global;

/// The network of two files.
pub fn network(alloc: Global, nodes: &[u8], links: &[u8]) -> Option<Network> {
    let Ok((node_names, nodes)) = read_nodes(alloc, nodes) else {
        return None;
    };
    let Ok((link_names, links)) = read_links(alloc, links, &node_names) else {
        return None;
    };
    Some(Network {
        node_names,
        link_names,
        nodes,
        links,
    })
}

/// An event of a vehicle on a link.
pub fn event(second: u32, word: Word, vehicle: VehicleId, link: u32) -> Event {
    Event {
        key: Key {
            second,
            phase: 3,
            number: 0,
            index: 0,
        },
        word,
        person: None,
        vehicle: Some(vehicle),
        link: Some(link),
        more: More::Nothing,
    }
}
