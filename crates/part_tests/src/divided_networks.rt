//! Networks, cut in two by x, each half by y, and so on in turn.

use limits::MAX_PARTITIONS;
use network::{read_links, read_nodes};
use partition::halve;
use rows::Network;
use std::alloc::Global;

/// Four nodes in a row.
static ROW: &str = "node,x,y\nA,0,0\nB,100,0\nC,200,0\nD,300,0\n";

/// Four nodes at the corners of a square, and two that lie where others lie.
static SQUARE: &str = "node,x,y\nA,10,10\nB,0,10\nC,10,0\nD,0,0\nE,0,10\nF,10,0\n";

/// Five nodes, from the left: C, B, E, D, A; from below: A, D, B, E, C.
static FIVE: &str = "node,x,y\nA,50,0\nB,10,30\nC,0,90\nD,40,20\nE,30,70\n";

/// A link, which plays no part.
static LINK: &str = "link,from,to,length,speed,capacity,lanes\nL1,A,B,1,1,1,1\n";

/// The network of these nodes and the link, where they have no fault.
fn network_of(alloc: Global, nodes: &str) -> Option<Network> {
    let Ok((node_names, nodes)) = read_nodes(alloc, nodes.as_bytes()) else {
        return None;
    };
    let Ok((link_names, links)) = read_links(alloc, LINK.as_bytes(), &node_names) else {
        return None;
    };
    Some(Network {
        node_names,
        link_names,
        nodes,
        links,
    })
}

/// Of how many partitions, and the partition of each node.
struct Cut {
    parts: u32,
    of_node: &'static [u32],
}

/// Partitions of equal shares, from the left to the right; of 64 the 16th, the 32nd and so on get a node.
static ROW_CUTS: [Cut; 5] = [
    Cut {
        parts: 1,
        of_node: &[0, 0, 0, 0],
    },
    Cut {
        parts: 2,
        of_node: &[0, 0, 1, 1],
    },
    Cut {
        parts: 3,
        of_node: &[0, 1, 2, 2],
    },
    Cut {
        parts: 4,
        of_node: &[0, 1, 2, 3],
    },
    Cut {
        parts: 64,
        of_node: &[15, 31, 47, 63],
    },
];

/// Nodes that lie at one place go by their numbers.
static SQUARE_CUTS: [Cut; 2] = [
    Cut {
        parts: 2,
        of_node: &[1, 0, 1, 0, 0, 1],
    },
    Cut {
        parts: 4,
        of_node: &[3, 1, 2, 0, 1, 3],
    },
];

/// Of three partitions the first gets one node, the leftmost, and each of the others two, by height. Of five each gets one. Of 64 the
/// 13th, 26th, 39th, 52nd and 64th do.
static FIVE_CUTS: [Cut; 4] = [
    Cut {
        parts: 2,
        of_node: &[1, 0, 0, 1, 1],
    },
    Cut {
        parts: 3,
        of_node: &[1, 2, 0, 1, 2],
    },
    Cut {
        parts: 5,
        of_node: &[2, 0, 1, 4, 3],
    },
    Cut {
        parts: 64,
        of_node: &[38, 12, 25, 63, 51],
    },
];

/// Whether the nodes of a network are cut so.
fn is_cut(alloc: Global, network: &Network, cut: &Cut) -> bool {
    if cut.parts == 0 || cut.parts > MAX_PARTITIONS {
        return false;
    }
    match halve(alloc, network, cut.parts) {
        Ok(owner) => { owner.parts == cut.parts && owner.of_node.rows.as_slice() == cut.of_node }
        Err(_) => false,
    }
}

/// The place of the first of these cuts that is not that of the network of these nodes; none where all are.
fn first_other(alloc: Global, nodes: &str, cuts: &[Cut]) -> Option<usize> {
    let Some(network) = network_of(alloc, nodes) else {
        return Some(0);
    };
    for place in 0..cuts.len() {
        if !is_cut(alloc, &network, &cuts[place]) {
            return Some(place);
        }
    }
    None
}

#[test]
fn nodes_are_divided(rt: HostRuntime) {
    assert_eq!(rt; first_other(rt.alloc(), ROW, &ROW_CUTS), None);
    assert_eq!(rt; first_other(rt.alloc(), SQUARE, &SQUARE_CUTS), None);
    assert_eq!(rt; first_other(rt.alloc(), FIVE, &FIVE_CUTS), None);
}
