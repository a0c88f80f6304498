//! Four nodes and two ways, and a slow quarter of an hour: worked out by hand from the rules.

use crate::networks::{event, network};
use events::{Event, VehicleId, Word};
use limits::LAST_SECOND;
use route_check::check;
use router::{RouteError, least};
use rows::Network;
use std::alloc::Global;
use travel_times::{LinkTimes, are_in_order, are_on_links};

static NODES: &str = "node,x,y\n\
    a,0,0\n\
    b,0,0\n\
    c,0,0\n\
    d,0,0\n";

/// Each link takes ten seconds.
static LINKS: &str = "link,from,to,length,speed,capacity,lanes\n\
    e0,a,b,10000,1000,3600,1\n\
    e1,a,c,10000,1000,3600,1\n\
    e2,b,d,10000,1000,3600,1\n\
    e3,c,d,10000,1000,3600,1\n";

/// The least arrivals from a in second 0.
static REACHED: [Option<u64>; 4] = [Some(0), Some(10), Some(10), Some(20)];

/// They are, but that d is reached a second later.
static LATE: [Option<u64>; 4] = [Some(0), Some(10), Some(10), Some(21)];

/// d has no label, though links lead there from nodes that have one.
static GONE: [Option<u64>; 4] = [Some(0), Some(10), Some(10), None];

const A: u32 = 0;

const B: u32 = 1;

const C: u32 = 2;

const D: u32 = 3;

fn four(alloc: Global) -> Option<Network> {
    network(alloc, NODES.as_bytes(), LINKS.as_bytes())
}

/// Whether the route from one node to another in second 0 has these links and arrives in this second.
fn is_route(
    alloc: Global,
    network: &Network,
    times: &LinkTimes,
    from: u32,
    to: u32,
    links: &[u32],
    arrival: u64,
) -> bool {
    if network.nodes.len() != 4 || times.len() != network.links.len() || from > D || to > D {
        return false;
    }
    let Ok(found) = least(alloc, network, times, from, to, 0) else {
        return false;
    };
    found.arrival == arrival && found.links.rows.as_slice() == links
}

/// Whether there is no route from one node to another.
fn is_none(alloc: Global, network: &Network, times: &LinkTimes, from: u32, to: u32) -> bool {
    if network.nodes.len() != 4 || times.len() != network.links.len() || from > D || to > D {
        return false;
    }
    match least(alloc, network, times, from, to, 0) {
        Err(stop) => stop == RouteError::NoRoute,
        Ok(_) => false,
    }
}

/// What the checker says of labels from a in second 0.
fn is_checked(
    network: &Network,
    times: &LinkTimes,
    to: u32,
    claimed: u64,
    labels: &[Option<u64>],
) -> bool {
    if network.nodes.len() != 4 || times.len() != network.links.len() || to > D {
        return false;
    }
    check(network, times, A, 0, to, claimed, labels)
}

/// Whether the labels that come with the route are those, and a certificate.
fn are_labels(alloc: Global, network: &Network, times: &LinkTimes) -> bool {
    if network.nodes.len() != 4 || times.len() != network.links.len() {
        return false;
    }
    let Ok(found) = least(alloc, network, times, A, D, 0) else {
        return false;
    };
    found.labels.rows.as_slice() == REACHED.as_slice()
        && is_checked(network, times, D, found.arrival, &found.labels.rows)
}

fn are_routes(alloc: Global) -> bool {
    let Some(network) = four(alloc) else {
        return false;
    };
    let Ok(times) = LinkTimes::free(alloc, &network) else {
        return false;
    };
    is_route(alloc, &network, &times, A, D, &[0, 2], 20)
        && is_route(alloc, &network, &times, A, C, &[1], 10)
        && is_route(alloc, &network, &times, B, B, &[], 0)
        && is_none(alloc, &network, &times, D, A)
        && is_none(alloc, &network, &times, B, C)
        && are_labels(alloc, &network, &times)
        && is_checked(&network, &times, D, 20, &REACHED)
        && !is_checked(&network, &times, D, 21, &REACHED)
        && !is_checked(&network, &times, D, 21, &LATE)
        && !is_checked(&network, &times, B, 10, &GONE)
}

#[test]
fn worked_routes(rt: HostRuntime) {
    assert!(rt; are_routes(rt.alloc()));
}

/// Two cars on e0 and a transit vehicle that dwells there; a car that ends on e1.
fn slow_events() -> [Event; 9] {
    let slow = VehicleId::Car(1);
    let fast = VehicleId::Car(2);
    let bus = VehicleId::Transit(1);
    let ends = VehicleId::Car(3);
    [
        event(0, Word::EnteredLink, slow, 0),
        event(1, Word::EnteredLink, bus, 0),
        event(2, Word::EnteredLink, ends, 1),
        event(3, Word::VehicleLeavesTraffic, ends, 1),
        event(9, Word::LeftLink, bus, 0),
        event(900, Word::EnteredLink, fast, 0),
        event(920, Word::LeftLink, fast, 0),
        event(1000, Word::LeftLink, slow, 0),
        event(1000, Word::LeftLink, ends, 1),
    ]
}

/// Whether the end of a link is reached in this second.
fn arrives(times: &LinkTimes, link: u32, second: u64, arrival: u64) -> bool {
    if link as usize >= times.len() || second > u64::from(LAST_SECOND) {
        return false;
    }
    times.arrive(link, second) == arrival
}

fn are_arrivals(alloc: Global) -> bool {
    let Some(network) = four(alloc) else {
        return false;
    };
    let events = slow_events();
    if !are_in_order(&events) || !are_on_links(network.links.len(), &events) {
        return false;
    }
    let Ok(times) = LinkTimes::of_events(alloc, &network, &events) else {
        return false;
    };
    arrives(&times, 0, 0, 1000)
        && arrives(&times, 0, 899, 1899)
        && arrives(&times, 0, 900, 1899)
        && arrives(&times, 0, 1000, 1899)
        && arrives(&times, 0, 1889, 1899)
        && arrives(&times, 0, 1890, 1900)
        && arrives(&times, 1, 5, 15)
        && is_route(alloc, &network, &times, A, D, &[1, 3], 20)
}

#[test]
fn worked_arrivals(rt: HostRuntime) {
    assert!(rt; are_arrivals(rt.alloc()));
}
