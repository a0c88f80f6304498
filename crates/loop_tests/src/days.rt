//! Persons who replan, on a network with two ways from the first link to the last one: the numbers are from a program of another hand.

ghost use Rattle.std.specs.Prelude.{◌≡◌, ◌≤◌, length, true, IfOk, IfSome};
ghost use Rattle.learning.specs.Ranges.{AreInRange};
ghost use Rattle.replanning.specs.Persons.{is_on, all_are_on};

use events::{Route, Rows};
use learning::{Learning, StrategyWeights};
use network::{read_links, read_nodes};
use plan_memory::Memory;
use replanning::{Replanning, replan};
use router::Adjacency;
use rows::{Act, Leg, Network, Plan, PlanList};
use std::alloc::{AllocError, Global};
use std::thread::Threads;
use travel_times::LinkTimes;

static NODES: &[u8] = b"node,x,y\ns,0,0\na,0,0\nb,0,0\nc,0,0\nd,0,0\nt,0,0\n";

static LINKS: &[u8] = b"link,from,to,length,speed,capacity,lanes\n\
    l0,s,a,10000,1000,3600,1\n\
    l1,a,b,10000,1000,3600,1\n\
    l2,a,c,10000,1000,3600,1\n\
    l3,b,d,10000,1000,3600,1\n\
    l4,c,d,10000,1000,3600,1\n\
    l5,d,t,10000,1000,3600,1\n";

/// The way of the higher links, and that of the lower ones, which is the chosen one of two that arrive together.
static HIGHER_WAY: [u32; 4] = [0, 2, 4, 5];

static LOWER_WAY: [u32; 4] = [0, 1, 3, 5];

/// The seconds in which the persons 0 to 3 leave in iteration 1 of seed 4711, who left in second 1,000.
static MOVED: [u32; 4] = [0, 2_238, 2_060, 1_257];

fn network(alloc: Global) -> Option<Network>
    ensures { IfSome result (λ n. length n.links ≡ 6) }
{
    let Ok((node_names, nodes)) = read_nodes(alloc, NODES) else {
        return None;
    };
    let Ok((link_names, links)) = read_links(alloc, LINKS, &node_names) else {
        return None;
    };
    if links.len() != 6 {
        return None;
    }
    Some(Network {
        node_names,
        link_names,
        nodes,
        links,
    })
}

/// The memory of a person who drives on the higher way in second 1,000.
#[tactic(auto, unfolding(rows::specs::Plan::are_acts))]
fn memory(alloc: Global) -> Result<Memory, AllocError>
    ensures { IfOk result (λ m. is_on 6 m ≡ true) }
{
    let mut acts = Vec::new(alloc);
    acts.push(Act {
        kind: 0,
        link: 0,
        end: Some(1_000),
    })?;
    acts.push(Act {
        kind: 1,
        link: 5,
        end: None,
    })?;
    let mut legs = Vec::new(alloc);
    legs.push(Leg::Car {
        route: Route {
            rows: Vec::from_slice(alloc, &HIGHER_WAY)?,
        },
    })?;
    let mut plans = Vec::new(alloc);
    plans.push(Plan {
        acts: Rows { rows: acts },
        legs: Rows { rows: legs },
    })?;
    Ok(Memory::of_plans(PlanList { rows: plans }))
}

/// The memories of so many of them.
fn memories(alloc: Global, persons: usize) -> Result<Vec<Memory>, AllocError>
    ensures on { IfOk result (λ all. all_are_on 6 all.items ≡ true) }
    ensures count { IfOk result (λ all. length all.items ≡ persons) }
{
    let mut all = Vec::new(alloc);
    for _ in 0..persons {
        all.push(memory(alloc)?)?;
    }
    Ok(all)
}

fn learning(reroute: u64, time_mutation: u64, innovation_last: u32) -> Learning
    requires reroute { reroute ≤ 1000000 }
    requires time_mutation { time_mutation ≤ 1000000 }
    requires last { innovation_last ≤ 1000 }
    ensures { AreInRange result }
{
    Learning {
        memory_size: 5,
        weights: StrategyWeights {
            keep_last_selected: 0,
            best_score: 0,
            select_random: 0,
            select_logit: 0,
            reroute,
            time_mutation,
        },
        logit_unit: 1_000_000,
        mutation_range: 1_800,
        innovation_last,
    }
}

/// What four persons make of their memories before iteration 1.
fn replanned<R: Threads + Sync>(
    rt: &R,
    alloc: Global,
    network: &Network,
    learning: Learning,
) -> Result<Vec<Memory>, AllocError>
    requires links { length network.now.links ≡ 6 }
    requires learning { AreInRange learning }
{
    let adjacency = Adjacency::of(alloc, network)?;
    let times = LinkTimes::free(alloc, network)?;
    let replanning = Replanning {
        adjacency: &adjacency,
        times: &times,
        learning,
        seed: 4711,
        end_second: 108_000,
        iteration: 1,
    };
    replan(rt, alloc, &replanning, memories(alloc, 4)?)
}

/// Whether a memory has two plans, of which the second one is chosen, leaves in this second and goes this way.
fn has_new_plan(memory: &Memory, leaves: u32, way: &[u32]) -> bool {
    if memory.len() != 2 || memory.chosen() != 1 || memory.score(1).is_some() {
        return false;
    }
    let plan = memory.plan(1);
    let (Some(act), Some(Leg::Car { route })) = (plan.acts.rows.first(), plan.legs.rows.first())
    else {
        return false;
    };
    act.end == Some(leaves) && route.rows.as_slice() == way
}

fn have_new_plans(memories: &[Memory], leave: &[u32], way: &[u32]) -> bool {
    if memories.len() != leave.len() {
        return false;
    }
    for place in 0..leave.len() {
        if !has_new_plan(&memories[place], leave[place], way) {
            return false;
        }
    }
    true
}

fn replan_to<R: Threads + Sync>(
    rt: &R,
    alloc: Global,
    learning: Learning,
    leave: &[u32],
    way: &[u32],
) -> bool
    requires { AreInRange learning }
{
    let Some(network) = network(alloc) else {
        return false;
    };
    match replanned(rt, alloc, &network, learning) {
        Ok(memories) => have_new_plans(&memories, leave, way),
        Err(AllocError) => false,
    }
}

#[test]
fn new_routes(rt: HostRuntime) {
    assert!(rt; replan_to(&rt, rt.alloc(), learning(1, 0, 1), &[1_000; 4], &LOWER_WAY));
}

#[test]
fn new_times(rt: HostRuntime) {
    assert!(rt; replan_to(&rt, rt.alloc(), learning(0, 1, 1), &MOVED, &HIGHER_WAY));
}

/// Whether a memory has its one plan still.
fn is_as_before(memory: &Memory) -> bool {
    memory.len() == 1 && memory.chosen() == 0
}

fn stay<R: Threads + Sync>(rt: &R, alloc: Global, learning: Learning) -> bool
    requires { AreInRange learning }
{
    let Some(network) = network(alloc) else {
        return false;
    };
    match replanned(rt, alloc, &network, learning) {
        Ok(memories) => memories.iter().all(|memory| is_as_before(memory)),
        Err(AllocError) => false,
    }
}

#[test]
fn no_new_plans_after_the_last_iteration_of_innovation(rt: HostRuntime) {
    assert!(rt; stay(&rt, rt.alloc(), learning(1, 1, 0)));
}
