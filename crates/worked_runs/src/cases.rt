//! The files of short days, and how the program ends on them.

use edge_files::{
    Gate, InFile, Inputs, Keeper, MemoryInputs, MemoryOutputs, NoKeeper, OpenGate, OutFile,
};
pub(crate) use qsim_top::Status;
use qsim_top::qsim;
use std::alloc::{AllocError, Global};
use std::sync::Wait;
use std::thread::Threads;

/// The texts of the files of a scenario; that of plans.csv is its rows.
#[derive(Drop)]
pub(crate) struct Case {
    /// settings.json.
    pub(crate) settings: &'static str,
    /// nodes.csv, and so on.
    pub(crate) nodes: &'static str,
    pub(crate) links: &'static str,
    pub(crate) plans: &'static str,
    pub(crate) stops: &'static str,
    pub(crate) routes: &'static str,
    pub(crate) departures: &'static str,
    pub(crate) signals: &'static str,
}

const PLANS: &str = "person,plan,kind,name,link,time,route\n";

/// Four nodes.
const NODES: &str = "node,x,y\nA,0,0\nB,0,0\nC,0,0\nD,0,0\n";

/// Four nodes at places of their own, so that each of four partitions has one.
pub(crate) const APART: &str = "node,x,y\nA,0,0\nB,100,0\nC,200,0\nD,300,0\n";

/// Three links in a line between them, of ten seconds each, through which a vehicle passes in each second.
const LINKS: &str = "link,from,to,length,speed,capacity,lanes\n\
    L1,A,B,10000,1000,3600,1\nL2,B,C,10000,1000,3600,1\nL3,C,D,10000,1000,3600,1\n";

/// A stop on the first link and one on the last.
const STOPS: &str = "stop,link\ns1,L1\ns3,L3\n";

/// A line along the links that waits at the first stop.
const ROUTES: &str = "line,route,links,stops\nb,r1,L1 L2 L3,s1:20:wait s3:60\n";

/// A vehicle of that line, of one seat.
const DEPARTURES: &str = "departure,route,second,seats\nd1,r1,200,1\n";

/// The line of links, and nobody.
pub(crate) const LINE: Case = Case {
    settings: "",
    nodes: NODES,
    links: LINKS,
    plans: "",
    stops: "",
    routes: "",
    departures: "",
    signals: "",
};

/// A person at home until 100, a walk of 50 s, and work.
pub(crate) const WALK: Case = Case {
    plans: "p1,0,act,home,L1,100,\np1,0,leg,walk,,50,\np1,0,act,work,L2,,\n",
    ..LINE
};

/// A person at home until 100, who drives to work on the next link.
pub(crate) const DRIVE: Case = Case {
    plans: "p1,0,act,home,L1,100,\np1,0,leg,car,,,L1 L2\np1,0,act,work,L2,,\n",
    ..LINE
};

/// Two persons at home until 100 who want a bus of one seat, which leaves not before 220.
pub(crate) const BUS: Case = Case {
    settings: "{\"dwell_open\":4,\"dwell_alight\":1,\"dwell_board\":2}",
    plans: "p1,0,act,home,L1,100,\np1,0,leg,pt,,,b s1 s3\np1,0,act,work,L3,,\n\
        p2,0,act,home,L1,100,\np2,0,leg,pt,,,b s1 s3\np2,0,act,work,L3,,\n",
    stops: STOPS,
    routes: ROUTES,
    departures: DEPARTURES,
    ..LINE
};

fn joined(alloc: Global, rows: &str) -> Result<String, AllocError> {
    let mut plans = String::from_str(alloc, PLANS)?;
    plans.push_str(rows)?;
    Ok(plans)
}

/// The text of plans.csv; of no bytes where memory is wanting.
fn plans_of(alloc: Global, rows: &str) -> String {
    match joined(alloc, rows) {
        Ok(plans) => plans,
        Err(_) => String::new(alloc),
    }
}

/// Puts a text into a file, which is empty where memory is wanting.
fn put(inputs: &mut MemoryInputs, file: InFile, text: &str) {
    let _ = inputs.put(file, text.as_bytes());
}

fn put_plans(alloc: Global, inputs: &mut MemoryInputs, rows: &str) {
    let plans = plans_of(alloc, rows);
    put(inputs, InFile::Plans, plans.as_str());
}

/// The files of a case.
pub(crate) fn inputs_of(alloc: Global, case: &Case) -> MemoryInputs {
    let mut inputs = MemoryInputs::new(alloc);
    put(&mut inputs, InFile::Settings, case.settings);
    put(&mut inputs, InFile::Nodes, case.nodes);
    put(&mut inputs, InFile::Links, case.links);
    put_plans(alloc, &mut inputs, case.plans);
    put(&mut inputs, InFile::Stops, case.stops);
    put(&mut inputs, InFile::Routes, case.routes);
    put(&mut inputs, InFile::Departures, case.departures);
    put(&mut inputs, InFile::Signals, case.signals);
    inputs
}

fn copied(alloc: Global, texts: &[&str]) -> Result<Vec<String>, AllocError> {
    let mut words = Vec::new(alloc);
    for text in texts {
        words.push(String::from_str(alloc, text)?)?;
    }
    Ok(words)
}

/// Words; none where memory is wanting.
pub(crate) fn words_of(alloc: Global, texts: &[&str]) -> Vec<String> {
    match copied(alloc, texts) {
        Ok(words) => words,
        Err(_) => Vec::new(alloc),
    }
}

/// How the program ends with these words over inputs, outputs and a keeper.
pub(crate) fn status_with<R: Threads + Wait + Sync, I: Inputs, K: Keeper>(
    rt: &R,
    alloc: Global,
    texts: &[&str],
    inputs: &mut I,
    outputs: &mut MemoryOutputs,
    keeper: &mut K,
) -> Status {
    let words = words_of(alloc, texts);
    let gate = OpenGate::new();
    qsim(rt, alloc, &words, inputs, outputs, keeper, &gate)
}

/// The same through a gate, over a keeper that keeps nothing.
pub(crate) fn status_through<R: Threads + Wait + Sync, I: Inputs, G: Gate>(
    rt: &R,
    alloc: Global,
    texts: &[&str],
    inputs: &mut I,
    outputs: &mut MemoryOutputs,
    gate: &G,
) -> Status {
    let words = words_of(alloc, texts);
    let mut keeper = NoKeeper::new();
    qsim(rt, alloc, &words, inputs, outputs, &mut keeper, gate)
}

/// The same over a keeper that keeps nothing, through a gate that is open.
pub(crate) fn status_of<R: Threads + Wait + Sync, I: Inputs>(
    rt: &R,
    alloc: Global,
    texts: &[&str],
    inputs: &mut I,
    outputs: &mut MemoryOutputs,
) -> Status {
    let mut keeper = NoKeeper::new();
    status_with(rt, alloc, texts, inputs, outputs, &mut keeper)
}

/// Whether just this was written to a file.
pub(crate) fn is_written(outputs: &MemoryOutputs, file: OutFile, text: &str) -> bool {
    outputs.written(file) == text.as_bytes()
}

/// Whether both have written the same.
pub(crate) fn are_same(one: &MemoryOutputs, other: &MemoryOutputs) -> bool {
    one.written(OutFile::Events) == other.written(OutFile::Events)
        && one.written(OutFile::Scores) == other.written(OutFile::Scores)
        && one.written(OutFile::Plans) == other.written(OutFile::Plans)
        && one.written(OutFile::Report) == other.written(OutFile::Report)
}

/// Whether both are there, and have written the same.
pub(crate) fn have_same(one: &Option<MemoryOutputs>, other: &Option<MemoryOutputs>) -> bool {
    match (one, other) {
        (Some(one), Some(other)) => are_same(one, other),
        _ => false,
    }
}
