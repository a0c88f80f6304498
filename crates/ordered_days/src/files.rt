//! Towns out of the texts of their files.

use edge_files::InFile;
use std::alloc::Global;
use std::thread::Threads;
use town_fixtures::{Fixture, fixture_of};

/// The texts of the files of a town.
#[derive(Drop)]
pub(crate) struct Files {
    /// settings.json.
    pub(crate) settings: &'static str,
    /// nodes.csv, and so on.
    pub(crate) nodes: &'static str,
    pub(crate) links: &'static str,
    pub(crate) plans: &'static str,
    pub(crate) stops: &'static str,
    pub(crate) routes: &'static str,
    pub(crate) departures: &'static str,
}

/// Four nodes from the left to the right, links of ten seconds from each to the next, and nobody.
pub(crate) const LINE: Files = Files {
    settings: "",
    nodes: "node,x,y\nA,0,0\nB,100,0\nC,200,0\nD,300,0\n",
    links: "link,from,to,length,speed,capacity,lanes\n\
        L1,A,B,10000,1000,3600,1\nL2,B,C,10000,1000,3600,1\nL3,C,D,10000,1000,3600,1\n",
    plans: "",
    stops: "",
    routes: "",
    departures: "",
};

/// A walk of one second from the second node to the last.
pub(crate) const WALK: Files = Files {
    settings: "{\"end_second\":110}",
    plans: "person,plan,kind,name,link,time,route\n\
        p1,0,act,home,L1,100,\np1,0,leg,walk,,1,\np1,0,act,work,L3,,\n",
    ..LINE
};

pub(crate) static ONE_WALK: Files = WALK;

/// The town of these files and the plans of its persons, where they have no fault.
pub(crate) fn town_of<R: Threads + Sync>(rt: &R, alloc: Global, files: &Files) -> Option<Fixture> {
    let texts = [
        (InFile::Settings, files.settings),
        (InFile::Nodes, files.nodes),
        (InFile::Links, files.links),
        (InFile::Plans, files.plans),
        (InFile::Stops, files.stops),
        (InFile::Routes, files.routes),
        (InFile::Departures, files.departures),
    ];
    fixture_of(rt, alloc, &texts)
}
