//! Files of generated scenarios, beside what a program of another hand wrote (bench/grid.py).

ghost use Rattle.std.specs.Prelude.{◌≤◌};

use edge_files::InFile;
use std::alloc::Global;
use workload::{Grid, file_text};

/// A file, how many bytes it has, and the sum of all bytes, each times its place from 1 on, in 32 bits.
type Written = (InFile, usize, u32);

static SIZE_3: [Written; 8] = [
    (InFile::Settings, 302, 3_516_871),
    (InFile::Nodes, 120, 360_046),
    (InFile::Links, 737, 15_032_035),
    (InFile::Plans, 5_030, 875_500_686),
    (InFile::Stops, 26, 23_234),
    (InFile::Routes, 53, 104_919),
    (InFile::Departures, 1_549, 75_333_760),
    (InFile::Signals, 0, 0),
];

static SIZE_20: [Written; 7] = [
    (InFile::Settings, 302, 3_516_871),
    (InFile::Nodes, 7_179, 1_296_205_960),
    (InFile::Links, 54_685, 4_257_298_700),
    (InFile::Plans, 258_498, 1_643_705_057),
    (InFile::Stops, 190, 1_130_499),
    (InFile::Routes, 287, 2_459_977),
    (InFile::Departures, 1_549, 75_333_760),
];

/// The first persons of the grid of size 3 with the seed 7.
static FIRST_PLANS: &str = "person,plan,kind,name,link,time,route\n\
    p0,0,act,home,l4_5,26057,\n\
    p0,0,leg,car,,,\n\
    p0,0,act,work,l8_5,54857,\n\
    p0,0,leg,car,,,\n\
    p0,0,act,home,l4_5,,\n\
    p1,0,act,home,l6_7,27918,\n";

fn digest(text: &[u8]) -> u32 {
    let mut sum: u32 = 0;
    let mut place: u32 = 1;
    for byte in text {
        sum = sum.wrapping_add(place.wrapping_mul(u32::from(*byte)));
        place = place.wrapping_add(1);
    }
    sum
}

fn grid(size: u32, last_iteration: u32) -> Grid
    requires least { 3 ≤ size }
    requires most { size ≤ 100 }
    requires last { last_iteration ≤ 1000 }
{
    Grid {
        size,
        seed: 7,
        last_iteration,
    }
}

fn writes(alloc: Global, grid: &Grid, written: Written) -> bool {
    let (file, length, sum) = written;
    let Ok(text) = file_text(alloc, grid, file) else {
        return false;
    };
    let bytes = text.as_bytes();
    bytes.len() == length && digest(bytes) == sum
}

fn begins(alloc: Global, grid: &Grid, file: InFile, front: &str) -> bool {
    let Ok(text) = file_text(alloc, grid, file) else {
        return false;
    };
    let (front, bytes) = (front.as_bytes(), text.as_bytes());
    front.len() <= bytes.len() && &bytes[..front.len()] == front
}

#[test]
fn small_grid(rt: HostRuntime) {
    let grid = grid(3, 4);
    for written in SIZE_3 {
        assert!(rt; writes(rt.alloc(), &grid, written));
    }
    assert!(rt; begins(rt.alloc(), &grid, InFile::Plans, FIRST_PLANS));
}

#[test]
fn large_grid(rt: HostRuntime) {
    let grid = grid(20, 4);
    for written in SIZE_20 {
        assert!(rt; writes(rt.alloc(), &grid, written));
    }
}
