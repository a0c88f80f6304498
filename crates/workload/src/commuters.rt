//! The persons of a grid.

ghost use Rattle.std.specs.Prelude.{◌≡◌, ◌<◌, ◌≤◌, ◌+◌, ◌^◌, length};
ghost use Rattle.draws.specs.Words.{word};
ghost use Rattle.workload.specs.Commuters.{commute_of, link_drawn, home_of, work_of, words_of, leaving, commuter};

use crate::{FIRST_LEAVING, LEAVING_SPAN};
use draws::{Draws, between};

/// How a person goes to work.
#[derive(Clone, Copy, Debug, PartialEq, Eq)]
pub enum Commute {
    Car,
    Walk,
    /// By bus, and back on foot.
    Bus,
}

/// A person: the links of his home and of his work, by the nodes that they join, the second in which he leaves home, and how he goes.
#[derive(Clone, Copy, Debug, PartialEq, Eq)]
pub struct Commuter {
    pub home: (u32, u32),
    pub work: (u32, u32),
    pub leaves: u32,
    pub commute: Commute,
}

fn commute_of(person: u32) -> Commute
    ensures { result ≡ commute_of person }
{
    match person % 10 {
        8 => Commute::Bus,
        9 => Commute::Walk,
        _ => Commute::Car,
    }
}

/// The link that a word draws.
#[tactic(auto, using(crate::proofs::Drawing::drawn))]
fn link_drawn(links: &[(u32, u32)], word: u32) -> (u32, u32)
    requires { length links.now < 2 ^ 32 }
    ensures { result ≡ link_drawn links.now word }
{
    let Some(last) = links.len().checked_sub(1) else {
        return (0, 0);
    };
    let place = between(0, last as i64, word);
    links[place as usize]
}

fn home_of(links: &[(u32, u32)], commute: Commute, word: u32) -> (u32, u32)
    requires { length links.now < 2 ^ 32 }
    ensures { result ≡ home_of links.now commute word }
{
    match commute {
        Commute::Bus => (0, 1),
        Commute::Walk => link_drawn(links, word),
        Commute::Car => link_drawn(links, word),
    }
}

fn work_of(size: u32, links: &[(u32, u32)], commute: Commute, word: u32) -> (u32, u32)
    requires size { 2 ≤ size }
    requires few { length links.now < 2 ^ 32 }
    ensures { result ≡ work_of size links.now commute word }
{
    match commute {
        Commute::Bus => (size - 2, size - 1),
        Commute::Walk => link_drawn(links, word),
        Commute::Car => link_drawn(links, word),
    }
}

/// The second in which a word lets a person leave home.
#[tactic(auto, using(crate::proofs::Drawing::drawn_from))]
fn leaving(word: u32) -> u32
    ensures second { result ≡ leaving word }
    ensures within { result < FIRST_LEAVING + LEAVING_SPAN }
{
    let first = i64::from(FIRST_LEAVING);
    between(first, first + i64::from(LEAVING_SPAN) - 1, word) as u32
}

/// A person of a grid of this size with these links.
#[tactic(auto, unfolding(crate::specs::Commuters::commuter))]
pub fn commuter_of(size: u32, links: &[(u32, u32)], seed: u64, person: u32) -> Commuter
    requires size { 2 ≤ size }
    requires few { length links.now < 2 ^ 32 }
    ensures person { result ≡ commuter size links.now seed person }
    ensures leaves { result.leaves < FIRST_LEAVING + LEAVING_SPAN }
{
    let words = Draws::of_person(seed, 0, person);
    let commute = commute_of(person);
    Commuter {
        home: home_of(links, commute, words.word(0)),
        work: work_of(size, links, commute, words.word(1)),
        leaves: leaving(words.word(2)),
        commute,
    }
}
