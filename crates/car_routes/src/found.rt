ghost use Rattle.std.specs.Prelude.{◌≡◌, ◌<◌, drop, length, slice_set, get_or, None};
ghost use Rattle.car_routes.specs.Wanted.{row_of};

use events::{Route, Rows};
use std::collections::VecDeque;
use std::marker::Model;

/// The routes that were found from a node, each where there is one, in the order in which they are wanted.
#[derive(Drop)]
pub struct Ways {
    pub rows: VecDeque<Option<Route>>,
}

impl Model for Ways {
    ghost use Rattle.std.specs.Prelude.{ℕ, List, Option};

    ghost Value = { List (Option (List ℕ)) };

    ghost view = { λ ways. ways.rows.items };
}

/// The routes that were found, by the nodes from which they lead.
pub type Found = Rows<Ways>;

/// Takes the next route from a node out.
pub fn take_next(found: &mut Found, from: u32) -> Option<Route>
    requires { from < length found.old }
    ensures next { result ≡ get_or (row_of found.old from) 0 None }
    ensures others { found.new ≡ slice_set found.old from (drop 1 (row_of found.old from)) }
{
    let ways = &mut found.rows[from as usize];
    match ways.rows.pop_front() {
        Some(way) => way,
        None => None,
    }
}
