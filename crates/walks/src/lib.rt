//! Walks over the links of a network: the definitions of least arrivals, of labels that prove them and of the chosen route, and
//! their laws. Each law is the contract of a call that does nothing.
//!
//! Links and nodes are numbered from 0, times are in whole seconds, and when a link is left is any function of the second of
//! entry that is first in, first out.
#![tactic(auto)]

ghost use Rattle.std.specs.Prelude.{◌≡◌, ℕ, ◌<◌, List, [], ◌∷◌, length, MatchOption, IsSomeAnd, ◌≤◌, None, Some};
ghost use Rattle.std.specs.Prelude.{Option};
ghost use Rattle.walks.specs.{Alike.TakesAlike, Alike.delayed, Arrivals.Arrivals, Arrivals.IsFifo, Certificates.IsKept};
ghost use Rattle.walks.specs.{Certificates.IsCertificate, Chosen.chosen_route, Rounds.Labels, Rounds.label_at, Rounds.least_labels};
ghost use Rattle.walks.specs.Walks.{Ends, AreWithin, IsWalk, NoWalk, arrival, IsLeast};
ghost use Rattle.walks.specs.Worked.{two_ways, ten_seconds, full_minutes};

/// A certificate bounds every walk from its start: the walk ends at a labelled node, and arrives there no earlier than its label.
pub fn certificates_bound_walks()
    ensures { (nodes : ℕ) (ends : Ends) (arrive : Arrivals) (from second : ℕ) (labels : Labels) → IsFifo arrive
        → IsCertificate nodes ends arrive from second labels → (links : List ℕ) (to : ℕ) → IsWalk ends from links to
        → IsSomeAnd (label_at labels to) (λ label. label ≤ arrival arrive second links) }
{}

/// The labels after as many rounds as there are nodes are the least arrivals over all walks, however long, and a node has none
/// exactly where no walk leads to it. The start keeps its second, and the labels hold along every link.
pub fn rounds_find_the_least()
    ensures least { (nodes : ℕ) (ends : Ends) (arrive : Arrivals) (from second : ℕ) → IsFifo arrive → AreWithin nodes ends
        → from < nodes → (to : ℕ) → MatchOption (label_at (least_labels nodes ends arrive from second) to)
        (NoWalk ends from to) (IsLeast ends arrive from second to) }
    ensures start { (nodes : ℕ) (ends : Ends) (arrive : Arrivals) (from second : ℕ) → IsFifo arrive → AreWithin nodes ends
        → from < nodes → label_at (least_labels nodes ends arrive from second) from ≡ Some second }
    ensures kept { (nodes : ℕ) (ends : Ends) (arrive : Arrivals) (from second : ℕ) → IsFifo arrive → AreWithin nodes ends
        → from < nodes → (link : ℕ) → link < length ends → IsKept ends arrive (least_labels nodes ends arrive from second) link }
{}

/// The route that is followed back from a node that is reached is a walk, and it arrives in the least second.
pub fn chosen_routes_are_least()
    ensures { (nodes : ℕ) (ends : Ends) (arrive : Arrivals) (from second to at : ℕ) → IsFifo arrive → AreWithin nodes ends
        → from < nodes → label_at (least_labels nodes ends arrive from second) to ≡ Some at
        → IsWalk ends from (chosen_route nodes ends arrive (least_labels nodes ends arrive from second) from to) to
        × (arrival arrive second (chosen_route nodes ends arrive (least_labels nodes ends arrive from second) from to) ≡ at) }
{}

/// Where links take as long whenever they are entered, a search that begins in a later second finds what the one from second 0
/// finds, later by as much, and chooses the same routes.
pub fn later_searches_find_alike()
    ensures labels { (nodes : ℕ) (ends : Ends) (arrive : Arrivals) (from second : ℕ) → TakesAlike arrive
        → least_labels nodes ends arrive from second ≡ delayed second (least_labels nodes ends arrive from 0) }
    ensures routes { (nodes : ℕ) (ends : Ends) (arrive : Arrivals) (from second to : ℕ) → TakesAlike arrive
        → chosen_route nodes ends arrive (least_labels nodes ends arrive from second) from to
        ≡ chosen_route nodes ends arrive (least_labels nodes ends arrive from 0) from to }
{}

/// What the definitions give of four nodes with two ways from the first to the last, computed from them alone: the way by the
/// lesser link where both take as long, the faster one else, and nothing against the direction of the links.
pub fn worked_routes()
    ensures labels { least_labels 4 two_ways ten_seconds 0 0 ≡ Some 0 ∷ Some 10 ∷ Some 10 ∷ Some 20 ∷ [] }
    ensures tie { chosen_route 4 two_ways ten_seconds (least_labels 4 two_ways ten_seconds 0 0) 0 3 ≡ 0 ∷ 2 ∷ [] }
    ensures no_way { least_labels 4 two_ways ten_seconds 3 0 ≡ None ∷ None ∷ None ∷ Some 0 ∷ [] }
    ensures slower { least_labels 4 two_ways full_minutes 0 45 ≡ Some 45 ∷ Some 55 ∷ Some 60 ∷ Some 65 ∷ [] }
    ensures faster { least_labels 4 two_ways full_minutes 0 55 ≡ Some 55 ∷ Some 65 ∷ Some 60 ∷ Some 70 ∷ [] }
    ensures way_back { chosen_route 4 two_ways full_minutes (least_labels 4 two_ways full_minutes 0 55) 0 3 ≡ 1 ∷ 3 ∷ [] }
{}

/// The label of a node, or `None` where it has none or is not there.
pub fn label_of(labels: &[Option<u64>], node: u32) -> Option<u64>
    ensures { result ≡ label_at labels.now node }
{
    if (node as usize) < labels.len() {
        labels[node as usize]
    } else {
        None
    }
}
