//! What holds of the routes of legs. Each law is the contract of a call that does nothing.

ghost use Rattle.std.specs.Prelude.{ℕ, ◌<◌, length, IfSome};
ghost use Rattle.walks.specs.{Arrivals.Arrivals, Arrivals.IsFifo, Walks.AreWithin};
ghost use Rattle.router.specs.{Graphs.Graph, Legs.Joins, Routes.leg_route, Routes.allowed};

/// The route of a leg, by any travel times by which nobody overtakes, leads from the one link to the other, and has no more links than a
/// leg may have.
pub fn leg_routes_join_their_links()
    ensures { (graph : Graph) (arrive : Arrivals) (second here there : ℕ) → IsFifo arrive → AreWithin graph.nodes graph.ends
        → here < length graph.ends → there < length graph.ends
        → IfSome (allowed (leg_route graph arrive second here there)) (Joins graph.ends here there) }
{}
