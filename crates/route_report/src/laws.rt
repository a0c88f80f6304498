//! What the report of a route proves. Each law is the contract of a call that does nothing.

ghost use Rattle.std.specs.Prelude.{◌≡◌, ◌↔◌, ℕ, List, length, None, Some};
ghost use Rattle.rows.specs.Joined.{ends_of};
ghost use Rattle.walks.specs.Walks.{AreWithin};
ghost use Rattle.route_report.specs.{Report.RoadMap, Report.route_text, Reported.NoWay, Reported.IsReport};

/// There is no report exactly where no walk joins nodes of the two names; and a report tells a route than which no walk arrives earlier,
/// and the least arrivals at all nodes.
pub fn reports_are_least()
    ensures none { (M : RoadMap) (from to : List ℕ) (second : ℕ) → AreWithin (length M.node_names) (ends_of M.links)
        → ((route_text M from to second ≡ None) ↔ NoWay M from to) }
    ensures least { (M : RoadMap) (from to : List ℕ) (second : ℕ) (text : List ℕ)
        → AreWithin (length M.node_names) (ends_of M.links)
        → route_text M from to second ≡ Some text → IsReport M from to second text }
{}
