use events::{Calls, Route};

/// The links of a route and its stop calls.
#[derive(Drop)]
pub struct RouteLists {
    pub links: Route,
    pub calls: Calls,
}
