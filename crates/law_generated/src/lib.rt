//! Laws of generated grids: of each size, each seed and each number of a last iteration that `workload` takes, the files are a valid
//! scenario. None has a fault by itself, by what the files before it give; and together they have none, so that each car leg has a route.
#![tactic(auto)]

ghost use Rattle.std.specs.Prelude.{◌≡◌, ◌<◌, ◌^◌, ℕ, List, [], None};
ghost use Rattle.network.specs.{Links.links_fault, Nodes.nodes_fault};
ghost use Rattle.plans.specs.Values.{plans_fault};
ghost use Rattle.scenario.specs.FilesToScenario.{scenario_fault};
ghost use Rattle.schedule.specs.{Departures.departures_fault, Routes.routes_fault, Stops.stops_fault};
ghost use Rattle.settings.specs.Faults.{settings_fault};
ghost use Rattle.signals.specs.Signals.{signals_fault};
ghost use Rattle.workload.specs.{Grids.IsGrid, Texts.departures_text};
ghost use Rattle.workload.specs.Texts.{grid_texts, links_text, nodes_text, plans_text, routes_text, settings_text, stops_text};
ghost use Rattle.workload.specs.declared.TheConstants.{DEPARTURES};
ghost use Rattle.law_generated.specs.Files.{link_ends, links_named, nodes_named, routes_named, stops_named, stops_placed};

/// The nodes and the links of a grid have no fault.
pub fn networks_are_valid()
    ensures nodes { (size last : ℕ) → IsGrid size last → nodes_fault (nodes_text size) ≡ None }
    ensures links { (size last : ℕ) → IsGrid size last → links_fault (nodes_named size) (links_text size) ≡ None }
{}

/// The stops, the routes and the departures of a grid have no fault.
pub fn schedules_are_valid()
    ensures stops { (size last : ℕ) → IsGrid size last → stops_fault (links_named size) (stops_text size) ≡ None }
    ensures routes { (size last : ℕ) → IsGrid size last
        → routes_fault (links_named size) (link_ends size) (stops_named size) (stops_placed size) (routes_text size) ≡ None }
    ensures departures { (size last : ℕ) → IsGrid size last
        → departures_fault (routes_named size) (departures_text DEPARTURES) ≡ None }
{}

/// The settings of a grid have no fault, nor have its signals, which are no bytes, whatever the links are.
pub fn settings_are_valid()
    ensures settings { (size seed last : ℕ) → IsGrid size last → seed < 2 ^ 64 → settings_fault (settings_text seed last) ≡ None }
    ensures signals { (links : List (List ℕ)) (ends : List (ℕ × ℕ)) → signals_fault links ends [] ≡ None }
{}

/// The plans of a grid have no fault by themselves.
pub fn plans_are_valid()
    ensures { (size seed last : ℕ) → IsGrid size last
        → plans_fault (links_named size) (link_ends size) (plans_text size seed) ≡ None }
{}

/// The files of a grid, all together, have no fault: besides, the legs of its plans fit its schedule, there is a route of at most 1,000
/// links for each of its car legs, and no signals are in conflict.
pub fn scenarios_are_valid()
    ensures { (size seed last : ℕ) → IsGrid size last → seed < 2 ^ 64
        → scenario_fault (grid_texts size seed last) ≡ None }
{}
