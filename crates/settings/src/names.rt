//! The names of keys.

ghost use Rattle.std.specs.Prelude.{◌≡◌, ◌||◌, not, bytes_eq, codes, option_copied, option_map, string_bytes};
ghost use Rattle.std.specs.List.{list_all};
ghost use Rattle.serde_json.specs.{Find.get_member, View.view, View.members_view};
ghost use Rattle.settings.specs.Keys.{run_keys, traffic_keys, learning_keys, weight_keys, cost_keys, is_in, is_key, has_unknown_key};
ghost use Rattle.settings.specs.{Looking.members_of, Looking.has_other_key, Modes.is_mode_name, Modes.is_mode_key};
ghost use Rattle.settings.specs.{Modes.has_unknown_mode_key, NamedTables.is_table_key, NamedTables.has_unknown_table_key};

use crate::looking::member;
use events::Mode;
use serde_json::{Map, Value};

/// Whether there is a key of a run of this name, one of traffic, one of replanning, one of a strategy's weight, and one of scores.
#[tactic(auto, unfolding(crate::specs::Keys::is_in))]
fn is_run_key(name: &str) -> bool
    ensures { result ≡ is_in run_keys name.now }
{
    matches!(name, "seed" | "last_iteration")
}

#[tactic(auto, unfolding(crate::specs::Keys::is_in))]
fn is_traffic_key(name: &str) -> bool
    ensures { result ≡ is_in traffic_keys name.now }
{
    matches!(
        name,
        "end_second"
            | "flow_permille"
            | "storage_permille"
            | "stuck_seconds"
            | "stuck_push"
            | "hole_speed"
            | "dwell_open"
            | "dwell_alight"
            | "dwell_board"
    )
}

#[tactic(auto, unfolding(crate::specs::Keys::is_in))]
fn is_learning_key(name: &str) -> bool
    ensures { result ≡ is_in learning_keys name.now }
{
    matches!(
        name,
        "memory_size" | "logit_unit" | "mutation_range" | "innovation_last"
    )
}

#[tactic(auto, unfolding(crate::specs::Keys::is_in))]
fn is_weight_key(name: &str) -> bool
    ensures { result ≡ is_in weight_keys name.now }
{
    matches!(
        name,
        "weight_keep"
            | "weight_best"
            | "weight_random"
            | "weight_logit"
            | "weight_reroute"
            | "weight_time"
    )
}

#[tactic(auto, unfolding(crate::specs::Keys::is_in))]
fn is_scoring_key(name: &str) -> bool
    ensures { result ≡ (is_in cost_keys name.now || bytes_eq name.now (codes "tables")) }
{
    matches!(name, "late_per_second" | "stuck" | "modes" | "tables")
}

/// Whether there is a key of this name.
#[tactic(auto, unfolding(crate::specs::Keys::is_key))]
fn is_key(name: &str) -> bool
    ensures { result ≡ is_key name.now }
{
    is_run_key(name)
        || is_traffic_key(name)
        || is_learning_key(name)
        || is_weight_key(name)
        || is_scoring_key(name)
}

/// Whether each key that is given is one that there is.
fn are_keys(settings: &Map<String, Value>) -> bool
    ensures { result ≡ list_all (λ entry. is_key (string_bytes entry.0)) settings.now.entries }
{
    settings.iter().all(|(name, _)| is_key(name.as_str()))
}

fn is_mode_name(name: &str) -> bool
    ensures { result ≡ is_mode_name name.now }
{
    Mode::read(name.as_bytes()).is_some()
}

fn are_mode_names(modes: &Map<String, Value>) -> bool
    ensures { result ≡ list_all (λ entry. is_mode_name (string_bytes entry.0)) modes.now.entries }
{
    modes.iter().all(|(name, _)| is_mode_name(name.as_str()))
}

fn is_mode_key(name: &str) -> bool
    ensures { result ≡ is_mode_key name.now }
{
    matches!(name, "constant" | "per_second")
}

fn are_mode_keys(mode: &Map<String, Value>) -> bool
    ensures { result ≡ list_all (λ entry. is_mode_key (string_bytes entry.0)) mode.now.entries }
{
    mode.iter().all(|(name, _)| is_mode_key(name.as_str()))
}

fn has_mode_keys(mode: &Value) -> bool
    ensures { result ≡ not (has_other_key is_mode_key (members_of (Some (view mode.now)))) }
{
    match mode.as_object() {
        Some(mode) => are_mode_keys(mode),
        None => true,
    }
}

fn have_mode_keys(modes: &Map<String, Value>) -> bool
    ensures { result ≡ list_all (λ entry. not (has_other_key is_mode_key (members_of (Some (view entry.1))))) modes.now.entries }
{
    modes.iter().all(|(_, mode)| has_mode_keys(mode))
}

/// Whether the modes, or one of them, have a key that there is not.
fn has_unknown_mode_key(settings: &Map<String, Value>) -> bool
    ensures { result ≡ has_unknown_mode_key (get_member (codes "modes") (members_view settings.now.entries)) }
{
    let Some(value) = member(settings, "modes") else {
        return false;
    };
    match value.as_object() {
        Some(modes) => !are_mode_names(modes) || !have_mode_keys(modes),
        None => false,
    }
}

fn is_table_key(name: &str) -> bool
    ensures { result ≡ is_table_key name.now }
{
    matches!(name, "kind" | "points" | "latest")
}

fn are_table_keys(table: &Map<String, Value>) -> bool
    ensures { result ≡ list_all (λ entry. is_table_key (string_bytes entry.0)) table.now.entries }
{
    table.iter().all(|(name, _)| is_table_key(name.as_str()))
}

fn has_table_keys(table: &Value) -> bool
    ensures { result ≡ not (has_other_key is_table_key (members_of (Some (view table.now)))) }
{
    match table.as_object() {
        Some(table) => are_table_keys(table),
        None => true,
    }
}

fn have_table_keys(tables: &[Value]) -> bool
    ensures { result ≡ list_all (λ table. not (has_other_key is_table_key (members_of (Some (view table))))) tables.now }
{
    tables.iter().all(|table| has_table_keys(table))
}

/// Whether a table has a key that there is not.
fn has_unknown_table_key(settings: &Map<String, Value>) -> bool
    ensures { result ≡ has_unknown_table_key (get_member (codes "tables") (members_view settings.now.entries)) }
{
    let Some(value) = member(settings, "tables") else {
        return false;
    };
    match value.as_array() {
        Some(tables) => !have_table_keys(tables),
        None => false,
    }
}

/// Whether a key is given that there is not.
#[tactic(auto, unfolding(crate::specs::Keys::has_unknown_key))]
pub fn has_unknown_key(settings: &Map<String, Value>) -> bool
    ensures { result ≡ has_unknown_key (members_view settings.now.entries) }
{
    if !are_keys(settings) {
        return true;
    }
    if has_unknown_mode_key(settings) {
        return true;
    }
    has_unknown_table_key(settings)
}
