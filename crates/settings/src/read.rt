ghost use Rattle.std.specs.Prelude.{◌≡◌, ◌∷◌, [], Some, IfOk, IfErr, true, false, option_map};
ghost use Rattle.serde_json.specs.View.{view, members_view};
ghost use Rattle.records.specs.Faults.{least, Answers, fault_at};
ghost use Rattle.settings.specs.Faults.{value_of, value_tests, settings_fault, settings_of, scoring_values, values_of, file_in, file_of};
ghost use Rattle.settings.specs.{Faults.file_values, Keys.has_bad_traffic, Keys.has_bad_value, Keys.has_bad_scoring, Looking.members_of};
ghost use Rattle.settings.specs.{Scoring.scoring_in, Scoring.has_wrong_table, Values.traffic_in, Values.values_in};
ghost use Rattle.rows.specs.Settings.{AreInRange};

use crate::keys::{given, given_small};
use crate::names::has_unknown_key;
use crate::replanning::learning_in;
use crate::scores::scoring_in;
use crate::values::{Settings, SettingsFile};
use edge_files::{Reason, RowStop};
use learning::LAST_ITERATION;
use limits::{LAST_SECOND, MAX_DWELL, MAX_FILE_BYTES, MAX_PERMILLE, MAX_SPEED};
use records::fault;
use rows::{Dwelling, Stuck, TrafficSettings};
use serde_json::{Map, Value};
use std::alloc::{AllocError, Global};

/// The value that the bytes are, if they are one. No bytes are an object without keys.
fn read_value(alloc: Global, bytes: &[u8]) -> Result<Option<Value>, AllocError>
    ensures { IfOk result (λ value. option_map view value ≡ value_of bytes.now) }
{
    if bytes.is_empty() {
        return Ok(Some(Value::Object(Map::new(alloc))));
    }
    match Value::from_slice(alloc, bytes) {
        Ok(value) => Ok(Some(value)),
        Err(error) => {
            if error.is_memory() {
                Err(AllocError)
            } else {
                Ok(None)
            }
        }
    }
}

/// What the settings say of traffic, or that one of them is not allowed.
#[tactic(auto, unfolding(crate::specs::Keys::has_bad_traffic, crate::specs::Values::traffic_in))]
fn traffic_in(settings: &Map<String, Value>) -> Result<TrafficSettings, Reason>
    ensures bad { IfErr result (λ reason. (reason ≡ Reason.ValueBad)
        × (has_bad_traffic (members_view settings.now.entries) ≡ true)) }
    ensures good { IfOk result (λ traffic. (has_bad_traffic (members_view settings.now.entries) ≡ false)
        × (traffic ≡ traffic_in (members_view settings.now.entries))) }
    ensures within { IfOk result AreInRange }
{
    let end_second = given_small(settings, "end_second", 1, LAST_SECOND)?.unwrap_or(108_000);
    let flow_permille = given_small(settings, "flow_permille", 1, MAX_PERMILLE)?.unwrap_or(1_000);
    let storage_permille = given_small(settings, "storage_permille", 1, MAX_PERMILLE)?.unwrap_or(
        1_000,
    );
    let stuck_seconds = given_small(settings, "stuck_seconds", 1, LAST_SECOND)?.unwrap_or(10);
    let stuck_push = given_small(settings, "stuck_push", 0, 1)?.unwrap_or(0) == 1;
    let hole_speed = given_small(settings, "hole_speed", 1, MAX_SPEED)?;
    let dwell_open = given_small(settings, "dwell_open", 0, MAX_DWELL)?.unwrap_or(4);
    let dwell_alight = given_small(settings, "dwell_alight", 0, MAX_DWELL)?.unwrap_or(1);
    let dwell_board = given_small(settings, "dwell_board", 0, MAX_DWELL)?.unwrap_or(2);
    Ok(TrafficSettings {
        end_second,
        flow_permille,
        storage_permille,
        stuck: Stuck {
            seconds: stuck_seconds,
            push: stuck_push,
        },
        hole_speed,
        dwell: Dwelling {
            per_stop: dwell_open,
            per_alight: dwell_alight,
            per_board: dwell_board,
        },
    })
}

/// What the values of all keys but those of scores say, or that one of them is not allowed.
#[tactic(auto, unfolding(crate::specs::Keys::has_bad_value, crate::specs::Values::values_in))]
fn values_in(settings: &Map<String, Value>) -> Result<Settings, Reason>
    ensures bad { IfErr result (λ reason. (reason ≡ Reason.ValueBad)
        × (has_bad_value (members_view settings.now.entries) ≡ true)) }
    ensures good { IfOk result (λ read. (has_bad_value (members_view settings.now.entries) ≡ false)
        × (values_of read ≡ values_in (members_view settings.now.entries))) }
{
    let seed = given(settings, "seed", 0, u64::MAX)?.unwrap_or(4711);
    let last_iteration = given_small(settings, "last_iteration", 0, LAST_ITERATION)?.unwrap_or(0);
    let traffic = traffic_in(settings)?;
    let learning = learning_in(settings)?;
    Ok(Settings {
        seed,
        last_iteration,
        traffic,
        learning,
    })
}

/// What the settings say, of which all values but those of scores were read, or what is wrong with the others.
fn with_scoring(
    alloc: Global,
    settings: Settings,
    object: &Map<String, Value>,
) -> Result<SettingsFile, RowStop>
    ensures { Answers file_values result
        (fault_at 0 (least ((has_bad_scoring (members_view object.now.entries), Reason.ValueBad)
        ∷ (has_wrong_table (members_view object.now.entries), Reason.TableWrong) ∷ [])))
        (record { day = values_of settings; scoring = scoring_in (members_view object.now.entries) }) }
{
    match scoring_in(alloc, object) {
        Ok(scoring) => Ok(SettingsFile { settings, scoring }),
        Err(stop) => Err(stop),
    }
}

/// What an object of settings says, or the first fault of the value.
fn settings_in(alloc: Global, value: &Value) -> Result<SettingsFile, RowStop>
    ensures { Answers file_values result (fault_at 0 (least (value_tests (Some (view value.now)))))
        (file_in (members_of (Some (view value.now)))) }
{
    let Some(settings) = value.as_object() else {
        return Err(fault(0, Reason::NotJson));
    };
    if has_unknown_key(settings) {
        return Err(fault(0, Reason::KeyUnknown));
    }
    match values_in(settings) {
        Ok(values) => with_scoring(alloc, values, settings),
        Err(reason) => Err(fault(0, reason)),
    }
}

/// Reads settings.json: one object, of whose keys each may be left out. No bytes give all defaults.
///
/// The first fault is told where there is one, by the reason's number; it is that of row 0.
#[tactic(auto, unfolding(crate::specs::Faults::settings_fault, crate::specs::Faults::settings_of, crate::specs::Faults::scoring_values))]
pub fn read_settings(alloc: Global, bytes: &[u8]) -> Result<SettingsFile, RowStop>
    ensures { Answers file_values result (fault_at 0 (settings_fault bytes.now)) (file_of bytes.now) }
{
    if bytes.len() > MAX_FILE_BYTES {
        return Err(fault(0, Reason::TooLong));
    }
    match read_value(alloc, bytes) {
        Ok(Some(value)) => settings_in(alloc, &value),
        Ok(None) => Err(fault(0, Reason::NotJson)),
        Err(_) => Err(RowStop::NoMemory),
    }
}
