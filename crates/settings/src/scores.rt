ghost use Rattle.std.specs.Prelude.{◌≡◌, ◌≤◌, true, false, length, if◌then◌else◌, None, Some, IfOk, IfErr, [], ◌∷◌};
ghost use Rattle.edge_files.specs.declared.reasons.Reason.TheVariants.{ValueBad, TableWrong};
ghost use Rattle.scoring.specs.declared.TheConstants.{MAX_TABLES};
ghost use Rattle.serde_json.specs.View.{members_view};
ghost use Rattle.records.specs.Faults.{least, Answers, fault_at};
ghost use Rattle.settings.specs.{Keys.has_bad_scoring, Keys.has_bad_cost, NamedTables.are_right};
ghost use Rattle.settings.specs.Scoring.{costs_in, costs_of, with_tables, scoring_in, scoring_of, has_wrong_table};

use crate::costs::{Costs, Scoring};
use crate::keys::given_signed;
use crate::modes::modes_given;
use crate::named_tables::{NamedTable, are_right, given_tables};
use edge_files::{Reason, RowStop};
use events::Rows;
use records::fault;
use scoring::{MAX_PER_SECOND, MAX_WORTH};
use serde_json::{Map, Value};
use std::alloc::Global;

/// What each second adds by which an activity begins late, and what being stuck adds, where
/// the keys are not given, in micro-utils.
const USUAL_LATE_PER_SECOND: i64 = -5_000;

const USUAL_STUCK: i64 = -100_000_000;

/// What the settings say of costs and modes, or that one of them is not allowed.
#[tactic(auto, unfolding(crate::specs::Keys::has_bad_cost, crate::specs::Scoring::costs_in))]
fn costs_in(settings: &Map<String, Value>) -> Result<Costs, Reason>
    ensures bad { IfErr result (λ reason. (reason ≡ Reason.ValueBad)
        × (has_bad_cost (members_view settings.now.entries) ≡ true)) }
    ensures good { IfOk result (λ costs. (has_bad_cost (members_view settings.now.entries) ≡ false)
        × (costs_of costs ≡ costs_in (members_view settings.now.entries))) }
{
    let late_per_second = given_signed(settings, "late_per_second", -MAX_PER_SECOND, 0)?.unwrap_or(
        USUAL_LATE_PER_SECOND,
    );
    let stuck = given_signed(settings, "stuck", -MAX_WORTH, 0)?.unwrap_or(USUAL_STUCK);
    let modes = modes_given(settings)?;
    Ok(Costs {
        modes,
        late_per_second,
        stuck,
    })
}

/// What a day is scored by, of these costs and tables, or that the tables are wrong.
fn with_tables(costs: Costs, tables: Rows<NamedTable>) -> Result<Scoring, RowStop>
    requires { length tables ≤ MAX_TABLES }
    ensures { Answers scoring_of result (fault_at 0 (if are_right tables then None else Some TableWrong))
        (with_tables (costs_of costs) tables) }
{
    if !are_right(&tables.rows) {
        return Err(fault(0, Reason::TableWrong));
    }
    let modes = costs.modes;
    Ok(Scoring {
        tables,
        modes,
        late_per_second: costs.late_per_second,
        stuck: costs.stuck,
    })
}

/// What a day is scored by, or what is wrong with it.
pub fn scoring_in(alloc: Global, settings: &Map<String, Value>) -> Result<Scoring, RowStop>
    ensures { Answers scoring_of result
        (fault_at 0 (least ((has_bad_scoring (members_view settings.now.entries), ValueBad)
        ∷ (has_wrong_table (members_view settings.now.entries), TableWrong) ∷ [])))
        (scoring_in (members_view settings.now.entries)) }
{
    let costs = match costs_in(settings) {
        Ok(costs) => costs,
        Err(reason) => return Err(fault(0, reason)),
    };
    match given_tables(alloc, settings) {
        Ok(Some(tables)) => with_tables(costs, tables),
        Ok(None) => Err(fault(0, Reason::ValueBad)),
        Err(_) => Err(RowStop::NoMemory),
    }
}
