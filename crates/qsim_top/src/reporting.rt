//! The answers that are a report.

ghost use Rattle.std.specs.Prelude.{◌≡◌, option_map, true, IfOk};
ghost use Rattle.edge_files.specs.declared.effects.Effect.TheVariants as effect;
ghost use Rattle.route_report.specs.Report.{route_text};
ghost use Rattle.scenario.specs.Views.{scenario_view};
ghost use Rattle.qsim_top.specs.Texts.{foreign_line, nothing_kept_line, refused_line, valid_line};
ghost use Rattle.qsim_top.specs.Answer.{report, roads_of, route_or_none, route_answer, is_whole, IsSound, IsAnswer};

use crate::answers::{Answer, Status};
use crate::texts::{foreign_line, no_way_line, nothing_kept_line, refused_line, valid_line};
use edge_files::{Bytes, Effect, EffectList, OutFile};
use route_report::route_text;
use scenario::{Scenario, ScenarioFault};
use std::alloc::{AllocError, Global};
use town::Town;

fn write(file: OutFile, text: Vec<u8>) -> Effect
    ensures { result ≡ effect.Write file text.items }
{
    Effect::Write {
        file,
        text: Bytes { rows: text },
    }
}

/// A text goes to the report, and nothing else is done.
pub fn report(alloc: Global, status: Status, text: Vec<u8>) -> Result<Answer, AllocError>
    requires { is_whole status ≡ true }
    ensures answer { IfOk result (λ a. a ≡ report status text.items) }
    ensures sound { IfOk result IsSound }
{
    let mut effects = Vec::new(alloc);
    effects.push(write(OutFile::Report, text))?;
    Ok(Answer {
        status,
        effects: EffectList { rows: effects },
    })
}

/// A scenario with a fault is refused by its first one.
pub fn refused(alloc: Global, fault: ScenarioFault) -> Result<Answer, AllocError>
    ensures { IfOk result (IsAnswer (report Status.Refused (refused_line fault))) }
{
    let line = refused_line(alloc, fault)?;
    let answer = report(alloc, Status::Refused, line)?;
    Ok(answer)
}

/// Nothing is kept from which a run could go on.
pub fn nothing_kept(alloc: Global) -> Result<Answer, AllocError>
    ensures { IfOk result (IsAnswer (report Status.NothingKept nothing_kept_line)) }
{
    let line = nothing_kept_line(alloc)?;
    let answer = report(alloc, Status::NothingKept, line)?;
    Ok(answer)
}

/// The kept rows do not fit the scenario, as the row at this place shows, or, where it is their number, rows are missing.
pub fn foreign(alloc: Global, place: u32) -> Result<Answer, AllocError>
    ensures { IfOk result (IsAnswer (report Status.Foreign (foreign_line place))) }
{
    let line = foreign_line(alloc, place)?;
    let answer = report(alloc, Status::Foreign, line)?;
    Ok(answer)
}

/// The counts of a scenario.
fn counts(alloc: Global, scenario: &Scenario) -> Result<Answer, AllocError>
    ensures { IfOk result (IsAnswer (report Status.Done (valid_line (scenario_view scenario.now)))) }
{
    let line = valid_line(alloc, scenario)?;
    let answer = report(alloc, Status::Done, line)?;
    Ok(answer)
}

/// The counts of a scenario, which is let go.
pub fn check(alloc: Global, scenario: Scenario) -> Result<Answer, AllocError>
    ensures { IfOk result (IsAnswer (report Status.Done (valid_line (scenario_view scenario)))) }
{
    let answer = counts(alloc, &scenario);
    drop(scenario);
    answer
}

/// A text goes to the report, or that no way joins the two nodes.
fn route_or_none(alloc: Global, text: Option<Vec<u8>>) -> Result<Answer, AllocError>
    ensures { IfOk result (IsAnswer (route_or_none (option_map (λ lines. lines.items) text))) }
{
    match text {
        Some(lines) => {
            let answer = report(alloc, Status::Done, lines)?;
            Ok(answer)
        }
        None => {
            let line = no_way_line(alloc)?;
            let answer = report(alloc, Status::NoWay, line)?;
            Ok(answer)
        }
    }
}

/// The bytes as a slice.
fn bytes_of(bytes: &Bytes) -> &[u8]
    ensures { result.now ≡ bytes.now }
{
    &bytes.rows
}

/// The route of least arrival between nodes of these names that is left in a second, told.
fn route_between(
    alloc: Global,
    town: &Town,
    from: &Bytes,
    to: &Bytes,
    second: u32,
) -> Result<Answer, AllocError>
    ensures { IfOk result (IsAnswer (route_or_none (route_text (roads_of town.now) from.now to.now second))) }
{
    let start = bytes_of(from);
    let end = bytes_of(to);
    let text = route_text(alloc, &town.network, start, end, second)?;
    let answer = route_or_none(alloc, text)?;
    Ok(answer)
}

/// The same in a scenario, which is let go.
pub fn route(
    alloc: Global,
    scenario: Scenario,
    from: Bytes,
    to: Bytes,
    second: u32,
) -> Result<Answer, AllocError>
    ensures { IfOk result (IsAnswer (route_answer from to second (scenario_view scenario))) }
{
    let answer = route_between(alloc, &scenario.town, &from, &to, second);
    drop(scenario);
    answer
}
