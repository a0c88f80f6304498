//! The files of a scenario, read one after another and put together.
//!
//! What an early return leaves is dropped by name there, and not by the end of its scope: a proof then meets one call for each value,
//! whose contract it knows, in place of all that the value is made of.

ghost use Rattle.std.specs.Prelude.{◌≡◌, ◌<◌, ◌≤◌, ◌^◌, None, length, IfOk, All};
ghost use Rattle.limits.specs.declared.TheConstants.{MAX_PERSONS};
ghost use Rattle.plans.specs.{Progress.IsSound, Read.file_rows_of};
ghost use Rattle.settings.specs.Faults.{settings_fault, file_of, values_of, file_values};
ghost use Rattle.records.specs.Faults.{fault_at};
ghost use Rattle.rows.specs.Joined.{ends_of};
ghost use Rattle.signals.specs.Views.{signal_view};
ghost use Rattle.town.specs.Views.{rows_of};
ghost use Rattle.scenario.specs.{Faults.Tells, Faults.TellsFile, LegChecks.leg_checks_of, LegChecks.AreThere, FilesToScenario.filled_in};
ghost use Rattle.scenario.specs.FilesToScenario.{with_filled, leg_checks_in, book_of, town_of, plans_cross_fault, conflict_fault};
ghost use Rattle.scenario.specs.FilesToScenario.{filled_fault, planned_of, planned_from, schedule_view, read_view, IsSchedule, IsReadOn};
ghost use Rattle.scenario.specs.FilesToScenario.{on_network, on_network_fault, scenario_of, scenario_on, scenario_fault, scenario_rows};
ghost use Rattle.scenario.specs.Views.{network_view, planned_view, scenario_view, texts_of};

use crate::faults::{ScenarioFault, Stop};
use crate::files::Files;
use crate::files_read::{FilesRead, read_over};
use crate::legs::all_plans_fault;
use crate::memories::first_memories;
use crate::network_read::{ends_in, read_network};
use crate::numbering::{Numbering, numbers_in};
use crate::planned::PlannedTown;
use crate::reading::{bytes_of, with_file};
use crate::renumbering::plans_in_town;
use crate::scenario::Scenario;
use crate::schedules::Schedule;
use car_routes::with_routes;
use edge_files::{InFile, Reason};
use events::{Book, Names};
use network::Network;
use plans::PlanFile;
use rows::GreenList;
use settings::{Settings, SettingsFile, by_number, read_settings};
use signals::{Signals, first_clash};
use std::alloc::{AllocError, Global};
use std::thread::Threads;
use town::Town;

/// What settings.json says, or its first fault.
#[tactic(auto, using(crate::proofs::Told::of_file))]
fn settings_in(alloc: Global, files: &Files) -> Result<SettingsFile, Stop>
    ensures { TellsFile file_values result (texts_of files.now) InFile.Settings (λ bytes. fault_at 0 (settings_fault bytes)) file_of }
{
    match bytes_of(files, InFile::Settings) {
        Ok(bytes) => with_file(InFile::Settings, read_settings(alloc, bytes)),
        Err(error) => Err(error),
    }
}

/// The numbers that the lines and the stops of the plans have in the town.
#[tactic(auto, unfolding(crate::specs::FilesToScenario::leg_checks_in))]
fn numbering_in(
    alloc: Global,
    plans: &PlanFile,
    schedule: &Schedule,
) -> Result<Numbering, AllocError>
    ensures leg_checks { IfOk result (λ n. leg_checks_of n schedule.now
        ≡ leg_checks_in (file_rows_of plans.now) (schedule_view schedule.now)) }
    ensures there { IfOk result (λ n. AreThere (length schedule.now.routes.lines) (leg_checks_of n schedule.now)) }
{
    let lines = numbers_in(alloc, &plans.lines, &schedule.routes.lines)?;
    let stops = numbers_in(alloc, &plans.stops, &schedule.stops.names)?;
    Ok(Numbering { lines, stops })
}

/// Copies of two lists of names.
fn copies(first: &Names, second: &Names) -> Result<(Names, Names), AllocError>
    ensures { IfOk result (λ both. (both.0 ≡ first.now) × (both.1 ≡ second.now)) }
{
    let Ok(one) = first.try_clone() else {
        return Err(AllocError);
    };
    match second.try_clone() {
        Ok(other) => Ok((one, other)),
        Err(_) => {
            drop(one);
            Err(AllocError)
        }
    }
}

/// The names of all that events tell of.
fn book_of(
    persons: Names,
    kinds: Names,
    network: &Network,
    schedule: &Schedule,
) -> Result<Book, AllocError>
    ensures { IfOk result (λ book. book ≡ book_of (network_view network.now) persons kinds (schedule_view schedule.now)) }
{
    let Ok((links, stops)) = copies(&network.link_names, &schedule.stops.names) else {
        drop(persons);
        drop(kinds);
        return Err(AllocError);
    };
    match copies(&schedule.routes.lines, &schedule.departures.names) {
        Ok((lines, departures)) => Ok(Book {
            persons,
            links,
            kinds,
            stops,
            lines,
            departures,
        }),
        Err(_) => {
            drop(persons);
            drop(kinds);
            drop(links);
            drop(stops);
            Err(AllocError)
        }
    }
}

/// The town of these settings, network and rows, with this book and these signals.
#[tactic(auto, unfolding(crate::specs::FilesToScenario::town_of))]
fn town_of(
    settings: Settings,
    network: Network,
    schedule: Schedule,
    book: Book,
    greens: GreenList,
) -> Town
    requires schedule { IsSchedule (length network.links) (ends_of network.links) (schedule_view schedule) }
    requires book { book ≡ book_of (network_view network) book.persons book.kinds (schedule_view schedule) }
    requires greens { length greens ≡ length network.links }
    requires few { length book.persons ≤ MAX_PERSONS }
    ensures rows { rows_of result
        ≡ town_of (values_of settings) (network_view network) book.persons book.kinds (schedule_view schedule) greens }
    ensures node_names { result.network.node_names ≡ network.node_names }
{
    let Schedule {
        stops,
        routes,
        departures,
    } = schedule;
    Town {
        seed: settings.seed,
        settings: settings.traffic,
        network,
        stops,
        routes,
        departures,
        book,
        greens,
    }
}

/// The town of these settings, network, rows and signals, with names of persons and of kinds of activities.
fn town_with_names(
    settings: Settings,
    network: Network,
    schedule: Schedule,
    persons: Names,
    kinds: Names,
    greens: GreenList,
) -> Result<Town, AllocError>
    requires schedule { IsSchedule (length network.links) (ends_of network.links) (schedule_view schedule) }
    requires few { length persons ≤ MAX_PERSONS }
    requires greens { length greens ≡ length network.links }
    ensures rows { IfOk result
        (λ town. rows_of town ≡ town_of (values_of settings) (network_view network) persons kinds (schedule_view schedule) greens) }
    ensures node_names { IfOk result (λ town. town.network.node_names ≡ network.node_names) }
{
    match book_of(persons, kinds, &network, &schedule) {
        Ok(book) => {
            let town = town_of(settings, network, schedule, book, greens);
            Ok(town)
        }
        Err(_) => {
            drop(network);
            drop(schedule);
            drop(greens);
            Err(AllocError)
        }
    }
}

/// The first leg of the plans that does not fit the files behind plans.csv, where there is one.
#[tactic(auto, unfolding(crate::specs::FilesToScenario::plans_cross_fault))]
fn leg_fault(numbering: &Numbering, schedule: &Schedule, plans: &PlanFile) -> Option<ScenarioFault>
    requires leg_checks { leg_checks_of numbering.now schedule.now ≡ leg_checks_in (file_rows_of plans.now) (schedule_view schedule.now) }
    requires there { AreThere (length schedule.now.routes.lines) (leg_checks_of numbering.now schedule.now) }
    requires starts { All (λ row. row < 2 ^ 30) plans.now.starts }
    ensures { result ≡ plans_cross_fault (file_rows_of plans.now) (schedule_view schedule.now) }
{
    match all_plans_fault(numbering, schedule, &plans.starts.rows, &plans.plans.rows) {
        Some(fault) => Some(ScenarioFault {
            file: InFile::Plans,
            row: fault.row,
            reason: fault.reason,
        }),
        None => None,
    }
}

/// The town with its plans, against no leg of which anything speaks.
#[tactic(auto, unfolding(crate::specs::FilesToScenario::planned_of))]
fn planned_of_parts(
    alloc: Global,
    settings: Settings,
    network: Network,
    file: PlanFile,
    schedule: Schedule,
    numbering: Numbering,
    greens: GreenList,
) -> Result<PlannedTown, AllocError>
    requires sound { IsSound network.link_names (ends_of network.links) (file_rows_of file) }
    requires schedule { IsSchedule (length network.links) (ends_of network.links) (schedule_view schedule) }
    requires leg_checks { leg_checks_of numbering schedule ≡ leg_checks_in (file_rows_of file) (schedule_view schedule) }
    requires there { AreThere (length schedule.routes.lines) (leg_checks_of numbering schedule) }
    requires free { plans_cross_fault (file_rows_of file) (schedule_view schedule) ≡ None }
    requires greens { length greens ≡ length network.links }
    ensures { IfOk result
        (λ planned. planned_view planned
        ≡ planned_of (values_of settings) (network_view network) (file_rows_of file) (schedule_view schedule) greens) }
{
    let PlanFile {
        persons,
        kinds,
        lines,
        stops,
        plans,
        starts: _,
    } = file;
    drop(lines);
    drop(stops);
    let Ok(plans) = plans_in_town(alloc, &numbering, plans) else {
        drop(persons);
        drop(kinds);
        drop(network);
        drop(schedule);
        drop(greens);
        return Err(AllocError);
    };
    match town_with_names(settings, network, schedule, persons, kinds, greens) {
        Ok(town) => Ok(PlannedTown { town, plans }),
        Err(_) => {
            drop(plans);
            Err(AllocError)
        }
    }
}

/// The first conflict whose links are both green in some second, where there is one.
#[tactic(auto, unfolding(crate::specs::FilesToScenario::conflict_fault))]
fn conflict_fault(signals: &Signals) -> Option<ScenarioFault>
    ensures { result ≡ conflict_fault (signal_view signals.now) }
{
    match first_clash(&signals.greens, &signals.conflicts) {
        Some(conflict) => Some(ScenarioFault {
            file: InFile::Signals,
            row: conflict.row,
            reason: Reason::Conflict,
        }),
        None => None,
    }
}

/// The town of what was read, whose routes are filled, or the first leg that does not fit it, or else the first conflict.
#[tactic(auto, unfolding(crate::specs::FilesToScenario::filled_fault))]
fn settled_or_fault(
    alloc: Global,
    settings: Settings,
    network: Network,
    read: FilesRead,
) -> Result<PlannedTown, Stop>
    requires { IsReadOn (length network.links) network.link_names (ends_of network.links) (read_view read) }
    ensures { Tells planned_view result (filled_fault (read_view read))
        (planned_from (values_of settings) (network_view network) (read_view read)) }
{
    let FilesRead {
        plans,
        schedule,
        signals,
    } = read;
    let Ok(numbering) = numbering_in(alloc, &plans, &schedule) else {
        drop(plans);
        drop(network);
        drop(schedule);
        drop(signals);
        return Err(Stop::NoMemory);
    };
    if let Some(fault) = leg_fault(&numbering, &schedule, &plans) {
        drop(plans);
        drop(network);
        drop(schedule);
        drop(signals);
        return Err(Stop::Fault(fault));
    }
    if let Some(fault) = conflict_fault(&signals) {
        drop(plans);
        drop(network);
        drop(schedule);
        drop(signals);
        return Err(Stop::Fault(fault));
    }
    let Signals { greens, .. } = signals;
    match planned_of_parts(alloc, settings, network, plans, schedule, numbering, greens) {
        Ok(planned) => Ok(planned),
        Err(_) => Err(Stop::NoMemory),
    }
}

/// The names and the plans that were read, each car leg of which has a route, as far as there is one.
#[tactic(auto, unfolding(crate::specs::FilesToScenario::filled_in))]
fn filled<R: Threads + Sync>(
    rt: &R,
    alloc: Global,
    network: &Network,
    file: PlanFile,
) -> Result<PlanFile, AllocError>
    requires sound { IsSound network.now.link_names (ends_of network.now.links) (file_rows_of file) }
    requires starts { All (λ row. row < 2 ^ 30) file.starts }
    ensures rows { IfOk result (λ filled. file_rows_of filled ≡ filled_in (network_view network.now) (file_rows_of file)) }
    ensures sound { IfOk result (λ filled. IsSound network.now.link_names (ends_of network.now.links) (file_rows_of filled)) }
    ensures starts { IfOk result (λ filled. All (λ row. row < 2 ^ 30) filled.starts) }
{
    let PlanFile {
        persons,
        kinds,
        lines,
        stops,
        plans,
        starts,
    } = file;
    match with_routes(rt, alloc, network, plans) {
        Ok(plans) => Ok(PlanFile {
            persons,
            kinds,
            lines,
            stops,
            plans,
            starts,
        }),
        Err(_) => {
            drop(persons);
            drop(kinds);
            drop(lines);
            drop(stops);
            Err(AllocError)
        }
    }
}

/// The town of what was read, each car leg of which has a route, or the first leg that does not fit it, or else the first conflict.
fn planned_or_fault<R: Threads + Sync>(
    rt: &R,
    alloc: Global,
    settings: Settings,
    network: Network,
    read: FilesRead,
) -> Result<PlannedTown, Stop>
    requires read { IsReadOn (length network.links) network.link_names (ends_of network.links) (read_view read) }
    ensures { Tells planned_view result (filled_fault (with_filled (network_view network) (read_view read)))
        (planned_from (values_of settings) (network_view network) (with_filled (network_view network) (read_view read))) }
{
    let FilesRead {
        plans,
        schedule,
        signals,
    } = read;
    match filled(rt, alloc, &network, plans) {
        Ok(plans) => {
            let read = FilesRead {
                plans,
                schedule,
                signals,
            };
            settled_or_fault(alloc, settings, network, read)
        }
        Err(_) => {
            drop(network);
            drop(schedule);
            drop(signals);
            Err(Stop::NoMemory)
        }
    }
}

/// What the files that are read over network give on links with these ends, or their first fault.
fn on_ends<R: Threads + Sync>(
    rt: &R,
    alloc: Global,
    files: &Files,
    settings: Settings,
    network: Network,
    ends: &[(u32, u32)],
) -> Result<PlannedTown, Stop>
    requires ends { ends.now ≡ ends_of network.links }
    ensures { Tells planned_view result (on_network_fault (network_view network) (texts_of files.now))
        (on_network (values_of settings) (network_view network) (texts_of files.now)) }
{
    match read_over(alloc, files, &network.link_names, ends) {
        Ok(read) => planned_or_fault(rt, alloc, settings, network, read),
        Err(error) => {
            drop(network);
            Err(error)
        }
    }
}

/// What the files that are read over network give on these, or their first fault.
fn on_network<R: Threads + Sync>(
    rt: &R,
    alloc: Global,
    files: &Files,
    settings: Settings,
    network: Network,
) -> Result<PlannedTown, Stop>
    ensures { Tells planned_view result (on_network_fault (network_view network) (texts_of files.now))
        (on_network (values_of settings) (network_view network) (texts_of files.now)) }
{
    match ends_in(alloc, &network) {
        Ok(ends) => on_ends(rt, alloc, files, settings, network, &ends),
        Err(_) => {
            drop(network);
            Err(Stop::NoMemory)
        }
    }
}

/// The scenario of a town with its plans, by what settings.json says.
fn scenario_of(
    alloc: Global,
    planned: PlannedTown,
    file: SettingsFile,
) -> Result<Scenario, AllocError>
    ensures { IfOk result (λ scenario. scenario_view scenario ≡ scenario_of (file_values file) (planned_view planned)) }
{
    let PlannedTown { town, plans } = planned;
    let SettingsFile { settings, scoring } = file;
    let Ok(memories) = first_memories(alloc, plans) else {
        drop(town);
        drop(scoring);
        return Err(AllocError);
    };
    match by_number(alloc, scoring, &town.book.kinds) {
        Ok(tables) => Ok(Scenario {
            town,
            memories,
            tables,
            learning: settings.learning,
            last_iteration: settings.last_iteration,
        }),
        Err(_) => {
            drop(town);
            drop(memories);
            Err(AllocError)
        }
    }
}

/// The scenario that the files read over network give on these, by what settings.json says, or their first fault.
fn scenario_on<R: Threads + Sync>(
    rt: &R,
    alloc: Global,
    files: &Files,
    file: SettingsFile,
    network: Network,
) -> Result<Scenario, Stop>
    ensures { Tells scenario_view result (on_network_fault (network_view network) (texts_of files.now))
        (scenario_on (file_values file) (network_view network) (texts_of files.now)) }
{
    let planned = match on_network(rt, alloc, files, file.settings, network) {
        Ok(planned) => planned,
        Err(error) => {
            drop(file);
            return Err(error);
        }
    };
    match scenario_of(alloc, planned, file) {
        Ok(scenario) => Ok(scenario),
        Err(_) => Err(Stop::NoMemory),
    }
}

/// Reads the files of a scenario.
///
/// The first fault is told where there is one: of each file by itself, in the order of the files, and only then of the legs of
/// plans.csv that do not fit the files behind it, and of the conflicts of signals.csv. Each car leg without a link has the route of least
/// arrival at free speed; the searches are spread over as many threads as there are processors, and each thread is joined.
#[tactic(auto, unfolding(crate::specs::FilesToScenario::scenario_fault, crate::specs::FilesToScenario::scenario_rows))]
pub fn assemble<R: Threads + Sync>(rt: &R, alloc: Global, files: &Files) -> Result<Scenario, Stop>
    ensures { Tells scenario_view result (scenario_fault (texts_of files.now)) (scenario_rows (texts_of files.now)) }
{
    let file = match settings_in(alloc, files) {
        Ok(file) => file,
        Err(error) => return Err(error),
    };
    match read_network(alloc, files) {
        Ok(network) => scenario_on(rt, alloc, files, file, network),
        Err(error) => {
            drop(file);
            Err(error)
        }
    }
}
