ghost use Rattle.std.specs.Prelude.{◌≡◌, map, length, IfOk};
ghost use Rattle.records.specs.{Fields.column, Files.body_of};
ghost use Rattle.schedule.specs.{Departures.departures_fault, Departures.departure_of, Routes.routes_fault, Routes.routes_of};
ghost use Rattle.schedule.specs.{Routes.lines_of, Stops.stops_fault, Views.stop_lists, Views.route_lists, Views.departure_lists};
ghost use Rattle.scenario.specs.{FilesToScenario.IsSchedule, Views.texts_of, Faults.Tells, Faults.TellsFile};
ghost use Rattle.scenario.specs.FilesToScenario.{stop_names, stop_rows, route_names, schedule_fault, schedule_rows_of, schedule_view};

use crate::faults::Stop;
use crate::files::Files;
use crate::reading::{bytes_of, with_file};
use crate::schedules::Schedule;
use edge_files::InFile;
use events::Names;
use schedule::{Departures, Routes, Stops, read_departures, read_routes, read_stops};
use std::alloc::Global;

/// The stops of stops.csv on links of these names, or its first fault.
#[tactic(auto, using(crate::proofs::Told::of_file))]
fn stops_in(alloc: Global, files: &Files, links: &Names) -> Result<Stops, Stop>
    ensures { TellsFile stop_lists result (texts_of files.now) InFile.Stops (stops_fault links.now)
        (λ bytes. (stop_names bytes, stop_rows links.now bytes)) }
{
    match bytes_of(files, InFile::Stops) {
        Ok(bytes) => with_file(InFile::Stops, read_stops(alloc, bytes, links)),
        Err(error) => Err(error),
    }
}

/// The routes of routes.csv on links of these names and ends and on these stops, or its first fault.
#[tactic(auto, using(crate::proofs::Told::of_file))]
fn routes_in(
    alloc: Global,
    files: &Files,
    links: &Names,
    ends: &[(u32, u32)],
    stops: &Stops,
) -> Result<Routes, Stop>
    requires { length ends.now ≡ length links.now }
    ensures { TellsFile route_lists result (texts_of files.now) InFile.Routes
        (routes_fault links.now ends.now stops.now.names stops.now.rows)
        (λ bytes. (lines_of (body_of bytes), route_names bytes, routes_of links.now stops.now.names stops.now.rows (body_of bytes))) }
{
    match bytes_of(files, InFile::Routes) {
        Ok(bytes) => with_file(
            InFile::Routes,
            read_routes(alloc, bytes, links, ends, stops),
        ),
        Err(error) => Err(error),
    }
}

/// The departures of departures.csv on routes of these names, or its first fault.
#[tactic(auto, using(crate::proofs::Told::of_file))]
fn departures_in(alloc: Global, files: &Files, routes: &Names) -> Result<Departures, Stop>
    ensures { TellsFile departure_lists result (texts_of files.now) InFile.Departures (departures_fault routes.now)
        (λ bytes. (column 0 (body_of bytes), map (departure_of routes.now) (body_of bytes))) }
{
    match bytes_of(files, InFile::Departures) {
        Ok(bytes) => with_file(InFile::Departures, read_departures(alloc, bytes, routes)),
        Err(error) => Err(error),
    }
}

/// What stops.csv, routes.csv and departures.csv give over links of these names and ends, or their first fault.
#[tactic(auto, unfolding(crate::specs::FilesToScenario::schedule_fault, crate::specs::FilesToScenario::schedule_rows_of))]
fn schedule_in(
    alloc: Global,
    files: &Files,
    links: &Names,
    ends: &[(u32, u32)],
) -> Result<Schedule, Stop>
    requires { length ends.now ≡ length links.now }
    ensures { Tells schedule_view result (schedule_fault links.now ends.now (texts_of files.now))
        (schedule_rows_of links.now (texts_of files.now)) }
{
    let stops = match stops_in(alloc, files, links) {
        Ok(stops) => stops,
        Err(error) => return Err(error),
    };
    let routes = match routes_in(alloc, files, links, ends, &stops) {
        Ok(routes) => routes,
        Err(error) => {
            drop(stops);
            return Err(error);
        }
    };
    match departures_in(alloc, files, &routes.names) {
        Ok(departures) => Ok(Schedule {
            stops,
            routes,
            departures,
        }),
        Err(error) => {
            drop(stops);
            drop(routes);
            Err(error)
        }
    }
}

/// The same, with what holds of it.
pub fn read_schedule(
    alloc: Global,
    files: &Files,
    links: &Names,
    ends: &[(u32, u32)],
) -> Result<Schedule, Stop>
    requires { length ends.now ≡ length links.now }
    ensures read { Tells schedule_view result (schedule_fault links.now ends.now (texts_of files.now))
        (schedule_rows_of links.now (texts_of files.now)) }
    ensures fitting { IfOk result (λ schedule. IsSchedule (length links.now) ends.now (schedule_view schedule)) }
{
    schedule_in(alloc, files, links, ends)
}
