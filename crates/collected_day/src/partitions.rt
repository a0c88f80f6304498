//! The partitions of a day on several threads, span by span.

ghost use Rattle.std.specs.Prelude.{◌≡◌, ◌<◌, IfOk};
ghost use Rattle.collected_day.specs.{Jobs.HasRunSpan, Spans.IsUnderWay};

use crate::spans::span_end;
use divided_day::DayPart;
use edge_files::Gate;
use std::alloc::AllocError;
use std::sync::Wait;
use std::thread::Threads;
use step_core::Part;
use workers::Running;

/// The partitions of a day, which have all done so many seconds: whole spans, or all of the day.
#[derive(Drop)]
pub(crate) struct Partitions<T: Part>
where
    T::Parcel: Send,
{
    pub(crate) running: Running<T>,
    pub(crate) second: u32,
}

/// The partitions do the next span, or what is left of the day.
///
/// # Errors
///
/// `AllocError`: there is no memory for a second of a partition.
pub(crate) fn run_span<T: DayPart + Send, R: Threads + Wait + Sync, G: Gate>(
    rt: &R,
    gate: &G,
    run: &T::Run,
    partitions: Partitions<T>,
) -> Result<Partitions<T>, AllocError>
where
    T::Run: Send + Sync,
    T::Parcel: Send + Sync,
    requires under_way { IsUnderWay T.net T.borders T.nothing T.see T.stands T.spent T.right run.now partitions.second partitions.running }
    requires before_end { partitions.second < (T.net run.now).end }
    ensures under_way { IfOk result
        (λ later. IsUnderWay T.net T.borders T.nothing T.see T.stands T.spent T.right run.now later.second later.running) }
    ensures later { IfOk result (λ later. HasRunSpan (T.net run.now).end partitions.second later.second) }
{
    let Partitions { running, second } = partitions;
    let until = span_end(second, T::end(run));
    let later = running.run_until(rt, gate, run, until)?;
    Ok(Partitions {
        running: later,
        second: until,
    })
}
