//! What is done at the same time: the partitions go on, and what they told before is taken.

ghost use Rattle.std.specs.Prelude.{◌≡◌, ◌-◌, ◌<◌, IfOk};
ghost use Rattle.collected_day.specs.{Jobs.CanBeDone, Jobs.IsDone, Jobs.HasRunSpan, Spans.IsUnderWay};
ghost use Rattle.collected_day.specs.Taking.{IsTaking, HasTaken, CanHandleMore};
ghost use Rattle.events.specs.Lines.{AreInBook};
ghost use Rattle.scoring.specs.Tables.{scoring_rows};
ghost use Rattle.streamed_day.specs.Coming.{seconds_from};
ghost use Rattle.town.specs.Views.{setup};

use crate::partitions::{Partitions, run_span};
use crate::stream::Stream;
use crate::taking::{Taking, take_due};
use divided_day::DayPart;
use edge_files::Gate;
use events::Book;
use scoring::Tables;
use std::alloc::AllocError;
use std::mem;
use std::sync::Wait;
use std::thread::{Threads, for_each_mut};
use step_core::Part;

/// What one thread does while another one does the other.
#[derive(Drop)]
pub(crate) enum Job<S: Stream, T: Part>
where
    T::Parcel: Send,
{
    /// The partitions do a span.
    Run(Partitions<T>),
    /// What they told up to a second is taken.
    Take(Taking<S>),
    /// Memory was wanting, and nothing is left.
    Spent,
}

/// Does a job, and answers it as it is then.
///
/// # Errors
///
/// `AllocError`: memory was wanting for it.
fn outcome_of<S: Stream, T: DayPart + Send, R: Threads + Wait + Sync, G: Gate>(
    rt: &R,
    gate: &G,
    run: &T::Run,
    tables: &Tables,
    book: &Book,
    second: u32,
    job: Job<S, T>,
) -> Result<Job<S, T>, AllocError>
where
    T::Run: Send + Sync,
    T::Parcel: Send + Sync,
    requires { CanBeDone T.net T.borders T.nothing T.see T.stands T.spent T.right run.now S.told_in_spans (T.day run.now) (T.owner run.now)
        second (scoring_rows tables.now) book.now job }
    ensures { IfOk result (IsDone T.net T.borders T.nothing T.see T.stands T.spent T.right run.now S.told_in_spans (T.day run.now)
        (T.owner run.now) second (scoring_rows tables.now) book.now job) }
{
    match job {
        Job::Run(partitions) => {
            let later = run_span(rt, gate, run, partitions)?;
            Ok(Job::Run(later))
        }
        Job::Take(mut taking) => {
            take_due(rt, tables, book, second, &mut taking)?;
            Ok(Job::Take(taking))
        }
        Job::Spent => Err(AllocError),
    }
}

/// Does a job in its place, where it leaves what came of it.
fn do_job<S: Stream, T: DayPart + Send, R: Threads + Wait + Sync, G: Gate>(
    rt: &R,
    gate: &G,
    run: &T::Run,
    tables: &Tables,
    book: &Book,
    second: u32,
    job: &mut Job<S, T>,
)
where
    T::Run: Send + Sync,
    T::Parcel: Send + Sync,
    requires { CanBeDone T.net T.borders T.nothing T.see T.stands T.spent T.right run.now S.told_in_spans (T.day run.now) (T.owner run.now)
        second (scoring_rows tables.now) book.now job.old }
    ensures { IsDone T.net T.borders T.nothing T.see T.stands T.spent T.right run.now S.told_in_spans (T.day run.now) (T.owner run.now)
        second (scoring_rows tables.now) book.now job.old job.new }
{
    let to_do = mem::replace(job, Job::Spent);
    if let Ok(later) = outcome_of(rt, gate, run, tables, book, second, to_do) {
        *job = later;
    }
}

/// A day on its way: its partitions, and who takes what they tell.
#[derive(Drop)]
pub(crate) struct Progress<S: Stream, T: Part>
where
    T::Parcel: Send,
{
    pub(crate) partitions: Partitions<T>,
    pub(crate) taking: Taking<S>,
}

/// The partitions do the next span while one thread more takes what they had told before: this thread does a share, others the rest. Where
/// there is no other thread, this one does one after the other.
///
/// # Errors
///
/// `AllocError`: memory was wanting for one of both.
pub(crate) fn go_on<S: Stream + Send, T: DayPart + Send, R: Threads + Wait + Sync, G: Gate>(
    rt: &R,
    gate: &G,
    run: &T::Run,
    tables: &Tables,
    book: &Book,
    progress: Progress<S, T>,
) -> Result<Progress<S, T>, AllocError>
where
    T::Run: Send + Sync,
    T::Parcel: Send + Sync,
    requires under_way { IsUnderWay T.net T.borders T.nothing T.see T.stands T.spent T.right run.now progress.partitions.second
        progress.partitions.running }
    requires before_end { progress.partitions.second < (T.net run.now).end }
    requires taking { IsTaking S.told_in_spans (T.day run.now) (T.owner run.now) (T.net run.now).end progress.partitions.second
        progress.taking }
    requires named { AreInBook (seconds_from (setup (T.day run.now)) progress.taking.second
        (progress.partitions.second - progress.taking.second)) book.now }
    requires can { CanHandleMore (scoring_rows tables.now) (seconds_from (setup (T.day run.now)) progress.taking.second
        (progress.partitions.second - progress.taking.second)) progress.taking.handler }
    ensures { IfOk result (λ p.
        IsUnderWay T.net T.borders T.nothing T.see T.stands T.spent T.right run.now p.partitions.second p.partitions.running
        × HasRunSpan (T.net run.now).end progress.partitions.second p.partitions.second
        × HasTaken S.told_in_spans (T.day run.now) (T.owner run.now) (T.net run.now).end progress.partitions.second
        (scoring_rows tables.now) book.now progress.taking p.taking) }
{
    let Progress { partitions, taking } = progress;
    let second = partitions.second;
    let mut jobs = Vec::new(*taking.text.allocator());
    jobs.push(Job::Run(partitions))?;
    jobs.push(Job::Take(taking))?;
    for_each_mut(
        rt,
        jobs.as_mut_slice(),
        2,
        &|_, job: &mut Job<S, T>|
            requires { CanBeDone T.net T.borders T.nothing T.see T.stands T.spent T.right run.now S.told_in_spans (T.day run.now)
                (T.owner run.now) second (scoring_rows tables.now) book.now job.now }
            ensures { IsDone T.net T.borders T.nothing T.see T.stands T.spent T.right run.entry.now S.told_in_spans (T.day run.entry.now)
                (T.owner run.entry.now) second (scoring_rows tables.entry.now) book.entry.now job.entry.now job.exit.now }
        { do_job(rt, gate, run, tables, book, second, job) },
    );
    let Some(Job::Take(taking)) = jobs.pop() else {
        return Err(AllocError);
    };
    let Some(Job::Run(partitions)) = jobs.pop() else {
        return Err(AllocError);
    };
    Ok(Progress { partitions, taking })
}
