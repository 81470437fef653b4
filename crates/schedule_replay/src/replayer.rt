//! A replay that goes on call by call.
ghost use Rattle.std.specs.Prelude.{◌≡◌, ◌≤◌, ◌<◌, ◌++◌, ◌∷◌, [], List, Some, None, Err};
ghost use Rattle.std.specs.Prelude.{is_some, length, nat_lt, IfErr, IfOk, MatchOption, OnOk};
ghost use Rattle.flat_ir.specs.Program.{program_of};
ghost use Rattle.run_model.specs.Sizes.{most_events, most_packets};
ghost use Rattle.run_model.specs.declared.event.Event.{Event};
ghost use Rattle.split_model.specs.Bounds.{HasFewStages};
ghost use Rattle.split_answers.specs.Whole.{IsSplit};
ghost use Rattle.replay_state.specs.Drain.{drain_bound};
ghost use Rattle.replay_state.specs.Journal.{Call, down_frame, frame_in, up_answer};
ghost use Rattle.replay_state.specs.State.{State};
ghost use Rattle.replay_contracts.specs.Inputs.{setup_for, whole};
ghost use Rattle.replay_contracts.specs.declared.job.ReplayError.{ReplayError};
ghost use Rattle.replay_contracts.specs.Replayer.{CountsFault, HasBroken, inputs_of};
ghost use Rattle.replay_course.specs.UnderWay.{HasReplayedFrom};

use gal_io::{Bytes, NoMemory};
use replay_contracts::{Job, ReplayError, Replayed, Stepped};
use replay_course::Course;
use run_model::{Event, Events};
use std::alloc::Global;
use std::marker::Model;
use switch_ir::SwitchPort;
use writeback_table::Command;

/// A replay of a split program over a switch, event by event. It performs none of the job's own events by itself. Once
/// it has failed, it answers the same error from then on.
#[derive(Drop)]
pub struct Replayer<S: SwitchPort> {
    alloc: Global,
    job: Job,
    course: Course,
    port: S,
    steps: u32,
    failed: Option<ReplayError>,
}

impl<S: SwitchPort> Model for Replayer<S> {
    ghost use Rattle.replay_contracts.specs.Replayer.{inputs_of};
    ghost use Rattle.schedule_replay.specs.Replayer.{IsKept, Replaying};
    ghost use Rattle.replay_course.specs.contracts.course.Course.{the_row};
    ghost use Rattle.std.specs.Coded.{codes};

    ghost Value = { Replaying S };

    ghost coded = { Prim.hlevel (codes, the_row.coded) };

    ghost view = { λ r. record {
      given = inputs_of r.job;
      course = r.course;
      port = r.port;
      steps = r.steps;
      failed = r.failed;
    } };

    ghost invariant = { λ r. IsKept (inputs_of r.job) r.course (S.seen r.port) r.steps r.failed };
}

/// A switch with which no replay could begin, and why.
#[derive(Drop)]
pub struct Refused<S> {
    pub port: S,
    pub error: ReplayError,
}

// A job without events of its own, in memory of its own.
fn copy_job(alloc: Global, job: &Job) -> Result<Job, NoMemory>
    ensures { IfOk result (λ made. inputs_of made ≡ inputs_of job.now) }
{
    Ok(Job {
        flat: job.flat.copy(alloc)?,
        split: job.split.copy(alloc)?,
        writeback: job.writeback,
        packets: job.packets.copy(alloc)?,
        fine: job.fine,
        events: Events::new(alloc),
        drain: false,
    })
}

// A copy of a job, and its course before any event.
#[derive(Drop)]
struct Begun {
    job: Job,
    course: Course,
}

fn begin<S: SwitchPort>(alloc: Global, job: &Job, port: &mut S) -> Result<Begun, ReplayError>
    requires split { IsSplit (program_of job.now.flat) job.now.split job.now.writeback }
    requires stages { HasFewStages job.now.split }
    requires writeback { job.now.writeback ≤ 65536 }
    requires few_packets { length job.now.packets ≤ most_packets }
    ensures same { IfOk result (λ begun. inputs_of begun.job ≡ inputs_of job.now) }
    ensures begun { IfOk result (λ begun.
        HasReplayedFrom (inputs_of job.now) [] begun.course (S.seen port.old) (S.seen port.new)) }
    ensures stays { is_some (S.seen port.new).told ≡ is_some (S.seen port.old).told }
    ensures fault { IfErr result (λ e. CountsFault e (S.seen port.old) (S.seen port.new)) }
    ensures fails { IfErr result (λ e. HasBroken (inputs_of job.now) e (S.seen port.old) (S.seen port.new)) }
{
    let copy = copy_job(alloc, job)?;
    let course = Course::start(alloc, job, port)?;
    Ok(Begun { job: copy, course })
}

impl<S: SwitchPort> Replayer<S> {
    ghost use Rattle.replay_contracts.specs.Replayer.{HasEmptied, HasFailed, HasReported, HasStepped, IsNew, Repeats};
    ghost use Rattle.replay_contracts.specs.Replayer.{IsAt};
    ghost use Rattle.output_commit.specs.Batches.{last_of};
    ghost use Rattle.schedule_replay.specs.Frames.{IsFrameAt};
    ghost use Rattle.schedule_replay.specs.Replayer.{HasPerformed, IsStanding, seen_as};

    /// Loads the switch with the code of a job. After an error the switch is handed back: as it was, or with that code. It
    /// tells its tables where it told them before.
    pub fn new(alloc: Global, job: &Job, port: S) -> Result<Replayer<S>, Refused<S>>
        requires split { IsSplit (program_of job.now.flat) job.now.split job.now.writeback }
        requires stages { HasFewStages job.now.split }
        requires writeback { job.now.writeback ≤ 65536 }
        requires few_packets { length job.now.packets ≤ most_packets }
        ensures begun { IfOk result (λ made. IsNew (inputs_of job.now) (S.seen port) (seen_as S.seen [] made)) }
        ensures performed { IfOk result (λ made. HasPerformed S.seen [] made) }
        ensures stays { IfErr result (λ refused.
            is_some (S.seen refused.port).told ≡ is_some (S.seen port).told) }
        ensures fault { IfErr result (λ refused. CountsFault refused.error (S.seen port) (S.seen refused.port)) }
        ensures fails { IfErr result (λ refused.
            HasBroken (inputs_of job.now) refused.error (S.seen port) (S.seen refused.port)) }
    {
        let mut port = port;
        match begin(alloc, job, &mut port) {
            Ok(begun) => Ok(Replayer {
                alloc,
                job: begun.job,
                course: begun.course,
                port,
                steps: 0,
                failed: None,
            }),
            Err(error) => Err(Refused { port, error }),
        }
    }

    /// What stands of each replayer: its events so far are a replay that can go on, unless it failed.
    pub fn stands(&self)
        ensures { IsStanding S.seen self.now }
    {
        let _ = &self.failed;
    }

    /// One event. It is idle exactly where it can't apply.
    pub fn step(&mut self, event: &Event) -> Result<Stepped, ReplayError>
        requires few_events { self.old.steps < most_events }
        ensures stepped { IfOk result (λ stepped. (events : List Event) → HasPerformed S.seen events self.old
            → HasStepped (seen_as S.seen events self.old) event.now stepped
            (seen_as S.seen (events ++ event.now ∷ []) self.new)) }
        ensures performed { OnOk result ((events : List Event) → HasPerformed S.seen events self.old
            → HasPerformed S.seen (events ++ event.now ∷ []) self.new) }
        ensures fails { IfErr result (λ e. (events : List Event) → self.old.failed ≡ None
            → HasFailed (seen_as S.seen events self.old) e (seen_as S.seen events self.new)) }
        ensures repeats { (e : ReplayError) → self.old.failed ≡ Some e
            → (result ≡ Err e)
            × ((events : List Event) → Repeats (seen_as S.seen events self.old) e (seen_as S.seen events self.new)) }
        ensures same { (e : ReplayError) → self.old.failed ≡ Some e → self.new ≡ self.old }
    {
        if let Some(error) = self.failed {
            return Err(error);
        }
        match self
            .course
            .step(self.alloc, &self.job, &mut self.port, *event)
        {
            Ok(stepped) => {
                self.steps += 1;
                Ok(stepped)
            }
            Err(error) => {
                self.failed = Some(error);
                Err(error)
            }
        }
    }

    /// The events that end a run, one after the other, until every packet of the trace is released and nothing is on
    /// its way. The answer is their number. One call of the switch has ended each pass then. Where it tells its tables,
    /// each packet was released with its verdict, and the tables are those of the server.
    pub fn drain(&mut self) -> Result<u64, ReplayError>
        ensures emptied { IfOk result (λ count. (events : List Event) → HasPerformed S.seen events self.old
            → (more : List Event)
            × HasEmptied (seen_as S.seen events self.old) count (seen_as S.seen (events ++ more) self.new)
            × HasPerformed S.seen (events ++ more) self.new) }
        ensures bound { IfOk result (λ count.
            count ≤ drain_bound (setup_for self.old.given)) }
        ensures fails { IfErr result (λ e. (events : List Event) → self.old.failed ≡ None
            → HasFailed (seen_as S.seen events self.old) e (seen_as S.seen events self.new)) }
        ensures repeats { (e : ReplayError) → self.old.failed ≡ Some e
            → (result ≡ Err e)
            × ((events : List Event) → Repeats (seen_as S.seen events self.old) e (seen_as S.seen events self.new)) }
        ensures same { (e : ReplayError) → self.old.failed ≡ Some e → self.new ≡ self.old }
    {
        if let Some(error) = self.failed {
            return Err(error);
        }
        match self.course.drain(self.alloc, &self.job, &mut self.port) {
            Ok(events) => Ok(u64::from(events)),
            Err(error) => {
                self.failed = Some(error);
                Err(error)
            }
        }
    }

    /// What is to be reported of the events so far. The replay can go on then.
    pub fn report(&mut self) -> Result<Replayed, ReplayError>
        ensures reported { IfOk result (λ replayed. (events : List Event) → HasPerformed S.seen events self.old
            → HasReported (seen_as S.seen events self.old) replayed (seen_as S.seen events self.new)) }
        ensures performed { OnOk result ((events : List Event) → HasPerformed S.seen events self.old
            → HasPerformed S.seen events self.new) }
        ensures fails { IfErr result (λ e. (events : List Event) → self.old.failed ≡ None
            → HasFailed (seen_as S.seen events self.old) e (seen_as S.seen events self.new)) }
        ensures repeats { (e : ReplayError) → self.old.failed ≡ Some e
            → (result ≡ Err e)
            × ((events : List Event) → Repeats (seen_as S.seen events self.old) e (seen_as S.seen events self.new)) }
        ensures same { (e : ReplayError) → self.old.failed ≡ Some e → self.new ≡ self.old }
    {
        if let Some(error) = self.failed {
            return Err(error);
        }
        match self.course.report(self.alloc, &self.job, &mut self.port) {
            Ok(replayed) => Ok(replayed),
            Err(error) => {
                self.failed = Some(error);
                Err(error)
            }
        }
    }

    /// The frame at place `j` of those on their way up to the server. It is `None` exactly where there are at most `j`.
    pub fn up_frame(&self, j: usize) -> Option<&Bytes>
        ensures { (events : List Event) (calls : List Call) (st : State) → HasPerformed S.seen events self.now
            → IsAt (seen_as S.seen events self.now) calls st → MatchOption result (length st.up ≤ j)
            (λ frame. IsFrameAt (λ n. frame_in (up_answer calls n)) st.up j frame.now) }
    {
        let (_, frame) = self.course.up.get(j)?;
        Some(frame)
    }

    /// The frame at place `j` of those on their way down to the switch. It is `None` exactly where there are at most `j`.
    pub fn down_frame(&self, j: usize) -> Option<&Bytes>
        ensures { (events : List Event) (calls : List Call) (st : State) → HasPerformed S.seen events self.now
            → IsAt (seen_as S.seen events self.now) calls st → MatchOption result (length st.down ≤ j)
            (λ frame. IsFrameAt (down_frame (whole self.now.given) calls st) st.down j frame.now) }
    {
        let (_, frame) = self.course.down.get(j)?;
        Some(frame)
    }

    /// The last command that was sent. It is `None` exactly where none was sent.
    pub fn sent_command(&self) -> Option<Command>
        ensures last { (events : List Event) (calls : List Call) (st : State) → HasPerformed S.seen events self.now
            → IsAt (seen_as S.seen events self.now) calls st → result ≡ last_of st.batches st.sent }
        ensures none { (events : List Event) (calls : List Call) (st : State) → HasPerformed S.seen events self.now
            → IsAt (seen_as S.seen events self.now) calls st → is_some result ≡ nat_lt 0 st.sent }
    {
        self.course.commit.sent_command()
    }

    /// The switch, as the calls so far left it.
    pub fn into_port(self) -> S
        ensures { result ≡ self.port }
    {
        self.port
    }
}
