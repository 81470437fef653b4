//! The events of a schedule, and those that end a run.
ghost use Rattle.std.specs.Prelude.{◌≡◌, ◌<◌, ◌≤◌, ◌+◌, ◌-◌, ◌^◌, List, [], find, length, not, IfErr, IfOk, OnOk};
ghost use Rattle.replay_state.specs.Drain.{drain_order, next_event};
ghost use Rattle.replay_state.specs.Journal.{Call};
ghost use Rattle.replay_state.specs.State.{State};
ghost use Rattle.replay_contracts.specs.Inputs.{Inputs, setup_for, whole};
ghost use Rattle.replay_contracts.specs.Replayer.{Fails, inputs_of};
ghost use Rattle.replay_course.specs.Going.{IsPrepared, IsSound};
ghost use Rattle.replay_course.specs.Shown.{IsShown};
ghost use Rattle.replay_course.specs.UnderWay.{HasReplayedFrom, Drains, HasReplayedSome, HasReplayed, course_left};
ghost use Rattle.replay_course.specs.Idle.{finds_nothing};

use crate::course::Course;
use replay_contracts::{Job, ReplayError};
use run_model::Event;
use std::alloc::Global;
use switch_ir::SwitchPort;

// The events that end a run, in the order in which they are tried.
fn drain_order() -> [Event; 8]
    ensures { result ≡ drain_order }
{
    [
        Event::Stage(0),
        Event::Ack,
        Event::Apply,
        Event::Send,
        Event::Down(0),
        Event::Hold(0),
        Event::Serve(0),
        Event::Admit,
    ]
}

impl Course {
    // The first of these events that finds something.
    fn picked(&self, packets: usize) -> Option<Event>
        ensures { result ≡ find (λ event. not (finds_nothing packets self.now event)) drain_order }
    {
        drain_order()
            .iter()
            .copied()
            .find(|event| !self.finds_nothing(packets, *event))
    }

    /// The event that ends a run next: the first that applies of those that end the passes under way, then of those that
    /// let the switch's answers come back, of those that bring commands and outputs down, and last of those that let
    /// packets in.
    pub fn next_event(&self, job: &Job) -> Option<Event>
        ensures { (calls : List Call) (st : State) → IsPrepared (inputs_of job.now) → IsSound (inputs_of job.now) self.now
            → IsShown (whole (inputs_of job.now)) calls st self.now → result ≡ next_event (setup_for (inputs_of job.now)) st }
    {
        self.picked(job.packets.len())
    }

    /// All events of a job, from the start.
    pub fn perform<S: SwitchPort>(
        &mut self,
        alloc: Global,
        job: &Job,
        port: &mut S,
    ) -> Result<(), ReplayError>
        requires few_events { length job.now.events < 2 ^ 32 - 1 }
        requires started { HasReplayed (inputs_of job.now) [] self.old (S.seen port.old) }
        ensures gone { OnOk result
            (HasReplayedFrom (inputs_of job.now) job.now.events self.new (S.seen port.old) (S.seen port.new)) }
        ensures fails { IfErr result (λ e. Fails e (S.seen port.old) (S.seen port.new)) }
    {
        for event in job.events.as_slice() {
            self.step(alloc, job, port, *event)?;
        }
        Ok(())
    }

    /// The events that end a run, one after the other, until every packet of the trace is released and nothing is on
    /// its way. The answer is their number.
    pub fn drain<S: SwitchPort>(
        &mut self,
        alloc: Global,
        job: &Job,
        port: &mut S,
    ) -> Result<u32, ReplayError>
        requires on_its_way { HasReplayedSome (inputs_of job.now) self.old (S.seen port.old) }
        requires few_events { self.old.events + course_left (inputs_of job.now) self.old < 2 ^ 32 - 1 }
        ensures drained { IfOk result (λ count.
            Drains (inputs_of job.now) count self.old (S.seen port.old) self.new (S.seen port.new)) }
        ensures left { IfOk result (λ count.
            count + course_left (inputs_of job.now) self.new ≤ course_left (inputs_of job.now) self.old) }
        ensures fails { IfErr result (λ e. Fails e (S.seen port.old) (S.seen port.new)) }
    {
        let mut count = 0;
        while let Some(event) = self.next_event(job) {
            self.step(alloc, job, port, event)?;
            count += 1;
        }
        Ok(count)
    }
}
