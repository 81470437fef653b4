//! One event.
ghost use Rattle.std.specs.Prelude.{◌≡◌, ◌<◌, ◌-◌, ◌^◌, IfErr, IfOk};
ghost use Rattle.replay_contracts.specs.Replayer.{Fails, inputs_of};
ghost use Rattle.replay_course.specs.Going.{HasAdvanced, CanGoOn, MayCall};
ghost use Rattle.replay_course.specs.Idle.{finds_nothing};

use crate::course::Course;
use replay_contracts::{Job, ReplayError, Stepped};
use run_model::Event;
use std::alloc::Global;
use switch_ir::SwitchPort;

impl Course {
    // Whether an event finds nothing in a run over so many packets: no packet, pass, frame, output or command.
    pub(crate) fn finds_nothing(&self, packets: usize, event: Event) -> bool
        ensures { result ≡ finds_nothing packets self.now event }
    {
        let commit = &self.commit;
        match event {
            Event::Admit => packets <= self.fates.len(),
            Event::Stage(j) => self.passes.len() <= j as usize,
            Event::Serve(j) => self.up.len() <= j as usize,
            Event::Send => commit.sent() == commit.commands(),
            Event::Apply => commit.applied() == commit.sent(),
            Event::Ack => commit.acked() == commit.applied(),
            Event::Hold(j) => commit.held() <= j as usize,
            Event::Down(j) => self.down.len() <= j as usize,
        }
    }

    // One event, which finds something or doesn't.
    #[inline(never)]
    fn turn<S: SwitchPort>(
        &mut self,
        alloc: Global,
        job: &Job,
        port: &mut S,
        event: Event,
    ) -> Result<Stepped, ReplayError>
        requires going { CanGoOn (inputs_of job.now) self.old (S.seen port.old) }
        requires events { self.old.events < 2 ^ 32 - 1 }
        requires may_call { MayCall (inputs_of job.now) self.old (S.seen port.old) }
        ensures turned { IfOk result (λ stepped.
            HasAdvanced (inputs_of job.now) event stepped self.old (S.seen port.old) self.new (S.seen port.new)) }
        ensures fails { IfErr result (λ e. Fails e (S.seen port.old) (S.seen port.new)) }
    {
        match event {
            Event::Admit => self.admit(alloc, job, port),
            Event::Stage(j) => self.stage(alloc, job, port, j),
            Event::Serve(j) => self.serve(alloc, job, port, j),
            Event::Send => Ok(self.send()),
            Event::Apply => self.apply(job, port),
            Event::Ack => Ok(self.acknowledge()),
            Event::Hold(j) => Ok(self.release(j)?),
            Event::Down(j) => self.down(alloc, job, port, j),
        }
    }

    /// One event. An event that can't apply is idle: it is counted, and nothing else changes.
    pub fn step<S: SwitchPort>(
        &mut self,
        alloc: Global,
        job: &Job,
        port: &mut S,
        event: Event,
    ) -> Result<Stepped, ReplayError>
        requires going { CanGoOn (inputs_of job.now) self.old (S.seen port.old) }
        requires events { self.old.events < 2 ^ 32 - 1 }
        requires may_call { MayCall (inputs_of job.now) self.old (S.seen port.old) }
        ensures turned { IfOk result (λ stepped.
            HasAdvanced (inputs_of job.now) event stepped self.old (S.seen port.old) self.new (S.seen port.new)) }
        ensures fails { IfErr result (λ e. Fails e (S.seen port.old) (S.seen port.new)) }
    {
        if self.finds_nothing(job.packets.len(), event) {
            return Ok(self.idled());
        }
        self.turn(alloc, job, port, event)
    }
}
