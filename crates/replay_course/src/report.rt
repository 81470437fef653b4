//! What is reported of a replay.
ghost use Rattle.std.specs.Prelude.{◌≡◌, ◌<◌, ◌^◌, List, Some, length, IfErr, IfOk};
ghost use Rattle.flat_ir.specs.Program.{program_of};
ghost use Rattle.split_answers.specs.Whole.{IsSplit};
ghost use Rattle.replay_state.specs.Journal.{Call};
ghost use Rattle.replay_state.specs.State.{State};
ghost use Rattle.replay_contracts.specs.Inputs.{code_for, whole};
ghost use Rattle.replay_contracts.specs.Promise.{Reports};
ghost use Rattle.replay_contracts.specs.Replayer.{Fails, inputs_of};
ghost use Rattle.replay_course.specs.Going.{CanGoOn};
ghost use Rattle.replay_course.specs.Shown.{IsShown};
ghost use Rattle.replay_course.specs.Telling.{ShowsParts, is_done, told_run};

use crate::course::Course;
use crate::fates::{copy_fates, count_decided, count_released};
use gal_io::NoMemory;
use replay_contracts::{Job, ReplayError, Replayed};
use run_model::{Fates, ObjectRows, Run, StoreRows, order, store_rows};
use split_model::replicated;
use std::alloc::Global;
use switch_ir::SwitchPort;

// The rows of each replicated object that lookups on the switch see.
fn switch_parts<S: SwitchPort>(
    alloc: Global,
    job: &Job,
    port: &mut S,
) -> Result<StoreRows, ReplayError>
    requires split { IsSplit (program_of job.now.flat) job.now.split job.now.writeback }
    requires code { (S.seen port.old).code ≡ Some (code_for (inputs_of job.now)) }
    ensures shows { IfOk result (λ parts. ShowsParts (inputs_of job.now) (S.seen port.old) (S.seen port.new) parts) }
    ensures fails { IfErr result (λ e. Fails e (S.seen port.old) (S.seen port.new)) }
{
    let mut parts = Vec::new(alloc);
    for number in 0..job.flat.objects.as_slice().len() {
        let object = number as u32;
        if replicated(&job.flat, &job.split, object) {
            let rows = port.visible(alloc, object)?;
            parts.push(ObjectRows { object, rows })?;
        }
    }
    Ok(StoreRows::from(parts))
}

impl Course {
    // Whether every packet of a trace of so many was admitted, nothing is on its way, and every command is
    // acknowledged.
    fn is_drained(&self, packets: usize) -> bool
        ensures { result ≡ is_done packets self.now }
    {
        self.fates.len() == packets
            && self.passes.is_empty()
            && self.up.is_empty()
            && self.commit.held() == 0
            && self.down.is_empty()
            && self.commit.acked() == self.commit.commands()
    }

    // The run so far, with these rows of the switch.
    fn run(&self, alloc: Global, job: &Job, switch: StoreRows) -> Result<Run, NoMemory>
        requires split { IsSplit (program_of job.now.flat) job.now.split job.now.writeback }
        requires few_packets { length job.now.packets < 2 ^ 32 }
        requires few_fates { length self.now.fates.items < 2 ^ 32 }
        ensures { IfOk result (λ run. run ≡ told_run (inputs_of job.now) self.now switch) }
    {
        let objects = store_rows(alloc, job.flat.objects.as_slice(), self.server.store())?;
        let fates = copy_fates(alloc, &self.fates)?;
        let packets = job.packets.len();
        Ok(Run {
            total: packets as u32,
            decided: count_decided(fates.as_slice()),
            released: count_released(fates.as_slice()),
            events: self.events,
            idle: self.idle,
            version: self.server.version(),
            visible: self.commit.visible(),
            drained: self.is_drained(packets),
            order: order(alloc, &fates)?,
            fates,
            objects,
            switch,
        })
    }

    // The run of a course that ends, with these rows of the switch.
    fn into_run(self, alloc: Global, job: &Job, switch: StoreRows) -> Result<Run, NoMemory>
        requires split { IsSplit (program_of job.now.flat) job.now.split job.now.writeback }
        requires few_packets { length job.now.packets < 2 ^ 32 }
        requires few_fates { length self.fates.items < 2 ^ 32 }
        ensures { IfOk result (λ run. run ≡ told_run (inputs_of job.now) self switch) }
    {
        let objects = store_rows(alloc, job.flat.objects.as_slice(), self.server.store())?;
        let packets = job.packets.len();
        let drained = self.is_drained(packets);
        let (version, visible) = (self.server.version(), self.commit.visible());
        let (events, idle) = (self.events, self.idle);
        let fates = Fates::from(self.fates);
        Ok(Run {
            total: packets as u32,
            decided: count_decided(fates.as_slice()),
            released: count_released(fates.as_slice()),
            events,
            idle,
            version,
            visible,
            drained,
            order: order(alloc, &fates)?,
            fates,
            objects,
            switch,
        })
    }

    /// The same as `report`, of a course that ends: what became of packets isn't copied.
    pub fn into_report<S: SwitchPort>(
        self,
        alloc: Global,
        job: &Job,
        port: &mut S,
    ) -> Result<Replayed, ReplayError>
        requires going { CanGoOn (inputs_of job.now) self (S.seen port.old) }
        ensures reports { IfOk result (λ replayed. (calls : List Call) (st : State)
            → IsShown (whole (inputs_of job.now)) calls st self
            → Reports (inputs_of job.now) st (S.seen port.old) (S.seen port.new) replayed.run replayed.commands) }
        ensures fails { IfErr result (λ e. Fails e (S.seen port.old) (S.seen port.new)) }
    {
        let switch = switch_parts(alloc, job, port)?;
        let commands = self.commit.commands();
        let run = self.into_run(alloc, job, switch)?;
        Ok(Replayed { run, commands })
    }

    /// What is reported of the events so far, with the rows that lookups on the switch see.
    pub fn report<S: SwitchPort>(
        &self,
        alloc: Global,
        job: &Job,
        port: &mut S,
    ) -> Result<Replayed, ReplayError>
        requires going { CanGoOn (inputs_of job.now) self.now (S.seen port.old) }
        ensures reports { IfOk result (λ replayed. (calls : List Call) (st : State)
            → IsShown (whole (inputs_of job.now)) calls st self.now
            → Reports (inputs_of job.now) st (S.seen port.old) (S.seen port.new) replayed.run replayed.commands) }
        ensures fails { IfErr result (λ e. Fails e (S.seen port.old) (S.seen port.new)) }
    {
        let switch = switch_parts(alloc, job, port)?;
        let run = self.run(alloc, job, switch)?;
        Ok(Replayed {
            run,
            commands: self.commit.commands(),
        })
    }
}
