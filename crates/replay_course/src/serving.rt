//! The event that runs the server.
ghost use Rattle.std.specs.Prelude.{◌<◌, ◌≤◌, ◌+◌, ◌-◌, ◌^◌, length, IfErr, IfOk, OnOk};
ghost use Rattle.run_model.specs.declared.event.Event.TheVariants as event;
ghost use Rattle.split_model.specs.Layouts.{up_layout};
ghost use Rattle.transfer_header.specs.Frames.{IsFrame};
ghost use Rattle.output_commit.specs.Batches.{commands_in};
ghost use Rattle.output_commit.specs.Commit.{batch_of, commands};
ghost use Rattle.server_runtime.specs.Serving.{IsServed};
ghost use Rattle.server_runtime.specs.Views.{server_of};
ghost use Rattle.switch_ir.specs.Port.{IsLoaded};
ghost use Rattle.replay_contracts.specs.Replayer.{Fails, inputs_of};
ghost use Rattle.replay_course.specs.Going.{HasAdvanced, CanGoOn, MadeRoom};

use crate::course::Course;
use crate::fates::decide_at;
use gal_io::{Bytes, NoMemory};
use output_commit::Commit;
use replay_contracts::{Job, ReplayError, Stepped};
use server_runtime::{ServeError, Served, Server};
use std::alloc::Global;
use switch_ir::SwitchPort;
use writeback_table::Updates;

// What the server makes of a frame that came up.
fn serve_frame(server: &mut Server, frame: &Bytes) -> Result<Served, NoMemory>
    requires version { server.old.version < 2 ^ 32 - 1 }
    requires frame { IsFrame 1 (up_layout (server_of server.old).program (server_of server.old).split) frame.now }
    ensures { IfOk result (λ served. IsServed (server_of server.old) frame.now served (server_of server.new)) }
{
    match server.serve(frame.as_slice()) {
        Ok(served) => Ok(served),
        Err(ServeError::NoMemory) => Err(NoMemory),
        Err(ServeError::Malformed) => unreachable!(),
    }
}

// Takes the memory that the switch wants for the commands that it hasn't applied, and for those of these changes.
fn reserve<S: SwitchPort>(
    alloc: Global,
    commit: &Commit,
    updates: &Updates,
    port: &mut S,
) -> Result<(), ReplayError>
    requires loaded { IsLoaded (S.seen port.old) }
    requires few_updates { length updates.now ≤ 4096 }
    requires spare { length (commands commit.now) - commit.now.done ≤ (S.seen port.old).spare }
    ensures room { OnOk result (MadeRoom (length (commands commit.now) - commit.now.done + length (commands_in (batch_of updates.now)))
        (S.seen port.old) (S.seen port.new)) }
    ensures fails { IfErr result (λ e. Fails e (S.seen port.old) (S.seen port.new)) }
{
    if updates.is_empty() {
        return Ok(());
    }
    port.room(alloc, commit.unapplied() as usize + 3 * updates.len() + 2)?;
    Ok(())
}

impl Course {
    /// The server runs the packet whose frame stands at place `j` of those that went up.
    pub fn serve<S: SwitchPort>(
        &mut self,
        alloc: Global,
        job: &Job,
        port: &mut S,
        j: u32,
    ) -> Result<Stepped, ReplayError>
        requires going { CanGoOn (inputs_of job.now) self.old (S.seen port.old) }
        requires events { self.old.events < 2 ^ 32 - 1 }
        ensures turned { IfOk result (λ stepped.
            HasAdvanced (inputs_of job.now) (event.Serve j) stepped self.old (S.seen port.old) self.new
            (S.seen port.new)) }
        ensures fails { IfErr result (λ e. Fails e (S.seen port.old) (S.seen port.new)) }
    {
        let Some((number, frame)) = self.up.remove(j as usize) else {
            return Ok(self.idled());
        };
        self.events += 1;
        let served = serve_frame(&mut self.server, &frame)?;
        reserve(alloc, &self.commit, &served.updates, port)?;
        self.commit
            .hold(number, served.version, served.down, &served.updates)?;
        decide_at(&mut self.fates, number, self.events, served.version);
        Ok(Stepped::Did)
    }
}
