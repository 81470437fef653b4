//! The events that call the switch.
ghost use Rattle.std.specs.Prelude.{◌<◌, ◌≤◌, ◌-◌, ◌^◌, length, IfErr, IfOk};
ghost use Rattle.packet_fields.specs.Sizes.{largest_packet};
ghost use Rattle.run_model.specs.declared.event.Event.TheVariants as event;
ghost use Rattle.switch_ir.specs.Port.{HasNoDownPassOf, HasNoUpPass, IsDownFrame, IsLoaded};
ghost use Rattle.replay_contracts.specs.Replayer.{Fails, inputs_of};
ghost use Rattle.replay_course.specs.Going.{HasAdvanced, CanGoOn, MayCall, TakesDown, TakesUp};

use crate::course::Course;
use gal_io::Bytes;
use packet_fields::Packet;
use replay_contracts::{Job, ReplayError, Stepped};
use replay_state::Pass;
use std::alloc::Global;
use switch_ir::{DownEnd, PortError, SwitchPort, UpEnd};

// The switch takes a packet that arrived: in one call, or in the first of those for the stages of its pass.
fn arrive<S: SwitchPort>(
    alloc: Global,
    port: &mut S,
    fine: bool,
    number: u32,
    packet: &Packet,
) -> Result<UpEnd, PortError>
    requires loaded { IsLoaded (S.seen port.old) }
    requires size { length packet.now.bytes ≤ largest_packet }
    requires none { HasNoUpPass (S.seen port.old) number }
    ensures { TakesUp fine result number packet.now (S.seen port.old) (S.seen port.new) }
{
    if fine {
        port.begin_up(alloc, number, packet.port, packet.bytes.as_slice())
    } else {
        port.pass_up(alloc, number, packet.port, packet.bytes.as_slice())
    }
}

// The switch takes a frame that comes down, in the same way.
fn come_down<S: SwitchPort>(
    alloc: Global,
    port: &mut S,
    fine: bool,
    frame: &Bytes,
) -> Result<DownEnd, PortError>
    requires loaded { IsLoaded (S.seen port.old) }
    requires frame { IsDownFrame (S.seen port.old) frame.now }
    requires none { HasNoDownPassOf (S.seen port.old) frame.now }
    ensures { TakesDown fine result frame.now (S.seen port.old) (S.seen port.new) }
{
    if fine {
        port.begin_down(alloc, frame.as_slice())
    } else {
        port.pass_down(alloc, frame.as_slice())
    }
}

impl Course {
    /// The switch takes the next packet of the trace.
    pub fn admit<S: SwitchPort>(
        &mut self,
        alloc: Global,
        job: &Job,
        port: &mut S,
    ) -> Result<Stepped, ReplayError>
        requires going { CanGoOn (inputs_of job.now) self.old (S.seen port.old) }
        requires events { self.old.events < 2 ^ 32 - 1 }
        requires may_call { MayCall (inputs_of job.now) self.old (S.seen port.old) }
        ensures turned { IfOk result (λ stepped.
            HasAdvanced (inputs_of job.now) event.Admit stepped self.old (S.seen port.old) self.new (S.seen port.new)) }
        ensures fails { IfErr result (λ e. Fails e (S.seen port.old) (S.seen port.new)) }
    {
        let Some(packet) = job.packets.as_slice().get(self.fates.len()) else {
            return Ok(self.idled());
        };
        let pass = self.admit_next()?;
        let end = arrive(alloc, port, job.fine, pass.number, packet)?;
        self.come_in(pass, end)?;
        Ok(Stepped::Did)
    }

    /// The pass at place `j` of those under way takes a stage.
    pub fn stage<S: SwitchPort>(
        &mut self,
        alloc: Global,
        job: &Job,
        port: &mut S,
        j: u32,
    ) -> Result<Stepped, ReplayError>
        requires going { CanGoOn (inputs_of job.now) self.old (S.seen port.old) }
        requires events { self.old.events < 2 ^ 32 - 1 }
        requires may_call { MayCall (inputs_of job.now) self.old (S.seen port.old) }
        ensures turned { IfOk result (λ stepped.
            HasAdvanced (inputs_of job.now) (event.Stage j) stepped self.old (S.seen port.old) self.new
            (S.seen port.new)) }
        ensures fails { IfErr result (λ e. Fails e (S.seen port.old) (S.seen port.new)) }
    {
        let Some(pass) = self.passes.get(j as usize) else {
            return Ok(self.idled());
        };
        self.events += 1;
        if pass.pre {
            match port.stage_up(alloc, pass.number)? {
                UpEnd::Going => {
                    self.passes.take_stage(j as usize, pass);
                    Ok(Stepped::Did)
                }
                end => {
                    let _ = self.passes.remove(j as usize);
                    self.come_in(pass, end)?;
                    Ok(Stepped::Did)
                }
            }
        } else {
            match port.stage_down(alloc, pass.number)? {
                DownEnd::Going => {
                    self.passes.take_stage(j as usize, pass);
                    Ok(Stepped::Did)
                }
                end => {
                    let _ = self.passes.remove(j as usize);
                    self.come_out(pass, end)?;
                    Ok(Stepped::Did)
                }
            }
        }
    }

    /// The switch applies the next command, unless it has to wait for a pass under way.
    pub fn apply<S: SwitchPort>(&mut self, job: &Job, port: &mut S) -> Result<Stepped, ReplayError>
        requires going { CanGoOn (inputs_of job.now) self.old (S.seen port.old) }
        requires events { self.old.events < 2 ^ 32 - 1 }
        requires may_call { MayCall (inputs_of job.now) self.old (S.seen port.old) }
        ensures turned { IfOk result (λ stepped.
            HasAdvanced (inputs_of job.now) event.Apply stepped self.old (S.seen port.old) self.new (S.seen port.new)) }
        ensures fails { IfErr result (λ e. Fails e (S.seen port.old) (S.seen port.new)) }
    {
        let Some(command) = self.next_command() else {
            return Ok(Stepped::Idle);
        };
        port.command(&command)?;
        Ok(Stepped::Did)
    }

    /// The switch takes the frame at place `j` of those that come down.
    pub fn down<S: SwitchPort>(
        &mut self,
        alloc: Global,
        job: &Job,
        port: &mut S,
        j: u32,
    ) -> Result<Stepped, ReplayError>
        requires going { CanGoOn (inputs_of job.now) self.old (S.seen port.old) }
        requires events { self.old.events < 2 ^ 32 - 1 }
        requires may_call { MayCall (inputs_of job.now) self.old (S.seen port.old) }
        ensures turned { IfOk result (λ stepped.
            HasAdvanced (inputs_of job.now) (event.Down j) stepped self.old (S.seen port.old) self.new
            (S.seen port.new)) }
        ensures fails { IfErr result (λ e. Fails e (S.seen port.old) (S.seen port.new)) }
    {
        let Some((number, frame)) = self.down.remove(j as usize) else {
            return Ok(self.idled());
        };
        self.events += 1;
        let pass = self.entering(false, number);
        let end = come_down(alloc, port, job.fine, &frame)?;
        self.come_out(pass, end)?;
        Ok(Stepped::Did)
    }
}
