//! Passes that are under way, stage by stage.
ghost use Rattle.std.specs.Prelude.{◌≡◌, ◌≤◌, ◌<◌, suc, length, vec_capacity, IfOk, IsSome, OnErr, OnOk, None, Some};
ghost use Rattle.packet_fields.specs.Shape.{shape_of};
ghost use Rattle.packet_fields.specs.Sizes.{largest_packet};
ghost use Rattle.flat_ir.specs.Registers.{packet_of};
ghost use Rattle.switch_ir.specs.Tables.{view_of};
ghost use Rattle.switch_machine.specs.ActivePasses.{active_in, packet_in, with_pass, IsBegun};
ghost use Rattle.switch_machine.specs.Ready.{all_placed, reads_at, ready_at, ready_gives, CanAll, HoldResults};

use crate::passes::run_stage;
use crate::ready::ReadyStages;
use crate::tables::{SwitchTables, View};
use flat_ir::Arrival;
use gal_io::{Bytes, NoMemory};
use packet_fields::Shape;
use std::alloc::Global;
use std::collections::BTreeMap;
use transfer_header::Regs;

/// A pass between two of its stages.
#[derive(Drop)]
pub(crate) struct ActivePass {
    pub port: u8,
    pub packet: Bytes,
    /// The packet's headers.
    pub shape: Shape,
    /// The bit that stood at its entry.
    pub bit: bool,
    /// The stage that is done.
    pub stage: usize,
    /// The numbers of its registers. Their plan stays with the code.
    pub registers: Regs,
}

impl ActivePass {
    /// A pass whose stage 0 is done, in registers of its own that have these numbers.
    pub fn new(
        alloc: Global,
        registers: &Regs,
        arrival: &Arrival<'_>,
        bit: bool,
    ) -> Result<ActivePass, NoMemory>
        requires shape { arrival.now.shape ≡ shape_of arrival.now.bytes.now }
        ensures { IfOk result (IsBegun (packet_of arrival.now) bit registers.now.numbers) }
    {
        let mut own = Regs::new(alloc, registers.len())?;
        copy_numbers(registers, &mut own);
        Ok(ActivePass {
            port: arrival.port,
            packet: Bytes::from_slice(alloc, arrival.bytes)?,
            shape: arrival.shape,
            bit,
            stage: 0,
            registers: own,
        })
    }

    /// The packet of the pass.
    pub fn arrival(&self) -> Arrival<'_>
        ensures packet { packet_of result ≡ packet_in self.now }
        ensures shape { result.shape ≡ self.now.shape }
    {
        Arrival {
            port: self.port,
            bytes: self.packet.as_slice(),
            shape: self.shape,
        }
    }

    /// Takes the next stage, over the tables as the pass sees them. Its own steps are all that this costs.
    pub fn step(&mut self, stages: &ReadyStages, tables: &SwitchTables, results: &mut Vec<u64>)
        requires can { CanAll stages.now }
        requires within { suc self.old.stage < length stages.now }
        requires size { length self.old.packet ≤ largest_packet }
        requires shape { self.old.shape ≡ shape_of self.old.packet }
        requires room { HoldResults stages.now (vec_capacity results.old) }
        ensures steps { self.new ≡ record self.old {
          stage = suc self.old.stage;
          registers = all_placed self.old.registers
              (ready_gives (ready_at stages.now (suc self.old.stage)) (reads_at self.old.registers.numbers)
              (view_of self.old.bit tables.now.pairs) (packet_in self.old));
        } }
        ensures capacity { vec_capacity results.new ≡ vec_capacity results.old }
    {
        let view = View {
            tables,
            bit: self.bit,
        };
        let arrival = Arrival {
            port: self.port,
            bytes: self.packet.as_slice(),
            shape: self.shape,
        };
        let count = stages.len();
        prove!(self.stage < count);
        let stage = self.stage + 1;
        run_stage(
            stages.stage(stage),
            &view,
            &arrival,
            &mut self.registers,
            results,
        );
        self.stage = stage;
    }
}

/// The pass over the packet of this number.
pub(crate) fn active_pass_of(active: &BTreeMap<u32, ActivePass>, number: u32) -> &ActivePass
    requires { IsSome (active_in active.now number) }
    ensures { active_in active.now number ≡ Some result.now }
{
    match active.get(&number) {
        Some(active_pass) => active_pass,
        None => unreachable!(),
    }
}

/// Puts in a pass over the packet of this number, in place of another.
pub(crate) fn put_in(
    active: &mut BTreeMap<u32, ActivePass>,
    number: u32,
    active_pass: ActivePass,
) -> Result<(), NoMemory>
    ensures put { OnOk result (active_in active.new ≡ with_pass number (Some active_pass) (active_in active.old)) }
    ensures err { OnErr result (active_in active.new ≡ active_in active.old) }
{
    active.insert(number, active_pass)?;
    Ok(())
}

/// Gives registers the numbers of others, of which there are as many.
pub(crate) fn copy_numbers(from: &Regs, to: &mut Regs)
    requires { length to.old.numbers ≡ length from.now.numbers }
    ensures { to.new ≡ record { plan = to.old.plan; numbers = from.now.numbers } }
{
    let numbers = from.as_slice();
    for place in 0..from.len() {
        to.set_at(place, numbers[place as usize]);
    }
}
