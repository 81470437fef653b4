//! The switch as the rest of the program calls it.
ghost use Rattle.std.specs.Prelude.{◌≡◌, ◌≤◌, ◌<◌, length, IfOk};
ghost use Rattle.packet_fields.specs.Sizes.{largest_packet};
ghost use Rattle.switch_ir.specs.Code.{code_of};
ghost use Rattle.switch_ir.specs.Emitted.{IsEmitted};
ghost use Rattle.switch_ir.specs.Port.{PortState, Loads, MakesRoom, PassesUp, PassesDown, Commands, ShowsRows};
ghost use Rattle.switch_ir.specs.Port.{BeginsUp, StagesUp, BeginsDown, StagesDown};
ghost use Rattle.switch_ir.specs.Port.{IsLoaded, IsDownFrame, HasReplicated, CanCommand, HasRoomFor, WaitsForNone};
ghost use Rattle.switch_ir.specs.Port.{HasNoUpPass, HasUpPass, HasNoDownPassOf, HasDownPass};

use crate::code::SwitchCode;
use gal_io::{Bytes, NoMemory};
use packet_fields::Verdict;
use state_store::Rows;
use std::alloc::Global;
use writeback_table::Command;

/// Why a call of a switch has no answer.
#[derive(Clone, Copy, PartialEq, Eq)]
pub enum PortError {
    /// The switch failed, and its count of faults rose by one. The code, the tables and the passes are as before.
    Failed,
    /// There was no memory. All is as before.
    NoMemory,
}

impl From<NoMemory> for PortError {
    ghost use Rattle.switch_ir.specs.declared.port.PortError.TheVariants as error;

    ghost from_gives = { λ _ e. e ≡ error.NoMemory };

    fn from(_: NoMemory) -> PortError {
        PortError::NoMemory
    }
}

/// How the pass over a packet that arrives ends.
#[derive(Drop)]
pub enum UpEnd {
    /// The switch finished the packet by itself.
    Finished(Verdict),
    /// The packet goes up to the server, in this frame.
    Up(Bytes),
    /// The pass has stages left. A pass of one call never ends so.
    Going,
}

/// How the pass over a packet that comes down ends.
#[derive(Drop)]
pub enum DownEnd {
    Verdict(Verdict),
    /// The pass has stages left. A pass of one call never ends so.
    Going,
}

impl UpEnd {
    /// The same again, in memory of its own.
    pub fn copy(&self, alloc: Global) -> Result<UpEnd, NoMemory>
        ensures { IfOk result (λ made. made ≡ self.now) }
    {
        Ok(match self {
            UpEnd::Finished(verdict) => UpEnd::Finished(copy_verdict(alloc, verdict)?),
            UpEnd::Up(frame) => UpEnd::Up(frame.copy(alloc)?),
            UpEnd::Going => UpEnd::Going,
        })
    }
}

impl DownEnd {
    /// The same again, in memory of its own.
    pub fn copy(&self, alloc: Global) -> Result<DownEnd, NoMemory>
        ensures { IfOk result (λ made. made ≡ self.now) }
    {
        Ok(match self {
            DownEnd::Verdict(verdict) => DownEnd::Verdict(copy_verdict(alloc, verdict)?),
            DownEnd::Going => DownEnd::Going,
        })
    }
}

fn copy_verdict(alloc: Global, verdict: &Verdict) -> Result<Verdict, NoMemory>
    ensures { IfOk result (λ made. made ≡ verdict.now) }
{
    Ok(match verdict {
        Verdict::Drop => Verdict::Drop,
        Verdict::Send(port, bytes) => Verdict::Send(*port, bytes.copy(alloc)?),
    })
}

/// A switch.
///
/// Contracts see the code that is loaded, the tables and the bit where the switch tells them, the passes under way, a
/// journal of its calls, for how many commands there is memory, and a count of calls that failed, which each of them
/// raises by one, and no other call changes. The count stands still at 2^64 - 1, where a further fault still counts as
/// risen.
///
/// A packet passes in one call, or stage by stage: one call begins its pass with stage 0, and one more takes each of the
/// other stages. Such a pass sees the tables as they stand at each of its stages, but goes by the bit that stood at its
/// entry. A stage call that fails, or finds no memory, leaves the pass as it was.
pub trait SwitchPort {
    ghost seen: { Self → PortState };

    /// Loads code: the tables have their start rows, the bit is 0, no pass is under way, and the journal begins anew.
    fn load(&mut self, alloc: Global, code: &SwitchCode) -> Result<(), PortError>
        requires { IsEmitted (code_of code.now) }
        ensures { Loads result (code_of code.now) (seen self.old) (seen self.new) };

    /// Takes the memory for this many commands.
    fn room(&mut self, alloc: Global, commands: usize) -> Result<(), PortError>
        requires { IsLoaded (seen self.old) }
        ensures { MakesRoom result commands (seen self.old) (seen self.new) };

    /// A packet arrives, which is known by its number.
    fn pass_up(
        &mut self,
        alloc: Global,
        number: u32,
        port: u8,
        packet: &[u8],
    ) -> Result<UpEnd, PortError>
        requires loaded { IsLoaded (seen self.old) }
        requires size { length packet.now ≤ largest_packet }
        ensures { PassesUp result number port packet.now (seen self.old) (seen self.new) };

    /// A frame comes down from the server.
    fn pass_down(&mut self, alloc: Global, frame: &[u8]) -> Result<DownEnd, PortError>
        requires loaded { IsLoaded (seen self.old) }
        requires frame { IsDownFrame (seen self.old) frame.now }
        ensures { PassesDown result frame.now (seen self.old) (seen self.new) };

    /// A packet arrives, which is known by its number, and its pass enters. It ends at once where it has no stage above
    /// 0, as `pass_up` does.
    fn begin_up(
        &mut self,
        alloc: Global,
        number: u32,
        port: u8,
        packet: &[u8],
    ) -> Result<UpEnd, PortError>
        requires loaded { IsLoaded (seen self.old) }
        requires size { length packet.now ≤ largest_packet }
        requires none { HasNoUpPass (seen self.old) number }
        ensures { BeginsUp result number port packet.now (seen self.old) (seen self.new) };

    /// The pass over the packet of this number that arrived takes a stage.
    fn stage_up(&mut self, alloc: Global, number: u32) -> Result<UpEnd, PortError>
        requires { HasUpPass (seen self.old) number }
        ensures { StagesUp result number (seen self.old) (seen self.new) };

    /// A frame comes down from the server, and the pass of its packet enters. It ends at once where it has no stage above
    /// 0, as `pass_down` does.
    fn begin_down(&mut self, alloc: Global, frame: &[u8]) -> Result<DownEnd, PortError>
        requires loaded { IsLoaded (seen self.old) }
        requires frame { IsDownFrame (seen self.old) frame.now }
        requires none { HasNoDownPassOf (seen self.old) frame.now }
        ensures { BeginsDown result frame.now (seen self.old) (seen self.new) };

    /// The pass over the packet of this number that came down takes a stage.
    fn stage_down(&mut self, alloc: Global, number: u32) -> Result<DownEnd, PortError>
        requires { HasDownPass (seen self.old) number }
        ensures { StagesDown result number (seen self.old) (seen self.new) };

    /// Changes a table or the bit. A command that would change what a pass under way sees has to wait for it: a change of
    /// the main tables for passes that entered with bit 0, and one that is staged for those that entered with bit 1. This
    /// takes no memory.
    fn command(&mut self, command: &Command) -> Result<(), PortError>
        requires loaded { IsLoaded (seen self.old) }
        requires named { CanCommand (seen self.old) command.now }
        requires spare { 0 < (seen self.old).spare }
        requires room { HasRoomFor (seen self.old) command.now }
        requires waits { WaitsForNone (seen self.old) command.now }
        ensures { Commands result command.now (seen self.old) (seen self.new) };

    /// The rows of an object that lookups see.
    fn visible(&mut self, alloc: Global, object: u32) -> Result<Rows, PortError>
        requires loaded { IsLoaded (seen self.old) }
        requires replicated { HasReplicated (seen self.old) object }
        ensures { ShowsRows result object (seen self.old) (seen self.new) };
}
