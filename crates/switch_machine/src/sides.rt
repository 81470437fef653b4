//! The two sides of the server, and the calls over packets at them.
ghost use Rattle.std.specs.Prelude.{◌≡◌, Ok, IfOk, OnErr, OnOk};
ghost use Rattle.switch_machine.specs.Sides.{down_of, entry_for, is_going, kind_of, side_of, up_from, with_last, IsOf};
ghost use Rattle.switch_ir.specs.declared.port.UpEnd.TheVariants.{Going};
ghost use Rattle.switch_machine.specs.declared.sides.Side.TheVariants.{Behind};
ghost use Rattle.switch_machine.specs.declared.sides.Event.TheVariants.{Stage};

use crate::calls::CallKind;
use gal_io::NoMemory;
use switch_ir::{Call, DownEnd, Journal, PortError, UpEnd};

/// A side of the server: packets that arrive pass the switch before the server, and those that come down behind it.
#[derive(Clone, Copy)]
pub(crate) enum Side {
    Before,
    Behind,
}

impl Side {
    /// Puts a call last in a journal by which a pass at this side takes a stage that isn't its last.
    pub fn note_stage(self, journal: &mut Journal, number: u32) -> Result<(), NoMemory>
        ensures noted { OnOk result (journal.new ≡ with_last (entry_for (Stage self number) (Ok Going)) journal.old) }
        ensures err { OnErr result (journal.new ≡ journal.old) }
    {
        match self {
            Side::Before => journal.note(Call::StageUp(number, &Ok(UpEnd::Going))),
            Side::Behind => journal.note(Call::StageDown(number, &Ok(DownEnd::Going))),
        }
    }
}

/// Whether the pass has stages left.
pub(crate) fn is_going(end: &UpEnd) -> bool
    ensures { result ≡ is_going end.now }
{
    matches!(end, UpEnd::Going)
}

/// How a call behind the server ends, where no packet goes up.
pub(crate) fn down_end(end: Result<UpEnd, PortError>) -> Result<DownEnd, PortError>
    requires { IfOk end (IsOf Behind) }
    ensures { result ≡ down_of end }
{
    match end {
        Ok(UpEnd::Going) => Ok(DownEnd::Going),
        Ok(UpEnd::Up(_)) => unreachable!(),
        Ok(UpEnd::Finished(verdict)) => Ok(DownEnd::Verdict(verdict)),
        Err(error) => Err(error),
    }
}

// The end of which it was made.
fn up_end(end: Result<DownEnd, PortError>) -> Result<UpEnd, PortError>
    ensures { result ≡ up_from end }
{
    match end {
        Ok(DownEnd::Going) => Ok(UpEnd::Going),
        Ok(DownEnd::Verdict(verdict)) => Ok(UpEnd::Finished(verdict)),
        Err(error) => Err(error),
    }
}

/// A call over a packet, but for its end.
#[derive(Clone, Copy)]
pub(crate) enum Event<'a> {
    /// A packet of this number arrives at this port. Its pass begins, or goes to its end at once where it is whole.
    Up(u32, u8, &'a [u8], bool),
    /// A frame comes down. The pass of its packet begins, or goes to its end at once where it is whole.
    Down(&'a [u8], bool),
    /// The pass over the packet of this number at a side takes a stage.
    Stage(Side, u32),
}

impl Event<'_> {
    /// Where it is.
    pub fn side(&self) -> Side
        ensures { result ≡ side_of self.now }
    {
        match *self {
            Event::Up(..) => Side::Before,
            Event::Down(..) => Side::Behind,
            Event::Stage(side, _) => side,
        }
    }

    /// The kind of the call.
    pub fn kind(&self) -> CallKind
        ensures { result ≡ kind_of self.now }
    {
        match *self {
            Event::Up(_, _, _, true) => CallKind::Up,
            Event::Up(_, _, _, false) => CallKind::BeginUp,
            Event::Down(_, true) => CallKind::Down,
            Event::Down(_, false) => CallKind::BeginDown,
            Event::Stage(Side::Before, _) => CallKind::StageUp,
            Event::Stage(Side::Behind, _) => CallKind::StageDown,
        }
    }

    /// Puts it last in a journal with its answer, and gives the answer back.
    pub fn note(&self, journal: &mut Journal, end: UpEnd) -> Result<UpEnd, NoMemory>
        requires { IsOf (side_of self.now) end }
        ensures end { IfOk result (λ same. same ≡ end) }
        ensures noted { OnOk result (journal.new ≡ with_last (entry_for self.now (Ok end)) journal.old) }
        ensures err { OnErr result (journal.new ≡ journal.old) }
    {
        match self.note_end(journal, Ok(end))? {
            Ok(same) => Ok(same),
            Err(_) => unreachable!(),
        }
    }

    /// Puts it last in a journal with its end, also where it failed, and gives the end back.
    #[tactic(auto, using(crate::proofs::LeftByCalls::same_end))]
    pub fn note_end(
        &self,
        journal: &mut Journal,
        end: Result<UpEnd, PortError>,
    ) -> Result<Result<UpEnd, PortError>, NoMemory>
        requires { IfOk end (IsOf (side_of self.now)) }
        ensures end { IfOk result (λ same. same ≡ end) }
        ensures noted { OnOk result (journal.new ≡ with_last (entry_for self.now end) journal.old) }
        ensures err { OnErr result (journal.new ≡ journal.old) }
    {
        match *self {
            Event::Up(number, port, packet, true) => {
                journal.note(Call::Up(number, port, packet, &end))?;
                Ok(end)
            }
            Event::Up(number, port, packet, false) => {
                journal.note(Call::BeginUp(number, port, packet, &end))?;
                Ok(end)
            }
            Event::Stage(Side::Before, number) => {
                journal.note(Call::StageUp(number, &end))?;
                Ok(end)
            }
            Event::Down(frame, true) => {
                let end = down_end(end);
                journal.note(Call::Down(frame, &end))?;
                Ok(up_end(end))
            }
            Event::Down(frame, false) => {
                let end = down_end(end);
                journal.note(Call::BeginDown(frame, &end))?;
                Ok(up_end(end))
            }
            Event::Stage(Side::Behind, number) => {
                let end = down_end(end);
                journal.note(Call::StageDown(number, &end))?;
                Ok(up_end(end))
            }
        }
    }
}
