//! Which calls of a switch are to fail.
ghost use Rattle.std.specs.Prelude.{◌≡◌, ◌≤◌};
ghost use Rattle.gal_io.specs.Count.{one_more};
ghost use Rattle.switch_machine.specs.Counts.{count_of, counted, counts_of};
ghost use Rattle.switch_machine.specs.Machine.{is_planned, same_kind};

/// A call of a switch.
#[derive(Clone, Copy, Debug)]
pub enum CallKind {
    Load,
    Room,
    Up,
    Down,
    BeginUp,
    StageUp,
    BeginDown,
    StageDown,
    Command,
    Visible,
}

/// How many calls there were of each kind.
#[derive(Clone, Copy)]
pub(crate) struct Calls {
    pub load: u64,
    pub room: u64,
    pub up: u64,
    pub down: u64,
    pub begin_up: u64,
    pub stage_up: u64,
    pub begin_down: u64,
    pub stage_down: u64,
    pub command: u64,
    pub visible: u64,
}

impl Calls {
    /// No calls.
    pub fn none() -> Calls
        ensures { counts_of result
            ≡ record {
              load = 0;
              room = 0;
              up = 0;
              down = 0;
              begin_up = 0;
              stage_up = 0;
              begin_down = 0;
              stage_down = 0;
              command = 0;
              visible = 0;
            } }
    {
        Calls {
            load: 0,
            room: 0,
            up: 0,
            down: 0,
            begin_up: 0,
            stage_up: 0,
            begin_down: 0,
            stage_down: 0,
            command: 0,
            visible: 0,
        }
    }

    /// Counts a call, and answers its number among those of its kind, from 1.
    pub fn count(&mut self, kind: CallKind) -> u64
        ensures counted { counts_of self.new ≡ counted (counts_of self.old) kind }
        ensures number { result ≡ one_more (count_of (counts_of self.old) kind) }
    {
        match kind {
            CallKind::Load => count(&mut self.load),
            CallKind::Room => count(&mut self.room),
            CallKind::Up => count(&mut self.up),
            CallKind::Down => count(&mut self.down),
            CallKind::BeginUp => count(&mut self.begin_up),
            CallKind::StageUp => count(&mut self.stage_up),
            CallKind::BeginDown => count(&mut self.begin_down),
            CallKind::StageDown => count(&mut self.stage_down),
            CallKind::Command => count(&mut self.command),
            CallKind::Visible => count(&mut self.visible),
        }
    }
}

/// Counts one more, and answers the count.
pub(crate) fn count(number: &mut u64) -> u64
    ensures counted { number.new ≡ one_more number.old }
    ensures rises { number.old ≤ number.new }
    ensures told { result ≡ number.new }
{
    *number = number.saturating_add(1);
    *number
}

// Whether two calls are of one kind.
fn same_kind(kind: CallKind, other: CallKind) -> bool
    ensures { result ≡ same_kind kind other }
{
    match (kind, other) {
        (CallKind::Load, CallKind::Load) => true,
        (CallKind::Room, CallKind::Room) => true,
        (CallKind::Up, CallKind::Up) => true,
        (CallKind::Down, CallKind::Down) => true,
        (CallKind::BeginUp, CallKind::BeginUp) => true,
        (CallKind::StageUp, CallKind::StageUp) => true,
        (CallKind::BeginDown, CallKind::BeginDown) => true,
        (CallKind::StageDown, CallKind::StageDown) => true,
        (CallKind::Command, CallKind::Command) => true,
        (CallKind::Visible, CallKind::Visible) => true,
        _ => false,
    }
}

/// Whether the call of this kind and number is to fail.
pub(crate) fn is_planned(planned: &[(CallKind, u64)], kind: CallKind, call: u64) -> bool
    ensures { result ≡ is_planned planned.now kind call }
{
    for (planned_kind, number) in planned {
        if same_kind(*planned_kind, kind) && *number == call {
            return true;
        }
    }
    false
}
