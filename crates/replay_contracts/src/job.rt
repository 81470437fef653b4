//! What is replayed, and what comes of it.

use flat_ir::Flat;
use gal_io::NoMemory;
use packet_fields::Packets;
use run_model::{Events, Run};
use split_model::Split;
use std::alloc::{AllocError, AllocFailed};
use switch_ir::PortError;

/// A split program, the packets of a trace, and a schedule.
#[derive(Drop)]
pub struct Job {
    pub flat: Flat,
    pub split: Split,
    /// How many rows may be staged for each object of the switch.
    pub writeback: u32,
    pub packets: Packets,
    /// Whether each pass takes an event for each of its stages, and not one in all.
    pub fine: bool,
    pub events: Events,
    /// Whether events follow until every packet is released and nothing is on its way.
    pub drain: bool,
}

/// What came of a replay.
#[derive(Drop)]
pub struct Replayed {
    pub run: Run,
    /// How many commands there were for the switch, sent or not.
    pub commands: u32,
}

/// Why a replay stops.
#[derive(Clone, Copy, Debug, PartialEq, Eq)]
pub enum ReplayError {
    /// A call of the switch failed.
    PortFault,
    NoMemory,
}

/// Whether an event did anything.
#[derive(Clone, Copy, PartialEq, Eq)]
pub enum Stepped {
    Did,
    /// The event couldn't apply: it was counted, and nothing else changed.
    Idle,
}

impl From<PortError> for ReplayError {
    ghost use Rattle.std.specs.Prelude.{◌≡◌};
    ghost use Rattle.replay_contracts.specs.Replayer.{error_of};

    ghost from_gives = { λ cause error. error ≡ error_of cause };

    fn from(cause: PortError) -> Self {
        match cause {
            PortError::Failed => ReplayError::PortFault,
            PortError::NoMemory => ReplayError::NoMemory,
        }
    }
}

impl From<NoMemory> for ReplayError {
    ghost use Rattle.std.specs.Prelude.{◌≡◌};
    ghost use Rattle.replay_contracts.specs.declared.job.ReplayError.TheVariants as errors;

    ghost from_gives = { λ _ error. error ≡ errors.NoMemory };

    fn from(_: NoMemory) -> Self {
        ReplayError::NoMemory
    }
}

impl From<AllocError> for ReplayError {
    ghost use Rattle.std.specs.Prelude.{◌≡◌};
    ghost use Rattle.replay_contracts.specs.declared.job.ReplayError.TheVariants as errors;

    ghost from_gives = { λ _ error. error ≡ errors.NoMemory };

    fn from(_: AllocError) -> Self {
        ReplayError::NoMemory
    }
}

impl<T: Drop> From<AllocFailed<T>> for ReplayError {
    ghost use Rattle.std.specs.Prelude.{◌≡◌};
    ghost use Rattle.replay_contracts.specs.declared.job.ReplayError.TheVariants as errors;

    ghost from_gives = { λ _ error. error ≡ errors.NoMemory };

    fn from(_: AllocFailed<T>) -> Self {
        ReplayError::NoMemory
    }
}
