//! The memory that a packet takes.
ghost use Rattle.std.specs.Prelude.{◌≡◌, ◌≤◌, [], vec_capacity, IfOk};
ghost use Rattle.transfer_header.specs.Frames.{HasRoom};

use crate::plan::PreparedProgram;
use gal_io::NoMemory;
use std::alloc::Global;
use transfer_header::FrameRoom;
use writeback_table::Update;

/// All memory for what comes of a packet, which is taken before the store changes.
#[derive(Drop)]
pub(crate) struct Room {
    /// Room for the frame that goes down with the packet's bytes.
    pub frame: FrameRoom,
    /// Room for as many changes as there are writes to replicated objects in the program.
    pub updates: Vec<Update>,
}

impl Room {
    /// Room for what comes of a packet of so many bytes.
    pub(crate) fn take(
        alloc: Global,
        whole: &PreparedProgram,
        packet: usize,
    ) -> Result<Room, NoMemory>
        ensures frame { IfOk result (λ room. HasRoom whole.now.down packet room.frame) }
        ensures empty { IfOk result (λ room. room.updates.items ≡ []) }
        ensures updates { IfOk result (λ room. whole.now.writes ≤ vec_capacity room.updates) }
    {
        Ok(Room {
            frame: FrameRoom::new(alloc, &whole.down, packet)?,
            updates: Vec::with_capacity(alloc, whole.writes)?,
        })
    }
}
