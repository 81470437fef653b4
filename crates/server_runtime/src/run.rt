//! The server's run of a packet.
ghost use Rattle.std.specs.Prelude.{◌≡◌, ◌↔◌, ◌≤◌, ◌-◌, ◌++◌, [], length, take, drop, vec_capacity};
ghost use Rattle.std.specs.Prelude.{Err, IfOk, IsOk, OnErr};
ghost use Rattle.packet_fields.specs.Shape.{shape_of};
ghost use Rattle.packet_fields.specs.Sizes.{largest_packet};
ghost use Rattle.state_store.specs.Kept.{IsKept};
ghost use Rattle.flat_ir.specs.Arrivals.{IsArrival};
ghost use Rattle.flat_ir.specs.Laws.{AllFit};
ghost use Rattle.flat_ir.specs.Program.{program_of};
ghost use Rattle.flat_ir.specs.Registers.{packet_of};
ghost use Rattle.flat_ir.specs.Run.{with_writes};
ghost use Rattle.split_model.specs.Layouts.{up_layout};
ghost use Rattle.split_model.specs.Passes.{server_fields};
ghost use Rattle.transfer_header.specs.Frames.{HasRoom, IsFrame};
ghost use Rattle.transfer_header.specs.Steps.{IsReady};
ghost use Rattle.transfer_header.specs.Told.{number_in, packet_in, reads_in};
ghost use Rattle.server_runtime.specs.Plans.{IsPrepared};
ghost use Rattle.server_runtime.specs.Registers.{contents_of, handed, register_reads, AreSeats, AreServing};
ghost use Rattle.server_runtime.specs.Resolved.{instructions_of, AreResolved};
ghost use Rattle.server_runtime.specs.Serving.{followed_writes};
ghost use Rattle.server_runtime.specs.Spans.{server_spans};
ghost use Rattle.server_runtime.specs.StepsTaken.{IsOutcome, IsRead, IsServing};
ghost use Rattle.server_runtime.specs.Walks.{AreDue};

use crate::plan::{PreparedProgram, ServerPlan};
use crate::registers::Registers;
use crate::room::Room;
use crate::served::ServeError;
use crate::step::take_step;
use flat_ir::{Arrival, write_fields};
use gal_io::Bytes;
use packet_fields::Shape;
use state_store::Store;
use std::alloc::Global;
use transfer_header::{Head, Malformed, Regs, pack_down_in, unpack_up};
use writeback_table::{Update, Updates};

/// What came of a packet.
#[derive(Drop)]
pub(crate) struct Ran {
    /// The packet's number.
    pub number: u32,
    /// The frame that goes down.
    pub down: Bytes,
    /// What the switch is told.
    pub updates: Updates,
    /// How many instructions other than consts and fields were evaluated.
    pub evaluated: u32,
}

// All steps of the server, in order. What the switch is told goes into `updates`, which has room for it.
fn take_steps(
    whole: &PreparedProgram,
    arrival: &Arrival<'_>,
    values: &mut Regs,
    store: &mut Store,
    updates: &mut Vec<Update>,
)
    requires prepared { IsPrepared whole.now }
    requires steps { AreDue (program_of whole.now.flat) whole.now.split (instructions_of whole.now.steps.items) }
    requires resolved { AreResolved (program_of whole.now.flat) whole.now.seats.items whole.now.steps.items values.old }
    requires kept { IsKept whole.now.flat.objects store.old }
    requires ready { let f = program_of whole.now.flat in
        IsReady (server_spans f whole.now.split) values.old (contents_of f (handed f whole.now.split values.old)) 1 }
    requires fit { let f = program_of whole.now.flat in AllFit f (handed f whole.now.split values.old) }
    requires arrives { IsArrival (packet_of arrival.now) }
    requires shape { arrival.now.shape ≡ shape_of arrival.now.bytes.now }
    requires empty { updates.old.items ≡ [] }
    requires room { followed_writes (program_of whole.now.flat) whole.now.split ≤ vec_capacity updates.old }
    ensures run { let f = program_of whole.now.flat in
        IsServing f whole.now.split (handed f whole.now.split values.old) store.old (packet_of arrival.now)
        (length f.code) values.new store.new updates.new.items }
    ensures resolved { AreResolved (program_of whole.now.flat) whole.now.seats.items whole.now.steps.items values.new }
    ensures kept { IsKept whole.now.flat.objects store.new }
{
    for step in &whole.steps {
        take_step(whole, arrival, step, values, store, updates);
    }
}

// A frame, where the fields are set in its packet that the server sets. They are set in the frame's own bytes, of which
// the packet's are the last ones.
fn set_fields(
    whole: &PreparedProgram,
    values: &Regs,
    arrival: &Arrival<'_>,
    mut frame: Vec<u8>,
) -> Bytes
    requires prepared { IsPrepared whole.now }
    requires seats { AreSeats (program_of whole.now.flat) whole.now.seats.items values.now }
    requires size { length arrival.now.bytes.now ≤ largest_packet }
    requires shape { arrival.now.shape ≡ shape_of arrival.now.bytes.now }
    requires within { length arrival.now.bytes.now ≤ length frame.items }
    requires last { drop (length frame.items - length arrival.now.bytes.now) frame.items ≡ arrival.now.bytes.now }
    ensures { let f = program_of whole.now.flat in
        let packet = arrival.now.bytes.now in
        result ≡ take (length frame.items - length packet) frame.items
        ++ with_writes (server_fields f whole.now.split) (register_reads f values.now) packet }
{
    let numbers = Registers { whole, values };
    let packet_at = frame.len() - arrival.bytes.len();
    write_fields(
        &whole.fields,
        &numbers,
        &arrival.shape,
        &mut frame[packet_at..],
    );
    Bytes::from(frame)
}

// The server's run of a packet. This takes no memory besides `room`.
fn run(
    whole: &PreparedProgram,
    arrival: &Arrival<'_>,
    number: u32,
    values: &mut Regs,
    store: &mut Store,
    room: Room,
) -> Ran
    requires prepared { IsPrepared whole.now }
    requires steps { AreDue (program_of whole.now.flat) whole.now.split (instructions_of whole.now.steps.items) }
    requires resolved { AreResolved (program_of whole.now.flat) whole.now.seats.items whole.now.steps.items values.old }
    requires kept { IsKept whole.now.flat.objects store.old }
    requires ready { let f = program_of whole.now.flat in
        IsReady (server_spans f whole.now.split) values.old (contents_of f (handed f whole.now.split values.old)) 1 }
    requires fit { let f = program_of whole.now.flat in AllFit f (handed f whole.now.split values.old) }
    requires arrives { IsArrival (packet_of arrival.now) }
    requires shape { arrival.now.shape ≡ shape_of arrival.now.bytes.now }
    requires frame { HasRoom whole.now.down (length arrival.now.bytes.now) room.frame }
    requires empty { room.updates.items ≡ [] }
    requires updates { whole.now.writes ≤ vec_capacity room.updates }
    ensures outcome { let f = program_of whole.now.flat in
        IsOutcome f whole.now.split store.old number (packet_of arrival.now) (handed f whole.now.split values.old)
        store.new result }
    ensures serving { AreServing (program_of whole.now.flat) whole.now.split values.new }
    ensures resolved { AreResolved (program_of whole.now.flat) whole.now.seats.items whole.now.steps.items values.new }
    ensures kept { IsKept whole.now.flat.objects store.new }
{
    let Room { frame, mut updates } = room;
    take_steps(whole, arrival, values, store, &mut updates);
    let frame = pack_down_in(
        frame,
        &whole.down,
        number,
        arrival.port,
        values,
        arrival.bytes,
    );
    let down = set_fields(whole, values, arrival, frame);
    Ran {
        number,
        down,
        updates: Updates::from(updates),
        evaluated: whole.evaluated,
    }
}

// Reads a frame that came up: its head, with the numbers that it hands up put into registers. All others are 0.
fn read(whole: &PreparedProgram, frame: &[u8], values: &mut Regs) -> Result<Head, Malformed>
    requires prepared { IsPrepared whole.now }
    requires serving { AreServing (program_of whole.now.flat) whole.now.split values.old }
    requires resolved { AreResolved (program_of whole.now.flat) whole.now.seats.items whole.now.steps.items values.old }
    ensures ok { IfOk result (λ head. IsRead (program_of whole.now.flat) whole.now.split frame.now values.new head) }
    ensures exact { (IsOk result) ↔ (IsFrame 1 (up_layout (program_of whole.now.flat) whole.now.split) frame.now) }
    ensures serving { AreServing (program_of whole.now.flat) whole.now.split values.new }
    ensures resolved { AreResolved (program_of whole.now.flat) whole.now.seats.items whole.now.steps.items values.new }
{
    values.clear();
    unpack_up(&whole.up, frame, values)
}

/// What comes of a frame that came up. All memory is taken before the store changes.
pub(crate) fn answer(
    alloc: Global,
    plan: &mut ServerPlan,
    store: &mut Store,
    frame: &[u8],
) -> Result<Ran, ServeError>
    requires kept { IsKept plan.old.program.objects store.old }
    ensures ok { IfOk result (λ ran. let layout = up_layout plan.old.program plan.old.split in
        IsOutcome plan.old.program plan.old.split store.old (number_in frame.now) (packet_in layout frame.now)
        (reads_in layout frame.now) store.new ran) }
    ensures malformed { (result ≡ Err ServeError.Malformed)
        ↔ (¬ (IsFrame 1 (up_layout plan.old.program plan.old.split) frame.now)) }
    ensures err { OnErr result (store.new ≡ store.old) }
    ensures plan { plan.new ≡ plan.old }
    ensures kept { IsKept plan.old.program.objects store.new }
{
    let head = read(&plan.whole, frame, &mut plan.values)?;
    let bytes = &frame[head.packet_at..];
    let room = Room::take(alloc, &plan.whole, bytes.len())?;
    let arrival = Arrival {
        port: head.port,
        bytes,
        shape: Shape::of(bytes),
    };
    Ok(run(
        &plan.whole,
        &arrival,
        head.number,
        &mut plan.values,
        store,
        room,
    ))
}
