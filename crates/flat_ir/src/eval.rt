//! What a flat program does to a packet.
ghost use Rattle.std.specs.Prelude.{◌≡◌, ◌≤◌, ◌<◌, ◌%◌, ◌^◌, length, IfOk, OnOk, OnErr, IsTrue};
ghost use Rattle.std.specs.List.{AllByRecursion as Each};
ghost use Rattle.packet_fields.specs.Fields.{with_field};
ghost use Rattle.packet_fields.specs.Shape.{shape_of};
ghost use Rattle.packet_fields.specs.Table.{row};
ghost use Rattle.packet_fields.specs.Sizes.{largest_packet};
ghost use Rattle.state_store.specs.Kept.{IsKept};
ghost use Rattle.flat_ir.specs.Program.{program_of};
ghost use Rattle.flat_ir.specs.Run.{after, flat_store, flat_verdict, sent, with_writes};
ghost use Rattle.flat_ir.specs.WellFormed.{IsWellFormed};
ghost use Rattle.flat_ir.specs.Registers.{reads_of, packet_of};
ghost use Rattle.flat_ir.specs.Turns.{StandAs, turn};
ghost use Rattle.flat_ir.specs.Writable.{IsWritable};

use crate::program::{FieldValue, Flat, Out};
use crate::reading::Numbers;
use crate::registers::{Results, SoFar};
use crate::work::{Arrival, compute};
use gal_bits::Width;
use gal_io::{Bytes, NoMemory};
use packet_fields::{Field, Shape, Verdict, set, width};
use state_store::Store;
use std::alloc::Global;

// The turn of an instruction: it gets its results.
fn take_turn(f: &Flat, arrival: &Arrival<'_>, i: usize, rows: &mut [Results], store: &mut Store)
    requires well { IsWellFormed (program_of f.now) }
    requires within { i < length f.now.code }
    requires row { i < length rows.old }
    requires size { length arrival.now.bytes.now ≤ largest_packet }
    requires shape { arrival.now.shape ≡ shape_of arrival.now.bytes.now }
    ensures turn { StandAs (turn (program_of f.now) (packet_of arrival.now) i (reads_of rows.old) store.old)
        (reads_of rows.new) store.new }
    ensures count { length rows.new ≡ length rows.old }
{
    let instr = &f.code.as_slice()[i];
    let so_far = SoFar { rows };
    rows[i] = compute(f, store, arrival, &so_far, instr);
}

// All turns, in order.
fn take_turns(f: &Flat, arrival: &Arrival<'_>, rows: &mut [Results], store: &mut Store)
    requires well { IsWellFormed (program_of f.now) }
    requires rows { length rows.old ≡ length f.now.code }
    requires size { length arrival.now.bytes.now ≤ largest_packet }
    requires shape { arrival.now.shape ≡ shape_of arrival.now.bytes.now }
    requires start { StandAs (after (program_of f.now) store.old (packet_of arrival.now) 0) (reads_of rows.old)
        store.old }
    ensures { StandAs (after (program_of f.now) store.old (packet_of arrival.now) (length f.now.code))
        (reads_of rows.new) store.new }
{
    for i in 0..f.code.len() {
        take_turn(f, arrival, i, rows, store);
    }
}

// The lowest bits of a number, so many of them.
fn low_bits(number: u64, width: Width) -> u64
    ensures { result ≡ number % 2 ^ width }
{
    let bits = width.bits();
    if bits < 64 {
        number % (1 << bits)
    } else {
        number
    }
}

// Sets a field of a packet of this shape to the lowest bits of a number.
#[tactic(auto, using(crate::proofs::LowBits::low_is_set))]
fn set_low(packet: &mut [u8], shape: &Shape, field: Field, number: u64)
    requires size { length packet.old ≤ largest_packet }
    requires shape { shape.now ≡ shape_of packet.old }
    requires writable { IsTrue (row field).writable }
    ensures after { packet.new ≡ with_field packet.old field number }
    ensures same_shape { shape_of packet.new ≡ shape.now }
{
    set(packet, shape, field, low_bits(number, width(field)));
}

/// Sets fields of a packet of this shape, each to the lowest bits of its number.
pub fn write_fields<R: Numbers>(fields: &[FieldValue], numbers: &R, shape: &Shape, bytes: &mut [u8])
    requires writable { Each IsWritable fields.now }
    requires size { length bytes.old ≤ largest_packet }
    requires shape { shape.now ≡ shape_of bytes.old }
    ensures { bytes.new ≡ with_writes fields.now (R.reads numbers.now) bytes.old }
{
    for written in fields {
        set_low(bytes, shape, written.field, numbers.number(written.value));
    }
}

// The lowest 8 bits.
fn low_byte(value: u64) -> u8
    ensures { result ≡ value % 2 ^ 8 }
{
    (value % 256) as u8
}

/// What becomes of a packet by these numbers: an output sends it or doesn't, by a port, with fields set in a copy of
/// its bytes.
pub fn leave<R: Numbers>(out: &Out, arrival: &Arrival<'_>, numbers: &R, copy: Vec<u8>) -> Verdict
    requires copy { copy.items ≡ arrival.now.bytes.now }
    requires writable { Each IsWritable out.now.fields.items }
    requires size { length arrival.now.bytes.now ≤ largest_packet }
    requires shape { arrival.now.shape ≡ shape_of arrival.now.bytes.now }
    ensures { result ≡ sent out.now.send out.now.port out.now.fields.items (R.reads numbers.now)
        (packet_of arrival.now) }
{
    if numbers.number(out.send) == 0 {
        return Verdict::Drop;
    }
    let mut bytes = copy;
    write_fields(&out.fields, numbers, &arrival.shape, &mut bytes);
    Verdict::Send(low_byte(numbers.number(out.port)), Bytes::from(bytes))
}

/// What becomes of a packet of at most 9,216 bytes that arrives by this port, and what it leaves of the store. The
/// memory is taken first: where there is none, the store is as before.
pub fn eval_flat(
    alloc: Global,
    f: &Flat,
    store: &mut Store,
    port: u8,
    packet: &[u8],
) -> Result<Verdict, NoMemory>
    requires well { IsWellFormed (program_of f.now) }
    requires kept { IsKept f.now.objects store.old }
    requires size { length packet.now ≤ largest_packet }
    ensures verdict { IfOk result
        (λ verdict. verdict ≡ flat_verdict (program_of f.now) store.old (record { port = port; bytes = packet.now })) }
    ensures store { OnOk result
        (store.new ≡ flat_store (program_of f.now) store.old (record { port = port; bytes = packet.now })) }
    ensures err { OnErr result (store.new ≡ store.old) }
    ensures kept { IsKept f.now.objects store.new }
{
    let copy = packet.to_vec(alloc)?;
    let mut rows = vec![in alloc; Results::one(0); f.code.len()]?;
    let arrival = Arrival {
        port,
        bytes: packet,
        shape: Shape::of(packet),
    };
    take_turns(f, &arrival, &mut rows, store);
    Ok(leave(&f.out, &arrival, &SoFar { rows: &rows }, copy))
}
