//! Frames as bytes.
ghost use Rattle.std.specs.Prelude.{◌≡◌, ◌↔◌, ℕ, ◌+◌, ◌-◌, ◌*◌, ◌^◌, ◌<◌, ◌≤◌, ◌++◌};
ghost use Rattle.std.specs.Prelude.{List, length, take, drop, replicate, vec_len, vec_capacity};
ghost use Rattle.std.specs.Prelude.{IsOk, IsOkAnd, IsTrue, IfOk, OnErr};
ghost use Rattle.packet_fields.specs.Sizes.{largest_packet};
ghost use Rattle.flat_ir.specs.Blocks.{Reading};
ghost use Rattle.split_model.specs.declared.layout.Crossing.{Crossing};
ghost use Rattle.transfer_header.specs.Bits.{bits_in, bytes_for, packed};
ghost use Rattle.transfer_header.specs.Values.{total, value_bits, AreNarrow};
ghost use Rattle.transfer_header.specs.Registers.{value_in, AllHaveRegisters, ChangesOnly, FitsLayout, Holds};
ghost use Rattle.transfer_header.specs.Frames.{frame_of, up_frame, down_frame, HasRoom, IsFrame, IsFrameOf};
ghost use Rattle.transfer_header.specs.Frames.{IsUnpacked, IsReadBack};

use crate::bits::{BitWriter, read_bits};
use crate::registers::Regs;
use crate::room::{FIXED_BYTES, FrameRoom, total_bits};
use gal_io::{Bytes, NoMemory};
use packet_fields::MAX_PACKET_BYTES;
use split_model::Layout;
use std::alloc::Global;

// The kinds.
const UP: u8 = 1;

const DOWN: u8 = 2;

/// What a frame says besides its values: the number and the port of arrival of its packet, and the place of the
/// packet's first byte.
#[derive(Clone, Copy, PartialEq, Eq)]
pub struct Head {
    pub number: u32,
    pub port: u8,
    pub packet_at: usize,
}

/// The bytes are no frame of the layout.
#[derive(Clone, Copy, PartialEq, Eq)]
pub struct Malformed;

/// The frame that goes up to the server with a packet: a byte 1, the packet's number in four bytes, the highest first,
/// its port of arrival, the values of a layout, each from its highest bit on, with no gaps between them and zero bits
/// up to a whole byte, and the packet. Of each value it has as many of the lowest bits as its width.
pub fn pack_up(
    alloc: Global,
    layout: &Layout,
    number: u32,
    port: u8,
    values: &Regs,
    packet: &[u8],
) -> Result<Bytes, NoMemory>
    requires fits { AllHaveRegisters layout.now values.now }
    requires short { length packet.now ≤ largest_packet }
    ensures bytes { IfOk result (λ made. made ≡ frame_of 1 layout.now number port (value_in values.now) packet.now) }
    ensures frame { AreNarrow layout.now (value_in values.now)
        → IfOk result (λ made. IsFrameOf 1 layout.now number port (value_in values.now) packet.now made) }
    ensures reading { (reads : Reading) → Holds layout.now values.now reads
        → IfOk result (λ made. made ≡ up_frame layout.now number port reads packet.now) }
{
    let room = FrameRoom::new(alloc, layout, packet.len())?;
    let frame = pack(room, UP, layout, number, port, values, packet);
    Ok(Bytes::from(frame))
}

/// The frame that comes down from the server with a packet: as `pack_up`, with a byte 2 in front.
pub fn pack_down(
    alloc: Global,
    layout: &Layout,
    number: u32,
    port: u8,
    values: &Regs,
    packet: &[u8],
) -> Result<Bytes, NoMemory>
    requires fits { AllHaveRegisters layout.now values.now }
    requires short { length packet.now ≤ largest_packet }
    ensures bytes { IfOk result (λ made. made ≡ frame_of 2 layout.now number port (value_in values.now) packet.now) }
    ensures frame { AreNarrow layout.now (value_in values.now)
        → IfOk result (λ made. IsFrameOf 2 layout.now number port (value_in values.now) packet.now made) }
    ensures reading { (reads : Reading) → Holds layout.now values.now reads
        → IfOk result (λ made. made ≡ down_frame layout.now number port reads packet.now) }
{
    let room = FrameRoom::new(alloc, layout, packet.len())?;
    let frame = pack_down_in(room, layout, number, port, values, packet);
    Ok(Bytes::from(frame))
}

/// The bytes of the frame that comes down with a packet, as `pack_down`, in memory that was taken before. This takes no
/// memory. The packet's bytes are the last ones, and may still be changed there.
pub fn pack_down_in(
    room: FrameRoom,
    layout: &Layout,
    number: u32,
    port: u8,
    values: &Regs,
    packet: &[u8],
) -> Vec<u8>
    requires fits { AllHaveRegisters layout.now values.now }
    requires enough { HasRoom layout.now (length packet.now) room }
    requires short { length packet.now ≤ largest_packet }
    ensures bytes { result.items ≡ frame_of 2 layout.now number port (value_in values.now) packet.now }
    ensures frame { AreNarrow layout.now (value_in values.now)
        → IsFrameOf 2 layout.now number port (value_in values.now) packet.now result.items }
    ensures reading { (reads : Reading) → Holds layout.now values.now reads
        → result.items ≡ down_frame layout.now number port reads packet.now }
{
    pack(room, DOWN, layout, number, port, values, packet)
}

/// What a frame says that goes up, with the numbers of its values put into registers. Where the bytes are no such frame
/// of the layout, it is malformed, and the registers stay. This takes no memory.
pub fn unpack_up(layout: &Layout, frame: &[u8], into: &mut Regs) -> Result<Head, Malformed>
    requires { FitsLayout layout.now into.old }
    ensures ok { IfOk result (λ head. IsUnpacked 1 layout.now frame.now into.old into.new head) }
    ensures exact { (IsOk result) ↔ (IsFrame 1 layout.now frame.now) }
    ensures kept { OnErr result (into.new ≡ into.old) }
    ensures read_back { (number port : ℕ) (values : Crossing → ℕ) (packet : List ℕ)
        → IsFrameOf 1 layout.now number port values packet frame.now
        → IsOkAnd result (λ head. IsReadBack layout.now number port values packet frame.now into.new head) }
{
    unpack(UP, layout, frame, into)
}

/// What a frame says that comes down, as `unpack_up`.
pub fn unpack_down(layout: &Layout, frame: &[u8], into: &mut Regs) -> Result<Head, Malformed>
    requires { FitsLayout layout.now into.old }
    ensures ok { IfOk result (λ head. IsUnpacked 2 layout.now frame.now into.old into.new head) }
    ensures exact { (IsOk result) ↔ (IsFrame 2 layout.now frame.now) }
    ensures kept { OnErr result (into.new ≡ into.old) }
    ensures read_back { (number port : ℕ) (values : Crossing → ℕ) (packet : List ℕ)
        → IsFrameOf 2 layout.now number port values packet frame.now
        → IsOkAnd result (λ head. IsReadBack layout.now number port values packet frame.now into.new head) }
{
    unpack(DOWN, layout, frame, into)
}

fn pack(
    room: FrameRoom,
    kind: u8,
    layout: &Layout,
    number: u32,
    port: u8,
    values: &Regs,
    packet: &[u8],
) -> Vec<u8>
    requires fits { AllHaveRegisters layout.now values.now }
    requires enough { HasRoom layout.now (length packet.now) room }
    ensures { result.items ≡ frame_of kind layout.now number port (value_in values.now) packet.now }
{
    let [first, second, third, fourth] = number.to_be_bytes();
    let mut frame = room.into_bytes();
    append(&mut frame, &[kind, first, second, third, fourth, port]);
    let mut frame = pack_values(frame, layout, values);
    append(&mut frame, packet);
    frame
}

// Puts bytes behind others, in memory that was taken before.
fn append(bytes: &mut Vec<u8>, more: &[u8])
    requires { vec_len bytes.old + length more.now ≤ vec_capacity bytes.old }
    ensures items { bytes.new.items ≡ bytes.old.items ++ more.now }
    ensures capacity { vec_capacity bytes.old ≤ vec_capacity bytes.new }
{
    let is_put = bytes.extend_from_slice(more).is_ok();
    prove!(is_put);
}

// The bytes that hold the values of a layout, behind others.
fn pack_values(bytes: Vec<u8>, layout: &Layout, values: &Regs) -> Vec<u8>
    requires fits { AllHaveRegisters layout.now values.now }
    requires enough { vec_len bytes + bytes_for (total layout.now) ≤ vec_capacity bytes }
    ensures items { result.items ≡ bytes.items ++ packed (value_bits layout.now (value_in values.now)) }
    ensures capacity { vec_capacity result ≡ vec_capacity bytes }
{
    let mut writer = BitWriter::behind(bytes);
    for crossing in layout.as_slice() {
        writer.put(values.at(crossing.number), crossing.width.bits());
    }
    writer.finish()
}

fn unpack(kind: u8, layout: &Layout, frame: &[u8], into: &mut Regs) -> Result<Head, Malformed>
    requires { FitsLayout layout.now into.old }
    ensures ok { IfOk result (λ head. IsUnpacked kind layout.now frame.now into.old into.new head) }
    ensures exact { (IsOk result) ↔ (IsFrame kind layout.now frame.now) }
    ensures kept { OnErr result (into.new ≡ into.old) }
    ensures read_back { (number port : ℕ) (values : Crossing → ℕ) (packet : List ℕ)
        → IsFrameOf kind layout.now number port values packet frame.now
        → IsOkAnd result (λ head. IsReadBack layout.now number port values packet frame.now into.new head) }
{
    prove!(layout.len() <= into.len() as usize);
    let bits = total_bits(layout);
    let packet_at = FIXED_BYTES + (bits + 7) / 8;
    if frame.len() < packet_at || frame.len() - packet_at > MAX_PACKET_BYTES || frame[0] != kind {
        return Err(Malformed);
    }
    let header = &frame[FIXED_BYTES..packet_at];
    if !is_filled(header, bits) {
        return Err(Malformed);
    }
    unpack_values(layout, header, into);
    Ok(Head {
        number: u32::from_be_bytes([frame[1], frame[2], frame[3], frame[4]]),
        port: frame[5],
        packet_at,
    })
}

// Whether all bits behind the first ones are 0.
fn is_filled(header: &[u8], bits: usize) -> bool
    requires near { bits ≤ 2 ^ 38 }
    requires whole { length header.now ≡ bytes_for bits }
    ensures { IsTrue result ↔ (drop bits (bits_in header.now) ≡ replicate (8 * length header.now - bits) 0) }
{
    read_bits(header, bits, 8 * header.len() - bits) == 0
}

// Puts the numbers that stand in the first bits into the registers of a layout's values.
fn unpack_values(layout: &Layout, header: &[u8], into: &mut Regs)
    requires fits { FitsLayout layout.now into.old }
    requires near { total layout.now ≤ 2 ^ 38 }
    requires whole { length header.now ≡ bytes_for (total layout.now) }
    ensures bits { value_bits layout.now (value_in into.new) ≡ take (total layout.now) (bits_in header.now) }
    ensures narrow { AreNarrow layout.now (value_in into.new) }
    ensures kept { ChangesOnly layout.now into.old into.new }
{
    let mut at = 0;
    for crossing in layout.as_slice() {
        let width = crossing.width.bits() as usize;
        into.set(crossing.number, read_bits(header, at, width));
        at += width;
    }
}
