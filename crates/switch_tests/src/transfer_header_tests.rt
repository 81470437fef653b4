//! Frames that were worked out by hand.
ghost use Rattle.std.specs.Prelude.{◌≡◌, ◌≤◌, length, IfOk, IsTrue, None};
ghost use Rattle.transfer_header.specs.Registers.{FitsLayout};

use crate::samples::{DOWN, PACKET, UP, value, width};
use gal_io::{Bytes, NoMemory};
use split_model::{Crossing, Layout};
use std::alloc::Global;
use std::test::Fail;
use transfer_header::{
    FrameRoom, Head, Regs, pack_down, pack_down_in, pack_up, unpack_down, unpack_up,
};

// The values of a layout, each by its instruction and its bits, in a program in which each instruction has one result.
fn layout(alloc: Global, crosses: &[(u32, u32)]) -> Result<Layout, Fail> {
    let mut layout = Layout::new(alloc);
    for (instruction, bits) in crosses {
        let width = width(*bits)?;
        layout.push(Crossing {
            value: value((*instruction, 0)),
            number: *instruction,
            width,
        })?;
    }
    Ok(layout)
}

// Gives the register at a place a number, where there is one.
#[tactic(auto, using(crate::proofs::Plain::has_own))]
fn put(values: &mut Regs, at: u32, number: u64)
    requires { values.old.plan ≡ None }
    ensures { values.new.plan ≡ None }
{
    if at < values.len() {
        values.set(at, number);
    }
}

// Registers that hold these numbers at these places, where there are such, and else 0.
fn registers(alloc: Global, count: u32, numbers: &[(u32, u64)]) -> Result<Regs, NoMemory>
    ensures { IfOk result (λ values. values.plan ≡ None) }
{
    let mut values = Regs::new(alloc, count)?;
    for (at, number) in numbers {
        put(&mut values, *at, *number);
    }
    Ok(values)
}

fn holds(values: &Regs, numbers: &[(u32, u64)]) -> bool {
    let mut all = true;
    for (at, number) in numbers {
        all = all && values.number(*at) == *number;
    }
    all
}

// Whether the values of a layout have registers, and are at most three.
#[tactic(auto, using(crate::proofs::Plain::one_fits, crate::proofs::Plain::two_fit, crate::proofs::Plain::three_fit))]
fn fits(layout: &Layout, values: &Regs) -> bool
    requires { values.now.plan ≡ None }
    ensures { IsTrue result → FitsLayout layout.now values.now }
{
    match layout.as_slice() {
        [one] => one.number < values.len(),
        [first, last] => first.number < last.number && last.number < values.len(),
        [first, second, last] => {
            first.number < second.number
                && second.number < last.number
                && last.number < values.len()
        }
        _ => false,
    }
}

// Whether a packet is packed so, from the port and with the number of this head.
fn packs_up(
    alloc: Global,
    layout: &Layout,
    head: Head,
    values: &Regs,
    packet: &[u8],
    want: &[u8],
) -> Result<bool, NoMemory>
    requires size { length packet.now ≤ 9216 }
    requires plain { values.now.plan ≡ None }
{
    if !fits(layout, values) {
        return Ok(false);
    }
    let frame = pack_up(alloc, layout, head.number, head.port, values, packet)?;
    Ok(frame.as_slice() == want)
}

// The same the other way, in memory that is taken then and in memory that was taken before.
fn packs_down(
    alloc: Global,
    layout: &Layout,
    head: Head,
    values: &Regs,
    packet: &[u8],
    want: &[u8],
) -> Result<bool, NoMemory>
    requires size { length packet.now ≤ 9216 }
    requires plain { values.now.plan ≡ None }
{
    if !fits(layout, values) {
        return Ok(false);
    }
    let frame = pack_down(alloc, layout, head.number, head.port, values, packet)?;
    let room = FrameRoom::new(alloc, layout, packet.len())?;
    let again = pack_down_in(room, layout, head.number, head.port, values, packet);
    Ok(frame.as_slice() == want && again.as_slice() == want)
}

fn unpacks_up(layout: &Layout, values: &mut Regs, frame: &[u8]) -> Option<Head>
    requires { values.old.plan ≡ None }
{
    if !fits(layout, values) {
        return None;
    }
    unpack_up(layout, frame, values).ok()
}

fn unpacks_down(layout: &Layout, values: &mut Regs, frame: &[u8]) -> Option<Head>
    requires { values.old.plan ≡ None }
{
    if !fits(layout, values) {
        return None;
    }
    unpack_down(layout, frame, values).ok()
}

const UP_HEAD: Head = Head {
    number: 0,
    port: 3,
    packet_at: 8,
};

fn is_packed_up(alloc: Global) -> Result<bool, Fail> {
    let layout = layout(alloc, &[(9, 16)])?;
    let values = registers(alloc, 11, &[(9, 17)])?;
    Ok(packs_up(alloc, &layout, UP_HEAD, &values, &PACKET, &UP)?)
}

fn is_read_above(alloc: Global) -> Result<bool, Fail> {
    let layout = layout(alloc, &[(9, 16)])?;
    let mut values = registers(alloc, 11, &[])?;
    let head = unpacks_up(&layout, &mut values, &UP);
    Ok(head == Some(UP_HEAD) && values.len() == 11 && holds(&values, &[(9, 17)]))
}

#[test]
fn goes_up(rt: HostRuntime) -> Result<(), Fail> {
    assert!(rt; is_packed_up(rt.alloc())?);
    assert!(rt; is_read_above(rt.alloc())?);
    Ok(())
}

const DOWN_HEAD: Head = Head {
    number: 0,
    port: 3,
    packet_at: 9,
};

fn is_packed_down(alloc: Global) -> Result<bool, Fail> {
    let layout = layout(alloc, &[(1, 1), (9, 16)])?;
    let values = registers(alloc, 11, &[(1, 1), (9, 17)])?;
    Ok(packs_down(alloc, &layout, DOWN_HEAD, &values, &PACKET, &DOWN)?)
}

#[test]
fn goes_down(rt: HostRuntime) -> Result<(), Fail> {
    assert!(rt; is_packed_down(rt.alloc())?);
    Ok(())
}

// Whether a frame tells both values, which were 5 and 6 before; or is malformed, and leaves them.
fn tells(alloc: Global, frame: &[u8], is_frame: bool) -> Result<bool, Fail> {
    let layout = layout(alloc, &[(1, 1), (9, 16)])?;
    let mut values = registers(alloc, 11, &[(1, 5), (9, 6)])?;
    match unpacks_down(&layout, &mut values, frame) {
        Some(head) => Ok(is_frame && head == DOWN_HEAD && holds(&values, &[(1, 1), (9, 17)])),
        None => Ok(!is_frame && holds(&values, &[(1, 5), (9, 6)])),
    }
}

#[test]
fn told_of_a_frame(rt: HostRuntime) -> Result<(), Fail> {
    for end in 0..24 {
        assert!(rt; tells(rt.alloc(), &DOWN[..end], end >= 9)?, "{end} bytes");
    }
    Ok(())
}

// A frame that goes down, but for the byte at one place.
fn other(at: usize, byte: u8) -> [u8; 23] {
    let mut other = DOWN;
    if at < 23 {
        other[at] = byte;
    }
    other
}

#[test]
fn refuses_other_bytes(rt: HostRuntime) -> Result<(), Fail> {
    assert!(rt; tells(rt.alloc(), &other(0, 1), false)?);
    for filled in [0x81, 0x82, 0x84, 0x88, 0x90, 0xa0, 0xc0] {
        assert!(rt;
            tells(rt.alloc(), &other(8, filled), false)?,
            "filled with {filled}"
        );
    }
    Ok(())
}

// A frame with a packet of so many zeros.
fn long(alloc: Global, zeros: usize) -> Result<Bytes, NoMemory> {
    let packet = vec![in alloc; 0u8; zeros]?;
    let mut frame = Bytes::from_slice(alloc, &DOWN[..9])?;
    frame.extend(packet.as_slice())?;
    Ok(frame)
}

fn tells_of_long(alloc: Global, zeros: usize, is_frame: bool) -> Result<bool, Fail> {
    let frame = long(alloc, zeros)?;
    tells(alloc, frame.as_slice(), is_frame)
}

#[test]
fn packets_have_a_most(rt: HostRuntime) -> Result<(), Fail> {
    assert!(rt; tells_of_long(rt.alloc(), 9216, true)?);
    assert!(rt; tells_of_long(rt.alloc(), 9217, false)?);
    Ok(())
}

const GAPLESS_HEAD: Head = Head {
    number: 0x0102_0304,
    port: 255,
    packet_at: 16,
};

const GAPLESS: [u8; 17] = [
    1, 1, 2, 3, 4, 255, 0xaa, 0xae, 0, 0, 0, 0, 0, 0, 0, 0x04, 0xee,
];

// 13 bits, 1 bit and 64 bits, and 2 bits of filling. The higher bits of the first two are left out.
fn is_packed_without_gaps(alloc: Global) -> Result<bool, Fail> {
    let layout = layout(alloc, &[(0, 13), (1, 1), (2, 64)])?;
    let numbers = [(0, 0xf555), (1, 3), (2, 0x8000_0000_0000_0001)];
    let values = registers(alloc, 3, &numbers)?;
    Ok(packs_up(alloc, &layout, GAPLESS_HEAD, &values, &[0xee], &GAPLESS)?)
}

#[test]
fn values_have_no_gaps(rt: HostRuntime) -> Result<(), Fail> {
    assert!(rt; is_packed_without_gaps(rt.alloc())?);
    Ok(())
}
