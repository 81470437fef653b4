//! Numbers packed into bytes bit by bit.
ghost use Rattle.std.specs.Prelude.{◌≡◌, ◌+◌, ◌-◌, ◌*◌, ◌%◌, ◌^◌, ◌<◌, ◌≤◌};
ghost use Rattle.std.specs.Prelude.{◌++◌, length, take, drop, vec_len, vec_capacity};
ghost use Rattle.std.specs.List.{All};
ghost use Rattle.transfer_header.specs.Bits.{bits_of, bits_in, packed};

use std::marker::Model;

// How many bits are put or read at once: with those that lie beside them in their bytes, a number of 64 bits takes them.
const PART: u32 = 56;

// Bits that are put one behind the other into memory that was taken before. Contracts see the list of them, and how
// many bytes the memory holds. Bits that don't fill a byte are held back.
#[derive(Drop)]
pub(crate) struct BitWriter {
    bytes: Vec<u8>,
    held: u64,
    count: u32,
}

impl Model for BitWriter {
    ghost use Rattle.std.specs.Prelude.{◌+◌, ◌*◌, ◌^◌, ◌<◌, ◌≤◌, ◌++◌, vec_len, vec_capacity};
    ghost use Rattle.std.specs.List.{All};
    ghost use Rattle.transfer_header.specs.Bits.{bits_of, bits_in, Written};

    ghost Value = { Written };

    ghost view = { λ writer. record {
      bits = bits_in writer.bytes.items ++ bits_of writer.count writer.held;
      capacity = vec_capacity writer.bytes;
    } };

    ghost invariant = { λ writer. (writer.count < 8) × (writer.held < 2 ^ writer.count)
        × All (λ byte. byte < 256) writer.bytes.items
        × (8 * vec_len writer.bytes + writer.count ≤ 8 * vec_capacity writer.bytes) };
}

impl BitWriter {
    // Further bits go behind those of these bytes.
    pub(crate) fn behind(bytes: Vec<u8>) -> BitWriter
        ensures { result ≡ record { bits = bits_in bytes.items; capacity = vec_capacity bytes } }
    {
        BitWriter {
            bytes,
            held: 0,
            count: 0,
        }
    }

    // Puts the lowest bits of a number, so many of them, at most `PART`.
    fn put_part(&mut self, number: u64, width: u32)
        requires narrow { width ≤ 56 }
        requires within { length self.old.bits + width ≤ 8 * self.old.capacity }
        ensures bits { self.new.bits ≡ self.old.bits ++ bits_of width number }
        ensures capacity { self.new.capacity ≡ self.old.capacity }
    {
        let held = (self.held << width) + number % (1 << width);
        self.count = push_bytes(&mut self.bytes, held, self.count + width);
        self.held = held % (1 << self.count);
    }

    // Puts the lowest bits of a number, so many of them.
    pub(crate) fn put(&mut self, number: u64, width: u32)
        requires narrow { width ≤ 64 }
        requires within { length self.old.bits + width ≤ 8 * self.old.capacity }
        ensures bits { self.new.bits ≡ self.old.bits ++ bits_of width number }
        ensures capacity { self.new.capacity ≡ self.old.capacity }
    {
        if width > PART {
            self.put_part(number >> PART, width - PART);
            self.put_part(number, PART);
        } else {
            self.put_part(number, width);
        }
    }

    // The bytes that hold all bits.
    pub(crate) fn finish(self) -> Vec<u8>
        ensures items { result.items ≡ packed self.bits }
        ensures capacity { vec_capacity result ≡ self.capacity }
    {
        let BitWriter {
            mut bytes,
            held,
            count,
        } = self;
        if count > 0 {
            bytes.push_reserved((held << (8 - count)) as u8);
        }
        bytes
    }
}

// Puts the lowest bits of a number, so many of them, behind bytes into memory that was taken before, as far as they fill
// bytes. It answers how many are left.
fn push_bytes(bytes: &mut Vec<u8>, number: u64, count: u32) -> u32
    requires are { All (λ byte. byte < 256) bytes.old.items }
    requires narrow { count ≤ 64 }
    requires within { 8 * vec_len bytes.old + count ≤ 8 * vec_capacity bytes.old }
    ensures are { All (λ byte. byte < 256) bytes.new.items }
    ensures left { result < 8 }
    ensures within { 8 * vec_len bytes.new + result ≤ 8 * vec_capacity bytes.new }
    ensures bits { bits_in bytes.new.items ++ bits_of result number ≡ bits_in bytes.old.items ++ bits_of count number }
    ensures capacity { vec_capacity bytes.new ≡ vec_capacity bytes.old }
{
    let mut left = count;
    while left >= 8 {
        left -= 8;
        bytes.push_reserved(((number >> left) % 256) as u8);
    }
    left
}

// The number that bytes are, the highest first.
fn number_in(bytes: &[u8]) -> u64
    requires few_bytes { length bytes.now ≤ 8 }
    ensures { bits_of (8 * length bytes.now) result ≡ bits_in bytes.now }
{
    let mut number = 0;
    for byte in bytes {
        number = (number << 8) + u64::from(*byte);
    }
    number
}

// The number in a range of bits, of at most `PART`: that of the bytes that they touch, without the bits on both sides.
fn read_part(bytes: &[u8], start: usize, width: usize) -> u64
    requires near { start ≤ 2 ^ 41 }
    requires narrow { width ≤ 56 }
    requires within { start + width ≤ 8 * length bytes.now }
    ensures bits { bits_of width result ≡ take width (drop start (bits_in bytes.now)) }
    ensures fits { result < 2 ^ width }
{
    let end = (start + width + 7) / 8;
    let number = number_in(&bytes[start / 8..end]);
    (number >> (8 * end - start - width)) % (1 << width)
}

// The number in a range of bits.
pub(crate) fn read_bits(bytes: &[u8], start: usize, width: usize) -> u64
    requires near { start ≤ 2 ^ 40 }
    requires narrow { width ≤ 64 }
    requires within { start + width ≤ 8 * length bytes.now }
    ensures bits { bits_of width result ≡ take width (drop start (bits_in bytes.now)) }
    ensures fits { result < 2 ^ width }
{
    let part = PART as usize;
    if width <= part {
        return read_part(bytes, start, width);
    }
    let high = read_part(bytes, start, width - part);
    (high << part) + read_part(bytes, start + (width - part), part)
}
