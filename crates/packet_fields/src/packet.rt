//! Packets as they arrive.
ghost use Rattle.std.specs.Prelude.{◌≡◌, ◌<◌, ◌≤◌, ◌↔◌, ◌++◌, ◌∷◌, ◌^◌, ℕ, [], length, nat_le, slice_index, IfOk, IsTrue, OnOk, OnErr};
ghost use Rattle.packet_fields.specs.Arrivals.{AreArrivals, IsArrival};
ghost use Rattle.packet_fields.specs.Sizes.{largest_packet};

use gal_io::{Bytes, NoMemory};
use std::alloc::Global;
use std::marker::Model;

/// The most bytes of a packet.
pub const MAX_PACKET_BYTES: usize = 9_216;

/// Whether these bytes are few enough for a packet.
pub fn is_short(bytes: &[u8]) -> bool
    ensures { result ≡ nat_le (length bytes.now) largest_packet }
{
    bytes.len() <= MAX_PACKET_BYTES
}

/// A packet: the port by which it arrives, and its bytes.
#[derive(Drop)]
pub struct Packet {
    pub port: u8,
    pub bytes: Bytes,
}

impl Packet {
    /// Another packet with the same port and bytes.
    pub fn copy(&self, alloc: Global) -> Result<Self, NoMemory>
        ensures { IfOk result (λ made. made ≡ self.now) }
    {
        let bytes = self.bytes.copy(alloc)?;
        Ok(Packet {
            port: self.port,
            bytes,
        })
    }
}

// Bytes have 8 bits each.
fn bytes_fit(bytes: &[u8])
    ensures { (i : ℕ) → slice_index bytes.now i < 2 ^ 8 }
{}

// A packet of so few bytes may arrive: its port and its bytes have 8 bits, by their types.
fn may_arrive(packet: &Packet)
    requires { length packet.now.bytes ≤ largest_packet }
    ensures { IsArrival packet.now }
{
    let _port = packet.port;
    bytes_fit(packet.bytes.as_slice());
}

/// A list of packets, in order of arrival.
#[derive(Drop)]
pub struct Packets {
    items: Vec<Packet>,
}

impl Model for Packets {
    ghost use Rattle.std.specs.Prelude.{List};
    ghost use Rattle.packet_fields.specs.declared.packet.Packet.{Packet};
    ghost use Rattle.packet_fields.specs.Arrivals.{AreArrivals};

    ghost Value = { List Packet };

    ghost view = { λ packets. packets.items.items };

    ghost invariant = { λ packets. AreArrivals packets.items.items };
}

impl Packets {
    pub fn new(alloc: Global) -> Packets
        ensures { result ≡ [] }
    {
        Packets {
            items: Vec::new(alloc),
        }
    }

    pub fn as_slice(&self) -> &[Packet]
        ensures value { result.now ≡ self.now }
        ensures arrivals { AreArrivals self.now }
    {
        self.items.as_slice()
    }

    pub fn len(&self) -> usize
        ensures { result ≡ length self.now }
    {
        self.items.len()
    }

    pub fn is_empty(&self) -> bool
        ensures { IsTrue result ↔ (self.now ≡ []) }
    {
        self.items.is_empty()
    }

    /// The list of these packets.
    pub fn of(items: Vec<Packet>) -> Packets
        requires { AreArrivals items.items }
        ensures { result ≡ items.items }
    {
        Packets { items }
    }

    /// Another list of the same packets.
    pub fn copy(&self, alloc: Global) -> Result<Self, NoMemory>
        ensures { IfOk result (λ made. made ≡ self.now) }
    {
        let mut packets = Packets::new(alloc);
        for packet in &self.items {
            packets.push(packet.copy(alloc)?)?;
        }
        Ok(packets)
    }

    /// Puts a packet last.
    pub fn push(&mut self, packet: Packet) -> Result<(), NoMemory>
        requires { length packet.bytes ≤ largest_packet }
        ensures ok { OnOk result (self.new ≡ self.old ++ packet ∷ []) }
        ensures err { OnErr result (self.new ≡ self.old) }
    {
        may_arrive(&packet);
        self.items.push(packet)?;
        Ok(())
    }
}
