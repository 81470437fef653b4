//! Reading and writing the fields of a packet.
ghost use Rattle.std.specs.Prelude.{◌≡◌, ◌≢◌, ℕ, ◌^◌, ◌<◌, ◌≤◌, length, Some, IsSome, IsNone, IsTrue};
ghost use Rattle.packet_fields.specs.declared.field.Field.{Field};
ghost use Rattle.packet_fields.specs.Fields.{place, meta_value, field_value, with_field};
ghost use Rattle.packet_fields.specs.Shape.{shape_of, start_of};
ghost use Rattle.packet_fields.specs.Table.{row};
ghost use Rattle.packet_fields.specs.Sizes.{largest_packet};

use crate::bits::{number_at, set_number_at};
use crate::field::{Field, bits_of, first_bit, header_of};
use crate::shape::Shape;

/// The value of a field of the packet, which arrived at this port. It is 0 where the field's header isn't there.
#[tactic(auto, using(crate::proofs::SetFields::start_near, crate::proofs::SetFields::place_within_packet, crate::specs::Fitting::meta_value_fits, crate::specs::FieldOrder::width_range), unfolding(crate::specs::Fields::field_value))]
pub fn get(packet: &[u8], port: u8, shape: &Shape, field: Field) -> u64
    requires size { length packet.now ≤ largest_packet }
    requires shape { shape.now ≡ shape_of packet.now }
    ensures value { result ≡ field_value packet.now port field }
    ensures fits { result < 2 ^ (row field).width }
{
    match place_of(shape, field) {
        Some(first) => number_at(packet, first, bits_of(field)),
        None => meta_value(packet.len(), shape, port, field),
    }
}

/// Sets a field of the packet. Nothing changes where the field's header isn't there.
#[tactic(auto, using(crate::proofs::SetFields::start_near, crate::proofs::SetFields::place_within_packet, crate::proofs::SetFields::with_field_absent, crate::specs::FieldOrder::width_range))]
pub fn set(packet: &mut [u8], shape: &Shape, field: Field, value: u64)
    requires size { length packet.old ≤ largest_packet }
    requires shape { shape.now ≡ shape_of packet.old }
    requires may { IsTrue (row field).writable }
    requires fits { value < 2 ^ (row field).width }
    ensures after { packet.new ≡ with_field packet.old field value }
    ensures absent { IsNone (place shape.now field) → packet.new ≡ packet.old }
    ensures reads { IsSome (place shape.now field) → (port : ℕ) → field_value packet.new port field ≡ value }
    ensures others { (other : Field) (port : ℕ) → other ≢ field →
        field_value packet.new port other ≡ field_value packet.old port other }
    ensures same_shape { shape_of packet.new ≡ shape.now }
{
    if let Some(first) = place_of(shape, field) {
        set_number_at(packet, first, bits_of(field), value);
    }
}

// The field's first bit in the packet, if its header is there.
#[tactic(auto, using(crate::proofs::Places::first_bit_near), unfolding(crate::specs::Fields::place))]
fn place_of(shape: &Shape, field: Field) -> Option<usize>
    requires { (start : ℕ) → start_of shape.now (row field).header ≡ Some start → start ≤ largest_packet }
    ensures { result ≡ place shape.now field }
{
    let start = shape.start(header_of(field))?;
    Some(8 * start + first_bit(field))
}

// What is known of a packet of so many bytes besides these; 0 for a field that stands in a header.
fn meta_value(bytes: usize, shape: &Shape, port: u8, field: Field) -> u64
    ensures { result ≡ meta_value bytes shape.now port field }
{
    match field {
        Field::MetaPort => u64::from(port),
        Field::MetaLen => bytes as u64,
        Field::HasIp => u64::from(shape.ip.is_some()),
        Field::HasTcp => u64::from(shape.tcp.is_some()),
        Field::HasUdp => u64::from(shape.udp.is_some()),
        _ => 0,
    }
}
