//! The fields of a packet as variables of a run.
ghost use Rattle.std.specs.Prelude.{◌≡◌, ◌≤◌, ◌<◌, ◌%◌, ◌^◌, ℕ, None, List, get_or, length, slice_index, slice_set, IfSome};
ghost use Rattle.packet_fields.specs.Table.{row, all_fields, field_count, field_index};
ghost use Rattle.packet_fields.specs.Shape.{shape_of};
ghost use Rattle.packet_fields.specs.Sizes.{largest_packet};
ghost use Rattle.element_lang.specs.Meaning.{with_fields};
ghost use Rattle.element_interp.specs.Fields.{arrived, fields_over, with_assigned};

use gal_bits::{Op, eval};
use packet_fields::{FIELD_COUNT, Field, Shape, field_index, fields, get, set, width, writable};
use std::marker::Model;

/// The value of each field that was assigned one, in field order. Each fits its field.
#[derive(Drop)]
pub(crate) struct AssignedFields {
    values: [Option<u64>; FIELD_COUNT],
}

impl Model for AssignedFields {
    ghost use Rattle.std.specs.Prelude.{List, Option, ℕ};
    ghost use Rattle.element_interp.specs.Fields.{AreAssigned};

    ghost Value = { List (Option ℕ) };

    ghost view = { λ assigned. assigned.values };

    ghost invariant = { λ assigned. AreAssigned assigned.values };

    ghost inverse = { λ values. record { values = values } };
}

impl AssignedFields {
    /// No field is assigned.
    #[tactic(auto, using(crate::proofs::Assigned::nothing_assigned))]
    pub fn none() -> AssignedFields
        ensures { (bytes : List ℕ) (port : ℕ) → fields_over result bytes port ≡ arrived bytes port }
    {
        AssignedFields {
            values: [None; FIELD_COUNT],
        }
    }

    // The value that was assigned to a field, if one was.
    fn at(&self, field: Field) -> Option<u64>
        ensures value { result ≡ get_or self.now (field_index field) None }
        ensures fits { IfSome result (λ value. value < 2 ^ (row field).width) }
        ensures count { length self.now ≡ field_count }
    {
        self.values[field_index(field)]
    }

    /// The value of a field of the packet that arrived: the one that was assigned, or else the packet's own.
    pub fn get(&self, packet: &[u8], port: u8, shape: &Shape, field: Field) -> u64
        requires size { length packet.now ≤ largest_packet }
        requires shape { shape.now ≡ shape_of packet.now }
        ensures { result ≡ slice_index (fields_over self.now packet.now port) (field_index field) }
    {
        match self.at(field) {
            Some(value) => value,
            None => get(packet, port, shape, field),
        }
    }

    /// Gives a field a value, of which it keeps as many bits as it has.
    #[tactic(auto, using(crate::proofs::Assigned::one_assigned), unfolding(gal_bits::specs::Operators::value_of))]
    pub fn assign(&mut self, field: Field, value: u64)
        ensures { (bytes : List ℕ) (port : ℕ) → fields_over self.new bytes port
            ≡ slice_set (fields_over self.old bytes port) (field_index field) (value % 2 ^ (row field).width) }
    {
        self.values[field_index(field)] = Some(eval(Op::Cast, width(field), &[value]));
    }

    // Writes a field into a packet of this shape, if it is assigned and can be written.
    fn write_field(&self, packet: &mut [u8], shape: &Shape, field: Field)
        requires size { length packet.old ≤ largest_packet }
        requires shape { shape.now ≡ shape_of packet.old }
        ensures after { packet.new ≡ with_assigned self.now packet.old field }
        ensures same_shape { shape.now ≡ shape_of packet.new }
        ensures count { length self.now ≡ field_count }
    {
        let assigned = self.at(field);
        if !writable(field) {
            return;
        }
        if let Some(value) = assigned {
            set(packet, shape, field, value);
        }
    }

    /// Writes each assigned field that can be written into the packet as it arrived, which has this shape.
    pub fn write(&self, packet: &mut [u8], shape: &Shape)
        requires size { length packet.old ≤ largest_packet }
        requires shape { shape.now ≡ shape_of packet.old }
        ensures { (port : ℕ)
            → packet.new ≡ with_fields all_fields (fields_over self.now packet.old port) packet.old }
    {
        for field in fields() {
            self.write_field(packet, shape, field);
        }
    }
}
