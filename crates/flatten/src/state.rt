//! Which values stand for the variables of a run.
ghost use Rattle.std.specs.Prelude.{◌≡◌, slice_set, Some};
ghost use Rattle.packet_fields.specs.Table.{field_index};
ghost use Rattle.flatten.specs.Flatten as pure;
ghost use Rattle.flatten.specs.Journal as journal;

use crate::place::Ending;
use flat_ir::ValueId;
use packet_fields::{Field, field_index};
use std::marker::Model;

/// 0 of 1 bit, the first instruction of every flat program.
pub(crate) const NOUGHT: ValueId = ValueId {
    instruction: 0,
    result: 0,
};

/// 1 of 1 bit, the second.
pub(crate) const ONE: ValueId = ValueId {
    instruction: 1,
    result: 0,
};

/// 0 of 8 bits, the third.
pub(crate) const NOUGHT_PORT: ValueId = ValueId {
    instruction: 2,
    result: 0,
};

/// The values of the variables at some place of a source.
#[derive(Drop)]
pub(crate) struct State {
    /// Of each local by its number, none where it is out of scope.
    pub locals: Vec<Option<ValueId>>,
    /// Of each field in field order, none where it doesn't occur.
    pub fields: Vec<Option<ValueId>>,
    pub send: ValueId,
    pub port: ValueId,
    pub ended: Ending,
}

impl Model for State {
    ghost use Rattle.flatten.specs.Flatten.{View};

    ghost Value = { View };

    ghost view = { λ w. record {
      locals = w.locals.items;
      fields = w.fields.items;
      send = w.send;
      port = w.port;
      ended = w.ended;
    } };
}

// The value at a place, and 0 where there is none.
fn value_at(ids: &[Option<ValueId>], place: usize) -> ValueId
    ensures { result ≡ pure.value_at ids.now place }
{
    match ids.get(place) {
        Some(Some(id)) => *id,
        _ => NOUGHT,
    }
}

/// The value at a place, and none where there is no such place.
pub(crate) fn value_or_none(ids: &[Option<ValueId>], place: usize) -> Option<ValueId>
    ensures { result ≡ journal.value_or_none ids.now place }
{
    match ids.get(place) {
        Some(id) => *id,
        None => None,
    }
}

/// Sets the value at a place, where there is one.
pub(crate) fn set_at(ids: &mut [Option<ValueId>], place: usize, id: Option<ValueId>)
    ensures { ids.new ≡ slice_set ids.old place id }
{
    if place < ids.len() {
        ids[place] = id;
    }
}

impl State {
    /// The value of a local.
    pub fn local(&self, x: u32) -> ValueId
        ensures { result ≡ pure.value_at self.now.locals x }
    {
        value_at(&self.locals, x as usize)
    }

    /// The value of a field.
    pub fn field(&self, field: Field) -> ValueId
        ensures { result ≡ pure.value_at self.now.fields (field_index field) }
    {
        value_at(&self.fields, field_index(field))
    }

    /// Gives a field another value.
    pub fn assign(&mut self, field: Field, id: ValueId)
        ensures { self.new ≡ pure.assigned field id self.old }
    {
        set_at(&mut self.fields, field_index(field), Some(id));
    }

    /// Says whether the run has ended.
    pub fn end(&mut self, ended: Ending)
        ensures { self.new ≡ pure.ends ended self.old }
    {
        self.ended = ended;
    }

    /// The run ends: the packet leaves by this port, or is dropped.
    pub fn finish(&mut self, send: ValueId, port: ValueId)
        ensures { self.new ≡ pure.finished send port self.old }
    {
        self.send = send;
        self.port = port;
        self.ended = Ending::Yes;
    }
}
