//! What a middlebox declares as its state, and rows of it.
ghost use Rattle.std.specs.Prelude.{◌≡◌, IfOk};
ghost use Rattle.state_store.specs.Kinds.{is_table, is_constant};

use crate::rows::Rows;
use gal_bits::{Values, Widths};
use gal_io::{Bytes, CopyIn, Items, NoMemory};
use std::alloc::Global;

/// What kind of object it is.
#[derive(Clone, Copy, PartialEq, Eq)]
pub enum Kind {
    /// Rows that are declared and never change.
    Table,
    /// Rows that come and go, at most so many at once.
    Map,
    /// A row for each index below its length. The index is one number of 32 bits.
    Vector,
    /// One number, under the empty key.
    Int,
}

impl Kind {
    /// Whether the rows of such an object are declared and never change.
    pub fn is_table(self) -> bool
        ensures { result ≡ is_table self }
    {
        match self {
            Kind::Table => true,
            Kind::Map | Kind::Vector | Kind::Int => false,
        }
    }
}

/// A row: the numbers of its key, and those of its value.
#[derive(Clone, Copy)]
pub struct Row {
    pub keys: Values,
    pub values: Values,
}

/// A declared object.
#[derive(Drop)]
pub struct ObjectDecl {
    pub name: Bytes,
    pub kind: Kind,
    /// The widths of the numbers of a key, in bits. An integer has none.
    pub keys: Widths,
    /// The widths of the numbers of a value, in bits.
    pub values: Widths,
    /// The capacity of a map, the length of a vector, the number of rows of a table, and 1 of an integer.
    pub size: u32,
    /// The number that an integer starts with. It is 0 for every other kind.
    pub start: u64,
    /// The rows of a table, in order of declaration. Every other kind has none.
    pub rows: Rows,
}

impl CopyIn for ObjectDecl {
    fn copy(&self, alloc: Global) -> Result<ObjectDecl, NoMemory>
        ensures { IfOk result (λ made. made ≡ self.now) }
    {
        Ok(ObjectDecl {
            name: self.name.copy(alloc)?,
            kind: self.kind,
            keys: self.keys,
            values: self.values,
            size: self.size,
            start: self.start,
            rows: self.rows.copy(alloc)?,
        })
    }
}

/// The declared objects, in order of declaration. An object is known by its place in this list, from 0.
pub type Objects = Items<ObjectDecl>;

/// Whether the object of this number is there, and is a table.
pub fn is_constant(objects: &[ObjectDecl], number: u32) -> bool
    ensures { result ≡ is_constant objects.now number }
{
    match objects.get(number as usize) {
        Some(object) => object.kind.is_table(),
        None => false,
    }
}
