//! The syntax tree of a middlebox.
ghost use Rattle.std.specs.Prelude.{◌≡◌, IfOk};

use gal_bits::{Op, Width};
use gal_io::{Bytes, CopyIn, Items, NoMemory};
use packet_fields::Field;
use state_store::Objects;
use std::alloc::Global;

/// A whole middlebox.
#[derive(Drop)]
pub struct Middlebox {
    /// The state that lasts from packet to packet.
    pub objects: Objects,
    /// The variables of a run, in order of declaration. A local is known by its place in this list, from 0.
    pub locals: Locals,
    /// What is done to each packet. Its end drops the packet.
    pub body: Body,
}

/// A variable of a run.
#[derive(Drop)]
pub struct Local {
    pub name: Bytes,
    pub width: Width,
}

impl CopyIn for Local {
    fn copy(&self, alloc: Global) -> Result<Local, NoMemory>
        ensures { IfOk result (λ made. made ≡ self.now) }
    {
        Ok(Local {
            name: self.name.copy(alloc)?,
            width: self.width,
        })
    }
}

/// A list of locals.
pub type Locals = Items<Local>;

/// Statements, in order.
pub type Body = Vec<Stmt>;

/// A statement. Objects and locals are named by their places.
#[derive(Drop)]
pub enum Stmt {
    /// Declares a local, and gives it a value.
    Let {
        local: u32,
        value: Expr,
    },
    /// Gives a local another value.
    Assign {
        local: u32,
        value: Expr,
    },
    /// Gives a field, which is a variable of the run, another value.
    SetField {
        field: Field,
        value: Expr,
    },
    /// Looks a key up. `found` becomes 1 and `into` the values where the key is there, and all become 0 where it isn't.
    Look {
        found: u32,
        into: Vec<u32>,
        object: u32,
        keys: Vec<Expr>,
    },
    /// Stores a row. `ok` becomes 1 where it was stored, and 0 where there is no place for it.
    Put {
        ok: u32,
        object: u32,
        keys: Vec<Expr>,
        values: Vec<Expr>,
    },
    /// Removes a row of a map. `was` becomes 1 where the key was there, and else 0.
    Del {
        was: u32,
        object: u32,
        keys: Vec<Expr>,
    },
    /// Does `yes` where the condition, which has 1 bit, is 1, and else `no`.
    If {
        cond: Expr,
        yes: Body,
        no: Body,
    },
    /// Does the body so many times, from 1 to 64. The local `index` counts the turns from 0.
    Repeat {
        index: u32,
        count: u8,
        body: Body,
    },
    /// Ends the run: the packet leaves by this port, with its fields as they are.
    Send {
        port: Expr,
    },
    /// Ends the run: the packet goes no further.
    Drop,
}

/// An expression.
#[derive(Drop)]
pub enum Expr {
    /// A number and its width in bits.
    Lit(u64, Width),
    /// The value of a local.
    Local(u32),
    /// The value of a field.
    Field(Field),
    /// A byte of the packet as it arrived, by its index; 0 past the end.
    Byte(Box<Expr>),
    /// A shift by a number of bits.
    Shift {
        op: Op,
        by: u8,
        arg: Box<Expr>,
    },
    /// Any other operator. The width is that of the result, in bits.
    Apply {
        op: Op,
        width: Width,
        args: Vec<Expr>,
    },
}
