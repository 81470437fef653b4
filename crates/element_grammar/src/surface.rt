//! A source as a tree, before any rule is tested: objects and locals go by their names.

use element_tokens::Span;
use gal_bits::Op;
use packet_fields::Field;

/// Something in a source, and where it begins.
#[derive(Drop)]
pub struct At<T> {
    /// How many tokens there are from its first one to the end of the source.
    pub at: usize,
    pub item: T,
}

/// A whole middlebox.
#[derive(Drop)]
pub struct SurfaceTree {
    pub objects: Vec<At<SurfaceDecl>>,
    pub body: Vec<At<SurfaceStmt>>,
}

/// A number and the width that is written behind it, which may be none.
#[derive(Clone, Copy)]
pub struct Literal {
    pub value: u64,
    pub width: u64,
}

/// A row of a table.
#[derive(Drop)]
pub struct SurfaceRow {
    pub keys: Vec<Literal>,
    pub values: Vec<Literal>,
}

/// A declaration. Widths and sizes stand as they are written, and may be of any size.
#[derive(Drop)]
pub enum SurfaceDecl {
    Table {
        name: Span,
        keys: Vec<u64>,
        values: Vec<u64>,
        rows: Vec<SurfaceRow>,
    },
    Map {
        name: Span,
        keys: Vec<u64>,
        values: Vec<u64>,
        capacity: u64,
    },
    Vector {
        name: Span,
        length: u64,
        values: Vec<u64>,
    },
    Int {
        name: Span,
        width: u64,
        start: u64,
    },
}

/// A statement.
#[derive(Drop)]
pub enum SurfaceStmt {
    Let {
        local: Span,
        value: SurfaceExpr,
    },
    Assign {
        local: Span,
        value: SurfaceExpr,
    },
    SetField {
        field: Field,
        value: SurfaceExpr,
    },
    Look {
        found: Span,
        into: Vec<Span>,
        object: Span,
        keys: Vec<SurfaceExpr>,
    },
    Put {
        ok: Span,
        object: Span,
        keys: Vec<SurfaceExpr>,
        values: Vec<SurfaceExpr>,
    },
    Del {
        was: Span,
        object: Span,
        keys: Vec<SurfaceExpr>,
    },
    If {
        cond: SurfaceExpr,
        yes: Vec<At<SurfaceStmt>>,
        no: Vec<At<SurfaceStmt>>,
    },
    Repeat {
        index: Span,
        count: u64,
        body: Vec<At<SurfaceStmt>>,
    },
    Send {
        port: SurfaceExpr,
    },
    Drop,
}

/// An expression. Brackets around one leave no trace.
#[derive(Drop)]
pub enum SurfaceExpr {
    /// A number and the width that is written behind it, which may be none.
    Literal {
        value: u64,
        width: u64,
    },
    /// The name of a local.
    Name(Span),
    Field(Field),
    /// A byte of the packet.
    Byte(Box<SurfaceExpr>),
    /// A shift by a number of bits, as it is written.
    Shift {
        op: Op,
        by: u64,
        arg: Box<SurfaceExpr>,
    },
    /// An operator. The width is that of a cast, and 0 for every other.
    Apply {
        op: Op,
        width: u64,
        args: Vec<SurfaceExpr>,
    },
}
