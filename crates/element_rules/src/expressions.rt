//! What is wrong in an expression, and how wide its value is.
ghost use Rattle.std.specs.Prelude.{◌≡◌, List, IfOk, map};
ghost use Rattle.element_lang.specs.declared.tree.Local.{Local};
ghost use Rattle.element_lang.specs.Surface as surface;
ghost use Rattle.element_lang.specs.Broken as broken;
ghost use Rattle.element_tokens.specs.Tokens.{span_text};
ghost use Rattle.element_grammar.specs.Surface.{surface_expr, surface_exprs};
ghost use Rattle.element_rules.specs.Seen.{local_of};
ghost use Rattle.element_rules.specs.Tested.{no_faults, both_faults, tested, tested_list, list_of};

use crate::names::width_named;
use crate::widths::{fits, fits_operator, is_width, result_width};
use element_grammar::SurfaceExpr;
use element_tokens::Span;
use gal_bits::Op;
use gal_io::NoMemory;
use indexmap::IndexMap;
use packet_fields::{Field, width};
use std::alloc::Global;

// The bits of an index of a byte, and those of a byte.
const INDEX_BITS: u64 = 16;

const BYTE_BITS: u64 = 8;

// The most bits to shift by.
const MAX_SHIFT: u64 = 63;

/// What is wrong in an expression, or in one inside it.
#[derive(Clone, Copy)]
pub(crate) struct Faults {
    /// A width that is written isn't from 1 to 64.
    pub bad_width: bool,
    /// A literal needs more bits than its width.
    pub too_large: bool,
    /// A name isn't that of a local in scope.
    pub unknown: bool,
    /// Widths don't fit an operator, or an index isn't of 16 bits.
    pub misfit: bool,
    /// A shift is above 63.
    pub far_shift: bool,
}

/// How wide an expression's value is, and what is wrong in it.
#[derive(Clone, Copy)]
pub(crate) struct Tested {
    pub width: u64,
    pub faults: Faults,
}

/// How wide the values of several are, and what is wrong in any of them.
#[derive(Drop)]
pub(crate) struct TestedList {
    pub widths: Vec<u64>,
    pub faults: Faults,
}

impl Faults {
    /// Nothing is wrong.
    pub fn none() -> Faults
        ensures { result ≡ no_faults }
    {
        Faults {
            bad_width: false,
            too_large: false,
            unknown: false,
            misfit: false,
            far_shift: false,
        }
    }

    /// What is wrong here or there.
    pub fn and(self, other: Faults) -> Faults
        ensures { result ≡ both_faults self other }
    {
        Faults {
            bad_width: self.bad_width || other.bad_width,
            too_large: self.too_large || other.too_large,
            unknown: self.unknown || other.unknown,
            misfit: self.misfit || other.misfit,
            far_shift: self.far_shift || other.far_shift,
        }
    }
}

// A number and the width that is written behind it.
fn literal(value: u64, bits: u64) -> Tested
    ensures { (locals : List Local) → result ≡ tested locals (surface.lit value bits) }
{
    Tested {
        width: bits,
        faults: Faults {
            bad_width: !is_width(bits),
            too_large: !fits(value, bits),
            ..Faults::none()
        },
    }
}

// The local of this name.
fn local(text: &[u8], locals: &IndexMap<Vec<u8>, u64>, name: Span) -> Tested
    ensures { result ≡ tested (map local_of locals.now.entries) (surface.name (span_text text.now name)) }
{
    match width_named(text, locals, name) {
        Some(width) => Tested {
            width,
            faults: Faults::none(),
        },
        None => Tested {
            width: 0,
            faults: Faults {
                unknown: true,
                ..Faults::none()
            },
        },
    }
}

// A field of the packet.
fn field(field: Field) -> Tested
    ensures { (locals : List Local) → result ≡ tested locals (surface.field field) }
{
    Tested {
        width: u64::from(width(field).bits()),
        faults: Faults::none(),
    }
}

// A byte of the packet, by its index.
fn byte(index: Tested) -> Tested
    ensures { (locals : List Local) (e : surface.SurfaceExpr) → index ≡ tested locals e
        → result ≡ tested locals (surface.byte e) }
{
    Tested {
        width: BYTE_BITS,
        faults: Faults {
            misfit: index.width != INDEX_BITS || index.faults.misfit,
            ..index.faults
        },
    }
}

// A shift by a number of bits.
fn shift(op: Op, by: u64, arg: Tested) -> Tested
    ensures { (locals : List Local) (e : surface.SurfaceExpr) → arg ≡ tested locals e
        → result ≡ tested locals (surface.shift op by e) }
{
    Tested {
        width: arg.width,
        faults: Faults {
            far_shift: by > MAX_SHIFT || arg.faults.far_shift,
            ..arg.faults
        },
    }
}

// Whether the width that is written with an operator is one of no value. None is written but with a cast.
fn is_bad_width(op: Op, written: u64) -> bool
    ensures { (args : surface.SurfaceExprs) → result ≡ broken.is_bad_width (surface.apply op written args) }
{
    match op {
        Op::Cast => !is_width(written),
        _ => false,
    }
}

// An operator on these arguments.
fn apply(op: Op, written: u64, args: TestedList) -> Tested
    ensures { (locals : List Local) (es : surface.SurfaceExprs) → list_of args ≡ tested_list locals es
        → result ≡ tested locals (surface.apply op written es) }
{
    let width = result_width(op, written, &args.widths);
    let misfit = !fits_operator(op, width, &args.widths);
    Tested {
        width,
        faults: Faults {
            bad_width: is_bad_width(op, written) || args.faults.bad_width,
            misfit: misfit || args.faults.misfit,
            ..args.faults
        },
    }
}

/// An expression over the locals in scope.
#[cycle(expression)]
pub(crate) fn expression(
    alloc: Global,
    text: &[u8],
    locals: &IndexMap<Vec<u8>, u64>,
    source: &SurfaceExpr,
) -> Result<Tested, NoMemory>
    ensures { IfOk result (λ made. made ≡ tested (map local_of locals.now.entries) (surface_expr text.now source.now)) }
{
    match source {
        SurfaceExpr::Literal { value, width } => Ok(literal(*value, *width)),
        SurfaceExpr::Name(name) => Ok(local(text, locals, *name)),
        SurfaceExpr::Field(name) => Ok(field(*name)),
        SurfaceExpr::Byte(index) => {
            let index = expression(alloc, text, locals, index)?;
            Ok(byte(index))
        }
        SurfaceExpr::Shift { op, by, arg } => {
            let arg = expression(alloc, text, locals, arg)?;
            Ok(shift(*op, *by, arg))
        }
        SurfaceExpr::Apply { op, width, args } => {
            let args = expressions(alloc, text, locals, args)?;
            Ok(apply(*op, *width, args))
        }
    }
}

/// Expressions over the locals in scope.
#[cycle(expression)]
pub(crate) fn expressions(
    alloc: Global,
    text: &[u8],
    locals: &IndexMap<Vec<u8>, u64>,
    source: &[SurfaceExpr],
) -> Result<TestedList, NoMemory>
    ensures { IfOk result (λ made.
        list_of made ≡ tested_list (map local_of locals.now.entries) (surface_exprs text.now source.now)) }
{
    let mut widths = Vec::new(alloc);
    let mut faults = Faults::none();
    for next in source {
        let made = expression(alloc, text, locals, next)?;
        widths.push(made.width)?;
        faults = faults.and(made.faults);
    }
    Ok(TestedList { widths, faults })
}
