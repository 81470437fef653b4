//! Whether counts, widths and kinds fit.
ghost use Rattle.std.specs.Prelude.{◌≡◌, ◌^◌, length, nat_lt, slice_get, slice_index};
ghost use Rattle.flat_ir.specs.Program.{work_of, program_of, is_named, width_of_value};
ghost use Rattle.gal_bits.specs.Fitting.{is_width};
ghost use Rattle.flat_ir.specs.Fits.{same_widths, fits_operator, is_shift, is_select, fits_keys, fits_values, can_put};
ghost use Rattle.flat_ir.specs.Fits.{can_del, widths_of, fits};

use crate::program::{Flat, InstrKind, ValueId};
use gal_bits::{Op, Width, eval};
use state_store::Kind;

/// Whether there is such a value.
pub(crate) fn is_named(f: &Flat, value: ValueId) -> bool
    ensures { result ≡ is_named (program_of f.now) value }
{
    match f.code.as_slice().get(value.instruction as usize) {
        Some(instr) => value.result < instr.kind.result_count(f.objects.as_slice()),
        None => false,
    }
}

/// How many bits a value has. One past the end is taken as that of a constant of 1 bit.
pub(crate) fn width_of_value(f: &Flat, value: ValueId) -> u64
    ensures { result ≡ width_of_value (program_of f.now) value }
{
    match f.code.as_slice().get(value.instruction as usize) {
        Some(instr) => instr.kind.result_width(f.objects.as_slice(), value.result),
        None => u64::from(value.result == 0),
    }
}

// Whether values have these widths.
fn have_widths(f: &Flat, values: &[ValueId], widths: &[u64]) -> bool
    ensures { result ≡ same_widths (widths_of (program_of f.now) values.now) widths.now }
{
    if values.len() != widths.len() {
        return false;
    }
    for i in 0..values.len() {
        if width_of_value(f, values[i]) != widths[i] {
            return false;
        }
    }
    true
}

// The width of the first of some values, 0 where there is none.
fn width_of_first(f: &Flat, values: &[ValueId]) -> u64
    ensures { result ≡ slice_index (widths_of (program_of f.now) values.now) 0 }
{
    match values {
        [] => 0,
        [first, ..] => width_of_value(f, *first),
    }
}

// Whether it is a width, from 1 to 64.
fn is_width(width: u64) -> bool
    ensures { result ≡ is_width width }
{
    1 <= width && width <= 64
}

fn is_select(op: Op) -> bool
    ensures { result ≡ is_select op }
{
    match op {
        Op::Select => true,
        _ => false,
    }
}

fn fits_operator(f: &Flat, op: Op, width: u64, args: &[ValueId]) -> bool
    ensures { result ≡ fits_operator op width (widths_of (program_of f.now) args.now) }
{
    let first = width_of_first(f, args);
    match op {
        Op::Add | Op::Sub | Op::Mul | Op::Div | Op::Rem | Op::And | Op::Or | Op::Xor => {
            have_widths(f, args, &[width, width])
        }
        Op::Not => have_widths(f, args, &[width]),
        Op::Eq | Op::Ne | Op::Lt | Op::Le => { width == 1 && have_widths(f, args, &[first, first]) }
        Op::Cast => is_width(width) && args.len() == 1,
        Op::Select => have_widths(f, args, &[1, width, width]),
        Op::Adjust => width == 16 && have_widths(f, args, &[16, 16, 16]),
        Op::Shl | Op::Shr => false,
    }
}

// Whether values are the key of an object.
fn fits_keys(f: &Flat, object: u32, keys: &[ValueId]) -> bool
    ensures { result ≡ fits_keys (slice_get f.now.objects object) (widths_of (program_of f.now) keys.now) }
{
    match f.objects.as_slice().get(object as usize) {
        Some(declared) => have_widths(f, keys, declared.keys.as_slice()),
        None => false,
    }
}

// Whether values are those of a row of an object.
fn fits_values(f: &Flat, object: u32, values: &[ValueId]) -> bool
    ensures { result ≡ fits_values (slice_get f.now.objects object) (widths_of (program_of f.now) values.now) }
{
    match f.objects.as_slice().get(object as usize) {
        Some(declared) => have_widths(f, values, declared.values.as_slice()),
        None => false,
    }
}

fn can_put(f: &Flat, object: u32) -> bool
    ensures { result ≡ can_put (slice_get f.now.objects object) }
{
    match f.objects.as_slice().get(object as usize) {
        Some(declared) => !declared.kind.is_table(),
        None => false,
    }
}

fn can_del(f: &Flat, object: u32) -> bool
    ensures { result ≡ can_del (slice_get f.now.objects object) }
{
    match f.objects.as_slice().get(object as usize) {
        Some(declared) => matches!(declared.kind, Kind::Map),
        None => false,
    }
}

fn is_shift(op: Op) -> bool
    ensures { result ≡ is_shift op }
{
    matches!(op, Op::Shl | Op::Shr)
}

// Whether a number is below 2 to the power of the width.
#[tactic(auto, using(crate::proofs::Fails::in_width))]
fn fits_width(number: u64, width: Width) -> bool
    ensures { result ≡ nat_lt number (2 ^ width) }
{
    eval(Op::Cast, width, &[number]) == number
}

/// Whether the parts of an instruction fit what it does.
pub(crate) fn fits(f: &Flat, kind: &InstrKind) -> bool
    ensures { result ≡ fits (program_of f.now) (work_of kind.now) }
{
    match kind {
        InstrKind::Const(width, number) => fits_width(*number, *width),
        InstrKind::Field(_) => true,
        InstrKind::Apply { op, width, args } => {
            !is_select(*op) && fits_operator(f, *op, u64::from(width.bits()), args)
        }
        InstrKind::Shift { op, width, arg, by } => {
            is_shift(*op) && *by <= 63 && width_of_value(f, *arg) == u64::from(width.bits())
        }
        InstrKind::Select {
            width,
            cond,
            first,
            second,
        } => {
            let bits = u64::from(width.bits());
            have_widths(f, &[*cond, *first, *second], &[1, bits, bits])
        }
        InstrKind::Byte(index) => width_of_value(f, *index) == 16,
        InstrKind::Look { object, keys } => fits_keys(f, *object, keys),
        InstrKind::Put {
            object,
            keys,
            values,
        } => {
            can_put(f, *object) && fits_keys(f, *object, keys) && fits_values(f, *object, values)
        }
        InstrKind::Del { object, keys } => can_del(f, *object) && fits_keys(f, *object, keys),
    }
}
