//! Widths as they are written in a source, where they may be any number.
ghost use Rattle.std.specs.Prelude.{◌≡◌, ◌^◌, List, nat_lt, nat_le, slice_index};
ghost use Rattle.gal_bits.specs.Fitting.{sum_of};
ghost use Rattle.element_lang.specs.Rules as rules;
ghost use Rattle.element_lang.specs.Broken as broken;

use gal_bits::Op;

// The most bits of a value.
const MAX_WIDTH: u64 = 64;

/// Whether values may have so many bits.
pub(crate) fn is_width(bits: u64) -> bool
    ensures { result ≡ rules.is_width bits }
{
    1 <= bits && bits <= MAX_WIDTH
}

/// Whether a value needs no more bits than these.
pub(crate) fn fits(value: u64, bits: u64) -> bool
    ensures { result ≡ nat_lt value (2 ^ bits) }
{
    bits >= MAX_WIDTH || value >> bits == 0
}

/// Whether the widths are these, one by one.
pub(crate) fn same_widths(found: &[u64], wanted: &[u64]) -> bool
    ensures { result ≡ rules.same_widths found.now wanted.now }
{
    found == wanted
}

// Whether these widths are no more than so many bits together.
fn fit_in(widths: &[u64], most: u64) -> bool
    ensures { result ≡ nat_le (sum_of widths.now) most }
{
    let mut left = most;
    for bits in widths {
        if *bits > left {
            return false;
        }
        left -= *bits;
    }
    true
}

/// Whether a key or a value may have numbers of these widths, as far as their count and their sum go.
pub(crate) fn is_list_of_numbers(widths: &[u64]) -> bool
    ensures { result ≡ broken.is_list_of_numbers widths.now }
{
    !widths.is_empty() && widths.len() <= 8 && fit_in(widths, 128)
}

// The first width, or 0.
fn first_of(widths: &[u64]) -> u64
    ensures { result ≡ slice_index widths.now 0 }
{
    match widths {
        [first, ..] => *first,
        [] => 0,
    }
}

// The width of the values between which a choice is made.
fn chosen(args: &[u64]) -> u64
    ensures { result ≡ broken.result_width Op.Select 0 args.now }
{
    match args {
        [_, second, ..] => *second,
        [only] => *only,
        [] => 0,
    }
}

/// The width of an operator's result, where one is written with it and the arguments have these widths.
pub(crate) fn result_width(op: Op, written: u64, args: &[u64]) -> u64
    ensures { result ≡ broken.result_width op written args.now }
{
    match op {
        Op::Cast => written,
        Op::Eq | Op::Ne | Op::Lt | Op::Le => 1,
        Op::Adjust => 16,
        Op::Select => chosen(args),
        _ => first_of(args),
    }
}

/// Whether the arguments' widths fit an operator and the width of its result.
pub(crate) fn fits_operator(op: Op, width: u64, args: &[u64]) -> bool
    ensures { result ≡ rules.fits_operator op width args.now }
{
    match op {
        Op::Add | Op::Sub | Op::Mul | Op::Div | Op::Rem | Op::And | Op::Or | Op::Xor => {
            same_widths(args, &[width, width])
        }
        Op::Not => same_widths(args, &[width]),
        Op::Shl | Op::Shr => false,
        Op::Eq | Op::Ne | Op::Lt | Op::Le => {
            let first = first_of(args);
            width == 1 && same_widths(args, &[first, first])
        }
        Op::Cast => is_width(width) && args.len() == 1,
        Op::Select => same_widths(args, &[1, width, width]),
        Op::Adjust => width == 16 && same_widths(args, &[16, 16, 16]),
    }
}
