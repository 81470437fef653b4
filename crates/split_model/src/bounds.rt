//! Whether a flat program is no larger than those that sources give.
ghost use Rattle.std.specs.Prelude.{◌≡◌, ◌≤◌, ◌↔◌, All, IsTrue};
ghost use Rattle.std.specs.List.{list_all};
ghost use Rattle.gal_bits.specs.Fitting.{is_width, sum_of};
ghost use Rattle.flat_ir.specs.Program.{program_of};
ghost use Rattle.split_model.specs.Bounds.{IsSmall, IsBounded};

use flat_ir::{Flat, is_well_formed};
use state_store::ObjectDecl;

// Whether several widths are of 128 bits together at most.
fn sum_is_low(widths: &[u64]) -> bool
    ensures { IsTrue result ↔ (sum_of widths.now ≤ 128) }
{
    let mut left = 128;
    for width in widths {
        if *width > left {
            return false;
        }
        left -= *width;
    }
    true
}

// Whether each number is a width.
fn are_widths(widths: &[u64]) -> bool
    ensures { result ≡ list_all is_width widths.now }
{
    widths.iter().all(|width| 1 <= *width && *width <= 64)
}

fn is_small(object: &ObjectDecl) -> bool
    ensures { IsTrue result ↔ IsSmall object.now }
{
    object.size <= 1_048_576
        && sum_is_low(object.keys.as_slice())
        && sum_is_low(object.values.as_slice())
        && are_widths(object.values.as_slice())
}

fn are_small(objects: &[ObjectDecl]) -> bool
    ensures { IsTrue result ↔ All IsSmall objects.now }
{
    for object in objects {
        if !is_small(object) {
            return false;
        }
    }
    true
}

/// Whether a flat program is well formed, and its instructions, its objects, and the widths in these are as few and as
/// small as in a program from a source.
pub fn is_bounded(f: &Flat) -> bool
    ensures { IsTrue result ↔ IsBounded (program_of f.now) }
{
    is_well_formed(f)
        && f.code.len() <= 4096
        && f.objects.len() <= 64
        && are_small(f.objects.as_slice())
}
