//! The widths of what an instruction gives.
ghost use Rattle.std.specs.Prelude.{◌≡◌, ◌<◌, slice_index, All, IsTrue};
ghost use Rattle.gal_bits.specs.Fitting.{is_width};
ghost use Rattle.flat_ir.specs.Program.{work_of, result_count, result_widths};
ghost use Rattle.split_model.specs.Bounds.{IsSmall};

use flat_ir::InstrKind;
use gal_bits::Width;
use state_store::ObjectDecl;

// The width of so many bits.
fn width_of(bits: u64) -> Width
    requires { IsTrue (is_width bits) }
    ensures { result ≡ bits }
{
    Width::new(bits as u32).unwrap()
}

/// The width of a result.
pub(crate) fn result_width(objects: &[ObjectDecl], kind: &InstrKind, place: u32) -> Width
    requires small { All IsSmall objects.now }
    requires place_in_range { place < result_count objects.now (work_of kind.now) }
    ensures { result ≡ slice_index (result_widths objects.now (work_of kind.now)) place }
{
    if place == 0 {
        return kind.first_width();
    }
    width_of(kind.result_width(objects, place))
}
