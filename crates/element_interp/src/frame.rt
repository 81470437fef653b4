//! What a run doesn't change.
ghost use Rattle.std.specs.Prelude.{◌≡◌, ◌≤◌, length};
ghost use Rattle.packet_fields.specs.Shape.{shape_of};
ghost use Rattle.packet_fields.specs.Sizes.{largest_packet};

use element_lang::Local;
use packet_fields::Shape;

/// The declared locals, and the packet as it arrived, with its shape.
#[derive(Clone, Copy)]
pub(crate) struct Frame<'a> {
    pub locals: &'a [Local],
    pub port: u8,
    pub bytes: &'a [u8],
    pub shape: Shape,
    ghost size: { length bytes.now ≤ largest_packet },
    ghost shaped: { shape ≡ shape_of bytes.now },
}
