//! What goes to out.
ghost use Rattle.std.specs.Prelude.{IfErr, OnOk};
ghost use Rattle.gallium_cli.specs.Puts.{IsPut, IsNotPut};

use crate::refusal::Refusal;
use gal_io::{Sink, SinkEnd};

/// Writes a text to out.
pub fn put<O: Sink>(out: &mut O, text: &[u8]) -> Result<(), Refusal<'static>>
    ensures ok { OnOk result (IsPut text.now (O.seen out.old) (O.seen out.new)) }
    ensures err { IfErr result (λ refusal. IsNotPut refusal text.now (O.seen out.old) (O.seen out.new)) }
{
    match out.write(text) {
        SinkEnd::Done => Ok(()),
        SinkEnd::Failed => Err(Refusal::WriteFault),
        SinkEnd::NoMemory => Err(Refusal::NoMemory),
    }
}
