//! The files of a command, each read whole.
ghost use Rattle.std.specs.Prelude.{◌≡◌, ◌≤◌, IfOk, IfErr, IfSome, List, OnOk, ℕ, length};
ghost use Rattle.gallium_cli.specs.Lines.{status_of};
ghost use Rattle.gallium_cli.specs.Roles.{Role, size_of};
ghost use Rattle.gallium_cli.specs.Loads.{IsFileRefused, IsUnread, LeavesFiles, raised_by};

use crate::refusal::Refusal;
use crate::status::Status;
use gal_io::{Files, ReadEnd};
use std::alloc::Global;

/// The most bytes of a source.
pub const MAX_SOURCE: usize = 262_144;

/// The most bytes of any other file.
pub const MAX_TEXT: usize = 67_108_864;

/// What a file is read as: how many bytes it may have, and what its text spells.
pub trait Format {
    /// What such a text spells.
    type Value: Drop;

    // The role of such a file among those of a command.
    ghost role: { Self → Role };

    // The text spells the value.
    ghost spells: { Self → List ℕ → Self.Value → Type 0 };

    // What holds of every value that is read, whether or not the file tells its content.
    ghost sound: { Self → Self.Value → Type 0 };

    // What holds of what such a text is read for.
    ghost ready: { Self → Type 0 };

    /// The most bytes of such a file.
    fn size(&self) -> usize
        ensures { result ≡ size_of (role self.now) };

    /// What a text spells, or why it spells nothing.
    fn read(&self, alloc: Global, text: &[u8]) -> Result<Self::Value, Refusal<'static>>
        requires ready { ready self.now }
        ensures ok { IfOk result (λ value. spells self.now text.now value) }
        ensures sound { IfOk result (λ value. sound self.now value) }
        ensures err { IfErr result (λ refusal. IsUnread refusal (role self.now) text.now) };
}

/// What the file of a name spells. The file is read once, whatever comes of it.
pub fn load<'a, T: Format, F: Files>(
    alloc: Global,
    files: &mut F,
    format: &T,
    name: &'a str,
) -> Result<T::Value, Refusal<'a>>
    requires ready { T.ready format.now }
    ensures ok { IfOk result (λ value. IfSome ((F.seen files.old).told name.now)
        (λ text. (length text ≤ size_of (T.role format.now)) × T.spells format.now text value)) }
    ensures sound { IfOk result (λ value. T.sound format.now value) }
    ensures err { IfErr result (λ refusal. IsFileRefused refusal (T.role format.now) name.now
        (F.seen files.old) (F.seen files.new)) }
    ensures stays { OnOk result (LeavesFiles Status.Done (F.seen files.old) (F.seen files.new)) }
    ensures fault { IfErr result (λ refusal.
        LeavesFiles (status_of refusal) (F.seen files.old) (F.seen files.new)) }
    ensures read { (F.seen files.new).reads ≡ raised_by 1 (F.seen files.old).reads }
{
    let mut bytes = Vec::new(alloc);
    match files.read(alloc, name, format.size(), &mut bytes) {
        ReadEnd::Done => format.read(alloc, &bytes),
        ReadEnd::TooLong => Err(Refusal::TooLong(name)),
        ReadEnd::Failed => Err(Refusal::ReadFault(name)),
        ReadEnd::NoMemory => Err(Refusal::NoMemory),
    }
}
