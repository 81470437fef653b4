//! The update of an internet checksum.
ghost use Rattle.std.specs.Prelude.{◌≡◌, ◌+◌};
ghost use Rattle.gal_bits.specs.Checksum.{adjusted, complement, IsCongruent, IsRecomputed};

/// The checksum `sum` after one 16-bit word that it covers has changed from `old` to `new`: equation 3 of RFC 1624.
pub fn adjust(sum: u16, old: u16, new: u16) -> u16
    ensures value { result ≡ adjusted sum old new }
    ensures congruent { IsCongruent (complement result) (complement sum + complement old + new) }
    ensures recomputed { IsRecomputed sum old new result }
{
    let total = u32::from(!sum) + u32::from(!old) + u32::from(new);
    let once = total % 65536 + total / 65536;
    let twice = once % 65536 + once / 65536;
    !(twice as u16)
}
