//! Numbers of a capture, in either byte order.
ghost use Rattle.std.specs.Prelude.{◌≡◌, ◌+◌, ◌≤◌, drop, length, take};
ghost use Rattle.std.specs.Int.{w16, w32};
ghost use Rattle.pcap_trace.specs.Format.{number};

// The bytes of a number of 16 bits.
#[tactic(auto, using(crate::proofs::NumberLemmas::number_big, crate::proofs::NumberLemmas::number_little))]
pub(crate) fn u16_bytes(big: bool, value: u16) -> [u8; 2]
    ensures { result ≡ number big w16 value }
{
    if big {
        value.to_be_bytes()
    } else {
        value.to_le_bytes()
    }
}

// The bytes of a number of 32 bits.
#[tactic(auto, using(crate::proofs::NumberLemmas::number_big, crate::proofs::NumberLemmas::number_little))]
pub(crate) fn u32_bytes(big: bool, value: u32) -> [u8; 4]
    ensures { result ≡ number big w32 value }
{
    if big {
        value.to_be_bytes()
    } else {
        value.to_le_bytes()
    }
}

// The number of 32 bits that the four bytes from `at` on spell.
pub(crate) fn u32_at(big: bool, bytes: &[u8], at: usize) -> u32
    requires { at + 4 ≤ length bytes.now }
    ensures { number big w32 result ≡ take 4 (drop at bytes.now) }
{
    let four = [bytes[at], bytes[at + 1], bytes[at + 2], bytes[at + 3]];
    if big {
        u32::from_be_bytes(four)
    } else {
        u32::from_le_bytes(four)
    }
}
