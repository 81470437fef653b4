//! Numbers in bytes, the highest byte first.
ghost use Rattle.std.specs.Prelude.{◌≡◌, ◌+◌, ◌≤◌, drop, length, take};
ghost use Rattle.lossy_link.specs.CommandBytes.{eight_bytes};
ghost use Rattle.lossy_link.specs.Datagrams.{number_bytes, number_in};

// A number of 32 bits in four bytes.
#[tactic(auto, unfolding(crate::specs::Datagrams::number_bytes))]
pub(crate) fn four_bytes(number: u32) -> [u8; 4]
    ensures { result ≡ number_bytes number }
{
    number.to_be_bytes()
}

// The number that the first four bytes spell.
#[tactic(auto, using(crate::proofs::Kept::four_read))]
pub(crate) fn number_in(bytes: &[u8]) -> u32
    requires { 4 ≤ length bytes.now }
    ensures { result ≡ number_in bytes.now }
{
    u32::from_be_bytes([bytes[0], bytes[1], bytes[2], bytes[3]])
}

// A number of 64 bits in eight bytes.
#[tactic(auto, unfolding(crate::specs::CommandBytes::eight_bytes))]
pub(crate) fn eight_bytes(number: u64) -> [u8; 8]
    ensures { result ≡ eight_bytes number }
{
    number.to_be_bytes()
}

// The number that the eight bytes from `at` on spell.
pub(crate) fn number_at(bytes: &[u8], at: usize) -> u64
    requires { at + 8 ≤ length bytes.now }
    ensures { eight_bytes result ≡ take 8 (drop at bytes.now) }
{
    u64::from_be_bytes([
        bytes[at],
        bytes[at + 1],
        bytes[at + 2],
        bytes[at + 3],
        bytes[at + 4],
        bytes[at + 5],
        bytes[at + 6],
        bytes[at + 7],
    ])
}
