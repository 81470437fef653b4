//! Numbers in ranges of bits of some bytes.
ghost use Rattle.std.specs.Prelude.{◌≡◌, ℕ, ◌+◌, ◌-◌, ◌*◌, ◌/◌, ◌%◌, ◌^◌, ◌<◌, ◌≤◌, length, slice_index};
ghost use Rattle.packet_fields.specs.Bits.{number_at, with_number_at, Holds};

// The bytes from `first` up to `end`, which hold a range of bits. The last `behind` bits of them stand behind the
// range.
#[derive(Clone, Copy)]
struct Window {
    first: usize,
    end: usize,
    behind: usize,
}

impl Window {
    fn around(start: usize, width: usize) -> Window
        requires near { start ≤ 2 ^ 32 }
        requires narrow { width ≤ 48 }
        ensures { Holds result.first result.end result.behind start width }
    {
        let first = start / 8;
        let end = (start + width + 7) / 8;
        Window {
            first,
            end,
            behind: 8 * end - (start + width),
        }
    }
}

// The number that all bits of these bytes spell.
#[tactic(auto, using(crate::proofs::BitRows::no_bytes, crate::proofs::BitRows::one_byte_more, crate::proofs::BitRows::room_for_byte))]
fn number_of(bytes: &[u8]) -> u64
    requires { length bytes.now ≤ 7 }
    ensures { result ≡ number_at bytes.now 0 (8 * length bytes.now) }
{
    let mut number: u64 = 0;
    for byte in bytes {
        number = number * 256 + u64::from(*byte);
    }
    number
}

// Writes a number over the bytes from `first` up to `end`, its lowest byte last.
fn write_number(packet: &mut [u8], first: usize, end: usize, number: u64)
    requires order { first ≤ end }
    requires within { end ≤ length packet.old }
    requires short { end ≤ first + 8 }
    ensures len { length packet.new ≡ length packet.old }
    ensures inside { (k : ℕ) → first ≤ k → k < end → slice_index packet.new k ≡ number / 2 ^ (8 * (end - 1 - k)) % 256 }
    ensures before { (k : ℕ) → k < first → slice_index packet.new k ≡ slice_index packet.old k }
    ensures behind { (k : ℕ) → end ≤ k → slice_index packet.new k ≡ slice_index packet.old k }
{
    for i in first..end {
        packet[i] = ((number >> (8 * (end - 1 - i))) % 256) as u8;
    }
}

/// The number in the range of `width` bits that begins at bit `start`.
pub fn number_at(packet: &[u8], start: usize, width: usize) -> u64
    requires near { start ≤ 2 ^ 32 }
    requires within { start + width ≤ 8 * length packet.now }
    requires narrow { width ≤ 48 }
    ensures value { result ≡ number_at packet.now start width }
    ensures fits { result < 2 ^ width }
{
    let window = Window::around(start, width);
    let all = number_of(&packet[window.first..window.end]);
    (all >> window.behind) % (1 << width)
}

/// Writes a number over that range, and over no other bit.
pub fn set_number_at(packet: &mut [u8], start: usize, width: usize, number: u64)
    requires near { start ≤ 2 ^ 32 }
    requires within { start + width ≤ 8 * length packet.old }
    requires narrow { width ≤ 48 }
    requires fits { number < 2 ^ width }
    ensures { packet.new ≡ with_number_at packet.old start width number }
{
    let Window { first, end, behind } = Window::around(start, width);
    let all = number_of(&packet[first..end]);
    let before = (all >> (behind + width)) << (behind + width);
    let rest = all % (1 << behind);
    write_number(packet, first, end, before + (number << behind) + rest);
}
