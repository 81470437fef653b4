//! The headers of a packet.
ghost use Rattle.std.specs.Prelude.{◌≡◌, ℕ, ◌+◌, ◌*◌, ◌^◌, ◌<◌, ◌≤◌, length, true, Some, None, if◌then◌else◌};
ghost use Rattle.packet_fields.specs.Fields.{NoneOverlap};
ghost use Rattle.packet_fields.specs.Shape.{outline_of, in_header, has_tag, network_start, after_ip, has_ip, carries};
ghost use Rattle.packet_fields.specs.Shape.{shape_of, start_of};
ghost use Rattle.packet_fields.specs.Table.{row};
ghost use Rattle.packet_fields.specs.Sizes.{largest_packet};

use crate::bits::number_at;
use crate::field::{Field, Header, bits_of, first_bit};

// An Ethernet header ends at this byte.
const AFTER_ETHERNET: usize = 14;
// A VLAN tag behind it ends at this byte.
const AFTER_TAG: usize = 18;
// The type of a frame that has a VLAN tag.
const TAGGED: u64 = 0x8100;
// The network type of IPv4.
const IPV4: u64 = 0x0800;
// TCP's number in an IPv4 header.
const TCP: u64 = 6;
// UDP's number there.
const UDP: u64 = 17;

/// The headers that a packet has: for each the byte of the packet at which it starts, if it is there.
#[derive(Clone, Copy, PartialEq, Eq)]
pub struct Shape {
    pub ethernet: Option<usize>,
    pub vlan: Option<usize>,
    pub ip: Option<usize>,
    pub tcp: Option<usize>,
    pub udp: Option<usize>,
}

impl Shape {
    /// The headers of the packet. What the IPv4 header says of the packet's length isn't looked at.
    #[tactic(auto, using(crate::proofs::Places::none_overlap))]
    pub fn of(packet: &[u8]) -> Shape
        requires { length packet.now ≤ largest_packet }
        ensures value { result ≡ shape_of packet.now }
        ensures apart { NoneOverlap result }
    {
        Shape::found(packet)
    }

    #[tactic(auto, unfolding(crate::specs::Shape::shape_of, crate::specs::Shape::shape_from))]
    fn found(packet: &[u8]) -> Shape
        requires { length packet.now ≤ largest_packet }
        ensures { result ≡ shape_of packet.now }
    {
        let ethernet = if packet.len() >= AFTER_ETHERNET {
            Some(0)
        } else {
            None
        };
        let vlan = if has_tag(packet) {
            Some(AFTER_ETHERNET)
        } else {
            None
        };
        let network = network_start(packet);
        if !starts_ip(packet, network) {
            return Shape {
                ethernet,
                vlan,
                ip: None,
                tcp: None,
                udp: None,
            };
        }
        let after_ip = network + 4 * in_header(packet, network, Field::IpIhl) as usize;
        Shape {
            ethernet,
            vlan,
            ip: Some(network),
            tcp: next_header(packet, network, after_ip, TCP, 20),
            udp: next_header(packet, network, after_ip, UDP, 8),
        }
    }

    /// The byte of the packet at which the header starts, if it is there.
    pub fn start(&self, header: Header) -> Option<usize>
        ensures { result ≡ start_of self.now header }
    {
        match header {
            Header::Meta => None,
            Header::Ethernet => self.ethernet,
            Header::Vlan => self.vlan,
            Header::Ip => self.ip,
            Header::Tcp => self.tcp,
            Header::Udp => self.udp,
        }
    }
}

// The field's number in a header that starts at this byte.
fn in_header(packet: &[u8], start: usize, field: Field) -> u64
    requires near { start ≤ 18 }
    requires inside { 8 * start + (row field).at + (row field).width ≤ 8 * length packet.now }
    requires bounded_place { (row field).at ≤ 160 }
    requires narrow { (row field).width ≤ 48 }
    ensures value { result ≡ in_header packet.now start field }
    ensures fits { result < 2 ^ (row field).width }
{
    number_at(packet, 8 * start + first_bit(field), bits_of(field))
}

// Whether a VLAN tag follows the Ethernet header.
fn has_tag(packet: &[u8]) -> bool
    ensures { result ≡ has_tag packet.now }
{
    packet.len() >= AFTER_TAG && in_header(packet, 0, Field::EthType) == TAGGED
}

// The byte at which the network header starts, if there is one.
fn network_start(packet: &[u8]) -> usize
    ensures { result ≡ network_start packet.now }
{
    if has_tag(packet) {
        AFTER_TAG
    } else {
        AFTER_ETHERNET
    }
}

// Whether the packet has an IPv4 header, where the network header would start at this byte.
fn starts_ip(packet: &[u8], network: usize) -> bool
    requires size { length packet.now ≤ largest_packet }
    requires start { network ≡ network_start packet.now }
    ensures { result ≡ has_ip (outline_of packet.now) }
{
    if packet.len() < network + 20 {
        return false;
    }
    let words = in_header(packet, network, Field::IpIhl) as usize;
    number_at(packet, 8 * (network - 2), 16) == IPV4
        && in_header(packet, network, Field::IpVersion) == 4
        && words >= 5
        && network + 4 * words <= packet.len()
}

// Where the header of that protocol starts, which has so many bytes, if it follows the IPv4 header.
#[tactic(auto, using(crate::proofs::Places::ip_facts))]
fn next_header(
    packet: &[u8],
    network: usize,
    start: usize,
    protocol: u64,
    bytes: usize,
) -> Option<usize>
    requires size { length packet.now ≤ largest_packet }
    requires network { network ≡ network_start packet.now }
    requires ip { has_ip (outline_of packet.now) ≡ true }
    requires start { start ≡ after_ip (outline_of packet.now) }
    requires short { bytes ≤ 20 }
    ensures { result ≡ (if carries (outline_of packet.now) protocol bytes then Some start else None) }
{
    let is_carried = in_header(packet, network, Field::IpFrag) == 0
        && in_header(packet, network, Field::IpProto) == protocol
        && start + bytes <= packet.len();
    if is_carried { Some(start) } else { None }
}
