//! The fields of a packet, from one table.
ghost use Rattle.std.specs.Prelude.{◌≡◌, ◌≢◌, ◌<◌, MatchOption, Some, slice_get};
ghost use Rattle.packet_fields.specs.declared.field.Field.{Field};
ghost use Rattle.packet_fields.specs.Table.{field_index, field_count, row, all_fields, field_named};

use gal_bits::Width;

/// A header of a packet.
#[derive(Clone, Copy, PartialEq, Eq)]
pub enum Header {
    /// No header: what is known of the packet besides its bytes.
    Meta,
    /// The MAC addresses and the type of an Ethernet frame (IEEE 802.3).
    Ethernet,
    /// A VLAN tag (IEEE 802.1Q), without the type in front of it.
    Vlan,
    /// IPv4 (RFC 791).
    Ip,
    /// TCP (RFC 9293).
    Tcp,
    /// UDP (RFC 768).
    Udp,
}

/// A field of a packet. The variants stand in field order.
#[derive(Clone, Copy, PartialEq, Eq)]
pub enum Field {
    /// The port by which the packet arrived.
    MetaPort,
    /// How many bytes the packet has.
    MetaLen,
    /// 1 where the packet has an IPv4 header, else 0.
    HasIp,
    /// 1 where the packet has a TCP header, else 0.
    HasTcp,
    /// 1 where the packet has a UDP header, else 0.
    HasUdp,
    EthDst,
    EthSrc,
    EthType,
    /// The priority code point.
    VlanPcp,
    /// The drop eligible indicator.
    VlanDei,
    /// The VLAN identifier.
    VlanId,
    IpVersion,
    /// The length of the IPv4 header, in words of 4 bytes.
    IpIhl,
    IpTos,
    IpLen,
    IpId,
    /// The three flag bits in front of the fragment offset.
    IpFlags,
    /// The fragment offset, in units of 8 bytes.
    IpFrag,
    IpTtl,
    IpProto,
    IpSum,
    IpSrc,
    IpDst,
    TcpSport,
    TcpDport,
    TcpSeq,
    TcpAck,
    /// The data offset, in words of 4 bytes.
    TcpOff,
    /// The four bits behind the data offset.
    TcpRes,
    TcpFlags,
    TcpWin,
    TcpSum,
    TcpUrg,
    UdpSport,
    UdpDport,
    UdpLen,
    UdpSum,
}

// The table, which is handed to the macro `then` behind what is given. A row has a field, its name, the header that it
// stands in, its first bit there (counted from the highest bit of the header's first byte), how many bits it has, and
// whether it may be written.
macro_rules! field_table {
    ($then:ident $($given:tt)*) => {
        $then! {
            [$($given)*]
            MetaPort "meta.port" Meta 0 8 false,
            MetaLen "meta.len" Meta 0 16 false,
            HasIp "has.ip" Meta 0 1 false,
            HasTcp "has.tcp" Meta 0 1 false,
            HasUdp "has.udp" Meta 0 1 false,
            EthDst "eth.dst" Ethernet 0 48 true,
            EthSrc "eth.src" Ethernet 48 48 true,
            EthType "eth.type" Ethernet 96 16 false,
            VlanPcp "vlan.pcp" Vlan 0 3 true,
            VlanDei "vlan.dei" Vlan 3 1 true,
            VlanId "vlan.id" Vlan 4 12 true,
            IpVersion "ip.version" Ip 0 4 false,
            IpIhl "ip.ihl" Ip 4 4 false,
            IpTos "ip.tos" Ip 8 8 true,
            IpLen "ip.len" Ip 16 16 true,
            IpId "ip.id" Ip 32 16 true,
            IpFlags "ip.flags" Ip 48 3 true,
            IpFrag "ip.frag" Ip 51 13 false,
            IpTtl "ip.ttl" Ip 64 8 true,
            IpProto "ip.proto" Ip 72 8 false,
            IpSum "ip.sum" Ip 80 16 true,
            IpSrc "ip.src" Ip 96 32 true,
            IpDst "ip.dst" Ip 128 32 true,
            TcpSport "tcp.sport" Tcp 0 16 true,
            TcpDport "tcp.dport" Tcp 16 16 true,
            TcpSeq "tcp.seq" Tcp 32 32 true,
            TcpAck "tcp.ack" Tcp 64 32 true,
            TcpOff "tcp.off" Tcp 96 4 true,
            TcpRes "tcp.res" Tcp 100 4 true,
            TcpFlags "tcp.flags" Tcp 104 8 true,
            TcpWin "tcp.win" Tcp 112 16 true,
            TcpSum "tcp.sum" Tcp 128 16 true,
            TcpUrg "tcp.urg" Tcp 144 16 true,
            UdpSport "udp.sport" Udp 0 16 true,
            UdpDport "udp.dport" Udp 16 16 true,
            UdpLen "udp.len" Udp 32 16 true,
            UdpSum "udp.sum" Udp 48 16 true,
        }
    };
}

// The fields of the table as a list.
macro_rules! listed {
    ([] $($name:ident $text:literal $header:ident $at:literal $width:literal $writable:literal,)*) => {
        [$(Field::$name),*]
    };
}

// What one column of the table has for a field.
macro_rules! column {
    (
        [$column:ident $field:ident]
        $($name:ident $text:literal $header:ident $at:literal $width:literal $writable:literal,)*
    ) => {
        match $field {
            $(Field::$name => cell!($column $text $header $at $width $writable),)*
        }
    };
}

macro_rules! cell {
    (name $text:literal $header:ident $at:literal $width:literal $writable:literal) => { $text };
    (header $text:literal $header:ident $at:literal $width:literal $writable:literal) => { Header::$header };
    (at $text:literal $header:ident $at:literal $width:literal $writable:literal) => { $at };
    (width $text:literal $header:ident $at:literal $width:literal $writable:literal) => { $width };
    (writable $text:literal $header:ident $at:literal $width:literal $writable:literal) => { $writable };
}

/// How many fields there are.
pub const FIELD_COUNT: usize = 37;

/// All fields, in field order.
#[tactic(auto, unfolding(crate::specs::Table::all_fields))]
pub fn fields() -> [Field; FIELD_COUNT]
    ensures { result ≡ all_fields }
{
    field_table!(listed)
}

/// The place of the field in field order, counted from 0.
pub fn field_index(field: Field) -> usize
    ensures value { result ≡ field_index field }
    ensures place { slice_get all_fields result ≡ Some field }
    ensures within { result < field_count }
{
    field as usize
}

/// The name of the field in sources and listings.
#[tactic(auto, unfolding(crate::specs::Table::all_fields))]
pub fn field_name(field: Field) -> &'static str
    ensures value { result.now ≡ (row field).name }
    ensures found { field_named result.now ≡ Some field }
{
    field_table!(column name field)
}

/// The field of that name, if there is one.
#[tactic(auto, using(crate::proofs::FieldList::is_exact))]
pub fn field_of(name: &[u8]) -> Option<Field>
    ensures value { result ≡ field_named name.now }
    ensures exact { MatchOption result
        ((field : Field) → (row field).name ≢ name.now)
        (λ field. (row field).name ≡ name.now) }
{
    find_named(name)
}

fn find_named(name: &[u8]) -> Option<Field>
    ensures { result ≡ field_named name.now }
{
    fields()
        .iter()
        .copied()
        .find(|field| field_name(*field).as_bytes() == name)
}

/// How wide the field's values are.
#[tactic(auto, using(crate::specs::FieldOrder::width_range))]
pub fn width(field: Field) -> Width
    ensures { result ≡ (row field).width }
{
    Width::new(bits_of(field) as u32).unwrap()
}

/// Whether `set` may write the field.
pub fn writable(field: Field) -> bool
    ensures { result ≡ (row field).writable }
{
    field_table!(column writable field)
}

// How many bits the field has.
pub(crate) fn bits_of(field: Field) -> usize
    ensures { result ≡ (row field).width }
{
    field_table!(column width field)
}

// The header that the field stands in.
pub(crate) fn header_of(field: Field) -> Header
    ensures { result ≡ (row field).header }
{
    field_table!(column header field)
}

// The field's first bit in its header.
pub(crate) fn first_bit(field: Field) -> usize
    ensures { result ≡ (row field).at }
{
    field_table!(column at field)
}
