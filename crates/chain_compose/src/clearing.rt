//! What is cleared between two elements: what was written to a field whose header isn't there.
ghost use Rattle.std.specs.Prelude.{◌≡◌, OnOk, IfOk};
ghost use Rattle.packet_fields.specs.Table.{row};
ghost use Rattle.element_lang.specs.Tree.ExprTree.{apply};
ghost use Rattle.element_lang.specs.View.{expr_tree, body_tree};
ghost use Rattle.gal_bits.specs.declared.op.Op.TheVariants.{Select};
ghost use Rattle.element_chain.specs.Compose.{followed, tag_test, short_test, kept_where, clearing, three};

use crate::terms::{test, three};
use element_lang::{Body, Expr, Stmt};
use gal_bits::{Op, Width};
use gal_io::NoMemory;
use packet_fields::{Field, Header, width};
use std::alloc::Global;

// The header that a field stands in.
fn header_of(field: Field) -> Header
    ensures { result ≡ (row field).header }
{
    match field {
        Field::MetaPort | Field::MetaLen | Field::HasIp | Field::HasTcp | Field::HasUdp => {
            Header::Meta
        }
        Field::EthDst | Field::EthSrc | Field::EthType => Header::Ethernet,
        Field::VlanPcp | Field::VlanDei | Field::VlanId => Header::Vlan,
        Field::IpVersion
        | Field::IpIhl
        | Field::IpTos
        | Field::IpLen
        | Field::IpId
        | Field::IpFlags
        | Field::IpFrag
        | Field::IpTtl
        | Field::IpProto
        | Field::IpSum
        | Field::IpSrc
        | Field::IpDst => Header::Ip,
        Field::UdpSport | Field::UdpDport | Field::UdpLen | Field::UdpSum => Header::Udp,
        _ => Header::Tcp,
    }
}

// Whether the packet has 18 bytes or more, and its type says that a VLAN tag (IEEE 802.1Q) is there.
fn tag_test(alloc: Global) -> Result<Expr, NoMemory>
    ensures { IfOk result (λ made. expr_tree made ≡ tag_test) }
{
    let wide = width(Field::MetaLen);
    let tag = Expr::Lit(0x8100, wide);
    let tagged = test(alloc, Op::Eq, Expr::Field(Field::EthType), tag)?;
    let bytes = Expr::Lit(17, wide);
    let long = test(alloc, Op::Lt, bytes, Expr::Field(Field::MetaLen))?;
    test(alloc, Op::And, tagged, long)
}

// Whether the packet is too short for the Ethernet header (IEEE 802.3).
fn short_test(alloc: Global) -> Result<Expr, NoMemory>
    ensures { IfOk result (λ made. expr_tree made ≡ short_test) }
{
    let bytes = Expr::Lit(14, width(Field::MetaLen));
    test(alloc, Op::Lt, Expr::Field(Field::MetaLen), bytes)
}

// One of two expressions of this width, by a test.
fn select(alloc: Global, wide: Width, test: Expr, yes: Expr, no: Expr) -> Result<Expr, NoMemory>
    ensures { IfOk result (λ made.
        expr_tree made ≡ apply Select wide (three (expr_tree test) (expr_tree yes) (expr_tree no))) }
{
    Ok(Expr::Apply {
        op: Op::Select,
        width: wide,
        args: three(alloc, test, yes, no)?,
    })
}

// The field's own value where its header is there, and else 0.
fn kept_where(alloc: Global, field: Field) -> Result<Expr, NoMemory>
    ensures { IfOk result (λ made. expr_tree made ≡ kept_where (row field).header field (row field).width) }
{
    let wide = width(field);
    let own = Expr::Field(field);
    let zero = Expr::Lit(0, wide);
    match header_of(field) {
        Header::Meta => Ok(own),
        Header::Ethernet => select(alloc, wide, short_test(alloc)?, zero, own),
        Header::Vlan => select(alloc, wide, tag_test(alloc)?, own, zero),
        Header::Ip => select(alloc, wide, Expr::Field(Field::HasIp), own, zero),
        Header::Tcp => select(alloc, wide, Expr::Field(Field::HasTcp), own, zero),
        Header::Udp => select(alloc, wide, Expr::Field(Field::HasUdp), own, zero),
    }
}

/// Puts a statement for each of these fields.
pub(crate) fn put_clearing(alloc: Global, written: &[Field], out: &mut Body) -> Result<(), NoMemory>
    ensures { OnOk result (body_tree out.new.items ≡ followed (body_tree out.old.items) (clearing written.now)) }
{
    for field in written {
        out.push(Stmt::SetField {
            field: *field,
            value: kept_where(alloc, *field)?,
        })?;
    }
    Ok(())
}
