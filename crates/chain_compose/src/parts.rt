//! What the whole is made of.
ghost use Rattle.std.specs.Prelude.{◌≡◌, true, map, length};
ghost use Rattle.std.specs.List.{filter, list_all};
ghost use Rattle.packet_fields.specs.Table.{all_fields};
ghost use Rattle.element_lang.specs.Rules.{is_good};
ghost use Rattle.element_lang.specs.View.{tree};
ghost use Rattle.element_chain.specs.Compose.{is_set};
ghost use Rattle.chain_compose.specs.Routes.{all_routes};

use crate::routes::Routes;
use element_chain::Chain;
use element_lang::Middlebox;
use gal_bits::Width;
use packet_fields::Field;
use std::alloc::Global;

/// The chain, the middleboxes of its elements, the wires of each, and the fields that some element writes.
#[derive(Clone, Copy)]
pub(crate) struct Parts<'a> {
    pub alloc: Global,
    pub chain: &'a Chain,
    pub classes: &'a [Middlebox],
    pub routes: &'a Routes,
    pub cleared: &'a [Field],
    /// The widths of 1 and of 8 bits.
    pub bit: Width,
    pub byte: Width,
    ghost good: { list_all (λ m. is_good (tree m)) classes.now ≡ true },
    ghost routed: { routes.now ≡ all_routes chain.now.wires (length classes.now) },
    ghost written: { cleared.now ≡ filter (is_set (map tree classes.now)) all_fields },
    ghost one: { bit ≡ 1 },
    ghost eight: { byte ≡ 8 },
}

/// An element where it stands in the whole.
#[derive(Clone, Copy)]
pub(crate) struct Place {
    pub element: u32,
    /// The port of arrival, where the element stands behind another one.
    pub port: Option<u8>,
    /// How many elements may stand one behind the other from here on.
    pub levels: u32,
}
