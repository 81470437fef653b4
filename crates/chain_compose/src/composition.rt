//! From a chain to one middlebox.
ghost use Rattle.std.specs.Prelude.{◌≡◌, ◌≢◌, ◌<◌, ◌≤◌, ◌+◌, ◌^◌, ◌⊎◌, ℕ, List, true, length, IsTrue};
ghost use Rattle.std.specs.Prelude.{IfOk, IfErr, MatchResult};
ghost use Rattle.std.specs.List.{All, list_all};
ghost use Rattle.element_lang.specs.Accepted.{HasNames};
ghost use Rattle.element_lang.specs.Rules.{is_good};
ghost use Rattle.element_lang.specs.View.{tree};
ghost use Rattle.packet_fields.specs.declared.packet.Packet.{Packet};
ghost use Rattle.packet_fields.specs.Arrivals.{IsArrival};
ghost use Rattle.state_store.specs.Kept.{IsKept};
ghost use Rattle.state_store.specs.Store.{Store, object_at};
ghost use Rattle.element_lang.specs.Meaning.{source_store, source_verdict};
ghost use Rattle.element_chain.specs.Chain.{element_at, store_at, chain_run};
ghost use Rattle.element_chain.specs.Compose.{composed, joined, base_of};
ghost use Rattle.element_chain.specs.Laws.{IsFit, AreKept};
ghost use Rattle.element_chain.specs.Wiring.{AreWithin, HasNoCycle};
ghost use Rattle.chain_compose.specs.Parts.{connected, chain_of};
ghost use Rattle.chain_compose.specs.Refusals.{AreInPlace, IsRefused, IsUnrefused, KeepsSizes, IsLargeRefusal};
ghost use Rattle.chain_compose.specs.Refusals.{statements_in, most_statements};

use crate::error::ComposeError;
use crate::matrix::Reach;
use crate::names::{locals, objects};
use crate::parts::{Parts, Place};
use crate::refusals::{first_reader, first_repeater};
use crate::routes::Routes;
use crate::uses::fields_set;
use element_chain::{Chain, Classes, Wire};
use element_lang::Middlebox;
use gal_io::NoMemory;
use packet_fields::{Field, width};
use std::alloc::Global;

// Refuses elements that can't stand where they are.
fn refuse_elements(alloc: Global, chain: &Chain, classes: &[Middlebox]) -> Result<(), ComposeError>
    requires few_classes { length classes.now ≤ 32 }
    requires within { AreWithin (length classes.now) chain.now.wires }
    ensures ok { IfOk result (λ _. AreInPlace (connected classes.now chain.now.wires)) }
    ensures err { IfErr result (IsRefused (connected classes.now chain.now.wires)) }
{
    if let Some(element) = first_reader(classes) {
        return Err(ComposeError::Byte(element));
    }
    let reach = Reach::new(alloc, chain.wires.as_slice(), classes.len())?;
    match first_repeater(classes, &reach) {
        Some(element) => Err(ComposeError::Repeat(element)),
        None => Ok(()),
    }
}

impl Parts<'_> {
    // The elements as one middlebox.
    fn whole(&self) -> Result<Middlebox, NoMemory>
        requires nonempty { 0 < length self.now.classes.now }
        requires few_classes { length self.now.classes.now ≤ 32 }
        ensures made { IfOk result (λ m. tree m ≡ composed (chain_of self.now)) }
        ensures small { IfOk result (λ m. length m.locals < 2 ^ 64) }
    {
        let entry = Place {
            element: 0,
            port: None,
            levels: self.classes.len() as u32,
        };
        let mut names = Vec::new(self.alloc);
        let mut widths = Vec::new(self.alloc);
        let mut body = Vec::new(self.alloc);
        self.put_body(
            entry,
            &self.classes[0].body,
            &mut names,
            &mut widths,
            &mut body,
        )?;
        Ok(Middlebox {
            objects: objects(self.alloc, self.classes)?,
            locals: locals(self.alloc, &widths)?,
            body,
        })
    }
}

// The elements as one middlebox, where it is small enough. Its sizes are told before it is made.
fn whole(alloc: Global, chain: &Chain, classes: &[Middlebox]) -> Result<Middlebox, ComposeError>
    requires nonempty { 0 < length classes.now }
    requires few_classes { length classes.now ≤ 32 }
    requires within { AreWithin (length classes.now) chain.now.wires }
    requires good { list_all (λ m. is_good (tree m)) classes.now ≡ true }
    ensures made { IfOk result (λ m. tree m ≡ composed (connected classes.now chain.now.wires)) }
    ensures small { IfOk result (λ m. length m.locals < 2 ^ 64) }
    ensures bounded { let c = connected classes.now chain.now.wires in
        IfOk result (λ _. statements_in (composed c).body ≤ most_statements) }
    ensures sizes { IfOk result (λ _. KeepsSizes (composed (connected classes.now chain.now.wires))) }
    ensures err { IfErr result (IsLargeRefusal (composed (connected classes.now chain.now.wires))) }
{
    let routes = Routes::new(alloc, chain.wires.as_slice(), classes.len() as u32)?;
    let cleared = fields_set(alloc, classes)?;
    let parts = Parts {
        alloc,
        chain,
        classes,
        routes: &routes,
        cleared: &cleared,
        bit: width(Field::HasIp),
        byte: width(Field::MetaPort),
    };
    parts.refuse_large()?;
    Ok(parts.whole()?)
}

// A number of 8 bits is one.
fn is_byte(number: u8)
    ensures { number < 2 ^ 8 }
{}

// Inputs are numbers of 8 bits, as their type says.
fn inputs_are_bytes(wires: &[Wire])
    ensures { All (λ w. w.input < 2 ^ 8) wires.now }
{
    for wire in wires {
        is_byte(wire.input);
    }
}

// The elements as one middlebox, or the first reason for which there is none.
fn compose_elements(
    alloc: Global,
    chain: &Chain,
    classes: &[Middlebox],
) -> Result<Middlebox, ComposeError>
    requires nonempty { 0 < length classes.now }
    requires few_classes { length classes.now ≤ 32 }
    requires within { AreWithin (length classes.now) chain.now.wires }
    requires acyclic { HasNoCycle chain.now.wires }
    requires good { All (λ m. IsTrue (is_good (tree m))) classes.now }
    requires names { All (λ m. HasNames (tree m)) classes.now }
    ensures made { IfOk result (λ m. tree m ≡ composed (connected classes.now chain.now.wires)) }
    ensures unrefused { IfOk result (λ _. IsUnrefused (connected classes.now chain.now.wires)) }
    ensures refused { IfErr result (IsRefused (connected classes.now chain.now.wires)) }
    ensures fits { IfOk result (λ _. IsFit (connected classes.now chain.now.wires)) }
    ensures rules { IfOk result (λ m. IsTrue (is_good (tree m))) }
    ensures names { IfOk result (λ m. HasNames (tree m)) }
{
    inputs_are_bytes(chain.wires.as_slice());
    refuse_elements(alloc, chain, classes)?;
    let middlebox = whole(alloc, chain, classes)?;
    Ok(middlebox)
}

/// One middlebox that does what the chain does, of the middleboxes of its elements, in order: the body of the entry, in
/// which the bodies of the elements behind it stand where it sends. Of several reasons for which there is none, the
/// first one in the order of `ComposeError` is answered.
pub fn compose(alloc: Global, chain: &Chain, classes: &Classes) -> Result<Middlebox, ComposeError>
    requires nonempty { 0 < length classes.now.items }
    requires few_classes { length classes.now.items ≤ 32 }
    requires within { AreWithin (length classes.now.items) chain.now.wires }
    requires acyclic { HasNoCycle chain.now.wires }
    requires good { All (λ m. IsTrue (is_good (tree m))) classes.now.items }
    requires names { All (λ m. HasNames (tree m)) classes.now.items }
    ensures made { IfOk result (λ m. tree m ≡ composed (connected classes.now.items chain.now.wires)) }
    ensures unrefused { IfOk result (λ _. IsUnrefused (connected classes.now.items chain.now.wires)) }
    ensures refused { IfErr result (IsRefused (connected classes.now.items chain.now.wires)) }
    ensures exact { (e : ComposeError) → e ≢ ComposeError.NoMemory
        → IsRefused (connected classes.now.items chain.now.wires) e
        → MatchResult result (λ _. ⊥) (λ found. (found ≡ e) ⊎ (found ≡ ComposeError.NoMemory)) }
    ensures found { IsUnrefused (connected classes.now.items chain.now.wires)
        → MatchResult result (λ m. tree m ≡ composed (connected classes.now.items chain.now.wires))
        (λ e. e ≡ ComposeError.NoMemory) }
    ensures rules { IfOk result (λ m. IsTrue (is_good (tree m))) }
    ensures names { IfOk result (λ m. HasNames (tree m)) }
    ensures verdict { let c = connected classes.now.items chain.now.wires in
        IfOk result (λ m. (stores : List Store) (packet : Packet) → AreKept c.elements stores → IsArrival packet
        → source_verdict (tree m) (joined stores) packet ≡ (chain_run c stores packet).verdict) }
    ensures stores { let c = connected classes.now.items chain.now.wires in
        IfOk result (λ m. (stores : List Store) (packet : Packet) → AreKept c.elements stores → IsArrival packet
        → source_store (tree m) (joined stores) packet ≡ joined (chain_run c stores packet).stores) }
    ensures objects { let c = connected classes.now.items chain.now.wires in
        IfOk result (λ m. (stores : List Store) (packet : Packet) (e o : ℕ) → AreKept c.elements stores
        → IsArrival packet → e < length c.elements → o < length (element_at c.elements e).objects
        → object_at (source_store (tree m) (joined stores) packet) (base_of c.elements e + o)
        ≡ object_at (store_at (chain_run c stores packet).stores e) o) }
    ensures parts { let c = connected classes.now.items chain.now.wires in
        IfOk result (λ m. (store : Store) → IsKept (tree m).objects store
        → (stores : List Store) × AreKept c.elements stores × (store ≡ joined stores)) }
{
    compose_elements(alloc, chain, classes)
}
