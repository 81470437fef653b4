//! How often the whole names locals whose numbers are at least so much, told from the elements alone. A copy of an
//! element that stands in the whole, with all after it, names only locals that it declares. So it is gone through only
//! where it declares some below and some above: at most one of each level. Counts stop at the greatest that 64 bits
//! can hold.
ghost use Rattle.std.specs.Prelude.{◌≡◌, ◌<◌, ◌≤◌, ℕ, List, length, slice_index, IfOk};
ghost use Rattle.std.specs.List.{All};
ghost use Rattle.element_print.specs.Lengths.{capped};
ghost use Rattle.element_chain.specs.Chain.{Connected};
ghost use Rattle.element_chain.specs.Compose.{composed};
ghost use Rattle.element_chain.specs.Wiring.{IsWithin, AreWithin};
ghost use Rattle.element_chain.specs.declared.chain.Wire.{Wire};
ghost use Rattle.chain_compose.specs.declared.gauge.Gauge.TheVariants.{Locals, Uses};
ghost use Rattle.chain_compose.specs.declared.name_steps.Step.TheVariants.{Send};
ghost use Rattle.chain_compose.specs.Counts.{used_in, end_count};
ghost use Rattle.chain_compose.specs.NamedFrom as namings;
ghost use Rattle.chain_compose.specs.NamedFrom.{count_from, declared, Naming, AreTold, AreTables, IsTally};
ghost use Rattle.chain_compose.specs.Parts.{chain_of};

use crate::depth::has_wires;
use crate::name_steps::{Step, put_body};
use crate::parts::Parts;
use crate::told::Levels;
use element_chain::{Target, Wire};
use gal_io::NoMemory;

/// From which number on locals count, and what is told of the ends of wires: how many locals are declared there, and how
/// often one is named.
#[derive(Clone, Copy)]
pub(crate) struct Tables<'a> {
    pub least: u64,
    pub locals: &'a Levels,
    pub uses: &'a Levels,
}

/// How many locals of the whole are declared so far, and how often one that counts is named.
#[derive(Clone, Copy)]
pub(crate) struct Tally {
    pub next: u64,
    pub count: u64,
}

// 1 for a number that is at least so much, and else 0.
fn is_from(least: u64, number: u64) -> u64
    ensures { result ≡ namings.is_from least number }
{
    if least <= number { 1 } else { 0 }
}

// The number in the whole of a local of an element.
fn number_of(names: &[u64], local: u32) -> u64
    ensures { result ≡ slice_index names.now local }
{
    match names.get(local as usize) {
        Some(number) => *number,
        None => 0,
    }
}

// A local is declared, and named there.
fn declare(least: u64, names: &mut Vec<u64>, tally: Tally) -> Result<Tally, NoMemory>
    ensures { IfOk result (λ made. (n : Naming) → IsTally names.old.items tally n
        → IsTally names.new.items made (declared least n)) }
{
    names.push(tally.next)?;
    Ok(Tally {
        next: tally.next.saturating_add(1),
        count: tally.count.saturating_add(is_from(least, tally.next)),
    })
}

// How many locals are declared at the end of a wire.
fn end_span(tables: &Tables, levels: u32, wire: &Wire) -> u64
    ensures { (c : Connected) (count : ℕ) → AreTold Locals c count tables.now.locals.now → levels ≤ count
        → IsWithin count wire.now.to
        → result ≡ capped (end_count Locals c levels wire.now.to wire.now.input) }
{
    match wire.to {
        Target::Out => 0,
        Target::Element(element) => tables.locals.at(levels as usize, element as usize),
    }
}

impl Parts<'_> {
    // How often a local that counts is named at the end of a wire, where so many are declared before.
    #[cycle(named)]
    fn end_from(
        &self,
        tables: &Tables,
        levels: u32,
        wire: &Wire,
        before: u64,
    ) -> Result<u64, NoMemory>
        requires told { AreTables (chain_of self.now) (length self.now.classes.now) tables.now }
        requires levels_fit { levels ≤ length self.now.classes.now }
        requires within { AreWithin (length self.now.classes.now) self.now.chain.now.wires }
        requires target_in_range { IsWithin (length self.now.classes.now) wire.now.to }
        ensures { IfOk result (λ count. (exact : ℕ) → before ≡ capped exact → count
            ≡ capped (namings.end_from (chain_of self.now) tables.now.least levels wire.now.to wire.now.input exact)) }
    {
        match wire.to {
            Target::Element(element) if levels > 0 => {
                if tables.least <= before {
                    return Ok(tables.uses.at(levels as usize, element as usize));
                }
                let span = tables.locals.at(levels as usize, element as usize);
                if before.saturating_add(span) < tables.least {
                    return Ok(0);
                }
                let count = self.element_from(tables, levels - 1, element, before)?;
                Ok(count)
            }
            Target::Element(_) | Target::Out => Ok(0),
        }
    }

    // The same of what stands for a `send`: a local for the port, and tests of it, with the ends of their wires.
    #[cycle(named)]
    fn sent_from(
        &self,
        tables: &Tables,
        levels: u32,
        wires: &[Wire],
        tally: Tally,
    ) -> Result<Tally, NoMemory>
        requires told { AreTables (chain_of self.now) (length self.now.classes.now) tables.now }
        requires levels_fit { levels ≤ length self.now.classes.now }
        requires within { AreWithin (length self.now.classes.now) self.now.chain.now.wires }
        requires all_there { All (λ (w : Wire). IsWithin (length self.now.classes.now) w.to) wires.now }
        ensures { IfOk result (λ made. (numbers : List ℕ) (n : Naming) → IsTally numbers tally n
            → IsTally numbers made (namings.stepped tables.now.least (end_count Locals (chain_of self.now) levels)
            (namings.end_from (chain_of self.now) tables.now.least levels) wires.now Send n)) }
    {
        let own = is_from(tables.least, tally.next);
        let mut made = Tally {
            next: tally.next.saturating_add(1),
            count: tally.count.saturating_add(own),
        };
        for wire in wires {
            let behind = self.end_from(tables, levels, wire, made.next)?;
            made = Tally {
                next: made.next.saturating_add(end_span(tables, levels, wire)),
                count: made.count.saturating_add(own.saturating_add(behind)),
            };
        }
        Ok(made)
    }

    // One step of an element.
    #[cycle(named)]
    fn step_from(
        &self,
        tables: &Tables,
        levels: u32,
        wires: &[Wire],
        step: Step,
        names: &mut Vec<u64>,
        tally: Tally,
    ) -> Result<Tally, NoMemory>
        requires told { AreTables (chain_of self.now) (length self.now.classes.now) tables.now }
        requires levels_fit { levels ≤ length self.now.classes.now }
        requires within { AreWithin (length self.now.classes.now) self.now.chain.now.wires }
        requires all_there { All (λ (w : Wire). IsWithin (length self.now.classes.now) w.to) wires.now }
        ensures { IfOk result (λ made. (n : Naming) → IsTally names.old.items tally n
            → IsTally names.new.items made (namings.stepped tables.now.least (end_count Locals (chain_of self.now) levels)
            (namings.end_from (chain_of self.now) tables.now.least levels) wires.now step n)) }
    {
        match step {
            Step::Name(local) => {
                let number = number_of(names.as_slice(), local);
                Ok(Tally {
                    next: tally.next,
                    count: tally.count.saturating_add(is_from(tables.least, number)),
                })
            }
            Step::Declare => declare(tables.least, names, tally),
            Step::Send => self.sent_from(tables, levels, wires, tally),
        }
    }

    // An element, where so many locals are declared before.
    #[cycle(named)]
    fn element_from(
        &self,
        tables: &Tables,
        levels: u32,
        element: u32,
        before: u64,
    ) -> Result<u64, NoMemory>
        requires told { AreTables (chain_of self.now) (length self.now.classes.now) tables.now }
        requires levels_fit { levels ≤ length self.now.classes.now }
        requires within { AreWithin (length self.now.classes.now) self.now.chain.now.wires }
        requires element_in_range { element < length self.now.classes.now }
        ensures { IfOk result (λ count. count
            ≡ capped (namings.element_from (chain_of self.now) tables.now.least (end_count Locals (chain_of self.now) levels)
            (namings.end_from (chain_of self.now) tables.now.least levels) element before)) }
    {
        let wires = self.routes.of(element);
        let wired = has_wires(wires);
        let mut steps = Vec::new(self.alloc);
        put_body(wired, &self.classes[element as usize].body, &mut steps)?;
        let mut names = Vec::new(self.alloc);
        let mut tally = Tally {
            next: before,
            count: 0,
        };
        for step in &steps {
            tally = self.step_from(tables, levels, wires, *step, &mut names, tally)?;
        }
        Ok(tally.count)
    }

    /// How often the whole names a local whose number is at least so much.
    pub fn uses_from(&self, least: u64, locals: &Levels, uses: &Levels) -> Result<u64, NoMemory>
        requires few_classes { length self.now.classes.now ≤ 32 }
        requires nonempty { 0 < length self.now.classes.now }
        requires within { AreWithin (length self.now.classes.now) self.now.chain.now.wires }
        requires locals_told { AreTold Locals (chain_of self.now) (length self.now.classes.now) locals.now }
        requires uses_told { AreTold Uses (chain_of self.now) (length self.now.classes.now) uses.now }
        ensures { IfOk result (λ count. count ≡ capped (count_from least (used_in (composed (chain_of self.now)).body))) }
    {
        let tables = Tables {
            least,
            locals,
            uses,
        };
        let count = self.element_from(&tables, self.classes.len() as u32, 0, 0)?;
        Ok(count)
    }
}
