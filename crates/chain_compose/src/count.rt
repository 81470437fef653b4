//! What is counted of the whole, told from the elements alone: each element is gone through once, and then there are
//! numbers alone, one level after the other. Counts stop at the greatest that 64 bits can hold.
ghost use Rattle.std.specs.Prelude.{◌≡◌, ◌≢◌, ◌<◌, ◌≤◌, ◌*◌, ◌+◌, ℕ, suc, length, drop, slice_index_or, IfOk};
ghost use Rattle.element_chain.specs.Compose.{composed};
ghost use Rattle.element_chain.specs.Wiring.{AreWithin};
ghost use Rattle.element_chain.specs.declared.chain.Target.TheVariants.{Element};
ghost use Rattle.element_lang.specs.View.{body_tree};
ghost use Rattle.element_print.specs.Lengths.{capped};
ghost use Rattle.chain_compose.specs.Counts.{body_count, whole_lengths, end_count};
ghost use Rattle.chain_compose.specs.Counts as counts;
ghost use Rattle.chain_compose.specs.Parts.{chain_of};
ghost use Rattle.chain_compose.specs.Tallies as tallies;
ghost use Rattle.chain_compose.specs.Tallies.{all_names, no_ending, no_figures, AreFigures, AllFigures, IsNext, AreEndings, IsLevel, told};

use crate::clearing::put_clearing;
use crate::ends::ends_always;
use crate::figures::{Ending, Figures, Scale};
use crate::gauge::Gauge;
use crate::heads::{drop_weight, out_weight, test_weight};
use crate::objects::name_lengths;
use crate::parts::Parts;
use crate::plain::base_of;
use crate::tally::{bare_count, sent_in};
use crate::told::Levels;
use element_chain::{Target, Wire};
use element_lang::Stmt;
use element_print::{field_length, literal_length};
use gal_io::NoMemory;
use packet_fields::Field;

// The names from one on.
fn names_from(names: &[u64], first: u64) -> &[u64]
    ensures { (n : ℕ) → first ≡ capped n → result.now ≡ drop n names.now }
{
    let first = first as usize;
    if first <= names.len() {
        &names[first..]
    } else {
        &[]
    }
}

// Whether there is a wire.
fn has_wire(wires: &[Wire]) -> bool
    ensures { result ≡ tallies.has_wire wires.now }
{
    match wires {
        [] => false,
        [_, ..] => true,
    }
}

// What is told of the end of a wire to an element. Where there is no element, nothing is.
fn ending_at(endings: &[Ending], element: u32) -> Ending
    ensures { result ≡ slice_index_or endings.now element no_ending }
{
    match endings.get(element as usize) {
        Some(ending) => *ending,
        None => Ending { fixed: 0, reads: 0 },
    }
}

// What is counted at the end of a wire.
fn told_end(gauge: Gauge, endings: &[Ending], to: Target, input: u8) -> u64
    ensures { result ≡ capped (tallies.told_end gauge endings.now to input) }
{
    match to {
        Target::Out => out_weight(gauge, input),
        Target::Element(element) => {
            let ending = ending_at(endings, element);
            let read = literal_length(u64::from(input), 8);
            ending
                .fixed
                .saturating_add(ending.reads.saturating_mul(read))
        }
    }
}

// The tests of wires, with what is counted at their ends.
fn tests_count(gauge: Gauge, endings: &[Ending], wires: &[Wire]) -> u64
    ensures { result ≡ capped (counts.tests_count gauge (tallies.told_end gauge endings.now) wires.now) }
{
    match wires {
        [] => drop_weight(gauge),
        [wire, rest @ ..] => {
            let end = told_end(gauge, endings, wire.to, wire.input);
            let behind = end.saturating_add(tests_count(gauge, endings, rest));
            test_weight(gauge, wire.output).saturating_add(behind)
        }
    }
}

// What stands for a `send`, but for what stands first for it.
fn after_count(gauge: Gauge, endings: &[Ending], wires: &[Wire]) -> u64
    ensures { result ≡ capped (tallies.after_count gauge (tallies.told_end gauge endings.now) wires.now) }
{
    match wires {
        [] => 0,
        [_, ..] => tests_count(gauge, endings, wires),
    }
}

// A body's `drop` at its end, where it may go on there.
fn closing_count(gauge: Gauge, body: &[Stmt]) -> u64
    ensures { result ≡ counts.closing_count gauge (body_tree body.now) }
{
    if ends_always(body) {
        0
    } else {
        drop_weight(gauge)
    }
}

impl Parts<'_> {
    // What is told of an element.
    fn figures_of(&self, gauge: Gauge, names: &[u64], element: u32) -> Figures
        requires element_in_range { element < length self.now.classes.now }
        requires names { names.now ≡ all_names (chain_of self.now) }
        ensures { AreFigures gauge (chain_of self.now) element result }
    {
        let body = &self.classes[element as usize].body;
        let objects = names_from(names, base_of(self.classes, element));
        let wired = has_wire(self.routes.of(element));
        let unread = Scale {
            gauge,
            objects,
            port: 0,
            wired,
        };
        let read = Scale {
            gauge,
            objects,
            port: 1,
            wired,
        };
        let own = bare_count(&unread, body);
        let once = bare_count(&read, body);
        let reads = once.saturating_sub(own);
        let sent = sent_in(gauge, body);
        let closing = closing_count(gauge, body);
        Figures {
            own,
            reads,
            sent,
            closing,
        }
    }

    // The same of each element.
    fn figures(&self, gauge: Gauge, names: &[u64]) -> Result<Vec<Figures>, NoMemory>
        requires few_classes { length self.now.classes.now ≤ 32 }
        requires names { names.now ≡ all_names (chain_of self.now) }
        ensures { IfOk result (λ made. AllFigures gauge (chain_of self.now) (length self.now.classes.now) made.items) }
    {
        let mut figures = Vec::new(self.alloc);
        for element in 0..self.classes.len() as u32 {
            figures.push(self.figures_of(gauge, names, element))?;
        }
        Ok(figures)
    }

    // What is cleared between two elements.
    fn clearing_count(&self, gauge: Gauge, names: &[u64]) -> Result<u64, NoMemory>
        requires { names.now ≡ all_names (chain_of self.now) }
        ensures { IfOk result (λ n. n ≡ capped (counts.clearing_count gauge (chain_of self.now))) }
    {
        let mut body = Vec::new(self.alloc);
        put_clearing(self.alloc, self.cleared, &mut body)?;
        let scale = Scale {
            gauge,
            objects: names,
            port: field_length(Field::MetaPort),
            wired: false,
        };
        let counted = bare_count(&scale, &body);
        Ok(counted)
    }

    // The ends of wires to each element, through no element.
    fn first_endings(&self, gauge: Gauge) -> Result<Vec<Ending>, NoMemory>
        ensures { IfOk result (λ made. AreEndings gauge (chain_of self.now) 0 made.items) }
    {
        let mut endings = Vec::new(self.alloc);
        for _ in 0..self.classes.len() {
            endings.push(Ending {
                fixed: drop_weight(gauge),
                reads: 0,
            })?;
        }
        Ok(endings)
    }

    // The end of a wire to an element, where those of its own wires are told.
    fn next_ending(
        &self,
        gauge: Gauge,
        clearing: u64,
        figures: Figures,
        endings: &[Ending],
        element: u32,
    ) -> Ending
        requires element_in_range { element < length self.now.classes.now }
        requires clearing { clearing ≡ capped (counts.clearing_count gauge (chain_of self.now)) }
        ensures { IsNext gauge (chain_of self.now) endings.now element figures result }
    {
        let after = after_count(gauge, endings, self.routes.of(element));
        let tests = figures.sent.saturating_mul(after);
        let behind = figures.closing.saturating_add(tests);
        let own = figures.own.saturating_add(behind);
        let fixed = clearing.saturating_add(own);
        Ending {
            fixed,
            reads: figures.reads,
        }
    }

    // The same of each element, through one element more.
    fn more_endings(
        &self,
        gauge: Gauge,
        clearing: u64,
        figures: &[Figures],
        endings: &[Ending],
    ) -> Result<Vec<Ending>, NoMemory>
        requires few_classes { length self.now.classes.now ≤ 32 }
        requires within { AreWithin (length self.now.classes.now) self.now.chain.now.wires }
        requires clearing { clearing ≡ capped (counts.clearing_count gauge (chain_of self.now)) }
        requires figures { AllFigures gauge (chain_of self.now) (length self.now.classes.now) figures.now }
        ensures { (n : ℕ) → AreEndings gauge (chain_of self.now) n endings.now
            → IfOk result (λ made. AreEndings gauge (chain_of self.now) (suc n) made.items) }
    {
        let mut made = Vec::new(self.alloc);
        for element in 0..figures.len() {
            made.push(self.next_ending(
                gauge,
                clearing,
                figures[element],
                endings,
                element as u32,
            ))?;
        }
        Ok(made)
    }

    // The entry, with all behind it.
    fn entry_count(&self, gauge: Gauge, figures: &[Figures], endings: &[Ending]) -> u64
        requires nonempty { 0 < length self.now.classes.now }
        requires within { AreWithin (length self.now.classes.now) self.now.chain.now.wires }
        requires figures { AllFigures gauge (chain_of self.now) (length self.now.classes.now) figures.now }
        requires endings { AreEndings gauge (chain_of self.now) (length self.now.classes.now) endings.now }
        ensures { result
            ≡ capped (body_count gauge (whole_lengths (chain_of self.now)) (composed (chain_of self.now)).body) }
    {
        let entry = figures[0];
        let read = entry.reads.saturating_mul(field_length(Field::MetaPort));
        let after = after_count(gauge, endings, self.routes.of(0));
        let tests = entry.sent.saturating_mul(after);
        let own = entry.own.saturating_add(read);
        own.saturating_add(tests)
    }

    /// What is counted of the whole.
    pub fn count(&self, gauge: Gauge) -> Result<u64, NoMemory>
        requires few_classes { length self.now.classes.now ≤ 32 }
        requires nonempty { 0 < length self.now.classes.now }
        requires within { AreWithin (length self.now.classes.now) self.now.chain.now.wires }
        ensures { IfOk result (λ n. n
            ≡ capped (body_count gauge (whole_lengths (chain_of self.now)) (composed (chain_of self.now)).body)) }
    {
        let names = name_lengths(self.alloc, self.classes)?;
        let figures = self.figures(gauge, &names)?;
        let clearing = self.clearing_count(gauge, &names)?;
        let mut endings = self.first_endings(gauge)?;
        for _ in 0..self.classes.len() {
            endings = self.more_endings(gauge, clearing, &figures, &endings)?;
        }
        Ok(self.entry_count(gauge, &figures, &endings))
    }

    // What is counted at the end of a wire to each element, where the input doesn't matter.
    fn level(&self, gauge: Gauge, endings: &[Ending]) -> Result<Vec<u64>, NoMemory>
        requires few_classes { length self.now.classes.now ≤ 32 }
        ensures { (n : ℕ) → AreEndings gauge (chain_of self.now) n endings.now
            → IfOk result (λ made. IsLevel gauge (chain_of self.now) n made.items) }
    {
        let mut level = Vec::new(self.alloc);
        for element in 0..self.classes.len() as u32 {
            level.push(told_end(gauge, endings, Target::Element(element), 0))?;
        }
        Ok(level)
    }

    /// What is counted at the end of a wire to each element through 0, 1, .. elements and no more, up to as many as
    /// there are.
    pub fn levels(&self, gauge: Gauge) -> Result<Levels, NoMemory>
        requires few_classes { length self.now.classes.now ≤ 32 }
        requires within { AreWithin (length self.now.classes.now) self.now.chain.now.wires }
        requires unread { gauge ≢ Gauge.Bytes }
        ensures { IfOk result (λ levels. (n e input : ℕ) → n ≤ length self.now.classes.now
            → e < length self.now.classes.now
            → told levels n e ≡ capped (end_count gauge (chain_of self.now) n (Element e) input)) }
    {
        let names = name_lengths(self.alloc, self.classes)?;
        let figures = self.figures(gauge, &names)?;
        let clearing = self.clearing_count(gauge, &names)?;
        let mut endings = self.first_endings(gauge)?;
        let mut levels = Levels::new(self.alloc);
        let first = self.level(gauge, &endings)?;
        levels.push(first)?;
        for _ in 0..self.classes.len() {
            endings = self.more_endings(gauge, clearing, &figures, &endings)?;
            let next = self.level(gauge, &endings)?;
            levels.push(next)?;
        }
        Ok(levels)
    }
}
