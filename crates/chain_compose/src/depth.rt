//! How deep brackets stand in one another in the printed text of the whole, told from the elements alone. A depth stops
//! at the greatest that 64 bits can hold.
ghost use Rattle.std.specs.Prelude.{◌≡◌, ◌<◌, ◌≤◌, ℕ, suc, max, map, length, IfOk};
ghost use Rattle.element_lang.specs.View.{tree, stmt_tree, body_tree};
ghost use Rattle.element_print.specs.Depths.{text_depth};
ghost use Rattle.element_print.specs.Lengths.{capped};
ghost use Rattle.element_chain.specs.Compose.{composed};
ghost use Rattle.element_chain.specs.Wiring.{AreWithin};
ghost use Rattle.chain_compose.specs.Depths as deep;
ghost use Rattle.chain_compose.specs.Depths.{placed_stmt_depth, placed_depth, element_depth, all_decls_depth};
ghost use Rattle.chain_compose.specs.SendLevels.{further_in, stmt_level, level_in, port_depth, with_tests, told_depth, has_wires};
ghost use Rattle.chain_compose.specs.SendLevels.{IsOwn, AreOwn, AreDepths};
ghost use Rattle.chain_compose.specs.Parts.{chain_of};

use crate::clearing::put_clearing;
use crate::parts::Parts;
use element_chain::{Target, Wire};
use element_lang::{Middlebox, Stmt};
use element_print::{decls_depth, expr_depth, head_depth};
use gal_io::NoMemory;

// The greater of two depths.
fn deeper(first: u64, second: u64) -> u64
    ensures { result ≡ max first second }
{
    if first < second { second } else { first }
}

// One level further in, where there is any.
fn further_in(level: u64) -> u64
    ensures { result ≡ capped (further_in level) }
{
    if level == 0 {
        0
    } else {
        level.saturating_add(1)
    }
}

// The level at which the innermost `send` of a statement stands.
#[cycle(level)]
fn level_of(stmt: &Stmt) -> u64
    ensures { result ≡ capped (stmt_level (stmt_tree stmt.now)) }
{
    match stmt {
        Stmt::If { yes, no, .. } => further_in(deeper(level_in(yes), level_in(no))),
        Stmt::Repeat { body, .. } => further_in(level_in(body)),
        Stmt::Send { .. } => 1,
        Stmt::Let { .. }
        | Stmt::Assign { .. }
        | Stmt::SetField { .. }
        | Stmt::Look { .. }
        | Stmt::Put { .. }
        | Stmt::Del { .. }
        | Stmt::Drop => 0,
    }
}

// The same of several: 1 for a `send` among them, one more for each block around it, and 0 where none sends.
#[cycle(level)]
fn level_in(body: &[Stmt]) -> u64
    ensures { result ≡ capped (level_in (body_tree body.now)) }
{
    let mut level: u64 = 0;
    for stmt in body {
        level = deeper(level, level_of(stmt));
    }
    level
}

// How deep a statement is, where a `send` counts its port, if the element has wires.
#[cycle(own)]
fn own_of(wired: bool, stmt: &Stmt) -> u64
    ensures { result ≡ capped (placed_stmt_depth (port_depth wired) (stmt_tree stmt.now)) }
{
    match stmt {
        Stmt::If { yes, no, .. } => {
            let blocks = deeper(own_in(wired, yes), own_in(wired, no));
            deeper(head_depth(stmt), blocks.saturating_add(1))
        }
        Stmt::Repeat { body, .. } => own_in(wired, body).saturating_add(1),
        Stmt::Send { port } => { if wired { expr_depth(port) } else { 0 } }
        Stmt::Let { .. }
        | Stmt::Assign { .. }
        | Stmt::SetField { .. }
        | Stmt::Look { .. }
        | Stmt::Put { .. }
        | Stmt::Del { .. }
        | Stmt::Drop => head_depth(stmt),
    }
}

// The same of several.
#[cycle(own)]
fn own_in(wired: bool, body: &[Stmt]) -> u64
    ensures { result ≡ capped (placed_depth (port_depth wired) (body_tree body.now)) }
{
    let mut depth: u64 = 0;
    for stmt in body {
        depth = deeper(depth, own_of(wired, stmt));
    }
    depth
}

// What is told of the end of a wire, where it is told for each element; 0 for the outside.
fn end_depth(depths: &[u64], target: Target) -> u64
    ensures { result ≡ told_depth depths.now target }
{
    match target {
        Target::Out => 0,
        Target::Element(element) => match depths.get(element as usize) {
            Some(depth) => *depth,
            None => 0,
        },
    }
}

// The tests of wires, each in the second block of the one before, with what stands at their ends.
fn tests_depth(depths: &[u64], wires: &[Wire]) -> u64
    ensures { result ≡ capped (deep.tests_depth (told_depth depths.now) wires.now) }
{
    match wires {
        [] => 0,
        [wire, rest @ ..] => {
            deeper(end_depth(depths, wire.to), tests_depth(depths, rest)).saturating_add(1)
        }
    }
}

/// An element's own statements: how deep they are without what stands for a `send`, and the level of the innermost one.
#[derive(Clone, Copy)]
struct Own {
    depth: u64,
    level: u64,
}

// How deep such an element is, with tests that are so deep for each `send`.
fn with_tests(own: Own, tests: u64) -> u64
    ensures { result ≡ capped (with_tests own.depth own.level tests) }
{
    if own.level == 0 {
        own.depth
    } else {
        deeper(own.depth, (own.level - 1).saturating_add(tests))
    }
}

// The declarations of all elements.
fn all_decls_depth(classes: &[Middlebox]) -> u64
    ensures { result ≡ capped (all_decls_depth (map tree classes.now)) }
{
    let mut depth: u64 = 0;
    for class in classes {
        depth = deeper(depth, decls_depth(class.objects.as_slice()));
    }
    depth
}

/// Whether there are wires.
pub(crate) fn has_wires(wires: &[Wire]) -> bool
    ensures { result ≡ has_wires wires.now }
{
    match wires {
        [] => false,
        [_, ..] => true,
    }
}

impl Parts<'_> {
    // What is cleared behind an element.
    fn clearing_depth(&self) -> Result<u64, NoMemory>
        ensures { IfOk result (λ depth. depth ≡ capped (deep.clearing_depth (chain_of self.now))) }
    {
        let mut made = Vec::new(self.alloc);
        put_clearing(self.alloc, self.cleared, &mut made)?;
        Ok(own_in(true, &made))
    }

    // The statements of an element.
    fn own(&self, element: usize) -> Own
        requires few_classes { length self.now.classes.now ≤ 32 }
        requires element_in_range { element < length self.now.classes.now }
        ensures { IsOwn (chain_of self.now) element result }
    {
        let wired = has_wires(self.routes.of(element as u32));
        let body = self.classes[element].body.as_slice();
        Own {
            depth: own_in(wired, body),
            level: level_in(body),
        }
    }

    // The same of each.
    fn owns(&self) -> Result<Vec<Own>, NoMemory>
        requires few_classes { length self.now.classes.now ≤ 32 }
        ensures { IfOk result (λ made. AreOwn (chain_of self.now) made.items) }
    {
        let mut made = Vec::new(self.alloc);
        for element in 0..self.classes.len() {
            made.push(self.own(element))?;
        }
        Ok(made)
    }

    // An element, where its own statements are told, and what stands at the ends of its wires.
    fn element_depth(&self, element: usize, own: Own, depths: &[u64]) -> u64
        requires few_classes { length self.now.classes.now ≤ 32 }
        requires element_in_range { element < length self.now.classes.now }
        requires own_told { IsOwn (chain_of self.now) element own }
        ensures { result ≡ capped (element_depth (chain_of self.now) (told_depth depths.now) element) }
    {
        let wires = self.routes.of(element as u32);
        with_tests(own, tests_depth(depths, wires))
    }

    // The ends of wires to each element, through no element.
    fn first_depths(&self) -> Result<Vec<u64>, NoMemory>
        ensures { IfOk result (λ made. AreDepths (chain_of self.now) 0 made.items) }
    {
        let mut depths = Vec::new(self.alloc);
        for _ in 0..self.classes.len() {
            depths.push(0)?;
        }
        Ok(depths)
    }

    // The same through one element more.
    fn more_depths(&self, clearing: u64, owns: &[Own], depths: &[u64]) -> Result<Vec<u64>, NoMemory>
        requires few_classes { length self.now.classes.now ≤ 32 }
        requires within { AreWithin (length self.now.classes.now) self.now.chain.now.wires }
        requires clearing_told { clearing ≡ capped (deep.clearing_depth (chain_of self.now)) }
        requires owns_told { AreOwn (chain_of self.now) owns.now }
        ensures { (n : ℕ) → AreDepths (chain_of self.now) n depths.now
            → IfOk result (λ made. AreDepths (chain_of self.now) (suc n) made.items) }
    {
        let mut made = Vec::new(self.alloc);
        for element in 0..self.classes.len() {
            let depth = self.element_depth(element, owns[element], depths);
            made.push(deeper(clearing, depth))?;
        }
        Ok(made)
    }

    /// How deep the brackets of the whole stand.
    pub fn depth(&self) -> Result<u64, NoMemory>
        requires few_classes { length self.now.classes.now ≤ 32 }
        requires nonempty { 0 < length self.now.classes.now }
        requires within { AreWithin (length self.now.classes.now) self.now.chain.now.wires }
        ensures { IfOk result (λ depth. depth ≡ capped (text_depth (composed (chain_of self.now)))) }
    {
        let clearing = self.clearing_depth()?;
        let owns = self.owns()?;
        let mut depths = self.first_depths()?;
        for _ in 0..self.classes.len() {
            depths = self.more_depths(clearing, &owns, &depths)?;
        }
        let body = self.element_depth(0, owns[0], &depths);
        Ok(deeper(all_decls_depth(self.classes), body.saturating_add(1)))
    }
}
