//! Which elements wires lead to.
ghost use Rattle.std.specs.Prelude.{◌≡◌, ◌<◌, ◌≤◌, suc, List, IfOk};
ghost use Rattle.element_chain.specs.declared.chain.Wire.{Wire};
ghost use Rattle.element_chain.specs.Wiring.{is_joined, is_to};
ghost use Rattle.chain_compose.specs.Reach.{ShowsBy, is_shown, is_shown_by};

use crate::matrix::Reach;
use element_chain::{Target, Wire};
use gal_io::NoMemory;
use std::alloc::Global;

// Whether a wire leads from an element to another.
fn is_joined(wires: &[Wire], from: usize, to: usize) -> bool
    ensures { result ≡ is_joined wires.now from to }
{
    for wire in wires {
        if wire.from as usize == from && leads_to(wire.to, to) {
            return true;
        }
    }
    false
}

fn leads_to(target: Target, to: usize) -> bool
    ensures { result ≡ is_to to target }
{
    match target {
        Target::Element(element) => element as usize == to,
        Target::Out => false,
    }
}

impl Reach {
    // The elements that one wire leads to.
    fn direct(alloc: Global, wires: &[Wire], count: usize) -> Result<Reach, NoMemory>
        requires { count ≤ 32 }
        ensures { IfOk result (λ made. ShowsBy wires.now count 0 made) }
    {
        let mut rows = Vec::new(alloc);
        for place in 0..count * count {
            rows.push(is_joined(wires, place / count, place % count))?;
        }
        Ok(Reach { count, rows })
    }

    // Whether wires lead from an element to another, or did so by way of a third one.
    fn leads_by(&self, through: usize, from: usize, to: usize) -> bool
        requires few_elements { self.now.count ≤ 32 }
        requires within { through < self.now.count }
        requires from { from < self.now.count }
        requires to { to < self.now.count }
        ensures { result ≡ is_shown_by self.now through from to }
    {
        self.leads(from, to) || self.leads(from, through) && self.leads(through, to)
    }

    // Also those that are led to by way of one element more.
    fn by_way(&self, alloc: Global, through: usize) -> Result<Reach, NoMemory>
        requires few_elements { self.now.count ≤ 32 }
        requires within { through < self.now.count }
        ensures { (wires : List Wire) → ShowsBy wires self.now.count through self.now
            → IfOk result (λ made. ShowsBy wires self.now.count (suc through) made) }
    {
        let mut rows = Vec::new(alloc);
        for place in 0..self.count * self.count {
            rows.push(self.leads_by(through, place / self.count, place % self.count))?;
        }
        Ok(Reach {
            count: self.count,
            rows,
        })
    }

    /// The elements that any number of wires lead to.
    pub fn new(alloc: Global, wires: &[Wire], count: usize) -> Result<Reach, NoMemory>
        requires { count ≤ 32 }
        ensures { IfOk result (λ made. ShowsBy wires.now count count made) }
    {
        let mut reach = Reach::direct(alloc, wires, count)?;
        for through in 0..count {
            reach = reach.by_way(alloc, through)?;
        }
        Ok(reach)
    }

    /// Whether wires lead from an element to another.
    pub fn leads(&self, from: usize, to: usize) -> bool
        requires few_elements { self.now.count ≤ 32 }
        requires from { from < self.now.count }
        requires to { to < self.now.count }
        ensures { result ≡ is_shown self.now from to }
    {
        matches!(self.rows.get(from * self.count + to), Some(true))
    }
}
