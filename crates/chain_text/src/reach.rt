//! Which elements wires lead to.
ghost use Rattle.std.specs.Prelude.{◌≡◌, ◌<◌, ◌≤◌, ◌*◌, ℕ, suc, true, false, List, vec_len, MatchBool, IfOk};
ghost use Rattle.element_chain.specs.declared.chain.Wire.{Wire};
ghost use Rattle.element_chain.specs.Wiring.{Leads, HasNoCycle, IsWithin, AreWithin};
ghost use Rattle.chain_text.specs.Rows.{with_wire};
ghost use Rattle.chain_text.specs.Reads.{most_elements};

use element_chain::{Target, Wire};
use gal_io::NoMemory;
use std::alloc::Global;

/// For each two elements, whether wires lead from the first to the second: the row of the first, then the next row.
#[derive(Drop)]
pub(crate) struct Reach {
    count: usize,
    rows: Vec<bool>,
    ghost some: { 0 < count },
    ghost few: { count ≤ most_elements },
    ghost size: { vec_len rows ≡ count * count },
}

// Notes that a wire leads from its element to another.
fn join(rows: &mut Vec<bool>, count: usize, wire: Wire)
    requires few_elements { count ≤ most_elements }
    requires from { wire.from < count }
    requires to { IsWithin count wire.to }
    requires size { vec_len rows.old ≡ count * count }
    ensures size { vec_len rows.new ≡ count * count }
    ensures rows { rows.new.items ≡ with_wire count rows.old.items wire }
{
    if let Target::Element(to) = wire.to {
        rows[wire.from as usize * count + to as usize] = true;
    }
}

impl Reach {
    ghost use Rattle.chain_text.specs.Reached.{LeadsBy, entry};

    // The elements that one wire leads to.
    fn direct(alloc: Global, wires: &[Wire], count: usize) -> Result<Reach, NoMemory>
        requires nonempty { 0 < count }
        requires few_elements { count ≤ most_elements }
        requires within { AreWithin count wires.now }
        ensures { IfOk result (λ reach. LeadsBy wires.now count 0 reach) }
    {
        let mut rows = vec![in alloc; false; count * count]?;
        for wire in wires {
            join(&mut rows, count, *wire);
        }
        Ok(Reach { count, rows })
    }

    // Whether wires lead from an element to another, as far as the table says.
    fn leads(&self, from: usize, to: usize) -> bool
        requires from { from < self.now.count }
        requires to { to < self.now.count }
        ensures { result ≡ entry self.now from to }
    {
        self.rows[from * self.count + to]
    }

    // Also those that are led to by way of one element more.
    fn by_way(&self, alloc: Global, through: usize) -> Result<Reach, NoMemory>
        requires { through < self.now.count }
        ensures { (wires : List Wire) (count : ℕ) → LeadsBy wires count through self.now
            → IfOk result (λ reach. LeadsBy wires count (suc through) reach) }
    {
        let mut rows = Vec::new(alloc);
        for place in 0..self.count * self.count {
            let (from, to) = (place / self.count, place % self.count);
            rows.push(
                self.leads(from, to) || self.leads(from, through) && self.leads(through, to),
            )?;
        }
        Ok(Reach {
            count: self.count,
            rows,
        })
    }

    // The elements that any number of wires lead to.
    fn new(alloc: Global, wires: &[Wire], count: usize) -> Result<Reach, NoMemory>
        requires nonempty { 0 < count }
        requires few_elements { count ≤ most_elements }
        requires within { AreWithin count wires.now }
        ensures { IfOk result (λ reach. LeadsBy wires.now count count reach) }
    {
        let mut reach = Reach::direct(alloc, wires, count)?;
        for way in 0..count {
            reach = reach.by_way(alloc, way)?;
        }
        Ok(reach)
    }

    // Whether wires lead from an element back to it.
    fn leads_back(&self) -> bool
        ensures { MatchBool result ((e : ℕ) × (e < self.now.count) × (entry self.now e e ≡ true))
            ((e : ℕ) → e < self.now.count → entry self.now e e ≡ false) }
    {
        for element in 0..self.count {
            if self.leads(element, element) {
                return true;
            }
        }
        false
    }
}

/// Whether wires lead from an element back to it.
pub(crate) fn has_cycle(alloc: Global, wires: &[Wire], count: usize) -> Result<bool, NoMemory>
    requires nonempty { 0 < count }
    requires few_elements { count ≤ most_elements }
    requires within { AreWithin count wires.now }
    ensures { IfOk result (λ found. MatchBool found ((e : ℕ) × Leads wires.now e e) (HasNoCycle wires.now)) }
{
    let reach = Reach::new(alloc, wires, count)?;
    Ok(reach.leads_back())
}
