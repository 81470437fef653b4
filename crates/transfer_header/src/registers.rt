//! The numbers of a program's values.
ghost use Rattle.std.specs.Prelude.{◌≡◌, ◌≢◌, ◌<◌, ◌^◌, ℕ, length, replicate, IfOk, Some, None};
ghost use Rattle.transfer_header.specs.Registers.{Registers, place_of, content_of, placed, written, HasRegister, ArePlaced};

use flat_ir::RegPlan;
use gal_io::NoMemory;
use std::alloc::Global;
use std::marker::Model;

/// Numbers of a flat program's values. Without a plan there is one for each value, at the value's place among all of
/// them, in order of instruction and result. With a plan each value that has a register there has the number in it, so
/// that two values with one register have one number.
#[derive(Drop)]
pub struct Regs {
    plan: Option<RegPlan>,
    items: Vec<u64>,
}

impl Model for Regs {
    ghost use Rattle.transfer_header.specs.Registers.{Registers, registers_code, AreRegisters};

    ghost Value = { Registers };

    ghost coded = { registers_code };

    ghost view = { λ regs. record { plan = regs.plan; numbers = regs.items.items } };

    ghost invariant = { λ regs. AreRegisters (record { plan = regs.plan; numbers = regs.items.items }) };
}

impl Regs {
    /// A zero for each of so many values, each in a register of its own.
    pub fn new(alloc: Global, values: u32) -> Result<Regs, NoMemory>
        ensures plan { IfOk result (λ made. made.plan ≡ None) }
        ensures numbers { IfOk result (λ made. made.numbers ≡ replicate values 0) }
        ensures placed { IfOk result ArePlaced }
    {
        let items = vec![in alloc; 0u64; values as usize]?;
        Ok(Regs { plan: None, items })
    }

    /// A zero in each register of a plan.
    pub fn planned(alloc: Global, plan: RegPlan) -> Result<Regs, NoMemory>
        ensures plan { IfOk result (λ made. made.plan ≡ Some plan) }
        ensures numbers { IfOk result (λ made. made.numbers ≡ replicate plan.count 0) }
        ensures placed { IfOk result ArePlaced }
    {
        let count = plan.count();
        let items = vec![in alloc; 0u64; count as usize]?;
        Ok(Regs {
            plan: Some(plan),
            items,
        })
    }

    /// How many numbers there are.
    pub fn len(&self) -> u32
        ensures len { result ≡ length self.now.numbers }
        ensures placed { ArePlaced self.now }
    {
        self.items.len() as u32
    }

    /// The number at each place.
    pub fn as_slice(&self) -> &[u64]
        ensures numbers { result.now ≡ self.now.numbers }
        ensures bounded { length self.now.numbers < 2 ^ 32 }
    {
        self.items.as_slice()
    }

    /// Puts another number at a place. Past all places this does nothing.
    pub fn set_at(&mut self, place: u32, to: u64)
        ensures { self.new ≡ placed self.old place to }
    {
        let place = place as usize;
        if place < self.items.len() {
            self.items[place] = to;
        }
    }

    // Where the number of a value stands.
    fn place(&self, value: u32) -> u32
        requires { HasRegister self.now value }
        ensures place { place_of self.now value ≡ Some result }
        ensures within { result < length self.now.numbers }
    {
        match &self.plan {
            None => value,
            Some(plan) => plan.register(value).unwrap(),
        }
    }

    /// Where the number of a value stands, if it has a register.
    pub fn register(&self, value: u32) -> Option<u32>
        ensures { result ≡ place_of self.now value }
    {
        match &self.plan {
            None if (value as usize) < self.items.len() => Some(value),
            None => None,
            Some(plan) => plan.register(value),
        }
    }

    /// The number of a value.
    pub fn at(&self, value: u32) -> u64
        requires { HasRegister self.now value }
        ensures { result ≡ content_of self.now value }
    {
        let place = self.place(value);
        self.items[place as usize]
    }

    /// The number of a value, 0 where it has no register.
    pub fn number(&self, value: u32) -> u64
        ensures { result ≡ content_of self.now value }
    {
        let place = match &self.plan {
            None => Some(value),
            Some(plan) => plan.register(value),
        };
        match place {
            Some(place) if (place as usize) < self.items.len() => self.items[place as usize],
            _ => 0,
        }
    }

    /// Gives a value another number. Only values in its register have another number then.
    pub fn set(&mut self, value: u32, to: u64)
        requires { HasRegister self.old value }
        ensures all { self.new ≡ written self.old value to }
        ensures number { content_of self.new value ≡ to }
        ensures places { (other : ℕ) → place_of self.new other ≡ place_of self.old other }
        ensures others { (other : ℕ) → place_of self.old value ≢ place_of self.old other
            → content_of self.new other ≡ content_of self.old other }
    {
        let place = self.place(value);
        self.items[place as usize] = to;
    }

    /// Makes every number 0. This takes no memory.
    pub fn clear(&mut self)
        ensures plan { self.new.plan ≡ self.old.plan }
        ensures numbers { self.new.numbers ≡ replicate (length self.old.numbers) 0 }
        ensures places { (value : ℕ) → place_of self.new value ≡ place_of self.old value }
        ensures contents { (value : ℕ) → content_of self.new value ≡ 0 }
        ensures placed { ArePlaced self.new }
    {
        self.items.fill(0);
    }
}
