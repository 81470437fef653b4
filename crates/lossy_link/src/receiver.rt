//! The end of a link that receives.
ghost use Rattle.std.specs.Prelude.{◌≡◌, false, IfOk, OnOk, OnErr};
ghost use Rattle.lossy_link.specs.Receiver as spec;

use crate::answers::Took;
use crate::number::number_in;
use crate::numbers::Numbers;
use gal_io::{Bytes, NoMemory};
use std::alloc::Global;
use std::marker::Model;

/// An item that a receiver delivered, with its number.
#[derive(Drop)]
pub struct Delivered {
    pub number: u32,
    pub item: Bytes,
}

/// What was delivered over a link, in order. On an ordered link each item is delivered only as the next one.
#[derive(Drop)]
pub struct LinkReceiver {
    alloc: Global,
    ordered: bool,
    pairs: Vec<Delivered>,
    // The numbers of the pairs. Those of an ordered link go up one by one, and aren't kept.
    numbers: Numbers,
}

impl Model for LinkReceiver {
    ghost use Rattle.lossy_link.specs.Receiver as spec;
    ghost use Rattle.lossy_link.specs.Numbers.{AreNumbersOf};

    ghost Value = { spec.Receiver };

    ghost view = { λ r. record { ordered = r.ordered; pairs = r.pairs.items } };

    ghost invariant = { λ r. AreNumbersOf r.ordered r.pairs.items r.numbers };
}

impl LinkReceiver {
    /// Nothing is delivered. This takes no memory; `take` takes it from `alloc`.
    #[tactic(auto, using(crate::proofs::Kept::numbers_first))]
    pub fn new(alloc: Global, ordered: bool) -> LinkReceiver
        ensures { result ≡ spec.first_receiver ordered }
    {
        LinkReceiver {
            alloc,
            ordered,
            pairs: Vec::new(alloc),
            numbers: Numbers::new(alloc),
        }
    }

    /// What was delivered, in order.
    pub fn as_slice(&self) -> &[Delivered]
        ensures { result.now ≡ self.now.pairs }
    {
        self.pairs.as_slice()
    }

    /// Reads a datagram, which is a number in four bytes, the highest first, and an item behind it, and delivers the
    /// item where it is new. After want of memory all is as before. A look takes the same time however many items were
    /// delivered, but where numbers are far above how many were: of those it takes the logarithm. Memory is taken for the
    /// items that are delivered alone, whatever their numbers.
    #[tactic(auto, using(crate::proofs::Kept::takes_short, crate::proofs::Kept::takes_again, crate::proofs::Kept::takes_early, crate::proofs::Kept::takes_new))]
    pub fn take(&mut self, bytes: &[u8]) -> Result<Took, NoMemory>
        ensures answer { IfOk result (λ took. took ≡ spec.take_answer self.old bytes.now) }
        ensures ok { OnOk result (self.new ≡ spec.after_take self.old bytes.now) }
        ensures err { OnErr result (self.new ≡ self.old) }
    {
        if bytes.len() < 4 {
            return Ok(Took::Malformed);
        }
        let number = number_in(bytes);
        if self.has(number) {
            return Ok(Took::Again(number));
        }
        if self.is_early(number) {
            return Ok(Took::Early(number));
        }
        self.deliver(number, &bytes[4..])?;
        Ok(Took::New(number))
    }

    // Whether this number was delivered.
    fn has(&self, number: u32) -> bool
        ensures { result ≡ spec.is_delivered self.now.pairs number }
    {
        if self.ordered {
            (number as usize) < self.pairs.len()
        } else {
            self.numbers.has(number)
        }
    }

    // Whether items before the one of this number are still to come.
    fn is_early(&self, number: u32) -> bool
        ensures { result ≡ spec.is_early self.now number }
    {
        self.ordered && self.pairs.len() < number as usize
    }

    // Delivers an item behind the others.
    fn deliver(&mut self, number: u32, item: &[u8]) -> Result<(), NoMemory>
        requires new { spec.is_delivered self.old.pairs number ≡ false }
        requires due { spec.is_early self.old number ≡ false }
        ensures ok { OnOk result (self.new ≡ spec.with_pair self.old number item.now) }
        ensures err { OnErr result (self.new ≡ self.old) }
    {
        let item = Bytes::from_slice(self.alloc, item)?;
        self.pairs.push(Delivered { number, item })?;
        if !self.ordered && self.numbers.add(number, self.pairs.len()).is_err() {
            let _ = self.pairs.pop();
            return Err(NoMemory);
        }
        Ok(())
    }
}
