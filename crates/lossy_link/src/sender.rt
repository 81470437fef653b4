//! The end of a link that sends.
ghost use Rattle.std.specs.Prelude.{◌≡◌, ◌-◌, ◌<◌, ◌≤◌, ◌^◌, length, slice_get, Some, IfOk, OnOk, OnErr};
ghost use Rattle.std.specs.FinSet as set;
ghost use Rattle.lossy_link.specs.Sender as spec;

use crate::answers::Confirm;
use crate::marks::Marks;
use crate::number::{four_bytes, number_in};
use gal_io::{Bytes, NoMemory};
use std::alloc::Global;
use std::marker::Model;

/// The items that were given to a link, and which of them are known to be delivered. An item is known by its place among
/// them, from 0, which is its number.
#[derive(Drop)]
pub struct LinkSender {
    items: Vec<Bytes>,
    // Which numbers aren't known.
    unknown: Marks,
}

impl Model for LinkSender {
    ghost use Rattle.lossy_link.specs.Sender as spec;
    ghost use Rattle.lossy_link.specs.Marks.{numbers_set};
    ghost use Rattle.lossy_link.specs.Unknown.{sender_with};
    ghost use Rattle.std.specs.Prelude.{◌≡◌, length};

    ghost Value = { spec.Sender };

    ghost coded = { spec.sender_code };

    ghost view = { λ s. sender_with s.items.items (numbers_set 0 s.unknown) };

    ghost invariant = { λ s. length s.unknown ≡ length s.items.items };
}

impl LinkSender {
    /// No items. This takes no memory; `give` takes it from `alloc`.
    #[tactic(auto, using(crate::proofs::Confirms::none_kept))]
    pub fn new(alloc: Global) -> LinkSender
        ensures { result ≡ spec.first_sender }
    {
        let items = Vec::new(alloc);
        let unknown = Marks::new(alloc);
        LinkSender { items, unknown }
    }

    /// Takes one more item, which isn't known to be delivered, and answers its number. After want of memory all is as
    /// before. There may be at most 2^32 - 1 items.
    #[tactic(auto, using(crate::proofs::Confirms::more_kept))]
    pub fn give(&mut self, item: Bytes) -> Result<u32, NoMemory>
        requires { length self.old.items < 2 ^ 32 - 1 }
        ensures number { IfOk result (λ number. number ≡ length self.old.items) }
        ensures ok { OnOk result (self.new ≡ spec.given self.old item) }
        ensures err { OnErr result (self.new ≡ self.old) }
    {
        let number = self.items.len() as u32;
        self.items.push(item)?;
        if self.unknown.push().is_err() {
            let _ = self.items.pop();
            return Err(NoMemory);
        }
        Ok(number)
    }

    /// The items, in the order in which they were given.
    pub fn items(&self) -> &[Bytes]
        ensures { result.now ≡ self.now.items }
    {
        self.items.as_slice()
    }

    /// How many items are known to be delivered.
    #[tactic(auto, using(crate::proofs::Counted::known_count))]
    pub fn known(&self) -> usize
        ensures count { result ≡ set.len self.now.known }
        ensures within { result ≤ length self.now.items }
    {
        self.items.len() - self.unknown.len()
    }

    /// The j-th of the numbers that aren't known to be delivered, the lowest first. It is `None` exactly where there are
    /// at most j. This takes 32 steps.
    #[tactic(auto, using(crate::proofs::Confirms::unknown_kept))]
    pub fn unknown_at(&self, j: usize) -> Option<u32>
        ensures { result ≡ slice_get (spec.unknown self.now.items self.now.known) j }
    {
        self.unknown.at(j)
    }

    /// The datagram of the item of this number: the number in four bytes, the highest first, and then the item.
    pub fn datagram(&self, alloc: Global, number: u32) -> Result<Bytes, NoMemory>
        requires { number < length self.now.items }
        ensures { IfOk result (λ made. made ≡ spec.datagram_of self.now number) }
    {
        let mut made = Bytes::from_slice(alloc, &four_bytes(number))?;
        made.extend(self.items[number as usize].as_slice())?;
        Ok(made)
    }

    /// Reads a confirmation, which is the number of an item in four bytes, the highest first. The item is known to be
    /// delivered from then on. This takes no memory, and 32 steps.
    pub fn confirm(&mut self, bytes: &[u8]) -> Confirm
        ensures answer { result ≡ spec.confirm_answer self.old bytes.now }
        ensures after { self.new ≡ spec.after_confirm self.old bytes.now }
    {
        match self.number_in(bytes) {
            Some(number) => self.learn(number),
            None => Confirm::Malformed,
        }
    }

    // The number of an item that these bytes spell, if they do.
    fn number_in(&self, bytes: &[u8]) -> Option<u32>
        ensures { result ≡ spec.confirmed self.now bytes.now }
    {
        if bytes.len() != 4 {
            return None;
        }
        let number = number_in(bytes);
        if (number as usize) < self.items.len() {
            Some(number)
        } else {
            None
        }
    }

    // The item of this number is known to be delivered from now on.
    fn learn(&mut self, number: u32) -> Confirm
        requires { number < length self.old.items }
        ensures answer { result ≡ spec.answer_to self.old (Some number) }
        ensures after { self.new ≡ spec.with_known self.old (Some number) }
    {
        if !self.unknown.is_set(number) {
            return Confirm::Again;
        }
        self.unknown.clear(number);
        Confirm::Known
    }
}
