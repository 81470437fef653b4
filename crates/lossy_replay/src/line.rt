//! A link at work.
ghost use Rattle.std.specs.Prelude.{◌≡◌, ◌≤◌, ◌<◌, ◌-◌, ◌^◌, length, IfOk, OnOk};
ghost use Rattle.lossy_link.specs.Link.{arrive, confirm, first_link, give, link_step, send};
ghost use Rattle.lossy_replay.specs.Lines.{IsAtWork, IsEnd, delivered_by, link_of};

use crate::run::{Ends, Tally4};
use gal_io::{Bytes, NoMemory};
use lossy_link::{LinkReceiver, LinkSender, Took};
use std::alloc::Global;

/// The two ends of a link, and what was sent on it. Of a datagram and of a confirmation its number alone is kept: the
/// bytes are made when it arrives.
#[derive(Drop)]
pub struct Line {
    pub sender: LinkSender,
    pub receiver: LinkReceiver,
    /// The numbers of all datagrams that were sent.
    pub sent: Vec<u32>,
    /// The numbers of all confirmations that were sent back.
    pub back: Vec<u32>,
}

impl Line {
    /// Nothing was given to it. On an ordered link an item is delivered only as the next one.
    pub fn new(alloc: Global, ordered: bool) -> Line
        ensures link { link_of result ≡ first_link ordered }
        ensures at_work { IsAtWork result }
    {
        Line {
            sender: LinkSender::new(alloc),
            receiver: LinkReceiver::new(alloc, ordered),
            sent: Vec::new(alloc),
            back: Vec::new(alloc),
        }
    }

    /// One more item is to be delivered. The answer is its number.
    pub fn give(&mut self, item: Bytes) -> Result<u32, NoMemory>
        requires at_work { IsAtWork self.old }
        requires few_items { length self.old.sender.items < 2 ^ 32 - 1 }
        ensures number { IfOk result (λ number. number ≡ length self.old.sender.items) }
        ensures link { OnOk result (link_of self.new ≡ link_step (link_of self.old) (give item)) }
        ensures at_work { OnOk result (IsAtWork self.new) }
    {
        let number = self.sender.give(item)?;
        Ok(number)
    }

    /// The datagram of the j-th item that isn't known to be delivered, the lowest first, is sent, where there is one.
    pub fn transmit(&mut self, j: u32) -> Result<(), NoMemory>
        requires at_work { IsAtWork self.old }
        ensures link { OnOk result (link_of self.new ≡ link_step (link_of self.old) (send j)) }
        ensures at_work { OnOk result (IsAtWork self.new) }
    {
        match self.sender.unknown_at(j as usize) {
            Some(number) => {
                self.sent.push(number)?;
                Ok(())
            }
            None => Ok(()),
        }
    }

    /// The j-th of all datagrams arrives, where so many were sent. Where it delivers its item, the answer is the item's
    /// number.
    pub fn deliver(&mut self, alloc: Global, j: u32) -> Result<Option<u32>, NoMemory>
        requires at_work { IsAtWork self.old }
        ensures delivered { IfOk result (λ number. delivered_by (link_of self.old) (link_of self.new) ≡ number) }
        ensures link { OnOk result (link_of self.new ≡ link_step (link_of self.old) (arrive j)) }
        ensures at_work { OnOk result (IsAtWork self.new) }
    {
        let Some(&number) = self.sent.as_slice().get(j as usize) else {
            return Ok(None);
        };
        let bytes = self.sender.datagram(alloc, number)?;
        let took = self.receiver.take(bytes.as_slice())?;
        match took {
            Took::New(_) => {
                self.back.push(number)?;
                Ok(Some(number))
            }
            Took::Again(_) => {
                self.back.push(number)?;
                Ok(None)
            }
            Took::Early(_) => Ok(None),
            Took::Malformed => Ok(None),
        }
    }

    /// The j-th of all confirmations arrives, where so many were sent back.
    pub fn confirm(&mut self, j: u32)
        requires at_work { IsAtWork self.old }
        ensures link { link_of self.new ≡ link_step (link_of self.old) (confirm j) }
        ensures at_work { IsAtWork self.new }
    {
        let Some(&number) = self.back.as_slice().get(j as usize) else {
            return;
        };
        let _ = self.sender.confirm(&number.to_be_bytes());
    }

    /// How many items were delivered.
    pub fn delivered(&self) -> usize
        ensures { result ≡ length (link_of self.now).got }
    {
        self.receiver.as_slice().len()
    }

    /// The ends, with how far they have come.
    pub fn into_ends(self) -> Ends
        requires at_work { IsAtWork self }
        requires few_items { length self.sender.items < 2 ^ 32 }
        requires few_sent { length self.sent.items < 2 ^ 32 }
        requires few_delivered { length self.receiver.pairs < 2 ^ 32 }
        ensures { IsEnd (link_of self) result }
    {
        Ends {
            tally: Tally4 {
                items: self.sender.items().len() as u32,
                sent: self.sent.len() as u32,
                delivered: self.receiver.as_slice().len() as u32,
                known: self.sender.known() as u32,
            },
            sender: self.sender,
            receiver: self.receiver,
        }
    }
}
