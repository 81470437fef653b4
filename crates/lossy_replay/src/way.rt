//! A link of frames, and which of them wait where it leads.
ghost use Rattle.std.specs.Prelude.{◌≡◌, ◌<◌, ◌-◌, ◌^◌, false, [], ℕ, List, length, slice_get, OnOk};
ghost use Rattle.lossy_link.specs.Link.{Link, arrive, confirm, first_link, give, link_step, send};
ghost use Rattle.lossy_replay.specs.Linked.{arrived, gone_on, place_of};
ghost use Rattle.lossy_replay.specs.Lines.{link_of};
ghost use Rattle.lossy_replay.specs.Ways.{IsWay};

use crate::line::Line;
use gal_io::{Bytes, NoMemory};
use std::alloc::Global;

/// A link of frames that are taken one by one where they come out.
#[derive(Drop)]
pub struct Way {
    pub line: Line,
    /// The numbers of the frames that weren't taken, in the order in which they were given.
    pub standing: Vec<u32>,
    /// The numbers of the frames that were delivered, in the order of their delivery.
    pub arrived: Vec<u32>,
}

impl Way {
    /// No frame was given to it.
    pub fn new(alloc: Global) -> Way
        ensures { IsWay (first_link false) [] result }
    {
        Way {
            line: Line::new(alloc, false),
            standing: Vec::new(alloc),
            arrived: Vec::new(alloc),
        }
    }

    /// One more frame is to be delivered.
    pub fn give(&mut self, frame: Bytes) -> Result<(), NoMemory>
        requires way { (l : Link) × (gone : List ℕ) × IsWay l gone self.old }
        requires few_items { length self.old.line.sender.items < 2 ^ 32 - 1 }
        ensures { OnOk result ((l : Link) (gone : List ℕ) → IsWay l gone self.old
            → IsWay (link_step l (give frame)) gone self.new) }
    {
        let number = self.line.give(frame)?;
        self.standing.push(number)?;
        Ok(())
    }

    /// The datagram of the j-th frame that isn't known to be delivered is sent, where there is one.
    pub fn transmit(&mut self, j: u32) -> Result<(), NoMemory>
        requires way { (l : Link) × (gone : List ℕ) × IsWay l gone self.old }
        ensures { OnOk result ((l : Link) (gone : List ℕ) → IsWay l gone self.old
            → IsWay (link_step l (send j)) gone self.new) }
    {
        self.line.transmit(j)
    }

    /// The j-th of all datagrams arrives, where so many were sent.
    pub fn deliver(&mut self, alloc: Global, j: u32) -> Result<(), NoMemory>
        requires way { (l : Link) × (gone : List ℕ) × IsWay l gone self.old }
        ensures { OnOk result ((l : Link) (gone : List ℕ) → IsWay l gone self.old
            → IsWay (link_step l (arrive j)) gone self.new) }
    {
        let delivered = self.line.deliver(alloc, j)?;
        match delivered {
            Some(number) => {
                self.arrived.push(number)?;
                Ok(())
            }
            None => Ok(()),
        }
    }

    /// The j-th of all confirmations arrives, where so many were sent back.
    pub fn confirm(&mut self, j: u32)
        requires way { (l : Link) × (gone : List ℕ) × IsWay l gone self.old }
        ensures { (l : Link) (gone : List ℕ) → IsWay l gone self.old → IsWay (link_step l (confirm j)) gone self.new }
    {
        self.line.confirm(j)
    }

    /// The place among the frames that weren't taken of the j-th of those that were delivered. It is found by halves.
    pub fn place(&self, j: u32) -> Option<u32>
        requires way { (l : Link) × (gone : List ℕ) × IsWay l gone self.now }
        ensures { (l : Link) (gone : List ℕ) → IsWay l gone self.now → result ≡ place_of l gone j }
    {
        let number = self.arrived.as_slice().get(j as usize)?;
        match self.standing.as_slice().binary_search(number) {
            Ok(place) => Some(place as u32),
            Err(_) => None,
        }
    }

    /// The j-th of the frames that were delivered is taken, where there are so many.
    pub fn take(&mut self, j: u32)
        ensures { (l : Link) (gone : List ℕ) → IsWay l gone self.old
            → IsWay l (gone_on gone (slice_get (arrived l gone) j)) self.new }
    {
        let Some(&number) = self.arrived.as_slice().get(j as usize) else {
            return;
        };
        let _ = self.arrived.remove(j as usize);
        match self.standing.as_slice().binary_search(&number) {
            Ok(place) => {
                let _ = self.standing.remove(place);
            }
            Err(_) => {}
        }
    }
}
