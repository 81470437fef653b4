//! The passes that are under way.
ghost use Rattle.std.specs.Prelude.{◌≡◌, ◌<◌, ◌==◌, ◌++◌, ◌∷◌, [], Some, length, slice_get, slice_set, remove, OnOk, OnErr};
ghost use Rattle.replay_state.specs.Step.{waits};
ghost use Rattle.replay_course.specs.Going.{less_one};

use gal_io::NoMemory;
use replay_state::Pass;
use std::alloc::Global;
use std::collections::VecDeque;
use std::marker::Model;
use writeback_table::Command;

/// The passes under way on the switch, in the order in which they entered.
#[derive(Drop)]
pub struct PassQueue {
    passes: VecDeque<Pass>,
    // How many of them entered while the bit was set.
    with_bit: usize,
}

impl Model for PassQueue {
    ghost use Rattle.std.specs.Prelude.{◌≡◌, List, count_by};
    ghost use Rattle.replay_state.specs.declared.pass.Pass.{Pass};

    ghost Value = { List Pass };

    ghost view = { λ q. q.passes.items };

    ghost invariant = { λ q. q.with_bit ≡ count_by (λ (pass : Pass). pass.bit) q.passes.items };
}

impl PassQueue {
    /// No passes. This takes no memory; `push` takes it from `alloc`.
    pub fn new(alloc: Global) -> PassQueue
        ensures { result ≡ [] }
    {
        PassQueue {
            passes: VecDeque::new(alloc),
            with_bit: 0,
        }
    }

    /// How many there are.
    pub fn len(&self) -> usize
        ensures { result ≡ length self.now }
    {
        self.passes.len()
    }

    /// Whether there are none.
    pub fn is_empty(&self) -> bool
        ensures { result ≡ (length self.now == 0) }
    {
        self.passes.is_empty()
    }

    /// The pass at place `j`.
    #[tactic(auto, using(std::proofs::lemmas::Option::slice_get_read, std::proofs::lemmas::Option::slice_get_past))]
    pub fn get(&self, j: usize) -> Option<Pass>
        ensures { result ≡ slice_get self.now j }
    {
        if j < self.passes.len() {
            Some(self.passes[j])
        } else {
            None
        }
    }

    /// One more pass, behind the others.
    #[tactic(auto, using(crate::proofs::PassCounts::push_bit, crate::proofs::PassCounts::with_bit_within))]
    pub fn push(&mut self, pass: Pass) -> Result<(), NoMemory>
        ensures ok { OnOk result (self.new ≡ self.old ++ pass ∷ []) }
        ensures err { OnErr result (self.new ≡ self.old) }
    {
        self.passes.push_back(pass)?;
        self.with_bit += usize::from(pass.bit);
        Ok(())
    }

    /// The pass at place `j` goes, if there is one. The others keep their order.
    #[tactic(auto, using(crate::proofs::PassCounts::remove_bit, crate::proofs::Lists::remove_past))]
    pub fn remove(&mut self, j: usize) -> Option<Pass>
        ensures pass { result ≡ slice_get self.old j }
        ensures others { self.new ≡ remove self.old j }
    {
        let pass = self.passes.remove(j)?;
        self.with_bit -= usize::from(pass.bit);
        Some(pass)
    }

    /// The pass at place `j`, which is this one, has one stage less left.
    #[tactic(auto, using(crate::proofs::PassCounts::set_bit, std::proofs::lemmas::Option::slice_get_within))]
    pub fn take_stage(&mut self, j: usize, pass: Pass)
        requires has_pass { slice_get self.old j ≡ Some pass }
        requires stages_left { 0 < pass.left }
        ensures { self.new ≡ slice_set self.old j (less_one pass) }
    {
        let mut less = pass;
        less.left -= 1;
        self.passes[j] = less;
    }

    /// Whether a command disturbs one of them. This takes the same time however many there are.
    pub fn are_disturbed(&self, command: &Command) -> bool
        ensures { result ≡ waits self.now (Some command.now) }
    {
        self.with_bit < self.passes.len() && command.disturbs(false)
            || self.with_bit > 0 && command.disturbs(true)
    }
}
