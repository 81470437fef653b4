//! Numbers of a pass.
ghost use Rattle.transfer_header.specs.Registers.{content_of};
ghost use Rattle.switch_machine.specs.Numbers.{reads_by};

use crate::numbering::Numbering;
use flat_ir::{Numbers, ValueId};
use transfer_header::Regs;

/// The numbers of a pass under way, in registers. A value that the pass doesn't know counts as 0.
#[derive(Clone, Copy)]
pub(crate) struct Run<'a> {
    pub numbering: &'a Numbering,
    pub registers: &'a Regs,
}

impl Numbers for Run<'_> {
    ghost reads = { λ run. reads_by run.numbering.now (content_of run.registers.now) };

    fn number(&self, value: ValueId) -> u64 {
        match self.numbering.number(value) {
            Some(number) => self.registers.number(number),
            None => 0,
        }
    }
}

/// Numbers of which nothing is known.
#[derive(Clone, Copy)]
pub(crate) struct Nothing;

impl Numbers for Nothing {
    ghost use Rattle.flat_ir.specs.Blocks.{nothing};

    ghost reads = { λ _. nothing };

    fn number(&self, _value: ValueId) -> u64 {
        0
    }
}
