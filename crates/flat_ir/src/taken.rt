//! Registers that are taken up to some step.
ghost use Rattle.std.specs.Prelude.{◌≡◌, ◌<◌, ◌≤◌, ◌∷◌, ◌^◌, true, false, length, All, IfOk};
ghost use Rattle.std.specs.List.{HoldsAt};
ghost use Rattle.std.specs.BinaryHeap.{heap_items, IsHeap};
ghost use Rattle.flat_ir.specs.Taking.{taken_cmp, IsFound, IsTaken};

use crate::spans::Span;
use gal_io::NoMemory;
use std::cmp::Reverse;
use std::collections::BinaryHeap;

/// A register, and the last step at which it is taken. The one that is free first is the greatest.
#[derive(Clone, Copy, PartialEq, Eq, PartialOrd, Ord)]
pub struct Taken {
    pub last: Reverse<u32>,
    pub register: u32,
}

// Whether the first register is free before a step.
fn is_free(taken: &BinaryHeap<Taken>, from: u32) -> bool
    requires { IsHeap taken_cmp (heap_items taken.now) }
    ensures nonempty { result ≡ true → HoldsAt (λ entry. entry.last.0 < from) (heap_items taken.now) 0 }
    ensures none { result ≡ false → All (λ entry. from ≤ entry.last.0) (heap_items taken.now) }
{
    match taken.peek() {
        Some(first) => first.last.0 < from,
        None => false,
    }
}

// A register that is free before a step, which is then no longer taken, or else one more.
fn find(taken: &mut BinaryHeap<Taken>, from: u32) -> u32
    requires heap { IsHeap taken_cmp (heap_items taken.old) }
    requires few_taken { length (heap_items taken.old) < 2 ^ 32 }
    ensures found { IsFound from (heap_items taken.old) (heap_items taken.new) result }
    ensures heap { IsHeap taken_cmp (heap_items taken.new) }
{
    if is_free(taken, from)
        && let Some(first) = taken.pop()
    {
        return first.register;
    }
    taken.len() as u32
}

/// A register for a span: one that is free before it, or else one more.
pub fn take(taken: &mut BinaryHeap<Taken>, span: &Span) -> Result<u32, NoMemory>
    requires heap { IsHeap taken_cmp (heap_items taken.old) }
    requires few_taken { length (heap_items taken.old) < 2 ^ 32 }
    ensures { IfOk result (λ register. IsTaken span.now (heap_items taken.old) (heap_items taken.new) register) }
{
    let register = find(taken, span.from);
    taken.push(Taken {
        last: Reverse(span.last()),
        register,
    })?;
    Ok(register)
}
