//! The order line.
ghost use Rattle.std.specs.Prelude.{◌≡◌, IfOk, MatchOption, None, Some};
ghost use Rattle.report_text.specs.Parse.{all_numbers, number_below, numbers_at, order_of};

use crate::piece::{after, labelled};
use gal_io::NoMemory;
use run_model::Order;
use std::alloc::Global;

// A number below a bound behind a space.
#[tactic(auto, unfolding(crate::specs::Parse::number_below))]
fn read_number(bound: u32, line: &[u8]) -> Option<(u32, &[u8])>
    ensures { MatchOption result (number_below bound line.now ≡ None)
        (λ found. number_below bound line.now ≡ Some (found.0, found.1.now)) }
{
    let (number, rest) = labelled(b" ", line)?;
    if number < bound {
        Some((number, rest))
    } else {
        None
    }
}

// So many numbers below a bound, with nothing behind them.
#[tactic(auto, using(crate::proofs::Loops::numbers_on, crate::proofs::Loops::numbers_stop))]
fn read_numbers(
    alloc: Global,
    count: u32,
    bound: u32,
    line: &[u8],
) -> Result<Option<Order>, NoMemory>
    ensures { IfOk result (λ numbers. numbers ≡ all_numbers count bound line.now) }
{
    let mut numbers = Vec::new(alloc);
    let mut ahead = line;
    for _ in 0..count {
        let Some((number, rest)) = read_number(bound, ahead) else {
            return Ok(None);
        };
        numbers.push(number)?;
        ahead = rest;
    }
    if ahead.is_empty() {
        Ok(Some(Order::from(numbers)))
    } else {
        Ok(None)
    }
}

/// The numbers of the packets that were decided, so many of them, each below a bound.
#[tactic(auto, unfolding(crate::specs::Parse::order_of))]
pub(crate) fn read_order(
    alloc: Global,
    count: u32,
    bound: u32,
    line: &[u8],
) -> Result<Option<Order>, NoMemory>
    ensures { IfOk result (λ numbers. numbers ≡ order_of count bound line.now) }
{
    let Some(rest) = after(b"order", line) else {
        return Ok(None);
    };
    if count > 0 {
        return read_numbers(alloc, count, bound, rest);
    }
    if rest == b" -".as_slice() {
        Ok(Some(Order::from(Vec::new(alloc))))
    } else {
        Ok(None)
    }
}
