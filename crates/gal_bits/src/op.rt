//! The operators, each a row of one table.
ghost use Rattle.std.specs.Prelude.{◌≡◌, ◌-◌, ◌*◌, ◌/◌, ◌%◌, ◌^◌, ◌<◌, ◌≤◌, ◌==◌, nat_lt, length, slice_index};
ghost use Rattle.std.specs.Prelude.{if◌then◌else◌};
ghost use Rattle.gal_bits.specs.Operators.{operator_row, value_of};

use crate::checksum::adjust;
use crate::width::Width;

/// An operator on numbers of 1 to 64 bits.
#[derive(Clone, Copy, PartialEq, Eq)]
pub enum Op {
    /// The sum, wrapping.
    Add,
    /// The difference, wrapping.
    Sub,
    /// The product, wrapping.
    Mul,
    /// The quotient, rounded down. It is 0 where the divisor is 0.
    Div,
    /// The remainder. It is the dividend where the divisor is 0.
    Rem,
    /// The bits that are set in both.
    And,
    /// The bits that are set in either.
    Or,
    /// The bits that are set in one alone.
    Xor,
    /// Each bit turned.
    Not,
    /// The bits moved up by a count. It is 0 where the count is the width or more.
    Shl,
    /// The bits moved down by a count. It is 0 where the count is the width or more.
    Shr,
    /// 1 where the two are equal, else 0.
    Eq,
    /// 1 where the two differ, else 0.
    Ne,
    /// 1 where the first is less, else 0.
    Lt,
    /// 1 where the first is not greater, else 0.
    Le,
    /// The number in another width.
    Cast,
    /// The second where the first is 1, else the third.
    Select,
    /// A checksum, a word and the word in its place, as `adjust` takes them.
    Adjust,
}

// Each row: the operator, its name, how many numbers it takes, whether the switch has it, and its value of the numbers
// x, y and z, before it is cut to the width.
macro_rules! op_table {
    ($then:ident $($given:ident)*) => {
        $then! {
            ($($given)*) (x y z width)
            Add "add" 2 true { x.wrapping_add(y) }
            Sub "sub" 2 true { x.wrapping_sub(y) }
            Mul "mul" 2 false { x.wrapping_mul(y) }
            Div "div" 2 false { quotient(x, y) }
            Rem "rem" 2 false { remainder(x, y) }
            And "and" 2 true { x & y }
            Or "or" 2 true { x | y }
            Xor "xor" 2 true { x ^ y }
            Not "not" 1 true { !x }
            Shl "shl" 2 true { shifted_up(width, x, y) }
            Shr "shr" 2 true { shifted_down(width, x, y) }
            Eq "eq" 2 true { u64::from(x == y) }
            Ne "ne" 2 true { u64::from(x != y) }
            Lt "lt" 2 true { u64::from(x < y) }
            Le "le" 2 true { u64::from(x <= y) }
            Cast "cast" 1 true { x }
            Select "select" 3 true { chosen(x, y, z) }
            Adjust "adjust" 3 true { u64::from(adjust(word(x), word(y), word(z))) }
        }
    };
}

macro_rules! arity_arms {
    (($op:ident) $names:tt $($row:ident $text:literal $arity:literal $switch:literal $value:block)*) => {
        match $op {
            $(Op::$row => $arity,)*
        }
    };
}

macro_rules! name_arms {
    (($op:ident) $names:tt $($row:ident $text:literal $arity:literal $switch:literal $value:block)*) => {
        match $op {
            $(Op::$row => $text,)*
        }
    };
}

macro_rules! switch_arms {
    (($op:ident) $names:tt $($row:ident $text:literal $arity:literal $switch:literal $value:block)*) => {
        match $op {
            $(Op::$row => $switch,)*
        }
    };
}

macro_rules! value_arms {
    (($op:ident $given:ident $args:ident) ($x:ident $y:ident $z:ident $width:ident)
     $($row:ident $text:literal $arity:literal $switch:literal $value:block)*) => {{
        let $x = argument($args, 0);
        let $y = argument($args, 1);
        let $z = argument($args, 2);
        let $width = $given;
        match $op {
            $(Op::$row => cut($width, $value),)*
        }
    }};
}

/// How many numbers the operator takes. Those of a shift are the number and the count.
pub fn arity(op: Op) -> usize
    ensures value { result ≡ (operator_row op).arity }
    ensures range { (1 ≤ result) × (result ≤ 3) }
{
    op_table!(arity_arms op)
}

/// The operator's name, in lower case.
pub fn op_name(op: Op) -> &'static str
    ensures { result.now ≡ (operator_row op).name }
{
    op_table!(name_arms op)
}

/// Whether a switch can compute the operator.
pub fn on_switch(op: Op) -> bool
    ensures { result ≡ (operator_row op).on_switch }
{
    op_table!(switch_arms op)
}

/// The operator's value, where `width` is that of the result.
#[inline(always)]
#[tactic(auto, using(crate::proofs::Cut::cut_cut, crate::proofs::Cut::cut_difference, crate::proofs::Cut::cut_complement, crate::proofs::Cut::cut_below), unfolding(crate::specs::Operators::value_of))]
pub fn eval(op: Op, width: Width, args: &[u64]) -> u64
    requires { length args.now ≡ (operator_row op).arity }
    ensures value { result ≡ value_of op width args.now }
    ensures fits { result < 2 ^ width }
{
    op_table!(value_arms op width args)
}

// The number at this place, 0 past the end.
fn argument(args: &[u64], place: usize) -> u64
    ensures { result ≡ slice_index args.now place }
{
    if place < args.len() { args[place] } else { 0 }
}

// The lowest bits of the number, as many as the width has.
#[tactic(auto, using(crate::proofs::Cut::cut_whole, crate::proofs::Cut::cut_part))]
fn cut(width: Width, number: u64) -> u64
    ensures { result ≡ number % 2 ^ width }
{
    if width.bits() == 64 {
        number
    } else {
        number % (1 << width.bits())
    }
}

fn quotient(x: u64, y: u64) -> u64
    ensures { result ≡ (if y == 0 then 0 else x / y) }
{
    if y == 0 { 0 } else { x / y }
}

fn remainder(x: u64, y: u64) -> u64
    ensures { result ≡ (if y == 0 then x else x % y) }
{
    if y == 0 { x } else { x % y }
}

fn shifted_up(width: Width, x: u64, count: u64) -> u64
    ensures { result ≡ (if nat_lt count width then x * 2 ^ count else 0) % 2 ^ 64 }
{
    if count < u64::from(width.bits()) {
        x << count
    } else {
        0
    }
}

fn shifted_down(width: Width, x: u64, count: u64) -> u64
    ensures { result ≡ (if nat_lt count width then x / 2 ^ count else 0) }
{
    if count < u64::from(width.bits()) {
        x >> count
    } else {
        0
    }
}

fn chosen(condition: u64, x: u64, y: u64) -> u64
    ensures { result ≡ (if condition == 1 then x else y) }
{
    if condition == 1 { x } else { y }
}

// The lowest 16 bits of the number.
fn word(number: u64) -> u16
    ensures { result ≡ number % 65536 }
{
    (number % 65536) as u16
}
