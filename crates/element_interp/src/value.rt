//! The values of expressions.
ghost use Rattle.std.specs.Prelude.{◌≡◌, ◌≤◌, ℕ, [], ◌∷◌, slice_index, slice_set, length, map, replicate, IfOk};
ghost use Rattle.gal_bits.specs.Operators.{operator_row, value_of as operator_value};
ghost use Rattle.state_store.specs.Store.{Store};
ghost use Rattle.element_lang.specs.View.{expr_tree, expr_trees};
ghost use Rattle.element_lang.specs.Widths.{width_of as width_of_tree};
ghost use Rattle.element_lang.specs.Meaning.{value_of, values_of, bind_from};
ghost use Rattle.element_lang.specs.Rules.{count_of};
ghost use Rattle.element_interp.specs.Runs.{packet_of, frame_widths, state_of};
ghost use Rattle.element_interp.specs.Runnable.{IsRunnableExpr, AreRunnableExprs};

use crate::fields::AssignedFields;
use crate::frame::Frame;
use element_lang::{Expr, Local};
use gal_bits::{Op, Values, Width, eval};
use gal_io::NoMemory;

/// The variables of a run but for the store.
#[derive(Drop)]
pub(crate) struct Variables {
    pub locals: Vec<u64>,
    pub fields: AssignedFields,
}

/// So many locals as a run begins with them, which are 0, in the memory of those of another run as far as it goes.
pub(crate) fn fresh_locals(memory: Vec<u64>, count: usize) -> Result<Vec<u64>, NoMemory>
    ensures { IfOk result (λ locals. locals.items ≡ replicate count 0) }
{
    let mut locals = memory;
    locals.clear();
    for _ in 0..count {
        locals.push(0)?;
    }
    Ok(locals)
}

// How many bits wide the value of an expression is, 0 for a local that isn't declared.
fn width_of(locals: &[Local], e: &Expr) -> u32
    ensures value { result ≡ width_of_tree (map (λ l. l.width) locals.now) (expr_tree e.now) }
    ensures small { result ≤ 64 }
{
    match e {
        Expr::Lit(_, width) => width.bits(),
        Expr::Local(x) => match locals.get(*x as usize) {
            Some(local) => local.width.bits(),
            None => 0,
        },
        Expr::Field(field) => packet_fields::width(*field).bits(),
        Expr::Byte(_) => 8,
        Expr::Shift { arg, .. } => width_of(locals, arg),
        Expr::Apply { width, .. } => width.bits(),
    }
}

// A shift at a width, which is 0 where there are no bits.
#[tactic(auto, unfolding(gal_bits::specs::Operators::value_of))]
fn shifted(op: Op, bits: u32, value: u64, by: u8) -> u64
    requires arity { (operator_row op).arity ≡ 2 }
    requires small { bits ≤ 64 }
    ensures { result ≡ operator_value op bits (value ∷ by ∷ []) }
{
    match Width::new(bits) {
        Some(width) => eval(op, width, &[value, u64::from(by)]),
        None => 0,
    }
}

// The value at a place, 0 past the end.
fn at(values: &[u64], place: usize) -> u64
    ensures { result ≡ slice_index values.now place }
{
    if place < values.len() {
        values[place]
    } else {
        0
    }
}

// A byte of the packet as it arrived, 0 past the end.
fn byte_at(bytes: &[u8], place: u64) -> u64
    ensures { result ≡ slice_index bytes.now place }
{
    let place = place as usize;
    if place < bytes.len() {
        u64::from(bytes[place])
    } else {
        0
    }
}

/// The value of an expression.
#[cycle(value)]
pub(crate) fn value(frame: &Frame<'_>, e: &Expr, vars: &Variables) -> u64
    requires { IsRunnableExpr (expr_tree e.now) }
    ensures { (store : Store)
        → result ≡ value_of (frame_widths frame.now) (packet_of frame.now) (expr_tree e.now) (state_of frame.now vars.now store) }
{
    match e {
        Expr::Lit(value, _) => *value,
        Expr::Local(x) => at(&vars.locals, *x as usize),
        Expr::Field(field) => {
            vars.fields
                .get(frame.bytes, frame.port, &frame.shape, *field)
        }
        Expr::Byte(index) => byte_at(frame.bytes, value(frame, index, vars)),
        Expr::Shift { op, by, arg } => {
            let shifts = value(frame, arg, vars);
            shifted(*op, width_of(frame.locals, arg), shifts, *by)
        }
        Expr::Apply { op, width, args } => {
            let args = values(frame, args, vars);
            eval(*op, *width, args.as_slice())
        }
    }
}

/// The values of at most 8 expressions.
#[cycle(value)]
pub(crate) fn values(frame: &Frame<'_>, all: &[Expr], vars: &Variables) -> Values
    requires few_operands { count_of (expr_trees all.now) ≤ 8 }
    requires good { AreRunnableExprs (expr_trees all.now) }
    ensures told { (store : Store)
        → result ≡ values_of (frame_widths frame.now) (packet_of frame.now) (expr_trees all.now)
        (state_of frame.now vars.now store) }
    ensures count { length result ≡ count_of (expr_trees all.now) }
{
    let mut values = Values::new();
    for e in all {
        values.push(value(frame, e, vars));
    }
    values
}

impl Variables {
    /// Sets a local, where there is one.
    pub fn set_local(&mut self, x: u32, value: u64)
        ensures locals { self.new.locals.items ≡ slice_set self.old.locals.items x value }
        ensures fields { self.new.fields ≡ self.old.fields }
    {
        let place = x as usize;
        if place < self.locals.len() {
            self.locals[place] = value;
        }
    }

    /// Sets each local to the value at its place, and to 0 where there is none.
    pub fn set_locals(&mut self, into: &[u32], values: &Values)
        ensures locals { self.new.locals.items ≡ bind_from 0 into.now values.now self.old.locals.items }
        ensures fields { self.new.fields ≡ self.old.fields }
    {
        for (i, x) in into.iter().enumerate() {
            self.set_local(*x, at(values.as_slice(), i));
        }
    }
}
