//! A split program, and what the server works out of it beforehand.
ghost use Rattle.std.specs.Prelude.{◌≡◌, ◌<◌, ◌≤◌, ◌&&◌, not, List, Some, None, length, IfOk, IsTrue, if◌then◌else◌};
ghost use Rattle.flat_ir.specs.Fits.{fits};
ghost use Rattle.flat_ir.specs.Kinds.{is_input};
ghost use Rattle.flat_ir.specs.Program.{is_named, program_of, work_of, Program};
ghost use Rattle.flat_ir.specs.WellFormed.{IsWellFormed};
ghost use Rattle.split_model.specs.declared.split.Part.{Part};
ghost use Rattle.split_model.specs.Bounds.{IsBounded};
ghost use Rattle.split_model.specs.Layouts.{number_of, values_below, values_of};
ghost use Rattle.split_model.specs.Legal.{IsLegal};
ghost use Rattle.split_model.specs.Passes.{server_fields};
ghost use Rattle.split_model.specs.Shown.{is_replicated};
ghost use Rattle.split_model.specs.Split.{is_server};
ghost use Rattle.server_runtime.specs.Plans.{AreReplicated, IsPrepared};
ghost use Rattle.server_runtime.specs.Registers.{AreFirsts};
ghost use Rattle.server_runtime.specs.Serving.{evaluated_steps, followed_writes, is_followed};

use crate::allocation::{Allocation, allocate};
use flat_ir::{FieldValue, Flat, InstrKind, ValueId};
use gal_io::NoMemory;
use split_model::{Layout, Layouts, Split, replicated};
use std::alloc::Global;
use std::marker::Model;
use transfer_header::{ReadyStep, Regs};

/// A step that a run takes at an instruction, with the places of its operands and results among the registers.
#[derive(Drop)]
pub(crate) struct PlannedStep {
    /// The instruction's place in the code.
    pub instruction: u32,
    pub ready: ReadyStep,
}

/// A split program, and what is looked up in it at each packet.
#[derive(Drop)]
pub(crate) struct PreparedProgram {
    pub flat: Flat,
    pub split: Split,
    /// The values that are handed up, and those that are handed down.
    pub up: Layout,
    pub down: Layout,
    /// The number of each instruction's first value, and behind them how many values there are.
    pub firsts: Vec<u32>,
    /// Where the number of each instruction's first value stands among the registers. Empty until these are planned.
    pub seats: Vec<u32>,
    /// The steps that a run takes, in order. Empty until registers are planned.
    pub steps: Vec<PlannedStep>,
    /// The fields that the server sets.
    pub fields: Vec<FieldValue>,
    /// Whether the object is replicated, for each object.
    pub followed: Vec<bool>,
    /// How many instructions write to replicated objects.
    pub writes: usize,
    /// How many instructions other than consts and fields the server evaluates.
    pub evaluated: u32,
}

/// A legally split program, and the registers in which it is run. Contracts see the program and the split.
#[derive(Drop)]
pub(crate) struct ServerPlan {
    pub whole: PreparedProgram,
    pub values: Regs,
}

impl Model for ServerPlan {
    ghost use Rattle.flat_ir.specs.Program.{program_of};
    ghost use Rattle.server_runtime.specs.Plans as plans;
    ghost use Rattle.server_runtime.specs.Plans.{IsPrepared};
    ghost use Rattle.server_runtime.specs.Registers.{AreServing};
    ghost use Rattle.server_runtime.specs.Resolved.{instructions_of, AreResolved};
    ghost use Rattle.server_runtime.specs.Walks.{AreDue};

    ghost Value = { plans.ServerPlan };

    ghost view = { λ plan. record { program = program_of plan.whole.flat; split = plan.whole.split } };

    ghost invariant = { λ plan. IsPrepared plan.whole
        × AreServing (program_of plan.whole.flat) plan.whole.split plan.values
        × AreResolved (program_of plan.whole.flat) plan.whole.seats.items plan.whole.steps.items plan.values
        × AreDue (program_of plan.whole.flat) plan.whole.split (instructions_of plan.whole.steps.items) };
}

impl ServerPlan {
    /// The plan of a split program.
    pub(crate) fn of(alloc: Global, f: &Flat, s: &Split) -> Result<ServerPlan, NoMemory>
        requires bounded { IsBounded (program_of f.now) }
        requires legal { IsLegal (program_of f.now) s.now }
        ensures program { IfOk result (λ plan. plan.program ≡ program_of f.now) }
        ensures split { IfOk result (λ plan. plan.split ≡ s.now) }
    {
        let mut whole = PreparedProgram::of(alloc, f, s)?;
        let Allocation {
            values,
            seats,
            steps,
        } = allocate(alloc, &whole)?;
        whole.take_allocation(seats, steps);
        Ok(ServerPlan { whole, values })
    }
}

// What is looked up by the numbers of instructions and objects.
#[derive(Drop)]
struct Lists {
    firsts: Vec<u32>,
    fields: Vec<FieldValue>,
    followed: Vec<bool>,
}

impl Lists {
    // Of a split program.
    fn of(alloc: Global, f: &Flat, s: &Split) -> Result<Lists, NoMemory>
        requires code { length f.now.code ≤ 4096 }
        requires objects { length f.now.objects ≤ 64 }
        ensures firsts { IfOk result (λ made. AreFirsts (program_of f.now) made.firsts.items) }
        ensures bounded { IfOk result (λ made. length (values_of (program_of f.now)) ≤ 36864) }
        ensures fields { IfOk result (λ made. made.fields.items ≡ server_fields (program_of f.now) s.now) }
        ensures followed { IfOk result (λ made. AreReplicated (program_of f.now) s.now made.followed.items) }
    {
        Ok(Lists {
            firsts: firsts_of(alloc, f)?,
            fields: server_fields(alloc, f, s)?,
            followed: followed_objects(alloc, f, s)?,
        })
    }
}

// The number of each instruction's first value, and behind them how many values there are.
fn firsts_of(alloc: Global, f: &Flat) -> Result<Vec<u32>, NoMemory>
    requires { length f.now.code ≤ 4096 }
    ensures firsts { IfOk result (λ firsts. AreFirsts (program_of f.now) firsts.items) }
    ensures bounded { IfOk result (λ firsts. length (values_of (program_of f.now)) ≤ 36864) }
{
    let mut firsts = Vec::with_capacity(alloc, f.code.len() + 1)?;
    let mut next = 0;
    for instr in f.code.as_slice() {
        firsts.push(next)?;
        next += instr.kind.result_count(f.objects.as_slice());
    }
    firsts.push(next)?;
    Ok(firsts)
}

// The fields that the server sets.
fn server_fields(alloc: Global, f: &Flat, s: &Split) -> Result<Vec<FieldValue>, NoMemory>
    ensures { IfOk result (λ fields. fields.items ≡ server_fields (program_of f.now) s.now) }
{
    let mut fields = Vec::new(alloc);
    for written in &f.out.fields {
        if !s.is_post(written.value.instruction as usize) {
            fields.push(*written)?;
        }
    }
    Ok(fields)
}

// Whether each object is replicated.
fn followed_objects(alloc: Global, f: &Flat, s: &Split) -> Result<Vec<bool>, NoMemory>
    requires { length f.now.objects ≤ 64 }
    ensures { IfOk result (λ marks. AreReplicated (program_of f.now) s.now marks.items) }
{
    let mut marks = Vec::new(alloc);
    for object in 0..f.objects.len() {
        marks.push(replicated(f, s, object as u32))?;
    }
    Ok(marks)
}

// Whether it writes to a replicated object. An object of no such number isn't one.
fn is_followed(followed: &[bool], kind: &InstrKind) -> bool
    ensures { (f : Program) (split : List Part)
        → AreReplicated f split followed.now → IsTrue (fits f (work_of kind.now))
        → result ≡ is_followed f split (work_of kind.now) }
{
    match kind {
        InstrKind::Put { object, .. } | InstrKind::Del { object, .. } => {
            followed.get(*object as usize).copied().unwrap_or(false)
        }
        _ => false,
    }
}

// How many instructions write to replicated objects.
fn count_writes(f: &Flat, followed: &[bool]) -> usize
    requires { IsWellFormed (program_of f.now) }
    ensures { (split : List Part) → AreReplicated (program_of f.now) split followed.now
        → result ≡ followed_writes (program_of f.now) split }
{
    let mut writes = 0;
    for instr in f.code.as_slice() {
        if is_followed(followed, &instr.kind) {
            writes += 1;
        }
    }
    writes
}

// Whether it is the server's, and no const or field.
fn is_evaluated(s: &Split, instruction: usize, kind: &InstrKind) -> bool
    ensures { result ≡ (is_server s.now instruction && not (is_input (work_of kind.now))) }
{
    s.is_server(instruction) && !kind.is_input()
}

// How many instructions other than consts and fields the server evaluates.
fn count_evaluated(f: &Flat, s: &Split) -> u32
    requires { length f.now.code ≤ 4096 }
    ensures { result ≡ evaluated_steps (program_of f.now) s.now }
{
    let mut evaluated = 0;
    for (place, instr) in f.code.as_slice().iter().enumerate() {
        if is_evaluated(s, place, &instr.kind) {
            evaluated += 1;
        }
    }
    evaluated
}

impl PreparedProgram {
    // The split program, with what is looked up in it.
    fn of(alloc: Global, f: &Flat, s: &Split) -> Result<PreparedProgram, NoMemory>
        requires bounded { IsBounded (program_of f.now) }
        requires legal { IsLegal (program_of f.now) s.now }
        ensures prepared { IfOk result (λ whole. IsPrepared whole) }
        ensures program { IfOk result (λ whole. program_of whole.flat ≡ program_of f.now) }
        ensures split { IfOk result (λ whole. whole.split ≡ s.now) }
    {
        let lists = Lists::of(alloc, f, s)?;
        let layouts = Layouts::of(alloc, f, s)?;
        let split = s.copy(alloc)?;
        let flat = f.copy(alloc)?;
        let writes = count_writes(f, &lists.followed);
        let evaluated = count_evaluated(f, s);
        Ok(PreparedProgram {
            flat,
            split,
            up: layouts.up,
            down: layouts.down,
            firsts: lists.firsts,
            seats: Vec::new(alloc),
            steps: Vec::new(alloc),
            fields: lists.fields,
            followed: lists.followed,
            writes,
            evaluated,
        })
    }

    // Takes the places of the instructions' first values, and the steps of a run.
    fn take_allocation(&mut self, seats: Vec<u32>, steps: Vec<PlannedStep>)
        requires { IsPrepared self.old }
        ensures prepared { IsPrepared self.new }
        ensures seats { self.new.seats ≡ seats }
        ensures steps { self.new.steps ≡ steps }
        ensures flat { self.new.flat ≡ self.old.flat }
        ensures split { self.new.split ≡ self.old.split }
    {
        self.seats = seats;
        self.steps = steps;
    }

    /// The number of an instruction's first value.
    pub(crate) fn first(&self, instruction: usize) -> u32
        requires prepared { IsPrepared self.now }
        requires within { instruction ≤ length self.now.flat.code }
        ensures { result ≡ length (values_below (program_of self.now.flat) instruction) }
    {
        self.firsts[instruction]
    }

    /// The number of a value that the program has.
    pub(crate) fn number_of(&self, value: ValueId) -> u32
        requires prepared { IsPrepared self.now }
        requires named { IsTrue (is_named (program_of self.now.flat) value) }
        ensures { result ≡ number_of (program_of self.now.flat) value }
    {
        self.firsts[value.instruction as usize] + value.result
    }

    /// The number of a value, if the program has it.
    pub(crate) fn number(&self, value: ValueId) -> Option<u32>
        requires { AreFirsts (program_of self.now.flat) self.now.firsts.items }
        ensures { let f = program_of self.now.flat in
            result ≡ (if is_named f value then Some (number_of f value) else None) }
    {
        let instruction = value.instruction as usize;
        if instruction >= self.flat.code.len() {
            return None;
        }
        let first = self.firsts[instruction];
        if value.result < self.firsts[instruction + 1] - first {
            Some(first + value.result)
        } else {
            None
        }
    }

    /// Whether an object is replicated.
    pub(crate) fn follows(&self, object: u32) -> bool
        requires prepared { IsPrepared self.now }
        requires declared { object < length self.now.flat.objects }
        ensures { result ≡ is_replicated (program_of self.now.flat) self.now.split object }
    {
        self.followed[object as usize]
    }
}
