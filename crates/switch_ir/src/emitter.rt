//! From a split program to the code of a switch.
ghost use Rattle.std.specs.Prelude.{◌≡◌, ◌≤◌, ℕ, IfOk};
ghost use Rattle.state_store.specs.Kept.{IsKept};
ghost use Rattle.state_store.specs.Store.{start_store};
ghost use Rattle.flat_ir.specs.Program.{program_of};
ghost use Rattle.flat_ir.specs.WellFormed.{IsWellFormed};
ghost use Rattle.split_model.specs.Bounds.{IsBounded, HasFewStages};
ghost use Rattle.split_model.specs.Legal.{IsLegal};
ghost use Rattle.split_model.specs.Passes.{post_fields};
ghost use Rattle.switch_ir.specs.Code.{code_of, pass_of};
ghost use Rattle.switch_ir.specs.Emitted.{emitted, pre_code, post_code, AllRun, Computes, IsEmitted};
ghost use Rattle.switch_ir.specs.Spans.{pre_spans, post_spans};

use crate::code::{Pass, Steps, SwitchCode};
use crate::looked_up::looked_up;
use crate::rest::rest;
use crate::spans::{no_plan, plan_of, spans_of, values_are_few};
use crate::steps::{Role, given_steps, highest, steps, values};
use flat_ir::{FieldValue, Flat, Out, Spans, what_fits_can_run};
use gal_io::{CopyIn, NoMemory};
use split_model::{Layout, Layouts, Split};
use std::alloc::Global;

/// The code of the switch's part of a split program, with room for `writeback` rows in each write-back table.
pub fn emit(alloc: Global, f: &Flat, s: &Split, writeback: u32) -> Result<SwitchCode, NoMemory>
    requires bounded { IsBounded (program_of f.now) }
    requires legal { IsLegal (program_of f.now) s.now }
    requires stages { HasFewStages s.now }
    requires writeback { writeback ≤ 65536 }
    ensures code { IfOk result (λ code. code_of code ≡ emitted (program_of f.now) s.now writeback) }
    ensures computes { IfOk result (λ code. Computes (program_of f.now) s.now (code_of code)) }
    ensures emitted { IsKept f.now.objects (start_store f.now.objects)
        → IfOk result (λ code. IsEmitted (code_of code)) }
{
    values_are_few(f);
    all_run(f);
    let count = values(f);
    let mut pre = pre_pass(alloc, f, s)?;
    let mut post = post_pass(alloc, f, s)?;
    let layouts = Layouts::of(alloc, f, s)?;
    let tables = looked_up(alloc, f, s)?;
    let none = Layout::new(alloc);
    pre.plan = plan_of(alloc, &pre, &none, &layouts.up, &tables, f.code.len())?;
    post.plan = plan_of(alloc, &post, &layouts.down, &none, &tables, f.code.len())?;
    Ok(SwitchCode {
        pre,
        post,
        up: layouts.up,
        down: layouts.down,
        tables,
        writeback,
        values: count,
    })
}

/// For how long the values of the two passes of a switch are needed.
#[derive(Drop)]
pub struct PassSpans {
    /// Of the pass over a packet that arrives.
    pub pre: Spans,
    /// Of the pass over a packet that comes down.
    pub post: Spans,
}

/// For how long the values of the passes of a split program are needed. `emit` plans their registers by these spans.
pub fn spans_of_passes(alloc: Global, f: &Flat, s: &Split) -> Result<PassSpans, NoMemory>
    requires bounded { IsBounded (program_of f.now) }
    requires legal { IsLegal (program_of f.now) s.now }
    requires stages { HasFewStages s.now }
    ensures pre { (writeback : ℕ) → IfOk result (λ spans.
        spans.pre ≡ pre_spans (emitted (program_of f.now) s.now writeback)) }
    ensures post { (writeback : ℕ) → IfOk result (λ spans.
        spans.post ≡ post_spans (emitted (program_of f.now) s.now writeback)) }
{
    values_are_few(f);
    let pre = pre_pass(alloc, f, s)?;
    let post = post_pass(alloc, f, s)?;
    let layouts = Layouts::of(alloc, f, s)?;
    let tables = looked_up(alloc, f, s)?;
    let none = Layout::new(alloc);
    Ok(PassSpans {
        pre: spans_of(alloc, &pre, &none, &layouts.up, &tables, f.code.len())?,
        post: spans_of(alloc, &post, &layouts.down, &none, &tables, f.code.len())?,
    })
}

// Each instruction of a well-formed program can be computed from numbers and tables.
fn all_run(f: &Flat)
    requires { IsWellFormed (program_of f.now) }
    ensures { AllRun (program_of f.now) }
{
    for instr in f.code.as_slice() {
        what_fits_can_run(f, &instr.kind);
    }
}

// The pass over a packet that arrives, but for its plan.
fn pre_pass(alloc: Global, f: &Flat, s: &Split) -> Result<Pass, NoMemory>
    requires { IsBounded (program_of f.now) }
    ensures { IfOk result (λ pass. pass_of pass ≡ pre_code (program_of f.now) s.now) }
{
    let computed = steps(alloc, f, s, Role::Pre)?;
    let blocks = f.blocks.copy(alloc)?;
    let left = rest(alloc, f, s)?;
    let out = f.out.copy(alloc)?;
    Ok(Pass {
        steps: computed,
        given: Steps::new(alloc),
        blocks,
        rest: left,
        out,
        highest: highest(f, s, Role::Pre),
        plan: no_plan(alloc)?,
    })
}

// The pass over a packet that comes down, but for its plan.
fn post_pass(alloc: Global, f: &Flat, s: &Split) -> Result<Pass, NoMemory>
    requires { IsBounded (program_of f.now) }
    ensures { IfOk result (λ pass. pass_of pass ≡ post_code (program_of f.now) s.now) }
{
    let computed = steps(alloc, f, s, Role::Post)?;
    let given = given_steps(alloc, f, s)?;
    let blocks = f.blocks.copy(alloc)?;
    let fields = fields_after(alloc, f, s)?;
    Ok(Pass {
        steps: computed,
        given,
        blocks,
        rest: Vec::new(alloc),
        out: Out {
            send: f.out.send,
            port: f.out.port,
            fields,
        },
        highest: highest(f, s, Role::Post),
        plan: no_plan(alloc)?,
    })
}

// The fields that postprocessing sets.
fn fields_after(alloc: Global, f: &Flat, s: &Split) -> Result<Vec<FieldValue>, NoMemory>
    ensures { IfOk result (λ fields. fields.items ≡ post_fields (program_of f.now) s.now) }
{
    let mut fields = Vec::new(alloc);
    for written in &f.out.fields {
        if s.is_post(written.value.instruction as usize) {
            fields.push(*written)?;
        }
    }
    Ok(fields)
}
