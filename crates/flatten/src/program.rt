//! The flat program of a whole middlebox.
ghost use Rattle.std.specs.Prelude.{◌≡◌, ◌++◌, ◌<◌, ◌≤◌, length, false, get_or, IfOk, IfErr, OnOk, IsTrue};
ghost use Rattle.packet_fields.specs.declared.field.Field.{Field};
ghost use Rattle.packet_fields.specs.Table.{all_fields, field_index};
ghost use Rattle.element_lang.specs.View.{body_tree, tree};
ghost use Rattle.element_lang.specs.Rules.{is_good};
ghost use Rattle.flat_ir.specs.Program.{program_of, step_of};
ghost use Rattle.flat_ir.specs.Program.Work.{const};
ghost use Rattle.flat_ir.specs.WellFormed.{IsWellFormed};
ghost use Rattle.flatten.specs.Flatten as pure;
ghost use Rattle.flatten.specs.Occurs.{is_in_body};
ghost use Rattle.flatten.specs.Pending.{scoped, placed, first_view, gathered};
ghost use Rattle.flatten.specs.Same.{MeansTheSame};
ghost use Rattle.flatten.specs.declared.error.FlatError.TheVariants.{TooLarge};

use crate::error::FlatError;
use crate::frame::Frame;
use crate::journal::Tracked;
use crate::occurs::Seen;
use crate::output::Output;
use crate::place::{Ending, Place};
use crate::state::{NOUGHT, NOUGHT_PORT, State};
use element_lang::{Middlebox, Stmt};
use flat_ir::{Blocks, Code, FieldValue, Flat, Instr, InstrKind, Out, ValueId};
use gal_bits::Width;
use gal_io::{CopyIn, NoMemory as Want};
use packet_fields::{FIELD_COUNT, Field, fields};
use std::alloc::{AllocError, AllocFailed, Global};

// A number in the root.
fn constant(width: Width, number: u64) -> Instr
    ensures { step_of result ≡ record { block = 0; looped = false; work = const width number } }
{
    Instr {
        block: 0,
        looped: false,
        kind: InstrKind::Const(width, number),
    }
}

impl Output {
    // The constants that come first.
    fn constants(alloc: Global) -> Result<Output, Want>
        ensures { IfOk result (λ made. made ≡ pure.constants) }
    {
        let bit = Width::new(1).unwrap();
        let byte = Width::new(8).unwrap();
        let mut code = Code::new(alloc);
        code.push(constant(bit, 0))?;
        code.push(constant(bit, 1))?;
        code.push(constant(byte, 0))?;
        Ok(Output {
            code,
            blocks: Blocks::new(alloc),
        })
    }

    // An instruction for each field that occurs.
    fn fields(
        &mut self,
        alloc: Global,
        seen: &Seen,
        body: &[Stmt],
    ) -> Result<Vec<Option<ValueId>>, Want>
        requires { (f : Field) → get_or seen.now.marks (field_index f) false ≡ is_in_body f (body_tree body.now) }
        ensures { IfOk result (λ ids.
            scoped self.new ids.items ≡ pure.give_fields (body_tree body.now) all_fields self.old) }
    {
        let root = Place {
            block: 0,
            looped: false,
        };
        let mut ids = Vec::with_capacity(alloc, FIELD_COUNT)?;
        for field in fields() {
            let id = if seen.has(field) {
                Some(self.give(root, InstrKind::Field(field))?)
            } else {
                None
            };
            ids.push(id)?;
        }
        Ok(ids)
    }

    // The same, of these statements.
    fn arrived(&mut self, alloc: Global, body: &[Stmt]) -> Result<Vec<Option<ValueId>>, Want>
        ensures { IfOk result (λ ids.
            scoped self.new ids.items ≡ pure.give_fields (body_tree body.now) all_fields self.old) }
    {
        let mut seen = Seen::new();
        seen.body(body);
        self.fields(alloc, &seen, body)
    }
}

// A field whose value isn't the one with which it came.
fn push_changed(
    made: &mut Vec<FieldValue>,
    field: Field,
    came: Option<ValueId>,
    now: Option<ValueId>,
) -> Result<(), AllocFailed<FieldValue>>
    ensures { OnOk result (made.new.items ≡ made.old.items ++ pure.changed field came now) }
{
    if let (Some(came), Some(value)) = (came, now) {
        if came != value {
            made.push(FieldValue { field, value })?;
        }
    }
    Ok(())
}

// All of these, in field order.
#[tactic(auto, using(crate::proofs::Branches::none_came, crate::proofs::Branches::none_now))]
fn push_all(
    made: &mut Vec<FieldValue>,
    all: &[Field],
    came: &[Option<ValueId>],
    now: &[Option<ValueId>],
) -> Result<(), AllocFailed<FieldValue>>
    ensures { OnOk result (made.new.items ≡ made.old.items ++ pure.all_changed all.now came.now now.now) }
{
    match (all, came, now) {
        ([field, all @ ..], [a, came @ ..], [b, now @ ..]) => {
            push_changed(made, *field, *a, *b)?;
            push_all(made, all, came, now)
        }
        _ => Ok(()),
    }
}

// The values that stand for the variables behind what is given first: no local is in scope, the packet is dropped, and
// the run has not ended.
fn first_state(alloc: Global, locals: usize, came: &[Option<ValueId>]) -> Result<State, AllocError>
    ensures { IfOk result (λ w. w ≡ first_view locals came.now) }
{
    Ok(State {
        locals: vec![in alloc; None; locals]?,
        fields: came.to_vec(alloc)?,
        send: NOUGHT,
        port: NOUGHT_PORT,
        ended: Ending::No,
    })
}

// The instructions of all statements, behind the constants and the fields; and the values behind them.
#[tactic(auto, using(crate::proofs::GoodSizes::good_sized))]
fn last_state(
    alloc: Global,
    m: &Middlebox,
    out: &mut Output,
    came: &[Option<ValueId>],
) -> Result<State, FlatError>
    requires good { IsTrue (is_good (tree m.now)) }
    requires arrived { scoped out.old came.now ≡ pure.arrived (tree m.now) }
    ensures told { IfOk result (λ w. placed out.new w ≡ pure.end_of (tree m.now)) }
    ensures bounded { OnOk result (length out.new.code ≤ 4096) }
    ensures large { IfErr result (λ error.
        error ≡ TooLarge → 4096 < length (pure.end_of (tree m.now)).given.code) }
{
    let frame = Frame::of(alloc, m.locals.as_slice())?;
    let start = first_state(alloc, m.locals.len(), came)?;
    let root = Place {
        block: 0,
        looped: false,
    };
    let mut w = Tracked::new(alloc, start)?;
    out.body(alloc, &frame, root, &m.body, &mut w)?;
    out.keeps_size()?;
    Ok(w.state)
}

// The flat program of what is given for a middlebox, and of the values behind it.
fn assembled(
    alloc: Global,
    m: &Middlebox,
    out: Output,
    came: &[Option<ValueId>],
    w: &State,
) -> Result<Flat, Want>
    ensures { IfOk result (λ f. program_of f ≡ gathered (tree m.now).objects came.now (placed out w.now)) }
{
    let mut changed = Vec::new(alloc);
    push_all(&mut changed, &fields(), came, &w.fields)?;
    Ok(Flat {
        objects: m.objects.copy(alloc)?,
        blocks: out.blocks,
        code: out.code,
        out: Out {
            send: w.send,
            port: w.port,
            fields: changed,
        },
    })
}

// The flat program of a middlebox.
fn built(alloc: Global, m: &Middlebox) -> Result<Flat, FlatError>
    requires good { IsTrue (is_good (tree m.now)) }
    ensures program { IfOk result (λ f. program_of f ≡ pure.flat_of (tree m.now)) }
    ensures bounded { IfOk result (λ f. length (program_of f).code ≤ 4096) }
    ensures large { IfErr result (λ error.
        error ≡ TooLarge → 4096 < length (pure.flat_of (tree m.now)).code) }
{
    let mut out = Output::constants(alloc)?;
    let came = out.arrived(alloc, &m.body)?;
    let w = last_state(alloc, m, &mut out, &came)?;
    Ok(assembled(alloc, m, out, &came, &w)?)
}

/// The flat program of a middlebox.
///
/// It stops in front of the first statement before which more than 4,096 instructions are given, so turns of a repeat
/// beyond that cost neither time nor memory. It recurses as deep as statements stand in one another, and not along a
/// list of them.
pub fn flatten(alloc: Global, m: &Middlebox) -> Result<Flat, FlatError>
    requires good { IsTrue (is_good (tree m.now)) }
    ensures program { IfOk result (λ f. program_of f ≡ pure.flat_of (tree m.now)) }
    ensures bounded { IfOk result (λ f. length (program_of f).code ≤ 4096) }
    ensures large { IfErr result (λ error.
        error ≡ TooLarge → 4096 < length (pure.flat_of (tree m.now)).code) }
    ensures meaning { IfOk result (λ f. MeansTheSame (program_of f) (tree m.now)) }
    ensures formed { IfOk result (λ f. IsWellFormed (program_of f)) }
    ensures objects { IfOk result (λ f. (program_of f).objects ≡ (tree m.now).objects) }
{
    built(alloc, m)
}
