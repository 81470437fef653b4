//! Runs of a middlebox.
ghost use Rattle.std.specs.Prelude.{◌≡◌, ◌≤◌, IsTrue, IfOk, OnOk, OnErr, length, ◌%◌, ◌^◌};
ghost use Rattle.packet_fields.specs.Table.{all_fields};
ghost use Rattle.state_store.specs.Kept.{IsKept};
ghost use Rattle.element_lang.specs.View.{stmt_tree, body_tree, tree};
ghost use Rattle.element_lang.specs.Rules.{is_good};
ghost use Rattle.element_lang.specs.Meaning.{turns, do_stmt, do_body, source_store, source_verdict};
ghost use Rattle.element_interp.specs.Runs.{packet_of, frame_widths, state_of};
ghost use Rattle.element_interp.specs.Flows.{outcome_of};
ghost use Rattle.element_interp.specs.Runnable.{IsRunnableStmt, IsRunnableBody};
ghost use Rattle.packet_fields.specs.Sizes.{largest_packet};

use crate::fields::AssignedFields;
use crate::frame::Frame;
use crate::value::{Variables, fresh_locals, value, values};
use element_lang::{Middlebox, Stmt};
use gal_io::{Bytes, NoMemory};
use packet_fields::{Shape, Verdict};
use state_store::{Put, Store};
use std::alloc::Global;

/// How a stretch of statements leaves a run.
#[derive(Clone, Copy)]
enum Flow {
    /// The run goes on behind the statements.
    Goes,
    /// The run has ended, and the packet goes no further.
    Drops,
    /// The run has ended, and the packet leaves by this port.
    Sends(u8),
}

// The lowest 8 bits.
fn low_byte(value: u64) -> u8
    ensures { result ≡ value % 2 ^ 8 }
{
    (value % 256) as u8
}

#[cycle(run)]
fn run_stmt(frame: &Frame<'_>, s: &Stmt, vars: &mut Variables, store: &mut Store) -> Flow
    requires { IsRunnableStmt (stmt_tree s.now) }
    ensures { outcome_of result (packet_of frame.now) (state_of frame.now vars.new store.new)
        ≡ do_stmt (frame_widths frame.now) (packet_of frame.now) (stmt_tree s.now) (state_of frame.now vars.old store.old) }
{
    match s {
        Stmt::Let { local, value: e } | Stmt::Assign { local, value: e } => {
            let bound = value(frame, e, vars);
            vars.set_local(*local, bound);
            Flow::Goes
        }
        Stmt::SetField { field, value: e } => {
            let assigned = value(frame, e, vars);
            vars.fields.assign(*field, assigned);
            Flow::Goes
        }
        Stmt::Look {
            found,
            into,
            object,
            keys,
        } => {
            let key = values(frame, keys, vars);
            let row = store.get(*object, &key);
            vars.set_local(*found, u64::from(row.found));
            vars.set_locals(into, &row.values);
            Flow::Goes
        }
        Stmt::Put {
            ok,
            object,
            keys,
            values: rows,
        } => {
            let key = values(frame, keys, vars);
            let row = values(frame, rows, vars);
            let stored = store.put(*object, &key, &row) == Put::Stored;
            vars.set_local(*ok, u64::from(stored));
            Flow::Goes
        }
        Stmt::Del { was, object, keys } => {
            let key = values(frame, keys, vars);
            let removed = store.del(*object, &key);
            vars.set_local(*was, u64::from(removed));
            Flow::Goes
        }
        Stmt::If { cond, yes, no } => {
            if value(frame, cond, vars) == 0 {
                run_body(frame, no, vars, store)
            } else {
                run_body(frame, yes, vars, store)
            }
        }
        Stmt::Repeat { index, count, body } => {
            run_turns(frame, *index, *count, body, vars, store)
        }
        Stmt::Send { port } => Flow::Sends(low_byte(value(frame, port, vars))),
        Stmt::Drop => Flow::Drops,
    }
}

// The turns of a repeat.
#[cycle(run)]
fn run_turns(
    frame: &Frame<'_>,
    index: u32,
    count: u8,
    body: &[Stmt],
    vars: &mut Variables,
    store: &mut Store,
) -> Flow
    requires { IsRunnableBody (body_tree body.now) }
    ensures { outcome_of result (packet_of frame.now) (state_of frame.now vars.new store.new)
        ≡ turns count 0 index (do_body (frame_widths frame.now) (packet_of frame.now) (body_tree body.now))
        (state_of frame.now vars.old store.old) }
{
    for turn in 0..count {
        vars.set_local(index, u64::from(turn));
        match run_body(frame, body, vars, store) {
            Flow::Goes => {}
            flow => return flow,
        }
    }
    Flow::Goes
}

#[cycle(run)]
fn run_body(frame: &Frame<'_>, body: &[Stmt], vars: &mut Variables, store: &mut Store) -> Flow
    requires { IsRunnableBody (body_tree body.now) }
    ensures { outcome_of result (packet_of frame.now) (state_of frame.now vars.new store.new)
        ≡ do_body (frame_widths frame.now) (packet_of frame.now) (body_tree body.now) (state_of frame.now vars.old store.old) }
{
    for s in body {
        match run_stmt(frame, s, vars, store) {
            Flow::Goes => {}
            flow => return flow,
        }
    }
    Flow::Goes
}

/// What became of a packet, and its locals, whose memory serves the next run.
#[derive(Drop)]
pub(crate) struct Ran {
    pub verdict: Verdict,
    pub locals: Vec<u64>,
}

/// What becomes of a packet of at most 9,216 bytes that arrives by this port, and what it leaves of the store. The
/// locals lie in `memory` as far as it goes. What else is needed is taken first: where there is none, the store is as
/// before.
pub(crate) fn run_in(
    alloc: Global,
    m: &Middlebox,
    store: &mut Store,
    port: u8,
    packet: &[u8],
    memory: Vec<u64>,
) -> Result<Ran, NoMemory>
    requires good { IsTrue (is_good (tree m.now)) }
    requires size { length packet.now ≤ largest_packet }
    ensures verdict { IfOk result
        (λ ran. ran.verdict ≡ source_verdict (tree m.now) store.old (record { port = port; bytes = packet.now })) }
    ensures store { OnOk result
        (store.new ≡ source_store (tree m.now) store.old (record { port = port; bytes = packet.now })) }
    ensures err { OnErr result (store.new ≡ store.old) }
    ensures kept { IsKept (tree m.now).objects store.old → IsKept (tree m.now).objects store.new }
{
    let shape = Shape::of(packet);
    let mut bytes = packet.to_vec(alloc)?;
    let mut vars = Variables {
        locals: fresh_locals(memory, m.locals.len())?,
        fields: AssignedFields::none(),
    };
    let frame = Frame {
        locals: m.locals.as_slice(),
        port,
        bytes: packet,
        shape,
    };
    match run_body(&frame, &m.body, &mut vars, store) {
        Flow::Goes | Flow::Drops => Ok(Ran {
            verdict: Verdict::Drop,
            locals: vars.locals,
        }),
        Flow::Sends(port) => {
            vars.fields.write(&mut bytes, &frame.shape);
            Ok(Ran {
                verdict: Verdict::Send(port, Bytes::from(bytes)),
                locals: vars.locals,
            })
        }
    }
}

/// What becomes of a packet of at most 9,216 bytes that arrives by this port, and what it leaves of the store. The
/// memory is taken first: where there is none, the store is as before. A store that keeps what was declared still does
/// after the run.
pub fn run(
    alloc: Global,
    m: &Middlebox,
    store: &mut Store,
    port: u8,
    packet: &[u8],
) -> Result<Verdict, NoMemory>
    requires good { IsTrue (is_good (tree m.now)) }
    requires size { length packet.now ≤ largest_packet }
    ensures verdict { IfOk result
        (λ verdict. verdict ≡ source_verdict (tree m.now) store.old (record { port = port; bytes = packet.now })) }
    ensures store { OnOk result
        (store.new ≡ source_store (tree m.now) store.old (record { port = port; bytes = packet.now })) }
    ensures err { OnErr result (store.new ≡ store.old) }
    ensures kept { IsKept (tree m.now).objects store.old → IsKept (tree m.now).objects store.new }
{
    let ran = run_in(alloc, m, store, port, packet, Vec::new(alloc))?;
    Ok(ran.verdict)
}
