//! Frames from outside, and what the server makes of them.
ghost use Rattle.std.specs.Prelude.{◌≡◌, ◌≤◌, [], IfOk};
ghost use Rattle.flat_ir.specs.Program.{program_of};
ghost use Rattle.split_model.specs.Bounds.{IsBounded};
ghost use Rattle.split_model.specs.Legal.{IsLegal};
ghost use Rattle.state_store.specs.Kept.{IsKept};
ghost use Rattle.state_store.specs.Store.{start_store};

use crate::samples::{DOWN, MARK, MARKED, Step, UP, chain, code_of, marking, out, split_of};
use flat_ir::{Blocks, Flat};
use gal_bits::Values;
use gal_io::NoMemory;
use packet_fields::Field;
use partition::all_on_server;
use server_runtime::{ServeError, Served, Server};
use split_model::{Split, is_bounded};
use state_store::{Objects, Store};
use std::alloc::Global;
use std::test::Fail;
use writeback_table::{To, Updates};

// A server that begins, of a program that is split.
fn begun(alloc: Global, f: &Flat, split: &Split) -> Result<Server, NoMemory>
    requires bounded { IsBounded (program_of f.now) }
    requires legal { IsLegal (program_of f.now) split.now }
    requires kept { IsKept f.now.objects (start_store f.now.objects) }
{
    let store = Store::new(alloc, &f.objects)?;
    Server::new(alloc, f, split, store)
}

// A server that leaves to the switch what it can do.
fn beside_a_switch(
    alloc: Global,
    f: &Flat,
    stages: u32,
    transfer_bytes: u32,
) -> Result<Server, Fail>
    requires kept { IsKept f.now.objects (start_store f.now.objects) }
    requires stages { stages ≤ 4096 }
    requires least { 2 ≤ transfer_bytes }
    requires most { transfer_bytes ≤ 65535 }
{
    let split = split_of(alloc, f, stages, transfer_bytes, true)?;
    Ok(begun(alloc, f, &split)?)
}

// A server that does all of a program.
fn alone(alloc: Global, f: &Flat) -> Result<Server, Fail>
    requires { IsKept f.now.objects (start_store f.now.objects) }
{
    if !is_bounded(f) {
        return Err(Fail::from("not bounded"));
    }
    let split = all_on_server(alloc, f)?;
    Ok(begun(alloc, f, &split)?)
}

// What comes of a frame.
#[derive(Clone, Copy)]
struct Wanted<'a> {
    number: u32,
    down: &'a [u8],
    version: u32,
    is_told: bool,
}

// Whether there is one update alone, by which 9 has 5 in object 0.
fn is_mark(updates: &Updates) -> bool {
    match updates.as_slice() {
        [update] => {
            let is_five = match update.to {
                To::Value(values) => values.as_slice() == [5].as_slice(),
                To::Gone => false,
            };
            update.object == 0 && update.key.as_slice() == [9].as_slice() && is_five
        }
        _ => false,
    }
}

fn is_wanted(served: &Served, wanted: &Wanted) -> bool {
    served.number == wanted.number
        && served.down.as_slice() == wanted.down
        && served.version == wanted.version
        && is_mark(&served.updates) == wanted.is_told
        && served.updates.is_empty() != wanted.is_told
}

fn serves(server: &mut Server, frame: &[u8], wanted: &Wanted) -> bool {
    if server.version() == u32::MAX {
        return false;
    }
    match server.serve(frame) {
        Ok(served) => is_wanted(&served, wanted),
        Err(_) => false,
    }
}

// Whether a server refuses a frame as malformed.
fn is_malformed(server: &mut Server, frame: &[u8]) -> bool {
    if server.version() == u32::MAX {
        return false;
    }
    matches!(server.serve(frame), Err(ServeError::Malformed))
}

// Whether 9 has 5 in an object.
fn has_mark(server: &Server, object: u32) -> bool {
    let mut key = Values::new();
    key.push(9);
    let row = server.store().get(object, &key);
    row.found && row.values.as_slice() == [5].as_slice()
}

// A server for the chain of sums, of which all but the last cut is done before it, and the cut behind it.
#[tactic(auto, using(crate::proofs::Kept::begins_kept))]
fn chained(alloc: Global) -> Result<Server, Fail> {
    let f = chain(alloc)?;
    beside_a_switch(alloc, &f, 3, 3)
}

// A server that computes nothing hands on what it is handed, also where preprocessing would give other numbers.
fn hands_on(server: &mut Server) -> bool {
    let mut wanted = Wanted {
        number: 0,
        down: &DOWN,
        version: 0,
        is_told: false,
    };
    let is_first = serves(server, &UP, &wanted);
    let mut up = UP;
    up[7] = 0xff;
    let mut down = DOWN;
    down[7] = 0x7f;
    wanted.down = &down;
    let is_second = serves(server, &up, &wanted);
    is_first && is_second && server.version() == 0 && server.evaluated() == 0
}

fn is_handed_on(alloc: Global) -> Result<bool, Fail> {
    let mut server = chained(alloc)?;
    Ok(hands_on(&mut server))
}

#[test]
fn hands_on_what_it_is_handed(rt: HostRuntime) -> Result<(), Fail> {
    assert!(rt; is_handed_on(rt.alloc())?);
    Ok(())
}

// A server that marks, beside a switch that looks up.
fn marker(alloc: Global) -> Result<Server, Fail> {
    let f = marking(alloc)?;
    beside_a_switch(alloc, &f, 32, 64)
}

fn marks(server: &mut Server, version: u32) -> bool {
    let wanted = Wanted {
        number: 258,
        down: &MARKED,
        version,
        is_told: true,
    };
    serves(server, &MARK, &wanted) && server.version() == version && server.evaluated() == 3
}

// A put of the values that are there makes a version too.
fn marks_twice(server: &mut Server) -> bool {
    marks(server, 1) && marks(server, 2) && has_mark(server, 0) && has_mark(server, 1)
}

fn tells_of_marks(alloc: Global) -> Result<bool, Fail> {
    let mut server = marker(alloc)?;
    Ok(marks_twice(&mut server))
}

fn leaves_all(server: &mut Server) -> bool {
    let mut all = is_malformed(server, &MARKED);
    for end in 0..6 {
        all = all && is_malformed(server, &MARK[..end]);
    }
    all && server.version() == 0 && server.evaluated() == 0 && !has_mark(server, 0)
}

fn leaves_all_of_a_marker(alloc: Global) -> Result<bool, Fail> {
    let mut server = marker(alloc)?;
    Ok(leaves_all(&mut server))
}

#[test]
fn tells_of_replicated_objects_alone(rt: HostRuntime) -> Result<(), Fail> {
    assert!(rt; tells_of_marks(rt.alloc())?);
    Ok(())
}

#[test]
fn leaves_all_at_malformed_frames(rt: HostRuntime) -> Result<(), Fail> {
    assert!(rt; leaves_all_of_a_marker(rt.alloc())?);
    Ok(())
}

// A server that marks, alone.
fn lone_marker(alloc: Global) -> Result<Server, Fail> {
    let f = marking(alloc)?;
    alone(alloc, &f)
}

fn marks_silently(server: &mut Server) -> bool {
    let wanted = Wanted {
        number: 258,
        down: &MARKED,
        version: 0,
        is_told: false,
    };
    serves(server, &MARK, &wanted) && has_mark(server, 0)
}

fn is_marked_silently(alloc: Global) -> Result<bool, Fail> {
    let mut server = lone_marker(alloc)?;
    Ok(marks_silently(&mut server))
}

#[test]
fn has_no_versions_of_other_objects(rt: HostRuntime) -> Result<(), Fail> {
    assert!(rt; is_marked_silently(rt.alloc())?);
    Ok(())
}

const ECHO: [Step; 4] = [
    Step::Const(1, 0),
    Step::Const(1, 1),
    Step::Const(8, 0),
    Step::Field(Field::MetaPort),
];

// Packets leave by the port by which they came.
fn echoing(alloc: Global) -> Result<Flat, Fail>
    ensures { IfOk result (λ f. f.objects ≡ []) }
{
    let code = code_of(alloc, &ECHO)?;
    Ok(Flat {
        objects: Objects::new(alloc),
        blocks: Blocks::new(alloc),
        code,
        out: out(alloc, (1, 0), (3, 0)),
    })
}

// A server that does all of it.
#[tactic(auto, using(crate::proofs::Kept::begins_kept))]
fn echo(alloc: Global) -> Result<Server, Fail> {
    let f = echoing(alloc)?;
    alone(alloc, &f)
}

// With 1 in 1 bit and 9 in 8 bits.
const ECHOED: [u8; 9] = [2, 0, 0, 1, 2, 9, 0x84, 0x80, 0xaa];

fn echoes(server: &mut Server) -> bool {
    let wanted = Wanted {
        number: 258,
        down: &ECHOED,
        version: 0,
        is_told: false,
    };
    serves(server, &MARK, &wanted) && server.evaluated() == 0
}

fn is_echoed(alloc: Global) -> Result<bool, Fail> {
    let mut server = echo(alloc)?;
    Ok(echoes(&mut server))
}

#[test]
fn consts_and_fields_are_not_evaluated(rt: HostRuntime) -> Result<(), Fail> {
    assert!(rt; is_echoed(rt.alloc())?);
    Ok(())
}
