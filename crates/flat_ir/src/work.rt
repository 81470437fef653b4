//! What an instruction gives, and what it changes.
ghost use Rattle.std.specs.Prelude.{◌≡◌, ◌≤◌, ◌&&◌, ◌∷◌, [], true, false, length, map, slice_get, slice_index};
ghost use Rattle.std.specs.Prelude.{is_some, IsTrue};
ghost use Rattle.gal_bits.specs.Operators.{bit, operator_row, value_of as operator_value};
ghost use Rattle.gal_bits.specs.declared.op.Op.TheVariants.{Select};
ghost use Rattle.packet_fields.specs.Shape.{shape_of};
ghost use Rattle.packet_fields.specs.Sizes.{largest_packet};
ghost use Rattle.state_store.specs.Store.{Store as Objects, object_at, look as found_in, put_answer, is_stored};
ghost use Rattle.flat_ir.specs.Program.{work_of, program_of};
ghost use Rattle.flat_ir.specs.Blocks.{is_live, HasLowParents};
ghost use Rattle.flat_ir.specs.Kinds.{is_look, is_write};
ghost use Rattle.flat_ir.specs.Run.{change_of, del_change, looked, made, put_change, results};
ghost use Rattle.flat_ir.specs.Run.{with_changes};
ghost use Rattle.flat_ir.specs.Fits.{fits, fits_keys, fits_values, widths_of};
ghost use Rattle.flat_ir.specs.Operands.{CanRun, HasFewKeys};
ghost use Rattle.flat_ir.specs.Registers.{results_of, packet_of};

use crate::blocks::is_live;
use crate::program::{Flat, Instr, InstrKind, ValueId};
use crate::reading::{Lookup, Numbers, read_all};
use crate::registers::Results;
use gal_bits::{Op, Values, Width, eval};
use packet_fields::{Shape, get};
use state_store::{Put, Store};

/// A packet as it arrived, with the places of its headers.
#[derive(Clone, Copy)]
pub struct Arrival<'a> {
    pub port: u8,
    pub bytes: &'a [u8],
    pub shape: Shape,
}

// The byte at an index, 0 past the end.
fn byte_at(bytes: &[u8], index: u64) -> u64
    ensures { result ≡ slice_index bytes.now index }
{
    let place = index as usize;
    if place < bytes.len() {
        u64::from(bytes[place])
    } else {
        0
    }
}

/// What a look gives: 1 and the values where the key is there, and zeros where it isn't.
pub fn look<L: Lookup, R: Numbers>(
    tables: &L,
    numbers: &R,
    object: u32,
    keys: &[ValueId],
) -> Results
    requires { length keys.now ≤ 8 }
    ensures { results_of result ≡ looked (L.seen tables.now) object (map (R.reads numbers.now) keys.now) }
{
    let row = tables.find(object, &read_all(numbers, keys));
    Results {
        first: u64::from(row.found),
        others: row.values,
    }
}

// The value of an operator.
fn applied<R: Numbers>(numbers: &R, op: Op, width: Width, args: &[ValueId]) -> u64
    requires arity { length args.now ≡ (operator_row op).arity }
    requires few_args { length args.now ≤ 8 }
    ensures { result ≡ operator_value op width (map (R.reads numbers.now) args.now) }
{
    match args {
        [x] => eval(op, width, &[numbers.number(*x)]),
        [x, y] => eval(op, width, &[numbers.number(*x), numbers.number(*y)]),
        [x, y, z] => eval(
            op,
            width,
            &[numbers.number(*x), numbers.number(*y), numbers.number(*z)],
        ),
        _ => eval(op, width, read_all(numbers, args).as_slice()),
    }
}

// The second value where the first is 1, else the third. Only the one that is taken is read.
#[tactic(auto, unfolding(gal_bits::specs::Operators::value_of))]
fn selected<R: Numbers>(
    numbers: &R,
    width: Width,
    cond: ValueId,
    first: ValueId,
    second: ValueId,
) -> u64
    ensures { let reads = R.reads numbers.now in
        result ≡ operator_value Select width (reads cond ∷ reads first ∷ reads second ∷ []) }
{
    let number = if numbers.number(cond) == 1 {
        numbers.number(first)
    } else {
        numbers.number(second)
    };
    eval(Op::Cast, width, &[number])
}

/// The number that an instruction other than a look gives where nothing is stored or removed.
pub fn given_number<R: Numbers>(arrival: &Arrival<'_>, numbers: &R, kind: &InstrKind) -> u64
    requires number { is_look (work_of kind.now) ≡ false }
    requires can { CanRun (work_of kind.now) }
    requires size { length arrival.now.bytes.now ≤ largest_packet }
    requires shape { arrival.now.shape ≡ shape_of arrival.now.bytes.now }
    ensures { (st : Objects)
        → results (R.reads numbers.now) false st (packet_of arrival.now) (work_of kind.now) ≡ result ∷ [] }
{
    match kind {
        InstrKind::Const(_, number) => *number,
        InstrKind::Field(field) => get(arrival.bytes, arrival.port, &arrival.shape, *field),
        InstrKind::Apply { op, width, args } => applied(numbers, *op, *width, args),
        InstrKind::Shift { op, width, arg, by } => {
            eval(*op, *width, &[numbers.number(*arg), u64::from(*by)])
        }
        InstrKind::Select {
            width,
            cond,
            first,
            second,
        } => { selected(numbers, *width, *cond, *first, *second) }
        InstrKind::Byte(index) => byte_at(arrival.bytes, numbers.number(*index)),
        InstrKind::Look { .. } => unreachable!(),
        InstrKind::Put { .. } => 0,
        InstrKind::Del { .. } => 0,
    }
}

/// The results of an instruction where nothing is stored or removed.
pub fn given<L: Lookup, R: Numbers>(
    tables: &L,
    arrival: &Arrival<'_>,
    numbers: &R,
    kind: &InstrKind,
) -> Results
    requires can { CanRun (work_of kind.now) }
    requires size { length arrival.now.bytes.now ≤ largest_packet }
    requires shape { arrival.now.shape ≡ shape_of arrival.now.bytes.now }
    ensures { results_of result
        ≡ results (R.reads numbers.now) false (L.seen tables.now) (packet_of arrival.now) (work_of kind.now) }
{
    match kind {
        InstrKind::Look { object, keys } => look(tables, numbers, *object, keys),
        _ => Results::one(given_number(arrival, numbers, kind)),
    }
}

// No object has more than 8 numbers in a key.
fn are_few(f: &Flat, object: u32, keys: &[ValueId])
    requires { IsTrue (fits_keys (slice_get f.now.objects object) (widths_of (program_of f.now) keys.now)) }
    ensures { length keys.now ≤ 8 }
{
    let declared = &f.objects.as_slice()[object as usize];
    prove!(keys.len() == declared.keys.len());
}

// A key that is looked up has at most 8 numbers.
fn has_few_keys(f: &Flat, kind: &InstrKind)
    requires { IsTrue (fits (program_of f.now) (work_of kind.now)) }
    ensures { HasFewKeys (work_of kind.now) }
{
    match kind {
        InstrKind::Look { object, keys } => are_few(f, *object, keys),
        _ => {}
    }
}

/// An instruction that fits its program can be computed from numbers and tables alone.
pub fn what_fits_can_run(f: &Flat, kind: &InstrKind)
    requires { IsTrue (fits (program_of f.now) (work_of kind.now)) }
    ensures { CanRun (work_of kind.now) }
{
    has_few_keys(f, kind);
}

/// The key of an object.
pub fn key_of<R: Numbers>(f: &Flat, numbers: &R, object: u32, keys: &[ValueId]) -> Values
    requires { IsTrue (fits_keys (slice_get f.now.objects object) (widths_of (program_of f.now) keys.now)) }
    ensures { result ≡ map (R.reads numbers.now) keys.now }
{
    are_few(f, object, keys);
    read_all(numbers, keys)
}

/// The values of a row of an object.
pub fn row_of<R: Numbers>(f: &Flat, numbers: &R, object: u32, values: &[ValueId]) -> Values
    requires { IsTrue (fits_values (slice_get f.now.objects object) (widths_of (program_of f.now) values.now)) }
    ensures { result ≡ map (R.reads numbers.now) values.now }
{
    let declared = &f.objects.as_slice()[object as usize];
    prove!(values.len() == declared.values.len());
    read_all(numbers, values)
}

// Stores a row, and answers whether there was a place for it.
fn put_row(store: &mut Store, object: u32, key: &Values, row: &Values) -> bool
    ensures stored { result ≡ is_stored (put_answer (object_at store.old object) key.now) }
    ensures after { store.new ≡ with_changes store.old (made true (put_change store.old object key.now row.now)) }
{
    match store.put(object, key, row) {
        Put::Stored => true,
        Put::Full => false,
        Put::OutOfRange => false,
    }
}

// Removes a row, and answers whether it was there.
fn del_row(store: &mut Store, object: u32, key: &Values) -> bool
    ensures was { result ≡ is_some (found_in (object_at store.old object) key.now) }
    ensures after { store.new ≡ with_changes store.old (made true (del_change store.old object key.now)) }
{
    let was = store.get(object, key).found;
    if was {
        store.del(object, key);
    }
    was
}

// Stores or removes a row, where the instruction is a put or a del. It answers whether that took effect.
fn write<R: Numbers>(f: &Flat, store: &mut Store, numbers: &R, kind: &InstrKind) -> bool
    requires fits { IsTrue (fits (program_of f.now) (work_of kind.now)) }
    ensures told { bit result ≡ length (made true (change_of (R.reads numbers.now) store.old (work_of kind.now))) }
    ensures after { store.new
        ≡ with_changes store.old (made true (change_of (R.reads numbers.now) store.old (work_of kind.now))) }
{
    match kind {
        InstrKind::Put {
            object,
            keys,
            values,
        } => {
            let key = key_of(f, numbers, *object, keys);
            let row = row_of(f, numbers, *object, values);
            put_row(store, *object, &key, &row)
        }
        InstrKind::Del { object, keys } => {
            let key = key_of(f, numbers, *object, keys);
            del_row(store, *object, &key)
        }
        _ => false,
    }
}

// Whether an instruction is a put or a del in a block that is live. No other asks whether its block is live.
fn is_live_write<R: Numbers>(f: &Flat, numbers: &R, instr: &Instr) -> bool
    requires parents { HasLowParents f.now.blocks }
    requires block_in_range { instr.now.block ≤ length f.now.blocks }
    ensures { result
        ≡ (is_write (work_of instr.now.kind) && is_live f.now.blocks (R.reads numbers.now) instr.now.block) }
{
    instr.kind.is_write() && is_live(f.blocks.as_slice(), numbers, instr.block)
}

// Stores or removes a row, where the instruction is a put or a del in a block that is live. It answers whether that
// took effect.
fn take_effect<R: Numbers>(f: &Flat, store: &mut Store, numbers: &R, instr: &Instr) -> bool
    requires fits { IsTrue (fits (program_of f.now) (work_of instr.now.kind)) }
    requires parents { HasLowParents f.now.blocks }
    requires block_in_range { instr.now.block ≤ length f.now.blocks }
    ensures told { let reads = R.reads numbers.now in
        bit result ≡ length (made (is_live f.now.blocks reads instr.now.block)
        (change_of reads store.old (work_of instr.now.kind))) }
    ensures after { let reads = R.reads numbers.now in
        store.new ≡ with_changes store.old (made (is_live f.now.blocks reads instr.now.block)
        (change_of reads store.old (work_of instr.now.kind))) }
{
    if is_live_write(f, numbers, instr) {
        write(f, store, numbers, &instr.kind)
    } else {
        false
    }
}

/// The number that an instruction other than a look gives. A put or a del in a block that is live changes the store.
pub fn compute_number<R: Numbers>(
    f: &Flat,
    store: &mut Store,
    arrival: &Arrival<'_>,
    numbers: &R,
    instr: &Instr,
) -> u64
    requires number { is_look (work_of instr.now.kind) ≡ false }
    requires fits { IsTrue (fits (program_of f.now) (work_of instr.now.kind)) }
    requires parents { HasLowParents f.now.blocks }
    requires block_in_range { instr.now.block ≤ length f.now.blocks }
    requires size { length arrival.now.bytes.now ≤ largest_packet }
    requires shape { arrival.now.shape ≡ shape_of arrival.now.bytes.now }
    ensures number { let reads = R.reads numbers.now in
        results reads (is_live f.now.blocks reads instr.now.block) store.old (packet_of arrival.now)
        (work_of instr.now.kind) ≡ result ∷ [] }
    ensures after { let reads = R.reads numbers.now in
        store.new ≡ with_changes store.old (made (is_live f.now.blocks reads instr.now.block)
        (change_of reads store.old (work_of instr.now.kind))) }
{
    what_fits_can_run(f, &instr.kind);
    if take_effect(f, store, numbers, instr) {
        1
    } else {
        given_number(arrival, numbers, &instr.kind)
    }
}

/// The results of an instruction. A put or a del in a block that is live changes the store.
pub fn compute<R: Numbers>(
    f: &Flat,
    store: &mut Store,
    arrival: &Arrival<'_>,
    numbers: &R,
    instr: &Instr,
) -> Results
    requires fits { IsTrue (fits (program_of f.now) (work_of instr.now.kind)) }
    requires parents { HasLowParents f.now.blocks }
    requires block_in_range { instr.now.block ≤ length f.now.blocks }
    requires size { length arrival.now.bytes.now ≤ largest_packet }
    requires shape { arrival.now.shape ≡ shape_of arrival.now.bytes.now }
    ensures results { let reads = R.reads numbers.now in
        results_of result ≡ results reads (is_live f.now.blocks reads instr.now.block) store.old
        (packet_of arrival.now) (work_of instr.now.kind) }
    ensures after { let reads = R.reads numbers.now in
        store.new ≡ with_changes store.old (made (is_live f.now.blocks reads instr.now.block)
        (change_of reads store.old (work_of instr.now.kind))) }
{
    what_fits_can_run(f, &instr.kind);
    match &instr.kind {
        InstrKind::Look { object, keys } => look(store, numbers, *object, keys),
        _ => Results::one(compute_number(f, store, arrival, numbers, instr)),
    }
}
