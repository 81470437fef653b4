//! What no clause can say: that calls succeed with ample memory.
use crate::samples::{declared, values, widths};
use gal_io::NoMemory;
use state_store::{Kind, ObjectDecl, Row, Rows};
use std::alloc::Global;
use std::test::Fail;
use writeback_table::{Applied, Command, Pair, To, Update};

// The number of the object in every command.
const OBJECT: u32 = 3;

// Keys with their values.
type Wanted = &'static [(&'static [u64], &'static [u64])];

// Of 8 bits each.
fn of_bytes(alloc: Global, kind: Kind, keys: usize, size: u32) -> Result<ObjectDecl, NoMemory> {
    declared(alloc, kind, widths(8, keys), widths(8, 1), size)
}

fn put(key: &[u64], value: u64) -> Update {
    Update {
        object: OBJECT,
        key: values(key),
        to: To::Value(values(&[value])),
    }
}

fn gone(key: &[u64]) -> Update {
    Update {
        object: OBJECT,
        key: values(key),
        to: To::Gone,
    }
}

fn clear(key: &[u64]) -> Command {
    Command::Clear(OBJECT, values(key))
}

// Whether a row is this one, and a lookup finds it.
fn finds(pair: &Pair, bit: bool, row: &Row, key: &[u64], numbers: &[u64]) -> bool {
    let found = pair.look(bit, &row.keys);
    row.keys == values(key) && found.found && found.values == values(numbers)
}

fn is_found(pair: &Pair, bit: bool, row: &Row, key: &[u64], numbers: &[u64]) -> bool {
    finds(pair, bit, row, key, numbers) && row.values == values(numbers)
}

fn are_found(pair: &Pair, bit: bool, rows: &Rows, wanted: Wanted) -> bool {
    let mut all = rows.len() == wanted.len();
    for (place, (key, numbers)) in wanted.iter().enumerate() {
        all = all && place < rows.len() && is_found(pair, bit, &rows.at(place), key, numbers);
    }
    all
}

// Whether lookups see these rows and no others where the bit is this.
fn sees(alloc: Global, pair: &Pair, bit: bool, wanted: Wanted) -> Result<bool, NoMemory> {
    let rows = pair.rows(alloc, bit)?;
    Ok(are_found(pair, bit, &rows, wanted))
}

fn lacks(pair: &Pair, bit: bool, key: &[u64]) -> bool {
    let found = pair.look(bit, &values(key));
    !found.found && found.values == values(&[0])
}

fn is_done(pair: &mut Pair, command: &Command) -> bool {
    pair.apply(command) == Applied::Done
}

fn has_no_room(pair: &mut Pair, command: &Command) -> bool {
    pair.apply(command) == Applied::NoRoom
}

// A map of one row.
fn map_of_one(alloc: Global, writeback: u32) -> Result<Pair, NoMemory> {
    Pair::new(alloc, &of_bytes(alloc, Kind::Map, 1, 1)?, writeback)
}

// A map of one row, which is 1 -> 9.
fn full_map(alloc: Global, writeback: u32) -> Result<Pair, NoMemory> {
    let mut pair = map_of_one(alloc, writeback)?;
    let _ = pair.apply(&Command::Main(put(&[1], 9)));
    Ok(pair)
}

const ONE: Wanted = &[(&[1], &[9])];

const TWO: Wanted = &[(&[2], &[9])];

// The command of row `i` of the table below.
fn command(i: usize) -> Command {
    match i {
        0 => Command::Stage(gone(&[1])),
        1 => Command::Stage(put(&[2], 9)),
        2 => Command::On,
        3 => Command::Main(gone(&[1])),
        4 => Command::Main(put(&[2], 9)),
        5 => Command::Off,
        6 => clear(&[1]),
        _ => clear(&[2]),
    }
}

// After each command the bit, the main table, and what is seen.
const AFTER: [(bool, Wanted, Wanted); 8] = [
    (false, ONE, ONE),
    (false, ONE, ONE),
    (true, ONE, TWO),
    (true, &[], TWO),
    (true, TWO, TWO),
    (false, TWO, TWO),
    (false, TWO, TWO),
    (false, TWO, TWO),
];

// Whether the command of a row has this effect.
fn is_seen_after(
    alloc: Global,
    pair: &mut Pair,
    i: usize,
    after: &(bool, Wanted, Wanted),
) -> Result<bool, NoMemory> {
    let (bit, main, seen) = *after;
    let done = is_done(pair, &command(i));
    Ok(done && sees(alloc, pair, false, main)? && sees(alloc, pair, bit, seen)?)
}

// The row of the first command that has another effect, or 8.
fn first_missed(alloc: Global, pair: &mut Pair) -> Result<usize, NoMemory> {
    for (i, after) in AFTER.iter().enumerate() {
        if !is_seen_after(alloc, pair, i, after)? {
            return Ok(i);
        }
    }
    Ok(8)
}

// Whether each command has its effect, and nothing is staged any more then.
fn is_passed(alloc: Global, pair: &mut Pair) -> Result<bool, NoMemory> {
    let begins = sees(alloc, pair, false, ONE)?;
    let missed = first_missed(alloc, pair)?;
    Ok(begins && missed == 8 && sees(alloc, pair, true, TWO)? && lacks(pair, true, &[1]))
}

fn is_batch_passed(alloc: Global) -> Result<bool, NoMemory> {
    is_passed(alloc, &mut full_map(alloc, 2)?)
}

#[test]
fn a_batch_is_seen_at_once(rt: HostRuntime) -> Result<(), Fail> {
    assert!(rt; is_batch_passed(rt.alloc())?);
    Ok(())
}

fn is_refused_when_full(alloc: Global, pair: &mut Pair) -> Result<bool, NoMemory> {
    let no_room = has_no_room(pair, &Command::Main(put(&[2], 9)));
    Ok(no_room && sees(alloc, pair, false, ONE)?)
}

fn is_staged_once(alloc: Global, pair: &mut Pair) -> Result<bool, NoMemory> {
    let done = is_done(pair, &Command::Stage(gone(&[1])));
    let no_room = has_no_room(pair, &Command::Stage(put(&[2], 9)));
    Ok(done && no_room && sees(alloc, pair, true, &[])? && lacks(pair, true, &[1]))
}

// A key that is staged may be staged again.
fn is_staged_again(alloc: Global, pair: &mut Pair) -> Result<bool, NoMemory> {
    let done = is_done(pair, &Command::Stage(put(&[1], 7)));
    Ok(done && sees(alloc, pair, true, &[(&[1], &[7])])? && sees(alloc, pair, false, ONE)?)
}

fn is_room_kept(alloc: Global, pair: &mut Pair) -> Result<bool, NoMemory> {
    let refused = is_refused_when_full(alloc, pair)?;
    let once = is_staged_once(alloc, pair)?;
    Ok(refused && once && is_staged_again(alloc, pair)?)
}

fn is_room_of_a_map_kept(alloc: Global) -> Result<bool, NoMemory> {
    is_room_kept(alloc, &mut full_map(alloc, 1)?)
}

#[test]
fn a_full_table_has_no_room(rt: HostRuntime) -> Result<(), Fail> {
    assert!(rt; is_room_of_a_map_kept(rt.alloc())?);
    Ok(())
}

fn disturbs(command: &Command, clear_bit: bool, set_bit: bool) -> bool {
    command.disturbs(false) == clear_bit && command.disturbs(true) == set_bit
}

#[test]
fn two_commands_disturb_passes(rt: HostRuntime) {
    assert!(rt; disturbs(&Command::Stage(put(&[1], 2)), false, true));
    assert!(rt; disturbs(&Command::On, false, false));
    assert!(rt; disturbs(&Command::Main(put(&[1], 2)), true, false));
    assert!(rt; disturbs(&Command::Off, false, false));
    assert!(rt; disturbs(&clear(&[1]), false, false));
}

// A vector of two rows.
fn vector_of_two(alloc: Global) -> Result<Pair, NoMemory> {
    Pair::new(alloc, &of_bytes(alloc, Kind::Vector, 1, 2)?, 1)
}

const ZEROS: Wanted = &[(&[0], &[0]), (&[1], &[0])];

const LAST_OF_5: Wanted = &[(&[0], &[0]), (&[1], &[5])];

// A vector has no row beyond its length, and what is staged of it is seen where the bit is set.
fn is_vector_staged(alloc: Global, vector: &mut Pair) -> Result<bool, NoMemory> {
    let no_room = has_no_room(vector, &Command::Main(put(&[2], 5)));
    let done = is_done(vector, &Command::Stage(put(&[1], 5)));
    let main = sees(alloc, vector, false, ZEROS)?;
    Ok(no_room && done && main && sees(alloc, vector, true, LAST_OF_5)?)
}

fn is_vector_kept(alloc: Global) -> Result<bool, NoMemory> {
    is_vector_staged(alloc, &mut vector_of_two(alloc)?)
}

// A number has the empty key, and a write-back table may have room for no row.
fn number(alloc: Global) -> Result<Pair, NoMemory> {
    Pair::new(alloc, &of_bytes(alloc, Kind::Int, 0, 1)?, 0)
}

fn is_number_put(alloc: Global, number: &mut Pair) -> Result<bool, NoMemory> {
    let no_room = has_no_room(number, &Command::Stage(put(&[], 5)));
    let done = is_done(number, &Command::Main(put(&[], 6)));
    Ok(no_room && done && sees(alloc, number, true, &[(&[], &[6])])?)
}

fn is_number_kept(alloc: Global) -> Result<bool, NoMemory> {
    is_number_put(alloc, &mut number(alloc)?)
}

#[test]
fn vectors_and_numbers_have_tables(rt: HostRuntime) -> Result<(), Fail> {
    assert!(rt; is_vector_kept(rt.alloc())?);
    assert!(rt; is_number_kept(rt.alloc())?);
    Ok(())
}

fn are_done(pair: &mut Pair, updates: &[Update]) -> bool {
    let mut all = updates.len() == 2;
    for update in updates {
        let done = is_done(pair, &Command::Main(*update));
        all = all && update.object == OBJECT && done;
    }
    all
}

fn is_list_done(alloc: Global, pair: &mut Pair) -> Result<bool, NoMemory> {
    let done = are_done(pair, &[gone(&[1]), put(&[2], 9)]);
    Ok(done && sees(alloc, pair, false, TWO)?)
}

fn is_list_done_in_a_map(alloc: Global) -> Result<bool, NoMemory> {
    is_list_done(alloc, &mut map_of_one(alloc, 2)?)
}

#[test]
fn changes_are_made_in_order(rt: HostRuntime) -> Result<(), Fail> {
    assert!(rt; is_list_done_in_a_map(rt.alloc())?);
    Ok(())
}
