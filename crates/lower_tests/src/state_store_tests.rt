//! What no clause can say: that calls succeed with ample memory.
use crate::samples::{declared, values, widths};
use gal_io::{CopyIn, NoMemory};
use state_store::{Kind, Listing, ObjectDecl, Objects, Put, Row, Rows, Store};
use std::alloc::Global;
use std::process::Abort;
use std::test::Fail;

const TABLE: u32 = 0;

const MAP: u32 = 1;

const VECTOR: u32 = 2;

const INT: u32 = 3;

const WIDE: u32 = 4;

const NONE: u32 = 5;

// Of 32 bits each.
fn of_words(
    alloc: Global,
    kind: Kind,
    keys: usize,
    values: usize,
    size: u32,
) -> Result<ObjectDecl, NoMemory> {
    declared(alloc, kind, widths(32, keys), widths(32, values), size)
}

// Of two rows.
fn table(alloc: Global) -> Result<ObjectDecl, NoMemory> {
    let mut table = of_words(alloc, Kind::Table, 1, 2, 2)?;
    for (key, numbers) in [(80, [1, 2]), (22, [3, 4])] {
        table.rows.push(Row {
            keys: values(&[key]),
            values: values(&numbers),
        })?;
    }
    Ok(table)
}

// An integer that starts at 7.
fn int(alloc: Global) -> Result<ObjectDecl, NoMemory> {
    let mut int = of_words(alloc, Kind::Int, 0, 1, 1)?;
    int.start = 7;
    Ok(int)
}

fn add(objects: &mut Objects, declared: Result<ObjectDecl, NoMemory>) -> Result<(), NoMemory> {
    objects.push(declared?)
}

// A table of two rows, a map of two, a vector of three, an integer that starts at 7, and a map of 8 numbers a key.
fn objects(alloc: Global) -> Result<Objects, NoMemory> {
    let mut objects = Objects::new(alloc);
    add(&mut objects, table(alloc))?;
    add(&mut objects, of_words(alloc, Kind::Map, 2, 1, 2))?;
    add(&mut objects, of_words(alloc, Kind::Vector, 1, 1, 3))?;
    add(&mut objects, int(alloc))?;
    add(&mut objects, of_words(alloc, Kind::Map, 8, 1, 4))?;
    Ok(objects)
}

// One call and what it answers.
#[derive(Clone, Copy)]
enum Call {
    Finds(u32, &'static [u64], &'static [u64]),
    Lacks(u32, &'static [u64], &'static [u64]),
    Puts(u32, &'static [u64], &'static [u64], Put),
    Dels(u32, &'static [u64], bool),
    Lists(u32, &'static [(&'static [u64], &'static [u64])]),
}

use Call::{Dels, Finds, Lacks, Lists, Puts};

// Whether a lookup finds a row or none, and gives these values.
fn gives(store: &Store, object: u32, key: &[u64], found: bool, wanted: &[u64]) -> bool {
    let got = store.get(object, &values(key));
    got.found == found && got.values == values(wanted)
}

type Wanted<'a> = &'a [(&'a [u64], &'a [u64])];

fn is_row(row: &Row, wanted: &(&[u64], &[u64])) -> bool {
    row.keys == values(wanted.0) && row.values == values(wanted.1)
}

fn are_rows(rows: &Rows, wanted: Wanted) -> bool {
    let mut all = rows.len() == wanted.len();
    for (place, other) in wanted.iter().enumerate() {
        all = all && place < rows.len() && is_row(&rows.at(place), other);
    }
    all
}

fn is_listed(listing: &Listing, place: usize, wanted: &(&[u64], &[u64])) -> bool {
    match listing.get(place) {
        Some(row) => is_row(&row, wanted),
        None => false,
    }
}

fn are_listed(listing: &Listing, wanted: Wanted) -> bool {
    let mut all = listing.len() == wanted.len();
    for (place, row) in wanted.iter().enumerate() {
        all = all && is_listed(listing, place, row);
    }
    all
}

// Whether an object has these rows, by a copy of them.
fn holds(alloc: Global, store: &Store, object: u32, wanted: Wanted) -> Result<bool, NoMemory> {
    Ok(are_rows(&store.rows(alloc, object)?, wanted))
}

// Whether they are listed so.
fn lists(alloc: Global, store: &Store, object: u32, wanted: Wanted) -> Result<bool, NoMemory> {
    Ok(are_listed(&store.list(alloc, object)?, wanted))
}

fn answers(store: &mut Store, call: &Call) -> bool {
    match call {
        Finds(object, key, wanted) => gives(store, *object, key, true, wanted),
        Lacks(object, key, wanted) => gives(store, *object, key, false, wanted),
        Puts(object, key, numbers, answer) => {
            store.put(*object, &values(key), &values(numbers)) == *answer
        }
        Dels(object, key, was) => store.del(*object, &values(key)) == *was,
        Lists(..) => false,
    }
}

fn is_answered(alloc: Global, store: &mut Store, call: &Call) -> Result<bool, NoMemory> {
    match call {
        Lists(object, wanted) => {
            Ok(holds(alloc, store, *object, wanted)? && lists(alloc, store, *object, wanted)?)
        }
        _ => Ok(answers(store, call)),
    }
}

// A table has its declared rows.
const OF_A_TABLE: [Call; 4] = [
    Lists(TABLE, &[(&[22], &[3, 4]), (&[80], &[1, 2])]),
    Finds(TABLE, &[80], &[1, 2]),
    Lacks(TABLE, &[79], &[0, 0]),
    Puts(TABLE, &[79], &[5, 6], Put::Full),
];

// A map starts empty, and is full at its capacity.
const OF_A_MAP: [Call; 12] = [
    Lists(MAP, &[]),
    Lacks(MAP, &[1, 1], &[0]),
    Dels(MAP, &[1, 1], false),
    Puts(MAP, &[1, 2], &[12], Put::Stored),
    Puts(MAP, &[1, 1], &[11], Put::Stored),
    Puts(MAP, &[1, 3], &[13], Put::Full),
    Puts(MAP, &[1, 2], &[102], Put::Stored),
    Lists(MAP, &[(&[1, 1], &[11]), (&[1, 2], &[102])]),
    Dels(MAP, &[1, 1], true),
    Lacks(MAP, &[1, 1], &[0]),
    Puts(MAP, &[0, 9], &[9], Put::Stored),
    Lists(MAP, &[(&[0, 9], &[9]), (&[1, 2], &[102])]),
];

// A vector has a row for each index below its length. A row of it may go, and a row of other numbers may come.
const OF_A_VECTOR: [Call; 10] = [
    Finds(VECTOR, &[2], &[0]),
    Lacks(VECTOR, &[3], &[0]),
    Puts(VECTOR, &[2], &[5], Put::Stored),
    Puts(VECTOR, &[3], &[6], Put::OutOfRange),
    Lists(VECTOR, &[(&[0], &[0]), (&[1], &[0]), (&[2], &[5])]),
    Dels(VECTOR, &[1], true),
    Lacks(VECTOR, &[1], &[0]),
    Puts(VECTOR, &[1], &[4_294_967_296], Put::Stored),
    Puts(VECTOR, &[0], &[7, 8], Put::Stored),
    Lists(
        VECTOR,
        &[(&[0], &[7, 8]), (&[1], &[4_294_967_296]), (&[2], &[5])],
    ),
];

// An integer has one row, and a number of no object has no rows, and room for none.
const OF_ONE_ROW_AND_OF_NONE: [Call; 7] = [
    Finds(INT, &[], &[7]),
    Puts(INT, &[], &[8], Put::Stored),
    Lists(INT, &[(&[], &[8])]),
    Lacks(NONE, &[], &[]),
    Puts(NONE, &[], &[1], Put::Full),
    Dels(NONE, &[], false),
    Lists(NONE, &[]),
];

// Keys go by their first difference.
const OF_WIDE_KEYS: [Call; 5] = [
    Puts(WIDE, &[1, 2, 3, 4, 5, 6, 7, 9], &[1], Put::Stored),
    Puts(WIDE, &[1, 2, 3, 4, 5, 6, 7, 8], &[2], Put::Stored),
    Puts(WIDE, &[0, 9, 9, 9, 9, 9, 9, 9], &[3], Put::Stored),
    Lacks(WIDE, &[1, 2, 3, 4, 5, 6, 8, 8], &[0]),
    Finds(WIDE, &[1, 2, 3, 4, 5, 6, 7, 8], &[2]),
];

// The place of the first call that isn't answered so, or how many they are.
fn first_missed(alloc: Global, store: &mut Store, calls: &[Call]) -> Result<usize, NoMemory> {
    for (place, call) in calls.iter().enumerate() {
        if !is_answered(alloc, store, call)? {
            return Ok(place);
        }
    }
    Ok(calls.len())
}

fn new_store(alloc: Global) -> Result<Store, NoMemory> {
    Store::new(alloc, &objects(alloc)?)
}

fn first_missed_of_a_store(alloc: Global, calls: &[Call]) -> Result<usize, NoMemory> {
    first_missed(alloc, &mut new_store(alloc)?, calls)
}

fn all_are_answered(rt: &impl Abort, alloc: Global, calls: &[Call]) -> Result<(), NoMemory> {
    assert_eq!(rt; first_missed_of_a_store(alloc, calls)?, calls.len());
    Ok(())
}

#[test]
fn a_table_answers(rt: HostRuntime) -> Result<(), Fail> {
    Ok(all_are_answered(&rt, rt.alloc(), &OF_A_TABLE)?)
}

#[test]
fn a_map_answers(rt: HostRuntime) -> Result<(), Fail> {
    Ok(all_are_answered(&rt, rt.alloc(), &OF_A_MAP)?)
}

#[test]
fn a_vector_answers(rt: HostRuntime) -> Result<(), Fail> {
    Ok(all_are_answered(&rt, rt.alloc(), &OF_A_VECTOR)?)
}

#[test]
fn one_row_and_none_answer(rt: HostRuntime) -> Result<(), Fail> {
    Ok(all_are_answered(&rt, rt.alloc(), &OF_ONE_ROW_AND_OF_NONE)?)
}

#[test]
fn wide_keys_answer(rt: HostRuntime) -> Result<(), Fail> {
    Ok(all_are_answered(&rt, rt.alloc(), &OF_WIDE_KEYS)?)
}

fn are_objects_copied(alloc: Global) -> Result<bool, NoMemory> {
    let objects = objects(alloc)?;
    let copy = objects.copy(alloc)?;
    Ok(copy.len() == 5 && !copy.is_empty())
}

// Whether a put into a store leaves its copy.
fn is_apart(store: &mut Store, copy: &Store) -> bool {
    let answer = store.put(INT, &values(&[]), &values(&[9]));
    let is_left = gives(copy, INT, &[], true, &[7]);
    answer == Put::Stored && is_left && gives(store, INT, &[], true, &[9])
}

// Whether a copy of the rows of a map has none.
fn has_no_rows(alloc: Global, store: &Store) -> Result<bool, NoMemory> {
    let copy = store.rows(alloc, MAP)?.copy(alloc)?;
    Ok(copy.is_empty())
}

// Whether a copy of a store has no rows of a map, and a put into the store leaves it.
fn is_copied_apart(alloc: Global, store: &mut Store) -> Result<bool, NoMemory> {
    let copy = store.copy(alloc)?;
    Ok(is_apart(store, &copy) && has_no_rows(alloc, &copy)?)
}

fn is_copy_apart(alloc: Global) -> Result<bool, NoMemory> {
    is_copied_apart(alloc, &mut new_store(alloc)?)
}

fn is_none_listed(alloc: Global, store: &Store) -> Result<bool, NoMemory> {
    Ok(store.list(alloc, MAP)?.is_empty())
}

fn is_empty_map_listed(alloc: Global) -> Result<bool, NoMemory> {
    is_none_listed(alloc, &new_store(alloc)?)
}

#[test]
fn copies_are_apart(rt: HostRuntime) -> Result<(), Fail> {
    assert!(rt; are_objects_copied(rt.alloc())?);
    assert!(rt; is_copy_apart(rt.alloc())?);
    assert!(rt; is_empty_map_listed(rt.alloc())?);
    Ok(())
}
