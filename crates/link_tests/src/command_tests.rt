//! The bytes of commands, made by hand from the layout.
ghost use Rattle.std.specs.Prelude.{◌≡◌};
ghost use Rattle.lossy_link.specs.CommandBytes.{NamesBelow};

use gal_bits::{Values, Widths};
use gal_io::{Bytes, NoMemory};
use lossy_link::{read_command, write_command};
use state_store::{Kind, ObjectDecl, Objects, Rows};
use std::alloc::Global;
use std::test::Fail;
use writeback_table::{Command, To, Update};

// A change that puts 1 and 65,535 under the key 258 of the object 0, staged, and one that takes the key out.
const STAGE: &[u8] = b"\x01\0\0\0\0\0\0\0\x01\x02\x01\0\0\0\0\0\0\0\x01\0\0\0\0\0\0\xff\xff";

const MAIN: &[u8] = b"\x03\0\0\0\0\0\0\0\x01\x02\0";

const CLEAR: &[u8] = b"\x05\0\0\0\0\0\0\0\x01\x02";

// What no command of the object has: nothing, no such kind, a byte too few or too many, no such object, a key of 10
// bits, a first value of 2 bits, and neither a value nor that it is gone.
const REFUSED: [&[u8]; 12] = [
    b"",
    b"\0",
    b"\x06",
    b"\x02\0",
    b"\x04\0",
    b"\x01\0\0\0\0\0\0\0\x01\x02\x01\0\0\0\0\0\0\0\x01\0\0\0\0\0\0\xff",
    b"\x03\0\0\0\0\0\0\0\x01\x02\0\0",
    b"\x05\0\0\0\0\0\0\0\x01",
    b"\x05\x01\0\0\0\0\0\0\x01\x02",
    b"\x05\0\0\0\0\0\0\0\x02\x02",
    b"\x01\0\0\0\0\0\0\0\x01\x02\x01\0\0\0\0\0\0\0\x02\0\0\0\0\0\0\xff\xff",
    b"\x03\0\0\0\0\0\0\0\x01\x02\x02",
];

// At most the first 8 numbers.
fn values(numbers: &[u64]) -> Values {
    let mut list = Values::new();
    for number in numbers {
        if list.len() < 8 {
            list.push(*number);
        }
    }
    list
}

fn widths(bits: &[u64]) -> Widths {
    let mut list = Widths::new();
    for width in bits {
        if list.len() < 8 {
            list.push(*width);
        }
    }
    list
}

// One map, with keys of 9 bits and values of 1 and 16.
fn objects(alloc: Global) -> Result<Objects, NoMemory> {
    let mut objects = Objects::new(alloc);
    objects.push(ObjectDecl {
        name: Bytes::from_slice(alloc, b"m")?,
        kind: Kind::Map,
        keys: widths(&[9]),
        values: widths(&[1, 16]),
        size: 4,
        start: 0,
        rows: Rows::new(alloc),
    })?;
    Ok(objects)
}

fn put() -> Update
    ensures { result.object ≡ 0 }
{
    Update {
        object: 0,
        key: values(&[258]),
        to: To::Value(values(&[1, 65535])),
    }
}

fn gone() -> Update
    ensures { result.object ≡ 0 }
{
    Update {
        object: 0,
        key: values(&[258]),
        to: To::Gone,
    }
}

// Whether the key has the same.
fn same_to(one: &To, other: &To) -> bool {
    match one {
        To::Gone => matches!(other, To::Gone),
        To::Value(values) => match other {
            To::Gone => false,
            To::Value(others) => values == others,
        },
    }
}

fn same_update(one: &Update, other: &Update) -> bool {
    one.object == other.object && one.key == other.key && same_to(&one.to, &other.to)
}

fn is_stage(command: &Command, wanted: &Update) -> bool {
    match command {
        Command::Stage(update) => same_update(update, wanted),
        _ => false,
    }
}

fn is_main(command: &Command, wanted: &Update) -> bool {
    match command {
        Command::Main(update) => same_update(update, wanted),
        _ => false,
    }
}

fn is_clear(command: &Command, number: u32, wanted: &Values) -> bool {
    match command {
        Command::Clear(object, key) => *object == number && key == wanted,
        _ => false,
    }
}

fn same(one: &Command, other: &Command) -> bool {
    match one {
        Command::Stage(update) => is_stage(other, update),
        Command::On => matches!(other, Command::On),
        Command::Main(update) => is_main(other, update),
        Command::Off => matches!(other, Command::Off),
        Command::Clear(object, key) => is_clear(other, *object, key),
    }
}

fn writes(alloc: Global, command: &Command, wanted: &[u8]) -> Result<bool, NoMemory>
    requires { NamesBelow 64 command.now }
{
    Ok(write_command(alloc, command)?.as_slice() == wanted)
}

#[test]
fn commands_are_written(rt: HostRuntime) {
    let alloc = rt.alloc();
    let clear = Command::Clear(0, values(&[258]));
    assert_eq!(rt; writes(alloc, &Command::Stage(put()), STAGE), Ok(true));
    assert_eq!(rt; writes(alloc, &Command::On, b"\x02"), Ok(true));
    assert_eq!(rt; writes(alloc, &Command::Main(gone()), MAIN), Ok(true));
    assert_eq!(rt; writes(alloc, &Command::Off, b"\x04"), Ok(true));
    assert_eq!(rt; writes(alloc, &clear, CLEAR), Ok(true));
}

// Whether the bytes are read as this command.
fn reads(alloc: Global, bytes: &[u8], wanted: &Command) -> Result<bool, NoMemory> {
    let objects = objects(alloc)?;
    match read_command(&objects, bytes) {
        Some(command) => Ok(same(&command, wanted)),
        None => Ok(false),
    }
}

#[test]
fn commands_are_read(rt: HostRuntime) {
    let alloc = rt.alloc();
    let clear = Command::Clear(0, values(&[258]));
    assert_eq!(rt; reads(alloc, STAGE, &Command::Stage(put())), Ok(true));
    assert_eq!(rt; reads(alloc, b"\x02", &Command::On), Ok(true));
    assert_eq!(rt; reads(alloc, MAIN, &Command::Main(gone())), Ok(true));
    assert_eq!(rt; reads(alloc, b"\x04", &Command::Off), Ok(true));
    assert_eq!(rt; reads(alloc, CLEAR, &clear), Ok(true));
}

fn refuses(alloc: Global, bytes: &[u8]) -> Result<bool, NoMemory> {
    let objects = objects(alloc)?;
    Ok(read_command(&objects, bytes).is_none())
}

#[test]
fn other_bytes_are_refused(rt: HostRuntime) {
    for bytes in REFUSED {
        assert_eq!(rt; refuses(rt.alloc(), bytes), Ok(true), "{}", bytes.len());
    }
}
