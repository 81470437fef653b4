//! The bytes of commands: a byte for the kind, which is 1 to stage a change, 2 to set the bit, 3 to make a change, 4 to
//! clear the bit and 5 to clear a key; for all but 2 and 4 the object in a byte and each number of the key in eight; and
//! for 1 and 3 a byte 0 where the key is gone, or a byte 1 and each number of the value in eight. The highest byte of a
//! number comes first.
ghost use Rattle.std.specs.Prelude.{◌≡◌, ◌<◌, ◌^◌, ◌++◌, ◌∷◌, ℕ, List, Some, nat_lt, IfOk, IfSome, OnOk};
ghost use Rattle.writeback_table.specs.declared.command.Command.{Command};
ghost use Rattle.writeback_table.specs.declared.command.Command.TheVariants.{Clear};
ghost use Rattle.writeback_table.specs.declared.command.To.{To};
ghost use Rattle.writeback_table.specs.declared.command.Update.{Update};
ghost use Rattle.lossy_link.specs.CommandBytes.{AreBytesOf, AreWords, NamesBelow, numbers_of, numbers_to};
ghost use Rattle.lossy_link.specs.CommandBytes.{bytes_of, key_bytes, to_bytes, update_bytes, word_bytes};
ghost use Rattle.lossy_link.specs.Spelling.{SpellTo, SpellUpdate, SpellWords};

use crate::number::{eight_bytes, number_at};
use gal_bits::{Values, Widths};
use gal_io::{Bytes, NoMemory};
use state_store::{ObjectDecl, Objects};
use std::alloc::Global;
use writeback_table::{Command, To, Update};

const STAGE: u8 = 1;

const ON: u8 = 2;

const MAIN: u8 = 3;

const OFF: u8 = 4;

const CLEAR: u8 = 5;

// What follows a key: a value, or that it is gone.
const GONE: u8 = 0;

const VALUE: u8 = 1;

// Puts numbers at the end, each in eight bytes.
fn put_words(bytes: &mut Bytes, numbers: &Values) -> Result<(), NoMemory>
    ensures { OnOk result (bytes.new ≡ bytes.old ++ word_bytes numbers.now) }
{
    for number in numbers.as_slice() {
        bytes.extend(&eight_bytes(*number))?;
    }
    Ok(())
}

// Puts an object and a key of it at the end.
fn put_key(bytes: &mut Bytes, object: u32, key: &Values) -> Result<(), NoMemory>
    requires { object < 64 }
    ensures { OnOk result (bytes.new ≡ bytes.old ++ key_bytes object key.now) }
{
    bytes.push(object as u8)?;
    put_words(bytes, key)
}

// Puts a change at the end.
fn put_update(bytes: &mut Bytes, update: &Update) -> Result<(), NoMemory>
    requires { update.now.object < 64 }
    ensures { OnOk result (bytes.new ≡ bytes.old ++ update_bytes update.now) }
{
    put_key(bytes, update.object, &update.key)?;
    match &update.to {
        To::Gone => bytes.push(GONE),
        To::Value(values) => {
            bytes.push(VALUE)?;
            put_words(bytes, values)
        }
    }
}

// Numbers of 64 bits are below 2^64.
fn are_words(numbers: &[u64])
    ensures { AreWords numbers.now }
{}

// So are those of a change.
#[tactic(auto, using(crate::proofs::Spelled::both_words))]
fn have_words(update: &Update)
    ensures { AreWords (update.now.key ++ numbers_to update.now.to) }
{
    are_words(update.key.as_slice());
    if let To::Value(values) = &update.to {
        are_words(values.as_slice());
    }
}

// So are those of a command.
fn has_words(command: &Command)
    ensures { AreWords (numbers_of command.now) }
{
    match command {
        Command::Stage(update) | Command::Main(update) => have_words(update),
        Command::Clear(_, key) => are_words(key.as_slice()),
        Command::On | Command::Off => {}
    }
}

/// The bytes of a command. An object that it names must have a number below 64.
pub fn write_command(alloc: Global, command: &Command) -> Result<Bytes, NoMemory>
    requires { NamesBelow 64 command.now }
    ensures bytes { IfOk result (λ bytes. bytes ≡ bytes_of command.now) }
    ensures words { AreWords (numbers_of command.now) }
{
    has_words(command);
    let mut bytes = Bytes::new(alloc);
    match command {
        Command::Stage(update) => {
            bytes.push(STAGE)?;
            put_update(&mut bytes, update)?;
        }
        Command::On => bytes.push(ON)?,
        Command::Main(update) => {
            bytes.push(MAIN)?;
            put_update(&mut bytes, update)?;
        }
        Command::Off => bytes.push(OFF)?,
        Command::Clear(object, key) => {
            bytes.push(CLEAR)?;
            put_key(&mut bytes, *object, key)?;
        }
    }
    Ok(bytes)
}

// Whether a number needs no more bits than these.
fn fits(number: u64, width: u64) -> bool
    ensures { result ≡ nat_lt number (2 ^ width) }
{
    width >= 64 || number >> width == 0
}

// The numbers of these widths whose bytes they are.
#[tactic(auto, using(crate::proofs::Spelled::read_none, crate::proofs::Spelled::read_more, crate::proofs::Spelled::read_all, crate::proofs::Spelled::read_once, crate::proofs::Spelled::read_length, crate::proofs::Spelled::read_misfit))]
fn read_words(widths: &Widths, bytes: &[u8]) -> Option<Values>
    ensures some { IfSome result (λ numbers. SpellWords widths.now numbers bytes.now) }
    ensures read_back { (numbers : List ℕ) → SpellWords widths.now numbers bytes.now → result ≡ Some numbers }
{
    let count = widths.len();
    if bytes.len() != 8 * count {
        return None;
    }
    let mut numbers = Values::new();
    for i in 0..count {
        let number = number_at(bytes, 8 * i);
        if !fits(number, widths.at(i)) {
            return None;
        }
        numbers.push(number);
    }
    Some(numbers)
}

// What a key of this object has, whose bytes they are.
#[tactic(auto, using(crate::proofs::Spelled::to_gone, crate::proofs::Spelled::gone_to, crate::proofs::Spelled::value_to, crate::proofs::Spelled::value_once, crate::proofs::Spelled::to_starts, crate::proofs::Spelled::to_some))]
fn read_to(object: &ObjectDecl, bytes: &[u8]) -> Option<To>
    ensures some { IfSome result (λ to. SpellTo object.now to bytes.now) }
    ensures read_back { (to : To) → SpellTo object.now to bytes.now → result ≡ Some to }
{
    match bytes {
        [GONE] => Some(To::Gone),
        [VALUE, values @ ..] => Some(To::Value(read_words(&object.values, values)?)),
        _ => None,
    }
}

// The change of one of the objects, whose bytes they are.
#[tactic(auto, using(crate::proofs::Spelled::update_parts, crate::proofs::Spelled::update_from, crate::proofs::Spelled::update_once))]
fn read_update(objects: &Objects, bytes: &[u8]) -> Option<Update>
    ensures some { IfSome result (λ update. SpellUpdate objects.now update bytes.now) }
    ensures read_back { (update : Update) → SpellUpdate objects.now update bytes.now → result ≡ Some update }
{
    let [number, rest @ ..] = bytes else {
        return None;
    };
    let object = objects.as_slice().get(usize::from(*number))?;
    let key_len = 8 * object.keys.len();
    if rest.len() < key_len {
        return None;
    }
    let key = read_words(&object.keys, &rest[..key_len])?;
    let to = read_to(object, &rest[key_len..])?;
    Some(Update {
        object: u32::from(*number),
        key,
        to,
    })
}

// The command that clears a key of one of the objects, whose bytes they are behind the first.
fn read_clear(objects: &Objects, bytes: &[u8]) -> Option<Command>
    ensures some { IfSome result (λ command. AreBytesOf objects.now command (5 ∷ bytes.now)) }
    ensures read_back { (object : ℕ) (key : List ℕ) → AreBytesOf objects.now (Clear object key) (5 ∷ bytes.now)
        → result ≡ Some (Clear object key) }
{
    let [number, rest @ ..] = bytes else {
        return None;
    };
    let object = objects.as_slice().get(usize::from(*number))?;
    let key = read_words(&object.keys, rest)?;
    Some(Command::Clear(u32::from(*number), key))
}

/// The command whose bytes they are. It is `None` exactly where no command of these objects has these bytes. This takes
/// no memory.
pub fn read_command(objects: &Objects, bytes: &[u8]) -> Option<Command>
    ensures some { IfSome result (λ command. AreBytesOf objects.now command bytes.now) }
    ensures read_back { (command : Command) → AreBytesOf objects.now command bytes.now → result ≡ Some command }
{
    match bytes {
        [STAGE, rest @ ..] => Some(Command::Stage(read_update(objects, rest)?)),
        [ON] => Some(Command::On),
        [MAIN, rest @ ..] => Some(Command::Main(read_update(objects, rest)?)),
        [OFF] => Some(Command::Off),
        [CLEAR, rest @ ..] => read_clear(objects, rest),
        _ => None,
    }
}
