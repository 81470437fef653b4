//! What a switch was called for.
ghost use Rattle.std.specs.Prelude.{◌≡◌, ◌==◌, ◌<◌, ◌≤◌, ◌+◌, ◌-◌, ◌*◌, ◌++◌, ◌∷◌, [], length, max, take, drop};
ghost use Rattle.std.specs.Prelude.{vec_len, vec_capacity, IfOk, OnOk, OnErr};
ghost use Rattle.switch_ir.specs.Journal.{command_in, down_in, entries_of, entry_in, entry_of, number_count, up_in};
ghost use Rattle.switch_ir.specs.Journal.{IsFilled, IsShort};
ghost use Rattle.switch_ir.specs.declared.journal.Entry.TheVariants as entry;

use crate::port::{DownEnd, PortError, UpEnd};
use gal_bits::Values;
use gal_io::{Bytes, NoMemory};
use packet_fields::Verdict;
use state_store::put_numbers;
use std::alloc::Global;
use std::marker::Model;
use writeback_table::{Command, To, Update};

/// A call with what it was given and how it ended. A call that ended for want of memory has no entry; of those that
/// failed, only packets, frames, stages and commands have one.
#[derive(Drop)]
pub enum Entry {
    Load,
    /// Room was asked for this many commands.
    Room(usize),
    Up {
        number: u32,
        port: u8,
        packet: Bytes,
        answer: Result<UpEnd, PortError>,
    },
    Down {
        frame: Bytes,
        answer: Result<DownEnd, PortError>,
    },
    /// A packet arrived whose pass goes stage by stage, also where it has no stages left.
    BeginUp {
        number: u32,
        port: u8,
        packet: Bytes,
        answer: Result<UpEnd, PortError>,
    },
    StageUp {
        number: u32,
        answer: Result<UpEnd, PortError>,
    },
    /// A frame came down whose packet's pass goes stage by stage, also where it has no stages left.
    BeginDown {
        frame: Bytes,
        answer: Result<DownEnd, PortError>,
    },
    StageDown {
        number: u32,
        answer: Result<DownEnd, PortError>,
    },
    Command(Command, Result<(), PortError>),
    /// The rows of the object of this number were asked for.
    Visible(u32),
}

/// A call by references to what its entry holds, in the order of the entry.
#[derive(Clone, Copy)]
pub enum Call<'a> {
    Load,
    Room(usize),
    Up(u32, u8, &'a [u8], &'a Result<UpEnd, PortError>),
    Down(&'a [u8], &'a Result<DownEnd, PortError>),
    BeginUp(u32, u8, &'a [u8], &'a Result<UpEnd, PortError>),
    StageUp(u32, &'a Result<UpEnd, PortError>),
    BeginDown(&'a [u8], &'a Result<DownEnd, PortError>),
    StageDown(u32, &'a Result<DownEnd, PortError>),
    Command(&'a Command, Result<(), PortError>),
    Visible(u32),
}

impl Entry {
    /// The call that it is the entry of.
    pub fn call(&self) -> Call<'_>
        ensures { entry_of result ≡ self.now }
    {
        match self {
            Entry::Load => Call::Load,
            Entry::Room(commands) => Call::Room(*commands),
            Entry::Up {
                number,
                port,
                packet,
                answer,
            } => Call::Up(*number, *port, packet.as_slice(), answer),
            Entry::Down { frame, answer } => Call::Down(frame.as_slice(), answer),
            Entry::BeginUp {
                number,
                port,
                packet,
                answer,
            } => Call::BeginUp(*number, *port, packet.as_slice(), answer),
            Entry::StageUp { number, answer } => Call::StageUp(*number, answer),
            Entry::BeginDown { frame, answer } => Call::BeginDown(frame.as_slice(), answer),
            Entry::StageDown { number, answer } => Call::StageDown(*number, answer),
            Entry::Command(command, end) => Call::Command(command, *end),
            Entry::Visible(object) => Call::Visible(*object),
        }
    }
}

impl<'a> Call<'a> {
    // The outline of a call, the numbers of its key and of its values, the bytes that it was given, and those of its
    // answer.
    #[tactic(auto, using(std::proofs::lemmas::List::take_at, std::proofs::lemmas::List::drop_at))]
    fn parts(&self) -> (Outline, &'a [u64], &'a [u64], &'a [u8], &'a [u8])
        ensures entry { entry_in result.0 (result.1.now ++ result.2.now) (result.3.now ++ result.4.now)
            ≡ entry_of self.now }
        ensures count { number_count result.0 ≡ length result.1.now + length result.2.now }
        ensures bounded { length result.1.now + length result.2.now ≤ 16 }
        ensures short { IsShort result.0 }
    {
        match *self {
            Call::Load => (Outline::Load, &[], &[], &[], &[]),
            Call::Room(commands) => (Outline::Room(commands), &[], &[], &[], &[]),
            Call::Up(number, port, packet, end) => {
                let (end, answer) = up_parts(end);
                let call = Outline::Up(port, end, number, packet.len());
                (call, &[], &[], packet, answer)
            }
            Call::Down(frame, end) => {
                let (end, answer) = down_parts(end);
                let call = Outline::Down(end, frame.len());
                (call, &[], &[], frame, answer)
            }
            Call::BeginUp(number, port, packet, end) => {
                let (end, answer) = up_parts(end);
                let call = Outline::BeginUp(port, end, number, packet.len());
                (call, &[], &[], packet, answer)
            }
            Call::StageUp(number, end) => {
                let (end, answer) = up_parts(end);
                (Outline::StageUp(end, number), &[], &[], &[], answer)
            }
            Call::BeginDown(frame, end) => {
                let (end, answer) = down_parts(end);
                let call = Outline::BeginDown(end, frame.len());
                (call, &[], &[], frame, answer)
            }
            Call::StageDown(number, end) => {
                let (end, answer) = down_parts(end);
                (Outline::StageDown(end, number), &[], &[], &[], answer)
            }
            Call::Command(command, end) => {
                let (call, key, values) = command_parts(command, end);
                (call, key, values, &[], &[])
            }
            Call::Visible(object) => (Outline::Visible(object), &[], &[], &[], &[]),
        }
    }
}

// What is kept of a call beside its numbers and its bytes.
#[derive(Clone, Copy)]
struct Mark {
    call: Outline,
    // How many bytes it has.
    bytes: usize,
}

// A mark takes little memory.
const _: () = prove!(size_of::<Mark>() <= 24);

// A call without its numbers and its bytes. Of a packet or a frame that it was given it has the length.
#[derive(Clone, Copy)]
enum Outline {
    Load,
    Room(usize),
    Up(u8, End, u32, usize),
    Down(End, usize),
    BeginUp(u8, End, u32, usize),
    StageUp(End, u32),
    BeginDown(End, usize),
    StageDown(End, u32),
    // A command with the number of its object, and with how many numbers its key and its values have.
    Command(Result<(), PortError>, Form, u32, u8, u8),
    Visible(u32),
}

// How a pass ends, without bytes. Only a packet that arrives goes up.
#[derive(Clone, Copy)]
enum End {
    Drop,
    Send(u8),
    Up,
    Going,
    Failed,
    NoMemory,
}

// A command without its object and its numbers. What is staged, or changed, leaves values or no row.
#[derive(Clone, Copy)]
enum Form {
    Stage,
    StageGone,
    On,
    Main,
    MainGone,
    Off,
    Clear,
}

// An end without its bytes, and these.
fn up_parts(end: &Result<UpEnd, PortError>) -> (End, &[u8])
    ensures { up_in result.0 result.1.now ≡ end.now }
{
    match end {
        Ok(UpEnd::Finished(Verdict::Drop)) => (End::Drop, &[]),
        Ok(UpEnd::Finished(Verdict::Send(port, bytes))) => (End::Send(*port), bytes.as_slice()),
        Ok(UpEnd::Up(frame)) => (End::Up, frame.as_slice()),
        Ok(UpEnd::Going) => (End::Going, &[]),
        Err(PortError::Failed) => (End::Failed, &[]),
        Err(PortError::NoMemory) => (End::NoMemory, &[]),
    }
}

fn down_parts(end: &Result<DownEnd, PortError>) -> (End, &[u8])
    ensures { down_in result.0 result.1.now ≡ end.now }
{
    match end {
        Ok(DownEnd::Verdict(Verdict::Drop)) => (End::Drop, &[]),
        Ok(DownEnd::Verdict(Verdict::Send(port, bytes))) => (End::Send(*port), bytes.as_slice()),
        Ok(DownEnd::Going) => (End::Going, &[]),
        Err(PortError::Failed) => (End::Failed, &[]),
        Err(PortError::NoMemory) => (End::NoMemory, &[]),
    }
}

// The end of a pass whose answer has these bytes.
fn up_in(alloc: Global, end: End, bytes: &[u8]) -> Result<Result<UpEnd, PortError>, NoMemory>
    ensures { IfOk result (λ made. made ≡ up_in end bytes.now) }
{
    Ok(match end {
        End::Drop => Ok(UpEnd::Finished(Verdict::Drop)),
        End::Send(port) => {
            let bytes = Bytes::from_slice(alloc, bytes)?;
            Ok(UpEnd::Finished(Verdict::Send(port, bytes)))
        }
        End::Up => Ok(UpEnd::Up(Bytes::from_slice(alloc, bytes)?)),
        End::Going => Ok(UpEnd::Going),
        End::Failed => Err(PortError::Failed),
        End::NoMemory => Err(PortError::NoMemory),
    })
}

fn down_in(alloc: Global, end: End, bytes: &[u8]) -> Result<Result<DownEnd, PortError>, NoMemory>
    ensures { IfOk result (λ made. made ≡ down_in end bytes.now) }
{
    Ok(match end {
        End::Drop => Ok(DownEnd::Verdict(Verdict::Drop)),
        End::Send(port) => {
            let bytes = Bytes::from_slice(alloc, bytes)?;
            Ok(DownEnd::Verdict(Verdict::Send(port, bytes)))
        }
        End::Up | End::Going => Ok(DownEnd::Going),
        End::Failed => Err(PortError::Failed),
        End::NoMemory => Err(PortError::NoMemory),
    })
}

// How many numbers a command has at most: a key and its values.
const MOST_NUMBERS: usize = 16;

// The numbers of a list.
fn few(values: &Values) -> &[u64]
    ensures numbers { result.now ≡ values.now }
    ensures bounded { length result.now ≤ 8 }
{
    let _count = values.len();
    values.as_slice()
}

// A command without its object and its numbers, its object, and the numbers of its key and of its values.
#[inline]
fn form_parts(command: &Command) -> (Form, u32, &[u64], &[u64])
    ensures command { command_in result.0 result.1 result.2.now result.3.now ≡ command.now }
    ensures key { length result.2.now ≤ 8 }
    ensures values { length result.3.now ≤ 8 }
{
    match command {
        Command::Stage(update) => match &update.to {
            To::Value(values) => (Form::Stage, update.object, few(&update.key), few(values)),
            To::Gone => (Form::StageGone, update.object, few(&update.key), &[]),
        },
        Command::On => (Form::On, 0, &[], &[]),
        Command::Main(update) => match &update.to {
            To::Value(values) => (Form::Main, update.object, few(&update.key), few(values)),
            To::Gone => (Form::MainGone, update.object, few(&update.key), &[]),
        },
        Command::Off => (Form::Off, 0, &[], &[]),
        Command::Clear(object, key) => (Form::Clear, *object, few(key), &[]),
    }
}

// The outline of a command, and the numbers of its key and of its values.
#[inline]
#[tactic(auto, using(std::proofs::lemmas::List::take_at, std::proofs::lemmas::List::drop_at))]
fn command_parts(command: &Command, end: Result<(), PortError>) -> (Outline, &[u64], &[u64])
    ensures entry { entry_in result.0 (result.1.now ++ result.2.now) [] ≡ entry.Command command.now end }
    ensures count { number_count result.0 ≡ length result.1.now + length result.2.now }
    ensures bounded { length result.1.now + length result.2.now ≤ 16 }
    ensures short { IsShort result.0 }
{
    let (form, object, key, values) = form_parts(command);
    let call = Outline::Command(end, form, object, key.len() as u8, values.len() as u8);
    (call, key, values)
}

// A list of these numbers.
fn values_of(numbers: &[u64]) -> Values
    requires { length numbers.now ≤ 8 }
    ensures { result ≡ numbers.now }
{
    let mut values = Values::new();
    for number in numbers {
        values.push(*number);
    }
    values
}

// A change of the row that has a key of these numbers.
fn change(object: u32, key: &[u64], to: To) -> Update
    requires { length key.now ≤ 8 }
    ensures { result ≡ record { object = object; key = key.now; to = to } }
{
    Update {
        object,
        key: values_of(key),
        to,
    }
}

// The command of an object, with the numbers of its key and of its values.
fn command_in(form: Form, object: u32, key: &[u64], values: &[u64]) -> Command
    requires key { length key.now ≤ 8 }
    requires values { length values.now ≤ 8 }
    ensures { result ≡ command_in form object key.now values.now }
{
    match form {
        Form::Stage => Command::Stage(change(object, key, To::Value(values_of(values)))),
        Form::StageGone => Command::Stage(change(object, key, To::Gone)),
        Form::On => Command::On,
        Form::Main => Command::Main(change(object, key, To::Value(values_of(values)))),
        Form::MainGone => Command::Main(change(object, key, To::Gone)),
        Form::Off => Command::Off,
        Form::Clear => Command::Clear(object, values_of(key)),
    }
}

// How many numbers a call has.
fn number_count(call: &Outline) -> usize
    ensures { result ≡ number_count call.now }
{
    match call {
        Outline::Command(_, _, _, key, values) => usize::from(*key) + usize::from(*values),
        _ => 0,
    }
}

// The first of these bytes, so many or all, and those behind them.
#[tactic(auto, using(std::proofs::lemmas::List::take_min, std::proofs::lemmas::List::drop_min))]
fn cut(bytes: &[u8], count: usize) -> (&[u8], &[u8])
    ensures front { result.0.now ≡ take count bytes.now }
    ensures back { result.1.now ≡ drop count bytes.now }
{
    bytes.split_at(count.min(bytes.len()))
}

// The call of these numbers and bytes.
fn entry_in(alloc: Global, call: &Outline, numbers: &[u64], bytes: &[u8]) -> Result<Entry, NoMemory>
    requires short { IsShort call.now }
    requires numbers { number_count call.now ≡ length numbers.now }
    ensures { IfOk result (λ made. made ≡ entry_in call.now numbers.now bytes.now) }
{
    Ok(match *call {
        Outline::Load => Entry::Load,
        Outline::Room(commands) => Entry::Room(commands),
        Outline::Up(port, end, number, length) => Entry::Up {
            number,
            port,
            packet: Bytes::from_slice(alloc, cut(bytes, length).0)?,
            answer: up_in(alloc, end, cut(bytes, length).1)?,
        },
        Outline::Down(end, length) => Entry::Down {
            frame: Bytes::from_slice(alloc, cut(bytes, length).0)?,
            answer: down_in(alloc, end, cut(bytes, length).1)?,
        },
        Outline::BeginUp(port, end, number, length) => Entry::BeginUp {
            number,
            port,
            packet: Bytes::from_slice(alloc, cut(bytes, length).0)?,
            answer: up_in(alloc, end, cut(bytes, length).1)?,
        },
        Outline::StageUp(end, number) => Entry::StageUp {
            number,
            answer: up_in(alloc, end, bytes)?,
        },
        Outline::BeginDown(end, length) => Entry::BeginDown {
            frame: Bytes::from_slice(alloc, cut(bytes, length).0)?,
            answer: down_in(alloc, end, cut(bytes, length).1)?,
        },
        Outline::StageDown(end, number) => Entry::StageDown {
            number,
            answer: down_in(alloc, end, bytes)?,
        },
        Outline::Command(end, form, object, key, _) => {
            let (key, values) = numbers.split_at(usize::from(key));
            Entry::Command(command_in(form, object, key, values), end)
        }
        Outline::Visible(object) => Entry::Visible(object),
    })
}

// The calls that marks stand for, with their numbers and bytes.
fn entries_of(
    alloc: Global,
    marks: &[Mark],
    numbers: &[u64],
    bytes: &[u8],
) -> Result<Vec<Entry>, NoMemory>
    requires { IsFilled marks.now numbers.now bytes.now }
    ensures { IfOk result (λ made. made.items ≡ entries_of marks.now numbers.now bytes.now) }
{
    let mut made = Vec::with_capacity(alloc, marks.len())?;
    let mut numbers_left = numbers;
    let mut bytes_left = bytes;
    for mark in marks {
        let (numbers, numbers_behind) = numbers_left.split_at(number_count(&mark.call));
        let (bytes, bytes_behind) = bytes_left.split_at(mark.bytes);
        made.push(entry_in(alloc, &mark.call, numbers, bytes)?)?;
        numbers_left = numbers_behind;
        bytes_left = bytes_behind;
    }
    Ok(made)
}

// Takes the memory for so many marks more, and for their numbers.
fn take_room(marks: &mut Vec<Mark>, numbers: &mut Vec<u64>, calls: usize) -> Result<(), NoMemory>
    ensures marks { marks.new.items ≡ marks.old.items }
    ensures marks_len { vec_len marks.new ≡ vec_len marks.old }
    ensures marks_capacity { vec_capacity marks.old ≤ vec_capacity marks.new }
    ensures marks_room { OnOk result (vec_len marks.new + calls ≤ vec_capacity marks.new) }
    ensures numbers { numbers.new.items ≡ numbers.old.items }
    ensures numbers_len { vec_len numbers.new ≡ vec_len numbers.old }
    ensures numbers_capacity { vec_capacity numbers.old ≤ vec_capacity numbers.new }
    ensures numbers_room { OnOk result (vec_len numbers.new + 16 * calls ≤ vec_capacity numbers.new) }
{
    let Some(most) = calls.checked_mul(MOST_NUMBERS) else {
        return Err(NoMemory);
    };
    marks.reserve(calls)?;
    numbers.reserve(most)?;
    Ok(())
}

// Puts the bytes of a call last, and counts them.
#[tactic(auto, using(crate::proofs::Journals::all_bytes, std::proofs::lemmas::List::take_at))]
fn put_bytes(bytes: &mut Vec<u8>, given: &[u8], answer: &[u8]) -> Result<usize, NoMemory>
    ensures count { IfOk result (λ count. count ≡ length (given.now ++ answer.now)) }
    ensures ok { OnOk result (bytes.new.items ≡ bytes.old.items ++ (given.now ++ answer.now)) }
    ensures err { OnErr result (bytes.new.items ≡ bytes.old.items) }
{
    if let ([], []) = (given, answer) {
        return Ok(0);
    }
    let before = bytes.len();
    bytes.extend_from_slice(given)?;
    if bytes.extend_from_slice(answer).is_err() {
        bytes.truncate(before);
        return Err(NoMemory);
    }
    Ok(bytes.len() - before)
}

/// The calls since the code was loaded, in order, with memory for some more. A call takes the memory of a mark, and of
/// its numbers and its bytes.
#[derive(Drop)]
pub struct Journal {
    // A mark for each call, in order.
    marks: Vec<Mark>,
    // The numbers of the commands, one behind the other.
    numbers: Vec<u64>,
    // The bytes of packets, frames and verdicts, one behind the other.
    bytes: Vec<u8>,
    spare: usize,
}

impl Model for Journal {
    ghost use Rattle.std.specs.Prelude.{◌≤◌, ◌+◌, ◌*◌, vec_len, vec_capacity};
    ghost use Rattle.switch_ir.specs.Journal.{JournalState, IsFilled, entries_of};

    ghost Value = { JournalState };

    ghost view = { λ journal. record {
      entries = entries_of journal.marks.items journal.numbers.items journal.bytes.items;
      spare = journal.spare;
    } };

    ghost invariant = { λ journal. IsFilled journal.marks.items journal.numbers.items journal.bytes.items
        × (vec_len journal.marks + journal.spare ≤ vec_capacity journal.marks)
        × (vec_len journal.numbers + 16 * journal.spare ≤ vec_capacity journal.numbers) };
}

impl Journal {
    /// No calls. This takes no memory; `push` and `reserve` take it from `alloc`.
    pub fn new(alloc: Global) -> Journal
        ensures { result ≡ record { entries = []; spare = 0 } }
    {
        Journal {
            marks: Vec::new(alloc),
            numbers: Vec::new(alloc),
            bytes: Vec::new(alloc),
            spare: 0,
        }
    }

    /// The calls, in order, in memory of their own.
    pub fn entries(&self, alloc: Global) -> Result<Vec<Entry>, NoMemory>
        ensures { IfOk result (λ made. made.items ≡ self.now.entries) }
    {
        entries_of(alloc, &self.marks, &self.numbers, &self.bytes)
    }

    #[tactic(auto, using(crate::proofs::Journals::entries_count))]
    pub fn len(&self) -> usize
        ensures { result ≡ length self.now.entries }
    {
        self.marks.len()
    }

    pub fn is_empty(&self) -> bool
        ensures { result ≡ (length self.now.entries == 0) }
    {
        self.len() == 0
    }

    /// For how many calls more there is memory that have no bytes.
    pub fn spare(&self) -> usize
        ensures { result ≡ self.now.spare }
    {
        self.spare
    }

    /// Takes the memory for this many calls more that have no bytes, where there is less.
    pub fn reserve(&mut self, calls: usize) -> Result<(), NoMemory>
        ensures ok { OnOk result (self.new ≡ record self.old { spare = max self.old.spare calls }) }
        ensures err { OnErr result (self.new ≡ self.old) }
    {
        let spare = self.spare.max(calls);
        take_room(&mut self.marks, &mut self.numbers, spare)?;
        self.spare = spare;
        Ok(())
    }

    /// Puts a call last, and leaves the memory for others.
    pub fn note(&mut self, call: Call<'_>) -> Result<(), NoMemory>
        ensures ok { OnOk result
            (self.new ≡ record self.old { entries = self.old.entries ++ entry_of call.entry ∷ [] }) }
        ensures err { OnErr result (self.new ≡ self.old) }
    {
        match call {
            Call::StageUp(number, Ok(UpEnd::Going)) => {
                self.note_mark(Outline::StageUp(End::Going, number))
            }
            Call::StageDown(number, Ok(DownEnd::Going)) => {
                self.note_mark(Outline::StageDown(End::Going, number))
            }
            _ => self.note_parts(&call),
        }
    }

    // Puts a call last that has neither numbers nor bytes, and leaves the memory for others.
    fn note_mark(&mut self, call: Outline) -> Result<(), NoMemory>
        requires short { IsShort call }
        requires none { number_count call ≡ 0 }
        ensures ok { OnOk result (self.new ≡ record self.old { entries = self.old.entries ++ entry_in call [] [] ∷ [] }) }
        ensures err { OnErr result (self.new ≡ self.old) }
    {
        self.marks.reserve(self.spare + 1)?;
        self.marks.push_reserved(Mark { call, bytes: 0 });
        Ok(())
    }

    // Puts a call last with its numbers and its bytes, and leaves the memory for others.
    fn note_parts(&mut self, call: &Call<'_>) -> Result<(), NoMemory>
        ensures ok { OnOk result
            (self.new ≡ record self.old { entries = self.old.entries ++ entry_of call.now ∷ [] }) }
        ensures err { OnErr result (self.new ≡ self.old) }
    {
        take_room(&mut self.marks, &mut self.numbers, self.spare + 1)?;
        let (call, key, values, given, answer) = call.parts();
        let bytes = put_bytes(&mut self.bytes, given, answer)?;
        put_numbers(&mut self.numbers, key);
        put_numbers(&mut self.numbers, values);
        self.marks.push_reserved(Mark { call, bytes });
        Ok(())
    }

    /// Puts the call of an entry last, and leaves the memory for others.
    pub fn push(&mut self, entry: Entry) -> Result<(), NoMemory>
        ensures ok { OnOk result (self.new ≡ record self.old { entries = self.old.entries ++ entry ∷ [] }) }
        ensures err { OnErr result (self.new ≡ self.old) }
    {
        self.note(entry.call())
    }

    /// Puts a command last, in memory that was taken before, without a copy of it.
    #[inline]
    pub fn push_command(&mut self, command: &Command, end: Result<(), PortError>)
        requires { 0 < self.old.spare }
        ensures { self.new ≡ record {
          entries = self.old.entries ++ entry.Command command.now end ∷ [];
          spare = self.old.spare - 1;
        } }
    {
        let (call, key, values) = command_parts(command, end);
        self.spare -= 1;
        put_numbers(&mut self.numbers, key);
        put_numbers(&mut self.numbers, values);
        self.marks.push_reserved(Mark { call, bytes: 0 });
    }
}
