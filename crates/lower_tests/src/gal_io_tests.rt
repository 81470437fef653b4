//! What no clause can say: that calls succeed with ample memory, and what the system's files and writers do.
use gal_io::{
    Bytes, Files, HostFiles, HostSink, MemFiles, MemSink, NoMemory, ReadEnd, Sink, SinkEnd, Text,
};
use std::alloc::Global;
use std::io::Write;
use std::test::Fail;
use std::{fs, io};

fn are_bytes_joined(alloc: Global) -> Result<bool, NoMemory> {
    let mut bytes = Bytes::from_slice(alloc, b"12")?;
    bytes.push(b'3')?;
    bytes.extend(b"45")?;
    let copy = bytes.copy(alloc)?;
    Ok(copy.as_slice() == b"12345".as_slice())
}

fn write(text: &mut Text) -> Result<(), NoMemory> {
    text.extend(b"1234")?;
    text.push(b'5')
}

fn write_numbers(text: &mut Text) -> Result<(), NoMemory> {
    text.push_number(0)?;
    text.push_spaced(&[67, u64::MAX])
}

// Whether an empty text has five bytes behind it, and then numbers.
fn is_written_to(text: &mut Text) -> Result<bool, NoMemory> {
    let is_new = text.is_empty();
    write(text)?;
    let len = text.len();
    write_numbers(text)?;
    Ok(is_new && len == 5)
}

fn is_copied(alloc: Global, text: &Text) -> Result<bool, NoMemory> {
    let copy = text.copy(alloc)?;
    Ok(copy.as_slice() == b"123450 67 18446744073709551615".as_slice())
}

fn is_text_written(alloc: Global) -> Result<bool, NoMemory> {
    let mut text = Text::new(alloc);
    Ok(is_written_to(&mut text)? && is_copied(alloc, &text)?)
}

fn is_text_of_bytes(alloc: Global) -> Result<bool, NoMemory> {
    let text = Text::from_slice(alloc, b"5")?;
    Ok(text.as_slice() == b"5".as_slice())
}

#[test]
fn bytes_and_texts(rt: HostRuntime) -> Result<(), Fail> {
    assert!(rt; are_bytes_joined(rt.alloc())?);
    assert!(rt; is_text_written(rt.alloc())?);
    assert!(rt; is_text_of_bytes(rt.alloc())?);
    Ok(())
}

// The name of a file, the most bytes that are asked for, how reading ends, and what is read.
type Reading = (&'static str, usize, ReadEnd, &'static [u8]);

// The place of the first of these that reads otherwise, or how many they are.
fn first_missed(alloc: Global, files: &mut impl Files, readings: &[Reading]) -> usize {
    for (place, reading) in readings.iter().enumerate() {
        if !is_read(alloc, files, reading) {
            return place;
        }
    }
    readings.len()
}

fn is_read(alloc: Global, files: &mut impl Files, reading: &Reading) -> bool {
    let (name, max, end, content) = *reading;
    if max > 5000 {
        return false;
    }
    let mut into = Vec::new(alloc);
    files.read(alloc, name, max, &mut into) == end && into.as_slice() == content
}

const IN_MEMORY: [Reading; 5] = [
    ("five", 5, ReadEnd::Done, b"12345"),
    ("five", 4, ReadEnd::TooLong, b""),
    ("none", 5, ReadEnd::Failed, b""),
    ("five", 5, ReadEnd::Failed, b""),
    ("five", 5, ReadEnd::Done, b"12345"),
];

// The first file of a name is read, and the fourth call fails.
fn plan_files(files: &mut MemFiles) -> Result<(), NoMemory> {
    files.add("five", b"1")?;
    files.add("five", b"12345")?;
    files.fail_at(4)
}

fn first_missed_in_memory(alloc: Global) -> Result<usize, NoMemory> {
    let mut files = MemFiles::new(alloc);
    plan_files(&mut files)?;
    Ok(first_missed(alloc, &mut files, &IN_MEMORY))
}

#[test]
fn files_in_memory(rt: HostRuntime) -> Result<(), Fail> {
    assert_eq!(rt; first_missed_in_memory(rt.alloc())?, 5);
    Ok(())
}

// Pieces that are written, how that ends, and what is taken then.
const PIECES: [(&[u8], SinkEnd, &[u8]); 4] = [
    (b"12", SinkEnd::Done, b"12"),
    (b"packet", SinkEnd::Failed, b"12pac"),
    (b"3", SinkEnd::Failed, b"12pac3"),
    (b"4", SinkEnd::Done, b"12pac34"),
];

fn takes_all(sink: &mut MemSink) -> bool {
    let mut all = true;
    for (piece, end, taken) in PIECES {
        let is_end = sink.write(piece) == end;
        all = all && is_end && sink.bytes() == taken;
    }
    all
}

fn is_all_taken(alloc: Global) -> Result<bool, NoMemory> {
    let mut sink = MemSink::new(alloc);
    sink.fail_at(2, 3)?;
    sink.fail_at(3, 9)?;
    Ok(takes_all(&mut sink))
}

#[test]
fn a_sink_in_memory(rt: HostRuntime) -> Result<(), Fail> {
    assert!(rt; is_all_taken(rt.alloc())?);
    Ok(())
}

// A folder fails at its first read, a file in a file can't be opened, and /dev/zero never ends.
const OF_THE_SYSTEM: [Reading; 7] = [
    ("five", 5, ReadEnd::Done, b"12345"),
    ("five", 4, ReadEnd::TooLong, b""),
    ("none", 5, ReadEnd::Failed, b""),
    ("five ", 5, ReadEnd::Done, b"1"),
    (".", 5, ReadEnd::Failed, b""),
    ("five/one", 5, ReadEnd::Failed, b""),
    ("/dev/zero", 5000, ReadEnd::TooLong, b""),
];

fn make_files(rt: &HostRuntime) -> io::Result<()> {
    fs::write(rt, "five", "12345")?;
    fs::write(rt, "five ", "1")
}

fn remove_files(rt: &HostRuntime) -> io::Result<()> {
    fs::remove_file(rt, "five")?;
    fs::remove_file(rt, "five ")
}

fn first_missed_of_the_system(rt: &HostRuntime) -> usize {
    first_missed(rt.alloc(), &mut HostFiles::new(rt), &OF_THE_SYSTEM)
}

#[test]
fn files_of_the_system(rt: HostRuntime) -> Result<(), Fail> {
    make_files(&rt)?;
    assert_eq!(rt; first_missed_of_the_system(&rt), 7);
    remove_files(&rt)?;
    Ok(())
}

#[derive(Clone, Copy)]
enum Fault {
    None,
    Nothing,
    Error,
    Flush,
}

// A writer that takes at most three bytes a write, and has one fault.
#[derive(Drop)]
struct Faulty {
    fault: Fault,
}

impl Write for Faulty {
    fn write(&mut self, piece: &[u8]) -> io::Result<usize> {
        match self.fault {
            Fault::None | Fault::Flush => Ok(piece.len().min(3)),
            Fault::Nothing => Ok(0),
            Fault::Error => Err(io::Error::from(io::ErrorKind::Other)),
        }
    }

    fn flush(&mut self) -> io::Result<()> {
        match self.fault {
            Fault::Flush => Err(io::Error::from(io::ErrorKind::Other)),
            Fault::None | Fault::Nothing | Fault::Error => Ok(()),
        }
    }
}

fn end_of_writing(fault: Fault) -> SinkEnd {
    let mut sink = HostSink::new(Faulty { fault });
    sink.write(b"12345")
}

#[test]
fn a_sink_of_the_system(rt: HostRuntime) {
    assert!(rt; end_of_writing(Fault::None) == SinkEnd::Done);
    assert!(rt; end_of_writing(Fault::Nothing) == SinkEnd::Failed);
    assert!(rt; end_of_writing(Fault::Error) == SinkEnd::Failed);
    assert!(rt; end_of_writing(Fault::Flush) == SinkEnd::Failed);
}
