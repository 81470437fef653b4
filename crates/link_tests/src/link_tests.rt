//! Senders and receivers, on datagrams and confirmations made by hand.
use gal_io::{Bytes, NoMemory};
use lossy_link::{Confirm, LinkReceiver, LinkSender, Took};
use std::alloc::Global;
use std::test::Fail;

// What a new receiver answers to these datagrams, one after the other.
fn answers(
    alloc: Global,
    ordered: bool,
    datagrams: &[&[u8]],
    wanted: &[Took],
) -> Result<bool, NoMemory> {
    let mut receiver = LinkReceiver::new(alloc, ordered);
    let mut same = datagrams.len() == wanted.len();
    for (bytes, took) in datagrams.iter().zip(wanted) {
        same = receiver.take(bytes)? == *took && same;
    }
    Ok(same)
}

const ORDERED: [&[u8]; 5] = [
    b"\0\0\0\x01",
    b"\0\0\0\0",
    b"\0\0\0\x01",
    b"\0\0\0\0",
    b"\0\0\0",
];

const UNORDERED: [&[u8]; 6] = [
    b"\0\0\x01\0item",
    b"\0\0\0\0",
    b"\xff\xff\xff\xff",
    b"\0\0\x01\0",
    b"\xff\xff\xff\xff",
    b"",
];

#[test]
fn an_ordered_receiver_delivers_the_next_alone(rt: HostRuntime) {
    let wanted = [
        Took::Early(1),
        Took::New(0),
        Took::New(1),
        Took::Again(0),
        Took::Malformed,
    ];
    assert_eq!(rt; answers(rt.alloc(), true, &ORDERED, &wanted), Ok(true));
}

#[test]
fn an_unordered_receiver_delivers_in_any_order(rt: HostRuntime) {
    let wanted = [
        Took::New(256),
        Took::New(0),
        Took::New(4_294_967_295),
        Took::Again(256),
        Took::Again(4_294_967_295),
        Took::Malformed,
    ];
    assert_eq!(rt; answers(rt.alloc(), false, &UNORDERED, &wanted), Ok(true));
}

// Whether an item is delivered without its number, and once alone.
fn delivers(alloc: Global) -> Result<bool, NoMemory> {
    let mut receiver = LinkReceiver::new(alloc, false);
    receiver.take(b"\0\0\0\x07item")?;
    receiver.take(b"\0\0\0\x07other")?;
    Ok(match receiver.as_slice() {
        [pair] => pair.number == 7 && pair.item.as_slice() == b"item".as_slice(),
        _ => false,
    })
}

#[test]
fn what_is_delivered_is_kept(rt: HostRuntime) {
    assert_eq!(rt; delivers(rt.alloc()), Ok(true));
}

// Three items.
fn sender(alloc: Global) -> Result<LinkSender, NoMemory> {
    let mut sender = LinkSender::new(alloc);
    for item in [b"a", b"b", b"c"] {
        if sender.items().len() < 3 {
            sender.give(Bytes::from_slice(alloc, item)?)?;
        }
    }
    Ok(sender)
}

// Whether the numbers that aren't known are these.
fn lacks(sender: &LinkSender, numbers: &[u32]) -> bool {
    let mut same = sender.unknown_at(numbers.len()).is_none();
    for (j, number) in numbers.iter().enumerate() {
        same = sender.unknown_at(j) == Some(*number) && same;
    }
    same
}

// Whether a confirmation takes its number out, once.
fn confirms(alloc: Global) -> Result<bool, NoMemory> {
    let mut sender = sender(alloc)?;
    Ok(
        lacks(&sender, &[0, 1, 2])
            && sender.confirm(b"\0\0\0\x01") == Confirm::Known
            && lacks(&sender, &[0, 2])
            && sender.confirm(b"\0\0\0\x01") == Confirm::Again
            && lacks(&sender, &[0, 2])
            && sender.known() == 1,
    )
}

// Whether bytes that are no item's number leave all as it was.
fn refuses(alloc: Global) -> Result<bool, NoMemory> {
    let mut sender = sender(alloc)?;
    Ok(
        sender.confirm(b"\0\0\0\x03") == Confirm::Malformed
            && sender.confirm(b"\0\0\0") == Confirm::Malformed
            && sender.confirm(b"\0\0\0\x01\0") == Confirm::Malformed
            && lacks(&sender, &[0, 1, 2]),
    )
}

fn has_datagram(alloc: Global, number: u32, wanted: &[u8]) -> Result<bool, NoMemory> {
    let sender = sender(alloc)?;
    if number as usize >= sender.items().len() {
        return Ok(false);
    }
    Ok(sender.datagram(alloc, number)?.as_slice() == wanted)
}

#[test]
fn confirmations_are_read(rt: HostRuntime) {
    assert_eq!(rt; confirms(rt.alloc()), Ok(true));
    assert_eq!(rt; refuses(rt.alloc()), Ok(true));
}

#[test]
fn a_datagram_is_a_number_and_an_item(rt: HostRuntime) {
    assert_eq!(rt; has_datagram(rt.alloc(), 2, b"\0\0\0\x02c"), Ok(true));
}
