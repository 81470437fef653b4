//! Faults of files, sinks and the switch, which no run of the program shows.

use gal_io::{MemFiles, MemSink, NoMemory};
use gallium_cli::{Status, gallium};
use std::alloc::{AllocError, Global};
use std::test::Fail;
use switch_machine::{CallKind, ModelSwitch};

// An address translator: port 0 is the inside, port 1 the outside, 192.0.2.1 the public address.
const TRANSLATOR: &str = "map out (32, 16) -> (16) capacity 60000;\n\
    map back (16) -> (32, 16) capacity 60000;\n\
    int next : 16 = 1024;\n\
    process {\n  \
    if has.tcp == 0:1 { drop; }\n  \
    if meta.port == 0:8 {\n    \
    look f, p = out[ip.src, tcp.sport];\n    \
    let q = p;\n    \
    if f == 0:1 {\n      \
    repeat i 1 {\n        \
    look g, n = next[];\n        \
    put a = out[ip.src, tcp.sport] -> n;\n        \
    if a == 0:1 { drop; }\n        \
    put b = back[n] -> ip.src, tcp.sport;\n        \
    put c = next[] -> n + 1:16;\n        \
    q = n;\n      \
    }\n    \
    }\n    \
    ip.sum = adjust(adjust(ip.sum, cast(16, ip.src >> 16), 0xc000:16),\n                    \
    cast(16, ip.src), 0x0201:16);\n    \
    tcp.sum = adjust(adjust(adjust(tcp.sum, cast(16, ip.src >> 16), 0xc000:16),\n                    \
    cast(16, ip.src), 0x0201:16), tcp.sport, q);\n    \
    ip.src = 0xc0000201:32;\n    \
    tcp.sport = q;\n    \
    send 1:8;\n  \
    }\n  \
    if ip.dst != 0xc0000201:32 { drop; }\n  \
    look h, da, dp = back[tcp.dport];\n  \
    if h == 0:1 { drop; }\n  \
    ip.sum = adjust(adjust(ip.sum, cast(16, ip.dst >> 16), cast(16, da >> 16)),\n                  \
    cast(16, ip.dst), cast(16, da));\n  \
    tcp.sum = adjust(adjust(adjust(tcp.sum, cast(16, ip.dst >> 16), cast(16, da >> 16)),\n                  \
    cast(16, ip.dst), cast(16, da)), tcp.dport, dp);\n  \
    ip.dst = da;\n  \
    tcp.dport = dp;\n  \
    send 0:8;\n\
    }\n";

const LIMITS: &str = "table_bits = 100000000\nstages = 32\nwriteback = 16\ntransfer_bytes = 64\n";

// The first packet of a flow, and three of its commands.
const TRACE: &str = "0 \
    02000000000102000000000208004500002800014000400606940a000001c63364071388005000000000000000005002200047cf0000\n";

const SCHEDULE: &str = "a\nu 0\nh 0\nc\nw\nk\nc\nw\nk\nc\nw\nk\nh 0\nd 0\n";

const REPORT: &str =
    "report 1\npackets 1 admitted 1 decided 1 released 1\nevents 14 idle 1\nversion 1 visible 1\ndrained no\n\
    packet 0 slow admitted 1 decided 2 version 1 released 14 send 1 \
    0200000000010200000000020800450000280001400040064e93c0000201c6336407040000500000000000000000500220009f560000\n\
    order 0\nobject out 1\n167772161 5000 -> 1024\nobject back 1\n1024 -> 167772161 5000\nobject next 1\n\
    -> 1025\nswitch out 1\n167772161 5000 -> 1024\nswitch back 1\n1024 -> 167772161 5000\nend\n";

// A file by its name, and its bytes.
type File = (&'static str, &'static str);

// What a replay of the translator reads, with its split.
const FILES: [File; 4] = [
    ("source", TRANSLATOR),
    ("trace", TRACE),
    ("schedule", SCHEDULE),
    ("limits", LIMITS),
];

const REPLAY: [&str; 5] = ["replay", "source", "trace", "schedule", "limits"];

// What is to fail: a read by its number, a call of the switch by its kind and its number, the first write of the answer
// and the first of the line that says why there is none, each after so many bytes.
#[derive(Clone, Copy)]
struct Faults {
    read: Option<u64>,
    call: Option<(CallKind, u64)>,
    answer: Option<usize>,
    line: Option<usize>,
}

const NONE: Faults = Faults {
    read: None,
    call: None,
    answer: None,
    line: None,
};

// A run, and how it is to end: the status, what is written on both sinks, and how many calls of the switch failed.
#[derive(Clone, Copy)]
struct Case<'a> {
    words: &'a [&'a str],
    files: &'a [File],
    faults: Faults,
    status: Status,
    answer: &'a str,
    line: &'a str,
    switch_faults: u64,
}

fn words(alloc: Global, words: &[&str]) -> Result<Vec<String>, AllocError> {
    let mut owned = Vec::new(alloc);
    for word in words {
        owned.push(String::from_str(alloc, word)?)?;
    }
    Ok(owned)
}

fn files(alloc: Global, files: &[File]) -> Result<MemFiles, NoMemory> {
    let mut made = MemFiles::new(alloc);
    for (name, text) in files {
        made.add(name, text.as_bytes())?;
    }
    Ok(made)
}

fn plan_read(files: &mut MemFiles, read: Option<u64>) -> Result<(), NoMemory> {
    match read {
        Some(number) => files.fail_at(number),
        None => Ok(()),
    }
}

fn plan_call(port: &mut ModelSwitch, call: Option<(CallKind, u64)>) -> Result<(), NoMemory> {
    match call {
        Some((kind, number)) => port.fail_at(kind, number),
        None => Ok(()),
    }
}

// A sink that takes so many bytes and fails, or all.
fn sink(alloc: Global, taken: Option<usize>) -> Result<MemSink, NoMemory> {
    let mut sink = MemSink::new(alloc);
    if let Some(taken) = taken {
        sink.fail_at(1, taken)?;
    }
    Ok(sink)
}

fn is_written(out: &MemSink, err: &MemSink, case: &Case) -> bool {
    out.bytes() == case.answer.as_bytes() && err.bytes() == case.line.as_bytes()
}

// The run itself.
fn ends(
    alloc: Global,
    files: &mut MemFiles,
    port: &mut ModelSwitch,
    out: &mut MemSink,
    err: &mut MemSink,
    case: &Case,
) -> Result<bool, AllocError> {
    let words = words(alloc, case.words)?;
    let status = gallium(alloc, &words, files, port, out, err);
    Ok(status == case.status && is_written(out, err, case) && port.faults() == case.switch_faults)
}

// The run over sinks that are made for it.
fn ends_on_sinks(
    alloc: Global,
    files: &mut MemFiles,
    port: &mut ModelSwitch,
    case: &Case,
) -> Result<bool, Fail> {
    let mut out = sink(alloc, case.faults.answer)?;
    let mut err = sink(alloc, case.faults.line)?;
    Ok(ends(alloc, files, port, &mut out, &mut err, case)?)
}

fn ends_by_plan(
    alloc: Global,
    files: &mut MemFiles,
    port: &mut ModelSwitch,
    case: &Case,
) -> Result<bool, Fail> {
    plan_read(files, case.faults.read)?;
    plan_call(port, case.faults.call)?;
    ends_on_sinks(alloc, files, port, case)
}

fn ends_on_a_switch(alloc: Global, files: &mut MemFiles, case: &Case) -> Result<bool, Fail> {
    let mut port = ModelSwitch::new(alloc);
    ends_by_plan(alloc, files, &mut port, case)
}

fn is_met(alloc: Global, case: &Case) -> Result<bool, Fail> {
    let mut files = files(alloc, case.files)?;
    ends_on_a_switch(alloc, &mut files, case)
}

// A replay that is refused for a fault: nothing is written.
fn failing_read(read: u64, line: &'static str) -> Case<'static> {
    Case {
        words: &REPLAY,
        files: &FILES,
        faults: Faults {
            read: Some(read),
            ..NONE
        },
        status: Status::ReadFault,
        answer: "",
        line,
        switch_faults: 0,
    }
}

fn failing_call(kind: CallKind, number: u64) -> Case<'static> {
    Case {
        words: &REPLAY,
        files: &FILES,
        faults: Faults {
            call: Some((kind, number)),
            ..NONE
        },
        status: Status::SwitchFault,
        answer: "",
        line: "switch fault\n",
        switch_faults: 1,
    }
}

fn failing_answer(taken: usize, answer: &'static str) -> Case<'static> {
    Case {
        words: &REPLAY,
        files: &FILES,
        faults: Faults {
            answer: Some(taken),
            ..NONE
        },
        status: Status::WriteFault,
        answer,
        line: "write fault\n",
        switch_faults: 0,
    }
}

// A replay whose faults never come.
fn done(faults: Faults) -> Case<'static> {
    Case {
        words: &REPLAY,
        files: &FILES,
        faults,
        status: Status::Done,
        answer: REPORT,
        line: "",
        switch_faults: 0,
    }
}

// A read that fails is the last one, and its file is the one that is told. There are four.
#[test]
fn failing_reads(rt: HostRuntime) -> Result<(), Fail> {
    for (read, line) in [
        (1, "read fault: source\n"),
        (2, "read fault: limits\n"),
        (3, "read fault: trace\n"),
        (4, "read fault: schedule\n"),
    ] {
        assert!(rt;
            is_met(rt.alloc(), &failing_read(read, line))?,
            "read {read}"
        );
    }
    let fifth = Faults {
        read: Some(5),
        ..NONE
    };
    assert!(rt; is_met(rt.alloc(), &done(fifth))?);
    Ok(())
}

// A switch that fails at some call: nothing is written, and the one fault is counted.
#[test]
fn failing_calls_of_the_switch(rt: HostRuntime) -> Result<(), Fail> {
    for (kind, number) in [
        (CallKind::Load, 1),
        (CallKind::Room, 1),
        (CallKind::Up, 1),
        (CallKind::Down, 1),
        (CallKind::Visible, 1),
        (CallKind::Command, 1),
        (CallKind::Command, 2),
        (CallKind::Command, 3),
    ] {
        assert!(rt;
            is_met(rt.alloc(), &failing_call(kind, number))?,
            "{kind:?} {number}"
        );
    }
    // three commands are applied, so a fourth that would fail never comes
    let fourth = Faults {
        call: Some((CallKind::Command, 4)),
        ..NONE
    };
    assert!(rt; is_met(rt.alloc(), &done(fourth))?);
    Ok(())
}

// No words, and a sink for the line that takes two bytes of it.
const LINE: Case<'static> = Case {
    words: &[],
    files: &[],
    faults: Faults {
        line: Some(2),
        ..NONE
    },
    status: Status::WriteFault,
    answer: "",
    line: "us",
    switch_faults: 0,
};

// A sink that takes no byte, or three, and fails.
#[test]
fn failing_sinks(rt: HostRuntime) -> Result<(), Fail> {
    assert!(rt; is_met(rt.alloc(), &failing_answer(0, ""))?);
    assert!(rt; is_met(rt.alloc(), &failing_answer(3, "rep"))?);
    assert!(rt; is_met(rt.alloc(), &LINE)?);
    Ok(())
}

const RUN: [&str; 3] = ["run", "source", "trace"];

const DROPS: File = ("source", "process { drop; }");

// A run whose trace isn't there.
const NO_TRACE: Case<'static> = Case {
    words: &RUN,
    files: &[DROPS],
    faults: NONE,
    status: Status::ReadFault,
    answer: "",
    line: "read fault: trace\n",
    switch_faults: 0,
};

// A run whose answer isn't taken whole.
const CUT_OFF: Case<'static> = Case {
    words: &RUN,
    files: &[DROPS, ("trace", "0 -")],
    faults: Faults {
        answer: Some(3),
        ..NONE
    },
    status: Status::WriteFault,
    answer: "pac",
    line: "write fault\n",
    switch_faults: 0,
};

#[test]
fn failing_runs(rt: HostRuntime) -> Result<(), Fail> {
    assert!(rt; is_met(rt.alloc(), &NO_TRACE)?);
    assert!(rt; is_met(rt.alloc(), &CUT_OFF)?);
    Ok(())
}
