//! The translator's replays, event by event.
ghost use Rattle.std.specs.Prelude.{◌≡◌, ◌≤◌, ◌<◌, ◌+◌, length, IfOk};
ghost use Rattle.run_model.specs.Sizes.{most_events};
ghost use Rattle.replayer_tests.specs.Ready.{IsReady};

use crate::samples::{eight_flows, job, one_flow};
use gal_io::{NoMemory, Text};
use packet_fields::Packets;
use run_model::Event;
use run_text::print_run;
use schedule_replay::{Job, ReplayError, Replayer, Stepped};
use state_store::Objects;
use std::alloc::Global;
use std::test::Fail;
use switch_ir::SwitchPort;
use switch_machine::{CallKind, ModelSwitch};
use traffic_generator::translator_source;

fn begun<S: SwitchPort + Drop>(alloc: Global, job: &Job, port: S) -> Result<Replayer<S>, Fail>
    requires { IsReady job.now }
    ensures unused { IfOk result (λ replayer. replayer.steps ≡ 0) }
{
    match Replayer::new(alloc, job, port) {
        Ok(replayer) => Ok(replayer),
        Err(_) => Err(Fail::from("no replay")),
    }
}

// Performs an event, and answers whether it did something just where it should.
fn steps_so<S: SwitchPort>(replayer: &mut Replayer<S>, event: &Event, expected: Stepped) -> bool
    requires few_events { replayer.old.steps < most_events }
    ensures { replayer.new.steps ≤ replayer.old.steps + 1 }
{
    replayer.stands();
    match replayer.step(event) {
        Ok(stepped) => stepped == expected,
        Err(_) => false,
    }
}

// Performs the first events of a replay, and answers whether just those did something that should.
fn all_step_so<S: SwitchPort>(replayer: &mut Replayer<S>, events: &[(Event, Stepped)]) -> bool
    requires unused { replayer.old.steps ≡ 0 }
    requires few_events { length events.now ≤ 64 }
{
    let mut all = true;
    for planned in events {
        let (event, expected) = *planned;
        let so = steps_so(replayer, &event, expected);
        all = all && so;
    }
    all
}

// What drain answers, where it is called.
fn drained<S: SwitchPort>(
    replayer: &mut Replayer<S>,
    drains: bool,
) -> Option<Result<u64, ReplayError>> {
    if drains { Some(replayer.drain()) } else { None }
}

// The text of the report, which is empty where there is none.
fn reported<S: SwitchPort>(alloc: Global, replayer: &mut Replayer<S>, objects: &Objects) -> Text {
    match replayer.report() {
        Ok(replayed) => match print_run(alloc, objects, &replayed.run) {
            Ok(text) => text,
            Err(_) => Text::new(alloc),
        },
        Err(_) => Text::new(alloc),
    }
}

// What a replayer told: whether the events did something just where they should, what drain answered, the text of the
// report, and how many calls of the switch failed.
#[derive(Drop)]
struct Told {
    as_planned: bool,
    drained: Option<Result<u64, ReplayError>>,
    report: Text,
    faults: u64,
}

impl Told {
    // Whether the events did as planned, drain answered so, and so many calls failed.
    fn is(&self, drained: Option<Result<u64, ReplayError>>, faults: u64) -> bool {
        self.as_planned && self.drained == drained && self.faults == faults
    }
}

fn performed_over(
    alloc: Global,
    job: &Job,
    port: ModelSwitch,
    events: &[(Event, Stepped)],
    drains: bool,
) -> Result<Told, Fail>
    requires ready { IsReady job.now }
    requires few_events { length events.now ≤ 64 }
{
    let mut replayer = begun(alloc, job, port)?;
    let as_planned = all_step_so(&mut replayer, events);
    let drained = drained(&mut replayer, drains);
    let report = reported(alloc, &mut replayer, &job.flat.objects);
    let faults = replayer.into_port().faults();
    Ok(Told {
        as_planned,
        drained,
        report,
        faults,
    })
}

// A switch that fails at its command of this number, if at any.
fn switch(alloc: Global, failing: Option<u64>) -> Result<ModelSwitch, NoMemory> {
    let mut port = ModelSwitch::new(alloc);
    if let Some(number) = failing {
        port.fail_at(CallKind::Command, number)?;
    }
    Ok(port)
}

// What is told of these events over these packets, and then of drain, over a switch that fails at this command.
fn performed(
    alloc: Global,
    packets: Packets,
    events: &[(Event, Stepped)],
    drains: bool,
    failing: Option<u64>,
) -> Result<Told, Fail>
    requires { length events.now ≤ 64 }
{
    let job = job(alloc, translator_source(), packets)?;
    let port = switch(alloc, failing)?;
    performed_over(alloc, &job, port, events, drains)
}

// The output is held until the third command is acknowledged.
const SCHEDULE: [(Event, Stepped); 14] = [
    (Event::Admit, Stepped::Did),
    (Event::Serve(0), Stepped::Did),
    (Event::Hold(0), Stepped::Idle),
    (Event::Send, Stepped::Did),
    (Event::Apply, Stepped::Did),
    (Event::Ack, Stepped::Did),
    (Event::Send, Stepped::Did),
    (Event::Apply, Stepped::Did),
    (Event::Ack, Stepped::Did),
    (Event::Send, Stepped::Did),
    (Event::Apply, Stepped::Did),
    (Event::Ack, Stepped::Did),
    (Event::Hold(0), Stepped::Did),
    (Event::Down(0), Stepped::Did),
];

const ONE: &str = "report 1
packets 1 admitted 1 decided 1 released 1
events 14 idle 1
version 1 visible 1
drained no
packet 0 slow admitted 1 decided 2 version 1 released 14 send 1 0200000000010200000000020800450000280001400040064e93c0000201c6336407040000500000000000000000500220009f560000
order 0
object out 1
167772161 5000 -> 1024
object back 1
1024 -> 167772161 5000
object next 1
-> 1025
switch out 1
167772161 5000 -> 1024
switch back 1
1024 -> 167772161 5000
end
";

fn is_output_held(alloc: Global) -> Result<bool, Fail> {
    let told = performed(alloc, one_flow(alloc, 1)?, &SCHEDULE, false, None)?;
    Ok(told.is(None, 0) && told.report.as_slice() == ONE.as_bytes())
}

#[test]
fn an_output_waits_for_its_commands(rt: HostRuntime) -> Result<(), Fail> {
    assert!(rt; is_output_held(rt.alloc())?);
    Ok(())
}

// The report up to the ninth packet, the first that finds its flow on the switch.
const FIRST: &str = "report 1
packets 64 admitted 64 decided 64 released 64
events 280 idle 0
version 8 visible 8
drained yes
packet 0 slow admitted 1 decided 2 version 1 released 28 send 1 0200000000010200000000020800450000280001400040064e93c0000201c6336407040000500000000000000000500220009f560000
packet 1 slow admitted 29 decided 30 version 2 released 56 send 1 0200000000010200000000020800450000280001400040064e93c0000201c6336407040100500000000000000000500220009f550000
packet 2 slow admitted 57 decided 58 version 3 released 84 send 1 0200000000010200000000020800450000280001400040064e93c0000201c6336407040200500000000000000000500220009f540000
packet 3 slow admitted 85 decided 86 version 4 released 112 send 1 0200000000010200000000020800450000280001400040064e93c0000201c6336407040300500000000000000000500220009f530000
packet 4 slow admitted 113 decided 114 version 5 released 140 send 1 0200000000010200000000020800450000280001400040064e93c0000201c6336407040400500000000000000000500220009f520000
packet 5 slow admitted 141 decided 142 version 6 released 168 send 1 0200000000010200000000020800450000280001400040064e93c0000201c6336407040500500000000000000000500220009f510000
packet 6 slow admitted 169 decided 170 version 7 released 196 send 1 0200000000010200000000020800450000280001400040064e93c0000201c6336407040600500000000000000000500220009f500000
packet 7 slow admitted 197 decided 198 version 8 released 224 send 1 0200000000010200000000020800450000280001400040064e93c0000201c6336407040700500000000000000000500220009f4f0000
packet 8 fast admitted 225 decided 225 version 8 released 225 send 1 0200000000010200000000020800450000280001400040064e93c0000201c6336407040000500000000000000000500220009f560000
";

// The report from the last packet on.
const LAST: &str =
    "packet 63 fast admitted 280 decided 280 version 8 released 280 send 0 0200000000010200000000020800450000280002400040060693c63364070a0000010050138f00000000000000015012200047b70000
order 0 1 2 3 4 5 6 7 8 9 10 11 12 13 14 15 16 17 18 19 20 21 22 23 24 25 26 27 28 29 30 31 32 33 34 35 36 37 38 39 40 41 42 43 44 45 46 47 48 49 50 51 52 53 54 55 56 57 58 59 60 61 62 63
object out 8
167772161 5000 -> 1024
167772161 5001 -> 1025
167772161 5002 -> 1026
167772161 5003 -> 1027
167772161 5004 -> 1028
167772161 5005 -> 1029
167772161 5006 -> 1030
167772161 5007 -> 1031
object back 8
1024 -> 167772161 5000
1025 -> 167772161 5001
1026 -> 167772161 5002
1027 -> 167772161 5003
1028 -> 167772161 5004
1029 -> 167772161 5005
1030 -> 167772161 5006
1031 -> 167772161 5007
object next 1
-> 1032
switch out 8
167772161 5000 -> 1024
167772161 5001 -> 1025
167772161 5002 -> 1026
167772161 5003 -> 1027
167772161 5004 -> 1028
167772161 5005 -> 1029
167772161 5006 -> 1030
167772161 5007 -> 1031
switch back 8
1024 -> 167772161 5000
1025 -> 167772161 5001
1026 -> 167772161 5002
1027 -> 167772161 5003
1028 -> 167772161 5004
1029 -> 167772161 5005
1030 -> 167772161 5006
1031 -> 167772161 5007
end
";

fn is_all_released(alloc: Global) -> Result<bool, Fail> {
    let told = performed(alloc, eight_flows(alloc)?, &[], true, None)?;
    let text = told.report.as_slice();
    let is_whole = text.starts_with(FIRST.as_bytes()) && text.ends_with(LAST.as_bytes());
    Ok(is_whole && told.is(Some(Ok(280)), 0))
}

#[test]
fn drain_releases_every_packet(rt: HostRuntime) -> Result<(), Fail> {
    assert!(rt; is_all_released(rt.alloc())?);
    Ok(())
}

const TWO_SERVED: [(Event, Stepped); 4] = [
    (Event::Admit, Stepped::Did),
    (Event::Admit, Stepped::Did),
    (Event::Serve(0), Stepped::Did),
    (Event::Serve(0), Stepped::Did),
];

fn is_stopped_by_a_fault(alloc: Global) -> Result<bool, Fail> {
    let told = performed(alloc, one_flow(alloc, 2)?, &TWO_SERVED, true, Some(3))?;
    Ok(told.is(Some(Err(ReplayError::PortFault)), 1) && told.report.is_empty())
}

#[test]
fn nothing_is_reported_after_a_fault(rt: HostRuntime) -> Result<(), Fail> {
    assert!(rt; is_stopped_by_a_fault(rt.alloc())?);
    Ok(())
}
