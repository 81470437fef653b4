//! What a replayer tells of frames and commands.
ghost use Rattle.std.specs.Prelude.{◌≡◌, [], IfOk};
ghost use Rattle.schedule_replay.specs.Replayer.{HasPerformed};
ghost use Rattle.replayer_tests.specs.Ready.{IsReady};

use crate::samples::{TELLS, job, of_bytes};
use replay_contracts::Job;
use run_model::Event;
use schedule_replay::Replayer;
use std::alloc::Global;
use std::test::Fail;
use switch_ir::SwitchPort;
use switch_machine::ModelSwitch;

fn begun<S: SwitchPort + Drop>(alloc: Global, job: &Job, port: S) -> Result<Replayer<S>, Fail>
    requires { IsReady job.now }
    ensures performed { IfOk result (HasPerformed S.seen []) }
    ensures unused { IfOk result (λ replayer. replayer.steps ≡ 0) }
{
    match Replayer::new(alloc, job, port) {
        Ok(replayer) => Ok(replayer),
        Err(_) => Err(Fail::from("no replay")),
    }
}

// Performs the first events of a replay.
fn perform<S: SwitchPort>(replayer: &mut Replayer<S>, events: &[Event]) -> Result<(), Fail>
    requires performed { HasPerformed S.seen [] replayer.old }
    requires begun { replayer.old.steps ≡ 0 }
{
    if events.len() > 16 {
        return Err(Fail::from("too many events"));
    }
    for event in events {
        let Ok(_) = replayer.step(event) else {
            return Err(Fail::from("no step"));
        };
    }
    Ok(())
}

// Whether the first frame up, the second, the first frame down and a command are told.
fn told<S: SwitchPort>(replayer: &Replayer<S>) -> (bool, bool, bool, bool) {
    (
        replayer.up_frame(0).is_some(),
        replayer.up_frame(1).is_some(),
        replayer.down_frame(0).is_some(),
        replayer.sent_command().is_some(),
    )
}

fn told_of<S: SwitchPort + Drop>(
    alloc: Global,
    job: &Job,
    port: S,
    events: &[Event],
) -> Result<(bool, bool, bool, bool), Fail>
    requires { IsReady job.now }
{
    let mut replayer = begun(alloc, job, port)?;
    perform(&mut replayer, events)?;
    Ok(told(&replayer))
}

// What is told after these events over two packets.
fn told_after(alloc: Global, events: &[Event]) -> Result<(bool, bool, bool, bool), Fail> {
    let job = job(alloc, TELLS, of_bytes(alloc, &[7, 8])?)?;
    told_of(alloc, &job, ModelSwitch::new(alloc), events)
}

const ADMITTED: [Event; 2] = [Event::Admit, Event::Admit];

const SENT: [Event; 4] = [Event::Admit, Event::Admit, Event::Serve(1), Event::Send];

const LET_GO: [Event; 9] = [
    Event::Admit,
    Event::Serve(0),
    Event::Send,
    Event::Send,
    Event::Apply,
    Event::Apply,
    Event::Ack,
    Event::Ack,
    Event::Hold(0),
];

#[test]
fn frames_and_commands_are_told(rt: HostRuntime) -> Result<(), Fail> {
    let alloc = rt.alloc();
    assert_eq!(rt; told_after(alloc, &ADMITTED)?, (true, true, false, false));
    assert_eq!(rt; told_after(alloc, &SENT)?, (true, false, false, true));
    assert_eq!(rt; told_after(alloc, &LET_GO)?, (false, false, true, true));
    Ok(())
}
