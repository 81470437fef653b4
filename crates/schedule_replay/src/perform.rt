//! A whole replay.
ghost use Rattle.std.specs.Prelude.{◌≡◌, ◌≤◌, length, is_some, IfErr, IfOk, IsSome, OnOk};
ghost use Rattle.flat_ir.specs.Program.{program_of};
ghost use Rattle.run_model.specs.Sizes.{most_events, most_packets};
ghost use Rattle.split_model.specs.Bounds.{HasFewStages};
ghost use Rattle.split_answers.specs.Whole.{IsSplit};
ghost use Rattle.replay_contracts.specs.Replayer.{CountsFault, Fails, HasBroken, IsReported, IsRunOf, inputs_of};
ghost use Rattle.replay_course.specs.UnderWay.{HasReplayed};
ghost use Rattle.schedule_replay.specs.Ended.{HasEnded};

use replay_contracts::{Job, ReplayError, Replayed};
use replay_course::Course;
use std::alloc::Global;
use switch_ir::SwitchPort;

// The events that end a run, where they are asked for.
fn conclude<S: SwitchPort>(
    alloc: Global,
    job: &Job,
    port: &mut S,
    course: &mut Course,
) -> Result<(), ReplayError>
    requires few_packets { length job.now.packets ≤ most_packets }
    requires few_events { length job.now.events ≤ most_events }
    requires under_way { HasReplayed (inputs_of job.now) job.now.events course.old (S.seen port.old) }
    ensures ended { OnOk result
        (HasEnded (inputs_of job.now) job.now.events job.now.drain course.new (S.seen port.old) (S.seen port.new)) }
    ensures fails { IfErr result (λ e. Fails e (S.seen port.old) (S.seen port.new)) }
{
    if job.drain {
        course.drain(alloc, job, port)?;
    }
    Ok(())
}

/// Replays a job over a switch: the code of its split is loaded, its events are performed, and then, if the job asks for
/// it, the events that drain the run. Ok means that no call of the switch failed, PortFault that one did, and NoMemory
/// that none did. The switch tells its tables afterwards if it told them before. If the error came before the code was
/// loaded, the switch is as it was, but for its count of faults. If it came later, the switch has the code, and its
/// journal has the load and the calls after it.
pub fn replay<S: SwitchPort>(
    alloc: Global,
    job: &Job,
    port: &mut S,
) -> Result<Replayed, ReplayError>
    requires split { IsSplit (program_of job.now.flat) job.now.split job.now.writeback }
    requires stages { HasFewStages job.now.split }
    requires writeback { job.now.writeback ≤ 65536 }
    requires few_packets { length job.now.packets ≤ most_packets }
    requires few_events { length job.now.events ≤ most_events }
    ensures answered { IfOk result (λ replayed.
        IsReported (inputs_of job.now) job.now.events job.now.drain replayed (S.seen port.new)) }
    ensures told { IsSome (S.seen port.old).told → IfOk result (λ replayed.
        IsRunOf (inputs_of job.now) job.now.events job.now.drain replayed (S.seen port.new)) }
    ensures stays { is_some (S.seen port.new).told ≡ is_some (S.seen port.old).told }
    ensures no_fault { OnOk result ((S.seen port.new).faults ≡ (S.seen port.old).faults) }
    ensures fault { IfErr result (λ e. CountsFault e (S.seen port.old) (S.seen port.new)) }
    ensures fails { IfErr result (λ e. HasBroken (inputs_of job.now) e (S.seen port.old) (S.seen port.new)) }
{
    let mut course = Course::start(alloc, job, port)?;
    course.perform(alloc, job, port)?;
    conclude(alloc, job, port, &mut course)?;
    course.into_report(alloc, job, port)
}
