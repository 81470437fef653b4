//! A whole replay over links.
ghost use Rattle.std.specs.Prelude.{◌≡◌, ◌≤◌, [], false, length, is_some, IfErr, IfOk, IsSome, OnOk};
ghost use Rattle.flat_ir.specs.Program.{program_of};
ghost use Rattle.run_model.specs.LinkEvents.{IsLinkSchedule};
ghost use Rattle.run_model.specs.Sizes.{most_packets};
ghost use Rattle.split_model.specs.Bounds.{HasFewStages};
ghost use Rattle.split_answers.specs.Whole.{IsSplit};
ghost use Rattle.replay_contracts.specs.Replayer.{CountsFault, HasBroken, inputs_of};
ghost use Rattle.lossy_replay.specs.Replay.{IsLinkedReplay, IsLinkedRun};

use crate::links::Links;
use crate::run::LossyRun;
use replay_contracts::{Job, ReplayError};
use replay_course::Course;
use run_model::LinkEvents;
use std::alloc::Global;
use switch_ir::SwitchPort;

/// Loads a switch with the code of a job, and performs the events of a schedule over links: those of the world only
/// where they apply and the links let them happen. Each other event of the world leaves no trace. No call of the switch
/// failed then. After an error exactly one call failed, or none where memory ran out, and the switch tells its tables
/// where it told them before. Either it is as it was, since its code was never loaded; or it has that code, and its
/// journal has the load and what was called behind it.
pub fn replay_lossy<S: SwitchPort>(
    alloc: Global,
    job: &Job,
    events: &LinkEvents,
    port: &mut S,
) -> Result<LossyRun, ReplayError>
    requires split { IsSplit (program_of job.now.flat) job.now.split job.now.writeback }
    requires stages { HasFewStages job.now.split }
    requires writeback { job.now.writeback ≤ 65536 }
    requires few_packets { length job.now.packets ≤ most_packets }
    requires schedule { IsLinkSchedule events.now }
    requires none { job.now.events ≡ [] }
    requires plain { job.now.fine ≡ false }
    requires ends { job.now.drain ≡ false }
    ensures linked { IfOk result (λ run. IsLinkedReplay (inputs_of job.now) events.now run (S.seen port.new)) }
    ensures told { IsSome (S.seen port.old).told → IfOk result (λ run.
        IsLinkedRun (inputs_of job.now) events.now run (S.seen port.new)) }
    ensures stays { is_some (S.seen port.new).told ≡ is_some (S.seen port.old).told }
    ensures no_fault { OnOk result ((S.seen port.new).faults ≡ (S.seen port.old).faults) }
    ensures fault { IfErr result (λ e. CountsFault e (S.seen port.old) (S.seen port.new)) }
    ensures fails { IfErr result (λ e. HasBroken (inputs_of job.now) e (S.seen port.old) (S.seen port.new)) }
{
    let mut course = Course::start(alloc, job, port)?;
    let mut links = Links::new(alloc);
    for event in events.as_slice() {
        links.step(alloc, job, &mut course, port, *event)?;
    }
    let replayed = course.report(alloc, job, port)?;
    Ok(links.into_run(replayed.run))
}
