//! The start of a replay.
ghost use Rattle.std.specs.Prelude.{◌≡◌, ◌≤◌, ◌<◌, ◌*◌, ◌^◌, [], Ok, length, is_some, if◌then◌else◌, IfErr, IfOk, OnOk};
ghost use Rattle.flat_ir.specs.Program.{program_of};
ghost use Rattle.split_model.specs.Bounds.{HasFewStages};
ghost use Rattle.switch_ir.specs.Port.{Loads};
ghost use Rattle.split_answers.specs.Whole.{IsSplit};
ghost use Rattle.replay_contracts.specs.Inputs.{code_for};
ghost use Rattle.replay_contracts.specs.Replayer.{CountsFault, HasBroken, inputs_of};
ghost use Rattle.replay_course.specs.Going.{most_commands};
ghost use Rattle.replay_course.specs.UnderWay.{HasReplayedFrom};

use crate::course::Course;
use replay_contracts::{Job, ReplayError};
use server_runtime::Server;
use state_store::Store;
use std::alloc::Global;
use switch_ir::{SwitchCode, SwitchPort, emit};

// How many stages a pass of this code has left where it enters before the server, and behind it: none where it takes
// one event in all.
fn stages_in(fine: bool, code: &SwitchCode) -> (u32, u32)
    ensures pre { result.0 ≡ (if fine then code.now.pre.highest else 0) }
    ensures post { result.1 ≡ (if fine then code.now.post.highest else 0) }
{
    if fine {
        (code.pre.highest, code.post.highest)
    } else {
        (0, 0)
    }
}

impl Course {
    /// Loads the switch with the code of a job. No event has happened yet. After an error the switch is as it was, or has
    /// that code.
    pub fn start<S: SwitchPort>(
        alloc: Global,
        job: &Job,
        port: &mut S,
    ) -> Result<Course, ReplayError>
        requires split { IsSplit (program_of job.now.flat) job.now.split job.now.writeback }
        requires stages { HasFewStages job.now.split }
        requires writeback { job.now.writeback ≤ 65536 }
        requires few_commands { length job.now.packets * most_commands (inputs_of job.now) < 2 ^ 32 }
        ensures started { IfOk result (λ course.
            HasReplayedFrom (inputs_of job.now) [] course (S.seen port.old) (S.seen port.new)) }
        ensures loads { OnOk result
            (Loads (Ok tt) (code_for (inputs_of job.now)) (S.seen port.old) (S.seen port.new)) }
        ensures stays { is_some (S.seen port.new).told ≡ is_some (S.seen port.old).told }
        ensures fault { IfErr result (λ e. CountsFault e (S.seen port.old) (S.seen port.new)) }
        ensures fails { IfErr result (λ e. HasBroken (inputs_of job.now) e (S.seen port.old) (S.seen port.new)) }
    {
        // The list tells the proof that each of its packets may arrive.
        let _ = job.packets.as_slice();
        let code = emit(alloc, &job.flat, &job.split, job.writeback)?;
        port.load(alloc, &code)?;
        let store = Store::new(alloc, &job.flat.objects)?;
        let server = Server::new(alloc, &job.flat, &job.split, store)?;
        let (pre_stages, post_stages) = stages_in(job.fine, &code);
        Ok(Course::new(alloc, server, job.writeback, pre_stages, post_stages))
    }
}
