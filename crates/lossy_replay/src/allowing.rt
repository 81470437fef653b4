//! Whether an event applies.
ghost use Rattle.std.specs.Prelude.{◌≡◌, List, Some};
ghost use Rattle.run_model.specs.declared.event.Event.TheVariants.{Apply};
ghost use Rattle.replay_state.specs.Journal.{Call};
ghost use Rattle.replay_state.specs.State.{State};
ghost use Rattle.replay_state.specs.Step.{applies};
ghost use Rattle.replay_contracts.specs.Inputs.{setup_for, whole};
ghost use Rattle.replay_contracts.specs.Replayer.{inputs_of};
ghost use Rattle.replay_course.specs.Shown.{IsShown};

use replay_contracts::Job;
use replay_course::Course;
use run_model::Event;

// Whether the next command that was sent is there and need not wait for a pass under way.
fn may_apply(course: &Course) -> bool
    ensures { (job : Job) (calls : List Call) (st : State) → IsShown (whole (inputs_of job)) calls st course.now
        → result ≡ applies (setup_for (inputs_of job)) st Apply }
{
    match course.commit.peek() {
        Some(command) => !course.passes.are_disturbed(&command),
        None => false,
    }
}

/// Whether an event applies to what a course shows.
pub fn applies(job: &Job, course: &Course, event: Event) -> bool
    ensures { (calls : List Call) (st : State) → IsShown (whole (inputs_of job.now)) calls st course.now
        → result ≡ applies (setup_for (inputs_of job.now)) st event }
{
    let commit = &course.commit;
    match event {
        Event::Admit => course.fates.len() < job.packets.len(),
        Event::Stage(j) => (j as usize) < course.passes.len(),
        Event::Serve(j) => (j as usize) < course.up.len(),
        Event::Send => commit.sent() < commit.commands(),
        Event::Apply => may_apply(course),
        Event::Ack => commit.acked() < commit.applied(),
        Event::Hold(j) => commit.may_release(j as usize),
        Event::Down(j) => (j as usize) < course.down.len(),
    }
}
