//! The four links, and what goes over them.
ghost use Rattle.std.specs.Prelude.{◌≡◌, ◌≤◌, ◌<◌, ◌+◌, ◌-◌, ◌^◌, ◌++◌, ◌∷◌, [], ℕ, List, length, map, IfErr, IfSome, OnOk};
ghost use Rattle.run_model.specs.Sizes.{most_events};
ghost use Rattle.run_model.specs.declared.link_event.LinkEvent.{LinkEvent};
ghost use Rattle.run_model.specs.declared.link_event.LinkEvent.TheVariants.{World};
ghost use Rattle.lossy_link.specs.CommandBytes.{NamesBelow, bytes_of};
ghost use Rattle.lossy_link.specs.Link.{Link as LinkState, arrive, confirm, link_step, send};
ghost use Rattle.output_commit.specs.Commit.{last_sent};
ghost use Rattle.replay_state.specs.Journal.{Call};
ghost use Rattle.replay_state.specs.State.{State};
ghost use Rattle.replay_state.specs.Commands.{one_or_none};
ghost use Rattle.replay_state.specs.Program.{SplitProgram};
ghost use Rattle.replay_contracts.specs.Replayer.{Fails, StaysTold, inputs_of};
ghost use Rattle.replay_course.specs.Shown.{IsShown};
ghost use Rattle.lossy_replay.specs.Linked.{Linked, at_link, first_linked, given_all, let_by};
ghost use Rattle.lossy_replay.specs.Linking.{AreLinks, IsLinking, IsLinkingShort, newest, noted};
ghost use Rattle.lossy_replay.specs.Lines.{IsAtWork, link_of};
ghost use Rattle.lossy_replay.specs.Replay.{HasEnds};
ghost use Rattle.lossy_replay.specs.Ways.{IsWay};

use crate::allowing::applies;
use crate::line::Line;
use crate::run::LossyRun;
use crate::way::Way;
use gal_io::{Bytes, NoMemory};
use lossy_link::write_command;
use output_commit::Commit;
use replay_contracts::{Job, ReplayError};
use replay_course::Course;
use run_model::{Event, Link, LinkEvent, Run};
use std::alloc::Global;
use std::collections::VecDeque;
use switch_ir::SwitchPort;

/// The links between the switch and the server.
#[derive(Drop)]
pub struct Links {
    pub up: Way,
    pub down: Way,
    pub ctl: Line,
    pub ack: Line,
}

// Gives the frame that stands last to a link, where there are more than there were.
fn give_last(
    alloc: Global,
    frames: &VecDeque<(u32, Bytes)>,
    before: usize,
    way: &mut Way,
) -> Result<(), NoMemory>
    requires way { (l : LinkState) × (gone : List ℕ) × IsWay l gone way.old }
    requires few_items { length way.old.line.sender.items < 2 ^ 32 - 1 }
    ensures { OnOk result ((l : LinkState) (gone : List ℕ) → IsWay l gone way.old
        → IsWay (given_all l (newest before frames.now.items)) gone way.new) }
{
    if frames.len() <= before {
        return Ok(());
    }
    match frames.get(frames.len() - 1) {
        Some((_, frame)) => way.give(frame.copy(alloc)?),
        None => Ok(()),
    }
}

// Gives the last command that was sent to the link of commands.
fn give_command(alloc: Global, commit: &Commit, ctl: &mut Line) -> Result<(), NoMemory>
    requires at_work { IsAtWork ctl.old }
    requires few_items { length ctl.old.sender.items < 2 ^ 32 - 1 }
    requires small { IfSome (last_sent commit.now) (NamesBelow 64) }
    ensures link { OnOk result
        (link_of ctl.new ≡ given_all (link_of ctl.old) (map bytes_of (one_or_none (last_sent commit.now)))) }
    ensures at_work { OnOk result (IsAtWork ctl.new) }
{
    match commit.sent_command() {
        Some(command) => {
            let _ = ctl.give(write_command(alloc, &command)?)?;
            Ok(())
        }
        None => Ok(()),
    }
}

impl Links {
    /// Nothing was given to any of them.
    pub fn new(alloc: Global) -> Links
        ensures { AreLinks 0 first_linked result }
    {
        Links {
            up: Way::new(alloc),
            down: Way::new(alloc),
            ctl: Line::new(alloc, true),
            ack: Line::new(alloc, true),
        }
    }

    // The event with its place as the world counts, where the links let it happen.
    fn let_by(&self, course: &Course, event: Event) -> Option<Event>
        requires { (n : ℕ) × (l : Linked) × AreLinks n l self.now }
        ensures { (n : ℕ) (l : Linked) (s : SplitProgram) (calls : List Call) (st : State) → AreLinks n l self.now
            → IsShown s calls st course.now → result ≡ let_by l st event }
    {
        match event {
            Event::Admit | Event::Send | Event::Hold(_) => Some(event),
            Event::Stage(_) => None,
            Event::Serve(j) => Some(Event::Serve(self.up.place(j)?)),
            Event::Apply => {
                if (course.commit.applied() as usize) < self.ctl.delivered() {
                    Some(event)
                } else {
                    None
                }
            }
            Event::Ack => {
                if (course.commit.acked() as usize) < self.ack.delivered() {
                    Some(event)
                } else {
                    None
                }
            }
            Event::Down(j) => Some(Event::Down(self.down.place(j)?)),
        }
    }

    // What the event gave is given to the links. So many frames were on their way up before it.
    fn note(
        &mut self,
        alloc: Global,
        course: &Course,
        event: Event,
        before: usize,
    ) -> Result<(), NoMemory>
        requires links { (n : ℕ) × (l : Linked) × (n < most_events) × AreLinks n l self.old }
        requires small { IfSome (last_sent course.now.commit) (NamesBelow 64) }
        ensures { OnOk result ((n : ℕ) (l : Linked) → AreLinks n l self.old
            → AreLinks (n + 1) (noted course.now before l event) self.new) }
    {
        match event {
            Event::Admit => give_last(alloc, &course.up, before, &mut self.up),
            Event::Serve(j) => {
                self.up.take(j);
                Ok(())
            }
            Event::Send => give_command(alloc, &course.commit, &mut self.ctl),
            Event::Apply => {
                let _ = self.ack.give(Bytes::new(alloc))?;
                Ok(())
            }
            Event::Hold(_) => give_last(alloc, &course.down, 0, &mut self.down),
            Event::Down(j) => {
                self.down.take(j);
                Ok(())
            }
            Event::Stage(_) | Event::Ack => Ok(()),
        }
    }

    // An event of the world is performed, where it applies and the links let it happen.
    fn world<S: SwitchPort>(
        &mut self,
        alloc: Global,
        job: &Job,
        course: &mut Course,
        port: &mut S,
        event: Event,
    ) -> Result<(), ReplayError>
        requires { IsLinkingShort (inputs_of job.now) self.old course.old (S.seen port.old) }
        ensures ok { OnOk result ((schedule : List LinkEvent)
            → IsLinking (inputs_of job.now) schedule self.old course.old (S.seen port.old)
            → IsLinking (inputs_of job.now) (schedule ++ World event ∷ []) self.new course.new (S.seen port.new)) }
        ensures stays { OnOk result (StaysTold (S.seen port.old) (S.seen port.new)) }
        ensures fails { IfErr result (λ e. Fails e (S.seen port.old) (S.seen port.new)) }
    {
        let Some(own) = self.let_by(course, event) else {
            return Ok(());
        };
        if !applies(job, course, own) {
            return Ok(());
        }
        let before = course.up.len();
        let _ = course.step(alloc, job, port, own)?;
        self.note(alloc, course, event, before)?;
        Ok(())
    }

    fn transmit(&mut self, link: Link, j: u32) -> Result<(), NoMemory>
        requires { (n : ℕ) × (l : Linked) × AreLinks n l self.old }
        ensures { OnOk result ((n : ℕ) (l : Linked) → AreLinks n l self.old
            → AreLinks (n + 1) (at_link (λ one. link_step one (send j)) l link) self.new) }
    {
        match link {
            Link::Up => self.up.transmit(j),
            Link::Down => self.down.transmit(j),
            Link::Ctl => self.ctl.transmit(j),
            Link::Ack => self.ack.transmit(j),
        }
    }

    fn deliver(&mut self, alloc: Global, link: Link, j: u32) -> Result<(), NoMemory>
        requires { (n : ℕ) × (l : Linked) × AreLinks n l self.old }
        ensures { OnOk result ((n : ℕ) (l : Linked) → AreLinks n l self.old
            → AreLinks (n + 1) (at_link (λ one. link_step one (arrive j)) l link) self.new) }
    {
        match link {
            Link::Up => self.up.deliver(alloc, j),
            Link::Down => self.down.deliver(alloc, j),
            Link::Ctl => {
                let _ = self.ctl.deliver(alloc, j)?;
                Ok(())
            }
            Link::Ack => {
                let _ = self.ack.deliver(alloc, j)?;
                Ok(())
            }
        }
    }

    fn confirm(&mut self, link: Link, j: u32)
        requires { (n : ℕ) × (l : Linked) × AreLinks n l self.old }
        ensures { (n : ℕ) (l : Linked) → AreLinks n l self.old
            → AreLinks (n + 1) (at_link (λ one. link_step one (confirm j)) l link) self.new }
    {
        match link {
            Link::Up => self.up.confirm(j),
            Link::Down => self.down.confirm(j),
            Link::Ctl => self.ctl.confirm(j),
            Link::Ack => self.ack.confirm(j),
        }
    }

    /// One event, of the world or of a link.
    pub fn step<S: SwitchPort>(
        &mut self,
        alloc: Global,
        job: &Job,
        course: &mut Course,
        port: &mut S,
        event: LinkEvent,
    ) -> Result<(), ReplayError>
        requires { IsLinkingShort (inputs_of job.now) self.old course.old (S.seen port.old) }
        ensures ok { OnOk result ((schedule : List LinkEvent)
            → IsLinking (inputs_of job.now) schedule self.old course.old (S.seen port.old)
            → IsLinking (inputs_of job.now) (schedule ++ event ∷ []) self.new course.new (S.seen port.new)) }
        ensures stays { OnOk result (StaysTold (S.seen port.old) (S.seen port.new)) }
        ensures fails { IfErr result (λ e. Fails e (S.seen port.old) (S.seen port.new)) }
    {
        match event {
            LinkEvent::World(event) => self.world(alloc, job, course, port, event),
            LinkEvent::Transmit(link, j) => Ok(self.transmit(link, j)?),
            LinkEvent::Deliver(link, j) => Ok(self.deliver(alloc, link, j)?),
            LinkEvent::Confirm(link, j) => {
                self.confirm(link, j);
                Ok(())
            }
        }
    }

    /// The ends of the links, with what is reported.
    pub fn into_run(self, run: Run) -> LossyRun
        requires { (n : ℕ) × (l : Linked) × (n ≤ most_events) × AreLinks n l self }
        ensures run { result.run ≡ run }
        ensures ends { (n : ℕ) (l : Linked) → AreLinks n l self → HasEnds l result }
    {
        let up = self.up;
        let down = self.down;
        LossyRun {
            run,
            up: up.line.into_ends(),
            down: down.line.into_ends(),
            ctl: self.ctl.into_ends(),
            ack: self.ack.into_ends(),
        }
    }
}
