//! A course is the state of a replay between two events: its passes under way, its frames and outputs on their way, its
//! commands, and what became of each packet. Each method here is one step of what an event does.
ghost use Rattle.std.specs.Prelude.{◌≡◌, ◌<◌, ◌≤◌, ◌-◌, ◌^◌, ◌++◌, List, true, false, length, Some, None, is_some};
ghost use Rattle.std.specs.Prelude.{IfOk, OnOk, ◌+◌, if◌then◌else◌};
ghost use Rattle.packet_fields.specs.declared.packet.Packet.{Packet};
ghost use Rattle.run_model.specs.declared.event.Event.{Event};
ghost use Rattle.run_model.specs.declared.event.Event.TheVariants as event;
ghost use Rattle.replay_state.specs.Answers.{Answers, Setup};
ghost use Rattle.replay_state.specs.Journal.{Call, asked, asks_command, down_answer, journal};
ghost use Rattle.replay_state.specs.Journal.{down_end as down_ended, is_down_end, is_up_end, up_answer};
ghost use Rattle.replay_state.specs.Journal.{up_end as up_ended};
ghost use Rattle.replay_state.specs.Program.{SplitProgram};
ghost use Rattle.replay_state.specs.State.{State, first_state};
ghost use Rattle.replay_state.specs.Step.{applies, came, step, tick};
ghost use Rattle.replay_contracts.specs.Inputs.{Inputs, setup_for};
ghost use Rattle.replay_contracts.specs.Replayer.{stepped_by};
ghost use Rattle.output_commit.specs.Batches.{fits};
ghost use Rattle.output_commit.specs.Commit.{next};
ghost use Rattle.split_answers.specs.Through.{answer_of, down_answer_of};
ghost use Rattle.server_runtime.specs.Views.{server_of};
ghost use Rattle.replay_course.specs.Going.{FitsDown, FitsUp, IsSound};
ghost use Rattle.replay_course.specs.Going.{IsUpPassOf, IsDownPassOf, TakesOneMore, came_to, pass_for, ready_next, unapplied};
ghost use Rattle.replay_course.specs.Shown.{IsShown, called};

use crate::fates::{finish_at, release_at, send_up_at};
use crate::pass_queue::PassQueue;
use gal_io::{Bytes, NoMemory};
use output_commit::{Commit, Release};
use replay_contracts::Stepped;
use replay_state::Pass;
use run_model::Fate;
use server_runtime::Server;
use std::alloc::Global;
use std::collections::VecDeque;
use switch_ir::{DownEnd, UpEnd};
use writeback_table::Command;

/// The passes under way, the server, the frames on their way, the held outputs with the commands, and how far each
/// packet has come.
#[derive(Drop)]
pub struct Course {
    /// How many stages a pass has left where it enters before the server, and behind it.
    pub pre_stages: u32,
    pub post_stages: u32,
    /// The passes under way on the switch, in the order in which they entered.
    pub passes: PassQueue,
    /// The frames on their way up to the server, each with the number of its packet.
    pub up: VecDeque<(u32, Bytes)>,
    pub server: Server,
    pub commit: Commit,
    /// The frames on their way down to the switch, each with the number of its packet.
    pub down: VecDeque<(u32, Bytes)>,
    /// How far each admitted packet has come, by number.
    pub fates: Vec<Fate>,
    pub events: u32,
    pub idle: u32,
}

impl Course {
    /// Before any event, where passes enter with so many stages left before the server, and behind it.
    pub fn new(
        alloc: Global,
        server: Server,
        writeback: u32,
        pre_stages: u32,
        post_stages: u32,
    ) -> Course
        requires { server.version ≡ 0 }
        ensures shown { (s : SplitProgram) (calls : List Call)
            → IsShown s calls (first_state server.store) result }
        ensures server { result.server ≡ server }
        ensures sound { (x : Inputs) → (server_of server).program ≡ x.program → (server_of server).split ≡ x.split
            → writeback ≡ x.writeback → pre_stages ≡ (setup_for x).pre_stages
            → post_stages ≡ (setup_for x).post_stages → IsSound x result }
        ensures unapplied { unapplied result ≡ 0 }
    {
        Course {
            pre_stages,
            post_stages,
            passes: PassQueue::new(alloc),
            up: VecDeque::new(alloc),
            server,
            commit: Commit::new(alloc, writeback),
            down: VecDeque::new(alloc),
            fates: Vec::new(alloc),
            events: 0,
            idle: 0,
        }
    }

    /// An event that can't apply.
    pub fn idled(&mut self) -> Stepped
        requires events { self.old.events < 2 ^ 32 - 1 }
        requires idle { self.old.idle ≤ self.old.events }
        ensures stepped { result ≡ Stepped.Idle }
        ensures shown { (s : SplitProgram) (setup : Setup) (a : Answers) (calls : List Call) (st : State)
            (event : Event) → applies setup st event ≡ false
            → IsShown s calls st self.old → IsShown s calls (step setup a st event) self.new }
        ensures sound { (x : Inputs) → IsSound x self.old → IsSound x self.new }
        ensures unapplied { unapplied self.new ≡ unapplied self.old }
        ensures counted { self.new.events ≡ self.old.events + 1 }
    {
        self.events += 1;
        self.idle += 1;
        Stepped::Idle
    }

    /// The pass with which the packet of this number enters now.
    pub fn entering(&self, pre: bool, number: u32) -> Pass
        ensures { result ≡ pass_for self.now pre number }
    {
        Pass {
            pre,
            number,
            version: self.commit.visible(),
            bit: self.commit.bit(),
            left: if pre {
                self.pre_stages
            } else {
                self.post_stages
            },
        }
    }

    /// The next packet is admitted. The answer is the pass with which it enters.
    pub fn admit_next(&mut self) -> Result<Pass, NoMemory>
        requires events { self.old.events < 2 ^ 32 - 1 }
        requires few_fates { length self.old.fates.items < 2 ^ 32 }
        ensures pass { IfOk result (λ pass. pass ≡ pass_for self.old true (length self.old.fates.items)) }
        ensures shown { OnOk result ((s : SplitProgram) (calls : List Call) (st : State)
            → IsShown s calls st self.old → IsShown s calls (came (tick st)) self.new) }
        ensures sound { OnOk result ((x : Inputs) → IsSound x self.old
            → length self.old.fates.items < length x.packets → IsSound x self.new × TakesOneMore x self.new) }
        ensures unapplied { OnOk result (unapplied self.new ≡ unapplied self.old) }
        ensures counted { OnOk result (self.new.events ≡ self.old.events + 1) }
    {
        let pass = self.entering(true, self.fates.len() as u32);
        self.events += 1;
        self.fates.push(Fate::Pass {
            admitted: self.events,
        })?;
        Ok(pass)
    }

    /// Notes what the switch answered of a packet that arrived: the packet has its verdict, or its frame is on its way up,
    /// or its pass has stages left and stands behind the others under way.
    pub fn come_in(&mut self, pass: Pass, end: UpEnd) -> Result<(), NoMemory>
        ensures shown { OnOk result ((s : SplitProgram) (calls more : List Call) (st : State)
            → IsShown s calls st self.old → IsUpPassOf calls st pass
            → up_answer (calls ++ more) pass.number ≡ up_ended (answer_of end)
            → IsShown s (calls ++ more)
            (came_to (journal s (calls ++ more)) st pass (is_up_end (answer_of end))) self.new) }
        ensures sound { OnOk result ((x : Inputs) → IsSound x self.old → TakesOneMore x self.old → FitsUp x pass end
            → IsSound x self.new) }
        ensures unapplied { OnOk result (unapplied self.new ≡ unapplied self.old) }
        ensures counted { OnOk result (self.new.events ≡ self.old.events) }
    {
        match end {
            UpEnd::Finished(verdict) => {
                finish_at(
                    &mut self.fates,
                    pass.number,
                    self.events,
                    pass.version,
                    verdict,
                );
                Ok(())
            }
            UpEnd::Up(frame) => {
                self.up.push_back((pass.number, frame))?;
                send_up_at(&mut self.fates, pass.number);
                Ok(())
            }
            UpEnd::Going => {
                self.passes.push(pass)?;
                Ok(())
            }
        }
    }

    /// Notes what the switch answered of a packet that came down: the packet is released, or its pass has stages left and
    /// stands behind the others under way.
    pub fn come_out(&mut self, pass: Pass, end: DownEnd) -> Result<(), NoMemory>
        ensures shown { OnOk result ((s : SplitProgram) (calls more : List Call) (st : State)
            → IsShown s calls st self.old
            → IsDownPassOf calls st pass
            (came_to (journal s (calls ++ more)) st pass (is_down_end (down_answer_of end)))
            → down_answer (calls ++ more) pass.number ≡ down_ended (down_answer_of end)
            → IsShown s (calls ++ more)
            (came_to (journal s (calls ++ more)) st pass (is_down_end (down_answer_of end))) self.new) }
        ensures sound { OnOk result ((x : Inputs) → IsSound x self.old → pass.pre ≡ false → FitsDown pass end
            → IsSound x self.new) }
        ensures unapplied { OnOk result (unapplied self.new ≡ unapplied self.old) }
        ensures counted { OnOk result (self.new.events ≡ self.old.events) }
    {
        match end {
            DownEnd::Verdict(verdict) => {
                release_at(&mut self.fates, pass.number, self.events, verdict);
                Ok(())
            }
            DownEnd::Going => {
                self.passes.push(pass)?;
                Ok(())
            }
        }
    }

    /// One more applied command is acknowledged.
    pub fn acknowledge(&mut self) -> Stepped
        requires events { self.old.events < 2 ^ 32 - 1 }
        requires idle { self.old.idle ≤ self.old.events }
        ensures stepped { (s : SplitProgram) (setup : Setup) (calls : List Call) (st : State)
            → IsShown s calls st self.old → result ≡ stepped_by (applies setup st event.Ack) }
        ensures shown { (s : SplitProgram) (setup : Setup) (a : Answers) (calls : List Call) (st : State)
            → IsShown s calls st self.old → IsShown s calls (step setup a st event.Ack) self.new }
        ensures sound { (x : Inputs) → IsSound x self.old → IsSound x self.new }
        ensures unapplied { unapplied self.new ≡ unapplied self.old }
        ensures counted { self.new.events ≡ self.old.events + 1 }
    {
        self.events += 1;
        if self.commit.acknowledge() {
            Stepped::Did
        } else {
            self.idle += 1;
            Stepped::Idle
        }
    }

    /// One more command is sent. A batch of which none was sent first takes up those behind it that fit.
    pub fn send(&mut self) -> Stepped
        requires events { self.old.events < 2 ^ 32 - 1 }
        requires idle { self.old.idle ≤ self.old.events }
        ensures stepped { (s : SplitProgram) (setup : Setup) (calls : List Call) (st : State)
            → IsShown s calls st self.old → result ≡ stepped_by (applies setup st event.Send) }
        ensures shown { (s : SplitProgram) (setup : Setup) (a : Answers) (calls : List Call) (st : State)
            → setup.fits ≡ fits self.old.commit.writeback
            → IsShown s calls st self.old → IsShown s calls (step setup a st event.Send) self.new }
        ensures sound { (x : Inputs) → IsSound x self.old → IsSound x self.new }
        ensures unapplied { unapplied self.new ≤ unapplied self.old }
        ensures counted { self.new.events ≡ self.old.events + 1 }
    {
        self.events += 1;
        if self.commit.send_command() {
            Stepped::Did
        } else {
            self.idle += 1;
            Stepped::Idle
        }
    }

    // Whether the next command that was sent has to wait for a pass under way. Where none is under way, it isn't looked at.
    fn has_to_wait(&self) -> bool
        ensures { ready_next self.now ≡ (if result then None else next self.now.commit) }
    {
        if self.passes.is_empty() {
            return false;
        }
        match self.commit.peek() {
            Some(command) => self.passes.are_disturbed(&command),
            None => false,
        }
    }

    /// The next command that was sent goes to the switch, and counts as applied from then on. It may have to wait for a
    /// pass under way.
    pub fn next_command(&mut self) -> Option<Command>
        requires events { self.old.events < 2 ^ 32 - 1 }
        requires idle { self.old.idle ≤ self.old.events }
        ensures stepped { (s : SplitProgram) (setup : Setup) (calls : List Call) (st : State)
            → IsShown s calls st self.old → is_some result ≡ applies setup st event.Apply }
        ensures asked { (s : SplitProgram) (setup : Setup) (packets : List Packet) (calls : List Call) (st : State)
            → IsShown s calls st self.old → asks_command result ≡ asked setup s packets calls st event.Apply }
        ensures shown { (s : SplitProgram) (setup : Setup) (a : Answers) (calls : List Call) (st : State)
            → IsShown s calls st self.old
            → IsShown s (calls ++ called result) (step setup a st event.Apply) self.new }
        ensures next { result ≡ ready_next self.old }
        ensures sound { (x : Inputs) → IsSound x self.old → IsSound x self.new }
        ensures unapplied { (x : Inputs) → IsSound x self.old
            → unapplied self.old ≡ (if is_some result then 1 else 0) + unapplied self.new }
        ensures counted { self.new.events ≡ self.old.events + 1 }
    {
        self.events += 1;
        if self.has_to_wait() {
            self.idle += 1;
            return None;
        }
        let Some(command) = self.commit.next_command() else {
            self.idle += 1;
            return None;
        };
        Some(command)
    }

    /// The output at place `j` of those that wait goes, if its version is known to be visible.
    pub fn release(&mut self, j: u32) -> Result<Stepped, NoMemory>
        requires events { self.old.events < 2 ^ 32 - 1 }
        requires idle { self.old.idle ≤ self.old.events }
        ensures stepped { IfOk result (λ stepped. (s : SplitProgram) (setup : Setup) (calls : List Call) (st : State)
            → IsShown s calls st self.old → stepped ≡ stepped_by (applies setup st (event.Hold j))) }
        ensures shown { OnOk result ((s : SplitProgram) (setup : Setup) (a : Answers) (calls : List Call) (st : State)
            → IsShown s calls st self.old → IsShown s calls (step setup a st (event.Hold j)) self.new) }
        ensures sound { OnOk result ((x : Inputs) → IsSound x self.old → IsSound x self.new) }
        ensures unapplied { OnOk result (unapplied self.new ≡ unapplied self.old) }
        ensures counted { OnOk result (self.new.events ≡ self.old.events + 1) }
    {
        self.events += 1;
        match self.commit.release(j as usize) {
            Release::Frame { number, frame } => {
                self.down.push_back((number, frame))?;
                Ok(Stepped::Did)
            }
            Release::NotYet { .. } | Release::NoSuch(_) => {
                self.idle += 1;
                Ok(Stepped::Idle)
            }
        }
    }
}
