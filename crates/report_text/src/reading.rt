//! A report that is read line by line.
ghost use Rattle.std.specs.Prelude.{◌≡◌, ◌<◌, ◌^◌, length, IfOk, IfSome, OnOk, MatchOption, true, false, None, Some};
ghost use Rattle.std.specs.Prelude.{drop};
ghost use Rattle.std.specs.Prelude.{slice_get, if◌then◌else◌, Option};
ghost use Rattle.report_text.specs.Parse.{count_of, fate_of, order_of, counts_of, events_of, versions_of};
ghost use Rattle.report_text.specs.Machine.{State, at_start, closed_by, count_by, counts_read, drained_read, ended};
ghost use Rattle.report_text.specs.Machine.{fate_read, has_keys, is_after, line_read, next_from, order_read};
ghost use Rattle.report_text.specs.Machine.{packet_read};
ghost use Rattle.report_text.specs.Machine.{part_opened, row_read, server_read, shown_from, step, switch_read};
ghost use Rattle.report_text.specs.Machine.{events_read, row_put, server_opened, shown_count, title_read, taken};
ghost use Rattle.report_text.specs.Machine.{versions_read, with_left};

use crate::fate::read_fate;
use crate::head::{EventCounts, PacketCounts, Versions, read_counts, read_events, read_versions};
use crate::order::read_order;
use crate::row::{leaves, read_count, read_row};
use crate::stage::{Side, Stage};
use gal_bits::{Values, Widths};
use gal_io::{NoMemory, is_skipped};
use run_model::{Fate, Fates, ObjectRows, Order, Run, StoreRows};
use state_store::{ObjectDecl, Row, Rows};
use std::alloc::Global;
use std::marker::Model;
use std::mem;

/// What the lines so far have told, and which line is awaited.
#[derive(Drop)]
pub(crate) struct Reading {
    counts: PacketCounts,
    events: EventCounts,
    versions: Versions,
    drained: bool,
    fates: Vec<Fate>,
    order: Order,
    server: Vec<ObjectRows>,
    switch: Vec<ObjectRows>,
    rows: Rows,
    stage: Stage,
}

impl Model for Reading {
    ghost use Rattle.report_text.specs.Machine.{State};

    ghost Value = { State };

    ghost view = { λ r. record {
      counts = r.counts;
      events = r.events;
      versions = r.versions;
      drained = r.drained;
      fates = r.fates.items;
      order = r.order;
      server = r.server.items;
      switch = r.switch.items;
      rows = r.rows;
      stage = r.stage;
    } };
}

// The first object from this number on that is no table.
#[tactic(auto, using(crate::proofs::Loops::next_on, crate::proofs::Loops::next_stop))]
fn next_object(objects: &[ObjectDecl], from: usize) -> Option<u32>
    requires { length objects.now < 2 ^ 32 }
    ensures { result ≡ next_from from (drop from objects.now) }
{
    for number in from..objects.len() {
        if !objects[number].kind.is_table() {
            return Some(number as u32);
        }
    }
    None
}

// The number of rows where the object is no table and has this switch line.
fn shown_count(object: &ObjectDecl, line: &[u8]) -> Option<u32>
    ensures { result ≡ shown_count object.now line.now }
{
    if object.kind.is_table() {
        return None;
    }
    read_count(b"switch ", object.name.as_slice(), line)
}

// The first object from this number on that is no table and has this switch line, and its number of rows.
#[tactic(auto, using(crate::proofs::Loops::shown_on, crate::proofs::Loops::shown_stop))]
fn shown_object(objects: &[ObjectDecl], from: usize, line: &[u8]) -> Option<(u32, u32)>
    requires { length objects.now < 2 ^ 32 }
    ensures { result ≡ shown_from from (drop from objects.now) line.now }
{
    for number in from..objects.len() {
        if let Some(count) = shown_count(&objects[number], line) {
            return Some((number as u32, count));
        }
    }
    None
}

// The number of rows on the line of this object's part.
fn server_count(objects: &[ObjectDecl], number: u32, line: &[u8]) -> Option<u32>
    ensures { result ≡ count_by line.now (slice_get objects.now number) }
{
    match objects.get(number as usize) {
        Some(object) => read_count(b"object ", object.name.as_slice(), line),
        None => None,
    }
}

// Whether there are keys of these widths for so many rows.
fn has_keys(count: u32, widths: &Widths) -> bool
    ensures { result ≡ has_keys count widths.now }
{
    count == 0 || leaves(count - 1, widths, &Values::new())
}

// Whether a key may follow these rows.
fn follows(rows: &Rows, key: &Values) -> bool
    ensures { result ≡ is_after rows.now key.now }
{
    if rows.is_empty() {
        return true;
    }
    let (last, _) = rows.parts_at(rows.len() - 1);
    last.cmp(key.as_slice()).is_lt()
}

impl Reading {
    /// Before the first line.
    pub(crate) fn new(alloc: Global) -> Reading
        ensures { result ≡ at_start }
    {
        Reading {
            counts: PacketCounts {
                total: 0,
                admitted: 0,
                decided: 0,
                released: 0,
            },
            events: EventCounts { events: 0, idle: 0 },
            versions: Versions {
                version: 0,
                visible: 0,
            },
            drained: false,
            fates: Vec::new(alloc),
            order: Order::from(Vec::new(alloc)),
            server: Vec::new(alloc),
            switch: Vec::new(alloc),
            rows: Rows::new(alloc),
            stage: Stage::Title,
        }
    }

    fn take_title(&mut self, line: &[u8]) -> bool
        ensures { taken result self.new (title_read self.old line.now) }
    {
        if line == b"report 1".as_slice() {
            self.stage = Stage::Packets;
            return true;
        }
        false
    }

    // No packet can be named on the order line where none was admitted.
    fn take_counts(&mut self, line: &[u8]) -> bool
        ensures { taken result self.new (counts_read self.old (counts_of line.now)) }
    {
        match read_counts(line) {
            Some(counts) if counts.decided == 0 || counts.admitted > 0 => {
                self.counts = counts;
                self.stage = Stage::Events;
                true
            }
            _ => false,
        }
    }

    fn take_events(&mut self, line: &[u8]) -> bool
        ensures { taken result self.new (events_read self.old (events_of line.now)) }
    {
        let Some(events) = read_events(line) else {
            return false;
        };
        self.events = events;
        self.stage = Stage::Version;
        true
    }

    fn take_versions(&mut self, line: &[u8]) -> bool
        ensures { taken result self.new (versions_read self.old (versions_of line.now)) }
    {
        let Some(versions) = read_versions(line) else {
            return false;
        };
        self.versions = versions;
        self.stage = Stage::Drained;
        true
    }

    fn take_drained(&mut self, line: &[u8]) -> bool
        ensures { taken result self.new (drained_read self.old line.now) }
    {
        if line == b"drained yes".as_slice() {
            self.drained = true;
        } else if line == b"drained no".as_slice() {
            self.drained = false;
        } else {
            return false;
        }
        self.stage = Stage::Fates;
        true
    }

    fn take_fate(&mut self, alloc: Global, line: &[u8]) -> Result<bool, NoMemory>
        ensures { IfOk result (λ ok. taken ok self.new
            (fate_read self.old (fate_of (length self.old.fates) line.now))) }
    {
        let Some(fate) = read_fate(alloc, self.fates.len(), line)? else {
            return Ok(false);
        };
        self.fates.push(fate)?;
        Ok(true)
    }

    fn take_order(&mut self, alloc: Global, line: &[u8]) -> Result<bool, NoMemory>
        ensures { IfOk result (λ ok. taken ok self.new
            (order_read self.old (order_of self.old.counts.decided self.old.counts.admitted line.now))) }
    {
        let Some(order) = read_order(alloc, self.counts.decided, self.counts.admitted, line)? else {
            return Ok(false);
        };
        self.order = order;
        self.stage = Stage::Server(0);
        Ok(true)
    }

    fn take_packet(&mut self, alloc: Global, line: &[u8]) -> Result<bool, NoMemory>
        ensures { IfOk result (λ ok. taken ok self.new (packet_read self.old line.now)) }
    {
        if self.fates.len() < self.counts.admitted as usize {
            self.take_fate(alloc, line)
        } else {
            self.take_order(alloc, line)
        }
    }

    // Puts the part of this object behind the others.
    fn close(&mut self, alloc: Global, side: Side, object: u32) -> Result<(), NoMemory>
        ensures { OnOk result (self.new
            ≡ closed_by side (record { object = object; rows = self.old.rows }) self.old) }
    {
        let rows = mem::replace(&mut self.rows, Rows::new(alloc));
        let part = ObjectRows { object, rows };
        let next = object as usize + 1;
        match side {
            Side::OnServer => {
                self.server.push(part)?;
                self.stage = Stage::Server(next);
            }
            Side::OnSwitch => {
                self.switch.push(part)?;
                self.stage = Stage::Switch(next);
            }
        }
        Ok(())
    }

    // Awaits so many rows of this object.
    fn await_rows(
        &mut self,
        alloc: Global,
        side: Side,
        object: u32,
        left: u32,
    ) -> Result<(), NoMemory>
        ensures { OnOk result (self.new ≡ with_left side object left self.old) }
    {
        if left == 0 {
            return self.close(alloc, side, object);
        }
        self.stage = Stage::Table(side, object, left - 1);
        Ok(())
    }

    // Begins the part of an object.
    fn open(
        &mut self,
        alloc: Global,
        objects: &[ObjectDecl],
        side: Side,
        number: u32,
        count: u32,
    ) -> Result<bool, NoMemory>
        ensures { IfOk result (λ ok. taken ok self.new
            (part_opened side number count self.old (slice_get objects.now number))) }
    {
        match objects.get(number as usize) {
            Some(object) if has_keys(count, &object.keys) => {
                self.await_rows(alloc, side, number, count)?;
                Ok(true)
            }
            _ => Ok(false),
        }
    }

    fn take_switch(
        &mut self,
        alloc: Global,
        objects: &[ObjectDecl],
        from: usize,
        line: &[u8],
    ) -> Result<bool, NoMemory>
        requires { length objects.now < 2 ^ 32 }
        ensures { IfOk result (λ ok. taken ok self.new (switch_read objects.now self.old from line.now)) }
    {
        if line == b"end".as_slice() {
            self.stage = Stage::Ended;
            return Ok(true);
        }
        match shown_object(objects, from, line) {
            Some((number, count)) => self.open(alloc, objects, Side::OnSwitch, number, count),
            None => Ok(false),
        }
    }

    // The part of an object of this number.
    fn take_part(
        &mut self,
        alloc: Global,
        objects: &[ObjectDecl],
        number: u32,
        line: &[u8],
    ) -> Result<bool, NoMemory>
        ensures { IfOk result (λ ok. taken ok self.new
            (server_opened objects.now self.old number (count_by line.now (slice_get objects.now number)))) }
    {
        match server_count(objects, number, line) {
            Some(count) => self.open(alloc, objects, Side::OnServer, number, count),
            None => Ok(false),
        }
    }

    fn take_server(
        &mut self,
        alloc: Global,
        objects: &[ObjectDecl],
        from: usize,
        line: &[u8],
    ) -> Result<bool, NoMemory>
        requires { length objects.now < 2 ^ 32 }
        ensures { IfOk result (λ ok. taken ok self.new (server_read objects.now self.old from line.now)) }
    {
        match next_object(objects, from) {
            Some(number) => self.take_part(alloc, objects, number, line),
            None => self.take_switch(alloc, objects, 0, line),
        }
    }

    // Puts a row behind the others, where it may follow them and leaves keys for those behind it.
    fn put_row(
        &mut self,
        alloc: Global,
        object: &ObjectDecl,
        place: (Side, u32, u32),
        row: &Row,
    ) -> Result<bool, NoMemory>
        ensures { IfOk result (λ ok. taken ok self.new
            (row_put place.0 place.1 place.2 self.old object.now (Some row.now))) }
    {
        let (side, number, behind) = place;
        if !follows(&self.rows, &row.keys) || !leaves(behind, &object.keys, &row.keys) {
            return Ok(false);
        }
        self.rows.push_values(&row.keys, &row.values)?;
        self.await_rows(alloc, side, number, behind)?;
        Ok(true)
    }

    fn take_row(
        &mut self,
        alloc: Global,
        objects: &[ObjectDecl],
        place: (Side, u32, u32),
        line: &[u8],
    ) -> Result<bool, NoMemory>
        ensures { IfOk result (λ ok. taken ok self.new
            (row_read place.0 place.1 place.2 self.old line.now (slice_get objects.now place.1))) }
    {
        let Some(object) = objects.get(place.1 as usize) else {
            return Ok(false);
        };
        match read_row(&object.keys, &object.values, line) {
            Some(row) => self.put_row(alloc, object, place, &row),
            None => Ok(false),
        }
    }

    /// Takes a line. Where no report can have it here, the answer is no, and nothing is known of what was read.
    pub(crate) fn take(
        &mut self,
        alloc: Global,
        objects: &[ObjectDecl],
        line: &[u8],
    ) -> Result<bool, NoMemory>
        requires { length objects.now < 2 ^ 32 }
        ensures { IfOk result (λ ok. taken ok self.new (step objects.now self.old line.now)) }
    {
        match self.stage {
            Stage::Title => Ok(self.take_title(line)),
            Stage::Packets => Ok(self.take_counts(line)),
            Stage::Events => Ok(self.take_events(line)),
            Stage::Version => Ok(self.take_versions(line)),
            Stage::Drained => Ok(self.take_drained(line)),
            Stage::Fates => self.take_packet(alloc, line),
            Stage::Server(from) => self.take_server(alloc, objects, from, line),
            Stage::Switch(from) => self.take_switch(alloc, objects, from, line),
            Stage::Table(side, number, behind) => {
                self.take_row(alloc, objects, (side, number, behind), line)
            }
            Stage::Ended => Ok(false),
        }
    }

    /// Takes a line, which may be one that is skipped.
    pub(crate) fn take_line(
        &mut self,
        alloc: Global,
        objects: &[ObjectDecl],
        line: &[u8],
    ) -> Result<bool, NoMemory>
        requires { length objects.now < 2 ^ 32 }
        ensures { IfOk result (λ ok. taken ok self.new (line_read objects.now self.old line.now)) }
    {
        if is_skipped(line) {
            return Ok(true);
        }
        self.take(alloc, objects, line)
    }

    /// The run, where no line is awaited.
    pub(crate) fn finish(self) -> Option<Run>
        ensures { result ≡ ended self }
    {
        match self.stage {
            Stage::Ended => Some(Run {
                total: self.counts.total,
                decided: self.counts.decided,
                released: self.counts.released,
                events: self.events.events,
                idle: self.events.idle,
                version: self.versions.version,
                visible: self.versions.visible,
                drained: self.drained,
                fates: Fates::from(self.fates),
                order: self.order,
                objects: StoreRows::from(self.server),
                switch: StoreRows::from(self.switch),
            }),
            _ => None,
        }
    }
}
