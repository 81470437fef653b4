//! How a pass is computed in registers that are read and written by place.
ghost use Rattle.std.specs.Prelude.{◌≡◌, ℕ, ◌+◌, ◌≤◌, ◌<◌, ◌^◌, ◌++◌, ◌∷◌, [], false, length, map, slice_index};
ghost use Rattle.std.specs.Prelude.{vec_capacity, vec_len};
ghost use Rattle.std.specs.List.{AllByRecursion as Each};
ghost use Rattle.packet_fields.specs.Shape.{shape_of};
ghost use Rattle.packet_fields.specs.Sizes.{largest_packet};
ghost use Rattle.flat_ir.specs.Operands.{CanRun};
ghost use Rattle.flat_ir.specs.Program.{work_of};
ghost use Rattle.flat_ir.specs.Registers.{packet_of, results_of};
ghost use Rattle.flat_ir.specs.Run.{results};
ghost use Rattle.transfer_header.specs.Registers.{ArePlaced};
ghost use Rattle.switch_machine.specs.Ready.{all_placed, only_numbers, paired, placed_at, placed_gives, places_of, reads_at, ready_at, ready_gives};
ghost use Rattle.switch_machine.specs.Ready.{ready_of, targets_of, CanReady, HoldResults, IsDirect};

use crate::ready::{Places, ReadyStage, ReadyStages, ReadyStep};
use flat_ir::{Arrival, InstrKind, Lookup, Numbers, Results, ValueId, given_number, look};
use transfer_header::Regs;

// The numbers that stand in registers, read by place.
#[derive(Clone, Copy)]
struct Standing<'a> {
    registers: &'a Regs,
}

impl Numbers for Standing<'_> {
    ghost reads = { λ numbers. reads_at numbers.registers.now.numbers };

    fn number(&self, value: ValueId) -> u64 {
        let place = value.instruction as usize;
        let items = self.registers.as_slice();
        if place < items.len() { items[place] } else { 0 }
    }
}

// The same numbers as a list. By a type of its own, either way to compute a stage has code of its own.
#[derive(Clone, Copy)]
struct Placed<'a> {
    items: &'a [u64],
}

impl Numbers for Placed<'_> {
    ghost reads = { λ numbers. reads_at numbers.items.now };

    fn number(&self, value: ValueId) -> u64 {
        let place = value.instruction as usize;
        let items = self.items;
        if place < items.len() { items[place] } else { 0 }
    }
}

/// There are fewer than 2^32 registers, and each value that has one has a number.
pub(crate) fn are_few(registers: &Regs)
    ensures bounded { length registers.now.numbers < 2 ^ 32 }
    ensures placed { ArePlaced registers.now }
{
    let _ = registers.as_slice();
    let _ = registers.len();
}

// The result at a place, 0 past the end.
fn result_at(row: &Results, place: usize) -> u64
    ensures { result ≡ slice_index (results_of row.now) place }
{
    if place == 0 {
        row.first
    } else if place <= row.others.len() {
        row.others.at(place - 1)
    } else {
        0
    }
}

// Puts a row of results into the register at each of some places.
fn put_list(places: &[u32], row: &Results, registers: &mut Regs)
    ensures { registers.new ≡ all_placed registers.old (placed_gives places.now (results_of row.now)) }
{
    for index in 0..places.len() {
        registers.set_at(places[index], result_at(row, index));
    }
}

// Puts a row of results behind other results, in memory that was taken before.
fn push_list(places: &[u32], row: &Results, results: &mut Vec<u64>)
    requires { vec_len results.old + length places.now ≤ vec_capacity results.old }
    ensures items { results.new.items
        ≡ results.old.items ++ only_numbers (placed_gives places.now (results_of row.now)) }
    ensures len { vec_len results.new ≡ vec_len results.old + length places.now }
    ensures capacity { vec_capacity results.new ≡ vec_capacity results.old }
{
    for index in 0..places.len() {
        results.push_reserved(result_at(row, index));
    }
}

impl Places {
    // Puts the only result of an instruction into its register.
    #[inline]
    fn put_number(&self, number: u64, registers: &mut Regs)
        ensures { registers.new ≡ all_placed registers.old (placed_gives (places_of self.now) (number ∷ [])) }
    {
        match self {
            Places::One(place) => registers.set_at(*place, number),
            Places::Many(list) => put_list(list.as_slice(), &Results::one(number), registers),
        }
    }

    // Puts what a look gave into registers.
    fn put_row(&self, row: &Results, registers: &mut Regs)
        ensures { registers.new
            ≡ all_placed registers.old (placed_gives (places_of self.now) (results_of row.now)) }
    {
        match self {
            Places::One(place) => registers.set_at(*place, row.first),
            Places::Many(list) => put_list(list.as_slice(), row, registers),
        }
    }

    // Puts the only result of an instruction behind other results, in memory that was taken before.
    #[inline]
    fn push_number(&self, number: u64, results: &mut Vec<u64>)
        requires { vec_len results.old + length (places_of self.now) ≤ vec_capacity results.old }
        ensures items { results.new.items
            ≡ results.old.items ++ only_numbers (placed_gives (places_of self.now) (number ∷ [])) }
        ensures len { vec_len results.new ≡ vec_len results.old + length (places_of self.now) }
        ensures capacity { vec_capacity results.new ≡ vec_capacity results.old }
    {
        match self {
            Places::One(_) => results.push_reserved(number),
            Places::Many(list) => push_list(list.as_slice(), &Results::one(number), results),
        }
    }

    // Puts what a look gave behind other results, in memory that was taken before.
    fn push_row(&self, row: &Results, results: &mut Vec<u64>)
        requires { vec_len results.old + length (places_of self.now) ≤ vec_capacity results.old }
        ensures items { results.new.items
            ≡ results.old.items ++ only_numbers (placed_gives (places_of self.now) (results_of row.now)) }
        ensures len { vec_len results.new ≡ vec_len results.old + length (places_of self.now) }
        ensures capacity { vec_capacity results.new ≡ vec_capacity results.old }
    {
        match self {
            Places::One(_) => results.push_reserved(row.first),
            Places::Many(list) => push_list(list.as_slice(), row, results),
        }
    }
}

impl ReadyStep {
    // Computes the instruction from numbers that are given, and puts its results into registers.
    fn run<L: Lookup, G: Numbers>(
        &self,
        numbers: &G,
        tables: &L,
        arrival: &Arrival<'_>,
        registers: &mut Regs,
    )
        requires can { CanRun (work_of self.now.kind) }
        requires size { length arrival.now.bytes.now ≤ largest_packet }
        requires shape { arrival.now.shape ≡ shape_of arrival.now.bytes.now }
        ensures { registers.new ≡ all_placed registers.old (placed_gives (places_of self.now.places)
            (results (G.reads numbers.now) false (L.seen tables.now) (packet_of arrival.now)
            (work_of self.now.kind))) }
    {
        match &self.kind {
            InstrKind::Look { object, keys } => {
                let row = look(tables, numbers, *object, keys);
                self.places.put_row(&row, registers);
            }
            kind => {
                let number = given_number(arrival, numbers, kind);
                self.places.put_number(number, registers);
            }
        }
    }

    // Computes the instruction from the numbers in registers, and puts its results there.
    #[inline]
    fn run_directly<L: Lookup>(&self, tables: &L, arrival: &Arrival<'_>, registers: &mut Regs)
        requires can { CanRun (work_of self.now.kind) }
        requires size { length arrival.now.bytes.now ≤ largest_packet }
        requires shape { arrival.now.shape ≡ shape_of arrival.now.bytes.now }
        ensures { registers.new ≡ all_placed registers.old (placed_gives (places_of self.now.places)
            (results (reads_at registers.old.numbers) false (L.seen tables.now) (packet_of arrival.now)
            (work_of self.now.kind))) }
    {
        let numbers = Standing { registers };
        match &self.kind {
            InstrKind::Look { object, keys } => {
                let row = look(tables, &numbers, *object, keys);
                self.places.put_row(&row, registers);
            }
            kind => {
                let number = given_number(arrival, &numbers, kind);
                self.places.put_number(number, registers);
            }
        }
    }

    // Computes the instruction from numbers that are given, and puts its results behind others, in memory that was
    // taken before.
    #[inline]
    fn collect<L: Lookup, G: Numbers>(
        &self,
        numbers: &G,
        tables: &L,
        arrival: &Arrival<'_>,
        waiting: &mut Vec<u64>,
    )
        requires can { CanRun (work_of self.now.kind) }
        requires size { length arrival.now.bytes.now ≤ largest_packet }
        requires shape { arrival.now.shape ≡ shape_of arrival.now.bytes.now }
        requires room { vec_len waiting.old + length (places_of self.now.places) ≤ vec_capacity waiting.old }
        ensures items { waiting.new.items ≡ waiting.old.items ++ only_numbers (placed_gives (places_of self.now.places)
            (results (G.reads numbers.now) false (L.seen tables.now) (packet_of arrival.now)
            (work_of self.now.kind))) }
        ensures len { vec_len waiting.new ≡ vec_len waiting.old + length (places_of self.now.places) }
        ensures capacity { vec_capacity waiting.new ≡ vec_capacity waiting.old }
    {
        match &self.kind {
            InstrKind::Look { object, keys } => {
                let row = look(tables, numbers, *object, keys);
                self.places.push_row(&row, waiting);
            }
            kind => {
                let number = given_number(arrival, numbers, kind);
                self.places.push_number(number, waiting);
            }
        }
    }
}

/// Computes instructions that read no registers, and puts their results into registers.
pub(crate) fn run_steps<L: Lookup, G: Numbers>(
    steps: &[ReadyStep],
    numbers: &G,
    tables: &L,
    arrival: &Arrival<'_>,
    registers: &mut Regs,
)
    requires can { Each CanReady (map ready_of steps.now) }
    requires size { length arrival.now.bytes.now ≤ largest_packet }
    requires shape { arrival.now.shape ≡ shape_of arrival.now.bytes.now }
    ensures written { registers.new ≡ all_placed registers.old (ready_gives (map ready_of steps.now)
        (G.reads numbers.now) (L.seen tables.now) (packet_of arrival.now)) }
{
    for step in steps {
        step.run(numbers, tables, arrival, registers);
    }
}

// Computes instructions of which none reads a register that one before it writes: what one reads is then there as it
// was before all of them, so that each puts its results into their registers at once.
fn run_directly<L: Lookup>(
    steps: &[ReadyStep],
    tables: &L,
    arrival: &Arrival<'_>,
    registers: &mut Regs,
)
    requires can { Each CanReady (map ready_of steps.now) }
    requires size { length arrival.now.bytes.now ≤ largest_packet }
    requires shape { arrival.now.shape ≡ shape_of arrival.now.bytes.now }
    requires direct { IsDirect [] (map ready_of steps.now) }
    ensures { registers.new ≡ all_placed registers.old (ready_gives (map ready_of steps.now)
        (reads_at registers.old.numbers) (L.seen tables.now) (packet_of arrival.now)) }
{
    for step in steps {
        step.run_directly(tables, arrival, registers);
    }
}

// Computes instructions from the same numbers, and puts their results one behind the other, in memory that was taken
// before.
fn collect<L: Lookup, G: Numbers>(
    steps: &[ReadyStep],
    numbers: &G,
    tables: &L,
    arrival: &Arrival<'_>,
    results: &mut Vec<u64>,
)
    requires can { Each CanReady (map ready_of steps.now) }
    requires size { length arrival.now.bytes.now ≤ largest_packet }
    requires shape { arrival.now.shape ≡ shape_of arrival.now.bytes.now }
    requires room { length (targets_of (map ready_of steps.now)) ≤ vec_capacity results.old }
    ensures items { results.new.items ≡ only_numbers (ready_gives (map ready_of steps.now)
        (G.reads numbers.now) (L.seen tables.now) (packet_of arrival.now)) }
    ensures capacity { vec_capacity results.new ≡ vec_capacity results.old }
{
    results.clear();
    for step in steps {
        step.collect(numbers, tables, arrival, results);
    }
}

// Puts numbers into registers, each at its place.
fn put_all(places: &[u32], numbers: &[u64], registers: &mut Regs)
    requires { length numbers.now ≡ length places.now }
    ensures { registers.new ≡ all_placed registers.old (paired places.now numbers.now) }
{
    for index in 0..places.len() {
        registers.set_at(places[index], numbers[index]);
    }
}

/// Computes a stage in registers. What it reads are the numbers that were there before it: its results wait in `results`
/// until all are computed, unless they may go into their registers at once.
pub(crate) fn run_stage<L: Lookup>(
    stage: &ReadyStage,
    tables: &L,
    arrival: &Arrival<'_>,
    registers: &mut Regs,
    results: &mut Vec<u64>,
)
    requires can { Each CanReady (map ready_of stage.now) }
    requires size { length arrival.now.bytes.now ≤ largest_packet }
    requires shape { arrival.now.shape ≡ shape_of arrival.now.bytes.now }
    requires room { length (targets_of (map ready_of stage.now)) ≤ vec_capacity results.old }
    ensures written { registers.new ≡ all_placed registers.old
        (ready_gives (map ready_of stage.now) (reads_at registers.old.numbers) (L.seen tables.now)
        (packet_of arrival.now)) }
    ensures capacity { vec_capacity results.new ≡ vec_capacity results.old }
{
    if stage.is_direct() {
        run_directly(stage.steps(), tables, arrival, registers);
        return;
    }
    let numbers = Placed {
        items: registers.as_slice(),
    };
    collect(stage.steps(), &numbers, tables, arrival, results);
    put_all(stage.targets(), results.as_slice(), registers);
}

/// Computes a pass in registers, stage by stage. There is room in `results` for those of each stage.
pub(crate) fn run_pass<L: Lookup>(
    stages: &ReadyStages,
    tables: &L,
    arrival: &Arrival<'_>,
    registers: &mut Regs,
    results: &mut Vec<u64>,
)
    requires can { (t : ℕ) → Each CanReady (ready_at stages.now t) }
    requires size { length arrival.now.bytes.now ≤ largest_packet }
    requires shape { arrival.now.shape ≡ shape_of arrival.now.bytes.now }
    requires room { HoldResults stages.now (vec_capacity results.old) }
    ensures written { registers.new ≡ placed_at stages.now (L.seen tables.now)
        (packet_of arrival.now) registers.old (length stages.now) }
    ensures capacity { vec_capacity results.new ≡ vec_capacity results.old }
{
    for stage in 0..stages.len() {
        run_stage(stages.stage(stage), tables, arrival, registers, results);
    }
}
