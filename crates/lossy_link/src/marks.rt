//! Which of the numbers from 0 on are set, and the j-th of those that are, by a binary indexed tree of counts (P. Fenwick, A new
//! data structure for cumulative frequency tables, 1994).
ghost use Rattle.std.specs.Prelude.{◌≡◌, ◌+◌, ◌-◌, ◌≤◌, ◌<◌, ◌^◌, ◌++◌, ◌∷◌, [], Some, suc, true, false, ℕ, List, length, get_or, set, slice_get, OnOk, OnErr};
ghost use Rattle.lossy_link.specs.Marks.{AreLowered, IsCountBehind, IsFound, numbers_set};

use gal_io::NoMemory;
use std::alloc::Global;
use std::marker::Model;

// How many numbers the counts can be of: 2^32.
const ALL: usize = 4294967296;

/// Marks of the numbers from 0 on, of which some are set.
#[derive(Drop)]
pub(crate) struct Marks {
    marks: Vec<bool>,
    // 2^32 numbers fall into two halves, each of these into two, and so on. For each first half that ends within the
    // marks, how many are set in it stands at the place of its last number.
    counts: Vec<u32>,
    // How many are set.
    total: u32,
}

impl Model for Marks {
    ghost use Rattle.std.specs.Prelude.{List, Bool};
    ghost use Rattle.lossy_link.specs.Marks.{IsCounted};

    ghost Value = { List Bool };

    ghost view = { λ m. m.marks.items };

    ghost invariant = { λ m. IsCounted m.marks.items m.counts.items m.total };
}

impl Marks {
    /// No numbers.
    pub(crate) fn new(alloc: Global) -> Marks
        ensures { result ≡ [] }
    {
        Marks {
            marks: Vec::new(alloc),
            counts: Vec::new(alloc),
            total: 0,
        }
    }

    /// One number more, which is set.
    pub(crate) fn push(&mut self) -> Result<(), NoMemory>
        requires { length self.old < 2 ^ 32 - 1 }
        ensures ok { OnOk result (self.new ≡ self.old ++ true ∷ []) }
        ensures err { OnErr result (self.new ≡ self.old) }
    {
        let count = set_from(self.counts.as_slice(), 0, ALL, self.total);
        self.marks.push(true)?;
        if self.counts.push(count + 1).is_err() {
            let _ = self.marks.pop();
            return Err(NoMemory);
        }
        self.total += 1;
        Ok(())
    }

    /// How many are set.
    pub(crate) fn len(&self) -> usize
        ensures { result ≡ length (numbers_set 0 self.now) }
    {
        self.total as usize
    }

    /// The j-th of the numbers that are set, the lowest first. This takes 32 steps.
    pub(crate) fn at(&self, j: usize) -> Option<u32>
        ensures { result ≡ slice_get (numbers_set 0 self.now) j }
    {
        if j >= self.total as usize {
            return None;
        }
        Some(find(self.counts.as_slice(), 0, ALL, j as u32) as u32)
    }

    /// Whether this number is set.
    pub(crate) fn is_set(&self, number: u32) -> bool
        requires { number < length self.now }
        ensures { slice_get self.now number ≡ Some result }
    {
        self.marks[number as usize]
    }

    /// Clears a number that is set, in 32 steps.
    pub(crate) fn clear(&mut self, number: u32)
        requires { slice_get self.old number ≡ Some true }
        ensures { self.new ≡ set self.old number false }
    {
        self.marks[number as usize] = false;
        lower(&mut self.counts, 0, ALL, number as usize);
        self.total -= 1;
    }
}

// How many are set of the numbers that a count at the end would be of, without its last number, where `left` are set from
// `start` on.
fn set_from(counts: &[u32], start: usize, span: usize, left: u32) -> u32
    requires { start + span ≤ 4294967296 }
    ensures within { result ≤ left }
    ensures counted { IsCountBehind counts.now start span left (suc result) }
{
    if span <= 1 {
        return left;
    }
    let half = span / 2;
    let middle = start + half;
    if middle > counts.len() + 1 {
        return set_from(counts, start, half, left);
    }
    if middle > counts.len() {
        return left;
    }
    set_from(
        counts,
        middle,
        half,
        left.saturating_sub(counts[middle - 1]),
    )
}

// The number that is set, of this span, before which `j` of the span are set.
fn find(counts: &[u32], start: usize, span: usize, j: u32) -> usize
    requires { start + span ≤ 4294967296 }
    ensures within { result ≤ start + span }
    ensures found { IsFound counts.now start span j result }
{
    if span <= 1 {
        return start;
    }
    let half = span / 2;
    let middle = start + half;
    if middle > counts.len() {
        return find(counts, start, half, j);
    }
    let count = counts[middle - 1];
    if count > j {
        return find(counts, start, half, j);
    }
    find(counts, middle, half, j - count)
}

// The counts of this span where this number of it is set no more.
fn lower(counts: &mut Vec<u32>, start: usize, span: usize, number: usize)
    requires { start + span ≤ 4294967296 }
    ensures long { length counts.new.items ≡ length counts.old.items }
    ensures before { (i : ℕ) → i < start → get_or counts.new.items i 0 ≡ get_or counts.old.items i 0 }
    ensures behind { (i : ℕ) → start + span ≤ suc i → get_or counts.new.items i 0 ≡ get_or counts.old.items i 0 }
    ensures counted { AreLowered counts.old.items counts.new.items start span number }
{
    if span <= 1 {
        return;
    }
    let half = span / 2;
    let middle = start + half;
    if number >= middle {
        lower(counts, middle, half, number);
        return;
    }
    if middle > counts.len() {
        lower(counts, start, half, number);
        return;
    }
    counts[middle - 1] = counts[middle - 1].saturating_sub(1);
    lower(counts, start, half, number);
}
