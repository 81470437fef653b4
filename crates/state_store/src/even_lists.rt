//! Lists of numbers that all have one length, in one list of numbers.
ghost use Rattle.std.specs.Prelude.{◌≡◌, ◌<◌, ◌≤◌, ◌^◌, ◌*◌, IfOk, IsTrue, Some, length, replicate, slice_get, slice_set};
ghost use Rattle.std.specs.Prelude.{◌++◌, ◌∷◌, [], take, drop, ◌+◌, OnOk, OnErr, vec_capacity, vec_len};

use gal_io::NoMemory;
use std::alloc::Global;
use std::marker::Model;

/// Lists of numbers that all have one length. They lie one behind the other, with nothing between them.
#[derive(Drop)]
pub struct EvenLists {
    width: usize,
    count: usize,
    numbers: Vec<u64>,
}

impl Model for EvenLists {
    ghost use Rattle.std.specs.Prelude.{◌≡◌, ◌*◌, length};
    ghost use Rattle.state_store.specs.Even.{Even, cut, even_code};

    ghost Value = { Even };

    ghost coded = { even_code };

    ghost view = { λ a. record { width = a.width; lists = cut a.width a.count a.numbers.items } };

    ghost invariant = { λ a. length a.numbers.items ≡ a.count * a.width };
}

impl EvenLists {
    /// No lists yet, of this length.
    #[tactic(auto, unfolding(crate::specs::Even::cut))]
    pub fn new(alloc: Global, width: usize) -> EvenLists
        ensures { result ≡ record { width = width; lists = [] } }
    {
        EvenLists {
            width,
            count: 0,
            numbers: Vec::new(alloc),
        }
    }

    /// The same, with the memory for so many.
    #[tactic(auto, unfolding(crate::specs::Even::cut))]
    pub fn with_capacity(alloc: Global, width: usize, count: usize) -> Result<EvenLists, NoMemory>
        ensures { IfOk result (λ made. made ≡ record { width = width; lists = [] }) }
    {
        let Some(numbers) = count.checked_mul(width) else {
            return Err(NoMemory);
        };
        Ok(EvenLists {
            width,
            count: 0,
            numbers: Vec::with_capacity(alloc, numbers)?,
        })
    }

    /// So many lists of zeros.
    pub fn zeros(alloc: Global, width: usize, count: u32) -> Result<EvenLists, NoMemory>
        requires { width ≤ 8 }
        ensures { IfOk result (λ made. made ≡ record { width = width; lists = replicate count (replicate width 0) }) }
    {
        let length = count as usize * width;
        Ok(EvenLists {
            width,
            count: count as usize,
            numbers: vec![in alloc; 0u64; length]?,
        })
    }

    /// How many lists there are.
    pub fn len(&self) -> usize
        ensures { result ≡ length self.now.lists }
    {
        self.count
    }

    /// The list at a place.
    pub fn at(&self, place: usize) -> &[u64]
        requires { place < length self.now.lists }
        ensures list { slice_get self.now.lists place ≡ Some result.now }
        ensures width { length result.now ≡ self.now.width }
    {
        list_at(&self.numbers, self.width, place)
    }

    /// Puts another list at a place.
    pub fn set(&mut self, place: usize, list: &[u64])
        requires within { place < length self.old.lists }
        requires width { length list.now ≡ self.old.width }
        ensures { self.new ≡ record self.old { lists = slice_set self.old.lists place list.now } }
    {
        write_at(&mut self.numbers, place, list);
    }

    /// Puts a list last, which begins with these numbers and ends with those.
    pub fn push(&mut self, front: &[u64], back: &[u64]) -> Result<(), NoMemory>
        requires { length front.now + length back.now ≡ self.old.width }
        ensures ok { OnOk result (self.new
            ≡ record self.old { lists = self.old.lists ++ (front.now ++ back.now) ∷ [] }) }
        ensures err { OnErr result (self.new ≡ self.old) }
    {
        if self.count == usize::MAX {
            return Err(NoMemory);
        }
        append(&mut self.numbers, self.width, front, back)?;
        self.count += 1;
        Ok(())
    }

    /// Whether the others have the same length and the same numbers.
    pub fn is_same(&self, other: &EvenLists) -> bool
        ensures { IsTrue result → self.now ≡ other.now }
    {
        self.width == other.width
            && self.count == other.count
            && self.numbers.as_slice() == other.numbers.as_slice()
    }

    /// The same lists again, in memory of their own.
    pub fn copy(&self, alloc: Global) -> Result<EvenLists, NoMemory>
        ensures { IfOk result (λ made. made ≡ self.now) }
    {
        Ok(EvenLists {
            width: self.width,
            count: self.count,
            numbers: self.numbers.as_slice().to_vec(alloc)?,
        })
    }
}

// Puts both lists last, which have so many numbers together, or neither.
fn append(numbers: &mut Vec<u64>, width: usize, front: &[u64], back: &[u64]) -> Result<(), NoMemory>
    requires { length front.now + length back.now ≡ width }
    ensures ok { OnOk result (numbers.new.items ≡ numbers.old.items ++ (front.now ++ back.now)) }
    ensures err { OnErr result (numbers.new.items ≡ numbers.old.items) }
{
    numbers.reserve(width)?;
    put_numbers(numbers, front);
    put_numbers(numbers, back);
    Ok(())
}

/// Puts numbers last, for which there is room. This takes no memory.
#[inline]
pub fn put_numbers(numbers: &mut Vec<u64>, list: &[u64])
    requires { vec_len numbers.old + length list.now ≤ vec_capacity numbers.old }
    ensures items { numbers.new.items ≡ numbers.old.items ++ list.now }
    ensures len { vec_len numbers.new ≡ vec_len numbers.old + length list.now }
    ensures capacity { vec_capacity numbers.new ≡ vec_capacity numbers.old }
{
    for number in list {
        numbers.push_reserved(*number);
    }
}

// The list at a place, where each has so many numbers.
fn list_at(numbers: &[u64], width: usize, place: usize) -> &[u64]
    requires { place * width + width ≤ length numbers.now }
    ensures { result.now ≡ take width (drop (place * width) numbers.now) }
{
    let start = place * width;
    &numbers[start..start + width]
}

// Writes a list over the one at a place, where all have as many numbers.
fn write_at(numbers: &mut [u64], place: usize, list: &[u64])
    requires { place * length list.now + length list.now ≤ length numbers.old }
    ensures { let start = place * length list.now in
        numbers.new ≡ take start numbers.old ++ (list.now ++ drop (start + length list.now) numbers.old) }
{
    let start = place * list.len();
    numbers[start..start + list.len()].copy_from_slice(list);
}
