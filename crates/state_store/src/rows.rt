//! Lists of rows.
ghost use Rattle.std.specs.Prelude.{◌≡◌, ◌==◌, ◌++◌, ◌∷◌, ◌<◌, ◌≤◌, ◌+◌, [], Some, true, length, drop, slice_get, IfOk, OnOk};
ghost use Rattle.std.specs.Prelude.{◌↔◌, IsTrue, OnErr, map as list_map};
ghost use Rattle.state_store.specs.Shapes.{HasRoomFor, IsShaped, row_of_list, rows_in};
ghost use Rattle.state_store.specs.Store.{row_of};

use crate::even_lists::EvenLists;
use crate::object::Row;
use crate::short_lists::values_of;
use gal_bits::Values;
use gal_io::NoMemory;
use std::alloc::Global;
use std::marker::Model;

/// A list of rows. Where all have as many numbers in their keys, and in their values, it takes 8 bytes for each number and
/// nothing else.
#[derive(Drop)]
pub struct Rows {
    alloc: Global,
    form: Form,
}

/// How rows lie in memory.
#[derive(Drop)]
enum Form {
    // The numbers of a row's key and then those of its values, as many for each row.
    Even {
        keys: usize,
        values: usize,
        lists: EvenLists,
    },
    Mixed(Vec<Row>),
}

impl Model for Rows {
    ghost use Rattle.std.specs.Prelude.{List};
    ghost use Rattle.state_store.specs.declared.object.Row.{Row};
    ghost use Rattle.state_store.specs.Shapes.{IsShaped, rows_in};

    ghost Value = { List Row };

    ghost view = { λ rows. rows_in rows.form };

    ghost invariant = { λ rows. IsShaped rows.form };
}

impl Rows {
    pub fn new(alloc: Global) -> Rows
        ensures { result ≡ [] }
    {
        Rows {
            alloc,
            form: Form::Even {
                keys: 0,
                values: 0,
                lists: EvenLists::new(alloc, 0),
            },
        }
    }

    /// No rows yet, with the memory for so many that have so many numbers in their keys and in their values.
    pub fn with_capacity(
        alloc: Global,
        keys: usize,
        values: usize,
        rows: usize,
    ) -> Result<Rows, NoMemory>
        requires keys { keys ≤ 8 }
        requires values { values ≤ 8 }
        ensures { IfOk result (λ made. made ≡ []) }
    {
        let lists = EvenLists::with_capacity(alloc, keys + values, rows)?;
        Ok(Rows {
            alloc,
            form: Form::Even {
                keys,
                values,
                lists,
            },
        })
    }

    pub fn len(&self) -> usize
        ensures { result ≡ length self.now }
    {
        count_in(&self.form)
    }

    pub fn is_empty(&self) -> bool
        ensures { result ≡ (length self.now == 0) }
    {
        self.len() == 0
    }

    /// The row at a place.
    pub fn at(&self, place: usize) -> Row
        requires { place < length self.now }
        ensures row { slice_get self.now place ≡ Some result }
        ensures rest { drop place self.now ≡ result ∷ drop (place + 1) self.now }
    {
        row_in(&self.form, place)
    }

    /// The numbers of the key of the row at a place, and those of its values, as they lie in memory.
    pub fn parts_at(&self, place: usize) -> (&[u64], &[u64])
        requires { place < length self.now }
        ensures row { slice_get self.now place ≡ Some (row_of (result.0.now, result.1.now)) }
        ensures rest { drop place self.now ≡ row_of (result.0.now, result.1.now) ∷ drop (place + 1) self.now }
    {
        parts_in(&self.form, place)
    }

    /// Puts a row last.
    pub fn push(&mut self, row: Row) -> Result<(), NoMemory>
        ensures ok { OnOk result (self.new ≡ self.old ++ row ∷ []) }
        ensures err { OnErr result (self.new ≡ self.old) }
    {
        self.push_values(&row.keys, &row.values)
    }

    /// Puts the row last that has this key and these values.
    pub fn push_values(&mut self, keys: &Values, values: &Values) -> Result<(), NoMemory>
        ensures ok { OnOk result (self.new ≡ self.old ++ row_of (keys.now, values.now) ∷ []) }
        ensures err { OnErr result (self.new ≡ self.old) }
    {
        prove!(keys.len() <= 8);
        prove!(values.len() <= 8);
        self.push_parts(keys.as_slice(), values.as_slice())
    }

    /// Puts the row last that has these numbers in its key and those in its values.
    pub fn push_parts(&mut self, keys: &[u64], values: &[u64]) -> Result<(), NoMemory>
        requires keys { length keys.now ≤ 8 }
        requires values { length values.now ≤ 8 }
        ensures ok { OnOk result (self.new ≡ self.old ++ row_of (keys.now, values.now) ∷ []) }
        ensures err { OnErr result (self.new ≡ self.old) }
    {
        make_room_for(self.alloc, &mut self.form, keys.len(), values.len())?;
        push_into(&mut self.form, keys, values)
    }

    /// Whether the other list has the same rows.
    pub fn is_same(&self, other: &Rows) -> bool
        ensures { IsTrue result ↔ (self.now ≡ other.now) }
    {
        have_same_numbers(&self.form, &other.form) || are_same_one_by_one(self, other)
    }

    /// The same rows again, in memory of their own.
    pub fn copy(&self, alloc: Global) -> Result<Rows, NoMemory>
        ensures { IfOk result (λ made. made ≡ self.now) }
    {
        let form = match &self.form {
            Form::Even {
                keys,
                values,
                lists,
            } => Form::Even {
                keys: *keys,
                values: *values,
                lists: lists.copy(alloc)?,
            },
            Form::Mixed(rows) => Form::Mixed(rows.as_slice().to_vec(alloc)?),
        };
        Ok(Rows { alloc, form })
    }
}

// How many rows there are.
fn count_in(form: &Form) -> usize
    ensures { result ≡ length (rows_in form.now) }
{
    match form {
        Form::Even { lists, .. } => lists.len(),
        Form::Mixed(rows) => rows.len(),
    }
}

// The row whose key has so many numbers, of the numbers of both.
fn row_of(keys: usize, numbers: &[u64]) -> Row
    requires few_keys { keys ≤ 8 }
    requires within { keys ≤ length numbers.now }
    requires most { length numbers.now ≤ keys + 8 }
    ensures { result ≡ row_of_list keys numbers.now }
{
    Row {
        keys: values_of(&numbers[..keys]),
        values: values_of(&numbers[keys..]),
    }
}

// The row at a place.
fn row_in(form: &Form, place: usize) -> Row
    requires shaped { IsShaped form.now }
    requires within { place < length (rows_in form.now) }
    ensures row { slice_get (rows_in form.now) place ≡ Some result }
    ensures rest { drop place (rows_in form.now) ≡ result ∷ drop (place + 1) (rows_in form.now) }
{
    match form {
        Form::Even { keys, lists, .. } => row_of(*keys, lists.at(place)),
        Form::Mixed(rows) => rows[place],
    }
}

// The numbers of the key of the row at a place, and those of its values.
fn parts_in(form: &Form, place: usize) -> (&[u64], &[u64])
    requires shaped { IsShaped form.now }
    requires within { place < length (rows_in form.now) }
    ensures row { slice_get (rows_in form.now) place ≡ Some (row_of (result.0.now, result.1.now)) }
    ensures rest { drop place (rows_in form.now)
        ≡ row_of (result.0.now, result.1.now) ∷ drop (place + 1) (rows_in form.now) }
{
    match form {
        Form::Even { keys, lists, .. } => lists.at(place).split_at(*keys),
        Form::Mixed(rows) => parts_of(&rows[place]),
    }
}

// The numbers of the key of a row, and those of its values.
fn parts_of(row: &Row) -> (&[u64], &[u64])
    ensures { row_of (result.0.now, result.1.now) ≡ row.now }
{
    (row.keys.as_slice(), row.values.as_slice())
}

// Whether two lists have the same rows, by a look at each.
fn are_same_one_by_one(some: &Rows, others: &Rows) -> bool
    ensures { IsTrue result ↔ (some.now ≡ others.now) }
{
    if some.len() != others.len() {
        return false;
    }
    for place in 0..some.len() {
        if !is_same_row(some.parts_at(place), others.parts_at(place)) {
            return false;
        }
    }
    true
}

// Whether two rows have the same numbers in their keys, and in their values.
fn is_same_row(one: (&[u64], &[u64]), other: (&[u64], &[u64])) -> bool
    ensures { IsTrue result
        ↔ (row_of (one.entry.0.now, one.entry.1.now) ≡ row_of (other.entry.0.now, other.entry.1.now)) }
{
    one.0 == other.0 && one.1 == other.1
}

// Whether the rows lie alike and have the same numbers, which takes no look at each row.
fn have_same_numbers(one: &Form, other: &Form) -> bool
    ensures { IsTrue result → rows_in one.now ≡ rows_in other.now }
{
    match one {
        Form::Even { keys, lists, .. } => are_even_too(*keys, lists, other),
        Form::Mixed(_) => false,
    }
}

// Whether all rows have so many numbers in their keys, and these numbers.
fn are_even_too(keys: usize, lists: &EvenLists, form: &Form) -> bool
    ensures { IsTrue result → list_map (row_of_list keys) lists.now.lists ≡ rows_in form.now }
{
    match form {
        Form::Even {
            keys: keys_here,
            lists: lists_here,
            ..
        } => keys == *keys_here && lists.is_same(lists_here),
        Form::Mixed(_) => false,
    }
}

// Whether a row of so many numbers has as many as the others, where that matters.
fn has_room_for(form: &Form, keys: usize, values: usize) -> bool
    ensures { result ≡ true → HasRoomFor form.now keys values }
{
    match form {
        Form::Even {
            keys: keys_here,
            values: values_here,
            ..
        } => keys == *keys_here && values == *values_here,
        Form::Mixed(_) => true,
    }
}

// Has rows lie so that one of so many numbers can be put last.
fn make_room_for(alloc: Global, form: &mut Form, keys: usize, values: usize) -> Result<(), NoMemory>
    requires shaped { IsShaped form.old }
    requires keys { keys ≤ 8 }
    requires values { values ≤ 8 }
    ensures room { OnOk result (HasRoomFor form.new keys values) }
    ensures same { rows_in form.new ≡ rows_in form.old }
    ensures shaped { IsShaped form.new }
{
    if has_room_for(form, keys, values) {
        return Ok(());
    }
    if count_in(form) == 0 {
        *form = no_rows_of(alloc, keys, values);
    } else {
        *form = Form::Mixed(one_by_one(alloc, form)?);
    }
    Ok(())
}

// No rows yet, of which each is to have so many numbers.
fn no_rows_of(alloc: Global, keys: usize, values: usize) -> Form
    requires keys { keys ≤ 8 }
    requires values { values ≤ 8 }
    ensures room { HasRoomFor result keys values }
    ensures none { rows_in result ≡ [] }
    ensures shaped { IsShaped result }
{
    Form::Even {
        keys,
        values,
        lists: EvenLists::new(alloc, keys + values),
    }
}

// The rows, each by itself.
fn one_by_one(alloc: Global, form: &Form) -> Result<Vec<Row>, NoMemory>
    requires { IsShaped form.now }
    ensures { IfOk result (λ made. made.items ≡ rows_in form.now) }
{
    let mut rows = Vec::new(alloc);
    for place in 0..count_in(form) {
        rows.push(row_in(form, place))?;
    }
    Ok(rows)
}

// Puts a row last.
fn push_into(form: &mut Form, keys: &[u64], values: &[u64]) -> Result<(), NoMemory>
    requires shaped { IsShaped form.old }
    requires room { HasRoomFor form.old (length keys.now) (length values.now) }
    requires keys { length keys.now ≤ 8 }
    requires values { length values.now ≤ 8 }
    ensures ok { OnOk result (rows_in form.new ≡ rows_in form.old ++ row_of (keys.now, values.now) ∷ []) }
    ensures err { OnErr result (rows_in form.new ≡ rows_in form.old) }
    ensures shaped { IsShaped form.new }
{
    match form {
        Form::Even { lists, .. } => push_even(lists, keys, values),
        Form::Mixed(rows) => {
            rows.push(Row {
                keys: values_of(keys),
                values: values_of(values),
            })?;
            Ok(())
        }
    }
}

// Puts the numbers of a row last.
fn push_even(lists: &mut EvenLists, keys: &[u64], values: &[u64]) -> Result<(), NoMemory>
    requires { length keys.now + length values.now ≡ lists.old.width }
    ensures ok { OnOk result (list_map (row_of_list (length keys.now)) lists.new.lists
        ≡ list_map (row_of_list (length keys.now)) lists.old.lists ++ row_of (keys.now, values.now) ∷ []) }
    ensures err { OnErr result (lists.new ≡ lists.old) }
    ensures width { lists.new.width ≡ lists.old.width }
{
    lists.push(keys, values)
}
