//! The lines of the rows of objects.
ghost use Rattle.std.specs.Prelude.{◌≡◌, ◌++◌, OnOk, slice_get};
ghost use Rattle.run_text.specs.Report.{key_text, part_line, part_lines, row_line, row_lines, name_in};
ghost use Rattle.state_store.specs.Store.{row_of};

use gal_io::{NoMemory, Text};
use run_model::ObjectRows;
use state_store::{ObjectDecl, Rows};

fn put_key(numbers: &[u64], text: &mut Text) -> Result<(), NoMemory>
    ensures { OnOk result (text.new ≡ text.old ++ key_text numbers.now) }
{
    for number in numbers {
        text.push_number(*number)?;
        text.push(b' ')?;
    }
    Ok(())
}

fn put_row(keys: &[u64], values: &[u64], text: &mut Text) -> Result<(), NoMemory>
    ensures { OnOk result (text.new ≡ text.old ++ row_line (row_of (keys.now, values.now))) }
{
    put_key(keys, text)?;
    text.extend(b"->")?;
    text.push_spaced(values)?;
    text.push(b'\n')
}

fn put_rows(rows: &Rows, text: &mut Text) -> Result<(), NoMemory>
    ensures { OnOk result (text.new ≡ text.old ++ row_lines rows.now) }
{
    for place in 0..rows.len() {
        let (keys, values) = rows.parts_at(place);
        put_row(keys, values, text)?;
    }
    Ok(())
}

// The name of the object of this number.
fn name_of(objects: &[ObjectDecl], number: u32) -> &[u8]
    ensures { result.now ≡ name_in (slice_get objects.now number) }
{
    match objects.get(number as usize) {
        Some(object) => object.name.as_slice(),
        None => b"",
    }
}

fn put_part_line(
    word: &str,
    objects: &[ObjectDecl],
    part: &ObjectRows,
    text: &mut Text,
) -> Result<(), NoMemory>
    ensures { OnOk result (text.new ≡ text.old ++ part_line word.now objects.now part.now) }
{
    text.extend(word.as_bytes())?;
    text.push(b' ')?;
    text.extend(name_of(objects, part.object))?;
    text.push(b' ')?;
    text.push_number(part.rows.len() as u64)?;
    text.push(b'\n')
}

/// Puts the lines of these parts behind a text. The word says what they are called.
pub(crate) fn put_parts(
    word: &str,
    objects: &[ObjectDecl],
    parts: &[ObjectRows],
    text: &mut Text,
) -> Result<(), NoMemory>
    ensures { OnOk result (text.new ≡ text.old ++ part_lines word.now objects.now parts.now) }
{
    for part in parts {
        put_part_line(word, objects, part, text)?;
        put_rows(&part.rows, text)?;
    }
    Ok(())
}
