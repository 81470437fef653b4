//! How many bytes declarations have, each token with the one that stands after it.
ghost use Rattle.std.specs.Prelude.{◌≡◌, ◌+◌};
ghost use Rattle.element_print.specs.Lengths as lengths;
ghost use Rattle.element_print.specs.Lengths.{capped};

use crate::decl::width_at;
use crate::token_lengths::{
    between_length, braces_length, brackets_length, literal_length, mark_length, number_length,
    total,
};
use element_lang::Mark;
use gal_bits::Widths;
use state_store::{Kind, ObjectDecl, Row, Rows};

// Widths, without what stands between two of them.
fn widths_sum(widths: &[u64]) -> u64
    ensures { result ≡ capped (lengths.widths_sum widths.now) }
{
    let mut bytes: u64 = 0;
    for width in widths {
        bytes = bytes.saturating_add(number_length(*width));
    }
    bytes
}

// Widths in brackets.
fn widths_length(widths: &Widths) -> u64
    ensures { result ≡ capped (lengths.widths_length widths.now) }
{
    total(&[
        brackets_length(true),
        widths_sum(widths.as_slice()),
        between_length(Mark::Comma, widths.len()),
    ])
}

// Numbers and their widths, without what stands between two.
#[tactic(auto, using(crate::proofs::Literals::literals_sum_more))]
fn literals_sum(widths: &[u64], numbers: &[u64]) -> u64
    ensures { result ≡ capped (lengths.literals_sum widths.now numbers.now) }
{
    let mut bytes: u64 = 0;
    for i in 0..numbers.len() {
        bytes = bytes.saturating_add(literal_length(numbers[i], width_at(widths, i)));
    }
    bytes
}

// The length of numbers with their widths, in brackets.
fn literals_length(widths: &[u64], numbers: &[u64]) -> u64
    ensures { result ≡ capped (lengths.literals_length widths.now numbers.now) }
{
    total(&[
        brackets_length(true),
        literals_sum(widths, numbers),
        between_length(Mark::Comma, numbers.len()),
    ])
}

fn row_length(keys: &Widths, values: &Widths, row: &Row) -> u64
    ensures { result ≡ capped (lengths.row_length keys.now values.now row.now) }
{
    total(&[
        literals_length(keys.as_slice(), row.keys.as_slice()),
        mark_length(Mark::Arrow),
        literals_length(values.as_slice(), row.values.as_slice()),
        mark_length(Mark::Semicolon),
    ])
}

fn rows_length(keys: &Widths, values: &Widths, rows: &Rows) -> u64
    ensures { result ≡ capped (lengths.rows_length keys.now values.now rows.now) }
{
    let mut bytes: u64 = 0;
    for place in 0..rows.len() {
        bytes = bytes.saturating_add(row_length(keys, values, &rows.at(place)));
    }
    bytes
}

fn table_length(o: &ObjectDecl) -> u64
    ensures { result ≡ capped (lengths.length_as Kind.Table o.now) }
{
    total(&[
        mark_length(Mark::Table) + 1,
        widths_length(&o.keys),
        mark_length(Mark::Arrow),
        widths_length(&o.values),
        braces_length(),
        rows_length(&o.keys, &o.values, &o.rows),
    ])
}

fn map_length(o: &ObjectDecl) -> u64
    ensures { result ≡ capped (lengths.length_as Kind.Map o.now) }
{
    total(&[
        mark_length(Mark::Map) + 1,
        widths_length(&o.keys),
        mark_length(Mark::Arrow),
        widths_length(&o.values),
        mark_length(Mark::Capacity),
        number_length(u64::from(o.size)),
        mark_length(Mark::Semicolon),
    ])
}

fn vector_length(o: &ObjectDecl) -> u64
    ensures { result ≡ capped (lengths.length_as Kind.Vector o.now) }
{
    total(&[
        mark_length(Mark::Vector) + 1,
        mark_length(Mark::Length),
        number_length(u64::from(o.size)),
        mark_length(Mark::Arrow),
        widths_length(&o.values),
        mark_length(Mark::Semicolon),
    ])
}

fn int_length(o: &ObjectDecl) -> u64
    ensures { result ≡ capped (lengths.length_as Kind.Int o.now) }
{
    total(&[
        mark_length(Mark::Int) + 1,
        mark_length(Mark::Colon),
        number_length(width_at(o.values.as_slice(), 0)),
        mark_length(Mark::Assign),
        number_length(o.start),
        mark_length(Mark::Semicolon),
    ])
}

// A declaration, but for the bytes of its name.
fn kind_length(o: &ObjectDecl) -> u64
    ensures { result ≡ capped (lengths.length_as o.now.kind o.now) }
{
    match o.kind {
        Kind::Table => table_length(o),
        Kind::Map => map_length(o),
        Kind::Vector => vector_length(o),
        Kind::Int => int_length(o),
    }
}

/// The bytes of the declarations of these objects, each token with what stands after it.
pub fn decls_length(objects: &[ObjectDecl]) -> u64
    ensures { result ≡ capped (lengths.decls_length objects.now) }
{
    let mut bytes: u64 = 0;
    for o in objects {
        bytes = total(&[bytes, o.name.len() as u64, kind_length(o)]);
    }
    bytes
}
