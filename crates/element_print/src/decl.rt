//! The tokens of declarations.
ghost use Rattle.std.specs.Prelude.{◌≡◌, ◌++◌, ◌∷◌, [], map, slice_index, OnOk};
ghost use Rattle.element_lang.specs.Surface.{literals, named_row, named_as, named_decl};
ghost use Rattle.element_lang.specs.Token.{fixed, number, name};
ghost use Rattle.element_print.specs.Printed.{joined, widths_tokens, literal_tokens, literals_tokens, rows_tokens};
ghost use Rattle.element_print.specs.Printed.{decl_tokens, decls_tokens};
ghost use Rattle.element_print.specs.Spaced.{spaced};

use crate::tokens::Tokens;
use element_lang::Mark;
use gal_bits::Widths;
use gal_io::NoMemory;
use state_store::{Kind, ObjectDecl, Row, Rows};

// Adds widths, with commas between them.
#[tactic(auto, using(crate::proofs::Spaces::spaces, crate::proofs::Spaces::listed_more, std::proofs::lemmas::Grind::common_steps))]
fn put_numbers(numbers: &[u64], out: &mut Tokens) -> Result<(), NoMemory>
    ensures { OnOk result (out.new ≡ out.old ++ spaced (joined Mark.Comma (map (λ w. number w ∷ []) numbers.now))) }
{
    let mut behind = false;
    for number in numbers {
        out.mark_if(behind, Mark::Comma)?;
        out.number(*number)?;
        behind = true;
    }
    Ok(())
}

// Adds widths in brackets.
#[tactic(auto, using(crate::proofs::Spaces::spaces), unfolding(crate::specs::Printed::widths_tokens))]
fn put_widths(widths: &Widths, out: &mut Tokens) -> Result<(), NoMemory>
    ensures { OnOk result (out.new ≡ out.old ++ spaced (widths_tokens widths.now)) }
{
    out.mark(Mark::LeftParen)?;
    put_numbers(widths.as_slice(), out)?;
    out.mark(Mark::RightParen)?;
    Ok(())
}

// The width at a place, 0 past the end.
pub(crate) fn width_at(widths: &[u64], place: usize) -> u64
    ensures { result ≡ slice_index widths.now place }
{
    if place < widths.len() {
        widths[place]
    } else {
        0
    }
}

// Adds numbers and their widths, with commas between them.
#[tactic(auto, using(crate::proofs::Spaces::spaces, crate::proofs::Spaces::listed_more, crate::proofs::Literals::literals_more, std::proofs::lemmas::Grind::common_steps))]
fn put_joined(widths: &[u64], numbers: &[u64], out: &mut Tokens) -> Result<(), NoMemory>
    ensures { OnOk result (out.new
        ≡ out.old ++ spaced (joined Mark.Comma (map literal_tokens (literals widths.now numbers.now)))) }
{
    let mut behind = false;
    for i in 0..numbers.len() {
        out.mark_if(behind, Mark::Comma)?;
        out.literal(numbers[i], width_at(widths, i))?;
        behind = true;
    }
    Ok(())
}

// Adds them in brackets.
#[tactic(auto, using(crate::proofs::Spaces::spaces), unfolding(crate::specs::Printed::literals_tokens))]
fn put_literals(widths: &[u64], numbers: &[u64], out: &mut Tokens) -> Result<(), NoMemory>
    ensures { OnOk result (out.new ≡ out.old ++ spaced (literals_tokens (literals widths.now numbers.now))) }
{
    out.mark(Mark::LeftParen)?;
    put_joined(widths, numbers, out)?;
    out.mark(Mark::RightParen)?;
    Ok(())
}

#[tactic(auto, using(crate::proofs::Spaces::spaces))]
fn put_row(keys: &Widths, values: &Widths, row: &Row, out: &mut Tokens) -> Result<(), NoMemory>
    ensures { OnOk result (out.new
        ≡ out.old ++ spaced (literals_tokens (literals keys.now row.now.keys) ++ fixed Mark.Arrow
        ∷ (literals_tokens (literals values.now row.now.values) ++ fixed Mark.Semicolon ∷ []))) }
{
    put_literals(keys.as_slice(), row.keys.as_slice(), out)?;
    out.mark(Mark::Arrow)?;
    put_literals(values.as_slice(), row.values.as_slice(), out)?;
    out.mark(Mark::Semicolon)?;
    Ok(())
}

#[tactic(auto, using(crate::proofs::Spaces::spaces, std::proofs::lemmas::Grind::common_steps))]
fn put_rows(keys: &Widths, values: &Widths, rows: &Rows, out: &mut Tokens) -> Result<(), NoMemory>
    ensures { OnOk result (out.new ≡ out.old ++ spaced (rows_tokens (map (named_row keys.now values.now) rows.now))) }
{
    for place in 0..rows.len() {
        put_row(keys, values, &rows.at(place), out)?;
    }
    Ok(())
}

// Adds a name, and the widths of keys and values.
#[tactic(auto, using(crate::proofs::Spaces::spaces))]
fn put_widths_of(o: &ObjectDecl, out: &mut Tokens) -> Result<(), NoMemory>
    ensures { OnOk result (out.new
        ≡ out.old ++ spaced (name o.now.name
        ∷ (widths_tokens o.now.keys ++ fixed Mark.Arrow ∷ widths_tokens o.now.values))) }
{
    out.name(o.name.as_slice())?;
    put_widths(&o.keys, out)?;
    out.mark(Mark::Arrow)?;
    put_widths(&o.values, out)?;
    Ok(())
}

#[tactic(auto, using(crate::proofs::Spaces::spaces))]
fn put_table(o: &ObjectDecl, out: &mut Tokens) -> Result<(), NoMemory>
    ensures { OnOk result (out.new ≡ out.old ++ spaced (decl_tokens (named_as Kind.Table o.now))) }
{
    out.mark(Mark::Table)?;
    put_widths_of(o, out)?;
    out.mark(Mark::LeftBrace)?;
    put_rows(&o.keys, &o.values, &o.rows, out)?;
    out.mark(Mark::RightBrace)?;
    Ok(())
}

// Adds what the declaration of a map ends with.
#[tactic(auto, using(crate::proofs::Spaces::spaces))]
fn put_capacity(capacity: u32, out: &mut Tokens) -> Result<(), NoMemory>
    ensures { OnOk result (out.new
        ≡ out.old ++ spaced (fixed Mark.Capacity ∷ number capacity ∷ fixed Mark.Semicolon ∷ [])) }
{
    out.mark(Mark::Capacity)?;
    out.number(u64::from(capacity))?;
    out.mark(Mark::Semicolon)?;
    Ok(())
}

#[tactic(auto, using(crate::proofs::Spaces::spaces))]
fn put_map(o: &ObjectDecl, out: &mut Tokens) -> Result<(), NoMemory>
    ensures { OnOk result (out.new ≡ out.old ++ spaced (decl_tokens (named_as Kind.Map o.now))) }
{
    out.mark(Mark::Map)?;
    put_widths_of(o, out)?;
    put_capacity(o.size, out)?;
    Ok(())
}

// Adds what the declaration of a vector ends with.
#[tactic(auto, using(crate::proofs::Spaces::spaces))]
fn put_values(values: &Widths, out: &mut Tokens) -> Result<(), NoMemory>
    ensures { OnOk result (out.new
        ≡ out.old ++ spaced (fixed Mark.Arrow ∷ (widths_tokens values.now ++ fixed Mark.Semicolon ∷ []))) }
{
    out.mark(Mark::Arrow)?;
    put_widths(values, out)?;
    out.mark(Mark::Semicolon)?;
    Ok(())
}

#[tactic(auto, using(crate::proofs::Spaces::spaces))]
fn put_vector(o: &ObjectDecl, out: &mut Tokens) -> Result<(), NoMemory>
    ensures { OnOk result (out.new ≡ out.old ++ spaced (decl_tokens (named_as Kind.Vector o.now))) }
{
    out.mark(Mark::Vector)?;
    out.name(o.name.as_slice())?;
    out.mark(Mark::Length)?;
    out.number(u64::from(o.size))?;
    put_values(&o.values, out)?;
    Ok(())
}

// Adds what the declaration of an integer ends with.
#[tactic(auto, using(crate::proofs::Spaces::spaces))]
fn put_start(start: u64, out: &mut Tokens) -> Result<(), NoMemory>
    ensures { OnOk result (out.new ≡ out.old ++ spaced (fixed Mark.Assign ∷ number start ∷ fixed Mark.Semicolon ∷ [])) }
{
    out.mark(Mark::Assign)?;
    out.number(start)?;
    out.mark(Mark::Semicolon)?;
    Ok(())
}

#[tactic(auto, using(crate::proofs::Spaces::spaces))]
fn put_int(o: &ObjectDecl, out: &mut Tokens) -> Result<(), NoMemory>
    ensures { OnOk result (out.new ≡ out.old ++ spaced (decl_tokens (named_as Kind.Int o.now))) }
{
    out.mark(Mark::Int)?;
    out.name(o.name.as_slice())?;
    out.mark(Mark::Colon)?;
    out.number(width_at(o.values.as_slice(), 0))?;
    put_start(o.start, out)?;
    Ok(())
}

fn put_decl(o: &ObjectDecl, out: &mut Tokens) -> Result<(), NoMemory>
    ensures { OnOk result (out.new ≡ out.old ++ spaced (decl_tokens (named_decl o.now))) }
{
    match o.kind {
        Kind::Table => put_table(o, out),
        Kind::Map => put_map(o, out),
        Kind::Vector => put_vector(o, out),
        Kind::Int => put_int(o, out),
    }
}

/// Adds the declarations of these objects.
#[tactic(auto, using(crate::proofs::Spaces::spaces, std::proofs::lemmas::Grind::common_steps))]
pub(crate) fn put_decls(objects: &[ObjectDecl], out: &mut Tokens) -> Result<(), NoMemory>
    ensures { OnOk result (out.new
        ≡ out.old ++ spaced (decls_tokens (map (λ o. record { at = 0; decl = named_decl o }) objects.now))) }
{
    for o in objects {
        put_decl(o, out)?;
    }
    Ok(())
}
