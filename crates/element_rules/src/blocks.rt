//! The first statement that breaks a rule.
ghost use Rattle.std.specs.Prelude.{◌≡◌, ◌++◌, ◌∷◌, [], true, false, map, is_none, IfOk, None};
ghost use Rattle.element_lang.specs.Broken as broken;
ghost use Rattle.element_lang.specs.Broken.{lowest_broken};
ghost use Rattle.element_tokens.specs.Tokens.{span_text};
ghost use Rattle.element_grammar.specs.Surface.{surface_stmt, surface_body};
ghost use Rattle.element_rules.specs.Seen.{local_of, objects_of, sight_of};
ghost use Rattle.element_rules.specs.Faulty.{tests_of, counts_apart, within_repeat};

use crate::ends::always_ends;
use crate::names::{Sight, word_of};
use crate::statements::{StmtFaults, statement};
use element_grammar::{At, SurfaceDecl, SurfaceStmt};
use element_lang::Broken;
use element_tokens::Span;
use gal_io::NoMemory;
use std::alloc::Global;

// The bits of the local that counts the turns of a repeat.
const TURN_BITS: u64 = 32;

/// The lowest rule that is broken, of tests from the lowest rule on.
pub(crate) fn lowest(at: usize, tests: &[(u8, bool)]) -> Option<Broken>
    ensures { result ≡ lowest_broken at tests.now }
{
    for (rule, is_broken) in tests {
        if *is_broken {
            return Some(Broken { rule: *rule, at });
        }
    }
    None
}

// The lowest rule that a statement breaks by its own parts. Where it uses a name that isn't known, widths and objects
// aren't tested.
fn broken_by(at: usize, ended: bool, faults: &StmtFaults) -> Option<Broken>
    ensures { result ≡ lowest_broken at (tests_of ended faults.now) }
{
    let lost = faults.exprs.unknown || faults.unknown;
    lowest(
        at,
        &[
            (2, faults.exprs.bad_width),
            (4, faults.exprs.too_large),
            (7, faults.taken),
            (8, lost),
            (9, !lost && (faults.exprs.misfit || faults.misfit)),
            (10, faults.fixed_field),
            (11, !lost && faults.object_misfit),
            (12, !lost && faults.fixed_object),
            (13, faults.exprs.far_shift || faults.bad_repeat),
            (14, ended || faults.repeats_an_end),
        ],
    )
}

// The first statement inside a statement that breaks a rule.
#[cycle(block)]
fn broken_within(
    alloc: Global,
    text: &[u8],
    objects: &[At<SurfaceDecl>],
    sight: &mut Sight,
    source: &SurfaceStmt,
) -> Result<Option<Broken>, NoMemory>
    requires { counts_apart (sight_of text.now objects.now sight.old) (surface_stmt text.now source.now) ≡ true }
    ensures found { IfOk result (λ found. found
        ≡ broken.broken_within (sight_of text.now objects.now sight.old) (surface_stmt text.now source.now)) }
    ensures sight { IfOk result (λ found. found ≡ None
        → sight_of text.now objects.now sight.new ≡ sight_of text.now objects.now sight.old) }
{
    match source {
        SurfaceStmt::If { yes, no, .. } => {
            let found = broken_in(alloc, text, objects, sight, yes)?;
            if found.is_some() {
                return Ok(found);
            }
            broken_in(alloc, text, objects, sight, no)
        }
        SurfaceStmt::Repeat { index, body, .. } => {
            broken_in_repeat(alloc, text, objects, sight, *index, body)
        }
        SurfaceStmt::Let { .. }
        | SurfaceStmt::Assign { .. }
        | SurfaceStmt::SetField { .. }
        | SurfaceStmt::Look { .. }
        | SurfaceStmt::Put { .. }
        | SurfaceStmt::Del { .. }
        | SurfaceStmt::Send { .. }
        | SurfaceStmt::Drop => Ok(None),
    }
}

// The same in the statements of a repeat, in which alone the local that counts its turns is in scope.
#[cycle(block)]
fn broken_in_repeat(
    alloc: Global,
    text: &[u8],
    objects: &[At<SurfaceDecl>],
    sight: &mut Sight,
    index: Span,
    source: &[At<SurfaceStmt>],
) -> Result<Option<Broken>, NoMemory>
    requires { is_none (broken.local_named (map local_of sight.old.locals.entries) (span_text text.now index)) ≡ true }
    ensures found { IfOk result (λ found. found
        ≡ broken.broken_in (within_repeat (sight_of text.now objects.now sight.old) (span_text text.now index))
        (surface_body text.now source.now)) }
    ensures sight { IfOk result (λ found. found ≡ None
        → sight_of text.now objects.now sight.new ≡ sight_of text.now objects.now sight.old) }
{
    let outer = sight.locals.len();
    let repeated = sight.repeated;
    let word = word_of(alloc, text, index)?;
    sight.locals.insert(word, TURN_BITS)?;
    sight.repeated = true;
    let found = broken_in(alloc, text, objects, sight, source)?;
    sight.locals.truncate(outer);
    sight.repeated = repeated;
    Ok(found)
}

/// The first statement of a block, or inside one of them, that breaks a rule. The locals of the block go out of scope.
#[cycle(block)]
pub(crate) fn broken_in(
    alloc: Global,
    text: &[u8],
    objects: &[At<SurfaceDecl>],
    sight: &mut Sight,
    source: &[At<SurfaceStmt>],
) -> Result<Option<Broken>, NoMemory>
    ensures found { IfOk result (λ found. found
        ≡ broken.broken_in (sight_of text.now objects.now sight.old) (surface_body text.now source.now)) }
    ensures sight { IfOk result (λ found. found ≡ None
        → sight_of text.now objects.now sight.new ≡ sight_of text.now objects.now sight.old) }
{
    let outer = sight.locals.len();
    let mut ended = false;
    for next in source {
        let faults = statement(alloc, text, objects, sight, &next.item)?;
        let own = broken_by(next.at, ended, &faults);
        if own.is_some() {
            return Ok(own);
        }
        let inner = broken_within(alloc, text, objects, sight, &next.item)?;
        if inner.is_some() {
            return Ok(inner);
        }
        ended |= always_ends(&next.item);
    }
    sight.locals.truncate(outer);
    Ok(None)
}
