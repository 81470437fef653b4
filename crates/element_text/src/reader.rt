//! From a text to a middlebox.
ghost use Rattle.std.specs.Prelude.{◌≡◌, ◌≢◌, ◌⊎◌, ◌-◌, length, map, IfOk, IfErr, MatchResult};
ghost use Rattle.element_lang.specs.Tree.{Tree};
ghost use Rattle.element_lang.specs.View.{tree};
ghost use Rattle.element_lang.specs.Accepted as accepted;
ghost use Rattle.element_lang.specs.Accepted.{IsSource, HasNames};
ghost use Rattle.element_tokens.specs.Tokens.{placed_of};
ghost use Rattle.element_grammar.specs.Surface.{surface_tree};
ghost use Rattle.element_text.specs.declared.error.TextError.{TextError};
ghost use Rattle.element_text.specs.Refused.{IsRefused};
ghost use Rattle.element_text.specs.Reads.{IsAnswer, IsResolved, KeepsSizes, IsTooLarge, IsUnbroken, HasOnlyTokens};
ghost use Rattle.element_text.specs.Reads.{HasOnlySurface};

use crate::error::TextError;
use crate::rules::resolve;
use element_grammar::{ParseError, SurfaceTree, parse};
use element_lang::{MAX_DEPTH, MAX_ENTRIES, MAX_OBJECTS, MAX_WRITES, Middlebox, What};
use element_rules::{entries, first_broken, writes};
use element_tokens::{Placed, depth, tokens};
use gal_io::NoMemory;
use std::alloc::Global;
use std::str;

// The offset of the token behind which so many are left, itself among them. Behind the last one it is the length of the
// text.
fn offset_at(text: &[u8], found: &[Placed], left: usize) -> usize
    ensures { result ≡ accepted.offset_at text.now (map (placed_of text.now) found.now) (length found.now - left) }
{
    match found.get(found.len().saturating_sub(left)) {
        Some(placed) => placed.offset,
        None => text.len(),
    }
}

// A middlebox, where it keeps the sizes.
fn within_sizes(m: Middlebox) -> Result<Middlebox, TextError>
    ensures ok { IfOk result (λ kept. (kept ≡ m) × KeepsSizes (tree m)) }
    ensures err { IfErr result (λ e. IsTooLarge (tree m) e) }
{
    let have = entries(&m);
    if have > MAX_ENTRIES {
        return Err(TextError::TooLarge {
            what: What::Entries,
            have,
            allowed: MAX_ENTRIES,
        });
    }
    let have = writes(&m);
    if have > MAX_WRITES {
        return Err(TextError::TooLarge {
            what: What::Writes,
            have,
            allowed: MAX_WRITES,
        });
    }
    Ok(m)
}

// The middlebox of a surface tree that breaks no rule.
fn read_unbroken(alloc: Global, text: &[u8], source: &SurfaceTree) -> Result<Middlebox, TextError>
    requires { IsUnbroken (surface_tree text.now source.now) }
    ensures { IsResolved (surface_tree text.now source.now) result }
{
    let middlebox = resolve(alloc, text, source)?;
    within_sizes(middlebox)
}

// The middlebox of a surface tree that the text spells.
fn read_surface(
    alloc: Global,
    text: &[u8],
    found: &[Placed],
    source: &SurfaceTree,
) -> Result<Middlebox, TextError>
    requires { HasOnlySurface text.now (map (placed_of text.now) found.now) (surface_tree text.now source.now) }
    ensures { IsAnswer text.now result }
{
    let objects = source.objects.len();
    if objects > MAX_OBJECTS {
        return Err(TextError::TooLarge {
            what: What::Objects,
            have: objects as u64,
            allowed: MAX_OBJECTS as u64,
        });
    }
    match first_broken(alloc, text, source) {
        Ok(None) => read_unbroken(alloc, text, source),
        Ok(Some(broken)) => Err(TextError::Rule {
            rule: broken.rule,
            offset: offset_at(text, found, broken.at),
        }),
        Err(NoMemory) => Err(TextError::NoMemory),
    }
}

// The middlebox that tokens spell. How deep brackets stand in one another is tested before the grammar, whose
// recursion goes as deep.
fn read_tokens(alloc: Global, text: &[u8], found: &[Placed]) -> Result<Middlebox, TextError>
    requires { HasOnlyTokens text.now (map (placed_of text.now) found.now) }
    ensures { IsAnswer text.now result }
{
    let deepest = depth(text, found);
    if deepest > MAX_DEPTH {
        return Err(TextError::TooLarge {
            what: What::Depth,
            have: deepest as u64,
            allowed: MAX_DEPTH as u64,
        });
    }
    match parse(alloc, text, found) {
        Ok(source) => read_surface(alloc, text, found, &source),
        Err(ParseError::Left(left)) => Err(TextError::Syntax(offset_at(text, found, left))),
        Err(ParseError::NoMemory) => Err(TextError::NoMemory),
    }
}

/// Reads a source. Of several reasons to refuse a text, the first one in the order of `TextError` is answered.
pub fn read(alloc: Global, text: &[u8]) -> Result<Middlebox, TextError>
    ensures ok { IfOk result (λ m. IsSource text.now (tree m)) }
    ensures only { IfOk result (λ m. (other : Tree) → IsSource text.now other → other ≡ tree m) }
    ensures names { IfOk result (λ m. HasNames (tree m)) }
    ensures refused { IfErr result (λ e. IsRefused text.now e) }
    ensures exact { (e : TextError) → e ≢ TextError.NoMemory → IsRefused text.now e
        → MatchResult result (λ _. ⊥) (λ found. (found ≡ e) ⊎ (found ≡ TextError.NoMemory)) }
    ensures found { (m : Tree) → IsSource text.now m
        → MatchResult result (λ found. tree found ≡ m) (λ e. e ≡ TextError.NoMemory) }
{
    str::from_utf8(text)?;
    let found = tokens(alloc, text)?;
    read_tokens(alloc, text, &found)
}
