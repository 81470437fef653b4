//! From tokens to a surface tree.
ghost use Rattle.std.specs.Prelude.{◌≡◌, ℕ, ◌-◌, ◌≤◌, length, MatchResult, IfOk, IfErr};
ghost use Rattle.element_lang.specs.Surface.{Surface};
ghost use Rattle.element_lang.specs.Grammar.{Spells, IsFirstWrong};
ghost use Rattle.element_lang.specs.Accepted.{deepest};
ghost use Rattle.element_lang.specs.Bounds.{limit_of};
ghost use Rattle.element_lang.specs.declared.sizes.What.TheVariants.{Depth};
ghost use Rattle.element_tokens.specs.Tokens.{tokens_of};
ghost use Rattle.element_grammar.specs.Surface.{surface_tree};
ghost use Rattle.element_grammar.specs.Refused.{SpellsNone};

use crate::cursor::{after_mark, wrong};
use crate::declarations::declarations;
use crate::error::ParseError;
use crate::statements::block;
use crate::surface::SurfaceTree;
use element_lang::Mark;
use element_tokens::Placed;
use std::alloc::Global;

// The surface tree that the tokens spell, or how many are left at the first wrong one.
#[tactic(auto, using(crate::proofs::DeclarationPieces::wholes))]
fn whole(alloc: Global, text: &[u8], tokens: &[Placed]) -> Result<SurfaceTree, ParseError>
    ensures ok { IfOk result (λ s. Spells (tokens_of text.now tokens.now) (surface_tree text.now s)) }
    ensures err { IfErr result (λ e. SpellsNone (tokens_of text.now tokens.now) e) }
{
    let (objects, rest) = declarations(alloc, text, tokens)?;
    let rest = after_mark(text, rest, Mark::LeftBrace)?;
    let (body, rest) = block(alloc, text, rest)?;
    if !rest.is_empty() {
        return Err(wrong(text, rest));
    }
    Ok(SurfaceTree { objects, body })
}

/// The surface tree that the tokens of a source spell, or where the first wrong token stands. Calls go as deep as
/// brackets are
/// open, so that no more may be open at once than a source may have.
pub fn parse(alloc: Global, text: &[u8], tokens: &[Placed]) -> Result<SurfaceTree, ParseError>
    requires shallow { deepest 0 (tokens_of text.now tokens.now) ≤ limit_of Depth }
    ensures spelled { IfOk result (λ s. Spells (tokens_of text.now tokens.now) (surface_tree text.now s)) }
    ensures only { IfOk result
        (λ s. (other : Surface) → Spells (tokens_of text.now tokens.now) other → other ≡ surface_tree text.now s) }
    ensures wrong { (left : ℕ) → result ≡ Err (ParseError.Left left)
        → (left ≤ length tokens.now) × IsFirstWrong (tokens_of text.now tokens.now) (length tokens.now - left) }
    ensures found { (s : Surface) → Spells (tokens_of text.now tokens.now) s
        → MatchResult result (λ found. surface_tree text.now found ≡ s) (λ e. e ≡ ParseError.NoMemory) }
{
    whole(alloc, text, tokens)
}
