//! The text of a whole middlebox.
ghost use Rattle.std.specs.Prelude.{◌≡◌, ◌≤◌, List, length, IsTrue, IfOk};
ghost use Rattle.element_lang.specs.Accepted.{HasNames, IsSource, deepest};
ghost use Rattle.element_lang.specs.Rules.{is_good};
ghost use Rattle.element_lang.specs.Surface.{named};
ghost use Rattle.element_lang.specs.Token.{Token};
ghost use Rattle.element_lang.specs.View.{tree};
ghost use Rattle.element_print.specs.Lengths.{text_length};
ghost use Rattle.element_print.specs.Printed.{text_of, print_tokens};
ghost use Rattle.element_print.specs.ReadsBack.{HasExactly, IsSpelled, IsWithinSizes};

use crate::decl::put_decls;
use crate::lengths::text_length;
use crate::stmt::put_body;
use crate::tokens::Tokens;
use element_lang::{MAX_DEPTH, Mark, Middlebox};
use gal_io::{NoMemory, Text};
use std::alloc::Global;

// The same, of any tree. The room for the whole text is taken before any of it is written.
pub(crate) fn written(alloc: Global, m: &Middlebox) -> Result<Text, NoMemory>
    ensures { IfOk result (λ text. text ≡ text_of (print_tokens (named (tree m.now)))) }
{
    let mut out = Tokens::with_capacity(alloc, text_length(alloc, m)?)?;
    put_decls(m.objects.as_slice(), &mut out)?;
    out.mark(Mark::Process)?;
    out.mark(Mark::LeftBrace)?;
    put_body(m, &m.body, &mut out)?;
    let text = out.end(Mark::RightBrace)?;
    Ok(text)
}

/// The text of a middlebox: its tokens with one space between two of them, and an LF at the end. No spelling of it has
/// fewer tokens, and it has as many bytes as `text_length` counts. Where the middlebox and the open brackets of the text
/// keep the sizes of sources, it is a source of this middlebox.
pub fn print(alloc: Global, m: &Middlebox) -> Result<Text, NoMemory>
    requires good { IsTrue (is_good (tree m.now)) }
    requires names { HasNames (tree m.now) }
    ensures text { IfOk result (λ text. text ≡ text_of (print_tokens (named (tree m.now)))) }
    ensures length { IfOk result (λ text. length text ≡ text_length (tree m.now)) }
    ensures tokens { IfOk result (λ text. HasExactly text (print_tokens (named (tree m.now)))) }
    ensures spells { IsSpelled (print_tokens (named (tree m.now))) (tree m.now) }
    ensures source { IsWithinSizes (tree m.now) → IfOk result (λ text. IsSource text (tree m.now)) }
    ensures shortest { (others : List Token) → IsSpelled others (tree m.now)
        → length (print_tokens (named (tree m.now))) ≤ length others }
{
    written(alloc, m)
}
