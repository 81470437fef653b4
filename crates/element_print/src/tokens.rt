//! A text that grows token by token.
ghost use Rattle.std.specs.Prelude.{◌≡◌, ◌++◌, ◌∷◌, [], List, OnOk, IfOk};
ghost use Rattle.element_lang.specs.Token.{Token, fixed, number, name, field};
ghost use Rattle.element_print.specs.Printed.{text_of};
ghost use Rattle.element_print.specs.Spaced.{spaced, mark_if};

use element_lang::Mark;
use gal_io::{NoMemory, Text};
use packet_fields::{Field, field_name};
use std::alloc::Global;
use std::marker::Model;

/// A text of tokens, with a space behind each.
#[derive(Drop)]
pub(crate) struct Tokens {
    alloc: Global,
    bytes: Vec<u8>,
}

impl Model for Tokens {
    ghost use Rattle.std.specs.Prelude.{List, ℕ};

    ghost Value = { List ℕ };

    ghost view = { λ tokens. tokens.bytes.items };
}

impl Tokens {
    /// No tokens, with room for so many bytes.
    pub fn with_capacity(alloc: Global, capacity: u64) -> Result<Tokens, NoMemory>
        ensures { IfOk result (λ made. made ≡ []) }
    {
        let bytes = Vec::with_capacity(alloc, capacity as usize)?;
        Ok(Tokens { alloc, bytes })
    }

    /// Adds a keyword or a symbol.
    #[tactic(auto, using(crate::proofs::Spaces::one))]
    pub fn mark(&mut self, mark: Mark) -> Result<(), NoMemory>
        ensures { OnOk result (self.new ≡ self.old ++ spaced (fixed mark ∷ [])) }
    {
        self.bytes.extend_from_slice(mark.spelling().as_bytes())?;
        self.bytes.push(b' ')?;
        Ok(())
    }

    #[tactic(auto, using(crate::proofs::Spaces::one))]
    pub fn number(&mut self, n: u64) -> Result<(), NoMemory>
        ensures { OnOk result (self.new ≡ self.old ++ spaced (number n ∷ [])) }
    {
        self.bytes
            .extend_from_slice(format!(in self.alloc; "{n}")?.as_bytes())?;
        self.bytes.push(b' ')?;
        Ok(())
    }

    /// Adds a number and its width.
    #[tactic(auto, using(crate::proofs::Spaces::spaces))]
    pub fn literal(&mut self, value: u64, width: u64) -> Result<(), NoMemory>
        ensures { OnOk result (self.new ≡ self.old ++ spaced (number value ∷ fixed Mark.Colon ∷ number width ∷ [])) }
    {
        self.number(value)?;
        self.mark(Mark::Colon)?;
        self.number(width)?;
        Ok(())
    }

    #[tactic(auto, using(crate::proofs::Spaces::one))]
    pub fn name(&mut self, word: &[u8]) -> Result<(), NoMemory>
        ensures { OnOk result (self.new ≡ self.old ++ spaced (name word.now ∷ [])) }
    {
        self.bytes.extend_from_slice(word)?;
        self.bytes.push(b' ')?;
        Ok(())
    }

    #[tactic(auto, using(crate::proofs::Spaces::one))]
    pub fn field(&mut self, f: Field) -> Result<(), NoMemory>
        ensures { OnOk result (self.new ≡ self.old ++ spaced (field f ∷ [])) }
    {
        self.bytes.extend_from_slice(field_name(f).as_bytes())?;
        self.bytes.push(b' ')?;
        Ok(())
    }

    /// Adds a mark where that is asked for.
    #[tactic(auto, using(crate::proofs::Spaces::not_asked))]
    pub fn mark_if(&mut self, asked: bool, mark: Mark) -> Result<(), NoMemory>
        ensures { OnOk result (self.new ≡ self.old ++ spaced (mark_if asked mark)) }
    {
        if asked { self.mark(mark) } else { Ok(()) }
    }

    /// The text with one more mark, and an LF behind it.
    #[tactic(auto, using(crate::proofs::Spaces::ended))]
    pub fn end(self, mark: Mark) -> Result<Text, NoMemory>
        ensures { IfOk result (λ text. (ts : List Token) → self ≡ spaced ts → text ≡ text_of (ts ++ fixed mark ∷ [])) }
    {
        let Tokens { alloc, mut bytes } = self;
        bytes.extend_from_slice(mark.spelling().as_bytes())?;
        bytes.push(b'\n')?;
        Text::from_slice(alloc, &bytes)
    }
}
