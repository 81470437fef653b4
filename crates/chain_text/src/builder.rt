//! The elements and wires of statements, one statement after the other.
ghost use Rattle.std.specs.Prelude.{◌≡◌, ◌≤◌, ◌&&◌, ◌||◌, ◌==◌, ◌++◌, ◌∷◌, [], ℕ, not, true, List, length};
ghost use Rattle.std.specs.Prelude.{if◌then◌else◌};
ghost use Rattle.std.specs.Prelude.{Option, Some, None, MatchBool, IfOk, IfErr};
ghost use Rattle.std.specs.Bool.{OnTrue};
ghost use Rattle.lexer.specs.Tokens.{span_text};
ghost use Rattle.element_chain.specs.declared.chain.Element.{Element};
ghost use Rattle.element_chain.specs.declared.chain.Wire.{Wire};
ghost use Rattle.chain_text.specs.Grammar as chain;
ghost use Rattle.chain_text.specs.Reads.{is_named, number_of, is_out, target_of, is_refused, most_elements};
ghost use Rattle.chain_text.specs.Statements.{statement_of};
ghost use Rattle.chain_text.specs.Built.{IsBuilt, is_output};

use crate::statement::Statement;
use element_chain::{Chain, Element, Elements, Target, Wire, Wires};
use gal_io::{Bytes, NoMemory};
use lexer::Span;
use std::alloc::Global;
use std::collections::BTreeSet;

/// The word that stands for the outside.
const OUT: &[u8] = b"out";

/// The elements and wires of the statements so far.
#[derive(Drop)]
pub(crate) struct Builder {
    pub elements: Elements,
    pub wires: Wires,
    /// The outputs that are wired: the number of an element, and the port by which it sends.
    pub outputs: BTreeSet<(u32, u8)>,
}

// The bytes of a span, as far as they lie within the text.
fn word_of(text: &[u8], span: Span) -> &[u8]
    ensures { result.now ≡ span_text text.now span }
{
    let start = span.offset.min(text.len());
    let rest = &text[start..];
    &rest[..span.len.min(rest.len())]
}

fn is_out(name: &[u8]) -> bool
    ensures { result ≡ is_out name.now }
{
    name == OUT
}

// The number of the element of a name.
fn number_of(elements: &[Element], name: &[u8]) -> Option<u32>
    requires { length elements.now ≤ most_elements }
    ensures { result ≡ (if is_named elements.now name.now then Some (number_of elements.now name.now) else None) }
{
    for (number, element) in elements.iter().enumerate() {
        if element.name.as_slice() == name {
            return Some(number as u32);
        }
    }
    None
}

// Where a wire to a name leads.
fn target_of(elements: &[Element], name: &[u8]) -> Option<Target>
    requires { length elements.now ≤ most_elements }
    ensures { result
        ≡ (if is_out name.now || is_named elements.now name.now then Some (target_of elements.now name.now) else None) }
{
    if is_out(name) {
        return Some(Target::Out);
    }
    Some(Target::Element(number_of(elements, name)?))
}

impl Builder {
    /// Nothing yet.
    pub fn new(alloc: Global) -> Builder
        ensures { IsBuilt [] result }
    {
        Builder {
            elements: Elements::new(alloc),
            wires: Wires::new(alloc),
            outputs: BTreeSet::new(alloc),
        }
    }

    // Declares an element, and answers whether its name was free.
    fn declare(&mut self, alloc: Global, name: &[u8], class: &[u8]) -> Result<bool, NoMemory>
        requires { length self.old.elements ≤ most_elements }
        ensures taken { IfOk result (λ taken. taken ≡ not (is_out name.now || is_named self.old.elements name.now)) }
        ensures elements { IfOk result (λ taken. OnTrue taken
            (self.new.elements ≡ self.old.elements ++ record { name = name.now; class = class.now } ∷ [])) }
        ensures wires { self.new.wires ≡ self.old.wires }
        ensures outputs { self.new.outputs ≡ self.old.outputs }
    {
        if is_out(name) || number_of(self.elements.as_slice(), name).is_some() {
            return Ok(false);
        }
        self.elements.push(Element {
            name: Bytes::from_slice(alloc, name)?,
            class: Bytes::from_slice(alloc, class)?,
        })?;
        Ok(true)
    }

    // Wires an output, and answers whether the names are known and the output was free.
    fn wire(&mut self, from: &[u8], output: u8, input: u8, to: &[u8]) -> Result<bool, NoMemory>
        requires { length self.old.elements ≤ most_elements }
        ensures taken { IfOk result (λ taken. taken
            ≡ (is_named self.old.elements from.now && (is_out to.now || is_named self.old.elements to.now)
            && not (is_output self.old.outputs (number_of self.old.elements from.now) output))) }
        ensures elements { self.new.elements ≡ self.old.elements }
        ensures wires { IfOk result (λ taken. OnTrue taken (self.new.wires ≡ self.old.wires ++ record {
          from = number_of self.old.elements from.now;
          output = output;
          input = input;
          to = target_of self.old.elements to.now;
        } ∷ [])) }
        ensures outputs { IfOk result (λ taken. OnTrue taken ((e o : ℕ) → is_output self.new.outputs e o
            ≡ (number_of self.old.elements from.now == e && output == o || is_output self.old.outputs e o))) }
    {
        let Some(from) = number_of(self.elements.as_slice(), from) else {
            return Ok(false);
        };
        let Some(to) = target_of(self.elements.as_slice(), to) else {
            return Ok(false);
        };
        if !self.outputs.insert((from, output))? {
            return Ok(false);
        }
        self.wires.push(Wire {
            from,
            output,
            input,
            to,
        })?;
        Ok(true)
    }

    /// Takes one statement more, and answers whether it is taken.
    pub fn take(
        &mut self,
        alloc: Global,
        text: &[u8],
        statement: Statement,
    ) -> Result<bool, NoMemory>
        requires { length self.old.elements ≤ most_elements }
        ensures { (before : List chain.Statement) → IsBuilt before self.old → IfOk result (λ taken. MatchBool taken
            (IsBuilt (before ++ statement_of text.now statement ∷ []) self.new)
            (is_refused before (statement_of text.now statement) ≡ true)) }
    {
        match statement {
            Statement::Declares { element, class } => {
                self.declare(alloc, word_of(text, element), word_of(text, class))
            }
            Statement::Wires {
                from,
                output,
                input,
                to,
            } => self.wire(word_of(text, from), output, input, word_of(text, to)),
        }
    }

    /// The chain of the statements.
    pub fn finish(self) -> Chain
        ensures elements { result.elements ≡ self.elements }
        ensures wires { result.wires ≡ self.wires }
    {
        let Builder {
            elements,
            wires,
            outputs: _,
        } = self;
        Chain { elements, wires }
    }
}
