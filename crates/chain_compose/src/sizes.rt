//! The sizes of the whole, told from its elements alone, and whether they are those of a source. A size stops at the
//! greatest that 64 bits can hold.
ghost use Rattle.std.specs.Prelude.{◌≡◌, ◌<◌, ◌≤◌, ◌+◌, ◌*◌, ◌⊎◌, length, IfOk, IfErr};
ghost use Rattle.element_lang.specs.Sizes.{writes};
ghost use Rattle.element_print.specs.Lengths.{capped, frame_length, text_length};
ghost use Rattle.element_chain.specs.Compose.{composed};
ghost use Rattle.element_chain.specs.Wiring.{AreWithin};
ghost use Rattle.chain_compose.specs.Counts.{used_in};
ghost use Rattle.chain_compose.specs.Named.{more_digits};
ghost use Rattle.chain_compose.specs.Parts.{chain_of};
ghost use Rattle.chain_compose.specs.Refusals as refusals;
ghost use Rattle.chain_compose.specs.Refusals.{KeepsSizes, IsLargeRefusal, statements_in, most_statements, amount};

use crate::error::{ComposeError, What};
use crate::gauge::Gauge;
use crate::objects::{all_decls_length, all_entries, object_count};
use crate::parts::Parts;
use element_lang::{MAX_DEPTH, MAX_ENTRIES, MAX_OBJECTS, MAX_WRITES};
use element_print::frame_length;
use gal_io::NoMemory;

/// The most bytes of a source.
const MAX_BYTES: u64 = 262_144;

/// The most statements of a composed middlebox, those within others counted.
const MAX_STATEMENTS: u64 = 65_536;

/// The most digits of a number of 64 bits behind its first one.
const MORE_DIGITS: u64 = 19;

// How much of it a source may have.
fn allowed(what: What) -> u64
    ensures { result ≡ refusals.allowed what }
{
    match what {
        What::Objects => MAX_OBJECTS as u64,
        What::Entries => MAX_ENTRIES,
        What::Writes => MAX_WRITES,
        What::Depth => MAX_DEPTH as u64,
        What::Bytes => MAX_BYTES,
    }
}

// The bytes of declarations, of the tokens of statements without the names of locals, of `v` and a digit for each such
// name, and of its further digits, and those around the statements.
fn all_bytes(decls: u64, tokens: u64, names: u64, digits: u64) -> u64
    ensures { result ≡ capped (decls + frame_length + tokens + 2 * names + digits) }
{
    decls
        .saturating_add(frame_length())
        .saturating_add(tokens)
        .saturating_add(names.saturating_mul(2))
        .saturating_add(digits)
}

impl Parts<'_> {
    // The digits of the numbers in the names of locals, but for the first of each: one more from each power of ten on.
    fn more_digits(&self) -> Result<u64, NoMemory>
        requires few_classes { length self.now.classes.now ≤ 32 }
        requires nonempty { 0 < length self.now.classes.now }
        requires within { AreWithin (length self.now.classes.now) self.now.chain.now.wires }
        ensures { IfOk result (λ n. n ≡ capped (more_digits 19 (used_in (composed (chain_of self.now)).body))) }
    {
        let locals = self.levels(Gauge::Locals)?;
        let uses = self.levels(Gauge::Uses)?;
        let mut digits: u64 = 0;
        let mut least: u64 = 10;
        for _ in 0..MORE_DIGITS {
            digits = digits.saturating_add(self.uses_from(least, &locals, &uses)?);
            least = least.saturating_mul(10);
        }
        Ok(digits)
    }

    // The bytes of the text that is printed of the whole. A local is called `v` and its number, in decimal.
    fn bytes(&self) -> Result<u64, NoMemory>
        requires few_classes { length self.now.classes.now ≤ 32 }
        requires nonempty { 0 < length self.now.classes.now }
        requires within { AreWithin (length self.now.classes.now) self.now.chain.now.wires }
        ensures { IfOk result (λ n. n ≡ capped (text_length (composed (chain_of self.now)))) }
    {
        let tokens = self.count(Gauge::Bytes)?;
        let names = self.count(Gauge::Uses)?;
        let digits = self.more_digits()?;
        let decls = all_decls_length(self.classes);
        Ok(all_bytes(decls, tokens, names, digits))
    }

    // The statements of the whole.
    #[tactic(auto, using(crate::proofs::Gauges::all_statements))]
    fn statements(&self) -> Result<u64, NoMemory>
        requires few_classes { length self.now.classes.now ≤ 32 }
        requires nonempty { 0 < length self.now.classes.now }
        requires within { AreWithin (length self.now.classes.now) self.now.chain.now.wires }
        ensures { IfOk result (λ n. n ≡ capped (statements_in (composed (chain_of self.now)).body)) }
    {
        let statements = self.count(Gauge::Statements)?;
        Ok(statements)
    }

    // Statements that store or remove a row.
    #[tactic(auto, using(crate::proofs::Gauges::all_writes))]
    fn writes(&self) -> Result<u64, NoMemory>
        requires few_classes { length self.now.classes.now ≤ 32 }
        requires nonempty { 0 < length self.now.classes.now }
        requires within { AreWithin (length self.now.classes.now) self.now.chain.now.wires }
        ensures { IfOk result (λ n. n ≡ capped (writes (composed (chain_of self.now)))) }
    {
        let writes = self.count(Gauge::Writes)?;
        Ok(writes)
    }

    // How much of it the whole has.
    fn amount(&self, what: What) -> Result<u64, NoMemory>
        requires few_classes { length self.now.classes.now ≤ 32 }
        requires nonempty { 0 < length self.now.classes.now }
        requires within { AreWithin (length self.now.classes.now) self.now.chain.now.wires }
        ensures { IfOk result (λ n. n ≡ capped (amount what (composed (chain_of self.now)))) }
    {
        match what {
            What::Objects => Ok(object_count(self.classes)),
            What::Entries => Ok(all_entries(self.classes)),
            What::Writes => self.writes(),
            What::Depth => self.depth(),
            What::Bytes => self.bytes(),
        }
    }

    // Refuses the whole where it has too much of it.
    fn refuse(&self, what: What) -> Result<(), ComposeError>
        requires few_classes { length self.now.classes.now ≤ 32 }
        requires nonempty { 0 < length self.now.classes.now }
        requires within { AreWithin (length self.now.classes.now) self.now.chain.now.wires }
        ensures ok { IfOk result (λ _. amount what (composed (chain_of self.now)) ≤ refusals.allowed what) }
        ensures err { IfErr result (λ e. (e ≡ ComposeError.NoMemory) ⊎ ((refusals.allowed what
            < capped (amount what (composed (chain_of self.now)))) × (e ≡ ComposeError.TooLarge what
            (capped (amount what (composed (chain_of self.now)))) (refusals.allowed what)))) }
    {
        let have = self.amount(what)?;
        let allowed = allowed(what);
        if have > allowed {
            return Err(ComposeError::TooLarge {
                what,
                have,
                allowed,
            });
        }
        Ok(())
    }

    // Refuses the whole where it doesn't keep the sizes of sources.
    fn refuse_sizes(&self) -> Result<(), ComposeError>
        requires few_classes { length self.now.classes.now ≤ 32 }
        requires nonempty { 0 < length self.now.classes.now }
        requires within { AreWithin (length self.now.classes.now) self.now.chain.now.wires }
        ensures ok { IfOk result (λ _. KeepsSizes (composed (chain_of self.now))) }
        ensures err { IfErr result (refusals.IsSizeRefusal (composed (chain_of self.now))) }
    {
        self.refuse(What::Objects)?;
        self.refuse(What::Entries)?;
        self.refuse(What::Writes)?;
        self.refuse(What::Depth)?;
        self.refuse(What::Bytes)
    }

    /// Refuses the whole where it has too many statements, or doesn't keep the sizes of sources.
    pub fn refuse_large(&self) -> Result<(), ComposeError>
        requires few_classes { length self.now.classes.now ≤ 32 }
        requires nonempty { 0 < length self.now.classes.now }
        requires within { AreWithin (length self.now.classes.now) self.now.chain.now.wires }
        ensures bounded { IfOk result (λ _. statements_in (composed (chain_of self.now)).body ≤ most_statements) }
        ensures sizes { IfOk result (λ _. KeepsSizes (composed (chain_of self.now))) }
        ensures err { IfErr result (IsLargeRefusal (composed (chain_of self.now))) }
    {
        let statements = self.statements()?;
        if statements > MAX_STATEMENTS {
            return Err(ComposeError::Statements);
        }
        match self.refuse_sizes() {
            Ok(()) => Ok(()),
            Err(error) => Err(error),
        }
    }
}
