//! Statements that have none within them, where they stand in the whole.
ghost use Rattle.std.specs.Prelude.{◌≡◌, ◌<◌, ◌+◌, ℕ, List, map, length, OnOk, IfOk};
ghost use Rattle.std.specs.List.{All};
ghost use Rattle.element_lang.specs.View.{expr_tree, expr_trees, stmt_tree, tree};
ghost use Rattle.element_lang.specs.Tree.StmtTree.{let_local, assign, set_field, look, put, del};
ghost use Rattle.element_chain.specs.Compose.{renamed, all_renamed, declared, all_declared, numbers, stmt_placed};
ghost use Rattle.element_chain.specs.Compose as compose;
ghost use Rattle.element_print.specs.Lengths.{capped};
ghost use Rattle.chain_compose.specs.Parts.{chain_of, own_tree, spot_of, sends_of, numbering, one_placed};

use crate::expressions::{number_of, place_expr, place_exprs};
use crate::parts::{Parts, Place};
use element_lang::{Expr, Local, Middlebox, Stmt};
use gal_bits::Width;
use gal_io::NoMemory;
use packet_fields::Field;

/// The number of the next local. Where 32 bits have none, there is no memory for it either.
pub(crate) fn next_number(widths: &Vec<Width>) -> Result<u32, NoMemory>
    ensures { IfOk result (λ number. number ≡ length widths.now.items) }
{
    match u32::try_from(widths.len()) {
        Ok(number) => Ok(number),
        Err(_) => Err(NoMemory),
    }
}

/// How many objects the elements before this one have.
pub(crate) fn base_of(classes: &[Middlebox], element: u32) -> u64
    ensures { result ≡ capped (compose.base_of (map tree classes.now) element) }
{
    match classes {
        [class, rest @ ..] if element > 0 => {
            (class.objects.len() as u64).saturating_add(base_of(rest, element - 1))
        }
        _ => 0,
    }
}

impl Parts<'_> {
    // The number in the whole of an object of an element. Where 32 bits have none, there is no memory for it either.
    fn object(&self, place: Place, object: u32) -> Result<u32, NoMemory>
        ensures { IfOk result (λ number. number
            ≡ compose.base_of (chain_of self.now).elements place.element + object) }
    {
        let base = base_of(self.classes, place.element);
        match u32::try_from(base.saturating_add(u64::from(object))) {
            Ok(number) => Ok(number),
            Err(_) => Err(NoMemory),
        }
    }

    // The locals of the element at a place.
    fn locals(&self, place: Place) -> &[Local]
        requires { place.element < length self.now.classes.now }
        ensures { result.now ≡ (own_tree self.now place).locals }
    {
        self.classes[place.element as usize].locals.as_slice()
    }

    /// Gives the next number to a local of an element.
    pub fn declare(
        &self,
        place: Place,
        local: u32,
        names: &mut Vec<u32>,
        widths: &mut Vec<Width>,
    ) -> Result<u32, NoMemory>
        requires element_in_range { place.element < length self.now.classes.now }
        requires known { local < length (own_tree self.now place).locals }
        ensures number { IfOk result (λ number. number ≡ length widths.old.items) }
        ensures declared { OnOk result (numbering names.new.items widths.new.items
            ≡ declared (spot_of self.now place) local (numbering names.old.items widths.old.items)) }
    {
        let number = next_number(widths)?;
        let width = self.locals(place)[local as usize].width;
        names.push(number)?;
        widths.push(width)?;
        Ok(number)
    }

    fn declare_all(
        &self,
        place: Place,
        locals: &[u32],
        names: &mut Vec<u32>,
        widths: &mut Vec<Width>,
    ) -> Result<Vec<u32>, NoMemory>
        requires element_in_range { place.element < length self.now.classes.now }
        requires known { All (λ local. local < length (own_tree self.now place).locals) locals.now }
        ensures numbers { IfOk result (λ found. found.items ≡ numbers (length widths.old.items) locals.now) }
        ensures declared { OnOk result (numbering names.new.items widths.new.items
            ≡ all_declared (spot_of self.now place) locals.now (numbering names.old.items widths.old.items)) }
    {
        let mut found = Vec::new(self.alloc);
        for local in locals {
            found.push(self.declare(place, *local, names, widths)?)?;
        }
        Ok(found)
    }

    /// An expression of an element, whose locals have these numbers so far.
    pub fn expr(&self, place: Place, names: &[u32], expr: &Expr) -> Result<Expr, NoMemory>
        ensures { IfOk result (λ made. expr_tree made ≡ renamed place.port names.now (expr_tree expr.now)) }
    {
        place_expr(self.alloc, place.port, self.byte, names, expr)
    }

    #[tactic(auto, using(crate::proofs::RenamedExprs::read_as))]
    fn exprs(&self, place: Place, names: &[u32], exprs: &[Expr]) -> Result<Vec<Expr>, NoMemory>
        ensures { IfOk result (λ made.
            expr_trees made.items ≡ all_renamed place.port names.now (expr_trees exprs.now)) }
    {
        let made = place_exprs(self.alloc, place.port, self.byte, names, exprs)?;
        Ok(made)
    }

    pub fn let_local(
        &self,
        place: Place,
        local: u32,
        value: &Expr,
        names: &mut Vec<u32>,
        widths: &mut Vec<Width>,
    ) -> Result<Stmt, NoMemory>
        requires element_in_range { place.element < length self.now.classes.now }
        requires known { local < length (own_tree self.now place).locals }
        ensures { IfOk result (λ made. one_placed (stmt_tree made) names.new.items widths.new.items
            ≡ stmt_placed (spot_of self.now place) (sends_of self.now place) (let_local local (expr_tree value.now))
            (numbering names.old.items widths.old.items)) }
    {
        let value = self.expr(place, names.as_slice(), value)?;
        let local = self.declare(place, local, names, widths)?;
        Ok(Stmt::Let { local, value })
    }

    pub fn assign(
        &self,
        place: Place,
        local: u32,
        value: &Expr,
        names: &[u32],
    ) -> Result<Stmt, NoMemory>
        ensures { IfOk result (λ made. (widths : List ℕ) → one_placed (stmt_tree made) names.now widths
            ≡ stmt_placed (spot_of self.now place) (sends_of self.now place) (assign local (expr_tree value.now))
            (numbering names.now widths)) }
    {
        Ok(Stmt::Assign {
            local: number_of(names, local),
            value: self.expr(place, names, value)?,
        })
    }

    pub fn set_field(
        &self,
        place: Place,
        field: Field,
        value: &Expr,
        names: &[u32],
    ) -> Result<Stmt, NoMemory>
        ensures { IfOk result (λ made. (widths : List ℕ) → one_placed (stmt_tree made) names.now widths
            ≡ stmt_placed (spot_of self.now place) (sends_of self.now place) (set_field field (expr_tree value.now))
            (numbering names.now widths)) }
    {
        Ok(Stmt::SetField {
            field,
            value: self.expr(place, names, value)?,
        })
    }

    pub fn look(
        &self,
        place: Place,
        found: u32,
        into: &[u32],
        object: u32,
        keys: &[Expr],
        names: &mut Vec<u32>,
        widths: &mut Vec<Width>,
    ) -> Result<Stmt, NoMemory>
        requires element_in_range { place.element < length self.now.classes.now }
        requires known { found < length (own_tree self.now place).locals }
        requires all_known { All (λ local. local < length (own_tree self.now place).locals) into.now }
        ensures { IfOk result (λ made. one_placed (stmt_tree made) names.new.items widths.new.items
            ≡ stmt_placed (spot_of self.now place) (sends_of self.now place)
            (look found into.now object (expr_trees keys.now)) (numbering names.old.items widths.old.items)) }
    {
        let keys = self.exprs(place, names.as_slice(), keys)?;
        let found = self.declare(place, found, names, widths)?;
        let into = self.declare_all(place, into, names, widths)?;
        Ok(Stmt::Look {
            found,
            into,
            object: self.object(place, object)?,
            keys,
        })
    }

    pub fn put(
        &self,
        place: Place,
        ok: u32,
        object: u32,
        keys: &[Expr],
        values: &[Expr],
        names: &mut Vec<u32>,
        widths: &mut Vec<Width>,
    ) -> Result<Stmt, NoMemory>
        requires element_in_range { place.element < length self.now.classes.now }
        requires known { ok < length (own_tree self.now place).locals }
        ensures { IfOk result (λ made. one_placed (stmt_tree made) names.new.items widths.new.items
            ≡ stmt_placed (spot_of self.now place) (sends_of self.now place)
            (put ok object (expr_trees keys.now) (expr_trees values.now))
            (numbering names.old.items widths.old.items)) }
    {
        let keys = self.exprs(place, names.as_slice(), keys)?;
        let values = self.exprs(place, names.as_slice(), values)?;
        let ok = self.declare(place, ok, names, widths)?;
        Ok(Stmt::Put {
            ok,
            object: self.object(place, object)?,
            keys,
            values,
        })
    }

    pub fn del(
        &self,
        place: Place,
        was: u32,
        object: u32,
        keys: &[Expr],
        names: &mut Vec<u32>,
        widths: &mut Vec<Width>,
    ) -> Result<Stmt, NoMemory>
        requires element_in_range { place.element < length self.now.classes.now }
        requires known { was < length (own_tree self.now place).locals }
        ensures { IfOk result (λ made. one_placed (stmt_tree made) names.new.items widths.new.items
            ≡ stmt_placed (spot_of self.now place) (sends_of self.now place)
            (del was object (expr_trees keys.now)) (numbering names.old.items widths.old.items)) }
    {
        let keys = self.exprs(place, names.as_slice(), keys)?;
        let was = self.declare(place, was, names, widths)?;
        Ok(Stmt::Del {
            was,
            object: self.object(place, object)?,
            keys,
        })
    }
}
