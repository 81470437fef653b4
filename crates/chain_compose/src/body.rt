//! The statements of elements, where they stand in the whole.
ghost use Rattle.std.specs.Prelude.{◌≡◌, ◌<◌, ◌≤◌, length, OnOk, IfOk};
ghost use Rattle.element_lang.specs.View.{expr_tree, stmt_tree, body_tree};
ghost use Rattle.element_lang.specs.Tree.StmtTree.{choose, repeat};
ghost use Rattle.element_chain.specs.Compose.{tests, body_placed, stmt_placed};
ghost use Rattle.chain_compose.specs.Declares.{DeclaresBelow, AllDeclareBelow};
ghost use Rattle.chain_compose.specs.Parts.{own_tree, spot_of, ends_of, sends_of, numbering, placed, written};
ghost use Rattle.chain_compose.specs.Parts.{placed_behind, written_behind, one_placed, element_written};

use crate::clearing::put_clearing;
use crate::ends::close;
use crate::parts::{Parts, Place};
use crate::plain::next_number;
use crate::terms::test;
use element_chain::{Target, Wire};
use element_lang::{Body, Expr, Stmt};
use gal_bits::{Op, Width};
use gal_io::NoMemory;

impl Parts<'_> {
    /// Puts the statements of an element behind others.
    #[cycle(place)]
    pub fn put_body(
        &self,
        place: Place,
        body: &[Stmt],
        names: &mut Vec<u32>,
        widths: &mut Vec<Width>,
        out: &mut Body,
    ) -> Result<(), NoMemory>
        requires element_in_range { place.element < length self.now.classes.now }
        requires known { AllDeclareBelow (length (own_tree self.now place).locals) (body_tree body.now) }
        ensures { OnOk result (placed names.new.items widths.new.items out.new.items
            ≡ placed_behind out.old.items (body_placed (spot_of self.now place) (sends_of self.now place)
            (body_tree body.now) (numbering names.old.items widths.old.items))) }
    {
        for stmt in body {
            self.put_stmt(place, stmt, names, widths, out)?;
        }
        Ok(())
    }

    #[cycle(place)]
    fn put_stmt(
        &self,
        place: Place,
        stmt: &Stmt,
        names: &mut Vec<u32>,
        widths: &mut Vec<Width>,
        out: &mut Body,
    ) -> Result<(), NoMemory>
        requires element_in_range { place.element < length self.now.classes.now }
        requires known { DeclaresBelow (length (own_tree self.now place).locals) (stmt_tree stmt.now) }
        ensures { OnOk result (placed names.new.items widths.new.items out.new.items
            ≡ placed_behind out.old.items (stmt_placed (spot_of self.now place) (sends_of self.now place)
            (stmt_tree stmt.now) (numbering names.old.items widths.old.items))) }
    {
        match stmt {
            Stmt::Let { local, value } => {
                out.push(self.let_local(place, *local, value, names, widths)?)?;
            }
            Stmt::Assign { local, value } => {
                out.push(self.assign(place, *local, value, names.as_slice())?)?;
            }
            Stmt::SetField { field, value } => {
                out.push(self.set_field(place, *field, value, names.as_slice())?)?;
            }
            Stmt::Look {
                found,
                into,
                object,
                keys,
            } => out.push(self.look(place, *found, into, *object, keys, names, widths)?)?,
            Stmt::Put {
                ok,
                object,
                keys,
                values,
            } => out.push(self.put(place, *ok, *object, keys, values, names, widths)?)?,
            Stmt::Del { was, object, keys } => {
                out.push(self.del(place, *was, *object, keys, names, widths)?)?;
            }
            Stmt::If { cond, yes, no } => {
                out.push(self.choose(place, cond, yes, no, names, widths)?)?;
            }
            Stmt::Repeat { index, count, body } => {
                out.push(self.repeat(place, *index, *count, body, names, widths)?)?;
            }
            Stmt::Send { port } => {
                let port = self.expr(place, names.as_slice(), port)?;
                self.put_sent(place, port, widths, out)?;
            }
            Stmt::Drop => out.push(Stmt::Drop)?,
        }
        Ok(())
    }

    #[cycle(place)]
    fn choose(
        &self,
        place: Place,
        cond: &Expr,
        yes: &[Stmt],
        no: &[Stmt],
        names: &mut Vec<u32>,
        widths: &mut Vec<Width>,
    ) -> Result<Stmt, NoMemory>
        requires element_in_range { place.element < length self.now.classes.now }
        requires yes_known { AllDeclareBelow (length (own_tree self.now place).locals) (body_tree yes.now) }
        requires no_known { AllDeclareBelow (length (own_tree self.now place).locals) (body_tree no.now) }
        ensures { IfOk result (λ made. one_placed (stmt_tree made) names.new.items widths.new.items
            ≡ stmt_placed (spot_of self.now place) (sends_of self.now place)
            (choose (expr_tree cond.now) (body_tree yes.now) (body_tree no.now))
            (numbering names.old.items widths.old.items)) }
    {
        let cond = self.expr(place, names.as_slice(), cond)?;
        let mut first = Vec::new(self.alloc);
        self.put_body(place, yes, names, widths, &mut first)?;
        let mut second = Vec::new(self.alloc);
        self.put_body(place, no, names, widths, &mut second)?;
        Ok(Stmt::If {
            cond,
            yes: first,
            no: second,
        })
    }

    #[cycle(place)]
    fn repeat(
        &self,
        place: Place,
        index: u32,
        count: u8,
        body: &[Stmt],
        names: &mut Vec<u32>,
        widths: &mut Vec<Width>,
    ) -> Result<Stmt, NoMemory>
        requires element_in_range { place.element < length self.now.classes.now }
        requires index_known { index < length (own_tree self.now place).locals }
        requires known { AllDeclareBelow (length (own_tree self.now place).locals) (body_tree body.now) }
        ensures { IfOk result (λ made. one_placed (stmt_tree made) names.new.items widths.new.items
            ≡ stmt_placed (spot_of self.now place) (sends_of self.now place)
            (repeat index count (body_tree body.now)) (numbering names.old.items widths.old.items)) }
    {
        let index = self.declare(place, index, names, widths)?;
        let mut turn = Vec::new(self.alloc);
        self.put_body(place, body, names, widths, &mut turn)?;
        Ok(Stmt::Repeat {
            index,
            count,
            body: turn,
        })
    }

    // Puts what stands for a `send` by this port: where the element has a wire, a local for the port, and tests of it.
    #[cycle(place)]
    fn put_sent(
        &self,
        place: Place,
        port: Expr,
        widths: &mut Vec<Width>,
        out: &mut Body,
    ) -> Result<(), NoMemory>
        requires { place.element < length self.now.classes.now }
        ensures { OnOk result (written widths.new.items out.new.items
            ≡ written_behind out.old.items (sends_of self.now place (expr_tree port) widths.old.items)) }
    {
        let wires = self.routes.of(place.element);
        if wires.is_empty() {
            out.push(Stmt::Drop)?;
            return Ok(());
        }
        let local = next_number(widths)?;
        widths.push(self.byte)?;
        out.push(Stmt::Let { local, value: port })?;
        self.put_tests(place, local, wires, widths, out)?;
        Ok(())
    }

    // Puts a test of a local for each wire, each within the second block of the one before.
    #[cycle(place)]
    fn put_tests(
        &self,
        place: Place,
        local: u32,
        wires: &[Wire],
        widths: &mut Vec<Width>,
        out: &mut Body,
    ) -> Result<(), NoMemory>
        ensures { OnOk result (written widths.new.items out.new.items
            ≡ written_behind out.old.items (tests (ends_of self.now place) local wires.now widths.old.items)) }
    {
        match wires {
            [] => out.push(Stmt::Drop)?,
            [wire, rest @ ..] => {
                let output = Expr::Lit(u64::from(wire.output), self.byte);
                let cond = test(self.alloc, Op::Eq, Expr::Local(local), output)?;
                let mut yes = Vec::new(self.alloc);
                self.put_end(place, wire, widths, &mut yes)?;
                let mut no = Vec::new(self.alloc);
                self.put_tests(place, local, rest, widths, &mut no)?;
                out.push(Stmt::If { cond, yes, no })?;
            }
        }
        Ok(())
    }

    // Puts what stands at the end of a wire.
    #[cycle(place)]
    fn put_end(
        &self,
        place: Place,
        wire: &Wire,
        widths: &mut Vec<Width>,
        out: &mut Body,
    ) -> Result<(), NoMemory>
        ensures { OnOk result (written widths.new.items out.new.items
            ≡ written_behind out.old.items (ends_of self.now place wire.now.to wire.now.input widths.old.items)) }
    {
        match wire.to {
            Target::Out => {
                out.push(Stmt::Send {
                    port: Expr::Lit(u64::from(wire.input), self.byte),
                })?;
            }
            Target::Element(element) if place.levels > 0 => {
                put_clearing(self.alloc, self.cleared, out)?;
                let behind = Place {
                    element,
                    port: Some(wire.input),
                    levels: place.levels - 1,
                };
                self.put_element(behind, widths, out)?;
            }
            Target::Element(_) => out.push(Stmt::Drop)?,
        }
        Ok(())
    }

    // Puts the body of an element that stands behind another one, and a `drop` where it may go on at its end.
    #[cycle(place)]
    fn put_element(
        &self,
        place: Place,
        widths: &mut Vec<Width>,
        out: &mut Body,
    ) -> Result<(), NoMemory>
        ensures { OnOk result (written widths.new.items out.new.items
            ≡ written_behind out.old.items (element_written self.now place widths.old.items)) }
    {
        let element = place.element as usize;
        if element >= self.classes.len() {
            out.push(Stmt::Drop)?;
            return Ok(());
        }
        let class = &self.classes[element];
        let mut names = Vec::new(self.alloc);
        self.put_body(place, &class.body, &mut names, widths, out)?;
        close(&class.body, out)?;
        Ok(())
    }
}
