//! The instructions of statements.
ghost use Rattle.std.specs.Prelude.{◌≡◌, ◌≤◌, ◌∷◌, length, IfOk, IfErr, OnOk};
ghost use Rattle.element_lang.specs.View.{expr_tree, expr_trees, stmt_tree, body_tree};
ghost use Rattle.element_lang.specs.Tree.StmtTree.{let_local, set_field, look, put, del, send};
ghost use Rattle.element_lang.specs.Rules.{is_empty};
ghost use Rattle.flatten.specs.Flatten as pure;
ghost use Rattle.flatten.specs.Sized.{IsSizedExpr, AreSizedExprs, IsSizedStmt, IsSizedBody};
ghost use Rattle.flatten.specs.Over.{IsOver};
ghost use Rattle.flatten.specs.Pending.{placed, valued, first_at, rest_at};
ghost use Rattle.flatten.specs.Journal.{before};
ghost use Rattle.flatten.specs.Tracked.{started};

use crate::error::FlatError;
use crate::frame::Frame;
use crate::journal::{Journal, Tracked};
use crate::output::Output;
use crate::place::Place;
use crate::state::{NOUGHT, NOUGHT_PORT, ONE};
use crate::stretch::Stretch;
use element_lang::{Expr, Stmt};
use flat_ir::{InstrKind, ValueId};
use gal_bits::Width;
use gal_io::NoMemory;
use packet_fields::Field;
use std::alloc::{AllocError, Global};

// Binds locals to the results of a look: the first to whether the key is there, and the others to its values.
fn bind_results(look: u32, found: u32, into: &[u32], w: &mut Tracked) -> Result<(), AllocError>
    requires { length into.now ≤ 8 }
    ensures state { OnOk result (w.new.state ≡ pure.bound_to look 0 (found ∷ into.now) w.old.state) }
    ensures start { OnOk result (started w.new ≡ started w.old) }
{
    let mut id = ValueId {
        instruction: look,
        result: 0,
    };
    w.bind(found, id)?;
    for x in into {
        id.result += 1;
        w.bind(*x, id)?;
    }
    Ok(())
}

impl Output {
    // An assignment of a local, or the first one.
    fn bind(
        &mut self,
        alloc: Global,
        frame: &Frame,
        place: Place,
        local: u32,
        value: &Expr,
        w: &mut Tracked,
    ) -> Result<(), NoMemory>
        requires { IsSizedExpr frame.now.locals.items (expr_tree value.now) }
        ensures told { OnOk result (placed self.new w.new.state
            ≡ pure.flat_stmt frame.now.locals.items (let_local local (expr_tree value.now)) place self.old w.old.state) }
        ensures start { OnOk result (started w.new ≡ started w.old) }
    {
        let id = self.value(alloc, frame, place, &w.state, value)?;
        w.bind(local, id)?;
        Ok(())
    }

    // An assignment of a field.
    fn set_field(
        &mut self,
        alloc: Global,
        frame: &Frame,
        place: Place,
        field: Field,
        value: &Expr,
        w: &mut Tracked,
    ) -> Result<(), NoMemory>
        requires { IsSizedExpr frame.now.locals.items (expr_tree value.now) }
        ensures told { OnOk result (placed self.new w.new.state
            ≡ pure.flat_stmt frame.now.locals.items (set_field field (expr_tree value.now)) place self.old w.old.state) }
        ensures start { OnOk result (started w.new ≡ started w.old) }
    {
        let id = self.value(alloc, frame, place, &w.state, value)?;
        w.state.assign(field, id);
        Ok(())
    }

    // A send: the packet leaves by a port, and the run ends.
    fn send(
        &mut self,
        alloc: Global,
        frame: &Frame,
        place: Place,
        port: &Expr,
        w: &mut Tracked,
    ) -> Result<(), NoMemory>
        requires { IsSizedExpr frame.now.locals.items (expr_tree port.now) }
        ensures told { OnOk result (placed self.new w.new.state
            ≡ pure.flat_stmt frame.now.locals.items (send (expr_tree port.now)) place self.old w.old.state) }
        ensures start { OnOk result (started w.new ≡ started w.old) }
    {
        let id = self.value(alloc, frame, place, &w.state, port)?;
        w.state.finish(ONE, id);
        Ok(())
    }

    // A look, which binds whether the key is there, and its values.
    fn look(
        &mut self,
        alloc: Global,
        frame: &Frame,
        place: Place,
        found: u32,
        into: &[u32],
        object: u32,
        keys: &[Expr],
        w: &mut Tracked,
    ) -> Result<(), NoMemory>
        requires keys { AreSizedExprs frame.now.locals.items (expr_trees keys.now) }
        requires few_names { length into.now ≤ 8 }
        ensures told { OnOk result (placed self.new w.new.state
            ≡ pure.flat_stmt frame.now.locals.items (look found into.now object (expr_trees keys.now)) place self.old
            w.old.state) }
        ensures start { OnOk result (started w.new ≡ started w.old) }
    {
        let keys = self.values(alloc, frame, place, &w.state, keys)?;
        let id = self.give(place, InstrKind::Look { object, keys })?;
        bind_results(id.instruction, found, into, w)?;
        Ok(())
    }

    // A put, which binds whether the row was stored.
    fn put(
        &mut self,
        alloc: Global,
        frame: &Frame,
        place: Place,
        ok: u32,
        object: u32,
        keys: &[Expr],
        values: &[Expr],
        w: &mut Tracked,
    ) -> Result<(), NoMemory>
        requires keys { AreSizedExprs frame.now.locals.items (expr_trees keys.now) }
        requires values { AreSizedExprs frame.now.locals.items (expr_trees values.now) }
        ensures told { OnOk result (placed self.new w.new.state
            ≡ pure.flat_stmt frame.now.locals.items (put ok object (expr_trees keys.now) (expr_trees values.now)) place
            self.old w.old.state) }
        ensures start { OnOk result (started w.new ≡ started w.old) }
    {
        let keys = self.values(alloc, frame, place, &w.state, keys)?;
        let values = self.values(alloc, frame, place, &w.state, values)?;
        let kind = InstrKind::Put {
            object,
            keys,
            values,
        };
        let id = self.give(place, kind)?;
        w.bind(ok, id)?;
        Ok(())
    }

    // A del, which binds whether the key was there.
    fn del(
        &mut self,
        alloc: Global,
        frame: &Frame,
        place: Place,
        was: u32,
        object: u32,
        keys: &[Expr],
        w: &mut Tracked,
    ) -> Result<(), NoMemory>
        requires { AreSizedExprs frame.now.locals.items (expr_trees keys.now) }
        ensures told { OnOk result (placed self.new w.new.state
            ≡ pure.flat_stmt frame.now.locals.items (del was object (expr_trees keys.now)) place self.old w.old.state) }
        ensures start { OnOk result (started w.new ≡ started w.old) }
    {
        let keys = self.values(alloc, frame, place, &w.state, keys)?;
        let id = self.give(place, InstrKind::Del { object, keys })?;
        w.bind(was, id)?;
        Ok(())
    }

    // The instructions of a statement; the state becomes that behind it.
    #[cycle(flatten)]
    #[tactic(auto, using(crate::proofs::Growth::over_stmt))]
    fn stmt(
        &mut self,
        alloc: Global,
        frame: &Frame,
        place: Place,
        s: &Stmt,
        w: &mut Tracked,
    ) -> Result<(), FlatError>
        requires fields { frame.now.fields.items ≡ pure.field_widths }
        requires wide { length w.old.state.locals ≡ length frame.now.locals.items }
        requires sized { IsSizedStmt frame.now.locals.items (stmt_tree s.now) }
        ensures ok { OnOk result (placed self.new w.new.state
            ≡ pure.flat_stmt frame.now.locals.items (stmt_tree s.now) place self.old w.old.state) }
        ensures start { OnOk result (started w.new ≡ started w.old) }
        ensures large { IfErr result
            (λ error. IsOver (pure.flat_stmt frame.now.locals.items (stmt_tree s.now) place self.old w.old.state).given
            error) }
    {
        self.keeps_size()?;
        match s {
            Stmt::Let { local, value } | Stmt::Assign { local, value } => self.bind(
                alloc, frame, place, *local, value, w,
            )?,
            Stmt::SetField { field, value } => self.set_field(
                alloc, frame, place, *field, value, w,
            )?,
            Stmt::Look {
                found,
                into,
                object,
                keys,
            } => self.look(alloc, frame, place, *found, into, *object, keys, w)?,
            Stmt::Put {
                ok,
                object,
                keys,
                values,
            } => self.put(alloc, frame, place, *ok, *object, keys, values, w)?,
            Stmt::Del { was, object, keys } => self.del(
                alloc, frame, place, *was, *object, keys, w,
            )?,
            Stmt::If { cond, yes, no } => {
                let v = self.value(alloc, frame, place, &w.state, cond)?;
                let outer = self.first(alloc, frame, place, v, yes, w)?;
                self.rest(alloc, frame, place, v, no, outer, w)?;
            }
            Stmt::Repeat { index, count, body } => {
                let place = Place {
                    block: place.block,
                    looped: true,
                };
                self.turns(alloc, frame, place, *index, *count, body, w)?;
            }
            Stmt::Send { port } => self.send(alloc, frame, place, port, w)?,
            Stmt::Drop => w.state.finish(NOUGHT, NOUGHT_PORT),
        }
        Ok(())
    }

    // The first side of an `if`, in a block of its own. The journal begins anew, and the one so far is answered.
    #[cycle(flatten)]
    fn first(
        &mut self,
        alloc: Global,
        frame: &Frame,
        place: Place,
        cond: ValueId,
        yes: &[Stmt],
        w: &mut Tracked,
    ) -> Result<Journal, FlatError>
        requires fields { frame.now.fields.items ≡ pure.field_widths }
        requires wide { length w.old.state.locals ≡ length frame.now.locals.items }
        requires sized { IsSizedBody frame.now.locals.items (body_tree yes.now) }
        ensures ok { OnOk result (placed self.new w.new.state
            ≡ first_at frame.now.locals.items place (body_tree yes.now) (valued self.old cond) w.old.state) }
        ensures start { OnOk result (started w.new ≡ w.old.state) }
        ensures wide { OnOk result (length (started w.new).locals ≡ length frame.now.locals.items) }
        ensures outer { IfOk result (λ outer. outer ≡ w.old.journal) }
        ensures large { IfErr result (λ error. IsOver
            (first_at frame.now.locals.items place (body_tree yes.now) (valued self.old cond) w.old.state).given error) }
    {
        let inner = self.open(place, cond, true)?;
        let outer = w.enter(alloc)?;
        self.body(alloc, frame, inner, yes, w)?;
        Ok(outer)
    }

    // The second side of an `if` behind the first, and what comes of both. The journal that was kept in front goes on.
    #[cycle(flatten)]
    fn rest(
        &mut self,
        alloc: Global,
        frame: &Frame,
        place: Place,
        cond: ValueId,
        no: &[Stmt],
        outer: Journal,
        w: &mut Tracked,
    ) -> Result<(), FlatError>
        requires fields { frame.now.fields.items ≡ pure.field_widths }
        requires wide { length (started w.old).locals ≡ length frame.now.locals.items }
        requires sized { IsSizedBody frame.now.locals.items (body_tree no.now) }
        ensures ok { OnOk result (placed self.new w.new.state ≡ rest_at frame.now.locals.items place (body_tree no.now)
            cond (placed self.old w.old.state) (started w.old)) }
        ensures start { OnOk result (started w.new ≡ before outer (started w.old)) }
        ensures large { IfErr result (λ error. IsOver (rest_at frame.now.locals.items place (body_tree no.now)
            cond (placed self.old w.old.state) (started w.old)).given error) }
    {
        let first = w.flip(alloc)?;
        self.second(alloc, frame, place, cond, no, w)?;
        self.join(alloc, frame, place, cond, first, outer, w)?;
        Ok(())
    }

    // The second side of an `if`, which opens no block where it is empty.
    #[cycle(flatten)]
    #[tactic(auto, using(crate::proofs::Branches::second_told, crate::proofs::Branches::second_none))]
    fn second(
        &mut self,
        alloc: Global,
        frame: &Frame,
        place: Place,
        cond: ValueId,
        no: &[Stmt],
        w: &mut Tracked,
    ) -> Result<(), FlatError>
        requires fields { frame.now.fields.items ≡ pure.field_widths }
        requires wide { length w.old.state.locals ≡ length frame.now.locals.items }
        requires sized { IsSizedBody frame.now.locals.items (body_tree no.now) }
        ensures ok { let second = pure.flat_body frame.now.locals.items (body_tree no.now) in
            OnOk result (placed self.new w.new.state
            ≡ pure.second_side (is_empty (body_tree no.now)) place cond second self.old w.old.state) }
        ensures start { OnOk result (started w.new ≡ started w.old) }
        ensures large { let second = pure.flat_body frame.now.locals.items (body_tree no.now) in
            IfErr result (λ error. IsOver
            (pure.second_side (is_empty (body_tree no.now)) place cond second self.old w.old.state).given error) }
    {
        if no.is_empty() {
            return Ok(());
        }
        let inner = self.open(place, cond, false)?;
        self.body(alloc, frame, inner, no, w)
    }

    // The turns of a `repeat`.
    #[cycle(flatten)]
    fn turns(
        &mut self,
        alloc: Global,
        frame: &Frame,
        place: Place,
        index: u32,
        count: u8,
        body: &[Stmt],
        w: &mut Tracked,
    ) -> Result<(), FlatError>
        requires fields { frame.now.fields.items ≡ pure.field_widths }
        requires wide { length w.old.state.locals ≡ length frame.now.locals.items }
        requires sized { IsSizedBody frame.now.locals.items (body_tree body.now) }
        ensures ok { let widths = frame.now.locals.items in
            OnOk result (placed self.new w.new.state
            ≡ pure.flat_turns widths count 0 index (pure.flat_body widths (body_tree body.now)) place self.old
            w.old.state) }
        ensures start { OnOk result (started w.new ≡ started w.old) }
        ensures large { let widths = frame.now.locals.items in
            IfErr result (λ error. IsOver
            (pure.flat_turns widths count 0 index (pure.flat_body widths (body_tree body.now)) place self.old
            w.old.state).given error) }
    {
        let mut stretch = Stretch::new(alloc, place);
        for turn in 0..count {
            let goes = self.goes_on(alloc, &mut stretch, w)?;
            if !goes {
                self.close(alloc, frame, stretch, w)?;
                return Ok(());
            }
            self.turn(alloc, frame, stretch.place, index, turn, body, w)?;
        }
        self.close(alloc, frame, stretch, w)?;
        Ok(())
    }

    // One turn, whose number the local `index` has. What is declared in it is out of scope behind it.
    #[cycle(flatten)]
    fn turn(
        &mut self,
        alloc: Global,
        frame: &Frame,
        place: Place,
        index: u32,
        turn: u8,
        body: &[Stmt],
        w: &mut Tracked,
    ) -> Result<(), FlatError>
        requires fields { frame.now.fields.items ≡ pure.field_widths }
        requires wide { length w.old.state.locals ≡ length frame.now.locals.items }
        requires sized { IsSizedBody frame.now.locals.items (body_tree body.now) }
        ensures ok { OnOk result (placed self.new w.new.state
            ≡ pure.flat_turn turn index (pure.flat_body frame.now.locals.items (body_tree body.now)) place self.old
            w.old.state) }
        ensures start { OnOk result (started w.new ≡ started w.old) }
        ensures large { IfErr result
            (λ error. IsOver (pure.flat_turn turn index (pure.flat_body frame.now.locals.items (body_tree body.now))
            place self.old w.old.state).given error) }
    {
        let number = InstrKind::Const(Width::new(32).unwrap(), u64::from(turn));
        let id = self.give(place, number)?;
        let outer = w.enter(alloc)?;
        w.bind(index, id)?;
        self.body(alloc, frame, place, body, w)?;
        w.leave(alloc, outer)?;
        Ok(())
    }

    /// The instructions of statements, one after the other; the state becomes that behind them.
    #[cycle(flatten)]
    pub fn body(
        &mut self,
        alloc: Global,
        frame: &Frame,
        place: Place,
        body: &[Stmt],
        w: &mut Tracked,
    ) -> Result<(), FlatError>
        requires fields { frame.now.fields.items ≡ pure.field_widths }
        requires wide { length w.old.state.locals ≡ length frame.now.locals.items }
        requires sized { IsSizedBody frame.now.locals.items (body_tree body.now) }
        ensures ok { OnOk result (placed self.new w.new.state
            ≡ pure.flat_body frame.now.locals.items (body_tree body.now) place self.old w.old.state) }
        ensures start { OnOk result (started w.new ≡ started w.old) }
        ensures large { IfErr result (λ error.
            IsOver (pure.flat_body frame.now.locals.items (body_tree body.now) place self.old w.old.state).given error) }
    {
        let mut stretch = Stretch::new(alloc, place);
        for s in body {
            let goes = self.goes_on(alloc, &mut stretch, w)?;
            if !goes {
                self.close(alloc, frame, stretch, w)?;
                return Ok(());
            }
            self.stmt(alloc, frame, stretch.place, s, w)?;
        }
        self.close(alloc, frame, stretch, w)?;
        Ok(())
    }
}
