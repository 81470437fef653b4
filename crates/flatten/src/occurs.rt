//! Which fields occur in a source.
ghost use Rattle.std.specs.Prelude.{◌≡◌, ◌||◌, ℕ, get_or, false};
ghost use Rattle.packet_fields.specs.declared.field.Field.{Field};
ghost use Rattle.packet_fields.specs.Table.{field_index};
ghost use Rattle.element_lang.specs.View.{expr_tree, expr_trees, stmt_tree, body_tree};
ghost use Rattle.flatten.specs.Occurs.{same_field, is_in_expr, is_in_exprs, is_in_stmt, is_in_body};

use element_lang::{Expr, Stmt};
use packet_fields::{FIELD_COUNT, Field, field_index};

/// For each field, in field order, whether it has been seen.
#[derive(Clone, Copy)]
pub(crate) struct Seen {
    marks: [bool; FIELD_COUNT],
}

impl Seen {
    /// The fields when none has been seen.
    pub fn new() -> Seen
        ensures { (f : Field) → get_or result.marks (field_index f) false ≡ false }
    {
        Seen {
            marks: [false; FIELD_COUNT],
        }
    }

    pub fn has(&self, field: Field) -> bool
        ensures { result ≡ get_or self.now.marks (field_index field) false }
    {
        self.marks[field_index(field)]
    }

    fn field(&mut self, field: Field)
        ensures { (f : Field) → get_or self.new.marks (field_index f) false
            ≡ (get_or self.old.marks (field_index f) false || same_field f field) }
    {
        self.marks[field_index(field)] = true;
    }

    // The fields of an expression.
    #[cycle(seen)]
    fn expr(&mut self, e: &Expr)
        ensures { (f : Field) → get_or self.new.marks (field_index f) false
            ≡ (get_or self.old.marks (field_index f) false || is_in_expr f (expr_tree e.now)) }
    {
        match e {
            Expr::Lit(_, _) | Expr::Local(_) => {}
            Expr::Field(field) => self.field(*field),
            Expr::Byte(index) => self.expr(index),
            Expr::Shift { arg, .. } => self.expr(arg),
            Expr::Apply { args, .. } => self.exprs(args),
        }
    }

    #[cycle(seen)]
    fn exprs(&mut self, all: &[Expr])
        ensures { (f : Field) → get_or self.new.marks (field_index f) false
            ≡ (get_or self.old.marks (field_index f) false || is_in_exprs f (expr_trees all.now)) }
    {
        for e in all {
            self.expr(e);
        }
    }

    // The fields of a statement.
    #[cycle(seen_in)]
    fn stmt(&mut self, s: &Stmt)
        ensures { (f : Field) → get_or self.new.marks (field_index f) false
            ≡ (get_or self.old.marks (field_index f) false || is_in_stmt f (stmt_tree s.now)) }
    {
        match s {
            Stmt::Let { value, .. } | Stmt::Assign { value, .. } => self.expr(value),
            Stmt::SetField { field, value } => {
                self.field(*field);
                self.expr(value);
            }
            Stmt::Look { keys, .. } | Stmt::Del { keys, .. } => self.exprs(keys),
            Stmt::Put { keys, values, .. } => {
                self.exprs(keys);
                self.exprs(values);
            }
            Stmt::If { cond, yes, no } => {
                self.expr(cond);
                self.body(yes);
                self.body(no);
            }
            Stmt::Repeat { body, .. } => self.body(body),
            Stmt::Send { port } => self.expr(port),
            Stmt::Drop => {}
        }
    }

    /// Sees the fields of some statements, also of those that are never done.
    #[cycle(seen_in)]
    pub fn body(&mut self, all: &[Stmt])
        ensures { (f : Field) → get_or self.new.marks (field_index f) false
            ≡ (get_or self.old.marks (field_index f) false || is_in_body f (body_tree all.now)) }
    {
        for s in all {
            self.stmt(s);
        }
    }
}
