//! Whether a run goes on behind statements.
ghost use Rattle.std.specs.Prelude.{◌≡◌, OnOk, if◌then◌else◌};
ghost use Rattle.element_lang.specs.Rules.{always_ends, ends_always};
ghost use Rattle.element_lang.specs.Tree.StmtTree.{drop};
ghost use Rattle.element_lang.specs.View.{stmt_tree, body_tree};
ghost use Rattle.element_chain.specs.Compose.{followed, one};

use element_lang::{Body, Stmt};
use gal_io::NoMemory;

// Whether a run never goes on behind a statement.
#[cycle(ends)]
fn always_ends(stmt: &Stmt) -> bool
    ensures { result ≡ always_ends (stmt_tree stmt.now) }
{
    match stmt {
        Stmt::Send { .. } | Stmt::Drop => true,
        Stmt::If { yes, no, .. } => ends_always(yes) && ends_always(no),
        Stmt::Let { .. }
        | Stmt::Assign { .. }
        | Stmt::SetField { .. }
        | Stmt::Look { .. }
        | Stmt::Put { .. }
        | Stmt::Del { .. }
        | Stmt::Repeat { .. } => false,
    }
}

/// Whether the last statement of a body always ends.
#[cycle(ends)]
pub(crate) fn ends_always(body: &[Stmt]) -> bool
    ensures { result ≡ ends_always (body_tree body.now) }
{
    match body {
        [] => false,
        [stmt] => always_ends(stmt),
        [_, rest @ ..] => ends_always(rest),
    }
}

/// Puts a `drop` behind a body, where it may go on at its end.
#[tactic(auto, using(crate::proofs::Levels::push_drop))]
pub(crate) fn close(body: &[Stmt], out: &mut Body) -> Result<(), NoMemory>
    ensures { OnOk result (body_tree out.new.items ≡ (if ends_always (body_tree body.now) then body_tree out.old.items
        else followed (body_tree out.old.items) (one drop))) }
{
    if !ends_always(body) {
        out.push(Stmt::Drop)?;
    }
    Ok(())
}
