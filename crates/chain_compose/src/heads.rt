//! What one statement counts, but for what stands in its blocks. Counts stop at the greatest that 64 bits can hold.
ghost use Rattle.std.specs.Prelude.{◌≡◌, ◌+◌, length};
ghost use Rattle.element_lang.specs.Tree.{ExprTree};
ghost use Rattle.element_lang.specs.Tree.StmtTree.{send};
ghost use Rattle.element_lang.specs.View.{expr_tree, expr_trees, stmt_tree};
ghost use Rattle.element_print.specs.Lengths.{capped};
ghost use Rattle.chain_compose.specs.Counts as counts;
ghost use Rattle.chain_compose.specs.Tallies as tallies;
ghost use Rattle.chain_compose.specs.Tallies.{scale_lengths};

use crate::figures::Scale;
use crate::gauge::Gauge;
use element_lang::{Expr, Stmt};
use element_print::{NameLengths, head_length, literal_length};

// How often an expression names a local.
#[cycle(used)]
fn used_by_expr(expr: &Expr) -> u64
    ensures { result ≡ capped (length (counts.used_by_expr (expr_tree expr.now))) }
{
    match expr {
        Expr::Local(_) => 1,
        Expr::Byte(index) => used_by_expr(index),
        Expr::Shift { arg, .. } => used_by_expr(arg),
        Expr::Apply { args, .. } => used_by_exprs(args),
        Expr::Lit(..) | Expr::Field(_) => 0,
    }
}

#[cycle(used)]
fn used_by_exprs(exprs: &[Expr]) -> u64
    ensures { result ≡ capped (length (counts.used_by_exprs (expr_trees exprs.now))) }
{
    let mut total: u64 = 0;
    for expr in exprs {
        total = total.saturating_add(used_by_expr(expr));
    }
    total
}

// How often a statement names a local.
fn used_by_head(stmt: &Stmt) -> u64
    ensures { result ≡ capped (length (counts.used_by_head (stmt_tree stmt.now))) }
{
    match stmt {
        Stmt::Let { value, .. } | Stmt::Assign { value, .. } => {
            used_by_expr(value).saturating_add(1)
        }
        Stmt::SetField { value, .. } => used_by_expr(value),
        Stmt::Look { into, keys, .. } => (into.len() as u64)
            .saturating_add(used_by_exprs(keys))
            .saturating_add(1),
        Stmt::Put { keys, values, .. } => used_by_exprs(keys)
            .saturating_add(used_by_exprs(values))
            .saturating_add(1),
        Stmt::Del { keys, .. } => used_by_exprs(keys).saturating_add(1),
        Stmt::If { cond, .. } => used_by_expr(cond),
        Stmt::Repeat { .. } => 1,
        Stmt::Send { port } => used_by_expr(port),
        Stmt::Drop => 0,
    }
}

// How many locals it declares.
fn declares_once(stmt: &Stmt) -> u64
    ensures { result ≡ capped (counts.declares_once (stmt_tree stmt.now)) }
{
    match stmt {
        Stmt::Let { .. } | Stmt::Put { .. } | Stmt::Del { .. } | Stmt::Repeat { .. } => 1,
        Stmt::Look { into, .. } => (into.len() as u64).saturating_add(1),
        Stmt::Assign { .. }
        | Stmt::SetField { .. }
        | Stmt::If { .. }
        | Stmt::Send { .. }
        | Stmt::Drop => 0,
    }
}

// Whether it stores or removes a row, as a number.
fn writes_once(stmt: &Stmt) -> u64
    ensures { result ≡ counts.writes_once (stmt_tree stmt.now) }
{
    match stmt {
        Stmt::Put { .. } | Stmt::Del { .. } => 1,
        Stmt::Let { .. }
        | Stmt::Assign { .. }
        | Stmt::SetField { .. }
        | Stmt::Look { .. }
        | Stmt::If { .. }
        | Stmt::Repeat { .. }
        | Stmt::Send { .. }
        | Stmt::Drop => 0,
    }
}

/// What a statement counts, but for what stands in its blocks.
pub(crate) fn weight(scale: &Scale<'_>, stmt: &Stmt) -> u64
    ensures { result ≡ capped (counts.weight scale.now.gauge (scale_lengths scale.now) (stmt_tree stmt.now)) }
{
    match scale.gauge {
        Gauge::Statements => 1,
        Gauge::Writes => writes_once(stmt),
        Gauge::Locals => declares_once(stmt),
        Gauge::Uses => used_by_head(stmt),
        Gauge::Bytes => {
            let names = NameLengths {
                locals: &[],
                objects: scale.objects,
                port: scale.port,
            };
            head_length(&names, stmt)
        }
    }
}

/// How often a body counts that is repeated so often.
pub(crate) fn turns(gauge: Gauge, count: u8) -> u64
    ensures { result ≡ counts.turns gauge count }
{
    match gauge {
        Gauge::Writes => u64::from(count),
        Gauge::Statements | Gauge::Locals | Gauge::Uses | Gauge::Bytes => 1,
    }
}

/// What a `drop` counts.
pub(crate) fn drop_weight(gauge: Gauge) -> u64
    ensures { result ≡ counts.drop_weight gauge }
{
    match gauge {
        Gauge::Statements => 1,
        Gauge::Writes | Gauge::Locals | Gauge::Uses => 0,
        Gauge::Bytes => 7,
    }
}

// How much more than a `send` a local for its port counts.
fn let_excess(gauge: Gauge) -> u64
    ensures { result ≡ tallies.let_excess gauge }
{
    match gauge {
        Gauge::Statements | Gauge::Writes => 0,
        Gauge::Locals | Gauge::Uses => 1,
        Gauge::Bytes => 2,
    }
}

/// What stands first for a `send` that counts so much: a local for its port, where the element has a wire, and else a
/// `drop`.
#[tactic(auto, using(crate::proofs::SentFirst::let_for_send))]
pub(crate) fn first_sent(scale: &Scale<'_>, sent: u64) -> u64
    ensures { (port : ExprTree) → sent ≡ capped (counts.weight scale.now.gauge (scale_lengths scale.now) (send port))
        → result ≡ capped (tallies.first_sent scale.now.gauge (scale_lengths scale.now) scale.now.wired port) }
{
    if scale.wired {
        sent.saturating_add(let_excess(scale.gauge))
    } else {
        drop_weight(scale.gauge)
    }
}

/// What a test counts whether a local is this output, with two blocks.
pub(crate) fn test_weight(gauge: Gauge, output: u8) -> u64
    ensures { result ≡ capped (counts.test_weight gauge output) }
{
    match gauge {
        Gauge::Statements | Gauge::Uses => 1,
        Gauge::Writes | Gauge::Locals => 0,
        Gauge::Bytes => literal_length(u64::from(output), 8).saturating_add(20),
    }
}

/// What a `send` to this port counts.
pub(crate) fn out_weight(gauge: Gauge, port: u8) -> u64
    ensures { result ≡ capped (tallies.out_weight gauge port) }
{
    match gauge {
        Gauge::Statements => 1,
        Gauge::Writes | Gauge::Locals | Gauge::Uses => 0,
        Gauge::Bytes => literal_length(u64::from(port), 8).saturating_add(7),
    }
}
