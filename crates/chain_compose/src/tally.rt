//! What is counted of the statements of an element. Counts stop at the greatest that 64 bits can hold.
ghost use Rattle.std.specs.Prelude.{◌≡◌};
ghost use Rattle.element_lang.specs.View.{stmt_tree, body_tree};
ghost use Rattle.element_print.specs.Lengths.{capped};
ghost use Rattle.chain_compose.specs.Counts.{placed_stmt_count};
ghost use Rattle.chain_compose.specs.Tallies as tallies;
ghost use Rattle.chain_compose.specs.Tallies.{scale_lengths};

use crate::figures::Scale;
use crate::gauge::Gauge;
use crate::heads::{first_sent, turns, weight};
use element_lang::Stmt;

// A statement, with no more for a `send` than what stands first for it.
#[cycle(bare)]
fn bare_stmt(scale: &Scale<'_>, stmt: &Stmt) -> u64
    ensures { let l = scale_lengths scale.now in
        result ≡ capped (placed_stmt_count scale.now.gauge l (tallies.first_sent scale.now.gauge l scale.now.wired)
        (stmt_tree stmt.now)) }
{
    let own = weight(scale, stmt);
    match stmt {
        Stmt::If { yes, no, .. } => {
            let blocks = bare_count(scale, yes).saturating_add(bare_count(scale, no));
            own.saturating_add(blocks)
        }
        Stmt::Repeat { count, body, .. } => {
            let all = turns(scale.gauge, *count).saturating_mul(bare_count(scale, body));
            own.saturating_add(all)
        }
        Stmt::Send { .. } => first_sent(scale, own),
        Stmt::Let { .. }
        | Stmt::Assign { .. }
        | Stmt::SetField { .. }
        | Stmt::Look { .. }
        | Stmt::Put { .. }
        | Stmt::Del { .. }
        | Stmt::Drop => own,
    }
}

/// Statements, with no more for each `send` than what stands first for it.
#[cycle(bare)]
pub(crate) fn bare_count(scale: &Scale<'_>, body: &[Stmt]) -> u64
    ensures { result ≡ capped (tallies.bare_count scale.now.gauge (scale_lengths scale.now) scale.now.wired
        (body_tree body.now)) }
{
    let mut total: u64 = 0;
    for stmt in body {
        total = total.saturating_add(bare_stmt(scale, stmt));
    }
    total
}

// How often what stands for a `send` counts.
#[cycle(sent)]
fn sent_of(gauge: Gauge, stmt: &Stmt) -> u64
    ensures { result ≡ capped (tallies.sent_of gauge (stmt_tree stmt.now)) }
{
    match stmt {
        Stmt::If { yes, no, .. } => sent_in(gauge, yes).saturating_add(sent_in(gauge, no)),
        Stmt::Repeat { count, body, .. } => {
            turns(gauge, *count).saturating_mul(sent_in(gauge, body))
        }
        Stmt::Send { .. } => 1,
        Stmt::Let { .. }
        | Stmt::Assign { .. }
        | Stmt::SetField { .. }
        | Stmt::Look { .. }
        | Stmt::Put { .. }
        | Stmt::Del { .. }
        | Stmt::Drop => 0,
    }
}

/// The same of statements.
#[cycle(sent)]
pub(crate) fn sent_in(gauge: Gauge, body: &[Stmt]) -> u64
    ensures { result ≡ capped (tallies.sent_in gauge (body_tree body.now)) }
{
    let mut total: u64 = 0;
    for stmt in body {
        total = total.saturating_add(sent_of(gauge, stmt));
    }
    total
}
