//! How much a middlebox holds, and how often it may write in a run.
ghost use Rattle.std.specs.Prelude.{◌≡◌, ◌-◌, ◌^◌, min};
ghost use Rattle.element_lang.specs.View.{stmt_tree, body_tree, tree};
ghost use Rattle.element_lang.specs.Sizes as sizes;
ghost use Rattle.element_lang.specs.Sizes.{entries_of, writes_of, writes_in};

use element_lang::{Middlebox, Stmt};
use state_store::{Kind, ObjectDecl};

// The rows of a table, the capacity of a map, the length of a vector, and nothing for an integer.
fn entries_of(object: &ObjectDecl) -> u64
    ensures { result ≡ entries_of object.now.kind object.now }
{
    match object.kind {
        Kind::Table => object.rows.len() as u64,
        Kind::Map | Kind::Vector => u64::from(object.size),
        Kind::Int => 0,
    }
}

/// The rows of its tables, capacities of its maps and lengths of its vectors together, or 2^64 - 1 where they are more.
pub fn entries(m: &Middlebox) -> u64
    ensures { result ≡ min (sizes.entries (tree m.now)) (2 ^ 64 - 1) }
{
    let mut total: u64 = 0;
    for object in m.objects.as_slice() {
        total = total.saturating_add(entries_of(object));
    }
    total
}

// The statements that store or remove a row in a statement, itself among them, those in a repeat counted as often as it
// runs.
#[cycle(writes)]
fn writes_of(source: &Stmt) -> u64
    ensures { result ≡ min (writes_of (stmt_tree source.now)) (2 ^ 64 - 1) }
{
    match source {
        Stmt::Put { .. } | Stmt::Del { .. } => 1,
        Stmt::If { yes, no, .. } => writes_in(yes).saturating_add(writes_in(no)),
        Stmt::Repeat { count, body, .. } => u64::from(*count).saturating_mul(writes_in(body)),
        Stmt::Let { .. }
        | Stmt::Assign { .. }
        | Stmt::SetField { .. }
        | Stmt::Look { .. }
        | Stmt::Send { .. }
        | Stmt::Drop => 0,
    }
}

// The same of several.
#[cycle(writes)]
fn writes_in(source: &[Stmt]) -> u64
    ensures { result ≡ min (writes_in (body_tree source.now)) (2 ^ 64 - 1) }
{
    let mut total: u64 = 0;
    for next in source {
        total = total.saturating_add(writes_of(next));
    }
    total
}

/// The statements that store or remove a row, at any depth, those in a repeat counted as often as it runs, or 2^64 - 1
/// where they are more.
pub fn writes(m: &Middlebox) -> u64
    ensures { result ≡ min (sizes.writes (tree m.now)) (2 ^ 64 - 1) }
{
    writes_in(&m.body)
}
