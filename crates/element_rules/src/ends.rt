//! The statements behind which a run never goes on.
ghost use Rattle.std.specs.Prelude.{◌≡◌, ◌&&◌, List, ℕ};
ghost use Rattle.element_lang.specs.Broken as broken;
ghost use Rattle.element_grammar.specs.Surface.{surface_stmt, surface_body};

use element_grammar::{At, SurfaceStmt};

/// Whether a run never goes on behind a statement.
#[cycle(ends)]
pub(crate) fn always_ends(source: &SurfaceStmt) -> bool
    ensures { (text : List ℕ) → result ≡ broken.always_ends (surface_stmt text source.now) }
{
    match source {
        SurfaceStmt::If { yes, no, .. } => ends_always(yes) && ends_always(no),
        SurfaceStmt::Send { .. } | SurfaceStmt::Drop => true,
        SurfaceStmt::Let { .. }
        | SurfaceStmt::Assign { .. }
        | SurfaceStmt::SetField { .. }
        | SurfaceStmt::Look { .. }
        | SurfaceStmt::Put { .. }
        | SurfaceStmt::Del { .. }
        | SurfaceStmt::Repeat { .. } => false,
    }
}

/// Whether statements end with one behind which a run never goes on.
#[cycle(ends)]
pub(crate) fn ends_always(source: &[At<SurfaceStmt>]) -> bool
    ensures { (text : List ℕ) → result ≡ broken.ends_always (surface_body text source.now) }
{
    match source {
        [.., last] => always_ends(&last.item),
        [] => false,
    }
}
