//! The grammar of sources: from tokens to a surface tree, in which objects and locals go by their names.
#![tactic(auto)]

mod cursor;
mod declarations;
mod error;
mod expressions;
mod parser;
mod statements;
mod surface;

pub use error::ParseError;
pub use parser::parse;
pub use surface::{At, Literal, SurfaceDecl, SurfaceExpr, SurfaceRow, SurfaceStmt, SurfaceTree};
