//! The objects that are looked up on the switch.
ghost use Rattle.std.specs.Prelude.{◌≡◌, ◌≤◌, ◌<◌, ◌&&◌, is_some, length, IfOk};
ghost use Rattle.flat_ir.specs.Program.{program_of, step_at};
ghost use Rattle.split_model.specs.Shown.{looks_at};
ghost use Rattle.split_model.specs.Split.{any_step};
ghost use Rattle.switch_ir.specs.Emitted.{is_looked_up, tables_from};
ghost use Rattle.switch_ir.specs.Emitting.{stage_in};

use crate::code::{Table, Tables};
use crate::steps::Role;
use flat_ir::Flat;
use gal_io::{CopyIn, NoMemory};
use split_model::Split;
use std::alloc::Global;

// Whether a pass looks the object up.
fn is_seen_by(f: &Flat, s: &Split, role: Role, object: u32) -> bool
    ensures { result
        ≡ any_step (program_of f.now) (λ i.
        is_some (stage_in role s.now i) && looks_at object (step_at (program_of f.now) i).work) }
{
    for i in 0..f.code.len() {
        if role.stage(s, i).is_some() && f.code.as_slice()[i].kind.looks_at(object) {
            return true;
        }
    }
    false
}

// Whether one of the passes looks the object up.
fn is_looked_up(f: &Flat, s: &Split, object: u32) -> bool
    ensures { result ≡ is_looked_up (program_of f.now) s.now object }
{
    is_seen_by(f, s, Role::Pre, object) || is_seen_by(f, s, Role::Post, object)
}

/// The objects that a pass looks up, in order of declaration.
pub(crate) fn looked_up(alloc: Global, f: &Flat, s: &Split) -> Result<Tables, NoMemory>
    requires { length f.now.objects ≤ 64 }
    ensures { IfOk result (λ tables. tables ≡ tables_from (program_of f.now) s.now 0 f.now.objects) }
{
    let mut tables = Tables::new(alloc);
    for (number, object) in f.objects.as_slice().iter().enumerate() {
        if is_looked_up(f, s, number as u32) {
            tables.push(Table {
                number: number as u32,
                object: object.copy(alloc)?,
            })?;
        }
    }
    Ok(tables)
}
