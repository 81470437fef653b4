//! A report that is read back.
ghost use Rattle.std.specs.Prelude.{◌≡◌, ◌⊎◌, IfOk, IfErr, IsTrue};
ghost use Rattle.report_text.specs.Form.{are_declared};
ghost use Rattle.report_text.specs.Lines.{IsRefused, IsReport};
ghost use Rattle.run_model.specs.declared.run.Run.{Run};

use crate::error::RunTextError;
use crate::reading::Reading;
use gal_io::split_line;
use run_model::Run;
use state_store::Objects;
use std::alloc::Global;

/// The run that a report tells, of a middlebox with these objects. Lines that are empty or begin with `#` are skipped,
/// and a line may end with CR and LF. Whether the report is true is not asked.
pub fn read_run(alloc: Global, objects: &Objects, text: &[u8]) -> Result<Run, RunTextError>
    requires { IsTrue (are_declared objects.now) }
    ensures ok { IfOk result (λ run. IsReport objects.now text.now run) }
    ensures only { IfOk result (λ run. (other : Run) → IsReport objects.now text.now other → other ≡ run) }
    ensures err { IfErr result (λ e. (e ≡ RunTextError.NoMemory) ⊎ IsRefused objects.now text.now e) }
{
    let mut reading = Reading::new(alloc);
    let mut number: usize = 0;
    let mut ahead = text;
    while let Some((line, behind)) = split_line(ahead) {
        number += 1;
        ahead = behind;
        let taken = reading.take_line(alloc, objects.as_slice(), line)?;
        if !taken {
            return Err(RunTextError::Line(number));
        }
    }
    match reading.finish() {
        Some(run) => Ok(run),
        None => Err(RunTextError::Line(number + 1)),
    }
}
