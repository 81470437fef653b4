//! The counts of a report.
ghost use Rattle.std.specs.Prelude.{◌≡◌, ◌↔◌, ◌<◌, ◌^◌, count_by, length, IsTrue};
ghost use Rattle.run_model.specs.Fate.{is_decided, is_released};
ghost use Rattle.run_audit.specs.Counts.{CountsAgree};

use packet_fields::Packets;
use run_model::{Fate, Run};

fn decided_count(fates: &[Fate]) -> usize
    ensures { result ≡ count_by is_decided fates.now }
{
    fates.iter().filter(|fate| fate.is_decided()).count()
}

fn released_count(fates: &[Fate]) -> usize
    ensures { result ≡ count_by is_released fates.now }
{
    fates.iter().filter(|fate| fate.is_released()).count()
}

/// Whether the counts of a report are those of the trace and of the fates that it tells.
pub(crate) fn counts_agree(packets: &Packets, run: &Run) -> bool
    ensures agree { IsTrue result ↔ CountsAgree packets.now run.now }
    ensures bounded { IsTrue result → length run.now.fates < 2 ^ 32 }
{
    let fates = run.fates.as_slice();
    run.total as usize == packets.len()
        && fates.len() <= packets.len()
        && run.decided as usize == decided_count(fates)
        && run.released as usize == released_count(fates)
}
