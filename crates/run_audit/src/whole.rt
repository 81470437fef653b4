//! The whole audit.
ghost use Rattle.std.specs.Prelude.{◌≡◌, ◌≢◌, ◌<◌, ◌^◌, ◌⊎◌, length, IsTrue, IfErr, OnOk, MatchResult};
ghost use Rattle.element_lang.specs.View.{tree};
ghost use Rattle.element_lang.specs.Rules.{is_good};
ghost use Rattle.run_model.specs.Serialises.{Serialises};
ghost use Rattle.run_audit.specs.Source.{source_of};
ghost use Rattle.run_audit.specs.Counts.{CountsAgree};
ghost use Rattle.run_audit.specs.Order.{HaveOwnEvents};
ghost use Rattle.run_audit.specs.Told.{IsTrueReport};
ghost use Rattle.run_audit.specs.Refused.{IsAnswer, IsRefused};

use crate::counts::counts_agree;
use crate::error::AuditError;
use crate::objects::first_unlike;
use crate::order::first_misplaced;
use crate::times::first_late;
use crate::verdicts::run_in_order;
use element_lang::Middlebox;
use packet_fields::Packets;
use run_model::Run;
use state_store::Store;
use std::alloc::Global;

// Whether a report is true, or why it is refused.
fn judge(alloc: Global, m: &Middlebox, packets: &Packets, run: &Run) -> Result<(), AuditError>
    requires good { IsTrue (is_good (tree m.now)) }
    requires few_objects { length m.now.objects < 2 ^ 32 }
    ensures { IsAnswer (tree m.now) packets.now run.now result }
{
    if !counts_agree(packets, run) {
        return Err(AuditError::Counts);
    }
    if let Some(number) = first_misplaced(alloc, run)? {
        return Err(AuditError::Order(number));
    }
    if let Some(number) = first_late(run) {
        return Err(AuditError::Time(number));
    }
    let mut store = Store::new(alloc, &m.objects)?;
    if let Some(number) = run_in_order(alloc, m, packets, run, &mut store)? {
        return Err(AuditError::Verdict(number));
    }
    if let Some(object) = first_unlike(alloc, m, &store, run)? {
        return Err(AuditError::Object(object));
    }
    Ok(())
}

/// Audits a report of packets that came to a middlebox: whether the middlebox, run on the decided packets one after
/// the other in the order that is told, gives each released packet its verdict and leaves the rows that are told, and
/// whether a packet that was released before another was admitted stands before it. Neither the switch's rows nor the
/// counts of events, versions and `drained` are judged.
///
/// Of several causes the first one in the order of `AuditError` is answered.
pub fn audit(alloc: Global, m: &Middlebox, packets: &Packets, run: &Run) -> Result<(), AuditError>
    requires good { IsTrue (is_good (tree m.now)) }
    requires few_objects { length m.now.objects < 2 ^ 32 }
    ensures ok { OnOk result (IsTrueReport (tree m.now) packets.now run.now) }
    ensures serial { OnOk result
        (HaveOwnEvents run.now.fates → Serialises (source_of (tree m.now) packets.now) run.now) }
    ensures refused { IfErr result (λ e. IsRefused (tree m.now) packets.now run.now e) }
    ensures exact { (e : AuditError) → e ≢ AuditError.NoMemory → IsRefused (tree m.now) packets.now run.now e
        → MatchResult result (λ _. ⊥) (λ found. (found ≡ e) ⊎ (found ≡ AuditError.NoMemory)) }
    ensures found { IsTrueReport (tree m.now) packets.now run.now
        → IfErr result (λ e. e ≡ AuditError.NoMemory) }
    ensures serialises { CountsAgree packets.now run.now → Serialises (source_of (tree m.now) packets.now) run.now
        → IfErr result (λ e. e ≡ AuditError.NoMemory) }
{
    judge(alloc, m, packets, run)
}
