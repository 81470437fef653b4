//! Why a report is refused.
use gal_io::NoMemory as WantOfMemory;
use thiserror::Error;

/// Why a report doesn't tell a serial run of its source. A packet and an object are known by their numbers, from 0. Of
/// several causes the first one in this order is answered.
#[derive(Clone, Copy, Debug, PartialEq, Eq, Error)]
pub enum AuditError {
    /// The number of packets isn't that of the trace, more of them are admitted than it has, or as many as are told
    /// to be decided or released are not.
    #[error("the counts disagree")]
    Counts,
    /// The order of the report isn't that of the decided packets by version, by deciding event and by number. It has
    /// this packet at the first place that differs; where it ends there, the packet is missing.
    #[error("packet {0} stands at a wrong place")]
    Order(u32),
    /// A packet was released at an earlier event than this one was admitted, and doesn't stand before it. It may be
    /// the packet itself. Of such packets this is the first in the order.
    #[error("packet {0} stands before one that was released before it was admitted")]
    Time(u32),
    /// A packet was released with another verdict than the serial run gives it. Of such packets this is the first in
    /// the order.
    #[error("packet {0} has a wrong verdict")]
    Verdict(u32),
    /// The rows of this map, vector or integer aren't those that the serial run leaves. Of such objects it is the
    /// first that is declared.
    #[error("object {0} has wrong rows")]
    Object(u32),
    /// No memory was found.
    #[error("no memory")]
    NoMemory,
}

impl From<WantOfMemory> for AuditError {
    ghost use Rattle.std.specs.Prelude.{◌≡◌};
    ghost use Rattle.run_audit.specs.declared.error.AuditError.TheVariants.{NoMemory};

    ghost from_gives = { λ _ e. e ≡ NoMemory };

    fn from(_: WantOfMemory) -> AuditError {
        AuditError::NoMemory
    }
}
