//! The first lines of a report.
ghost use Rattle.std.specs.Prelude.{◌≡◌};
ghost use Rattle.report_text.specs.Parse.{counts_of, events_of, versions_of};

use crate::piece::{labelled, whole};

/// The second line: packets of the trace, and how many were admitted, decided and released.
#[derive(Clone, Copy)]
pub(crate) struct PacketCounts {
    pub(crate) total: u32,
    pub(crate) admitted: u32,
    pub(crate) decided: u32,
    pub(crate) released: u32,
}

/// The third line: how many events happened, and how many of them were idle.
#[derive(Clone, Copy)]
pub(crate) struct EventCounts {
    pub(crate) events: u32,
    pub(crate) idle: u32,
}

/// The fourth line: the version of the server, and the one that the switch shows.
#[derive(Clone, Copy)]
pub(crate) struct Versions {
    pub(crate) version: u32,
    pub(crate) visible: u32,
}

#[tactic(auto, unfolding(crate::specs::Parse::counts_of))]
pub(crate) fn read_counts(line: &[u8]) -> Option<PacketCounts>
    ensures { result ≡ counts_of line.now }
{
    let (total, rest) = labelled(b"packets ", line)?;
    let (admitted, rest) = labelled(b" admitted ", rest)?;
    let (decided, rest) = labelled(b" decided ", rest)?;
    let (released, rest) = labelled(b" released ", rest)?;
    whole(
        PacketCounts {
            total,
            admitted,
            decided,
            released,
        },
        rest,
    )
}

#[tactic(auto, unfolding(crate::specs::Parse::events_of))]
pub(crate) fn read_events(line: &[u8]) -> Option<EventCounts>
    ensures { result ≡ events_of line.now }
{
    let (events, rest) = labelled(b"events ", line)?;
    let (idle, rest) = labelled(b" idle ", rest)?;
    whole(EventCounts { events, idle }, rest)
}

#[tactic(auto, unfolding(crate::specs::Parse::versions_of))]
pub(crate) fn read_versions(line: &[u8]) -> Option<Versions>
    ensures { result ≡ versions_of line.now }
{
    let (version, rest) = labelled(b"version ", line)?;
    let (visible, rest) = labelled(b" visible ", rest)?;
    whole(Versions { version, visible }, rest)
}
