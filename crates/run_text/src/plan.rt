//! What a schedule asks for.

use run_model::Events;

/// The events of a schedule, whether each pass takes an event for each of its stages, and whether the run is to be
/// drained behind the events.
#[derive(Drop)]
pub struct Plan {
    pub fine: bool,
    pub events: Events,
    pub drain: bool,
}
