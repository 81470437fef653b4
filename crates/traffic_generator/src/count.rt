//! How many packets are made.
ghost use Rattle.std.specs.Prelude.{◌≡◌, ◌≤◌, MatchOption};

/// How many packets are made: at least one, and at most as many as a trace may have.
#[derive(Clone, Copy)]
pub struct Count {
    pub packets: u32,
    pub ghost some: { 1 ≤ packets },
    pub ghost few: { packets ≤ 16384 },
}

impl Count {
    ghost use Rattle.traffic_generator.specs.Count.{IsCount};

    /// The count that this number is, if it is one.
    pub fn of(packets: u64) -> Option<Count>
        ensures { MatchOption result (¬ (IsCount packets)) (λ count. count.packets ≡ packets) }
    {
        if packets == 0 || packets > 16_384 {
            return None;
        }
        Some(Count {
            packets: packets as u32,
        })
    }
}
