//! How far a packet has come.
ghost use Rattle.std.specs.Prelude.{◌≡◌};

use gal_io::Items;
use packet_fields::Verdict;

/// How far an admitted packet has come. `admitted`, `decided` and `released` are the numbers of events, counted from 1.
/// `version` counts the turns of the server that changed objects which the switch looks up: for a packet that the server
/// ran those up to its own, and for one that the switch finished those whose changes its lookups saw.
#[derive(Drop)]
pub enum Fate {
    /// The preprocessing is under way.
    Pass {
        admitted: u32,
    },
    /// The packet is on its way up to the server.
    Up {
        admitted: u32,
    },
    /// The server ran it, and it isn't released yet.
    Held {
        admitted: u32,
        decided: u32,
        version: u32,
    },
    /// The server ran it, and it was released.
    Slow {
        admitted: u32,
        decided: u32,
        version: u32,
        released: u32,
        verdict: Verdict,
    },
    /// The switch finished it without the server.
    Fast {
        admitted: u32,
        decided: u32,
        version: u32,
        released: u32,
        verdict: Verdict,
    },
}

impl Fate {
    ghost use Rattle.run_model.specs.Fate.{is_decided, is_released};

    /// Whether its verdict stands.
    pub fn is_decided(&self) -> bool
        ensures { result ≡ is_decided self.now }
    {
        !matches!(self, Fate::Pass { .. } | Fate::Up { .. })
    }

    /// Whether its packet was released.
    pub fn is_released(&self) -> bool
        ensures { result ≡ is_released self.now }
    {
        matches!(self, Fate::Slow { .. } | Fate::Fast { .. })
    }
}

/// The fates of the admitted packets, by number.
pub type Fates = Items<Fate>;
