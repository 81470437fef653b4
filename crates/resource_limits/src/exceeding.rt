//! Counts held against limits.
ghost use Rattle.std.specs.Prelude.{◌≡◌, ◌↔◌, [], ◌∷◌, find, None};
ghost use Rattle.resource_limits.specs.Kept.{exceeds, first_excess, limit_name, of_all, of_objects, Keeps};

use crate::counting::Counts;
use crate::limits::Limits;
use crate::tally::Tally;

/// A limit of a split, in the order in which the first exceeded one is told.
#[derive(Clone, Copy, Debug, PartialEq, Eq)]
pub enum LimitName {
    /// One look at each object. No file has this limit: it is the same for every switch.
    Accesses,
    /// The highest stage of either pass.
    Stages,
    /// Bits of all tables on the switch.
    TableBits,
    /// Writes of each object, at most the rows of its write-back table.
    Writeback,
    /// Bytes of the header in each direction.
    TransferBytes,
}

impl LimitName {
    /// The limit's name: that of its key in the limits file, or `accesses`.
    pub fn name(self) -> &'static str
        ensures { result.now ≡ limit_name self }
    {
        match self {
            LimitName::Accesses => "accesses",
            LimitName::Stages => "stages",
            LimitName::TableBits => "table_bits",
            LimitName::Writeback => "writeback",
            LimitName::TransferBytes => "transfer_bytes",
        }
    }
}

/// A count beside its limit.
#[derive(Clone, Copy, Debug, PartialEq, Eq)]
pub struct Over {
    pub limit: LimitName,
    /// The object's place in order of declaration, from 0, where the limit is for each object.
    pub object: Option<u32>,
    pub have: u64,
    pub allowed: u64,
}

// The count of the whole split beside its limit, where it is above it.
fn of_split(limit: LimitName, allowed: u64, have: u64) -> Option<Over>
    ensures { result ≡ find exceeds (of_all limit allowed have ∷ []) }
{
    if allowed < have {
        Some(Over {
            limit,
            object: None,
            have,
            allowed,
        })
    } else {
        None
    }
}

// The number of the first object that is above the limit.
fn of_objects(limit: LimitName, allowed: u64, tally: &Tally) -> Option<Over>
    ensures { result ≡ find exceeds (of_objects limit allowed 0 tally.now) }
{
    let numbers = tally.as_slice();
    for object in 0..numbers.len() {
        let have = u64::from(numbers[object]);
        if allowed < have {
            return Some(Over {
                limit,
                object: Some(object as u32),
                have,
                allowed,
            });
        }
    }
    None
}

/// The first limit that the counts exceed, with its first object where the limit is for each object.
pub fn first_exceeded(c: &Counts, l: &Limits) -> Option<Over>
    ensures first { result ≡ first_excess c.now l.now }
    ensures none { (result ≡ None) ↔ Keeps c.now l.now }
{
    let accesses = of_objects(LimitName::Accesses, 1, &c.accesses);
    let stages = of_split(LimitName::Stages, u64::from(l.stages), u64::from(c.stages));
    let table_bits = of_split(LimitName::TableBits, l.table_bits, c.table_bits);
    let writeback = of_objects(LimitName::Writeback, u64::from(l.writeback), &c.writes);
    let transfer_bytes = of_split(
        LimitName::TransferBytes,
        u64::from(l.transfer_bytes),
        u64::from(c.transfer_bytes),
    );
    accesses
        .or(stages)
        .or(table_bits)
        .or(writeback)
        .or(transfer_bytes)
}
