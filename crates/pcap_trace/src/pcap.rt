//! A capture.
use crate::records::Records;

/// A capture: what its header tells, and its records. Its link type is Ethernet's, and its version 2.4.
#[derive(Drop)]
pub struct Pcap {
    /// Whether its numbers stand in the file with the highest byte first, else with the lowest first.
    pub big: bool,
    /// Whether fractions of seconds are nanoseconds, else microseconds.
    pub nano: bool,
    /// How many seconds its times lie behind Greenwich's; two's complement where that is negative. Mostly 0.
    pub zone: u32,
    /// How exact its times are. Mostly 0.
    pub sigfigs: u32,
    /// The snap length: how many bytes of each packet were to be kept. It isn't a limit for the records.
    pub snaplen: u32,
    pub records: Records,
}
