//! Captures of packets, in the savefile format of libpcap (the page pcap-savefile(5) of its documentation): read from
//! bytes and printed as bytes, and the packets of a trace taken out of them and put into them.
#![tactic(auto)]

mod header;
mod number;
mod packets;
mod pcap;
mod printing;
mod reading;
mod records;
mod refusal;

pub use packets::{packets_of, pcap_of};
pub use pcap::Pcap;
pub use printing::print_pcap;
pub use reading::read_pcap;
pub use records::{MAX_RECORDS, Record, Records};
pub use refusal::PcapError;
