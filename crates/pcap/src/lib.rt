// Classic pcap files with Ethernet, IPv4 and UDP (document 02, W5). `records` reads the file's header, and `reader` is the walk over
// the records behind it, which an import and a caller hold; `judge` says what becomes of a record; `import` makes a capture of a file, and
// `export`, with `headers`, a file of a capture. Nothing here needs memory of its own.
#![tactic(auto)]

pub mod export;
mod headers;
pub mod import;
pub mod judge;
pub mod reader;
pub mod records;

// What stands before the data of a packet.
const ETHERNET_LENGTH: usize = 14;

const IPV4_LENGTH: usize = 20;

const UDP_LENGTH: usize = 8;

// What an Ethernet header says before IPv4.
const IPV4_TYPE: u16 = 0x0800;

// What an IPv4 header says before L2TP, and before UDP; and L2TP's port there.
const L2TP_PROTOCOL: u8 = 115;

const UDP_PROTOCOL: u8 = 17;

const L2TP_PORT: u16 = 1701;

// From whom to whom the packets of an export go: the addresses of Ethernet, then those of IP.
#[derive(Clone, Copy)]
pub struct Addresses {
    pub sender: [u8; 6],
    pub receiver: [u8; 6],
    pub source: u32,
    pub target: u32,
}
