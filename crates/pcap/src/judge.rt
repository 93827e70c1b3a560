// What becomes of a record: a data entry, or it is skipped by the first cause that applies.
ghost use Rattle.std.specs.Prelude.{◌≡◌, ◌+◌, ◌≤◌, length};
ghost use Rattle.pcap.specs.Ipv4.{ipv4_at, ipv4_length, udp_protocol, header_length, total_length, protocol};
ghost use Rattle.pcap.specs.Judge.{not_ipv4, bad_ipv4_lengths, bad_udp_lengths, told, judged};
ghost use Rattle.pcap.specs.Inside.Importing.{Uncut};

use crate::{
    ETHERNET_LENGTH, IPV4_LENGTH, IPV4_TYPE, L2TP_PORT, L2TP_PROTOCOL, UDP_LENGTH, UDP_PROTOCOL,
};
use capture::Kind;

// Why a record is skipped, in the order in which the causes are tried.
#[derive(Clone, Copy, PartialEq, Eq)]
pub enum Cause {
    NotIpv4,
    BadLengths,
    Fragment,

    // Of another protocol or to another port.
    Other,
}

// The data of a record that is not skipped: the kind of its entry, and where in the record it is.
// (A place and a length, and no slice: so `judged` of the definitions has them.)
#[derive(Clone, Copy)]
pub struct Data {
    pub kind: Kind,
    pub at: usize,
    pub length: usize,
}

// Where a record has what is looked at.
const TYPE_AT: usize = 12;

const TOTAL_AT: usize = ETHERNET_LENGTH + 2;

const FRAGMENT_AT: usize = ETHERNET_LENGTH + 6;

const PROTOCOL_AT: usize = ETHERNET_LENGTH + 9;

// The bits of a packet that was cut into fragments: that more follow, and the offset.
const FRAGMENT_BITS: u16 = 16384;

// Where a UDP header has its target port and its length.
const PORT_AT: usize = 2;

const LENGTH_AT: usize = 4;

// Whether a record is no IPv4 packet, by its type, or by its version where it is long enough to say one.
fn not_ipv4(packet: &[u8]) -> bool
    ensures { result ≡ not_ipv4 packet.now }
{
    if packet.len() < ETHERNET_LENGTH {
        return true;
    }
    if octets::read_u16(packet, TYPE_AT) != IPV4_TYPE {
        return true;
    }
    if packet.len() <= ETHERNET_LENGTH {
        return false;
    }
    packet[ETHERNET_LENGTH] / 16 != 4
}

// How long the IPv4 header of a record is, with its options; and the whole packet.
fn header_length(packet: &[u8]) -> usize
    requires { ipv4_at + ipv4_length ≤ length packet.now }
    ensures { (result ≡ header_length packet.now) × (result ≤ 60) }
{
    let first = usize::from(packet[ETHERNET_LENGTH]);
    4 * (first % 16)
}

fn total_length(packet: &[u8]) -> usize
    requires { ipv4_at + ipv4_length ≤ length packet.now }
    ensures { (result ≡ total_length packet.now) × (result ≤ 65535) }
{
    usize::from(octets::read_u16(packet, TOTAL_AT))
}

// Whether the lengths of a record and of its IPv4 packet do not go together.
fn bad_ipv4_lengths(packet: &[u8]) -> bool
    ensures { result ≡ bad_ipv4_lengths packet.now }
{
    if packet.len() < ETHERNET_LENGTH + IPV4_LENGTH {
        return true;
    }
    let header = header_length(packet);
    let total = total_length(packet);
    (header < IPV4_LENGTH) | (total < header) | (packet.len() < ETHERNET_LENGTH + total)
}

// Whether those of its UDP packet do not: `at` is where that begins, and `room` how many bytes the IPv4 packet has for it.
fn bad_udp_lengths(packet: &[u8], at: usize, room: usize) -> bool
    requires { Uncut packet.now at room }
    ensures { result ≡ bad_udp_lengths packet.now }
{
    if room < UDP_LENGTH {
        return true;
    }
    let said = usize::from(octets::read_u16(packet, at + LENGTH_AT));
    (said < UDP_LENGTH) | (room < said)
}

// Judges a record.
pub fn judge(packet: &[u8]) -> Result<Data, Cause>
    ensures { told result ≡ judged packet.now }
{
    if not_ipv4(packet) {
        return Err(Cause::NotIpv4);
    }
    if bad_ipv4_lengths(packet) {
        return Err(Cause::BadLengths);
    }
    if octets::read_u16(packet, FRAGMENT_AT) % FRAGMENT_BITS != 0 {
        return Err(Cause::Fragment);
    }
    let header = header_length(packet);
    let total = total_length(packet);
    let at = ETHERNET_LENGTH + header;
    let room = total - header;
    judge_payload(packet, at, room)
}

// Judges a whole IPv4 packet by what it carries: `at` is where that begins, and `room` how long it is.
fn judge_payload(packet: &[u8], at: usize, room: usize) -> Result<Data, Cause>
    requires { Uncut packet.now at room }
    ensures { told result ≡ judged packet.now }
{
    let carried = packet[PROTOCOL_AT]; // any byte may stand here
    if carried == L2TP_PROTOCOL {
        return Ok(Data {
            kind: Kind::Data,
            at,
            length: room,
        });
    }
    if carried != UDP_PROTOCOL {
        return Err(Cause::Other);
    }
    judge_udp(packet, at, room)
}

// Judges a whole UDP packet.
fn judge_udp(packet: &[u8], at: usize, room: usize) -> Result<Data, Cause>
    requires { Uncut packet.now at room × (protocol packet.now ≡ udp_protocol) }
    ensures { told result ≡ judged packet.now }
{
    if bad_udp_lengths(packet, at, room) {
        return Err(Cause::BadLengths);
    }
    if octets::read_u16(packet, at + PORT_AT) != L2TP_PORT {
        return Err(Cause::Other);
    }
    let said = usize::from(octets::read_u16(packet, at + LENGTH_AT));
    Ok(Data {
        kind: Kind::DataOverUdp,
        at: at + UDP_LENGTH,
        length: said - UDP_LENGTH,
    })
}
