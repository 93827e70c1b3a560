// The headers that an export writes, each at a place of the output: those of the file and of a record, little-endian, and those of
// Ethernet, IPv4 and UDP (document 02, W5).
ghost use Rattle.std.specs.Prelude.{◌≡◌, true, [], ◌∷◌, ◌+◌, ◌<◌, ◌≤◌, length};
ghost use Rattle.octets.specs.Stretch.{put};
ghost use Rattle.pcap.specs.File.{file_header, record_header, file_header_in, record_header_in};
ghost use Rattle.pcap.specs.Ethernet.{ethernet_length, ethernet_header};
ghost use Rattle.pcap.specs.Ipv4.{ipv4_length, folded, ipv4_with, ipv4_header};
ghost use Rattle.pcap.specs.Ipv4.{checksum as checksumOf};
ghost use Rattle.pcap.specs.Udp.{udp_length, udp_header};
ghost use Rattle.pcap.specs.Inside.Exporting.{front_length, front_of};

use crate::{Addresses, ETHERNET_LENGTH, IPV4_LENGTH, IPV4_TYPE, L2TP_PORT, UDP_LENGTH, records};

// How long an address of Ethernet is.
const ADDRESS_LENGTH: usize = 6;

// What the file's header says that nobody reads: no more than so many bytes of a packet are kept. No packet is longer.
const SNAP_LENGTH: u32 = 65535;

// The IPv4 version and the length of the header, in words of four bytes: one byte.
const VERSION_AND_LENGTH: u8 = 0x45;

const TIME_TO_LIVE: u8 = 64;

// Where an IPv4 header has its checksum.
const CHECKSUM_AT: usize = 10;

// The file's header.
pub fn write_file_header(output: &mut [u8])
    requires { file_header ≤ length output.old }
    ensures { output.new ≡ put output.old 0 (file_header_in true) }
{
    octets::write_little_u32(output, 0, records::MAGIC);
    octets::write_little_u16(output, 4, records::MAJOR);
    octets::write_little_u16(output, 6, records::MINOR);
    octets::write_little_u32(output, 8, 0);
    octets::write_little_u32(output, 12, 0);
    octets::write_little_u32(output, 16, SNAP_LENGTH);
    octets::write_little_u32(output, 20, records::ETHERNET);
}

// The header of a record of `size` bytes, at time 0.
fn write_record_header(output: &mut [u8], at: usize, size: usize)
    requires { (at + record_header ≤ length output.old) × (size < 4294967296) }
    ensures { output.new ≡ put output.old at (record_header_in true size) }
{
    octets::write_little_u32(output, at, 0);
    octets::write_little_u32(output, at + 4, 0);
    octets::write_little_u32(output, at + 8, size as u32);
    octets::write_little_u32(output, at + 12, size as u32);
}

fn write_ethernet(output: &mut [u8], at: usize, addresses: Addresses)
    requires { at + ethernet_length ≤ length output.old }
    ensures { output.new ≡ put output.old at (ethernet_header addresses) }
{
    let receiver = addresses.receiver;
    let sender = addresses.sender;
    octets::copy(output, at, &receiver, 0, ADDRESS_LENGTH);
    octets::copy(output, at + 6, &sender, 0, ADDRESS_LENGTH);
    octets::write_u16(output, at + 12, IPV4_TYPE);
}

// What is over 16 bits, added in again.
fn fold(sum: usize) -> usize
    ensures { result ≡ folded sum }
{
    sum % 65536 + sum / 65536
}

// The checksum of an IPv4 header (RFC 791, RFC 1071): the sum of its ten words, folded twice, with all bits turned over.
fn checksum(header: &[u8]) -> u16
    requires { ipv4_length ≤ length header.now }
    ensures { result ≡ checksumOf header.now }
{
    let mut sum: usize = 0;
    for i in 0..IPV4_LENGTH / 2 {
        sum += usize::from(octets::read_u16(header, 2 * i));
    }
    (65535 - fold(fold(sum))) as u16
}

// Two bytes, one behind the other.
fn write_pair(output: &mut [u8], at: usize, first: u8, second: u8)
    requires { at + 1 < length output.old }
    ensures { output.new ≡ put output.old at (first ∷ second ∷ []) }
{
    output[at] = first;
    output[at + 1] = second;
}

// An IPv4 header with a 0 for the checksum: of a packet of `total` bytes, which carries the protocol `carried`. That is a plain byte here,
// and no enum, since it is written as it is and IPv4 has a protocol for each of the 256.
fn write_unchecked_ipv4(
    output: &mut [u8],
    at: usize,
    addresses: Addresses,
    total: usize,
    carried: u8,
)
    requires { (at + ipv4_length ≤ length output.old) × (total < 65536) }
    ensures { output.new ≡ put output.old at (ipv4_with addresses total carried 0) }
{
    write_pair(output, at, VERSION_AND_LENGTH, 0);
    octets::write_u16(output, at + 2, total as u16);
    octets::write_u32(output, at + 4, 0);
    write_pair(output, at + 8, TIME_TO_LIVE, carried);
    octets::write_u16(output, at + CHECKSUM_AT, 0);
    octets::write_u32(output, at + 12, addresses.source);
    octets::write_u32(output, at + 16, addresses.target);
}

// The whole header: the checksum is taken of the bytes just written, and then stored.
fn write_ipv4(output: &mut [u8], at: usize, addresses: Addresses, total: usize, carried: u8)
    requires { (at + ipv4_length ≤ length output.old) × (total < 65536) }
    ensures { output.new ≡ put output.old at (ipv4_header addresses total carried) }
{
    write_unchecked_ipv4(output, at, addresses, total, carried);
    let end = at + IPV4_LENGTH;
    let check = checksum(&output[at..end]);
    octets::write_u16(output, at + CHECKSUM_AT, check);
}

// The headers of a record, up to the `size` bytes of the protocol `carried` that its IPv4 packet carries.
pub fn write_front(output: &mut [u8], at: usize, addresses: Addresses, size: usize, carried: u8)
    requires { (at + front_length ≤ length output.old) × (ipv4_length + size < 65536) }
    ensures { output.new ≡ put output.old at (front_of addresses size carried) }
{
    write_record_header(output, at, ETHERNET_LENGTH + IPV4_LENGTH + size);
    let ethernet = at + records::RECORD_HEADER;
    write_ethernet(output, ethernet, addresses);
    write_ipv4(
        output,
        ethernet + ETHERNET_LENGTH,
        addresses,
        IPV4_LENGTH + size,
        carried,
    );
}

// The UDP header before `size` bytes, without a checksum.
pub fn write_udp(output: &mut [u8], at: usize, size: usize)
    requires { (at + udp_length ≤ length output.old) × (udp_length + size < 65536) }
    ensures { output.new ≡ put output.old at (udp_header size) }
{
    octets::write_u16(output, at, L2TP_PORT);
    octets::write_u16(output, at + 2, L2TP_PORT);
    octets::write_u16(output, at + 4, (UDP_LENGTH + size) as u16);
    octets::write_u16(output, at + 6, 0);
}
