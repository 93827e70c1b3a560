// A pcap file made of a capture. The entries are walked twice: first the file is measured, so that nothing is written before it is known
// that nothing is refused; then it is written.

ghost use Rattle.std.specs.Prelude.{◌≡◌, true, ◌+◌, ◌≤◌, length};
ghost use Rattle.octets.specs.Stretch.{put};
ghost use Rattle.capture.specs.File.{head_length, data_entry, data_over_udp, entry_count, file_refusal, entries};
ghost use Rattle.pcap.specs.File.{record_in};
ghost use Rattle.pcap.specs.Udp.{udp_length};
ghost use Rattle.pcap.specs.Export.{packet_of, export_of, told, PermitsExport};
ghost use Rattle.pcap.specs.Inside.Exporting.{front_length, record_of, record_length, counted_with, measured_to, Unhurried};

use crate::{
    Addresses, ETHERNET_LENGTH, IPV4_LENGTH, L2TP_PROTOCOL, UDP_LENGTH, UDP_PROTOCOL, headers,
    records,
};
use capture::{Kind, reader};
use refusal::Refusal;

// How long the headers of a record are, up to what its IPv4 packet carries.
const FRONT: usize = records::RECORD_HEADER + ETHERNET_LENGTH + IPV4_LENGTH;

// What an export answers, and the entries of a capture come to: how long the file is, how many packets it has, and how many opens and
// closes were left out.
#[derive(Clone, Copy)]
pub struct Exported {
    pub length: usize,
    pub packets: usize,
    pub opens: usize,
    pub closes: usize,
}

// How long the record of an entry is: 0 for one that has none.
fn record_length(kind: u8, size: usize) -> usize
    requires { size ≤ 65535 }
    ensures { (result ≡ record_length kind size) × (result ≤ front_length + udp_length + size) }
{
    match Kind::try_from(kind) {
        Ok(Kind::Data) => FRONT + size,
        Ok(Kind::DataOverUdp) => FRONT + UDP_LENGTH + size,
        _ => 0,
    }
}

// A measure, with one more entry: its kind, and the length of its body.
fn count_entry(measured: Exported, kind: u8, size: usize) -> Exported
    requires { Unhurried measured × (size ≤ 65535) }
    ensures { result ≡ counted_with measured kind size }
{
    let length = measured.length + record_length(kind, size);
    match Kind::try_from(kind) {
        Ok(Kind::Data | Kind::DataOverUdp) => Exported {
            length,
            packets: measured.packets + 1,
            ..measured
        },
        Ok(Kind::OpenPsp | Kind::OpenDmpt) => Exported {
            length,
            opens: measured.opens + 1,
            ..measured
        },
        Ok(Kind::Close) => Exported {
            length,
            closes: measured.closes + 1,
            ..measured
        },
        _ => Exported { length, ..measured },
    }
}

// Measures the file of a sound capture.
fn measure(file: &[u8]) -> Exported
    requires { file_refusal file.now ≡ 0 }
    ensures { result ≡ measured_to file.now (entry_count head_length file.now) }
{
    let count = reader::entry_count(file);
    let mut measured = Exported {
        length: records::FILE_HEADER,
        packets: 0,
        opens: 0,
        closes: 0,
    };
    for k in 0..count {
        let kind = reader::kind_at(file, k);
        let size = reader::length_at(file, k);
        measured = count_entry(measured, kind, size);
    }
    measured
}

// Writes the record of a packet that came over IP, and answers the place behind it.
// (Two functions and no flag: over UDP one header more stands in the middle, and each contract names its kind of entry.)
fn write_over_ip(addresses: Addresses, body: &[u8], output: &mut [u8], at: usize) -> usize
    requires { (at + (front_length + length body.now) ≤ length output.old) × (length body.now ≤ 65000) }
    ensures output_after { output.new ≡ put output.old at
        (record_in true (packet_of addresses (record { kind = data_entry; body = body.now }))) }
    ensures value { result ≡ at + (front_length + length body.now) }
{
    let size = body.len();
    let next = at + FRONT;
    headers::write_front(output, at, addresses, size, L2TP_PROTOCOL);
    octets::copy(output, next, body, 0, size);
    next + size
}

// Writes the record of a packet that came over UDP, and answers the place behind it.
fn write_over_udp(addresses: Addresses, body: &[u8], output: &mut [u8], at: usize) -> usize
    requires { (at + (front_length + udp_length + length body.now) ≤ length output.old) × (length body.now ≤ 65000) }
    ensures output_after { output.new ≡ put output.old at
        (record_in true (packet_of addresses (record { kind = data_over_udp; body = body.now }))) }
    ensures value { result ≡ at + (front_length + udp_length + length body.now) }
{
    let size = body.len();
    let next = at + FRONT;
    headers::write_front(output, at, addresses, UDP_LENGTH + size, UDP_PROTOCOL);
    headers::write_udp(output, next, size);
    octets::copy(output, next + UDP_LENGTH, body, 0, size);
    next + UDP_LENGTH + size
}

// Writes the record of an entry, if it has one, and answers the place behind it.
fn write_entry(addresses: Addresses, kind: u8, body: &[u8], output: &mut [u8], at: usize) -> usize
    requires { (at + record_length kind (length body.now) ≤ length output.old) × (length body.now ≤ 65000) }
    ensures output_after { output.new ≡ put output.old at
        (record_of addresses (record { kind = kind; body = body.now })) }
    ensures value { result ≡ at + record_length kind (length body.now) }
{
    match Kind::try_from(kind) {
        Ok(Kind::Data) => write_over_ip(addresses, body, output, at),
        Ok(Kind::DataOverUdp) => write_over_udp(addresses, body, output, at),
        _ => at,
    }
}

// Writes the file of a sound capture.
fn write_file(addresses: Addresses, file: &[u8], output: &mut [u8])
    requires { (file_refusal file.now ≡ 0) × (length (export_of addresses (entries file.now)) ≤ length output.old) }
    ensures { output.new ≡ put output.old 0 (export_of addresses (entries file.now)) }
{
    let count = reader::entry_count(file);
    headers::write_file_header(output);
    let mut at = records::FILE_HEADER;
    let mut start = capture::HEAD_LENGTH + capture::ENTRY_LENGTH * count;
    for k in 0..count {
        let kind = reader::kind_at(file, k);
        let body = reader::body_at(file, k, start);
        at = write_entry(addresses, kind, body, output, at);
        start += body.len();
    }
}

// Writes the data entries of a capture to the output as a pcap file.
pub fn export(addresses: Addresses, file: &[u8], output: &mut [u8]) -> Result<Exported, Refusal>
    ensures { PermitsExport addresses file.now output.old
        (record { answer = told result; output = output.new }) }
{
    reader::check(file)?;
    let measured = measure(file);
    if output.len() < measured.length {
        return Err(Refusal::PcapOutputTooSmall);
    }
    write_file(addresses, file, output);
    Ok(measured)
}
