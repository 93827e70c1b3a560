// The MPEG transport packet (ISO/IEC 13818-1, section 2.4.3.2): for each field of its header what is read and what is written, and the null
// packet. What travels in a packet is nothing to this crate. Where a function asks for something, only proved code calls it.
#![tactic(auto)]

ghost use Rattle.std.specs.Prelude.{◌≡◌, ◌+◌, ◌<◌, ◌≤◌, length};
ghost use Rattle.octets.specs.Stretch.{part, put};
ghost use Rattle.octets.specs.Tests.{same};
ghost use Rattle.ts.specs.Packet.{mpeg_length, head_length, pids, pid, count_of, next_count, header, all_fill, null_packet};
ghost use Rattle.ts.specs.Packet.{PermitsNullPacket};

// The packet, its header, and what is left behind it.
pub const MPEG_LENGTH: usize = 188;

pub const HEAD_LENGTH: usize = 4;

pub const PAYLOAD_LENGTH: usize = MPEG_LENGTH - HEAD_LENGTH;

// Byte 0.
pub const SYNC_BYTE: u8 = 0x47;

// The payload-start flag.
pub const START_FLAG: u8 = 0x40;

// How many PIDs there are; that of a packet that carries nothing, and the two bytes that have it.
pub const PIDS: u16 = 8192;

pub const NULL_PID: u16 = 0x1FFF;

const NULL_PID_HIGH: u8 = (NULL_PID / 256) as u8;

const NULL_PID_LOW: u8 = (NULL_PID % 256) as u8;

// What stands beside the count: payload and nothing else, not scrambled.
pub const PAYLOAD_ONLY: u8 = 0x10;

// How many counts there are.
pub const COUNTS: u8 = 16;

// What a payload has where nothing else is to be sent.
pub const FILL_BYTE: u8 = 0xFF;

// A whole packet, as it crosses to C: C returns no array, but a struct that has one.
#[repr(C)]
#[derive(Clone, Copy)]
pub struct MpegPacket {
    pub bytes: [u8; MPEG_LENGTH],
}

// The PID of a packet.
pub fn pid(packet: &[u8]) -> u16
    requires { head_length ≤ length packet.now }
    ensures { result ≡ pid packet.now }
{
    octets::read_u16(packet, 1) % PIDS
}

// The count of a packet.
pub fn count(packet: &[u8]) -> u8
    requires { head_length ≤ length packet.now }
    ensures { result ≡ count_of packet.now }
{
    packet[3] % COUNTS
}

pub fn next_count(count: u8) -> u8
    ensures { result ≡ next_count count }
{
    (count % COUNTS + 1) % COUNTS
}

// Writes the header of a packet.
pub fn write_header(packet: &mut [u8], starts: bool, pid: u16, count: u8)
    requires { (head_length ≤ length packet.old) × (pid < pids) }
    ensures { packet.new ≡ put packet.old 0 (header starts pid count) }
{
    let high = (pid / 256) as u8;
    packet[0] = SYNC_BYTE;
    packet[1] = if starts { START_FLAG + high } else { high };
    packet[2] = (pid % 256) as u8;
    packet[3] = PAYLOAD_ONLY + count % COUNTS;
}

// The packet that carries nothing.
pub fn null_packet() -> [u8; MPEG_LENGTH]
    ensures { PermitsNullPacket result }
{
    let mut null = [FILL_BYTE; MPEG_LENGTH];
    null[0] = SYNC_BYTE;
    null[1] = NULL_PID_HIGH;
    null[2] = NULL_PID_LOW;
    null[3] = PAYLOAD_ONLY;
    null
}

// Whether all bytes are 0xFF.
pub fn all_fill(bytes: &[u8]) -> bool
    ensures { result ≡ all_fill bytes.now }
{
    bytes.iter().all(|byte| *byte == FILL_BYTE)
}

// Whether a packet is the null packet.
// (Field by field, so that no second packet is made to compare it with.)
pub fn is_null(packet: &[u8]) -> bool
    requires { length packet.now ≡ mpeg_length }
    ensures { result ≡ same packet.now null_packet }
{
    (packet[0] == SYNC_BYTE)
        & (packet[1] == NULL_PID_HIGH)
        & (packet[2] == NULL_PID_LOW)
        & (packet[3] == PAYLOAD_ONLY)
        & all_fill(&packet[HEAD_LENGTH..])
}

// Whether the packet at this place among others is the null packet.
#[tactic(auto, using(octets::proofs::Stretches::sliced_part))]
pub fn is_null_at(packets: &[u8], at: usize) -> bool
    requires { at + mpeg_length ≤ length packets.now }
    ensures { result ≡ same (part packets.now at mpeg_length) null_packet }
{
    is_null(&packets[at..at + MPEG_LENGTH])
}
