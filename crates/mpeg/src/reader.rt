// The reader: packets that a writer wrote from a frame's start on, and the frames back from them. It goes through all packets once to see
// whether some run of the writer gives them and how much comes out, and only then writes: a refusal changes nothing.
ghost use Rattle.std.specs.Prelude.{◌≡◌, ◌+◌, ◌-◌, ◌*◌, ◌^◌, ◌<◌, ◌≤◌, Some, min, length};
ghost use Rattle.octets.specs.Stretch.{part, put, joined};
ghost use Rattle.ts.specs.Packet.{mpeg_length};
ghost use Rattle.mpeg.specs.Packet.{pointed_length};
ghost use Rattle.mpeg.specs.Frame.{beside_field};
ghost use Rattle.mpeg.specs.Inside.Standing.{standing_of, told, Within, Follows};
ghost use Rattle.mpeg.specs.Inside.Fronts.{ByteOf, FrontWith, headed, standing_with, Starts};
ghost use Rattle.mpeg.specs.Read.{found, without_flag, with_flag, read_packet, reading, PermitsRead};
ghost use Rattle.mpeg.specs.Inside.Stream.{bytes_at, said_lengths, Laid, Reads, Surveyed, Writable};

use crate::{BESIDE_FIELD, FIELD_AT, FRAMES_PID_HIGH, FRAMES_PID_LOW, LONGEST, POINTED_LENGTH};
use refusal::Refusal;

// What a call answers: 0 or the refusal's number, how many frames came back, and how many bytes they have together. Refused: no frame and
// no byte.
#[repr(C)] // it crosses to the host program as it is
#[derive(Clone, Copy)]
pub struct ReadBack {
    pub code: u32,
    pub frames: usize,
    pub bytes: usize,
}

// The front of a frame: how many bytes of it have come, and the two in which it says its length, or 0 for one that has not come.
#[derive(Clone, Copy)]
struct Front {
    size: usize,
    high: u8,
    low: u8,
}

// No byte of a frame has come.
const NOTHING_BEGUN: Front = Front {
    size: 0,
    high: 0,
    low: 0,
};

// Where the reader stands between two packets: the count that it expects, or COUNTS before the first, the front of a frame that is not
// finished, and the frames found with their bytes.
#[derive(Clone, Copy)]
struct Standing {
    expected: u8,
    begun: Front,
    frames: usize,
    bytes: usize,
}

const AT_START: Standing = Standing {
    expected: ts::COUNTS,
    begun: NOTHING_BEGUN,
    frames: 0,
    bytes: 0,
};

// The frames back from the packets: their bytes, back to back, at the front of the output, and their lengths at the front of the other
// slice; or refuses, and then nothing has changed.
pub fn read(packets: &[u8], output: &mut [u8], lengths: &mut [u16]) -> ReadBack
    ensures { PermitsRead
        (record {
          packets = packets.entry.now;
          output = output.old;
          lengths = lengths.old;
        })
        (record { answer = result; output = output.new; lengths = lengths.new }) }
{
    match read_back(packets, output, lengths) {
        Ok(found) => ReadBack {
            code: refusal::NONE,
            frames: found.frames,
            bytes: found.bytes,
        },
        Err(refused) => ReadBack {
            code: u32::from(refused),
            frames: 0,
            bytes: 0,
        },
    }
}

fn read_back(packets: &[u8], output: &mut [u8], lengths: &mut [u16]) -> Result<Standing, Refusal>
    ensures { Reads
        (record {
          packets = packets.entry.now;
          output = output.old;
          lengths = lengths.old;
        })
        result output.new lengths.new }
{
    let found = survey(packets).ok_or(Refusal::NoRunGivesIt)?;
    if (output.len() < found.bytes) | (lengths.len() < found.frames) {
        return Err(Refusal::MpegOutputTooSmall);
    }
    write_frames(packets, output, found.bytes);
    write_lengths(output, lengths, found.frames);
    Ok(found)
}

// Byte `place` of a frame of which `size` bytes have come before, `known` being that byte where it was among them: else one of those that
// come now, or 0.
fn byte_of(more: &[u8], size: usize, place: usize, known: u8) -> u8
    ensures { ByteOf more.now size place known result }
{
    if place < size {
        return known;
    }
    if place - size < more.len() {
        return more[place - size];
    }
    0
}

// The front with these bytes more.
fn with_bytes(more: &[u8], front: Front) -> Front
    requires { front.size + length more.now < 2 ^ 64 }
    ensures { (result.size ≡ front.size + length more.now) × FrontWith more.now front result }
{
    let high = byte_of(more, front.size, FIELD_AT, front.high);
    let low = byte_of(more, front.size, FIELD_AT + 1, front.low);
    let size = front.size + more.len();
    Front { size, high, low }
}

// The least length that a frame with this front can have; that which it says, where its field has come.
fn said_length(front: Front) -> usize
    ensures { result ≡ front.high * 256 + front.low + beside_field }
{
    usize::from(front.high) * 256 + usize::from(front.low) + BESIDE_FIELD
}

// Whether the packet has the header of one with frames, its second byte being with the flag or without, and the count that is expected.
fn has_header(packet: &[u8], second: u8, expected: u8) -> bool
    requires { length packet.now ≡ mpeg_length }
    ensures { result ≡ headed second expected packet.now }
{
    let count = ts::count(packet);
    (packet[0] == ts::SYNC_BYTE)
        & (packet[1] == second)
        & (packet[2] == FRAMES_PID_LOW)
        & (packet[3] == ts::PAYLOAD_ONLY + count)
        & ((expected == ts::COUNTS) | (expected == count))
}

// Without the flag: the whole payload is of the frame that has begun.
fn without_flag(packet: &[u8], standing: Standing) -> Option<Standing>
    requires { (length packet.now ≡ mpeg_length) × Within standing }
    ensures { Follows (λ s. without_flag s packet.now) (told (Some standing)) (told result) }
{
    if standing.begun.size == 0 {
        return None;
    }
    let front = with_bytes(&packet[ts::HEAD_LENGTH..], standing.begun);
    let said = said_length(front);
    if (LONGEST < said) | (said < front.size) {
        return None;
    }
    let expected = ts::next_count(ts::count(packet));
    if said == front.size {
        return Some(Standing {
            expected,
            begun: NOTHING_BEGUN,
            frames: standing.frames + 1,
            bytes: standing.bytes + said,
        });
    }
    Some(Standing {
        expected,
        begun: front,
        frames: standing.frames,
        bytes: standing.bytes,
    })
}

// Frames from a frame's start to the end of the packet.
fn frames_in(packed: &[u8], standing: Standing) -> Option<Standing>
    requires { Starts packed.now standing }
    ensures { told result ≡ standing_with standing.expected standing.frames standing.bytes (found pointed_length packed.now) }
{
    let mut frames = standing.frames;
    let mut bytes = standing.bytes;
    let mut from = 0;
    // No `for`: a turn goes on behind the frame that it has found, and how long that is stands in the frame.
    while from < packed.len() {
        if packed[from] == ts::FILL_BYTE {
            if !ts::all_fill(&packed[from..]) {
                return None;
            }
            return Some(Standing {
                expected: standing.expected,
                begun: NOTHING_BEGUN,
                frames,
                bytes,
            });
        }
        let front = with_bytes(&packed[from..], NOTHING_BEGUN);
        let said = said_length(front);
        if LONGEST < said {
            return None;
        }
        if front.size < said {
            return Some(Standing {
                expected: standing.expected,
                begun: front,
                frames,
                bytes,
            });
        }
        frames += 1;
        bytes += said;
        from += said;
    }
    Some(Standing {
        expected: standing.expected,
        begun: NOTHING_BEGUN,
        frames,
        bytes,
    })
}

// With the flag: the pointer says how many bytes end the frame that has begun; behind them come frames, or 0xFF to the end, or nothing.
fn with_flag(packet: &[u8], standing: Standing) -> Option<Standing>
    requires { (length packet.now ≡ mpeg_length) × Within standing }
    ensures { Follows (λ s. with_flag s packet.now) (told (Some standing)) (told result) }
{
    let pointer = usize::from(packet[ts::HEAD_LENGTH]);
    let from = ts::HEAD_LENGTH + 1;
    if POINTED_LENGTH < pointer {
        return None;
    }
    let expected = ts::next_count(ts::count(packet));
    if standing.begun.size == 0 {
        if (pointer != 0) | ts::all_fill(&packet[from..]) {
            return None;
        }
        let ready = Standing {
            expected,
            begun: NOTHING_BEGUN,
            frames: standing.frames,
            bytes: standing.bytes,
        };
        return frames_in(&packet[from..], ready);
    }
    let front = with_bytes(&packet[from..from + pointer], standing.begun);
    let said = said_length(front);
    if (LONGEST < said) | (said != front.size) {
        return None;
    }
    let ready = Standing {
        expected,
        begun: NOTHING_BEGUN,
        frames: standing.frames + 1,
        bytes: standing.bytes + said,
    };
    frames_in(&packet[from + pointer..], ready)
}

// Reads one packet.
fn read_packet(packet: &[u8], standing: Standing) -> Option<Standing>
    requires { (length packet.now ≡ mpeg_length) × Within standing }
    ensures { Follows (λ s. read_packet s packet.now) (told (Some standing)) (told result) }
{
    if ts::is_null(packet) {
        if standing.begun.size != 0 {
            return None;
        }
        return Some(standing);
    }
    if has_header(packet, FRAMES_PID_HIGH, standing.expected) {
        return without_flag(packet, standing);
    }
    if has_header(packet, ts::START_FLAG + FRAMES_PID_HIGH, standing.expected) {
        return with_flag(packet, standing);
    }
    None
}

// Packet k of all packets.
fn packet_at(packets: &[u8], k: usize) -> &[u8]
    requires { mpeg_length * k + mpeg_length ≤ length packets.now }
    ensures { result.now ≡ part packets.now (mpeg_length * k) mpeg_length }
{
    let at = ts::MPEG_LENGTH * k;
    &packets[at..at + ts::MPEG_LENGTH]
}

// Reads all packets, and writes nothing.
fn survey(packets: &[u8]) -> Option<Standing>
    ensures { told result ≡ standing_of (reading packets.now) }
{
    if packets.len() % ts::MPEG_LENGTH != 0 {
        return None;
    }
    let mut standing = AT_START;
    for k in 0..packets.len() / ts::MPEG_LENGTH {
        standing = read_packet(packet_at(packets, k), standing)?;
    }
    Some(standing)
}

// Where a packet's bytes of frames begin: behind its header, or behind the pointer where it has one.
fn bytes_at(packet: &[u8]) -> usize
    requires { length packet.now ≡ mpeg_length }
    ensures { result ≡ bytes_at packet.now }
{
    if packet[1] == FRAMES_PID_HIGH {
        ts::HEAD_LENGTH
    } else {
        ts::HEAD_LENGTH + 1
    }
}

// Writes the bytes that a packet adds to those of all frames: `before` had come before it and `behind` with it. Of all, the first `total`
// are written.
fn write_bytes(packet: &[u8], output: &mut [u8], before: usize, behind: usize, total: usize)
    requires { (length packet.now ≡ mpeg_length) × Writable packet.now output.old before behind total }
    ensures { output.new ≡ put output.old before (part packet.now (bytes_at packet.now) (min behind total - before)) }
{
    let end = std::cmp::min(behind, total);
    if before < end {
        octets::copy(output, before, packet, bytes_at(packet), end - before);
    }
}

// Writes the first `total` bytes of the frames, packet by packet: those of the whole ones. Packets that were surveyed have no end before
// the last one.
fn write_frames(packets: &[u8], output: &mut [u8], total: usize)
    requires { Surveyed packets.now output.old total }
    ensures { output.new ≡ put output.old 0 (joined (reading packets.now).frames) }
{
    let mut standing = AT_START;
    for k in 0..packets.len() / ts::MPEG_LENGTH {
        let packet = packet_at(packets, k);
        let before = standing.bytes + standing.begun.size;
        standing = match read_packet(packet, standing) {
            Some(next) => next,
            None => return,
        };
        let behind = standing.bytes + standing.begun.size;
        write_bytes(packet, output, before, behind, total);
    }
}

// Writes the lengths of the frames that stand back to back in the output.
fn write_lengths(output: &[u8], lengths: &mut [u16], count: usize)
    requires { (count ≤ length lengths.old) × Laid count output.now }
    ensures { lengths.new ≡ put lengths.old 0 (said_lengths count output.now) }
{
    let mut from: usize = 0;
    for k in 0..count {
        let said = octets::read_u16(output, from + FIELD_AT) + BESIDE_FIELD as u16;
        lengths[k] = said;
        from += usize::from(said);
    }
}
