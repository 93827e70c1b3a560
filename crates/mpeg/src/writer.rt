// The writer: one call, one packet. It is given frames, back to back with their lengths, how many of their bytes have been sent, and the
// count, and answers where the next call goes on.
ghost use Rattle.std.specs.Prelude.{◌≡◌, ◌+◌, ◌-◌, ◌<◌, ◌≤◌, min, length};
ghost use Rattle.octets.specs.Stretch.{part, rest, put};
ghost use Rattle.ts.specs.Packet.{mpeg_length, head_length};
ghost use Rattle.mpeg.specs.Packet.{pointed_length};
ghost use Rattle.mpeg.specs.Write.{data_packet, carries, PermitsWrite};
ghost use Rattle.mpeg.specs.Inside.Writing.{bad_first, behind_pointer, Surveys, Waiting, Writes};

use crate::{BESIDE_FIELD, FIELD_AT, FRAMES_PID, LONGEST, POINTED_LENGTH};
use refusal::Refusal;

// What a call answers: 0 or the refusal's number, how many bytes have been sent now, the next count, and whether the packet is a null
// packet. Refused: the place and the count that were given.
#[repr(C)] // it crosses to the host program as it is
#[derive(Clone, Copy)]
pub struct Written {
    pub code: u32,
    pub place: usize,
    pub count: u8,
    pub null: bool,
}

// What a call that is not refused answers: the same but for the number. (No Option for a null packet: place and count go with it.)
#[derive(Clone, Copy)]
struct Sent {
    place: usize,
    count: u8,
    null: bool,
}

// Whether the `size` bytes from place `start` on are no frame that may be written, or are not there.
fn bad_frame(frames: &[u8], start: usize, size: usize) -> bool
    requires { (start ≤ length frames.now) × (size < 65536) }
    ensures { result ≡ bad_first (rest frames.now start) size }
{
    if (size < BESIDE_FIELD) | (LONGEST < size) | (frames.len() < start + size) {
        return true;
    }
    let said = usize::from(octets::read_u16(frames, start + FIELD_AT)) + BESIDE_FIELD;
    (said != size) | (frames[start] == ts::FILL_BYTE)
}

// Goes through all frames, and answers how many bytes are left of the one that has begun; or refuses one that may not be written, or bytes
// behind the last. The loop only stops at a frame that may not be written, and it is refused behind the loop: so no answer is at hand in
// the loop, and a turn is short (bench/README.md, stream f). (The frames and their lengths stay two slices, as they come from C: nothing
// here looks at the lengths but this.)
fn survey(frames: &[u8], lengths: &[u16], place: usize) -> Result<usize, Refusal>
    ensures { Surveys frames.now lengths.now place result }
{
    let mut begun = place; // where the last frame ends that starts before the place
    let mut start = 0;
    let mut passed = 0;
    for length in lengths {
        let size = usize::from(*length);
        if bad_frame(frames, start, size) {
            break;
        }
        if start < place {
            begun = start + size;
        }
        start += size;
        passed += 1;
    }
    if passed < lengths.len() {
        return Err(Refusal::FrameNotWritten);
    }
    if start != frames.len() {
        return Err(Refusal::FrameNotWritten);
    }
    Ok(begun.saturating_sub(place))
}

// What is copied first, in two blocks. The compiler moves a block of a size that it knows without a call, as long as it has at most 128
// bytes.
const BLOCK: usize = 64;

// Copies as `octets::copy` does, 128 bytes or more. `copy_from_slice` in its place costs 40 instructions of 150 for a packet.
fn copy_long(target: &mut [u8], at: usize, source: &[u8], from: usize, count: usize)
    requires { (128 ≤ count) × (at + count ≤ length target.old) × (from + count ≤ length source.now) }
    ensures { target.new ≡ put target.old at (part source.now from count) }
{
    octets::copy(target, at, source, from, BLOCK);
    octets::copy(target, at + BLOCK, source, from + BLOCK, BLOCK);
    octets::copy(
        target,
        at + 2 * BLOCK,
        source,
        from + 2 * BLOCK,
        count - 2 * BLOCK,
    );
}

// Writes what stands behind the pointer: as many bytes as wait and fit, and 0xFF behind them. Answers how many bytes it carries.
fn write_pointed(output: &mut [u8], frames: &[u8], place: usize) -> usize
    requires { (place ≤ length frames.now) × (mpeg_length ≤ length output.old) }
    ensures value { result ≡ min pointed_length (length frames.now - place) }
    ensures output_after { output.new ≡ put output.old (head_length + 1) (behind_pointer (rest frames.now place)) }
{
    let waiting = frames.len() - place;
    if POINTED_LENGTH <= waiting {
        copy_long(output, ts::HEAD_LENGTH + 1, frames, place, POINTED_LENGTH);
        return POINTED_LENGTH;
    }
    octets::copy(output, ts::HEAD_LENGTH + 1, frames, place, waiting);
    output[ts::HEAD_LENGTH + 1 + waiting..ts::MPEG_LENGTH].fill(ts::FILL_BYTE);
    waiting
}

// Writes the packet of the bytes from `place` on, of which `left` end a frame that has begun, and answers how many it carries.
fn write_data(output: &mut [u8], frames: &[u8], place: usize, left: usize, count: u8) -> usize
    requires { Waiting frames.now place left output.old }
    ensures value { result ≡ carries left (rest frames.now place) }
    ensures output_after { output.new ≡ put output.old 0 (data_packet count left (rest frames.now place)) }
{
    if ts::PAYLOAD_LENGTH <= left {
        ts::write_header(output, false, FRAMES_PID, count);
        copy_long(output, ts::HEAD_LENGTH, frames, place, ts::PAYLOAD_LENGTH);
        return ts::PAYLOAD_LENGTH;
    }
    ts::write_header(output, true, FRAMES_PID, count);
    output[ts::HEAD_LENGTH] = left as u8;
    write_pointed(output, frames, place)
}

// Writes the next packet of these frames at the front of the output; or refuses, and then nothing has changed.
pub fn write(frames: &[u8], lengths: &[u16], place: usize, count: u8, output: &mut [u8]) -> Written
    ensures { PermitsWrite
        (record {
          bytes = frames.now;
          lengths = lengths.now;
          place = place;
          count = count;
          output = output.old;
        })
        (record { answer = result; output = output.new }) }
{
    match write_next(frames, lengths, place, count, output) {
        Ok(sent) => Written {
            code: refusal::NONE,
            place: sent.place,
            count: sent.count,
            null: sent.null,
        },
        Err(refused) => Written {
            code: u32::from(refused),
            place,
            count,
            null: false,
        },
    }
}

fn write_next(
    frames: &[u8],
    lengths: &[u16],
    place: usize,
    count: u8,
    output: &mut [u8],
) -> Result<Sent, Refusal>
    ensures { Writes
        (record {
          bytes = frames.now;
          lengths = lengths.now;
          place = place;
          count = count;
          output = output.old;
        })
        result output.new }
{
    let left = survey(frames, lengths, place)?;
    if output.len() < ts::MPEG_LENGTH {
        return Err(Refusal::MpegOutputTooSmall);
    }
    if frames.len() <= place {
        let null = ts::null_packet();
        octets::copy(output, 0, &null, 0, ts::MPEG_LENGTH);
        return Ok(Sent {
            place,
            count, // a null packet does not move it
            null: true,
        });
    }
    let carried = write_data(output, frames, place, left, count);
    Ok(Sent {
        place: place + carried,
        count: ts::next_count(count),
        null: false,
    })
}
