// A PSP sender (document 01, "The sender"): one call, one packet. It is given frames, back to back with their lengths, and a position in
// them; it cuts segments from there on until the packet is full, and answers the position behind them, from which the next call goes on.
//
// The entries of the segments are written while the frames are cut. The bodies need no cutting: they are one stretch of the frames, and
// one copy writes them once it is known how many entries stand before them.
#![tactic(auto)]

ghost use Rattle.std.specs.Prelude.{◌≡◌, ◌+◌, ◌*◌, ◌<◌, ◌≤◌, ◌&&◌, ◌++◌, ltb, leb, length};
ghost use Rattle.refusal.specs.Refusal.{first};
ghost use Rattle.refusal.specs.Number.{code_of};
ghost use Rattle.octets.specs.Stretch.{put};
ghost use Rattle.flow.specs.Flow.{longest, top_flow};
ghost use Rattle.packet.specs.Header.{shortest_packet};
ghost use Rattle.packet.specs.Segments.{entry_width, length_values};
ghost use Rattle.sender.specs.Cut.{index_of, least_room};
ghost use Rattle.sender.specs.Packet.{worth as bitWorth, entry_number, header_of};
ghost use Rattle.sender.specs.Send.{most_frames, most_segments, greatest_limit, bad_size, bad_frames, outside, early_refusals};
ghost use Rattle.sender.specs.Send.{later_refusals, told, PermitsSend};
ghost use Rattle.sender.specs.Inside.{surveyed, Placeable, position_after, placed_next, with_entry, Ready, cut_of, Written};

use flow::Flow;
use packet::{header, psp};
use refusal::Refusal;
use std::cmp::min;

// The most frames that a call takes, and the most segments of a packet: its count has 7 bits.
pub const MOST_FRAMES: usize = 127;

pub const MOST_SEGMENTS: usize = 127;

// The bounds of the limit on everything behind the session ID.
pub const LEAST_LIMIT: usize = 16;

pub const GREATEST_LIMIT: usize = 4096;

// Room for an entry and one byte: with less, no segment is placed.
const LEAST_ROOM: usize = psp::ENTRY_WIDTH + 1;

// Where the entries start: behind the session ID and the header.
const ENTRIES_AT: usize = header::ID_LENGTH + header::HEADER_LENGTH;

// What a call is given to send: the frames' bytes, back to back, and the length of each.
#[derive(Clone, Copy)]
pub struct Frames<'a> {
    pub bytes: &'a [u8],
    pub lengths: &'a [u16],
}

// The next byte to send is byte `offset` of frame `frame`, both counted from 0. Behind the last frame it is (count, 0).
#[repr(C)] // it crosses to the host program as it is
#[derive(Clone, Copy)]
pub struct Position {
    pub frame: usize,
    pub offset: usize,
}

// What a call answers: 0 or the refusal's number, the packet's length, the next position and the next sequence number. Refused: length
// 0, and the position and the number that were given.
#[repr(C)] // it crosses to the host program as it is
#[derive(Clone, Copy)]
pub struct Sent {
    pub code: u32,
    pub length: usize,
    pub position: Position,
    pub number: u16,
}

// What a call that is not refused answers: the same but for the number of a refusal.
#[derive(Clone, Copy)]
pub struct Next {
    pub length: usize,
    pub position: Position,
    pub number: u16,
}

// How far the cut has come: the room that is left, the position, and the segments placed with their bytes.
#[derive(Clone, Copy)]
struct Progress {
    room: usize,
    position: Position,
    count: usize,
    bytes: usize,
}

// Writes the next packet of these frames for a flow of a session at the front of the output; or refuses, and then nothing has changed. The
// frames come as two slices and the answer is a plain struct, since they cross to C.
pub fn send(
    session: u32,
    flow: usize,
    number: u16,
    limit: usize,
    frames: &[u8],
    lengths: &[u16],
    position: Position,
    output: &mut [u8],
) -> Sent
    ensures { PermitsSend
        (record {
          session = session;
          flow = flow;
          number = number;
          limit = limit;
          bytes = frames.now;
          lengths = lengths.now;
          position = position;
          output = output.old;
        })
        (record { answer = result; output = output.new }) }
{
    let given = Frames {
        bytes: frames,
        lengths,
    };
    match send_next(session, flow, number, limit, given, position, output) {
        Ok(next) => Sent {
            code: refusal::NONE,
            length: next.length,
            position: next.position,
            number: next.number,
        },
        Err(refused) => Sent {
            code: u32::from(refused),
            length: 0,
            position,
            number,
        },
    }
}

// The same, for a caller that takes a Result.
pub fn send_next(
    session: u32,
    flow: usize,
    number: u16,
    limit: usize,
    frames: Frames,
    position: Position,
    output: &mut [u8],
) -> Result<Next, Refusal>
    ensures { PermitsSend
        (record {
          session = session;
          flow = flow;
          number = number;
          limit = limit;
          bytes = frames.entry.bytes.now;
          lengths = frames.entry.lengths.now;
          position = position;
          output = output.old;
        })
        (record { answer = told position number result; output = output.new }) }
{
    refuse(session, flow, limit, frames, position, output.len())?;
    let room = limit - header::HEADER_LENGTH;
    let cut = write_segments(output, frames, room, position);
    write_header(output, session, flow, cut.count, number);
    Ok(Next {
        length: ENTRIES_AT + psp::ENTRY_WIDTH * cut.count + cut.bytes,
        position: cut.position,
        number: flow::number_after(number),
    })
}

// Whether this is no frame's length.
fn bad_length(length: usize) -> bool
    ensures { result ≡ bad_size length }
{
    (length == 0) | (usize::from(Flow::LONGEST) < length)
}

impl<'a> Frames<'a> {
    // How long these frames are together; or None, where one of the lengths is no frame's. (It looks at all lengths, whatever they are: a
    // loop without a way out is made into vector instructions.)
    fn survey(self) -> Option<usize>
        requires { length self.lengths.now ≤ most_frames }
        ensures { result ≡ surveyed self.entry.lengths.now }
    {
        let mut total = 0;
        let mut bad = false;
        for length in self.lengths {
            let length = usize::from(*length);
            total += length;
            bad |= bad_length(length);
        }
        if bad { None } else { Some(total) }
    }

    // Refusal 33's condition: too many frames, a length that is none, or lengths that do not add up to the bytes.
    fn are_unsound(self) -> bool
        ensures { result ≡ bad_frames (length self.entry.bytes.now) self.entry.lengths.now }
    {
        self.lengths.len() > MOST_FRAMES || self.survey() != Some(self.bytes.len())
    }

    // Refusal 34's condition: a frame above the count, an offset that its frame has not, or an offset behind the last frame.
    fn is_outside(self, position: Position) -> bool
        ensures { result ≡ outside self.entry.lengths.now position }
    {
        let count = self.lengths.len();
        let frame = position.frame;
        if frame < count {
            return usize::from(self.lengths[frame]) <= position.offset;
        }
        (count < frame) | (position.offset != 0)
    }

    // Where the byte at a position stands among the bytes of all frames.
    fn index_of(self, position: Position) -> usize
        requires { (position.frame ≤ length self.lengths.now) × (length self.lengths.now ≤ most_frames)
            × (position.offset ≤ longest) }
        ensures { result ≡ index_of self.entry.lengths.now position }
    {
        let mut start = 0;
        for length in &self.lengths[..position.frame] {
            start += usize::from(*length);
        }
        start + position.offset
    }
}

// Refusals 31 to 33, which look neither at the position nor at the output.
fn refuse_early(session: u32, flow: usize, limit: usize, frames: Frames) -> Result<(), Refusal>
    ensures { code_of result ≡ first (early_refusals session flow limit (length frames.entry.bytes.now) frames.entry.lengths.now) }
{
    if (session == 0) | (Flow::TOP < flow) {
        return Err(Refusal::AddressOutside);
    }
    if (limit < LEAST_LIMIT) | (GREATEST_LIMIT < limit) {
        return Err(Refusal::LimitOutside);
    }
    if frames.are_unsound() {
        return Err(Refusal::FramesUnsound);
    }
    Ok(())
}

// Refusals 34 to 36, of the position and the output. The output is to have room for any packet within the limit.
fn refuse_later(
    limit: usize,
    frames: Frames,
    position: Position,
    space: usize,
) -> Result<(), Refusal>
    requires { limit ≤ greatest_limit }
    ensures { code_of result ≡ first (later_refusals limit frames.entry.lengths.now position space) }
{
    if frames.is_outside(position) {
        return Err(Refusal::PositionOutside);
    }
    if position.frame == frames.lengths.len() {
        return Err(Refusal::NothingLeft);
    }
    if space < limit + header::ID_LENGTH {
        return Err(Refusal::OutputTooSmall);
    }
    Ok(())
}

// Refusals 31 to 36 in order.
fn refuse(
    session: u32,
    flow: usize,
    limit: usize,
    frames: Frames,
    position: Position,
    space: usize,
) -> Result<(), Refusal>
    ensures { code_of result ≡ first (early_refusals session flow limit (length frames.entry.bytes.now) frames.entry.lengths.now
        ++ later_refusals limit frames.entry.lengths.now position space) }
{
    refuse_early(session, flow, limit, frames)?;
    refuse_later(limit, frames, position, space)
}

// What a bit is worth that is set or not.
// (`u16::from(set) * value` is no plainer, and the definition's `worth` reads as this does.)
fn worth(set: bool, value: u16) -> u16
    ensures { (result ≡ bitWorth set value) × (result ≤ value) }
{
    if set { value } else { 0 }
}

// What an entry says, as a number: B, E and the length.
fn entry_number(begins: bool, ends: bool, size: usize) -> u16
    requires { size < length_values }
    ensures { result ≡ entry_number begins ends size }
{
    let marks = worth(begins, psp::B_BIT) + worth(ends, psp::E_BIT);
    marks + size as u16
}

// The position behind the next `size` bytes of a frame, which end it or do not.
fn position_after(position: Position, size: usize, ends: bool) -> Position
    requires { (position.frame < most_frames) × (position.offset + size ≤ longest) }
    ensures { result ≡ position_after position size ends }
{
    if ends {
        return Position {
            frame: position.frame + 1,
            offset: 0,
        };
    }
    Position {
        frame: position.frame,
        offset: position.offset + size,
    }
}

// Places the next segment: writes its entry, and counts its bytes. Its body is written later.
fn place(output: &mut [u8], frames: Frames, progress: Progress) -> Progress
    requires { Placeable output.old frames.lengths.now progress }
    ensures value { result ≡ placed_next frames.entry.lengths.now progress }
    ensures output_after { output.new ≡ with_entry output.old frames.entry.lengths.now progress }
{
    let position = progress.position;
    let left = usize::from(frames.lengths[position.frame]) - position.offset;
    let size = min(left, progress.room - psp::ENTRY_WIDTH);
    let begins = position.offset == 0;
    let ends = size == left;
    let at = ENTRIES_AT + psp::ENTRY_WIDTH * progress.count;
    octets::write_u16(output, at, entry_number(begins, ends, size));
    Progress {
        room: progress.room - (psp::ENTRY_WIDTH + size),
        position: position_after(position, size, ends),
        count: progress.count + 1,
        bytes: progress.bytes + size,
    }
}

// Cuts segments into so much room, from a position on: writes their entries, and behind them their bodies.
fn write_segments(output: &mut [u8], frames: Frames, room: usize, position: Position) -> Progress
    requires { Ready (length frames.bytes.now) frames.lengths.now position room (length output.old) }
    ensures { Written (cut_of frames.entry.bytes.now frames.entry.lengths.now room position)
        output.old output.new room result }
{
    let mut progress = Progress {
        room,
        position,
        count: 0,
        bytes: 0,
    };
    // No `for`: how many segments fit is known when the room is used up.
    while goes_on(frames, progress) {
        progress = place(output, frames, progress);
    }
    let bodies = ENTRIES_AT + psp::ENTRY_WIDTH * progress.count;
    let from = frames.index_of(position);
    octets::copy(output, bodies, frames.bytes, from, progress.bytes);
    progress
}

// Whether another segment is placed: fewer than 127 are, frames remain, and so does room for an entry and a byte.
fn goes_on(frames: Frames, progress: Progress) -> bool
    ensures { result ≡ (ltb progress.count most_segments
        && (ltb progress.position.frame (length frames.entry.lengths.now) && leb (least_room entry_width) progress.room)) }
{
    let count = frames.lengths.len();
    let frame = progress.position.frame;
    (progress.count < MOST_SEGMENTS) & ((frame < count) & (LEAST_ROOM <= progress.room))
}

// Writes the session ID and the header at the front of a packet: S set, V, H and X and the reserved bit 0.
fn write_header(output: &mut [u8], session: u32, flow: usize, count: usize, number: u16)
    requires { (shortest_packet ≤ length output.old) × (flow ≤ top_flow) × (count ≤ most_segments) }
    ensures { output.new ≡ put output.old 0 (header_of session flow count number) }
{
    octets::write_u32(output, 0, session);
    output[header::ID_LENGTH] = header::S_BIT + flow as u8;
    output[header::ID_LENGTH + 1] = count as u8;
    octets::write_u16(output, header::ID_LENGTH + 2, number);
}
