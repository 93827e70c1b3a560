// The join rule (document 01, "Opening, closing, listening"): what becomes of the segments of an accepted PSP packet with a number. Frames
// go to the output, their lengths to a slice of their own, and what is left without its end to the start of the flow's place.
//
// The place is written at most once a call, by the last segment: every segment before it has E, or the packet would have been refused
// (11). A frame that is delivered or dropped leaves the holding slice as it was.
#![tactic(auto)]

ghost use Rattle.std.specs.Prelude.{◌≡◌, ◌+◌, ◌*◌, ◌%◌, ◌<◌, ◌≤◌, cond, ◌++◌, length};
ghost use Rattle.refusal.specs.Refusal.{first};
ghost use Rattle.octets.specs.Stretch.{part};
ghost use Rattle.flow.specs.Flow.{longest};
ghost use Rattle.packet.specs.Header.{id_length, header_length, longest_packet};
ghost use Rattle.packet.specs.Segments.{b_bit, e_bit, begins_in, ends_in, segments};
ghost use Rattle.packet.specs.Psp.{segment_refusals};
ghost use Rattle.join.specs.Join.{settled, fate, psp_fate};
ghost use Rattle.join.specs.Slices.{with_output, SameSlices, most_frames, most_bytes};
ghost use Rattle.join.specs.Inside.{nothing_yet, begun, Placed, Roomy, Fits, Within, Ran};

use packet::header;
use packet::psp::{self, SegmentTable};

// What the entry of a whole frame of no bytes would be.
const B_AND_E: u16 = psp::B_BIT + psp::E_BIT;

// Where a call puts what comes out: the frames back to back, and their lengths.
#[derive(Drop)]
pub struct Output<'a> {
    pub bytes: &'a mut [u8],
    pub lengths: &'a mut [u16],
}

// What a call has come to: how many bytes the flow holds now, and the frames and bytes delivered and the bytes dropped so far.
#[derive(Clone, Copy, Default)]
pub struct Tally {
    pub held: usize,
    pub frames: usize,
    pub bytes: usize,
    pub dropped: usize,
}

impl Tally {
    // So many bytes dropped, what was held among them.
    pub fn dropping(self, lost: usize) -> Tally
        requires { self.dropped + lost ≤ most_bytes }
        ensures { result ≡ record { held = 0; frames = self.frames; bytes = self.bytes; dropped = self.dropped + lost } }
    {
        Tally {
            held: 0,
            dropped: self.dropped + lost,
            ..self
        }
    }

    // One frame of so many bytes delivered, what was held among them.
    pub fn delivering(self, size: usize) -> Tally
        requires { (self.bytes + size ≤ most_bytes) × (self.frames < most_frames) }
        ensures { result ≡ record { held = 0; frames = self.frames + 1; bytes = self.bytes + size; dropped = self.dropped } }
    {
        Tally {
            held: 0,
            frames: self.frames + 1,
            bytes: self.bytes + size,
            ..self
        }
    }
}

// A flow that holds so many bytes, before the first segment: a gap above 0 drops them, so nothing joins across a gap.
fn begin(gap: u16, held: usize) -> Tally
    requires { held ≤ most_bytes }
    ensures { result ≡ begun gap held }
{
    if gap > 0 {
        return Tally::default().dropping(held);
    }
    Tally {
        held,
        ..Tally::default()
    }
}

// What a segment makes of what is held before it joins: with B it drops it.
fn give_way(begins: bool, tally: Tally) -> Tally
    requires { tally.held + tally.bytes + tally.dropped ≤ most_bytes }
    ensures { result ≡ cond begins
        (record { held = 0; frames = tally.frames; bytes = tally.bytes; dropped = tally.dropped + tally.held }) tally }
{
    if begins {
        return tally.dropping(tally.held);
    }
    tally
}

// Joins the bytes of a segment to what is held, and settles it: too long, it is dropped; with E it is delivered; else it is held.
//
// Here and below the holding slice comes whole, with the place of the flow in it, and not the place as a slice of its own: the definitions
// say of the whole slice what a call leaves in it (`put`, at the place), and of its own slice that would have to be said a second time.
fn settle(
    holding: &mut [u8],
    place: usize,
    output: &mut Output,
    body: &[u8],
    ends: bool,
    most: u16,
    tally: Tally,
) -> Tally
    requires roomy { Roomy place (with_output holding.old output.old) }
    requires fits { (most ≤ longest) × Fits (length body.now) tally }
    ensures placed { Placed (settled most ends (part holding.old place tally.held ++ body.now))
        place tally (with_output holding.old output.old) result (with_output holding.new output.new) }
    ensures same_slices { SameSlices output.old output.new }
{
    let joined = tally.held + body.len();
    let too_long = (most as usize) < joined;
    if too_long {
        return tally.dropping(joined); // nor is its tail held as a frame of its own
    }
    if ends {
        octets::copy(output.bytes, tally.bytes, holding, place, tally.held);
        octets::copy(output.bytes, tally.bytes + tally.held, body, 0, body.len());
        output.lengths[tally.frames] = joined as u16;
        return tally.delivering(joined);
    }
    octets::copy(holding, place + tally.held, body, 0, body.len());
    Tally {
        held: joined,
        ..tally
    }
}

// One segment: its bytes, and its entry, which has its marks. With B it drops what is held; without B it is dropped where nothing is held.
fn place_segment(
    holding: &mut [u8],
    place: usize,
    output: &mut Output,
    body: &[u8],
    entry: u16,
    most: u16,
    tally: Tally,
) -> Tally
    requires roomy { Roomy place (with_output holding.old output.old) }
    requires fits { (most ≤ longest) × Fits (length body.now) tally }
    ensures placed { Placed (fate most (part holding.old place tally.held)
        (record { begins = begins_in entry; ends = ends_in entry; body = body.now }))
        place tally (with_output holding.old output.old) result (with_output holding.new output.new) }
    ensures same_slices { SameSlices output.old output.new }
{
    let begins = psp::begins(entry);
    let before = give_way(begins, tally);
    if !begins & (before.held == 0) {
        return before.dropping(body.len());
    }
    settle(holding, place, output, body, psp::ends(entry), most, before)
}

// The length of a whole frame, by its entry: how far the entry lies above B and E, modulo 65,536. Of an entry that lacks one of them this
// is no length, but 16,384 or more. So one comparison tells whether a frame is whole and not too long.
fn whole_length(entry: u16) -> u16
    ensures { (result + (b_bit + e_bit)) % 65536 ≡ entry }
{
    entry.wrapping_sub(B_AND_E)
}

// Whole frames one behind the other: how many, and how long together.
#[derive(Clone, Copy)]
struct Run {
    frames: usize,
    bytes: usize,
}

// Writes the lengths of the whole frames from segment k on, up to the first segment of another sort, to `lengths` from place `at` on.
// (`at` and `k` are places in the whole slice and the whole table: `Ran` counts from there.)
fn write_lengths(
    lengths: &mut [u16],
    at: usize,
    table: SegmentTable,
    k: usize,
    count: usize,
    most: u16,
) -> Run
    requires entries { header_length + table.width * count ≤ length table.sub.bytes.now }
    requires most_le_longest { (most ≤ longest) × (k ≤ count) × (count ≤ most_frames) × (at + count ≤ length lengths.old + k) }
    ensures ran { Ran most table.entry.width table.entry.sub.bytes.now k at lengths.old lengths.new result.frames result.bytes }
    ensures frames_bound { k + result.frames ≤ count }
{
    let mut bytes: usize = 0;
    for frames in 0..count - k {
        let size = whole_length(table.entry(k + frames));
        if most < size {
            return Run { frames, bytes };
        }
        lengths[at + frames] = size;
        bytes += size as usize;
    }
    Run {
        frames: count - k,
        bytes,
    }
}

// All segments of a packet that 9 to 11 do not refuse, in order, on a flow that holds so many bytes. Behind a segment nothing is held but
// at the end, and whole frames lie in the packet as they must in the output: so those behind it are copied together.
pub fn walk(
    holding: &mut [u8],
    place: usize,
    output: &mut Output,
    table: SegmentTable,
    most: u16,
    gap: u16,
    held: usize,
) -> Tally
    requires roomy { Roomy place (with_output holding.old output.old) }
    requires small { (held ≤ most) × (most ≤ longest) × (id_length + length table.sub.bytes.now ≤ longest_packet) }
    requires passed { first (segment_refusals table.width table.sub.bytes.now) ≡ 0 }
    ensures placed { Placed (psp_fate most gap (part holding.old place held) (segments table.entry.width table.entry.sub.bytes.now))
        place nothing_yet (with_output holding.old output.old) result (with_output holding.new output.new) }
    ensures within { Within result }
    ensures same_slices { SameSlices output.old output.new }
{
    let count = table.sub.segment_count();
    let mut tally = begin(gap, held);
    let mut from = header::HEADER_LENGTH + table.width * count;
    let mut k: usize = 0;
    // No `for`: a turn goes on behind the whole frames that it has placed together.
    while k < count {
        let entry = table.entry(k);
        let behind = from + psp::length_of(entry);
        let body = &table.sub.bytes[from..behind];
        let joined = place_segment(holding, place, output, body, entry, most, tally);
        let next = k + 1;
        let run = write_lengths(output.lengths, joined.frames, table, next, count, most);
        octets::copy(
            output.bytes,
            joined.bytes,
            table.sub.bytes,
            behind,
            run.bytes,
        );
        tally = Tally {
            frames: joined.frames + run.frames,
            bytes: joined.bytes + run.bytes,
            ..joined
        };
        from = behind + run.bytes;
        k = next + run.frames;
    }
    tally
}
