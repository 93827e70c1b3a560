// MPEG packets for the modulator (W3; DRFI, section 7). Frames leave the card in packets of 188 bytes: `writer` makes them, one at a time,
// and `reader` gets the frames back, as a modem does. Here is what both know of a packet with frames, and the hand-out.
#![tactic(auto)]

pub mod reader;
pub mod writer;

ghost use Rattle.mpeg.specs.HandOut.{PermitsHandOut};

use flow::Flow;

// The room behind the pointer, in a packet that has one.
pub const POINTED_LENGTH: usize = ts::PAYLOAD_LENGTH - 1;

// The PID that frames travel under, and the two bytes that have it.
const FRAMES_PID: u16 = 0x1FFE;

const FRAMES_PID_HIGH: u8 = (FRAMES_PID / 256) as u8;

const FRAMES_PID_LOW: u8 = (FRAMES_PID % 256) as u8;

// Where a frame says its length, and how much longer it is than it says there.
const FIELD_AT: usize = 2;

const BESIDE_FIELD: usize = 6;

// The longest frame.
const LONGEST: usize = Flow::LONGEST as usize;

// The packet that the channel sends next: the first of its queue, or the null packet where the queue has none. It is a stretch of the slice
// that it came from; an empty one where not even the null packet is whole.
pub fn hand_out<'a>(queue: &'a [u8], null: &'a [u8]) -> &'a [u8]
    ensures { PermitsHandOut queue.entry null.entry result }
{
    if ts::MPEG_LENGTH <= queue.len() {
        return &queue[..ts::MPEG_LENGTH];
    }
    if ts::MPEG_LENGTH <= null.len() {
        return &null[..ts::MPEG_LENGTH];
    }
    &null[..0]
}
