// A series of sends, each from where the one before ended, written as a capture: the entry that opens the session, then a data entry for
// each packet.
ghost use Rattle.std.specs.Prelude.{◌≡◌, ◌+◌, ◌*◌, ◌≤◌, [], ◌∷◌, length};
ghost use Rattle.packet.specs.Header.{id_length};
ghost use Rattle.capture.specs.File.{head_length, entry_length, longest_file, most_entries, opening};
ghost use Rattle.capture.specs.Write.{Roomy, Holds};
ghost use Rattle.capture.specs.Adding.{SameSlices};
ghost use Rattle.pspsend.specs.Capture.{told, Makes};
ghost use Rattle.pspsend.specs.Inside.{packet_room, most_bytes, job_of, Unhurried, SentOnce, SentAll};

use capture::{Capture, Kind};
use packet::header;
use refusal::Refusal;
use sender::{Frames, Position};

// Room for the contents of any capture.
pub const CONTENTS_ROOM: usize = capture::HEAD_LENGTH
    + capture::ENTRY_LENGTH * capture::MOST_ENTRIES;

// Room for any packet: the greatest limit and the session ID before it.
const PACKET_ROOM: usize = sender::GREATEST_LIMIT + header::ID_LENGTH;

// How frames are sent: the session, the flow, the first sequence number, and the limit on everything behind the session ID.
#[derive(Clone, Copy)]
pub struct Sending {
    pub session: u32,
    pub flow: usize,
    pub number: u16,
    pub limit: usize,
}

// What was made: how many bytes of the contents and of the bodies are the file.
#[derive(Clone, Copy)]
pub struct Made {
    pub contents: usize,
    pub bodies: usize,
}

// Where a series stands: the next position and number.
#[derive(Clone, Copy)]
struct Series {
    position: Position,
    number: u16,
}

// Adds the entry that opens the session.
fn add_open(capture: &mut Capture, session: u32)
    requires { capture.old.writer ≡ record { entries = 0; bytes = 0 } }
    ensures value { capture.new.writer ≡ record { entries = 1; bytes = id_length } }
    ensures holds { Holds (opening session ∷ []) capture.old.contents.now capture.old.bodies.now
        capture.new.contents.now capture.new.bodies.now (record { entries = 1; bytes = id_length }) }
    ensures same_slices { SameSlices capture.old capture.new }
{
    capture.add(u8::from(Kind::OpenPsp), &session.to_be_bytes());
}

// One send, and an entry for its packet; or why the send is refused, and then the capture is as it was.
fn send_once(
    capture: &mut Capture,
    scratch: &mut [u8],
    sending: Sending,
    frames: Frames,
    series: Series,
) -> Result<Series, Refusal>
    requires { (packet_room ≤ length scratch.old) × Unhurried capture.old.writer }
    ensures sent { SentOnce (job_of sending frames.entry) sending.limit series capture.old capture.new result }
    ensures same_slices { SameSlices capture.old capture.new }
{
    let session = sending.session;
    let flow = sending.flow;
    let limit = sending.limit;
    let number = series.number;
    let position = series.position;
    let next = sender::send_next(session, flow, number, limit, frames, position, scratch)?;
    let length = next.length;
    capture.add(u8::from(Kind::Data), &scratch[..length]);
    Ok(Series {
        position: next.position,
        number: next.number,
    })
}

// Sends until a call is refused; or answers why the first one is. Every call that is not refused sends at least one byte, so with one call
// more than there are bytes that is so.
fn send_all(capture: &mut Capture, sending: Sending, frames: Frames) -> Result<(), Refusal>
    requires { (length frames.bytes.now ≤ most_bytes)
        × (capture.old.writer ≡ record { entries = 1; bytes = id_length }) }
    ensures sent { SentAll (job_of sending frames.entry) sending.limit sending.number capture.old capture.new result }
    ensures same_slices { SameSlices capture.old capture.new }
{
    let mut packet = [0u8; PACKET_ROOM];
    let scratch: &mut [u8] = &mut packet;
    let start = Series {
        position: Position {
            frame: 0,
            offset: 0,
        },
        number: sending.number,
    };
    let mut series = send_once(capture, scratch, sending, frames, start)?;
    for _turn in 0..frames.bytes.len() {
        series = match send_once(capture, scratch, sending, frames, series) {
            Ok(next) => next,
            Err(_) => return Ok(()),
        };
    }
    Ok(())
}

// Makes the capture; or answers why not: the first send's refusal, then a capture's.
pub fn make(
    sending: Sending,
    frames: Frames,
    contents: &mut [u8],
    bodies: &mut [u8],
) -> Result<Made, Refusal>
    requires { Roomy contents.old bodies.old × (length frames.bytes.now ≤ most_bytes) }
    ensures makes { Makes (job_of sending frames.entry) sending.limit sending.number
        contents.new bodies.new (told result) }
    ensures contents_bound { ((told result).contents ≤ head_length + entry_length * most_entries)
        × ((told result).bodies ≤ longest_file) }
{
    let mut capture = Capture {
        contents,
        bodies,
        writer: capture::begin(),
    };
    add_open(&mut capture, sending.session);
    send_all(&mut capture, sending, frames)?;
    capture.finish()?;
    let writer = capture.writer;
    Ok(Made {
        contents: capture::HEAD_LENGTH + capture::ENTRY_LENGTH * writer.entries,
        bodies: writer.bytes,
    })
}
