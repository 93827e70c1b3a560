// psptrace < CAPTURE
//
// Lists a capture as psplist does, and behind each entry's line shows what the card did: the frames that the entry delivered, and how the
// open rows and their flows stand afterwards, with the bytes that they hold. A trace may be long, so it is written entry by entry; the
// text of each is what `trace::trace_entry` made.
#![tactic(auto)]

ghost use Rattle.std.specs.Prelude.{◌≤◌, length};
ghost use Rattle.replay.specs.Inside.{Unused};
ghost use Rattle.trace.specs.Inside.{entry_room};

use capture::reader;
use listing::line;
use replay::{Lent, Rooms, Walk};
use std::io::Write;
use text::Text;

fn main(rt: HostRuntime) {
    let mut file = tool::capture_room();
    let read = tool::read_input(&mut rt.stdin(), &mut file);
    let mut room = [0u8; trace::ENTRY_ROOM];
    trace(&mut rt.stdout(), &file[..read], &mut room);
}

// Traces a capture; or says that it is refused.
fn trace(stdout: &mut impl Write, file: &[u8], room: &mut [u8])
    requires { entry_room ≤ length room.old }
{
    let mut text = Text::new(room);
    if let Err(refusal) = reader::check(file) {
        tool::write_refused(&mut text, u32::from(refusal));
        tool::write_output(stdout, text.written());
        return;
    }
    line::write_heading(&mut text);
    tool::write_output(stdout, text.written());
    let mut rooms = Rooms::new();
    trace_entries(stdout, file, &mut rooms.lend(), room);
}

// Traces the entries of a sound file, one after another.
fn trace_entries(stdout: &mut impl Write, file: &[u8], lent: &mut Lent, room: &mut [u8])
    requires { Unused file.now lent.old × (entry_room ≤ length room.old) }
{
    let mut walk = Walk::begin(file);
    for _ in 0..reader::entry_count(file) {
        let mut text = Text::new(room);
        trace::trace_entry(file, &mut walk, lent, &mut text);
        tool::write_output(stdout, text.written());
    }
}
