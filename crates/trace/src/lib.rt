// The trace of an entry: its line in the listing, and behind it what the card did: the frames that the entry delivered, and the open rows
// with what their flows hold.
#![tactic(auto)]

mod frames;
mod rows;

ghost use Rattle.std.specs.Prelude.{◌<◌};
ghost use Rattle.text.specs.Text.{Appended, SameRoom, HasRoom};
ghost use Rattle.capture.specs.File.{head_length, entry_count};
ghost use Rattle.replay.specs.Inside.{StillLent, Stands, GoesOn};
ghost use Rattle.trace.specs.Trace.{traced_at};
ghost use Rattle.trace.specs.Inside.{entry_room};

use listing::line;
use replay::{Lent, Walk};
use text::Text;

// Room for the trace of any entry: its line, the lines of its frames, and all rows with all flows holding all they can.
pub const ENTRY_ROOM: usize = listing::LINE_ROOM + frames::FRAMES_ROOM + rows::ROWS_ROOM;

// Runs an entry and writes its trace: its line, the frames that it delivered, and the open rows afterwards.
pub fn trace_entry(file: &[u8], walk: &mut Walk, lent: &mut Lent, text: &mut Text)
    requires stands { Stands file.now walk.old lent.old × (walk.old.index < entry_count head_length file.now) }
    requires entry_room_in_bounds { HasRoom text.old entry_room }
    ensures wrote { Appended text.old text.new (traced_at file.now walk.old.index) }
    ensures same_room { SameRoom text.old text.new }
    ensures goes_on { GoesOn file.now walk.old walk.new lent.new }
    ensures still_lent { StillLent lent.old lent.new }
{
    let index = walk.index as u32;
    let stepped = walk.step(file, lent);
    let left: &Lent = lent; // from here on the slices are only read
    let answer = stepped.answer;
    line::write_line(text, index, stepped.kind, answer);
    frames::write_frames(text, left, answer.frames as usize);
    rows::write_rows(text, walk.table, left.holding);
}
