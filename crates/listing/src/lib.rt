// The listing of a capture: a heading, and a line for each entry that is run (`replay`).
#![tactic(auto)]

pub mod line;

ghost use Rattle.std.specs.Prelude.{◌≡◌, ◌+◌, ◌<◌, ◌≤◌, length};
ghost use Rattle.text.specs.Text.{Wrote, Appended, SameRoom, HasRoom};
ghost use Rattle.capture.specs.File.{head_length, entry_count};
ghost use Rattle.replay.specs.Inside.{StillLent, Stands, GoesOn, Unused};
ghost use Rattle.listing.specs.Listing.{line_at, listing};
ghost use Rattle.listing.specs.Inside.{line_room, listing_room};

use capture::reader;
use replay::{Lent, Walk};
use text::Text;

// Room for the longest listing: the heading, and a line for each of the most entries that a capture has. A line has an index, a space, the
// word, five columns and the end of the line.
const HEADING_ROOM: usize = 37;

pub const LINE_ROOM: usize = text::MOST_DIGITS + 1 + 5 + 5 * (1 + text::MOST_DIGITS) + 1;

pub const LISTING_ROOM: usize = HEADING_ROOM + LINE_ROOM * capture::MOST_ENTRIES;

// Runs an entry and writes its line.
fn list_entry(file: &[u8], walk: &mut Walk, lent: &mut Lent, text: &mut Text)
    requires stands { Stands file.now walk.old lent.old × (walk.old.index < entry_count head_length file.now) }
    requires line_room_in_bounds { HasRoom text.old line_room }
    ensures wrote { Appended text.old text.new (line_at file.now walk.old.index)
        × (text.new.length ≤ text.old.length + line_room) }
    ensures same_room { SameRoom text.old text.new }
    ensures goes_on { GoesOn file.now walk.old walk.new lent.new }
    ensures still_lent { StillLent lent.old lent.new }
{
    let index = walk.index as u32;
    let stepped = walk.step(file, lent);
    line::write_line(text, index, stepped.kind, stepped.answer);
}

// Writes the listing of a sound file: the heading, then a line for each entry.
fn list_entries(file: &[u8], lent: &mut Lent, text: &mut Text)
    requires { Unused file.now lent.old × HasRoom text.old listing_room }
    ensures wrote { Appended text.old text.new (listing file.now) }
    ensures same_room { SameRoom text.old text.new }
{
    let mut walk = Walk::begin(file);
    line::write_heading(text);
    for _ in 0..reader::entry_count(file) {
        list_entry(file, &mut walk, lent, text);
    }
}

// Writes the listing of a capture, and answers how long it is.
pub fn list(file: &[u8], text: &mut [u8]) -> usize
    requires { listing_room ≤ length text.old }
    ensures { Wrote text.old text.new 0 result (listing file.now) }
{
    let mut text = Text::new(text);
    if let Err(refusal) = reader::check(file) {
        tool::write_refused(&mut text, u32::from(refusal));
        return text.length;
    }
    // Three rooms and no `Rooms`: of what a run delivers a listing reads nothing, and these take no stack then.
    let mut holding = replay::holding_room();
    let mut output = replay::output_room();
    let mut lengths = replay::lengths_room();
    let mut lent = Lent {
        holding: &mut holding,
        output: &mut output,
        lengths: &mut lengths,
    };
    list_entries(file, &mut lent, &mut text);
    text.length
}
