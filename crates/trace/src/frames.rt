// The frames that an entry delivered.
ghost use Rattle.std.specs.Prelude.{◌≡◌, map, ◌+◌, ◌*◌, ◌≤◌, length};
ghost use Rattle.octets.specs.Stretch.{joined};
ghost use Rattle.card.specs.Receive.{frames_found};
ghost use Rattle.text.specs.Text.{Appended, SameRoom, HasRoom};
ghost use Rattle.trace.specs.Trace.{frame_line};
ghost use Rattle.replay.specs.Inside.{Findable};
ghost use Rattle.trace.specs.Inside.{frame_room, frames_room};

use replay::Lent;
use text::Text;

// Room for the lines of a call's frames: in each a word, and the end of the line; and two digits for each byte.
pub const FRAMES_ROOM: usize = 8 * card::MOST_FRAMES + 2 * card::MOST_BYTES;

// Writes the line of one frame.
fn write_frame(text: &mut Text, frame: &[u8])
    requires { HasRoom text.old (frame_room + 2 * length frame.now) }
    ensures wrote { Appended text.old text.new (frame_line frame.now) }
    ensures same_room { SameRoom text.old text.new }
    ensures value { text.new.length ≡ text.old.length + frame_room + 2 * length frame.now }
{
    text.words(b" frame ");
    text.hex(frame);
    text.byte(b'\n');
}

// Writes a line for each of the frames that stand back to back in the output.
pub fn write_frames(text: &mut Text, lent: &Lent, count: usize)
    requires { Findable lent.now.output.now lent.now.lengths.now count × HasRoom text.old frames_room }
    ensures wrote { Appended text.old text.new
        (joined (map frame_line (frames_found count lent.now.lengths.now lent.now.output.now))) }
    ensures same_room { SameRoom text.old text.new }
    ensures upper_bound { text.new.length ≤ text.old.length + frames_room }
{
    let mut from: usize = 0;
    for &length in &lent.lengths[..count] {
        let size = usize::from(length);
        write_frame(text, &lent.output[from..from + size]);
        from += size;
    }
}
