// Frames got back from MPEG packets, as a frames file.
ghost use Rattle.std.specs.Prelude.{◌≤◌, length};
ghost use Rattle.text.specs.Text.{Wrote};
ghost use Rattle.outputs.specs.Back.{got_back};
ghost use Rattle.mpegframes.specs.Rooms.{most_read, text_room};

use mpeg::reader;
use text::Text;

// The most bytes that are read.
pub const MOST_READ: usize = 65536;

// Room for the frames file: no more bytes than were read, and no more frames than bytes.
pub const TEXT_ROOM: usize = MOST_READ + frames::LENGTH_BYTES * MOST_READ;

// Writes the frames file of the frames that the packets bring back, or the line of the refusal, and answers how long that is.
pub fn get_back(packets: &[u8], text: &mut [u8]) -> usize
    requires { (length packets.now ≤ most_read) × (text_room ≤ length text.old) }
    ensures { Wrote text.old text.new 0 result (got_back packets.now) }
{
    let mut output: [u8; MOST_READ] = tool::room(0);
    let mut lengths: [u16; MOST_READ] = tool::room(0);
    let back = reader::read(packets, &mut output, &mut lengths);
    if back.code != refusal::NONE {
        let mut text = Text::new(text);
        tool::write_refused(&mut text, back.code);
        return text.length;
    }
    let total = back.bytes;
    let count = back.frames;
    frames::pack(&output[..total], &lengths[..count], text)
}
