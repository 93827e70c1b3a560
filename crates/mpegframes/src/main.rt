// mpegframes < FILE.ts > FRAMES
//
// Gets the frames back from MPEG packets that a writer wrote from a frame's start on, as a modem does (W3), and writes them as a frames
// file: for each frame its length, in two bytes, most significant first, and then its bytes. `pspsend` takes such files. Null packets are
// skipped, and an unfinished last frame is not handed out. Packets that no run of the writer gives come to one line, `refused 53`.
//
// A file of more than 65,536 bytes is not read: that is said on standard error, and nothing is written on standard output.
#![tactic(auto)]

mod back;

ghost use Rattle.std.specs.Prelude.{◌≡◌, ◌+◌, length};
ghost use Rattle.mpegframes.specs.Rooms.{most_read};

use std::io::Write;

fn too_long(stderr: &mut impl Write) {
    tool::write_error(
        stderr,
        b"mpegframes: more than 65536 bytes on standard input, and that is all that it has room for\n",
    );
}

fn main(rt: HostRuntime) {
    let mut file = file_room();
    let read = tool::read_input(&mut rt.stdin(), &mut file);
    if back::MOST_READ < read {
        too_long(&mut rt.stderr());
        return;
    }
    let mut text: [u8; back::TEXT_ROOM] = tool::room(0);
    let length = back::get_back(&file[..read], &mut text);
    tool::write_output(&mut rt.stdout(), &text[..length]);
}

// One byte more than is read, so that a longer file is seen to be too long.
// (A function: its contract holds the program to the length that docs/PROMISES.md or the definitions give.)
fn file_room() -> [u8; back::MOST_READ + 1]
    ensures { most_read + 1 ≡ length result }
{
    tool::room(0)
}
