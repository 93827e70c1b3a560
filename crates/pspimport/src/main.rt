// pspimport [ID ...] < FILE.pcap > CAPTURE
//
// Makes a capture of a pcap file (document 02, W5): first an entry that opens each session named, as PSP and in the order named, then a
// data entry for each packet of L2TP over IP or over UDP. Each ID is in decimal or in hexadecimal behind 0x. IDs are taken as named, 0, one
// that is named twice and a seventh too: the listing says what becomes of them. Of the other packets it says on standard error how many
// were skipped, in four lines: those that are not IPv4, those with bad lengths, fragments, and those of another protocol or port.
//
// What it refuses comes to one line on standard error, `refused` and the number, with nothing on standard output: 61 a bad file header, 62
// a record that runs past the end, 63 a capture of over 60,000 bytes or over 1,000 entries. A file of more than 4 MiB is not read: that is
// said on standard error too.
#![tactic(auto)]

mod counts;
mod sessions;

ghost use Rattle.std.specs.Prelude.{◌≡◌, ◌+◌, ◌≤◌, length};
ghost use Rattle.capture.specs.File.{longest_file};
ghost use Rattle.pspimport.specs.Rooms.{most_read, most_sessions};

use pcap::import;
use std::io::Write;

// The most bytes that are read: 4 MiB.
const MOST_READ: usize = 4194304;

fn usage(stderr: &mut impl Write) {
    tool::write_error(
        stderr,
        b"usage: pspimport [ID ...] < FILE.pcap > CAPTURE   (each ID in decimal, or in hexadecimal behind 0x, to 4294967295)\n",
    );
}

fn too_long(stderr: &mut impl Write) {
    tool::write_error(
        stderr,
        b"pspimport: more than 4194304 bytes on standard input, and that is all that it has room for\n",
    );
}

fn main(rt: HostRuntime) {
    let mut sessions = sessions_room();
    let Some(count) = sessions::take_sessions(&rt, &mut sessions) else {
        usage(&mut rt.stderr());
        return;
    };
    let mut file = file_room();
    let read = tool::read_input(&mut rt.stdin(), &mut file);
    if MOST_READ < read {
        too_long(&mut rt.stderr());
        return;
    }
    run(
        &mut rt.stdout(),
        &mut rt.stderr(),
        &sessions[..count],
        &file[..read],
    );
}

// (A function: its contract holds the program to the length that docs/PROMISES.md or the definitions give.)
fn sessions_room() -> [u32; sessions::MOST_SESSIONS]
    ensures { most_sessions ≡ length result }
{
    [0; sessions::MOST_SESSIONS]
}

// One byte more than is read, so that a longer file is seen to be too long.
fn file_room() -> [u8; MOST_READ + 1]
    ensures { most_read + 1 ≡ length result }
{
    tool::room(0)
}

// (A function: its contract holds the program to the length that docs/PROMISES.md or the definitions give.)
fn output_room() -> [u8; capture::LONGEST_FILE]
    ensures { longest_file ≡ length result }
{
    tool::room(0)
}

// Makes the capture, and writes it with what was skipped, or says why not.
fn run(stdout: &mut impl Write, stderr: &mut impl Write, sessions: &[u32], file: &[u8])
    requires { length file.now ≤ most_read }
{
    let mut output = output_room();
    let imported = match import::import(sessions, file, &mut output) {
        Ok(imported) => imported,
        Err(why) => {
            tool::refuse(stderr, u32::from(why));
            return;
        }
    };
    let length = imported.length;
    tool::write_output(stdout, &output[..length]);
    let mut text = [0u8; counts::COUNTS_ROOM];
    let written = counts::write_counts(imported, &mut text);
    tool::write_error(stderr, &text[..written]);
}
