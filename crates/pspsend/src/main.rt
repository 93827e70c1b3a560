// pspsend SESSION FLOW NUMBER L < FRAMES > CAPTURE
//
// Makes a capture for a person: reads frames on standard input, sends them by `sender::send_next` again and again, and writes a capture
// file with one entry that opens the session as PSP and a data entry for each packet. SESSION is the session ID, FLOW the flow, NUMBER the
// first sequence number and L the limit on everything behind the session ID, all in decimal or in hexadecimal behind 0x. A frames file has
// for each frame its length, in two bytes, most significant first, and then its bytes.
//
// What it cannot do it refuses by one line on standard error, `refused` and document 01's number, and writes nothing on standard output:
// 31 to 33 and 35 are the sender's (a frames file that is cut short has lengths that do not add up to its bytes, 33; an empty one leaves
// nothing to send, 35), 41 and 43 a capture's (over 60,000 bytes, over 1,000 entries).
#![tactic(auto)]

mod input;
mod series;

ghost use Rattle.std.specs.Prelude.{◌≡◌, ◌≤◌, length};
ghost use Rattle.pspsend.specs.Inside.{most_bytes};

use sender::Frames;
use series::Sending;
use std::env::Env;
use std::io::{Read, Write};
use tool::number;

// Room for the longest frames file that is not refused, 127 frames of 2,048 bytes with their lengths, and more: a longer one is refused.
const FILE_ROOM: usize = 262144;

fn usage(stderr: &mut impl Write) {
    tool::write_error(
        stderr,
        b"usage: pspsend SESSION FLOW NUMBER L < FRAMES > CAPTURE   ",
    );
    tool::write_error(
        stderr,
        b"(numbers in decimal, or in hexadecimal behind 0x; SESSION to 4294967295, NUMBER to 65535)\n",
    );
}

fn main(rt: HostRuntime) {
    let Some(sending) = sending(&rt) else {
        usage(&mut rt.stderr());
        return;
    };
    run(&mut rt.stdin(), &mut rt.stdout(), &mut rt.stderr(), sending);
}

// What the four arguments say, if each says a number that is not too great.
fn sending(env: &impl Env) -> Option<Sending> {
    if tool::argument_count(env) != 5 {
        return None;
    }
    let session = tool::argument(env, 1, number::number)?;
    let flow = tool::argument(env, 2, number::number)?;
    let number = tool::argument(env, 3, number::number)?;
    let limit = tool::argument(env, 4, number::number)?;
    Some(Sending {
        session: u32::try_from(session).ok()?,
        flow,
        number: u16::try_from(number).ok()?,
        limit,
    })
}

// (A function: its contract holds the program to the length that docs/PROMISES.md or the definitions give.)
fn file_room() -> [u8; FILE_ROOM]
    ensures { most_bytes ≡ length result }
{
    tool::room(0)
}

// Reads the frames and sends them.
fn run(stdin: &mut impl Read, stdout: &mut impl Write, stderr: &mut impl Write, sending: Sending) {
    let mut file = file_room();
    let read = tool::read_input(stdin, &mut file);
    let mut bytes = file_room();
    let mut lengths: [u16; input::MOST] = tool::room(0);
    let taken = input::take_frames(&file[..read], &mut bytes, &mut lengths);
    let count = taken.count;
    let total = taken.bytes;
    let frames = Frames {
        bytes: &bytes[..total],
        lengths: &lengths[..count],
    };
    send(stdout, stderr, sending, frames);
}

// Makes the capture, and writes it or says why not.
fn send(stdout: &mut impl Write, stderr: &mut impl Write, sending: Sending, frames: Frames)
    requires { length frames.bytes.now ≤ most_bytes }
{
    let mut contents: [u8; series::CONTENTS_ROOM] = tool::room(0);
    let mut bodies: [u8; capture::LONGEST_FILE] = tool::room(0);
    match series::make(sending, frames, &mut contents, &mut bodies) {
        Ok(made) => {
            let front = made.contents;
            let behind = made.bodies;
            tool::write_output(stdout, &contents[..front]);
            tool::write_output(stdout, &bodies[..behind]);
        }
        Err(refusal) => tool::refuse(stderr, u32::from(refusal)),
    }
}
