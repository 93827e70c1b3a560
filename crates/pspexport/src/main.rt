// pspexport FROM-MAC TO-MAC FROM-IP TO-IP < CAPTURE > FILE.pcap
//
// Makes a pcap file of a capture, for a packet viewer (document 02, W5): each packet of the capture, with an Ethernet and an IPv4 header
// before it and, where it came over UDP, a UDP header. FROM-MAC and TO-MAC are addresses of Ethernet, as 02:00:00:00:00:01, FROM-IP and
// TO-IP addresses of IPv4, as 192.0.2.1. A capture has no times, so they are 0. Its opens and closes are no packets: how many were left out
// it says on standard error, in two lines.
//
// A capture that is refused (41 to 45) comes to one line on standard error, `refused` and the number, with nothing on standard output.
#![tactic(auto)]

mod counts;

ghost use Rattle.std.specs.Prelude.{◌≡◌, length};
ghost use Rattle.pspexport.specs.Rooms.{output_room};

use pcap::{Addresses, export};
use std::env::Env;
use std::io::{Read, Write};
use tool::address;

// Room for the longest file: 60,000 bytes of a capture, 58 for each of 1,000 entries, and 24, and more.
const OUTPUT_ROOM: usize = 131072;

fn usage(stderr: &mut impl Write) {
    tool::write_error(
        stderr,
        b"usage: pspexport FROM-MAC TO-MAC FROM-IP TO-IP < CAPTURE > FILE.pcap   ",
    );
    tool::write_error(stderr, b"(addresses as 02:00:00:00:00:01 and 192.0.2.1)\n");
}

fn main(rt: HostRuntime) {
    let Some(addresses) = addresses(&rt) else {
        usage(&mut rt.stderr());
        return;
    };
    run(
        &mut rt.stdin(),
        &mut rt.stdout(),
        &mut rt.stderr(),
        addresses,
    );
}

// The addresses that the four arguments say, if they say them.
fn addresses(env: &impl Env) -> Option<Addresses> {
    if tool::argument_count(env) != 5 {
        return None;
    }
    let sender = tool::argument(env, 1, address::mac)?;
    let receiver = tool::argument(env, 2, address::mac)?;
    let source = tool::argument(env, 3, address::ipv4)?;
    let target = tool::argument(env, 4, address::ipv4)?;
    Some(Addresses {
        sender,
        receiver,
        source,
        target,
    })
}

// (A function: its contract holds the program to the length that docs/PROMISES.md or the definitions give.)
fn output_room() -> [u8; OUTPUT_ROOM]
    ensures { output_room ≡ length result }
{
    tool::room(0)
}

// Reads the capture, and writes the file with what was left out, or says why not.
fn run(
    stdin: &mut impl Read,
    stdout: &mut impl Write,
    stderr: &mut impl Write,
    addresses: Addresses,
) {
    let mut file = tool::capture_room();
    let read = tool::read_input(stdin, &mut file);
    let mut output = output_room();
    let exported = match export::export(addresses, &file[..read], &mut output) {
        Ok(exported) => exported,
        Err(why) => {
            tool::refuse(stderr, u32::from(why));
            return;
        }
    };
    let length = exported.length;
    tool::write_output(stdout, &output[..length]);
    let mut text = [0u8; counts::COUNTS_ROOM];
    let written = counts::write_counts(exported, &mut text);
    tool::write_error(stderr, &text[..written]);
}
