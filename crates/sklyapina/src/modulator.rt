// What the host program calls on the modulator's side (W3): frames into MPEG packets, MPEG packets back into frames, the null packet, and
// the hand-out. Each is the call of crate `mpeg`, or of `ts`, as it stands, and its contract is that call's; what is handed out is copied.
ghost use Rattle.ts.specs.Packet.{PermitsNullPacket};
ghost use Rattle.mpeg.specs.Write.{PermitsWrite};
ghost use Rattle.mpeg.specs.Read.{PermitsRead};
ghost use Rattle.mpeg.specs.HandOut.{PermitsHandedOut};

use mpeg::reader::ReadBack;
use mpeg::writer::Written;
use mpeg::{reader, writer};
use ts::MpegPacket;

// Writes the next MPEG packet of these frames at the front of the output; or refuses, and then nothing has changed.
#[unsafe(no_mangle)]
pub extern "C" fn sklyapina_mpeg_write(
    frames: &[u8],
    lengths: &[u16],
    place: usize,
    count: u8,
    output: &mut [u8],
) -> Written
    ensures { PermitsWrite
        (record {
          bytes = frames.now;
          lengths = lengths.now;
          place = place;
          count = count;
          output = output.old;
        })
        (record { answer = result; output = output.new }) }
{
    writer::write(frames, lengths, place, count, output)
}

// The frames back from MPEG packets, at the front of the output, and their lengths at the front of the other slice; or refuses, and then
// nothing has changed.
#[unsafe(no_mangle)]
pub extern "C" fn sklyapina_mpeg_read(
    packets: &[u8],
    output: &mut [u8],
    lengths: &mut [u16],
) -> ReadBack
    ensures { PermitsRead
        (record {
          packets = packets.entry.now;
          output = output.old;
          lengths = lengths.old;
        })
        (record { answer = result; output = output.new; lengths = lengths.new }) }
{
    reader::read(packets, output, lengths)
}

// The packet that is sent where nothing waits.
#[unsafe(no_mangle)]
pub extern "C" fn sklyapina_mpeg_null() -> MpegPacket
    ensures { PermitsNullPacket result.bytes }
{
    let bytes = ts::null_packet();
    MpegPacket { bytes }
}

// The packet that a channel sends next: a copy of the first of its queue, or the null packet where the queue has none.
#[unsafe(no_mangle)]
pub extern "C" fn sklyapina_mpeg_hand_out(queue: &[u8]) -> MpegPacket
    ensures { PermitsHandedOut queue.now result.bytes }
{
    let null = ts::null_packet();
    let mut bytes = [0; ts::MPEG_LENGTH];
    let packet = mpeg::hand_out(queue, &null);
    octets::copy(&mut bytes, 0, packet, 0, ts::MPEG_LENGTH);
    MpegPacket { bytes }
}
