// What the card's host program, in C, can call. A static library exports the functions of one crate alone, so every export stands here, or
// in `modulator`. Each is the call of a crate below, as it stands, and its contract is that call's, said of the number where the call
// answers a `Result`; include/sklyapina.h is its other side. Nothing checks the one against the other but the tests from C. Two calls
// below answer with a reference, which cannot cross to C: what they refer to crosses as a copy, by `sklyapina_segment_copy` and
// `sklyapina_mpeg_hand_out`.
//
// A call is given all that it may touch and keeps none of it: there is no state here, no heap, and no pointer outlives its call.
#![tactic(auto)]

pub mod modulator;

ghost use Rattle.packet.specs.Header.{packet_by};
ghost use Rattle.packet.specs.Check.{PermitsCheck, PermitsSegmentCause, PermitsSegmentExtent, PermitsSegmentCopy};
ghost use Rattle.table.specs.Calls.{PermitsOpenByNumber, PermitsClose};
ghost use Rattle.join.specs.Slices.{as_slices};
ghost use Rattle.card.specs.Receive.{PermitsReceive};
ghost use Rattle.sender.specs.Send.{PermitsSend};

use card::Received;
use packet::Extent;
use sender::{Position, Sent};
use table::{Closing, Opening, Table};

// Opens a session of this kind (1 PSP, 2 D-MPT); or refuses, and then the table comes back as it was given.
#[unsafe(no_mangle)]
pub extern "C" fn sklyapina_open(table: Table, id: u32, kind: u32) -> Opening
    ensures { PermitsOpenByNumber table id kind result }
{
    table::open_by_number(table, id, kind)
}

// Closes a session, and says how many held bytes are dropped with it; or refuses, and then the table comes back as it was given.
#[unsafe(no_mangle)]
pub extern "C" fn sklyapina_close(table: Table, id: u32) -> Closing
    ensures { PermitsClose table id result }
{
    table::close(table, id)
}

// The packet check: the first refusal that a packet of this kind (1 PSP, 2 D-MPT), by this transport (1 IP, 2 UDP), meets whatever the
// table, or 0.
#[unsafe(no_mangle)]
pub extern "C" fn sklyapina_check(kind: u32, transport: u32, packet: &[u8]) -> u32
    ensures { PermitsCheck kind (packet_by transport packet.now) result }
{
    refusal::code(packet::check(kind, transport, packet))
}

// Why segment k of a packet is refused, or 0. Only PSP packets have segments.
#[unsafe(no_mangle)]
pub extern "C" fn sklyapina_segment_cause(kind: u32, transport: u32, packet: &[u8], k: usize) -> u32
    ensures { PermitsSegmentCause kind (packet_by transport packet.now) k result }
{
    refusal::code(packet::segment_cause(kind, transport, packet, k))
}

// Where segment k of a packet stands in it, counted from its first byte; place and length 0 where it is refused.
#[unsafe(no_mangle)]
pub extern "C" fn sklyapina_segment(kind: u32, transport: u32, packet: &[u8], k: usize) -> Extent
    ensures { PermitsSegmentExtent kind (packet_by transport packet.now) k result }
{
    packet::segment_extent(kind, transport, packet, k).unwrap_or(Extent { start: 0, size: 0 })
}

// Copies segment k of a packet to the front of the output, as much of it as there is room for, and says how long it is; 0, and nothing is
// copied, where it is refused.
#[unsafe(no_mangle)]
pub extern "C" fn sklyapina_segment_copy(
    kind: u32,
    transport: u32,
    packet: &[u8],
    k: usize,
    output: &mut [u8],
) -> usize
    ensures { PermitsSegmentCopy kind (packet_by transport packet.now) k output.old
        (record { answer = result; output = output.new }) }
{
    let segment = packet::segment(kind, transport, packet, k);
    let length = segment.len();
    let room = output.len();
    if room < length {
        octets::copy(output, 0, segment, 0, room);
        return length;
    }
    octets::copy(output, 0, segment, 0, length);
    length
}

// Takes a packet that came by this transport (1 IP, 2 UDP): delivers the frames that it completes, and holds what it begins; or refuses it,
// and then nothing has changed.
#[unsafe(no_mangle)]
pub extern "C" fn sklyapina_receive(
    table: Table,
    transport: u32,
    holding: &mut [u8],
    packet: &[u8],
    output: &mut [u8],
    lengths: &mut [u16],
) -> Received
    ensures { PermitsReceive table (packet_by transport packet.now)
        (as_slices holding.old output.old lengths.old)
        (record { answer = result; slices = as_slices holding.new output.new lengths.new }) }
{
    card::receive(table, transport, holding, packet, output, lengths)
}

// Writes the next packet of these frames for a flow of a session at the front of the output, as it goes over IP (over UDP 00 03 00 00 is
// put before it); or refuses, and then nothing has changed.
#[unsafe(no_mangle)]
pub extern "C" fn sklyapina_send(
    session: u32,
    flow: usize,
    number: u16,
    limit: usize,
    frames: &[u8],
    lengths: &[u16],
    position: Position,
    output: &mut [u8],
) -> Sent
    ensures { PermitsSend
        (record {
          session = session;
          flow = flow;
          number = number;
          limit = limit;
          bytes = frames.now;
          lengths = lengths.now;
          position = position;
          output = output.old;
        })
        (record { answer = result; output = output.new }) }
{
    sender::send(
        session, flow, number, limit, frames, lengths, position, output,
    )
}
