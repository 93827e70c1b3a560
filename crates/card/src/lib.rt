// The data call: a packet comes in, whole frames go out, and what is left of a frame waits in its flow's place. Crate `join` has the rule
// of PSP packets with a number, and `pass` that of packets whose pieces are never joined; this one has the order of refusals, and what
// the answer and the next table are.
//
// All of a packet is judged before anything is written. Each segment entry is read when it is needed, so no copy of the segment table is
// made, and the call keeps nothing from one packet to the next but what stands in the table and in the holding slice.
#![tactic(auto)]

ghost use Rattle.std.specs.Prelude.{◌≡◌, ◌<◌, IfOk};
ghost use Rattle.refusal.specs.Refusal.{first};
ghost use Rattle.refusal.specs.Number.{number_of, code_of};
ghost use Rattle.octets.specs.Stretch.{part};
ghost use Rattle.flow.specs.Flow.{flows, judged_as, told};
ghost use Rattle.packet.specs.Header.{packet_by};
ghost use Rattle.packet.specs.Reading.{number_of as transport_number};
ghost use Rattle.table.specs.Rows.{rows};
ghost use Rattle.join.specs.Slices.{as_slices, with_output, SameSlices};
ghost use Rattle.join.specs.Inside.{nothing_yet, Placed, Roomy, Within};
ghost use Rattle.card.specs.Hear.{judged_of, fate_of};
ghost use Rattle.card.specs.Receive.{place_of, packet_refusals, refused_answer, PermitsReceive};
ghost use Rattle.card.specs.Inside.{small_by, found_by, Seeks, TakenOutcome, accepted_by, row_answer, takes, accepted_answer};
ghost use Rattle.card.specs.Inside.{Ready, answered, Hearable, Hears};

use flow::{Accepted, FLOWS, Flow};
use join::{Output, Tally};
use packet::dmpt;
use packet::header::{self, DataPacket, Sub};
use packet::psp::{self, SegmentTable};
use pass::{mpegs, unnumbered};
use refusal::Refusal;
use table::{Kind, ROWS, Row, Table, Terms};

// A place for each flow of each row.
pub const HOLDING_SIZE: usize = ROWS * FLOWS * Flow::LONGEST as usize;

// What one call delivers at most.
pub const MOST_FRAMES: usize = 127;

pub const MOST_BYTES: usize = 6144;

// What a data call answers: 0 or the refusal's number, the counts, and the table afterwards.
#[repr(C)] // it crosses to the host program as it is
#[derive(Clone, Copy)]
pub struct Received {
    pub code: u32,
    pub frames: u32,
    pub bytes: u32,
    pub dropped: u32,
    pub gap: u32,
    pub table: Table,
}

// Takes a packet: delivers the frames that it completes, and holds what it begins, where it has a number; or refuses it, and then nothing
// has changed. The table is changed in `delivered` and nowhere else: there the session's row is put back as it took the packet.
pub fn receive(
    table: Table,
    transport: u32,
    holding: &mut [u8],
    packet: &[u8],
    output: &mut [u8],
    lengths: &mut [u16],
) -> Received
    ensures { PermitsReceive table (packet_by transport packet.now)
        (as_slices holding.old output.old lengths.old)
        (record { answer = result; slices = as_slices holding.new output.new lengths.new }) }
{
    let holds = holding.len();
    let sought = match seek(
        &table,
        packet,
        transport,
        holds,
        output.len(),
        lengths.len(),
    ) {
        Ok(sought) => sought,
        Err(refusal) => return refused(refusal, &table),
    };
    let at = sought.at;
    let row = table.rows[at];
    let mut output = Output {
        bytes: output,
        lengths,
    };
    match take(row, at, holding, sought.packet, &mut output) {
        Ok(taken) => delivered(taken, at, &table),
        Err(refusal) => refused(refusal, &table),
    }
}

// What a refused packet is answered: its number, and the table as it was.
fn refused(refusal: Refusal, table: &Table) -> Received
    ensures { result ≡ refused_answer (number_of refusal) table.now }
{
    Received {
        code: u32::from(refusal),
        frames: 0,
        bytes: 0,
        dropped: 0,
        gap: 0,
        table: *table,
    }
}

// What an accepted packet is answered: the counts, and the table with the session's row put back.
fn delivered(taken: Taken, at: usize, table: &Table) -> Received
    requires { at < rows }
    ensures { result ≡ accepted_answer table.now at taken }
{
    let mut next = *table;
    next.rows[at] = taken.row;
    Received {
        code: refusal::NONE,
        frames: taken.frames,
        bytes: taken.bytes,
        dropped: taken.dropped,
        gap: taken.gap,
        table: next,
    }
}

// Where a packet's session stands, and the packet.
#[derive(Clone, Copy)]
struct Sought<'a> {
    at: usize,
    packet: DataPacket<'a>,
}

// The session's row; or refusals 1, 13, 24 for the transport, 2, 3, 15, 4 and 5, in this order.
fn seek<'a>(
    table: &Table,
    packet: &'a [u8],
    transport: u32,
    holding: usize,
    output: usize,
    lengths: usize,
) -> Result<Sought<'a>, Refusal>
    ensures seeks { Seeks table.now (packet_by transport packet.now) (small_by holding output lengths) (found_by result) }
    ensures same_packet { IfOk result (λ s. (s.packet.bytes.now ≡ packet.now) × (transport_number s.packet.transport ≡ transport)) }
{
    if too_small(holding, output, lengths) {
        return Err(Refusal::SliceTooSmall);
    }
    if table.is_broken() {
        return Err(Refusal::TableBroken);
    }
    let packet = header::refuse_before_session(packet, transport)?;
    let at = table
        .find_row(packet.session_id())
        .ok_or(Refusal::SessionNotOpen)?;
    Ok(Sought { at, packet })
}

// Refusal 1, from the lengths of the slices.
fn too_small(holding: usize, output: usize, lengths: usize) -> bool
    ensures { result ≡ small_by holding output lengths }
{
    (holding < HOLDING_SIZE) | (output < MOST_BYTES) | (lengths < MOST_FRAMES)
}

// What a session's row makes of a packet that it accepts: the counts, and the row afterwards.
#[derive(Clone, Copy)]
struct Taken {
    frames: u32,
    bytes: u32,
    dropped: u32,
    gap: u32,
    row: Row,
}

// Takes a packet for the session in row `at`: the flow hears it; or refusals 6, 7 and 9 to 12.
fn take(
    row: Row,
    at: usize,
    holding: &mut [u8],
    packet: DataPacket,
    output: &mut Output,
) -> Result<Taken, Refusal>
    requires at_lt_rows { at < rows }
    requires ready { Ready row (packet_by (transport_number packet.transport) packet.bytes.now) (with_output holding.old output.old) }
    ensures outcome { ◌≡◌ {A = TakenOutcome}
        (record { taken = row_answer row result; slices = with_output holding.new output.new })
        (takes at row (packet_by (transport_number packet.entry.transport) packet.entry.bytes.now)
        (with_output holding.old output.old)) }
    ensures same_slices { SameSlices output.old output.new }
{
    let sub = packet.sub();
    let terms = table::terms_of(row);
    refuse_packet(terms, sub)?;
    let k = sub.flow_id();
    let flow = row.flows[k];
    let heard = hear(terms, flow, holding, place_of(at, k), output, sub)?;
    Ok(answer(row, k, heard))
}

// What an accepted packet comes to: the counts, and the row with the flow's next record.
fn answer(row: Row, k: usize, heard: Hearing) -> Taken
    requires { (k < flows) × Within heard.tally }
    ensures { accepted_by row result ≡ answered row k (judged_as heard.accepted) heard.tally }
{
    let tally = heard.tally;
    let flow = heard.accepted.flow;
    let expecting = Flow {
        heard: flow.heard,
        expected: flow.expected,
        held: tally.held as u16,
    };
    let mut next = row;
    next.flows[k] = expecting;
    Taken {
        frames: tally.frames as u32,
        bytes: tally.bytes as u32,
        dropped: tally.dropped as u32,
        gap: u32::from(heard.accepted.gap),
        row: next,
    }
}

// What a flow makes of a packet that passed refusals 6, 7 and 9 to 11 and is not late: how its number was accepted, and what became of
// the bytes.
#[derive(Clone, Copy)]
struct Hearing {
    accepted: Accepted,
    tally: Tally,
}

// One packet on its flow. The bytes that the flow holds are the first ones of its place; a late packet changes none of the slices.
fn hear(
    terms: Terms,
    flow: Flow,
    holding: &mut [u8],
    place: usize,
    output: &mut Output,
    sub: Sub,
) -> Result<Hearing, Refusal>
    requires roomy { Roomy place (with_output holding.old output.old) }
    requires hearable { Hearable terms flow.held sub.bytes.now }
    ensures hears { Hears terms flow place sub.entry.bytes.now
        (with_output holding.old output.old) result (with_output holding.new output.new) }
    ensures same_slices { SameSlices output.old output.new }
{
    match judge_packet(flow, sub) {
        Some(accepted) => {
            let held = usize::from(flow.held);
            let tally = place_packet(terms, holding, place, output, sub, accepted.gap, held);
            Ok(Hearing { accepted, tally })
        }
        None => Err(Refusal::Late),
    }
}

// Refusals 6, 7 and 9 to 11, by the kind of the session.
fn refuse_packet(terms: Terms, sub: Sub) -> Result<(), Refusal>
    ensures { code_of result ≡ first (packet_refusals terms sub.entry.bytes.now) }
{
    match terms.kind {
        Kind::Psp => {
            let width = psp::ENTRY_WIDTH;
            SegmentTable { sub, width }.refuse()
        }
        Kind::Dmpt => dmpt::refuse(sub),
    }
}

// Judges the packet's number, where it has one.
fn judge_packet(flow: Flow, sub: Sub) -> Option<Accepted>
    ensures { told flow result ≡ judged_of flow sub.entry.bytes.now }
{
    if sub.s_set() {
        return flow.judge(sub.number());
    }
    Some(Accepted { flow, gap: 0 }) // there is no number to judge
}

// Where the place of a flow starts.
pub fn place_of(row: usize, k: usize) -> usize
    requires { (row < rows) × (k < flows) }
    ensures { result ≡ place_of row k }
{
    (FLOWS * row + k) * Flow::LONGEST as usize
}

// Carries out what becomes of the bytes of an accepted packet, by the kind of its session and, for PSP, by whether it has a number.
fn place_packet(
    terms: Terms,
    holding: &mut [u8],
    place: usize,
    output: &mut Output,
    sub: Sub,
    gap: u16,
    held: usize,
) -> Tally
    requires roomy { Roomy place (with_output holding.old output.old) }
    requires hearable { Hearable terms held sub.bytes.now }
    ensures placed { Placed (fate_of terms gap (part holding.old place held) sub.entry.bytes.now)
        place nothing_yet (with_output holding.old output.old) result (with_output holding.new output.new) }
    ensures within { Within result }
    ensures same_slices { SameSlices output.old output.new }
{
    match terms.kind {
        Kind::Dmpt => mpegs::walk(output, sub),
        Kind::Psp => {
            let width = psp::ENTRY_WIDTH;
            let table = SegmentTable { sub, width };
            let numbered = sub.s_set();
            if !numbered {
                return unnumbered::walk(output, table, terms.longest, held);
            }
            join::walk(holding, place, output, table, terms.longest, gap, held)
        }
    }
}
