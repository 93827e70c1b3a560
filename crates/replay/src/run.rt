// Running a capture: an entry is an open, a close or a packet, and the card goes from entry to entry.
ghost use Rattle.std.specs.Prelude.{◌≡◌, true, length};
ghost use Rattle.table.specs.Calls.{asking, opened, closed};
ghost use Rattle.capture.specs.File.{body_in, kinds, takes_length};
ghost use Rattle.replay.specs.Run.{transport_of};
ghost use Rattle.replay.specs.Inside.{as_running, answered, RunsTo, StillLent};

use super::Lent;
use capture::Kind;
use card::Received;
use packet::header;
use table::{Request, Table};

// What a call answers that delivers nothing.
fn plain(code: u32, dropped: u32, table: Table) -> Received
    ensures { result ≡ answered code dropped table }
{
    Received {
        code,
        frames: 0,
        bytes: 0,
        dropped,
        gap: 0,
        table,
    }
}

// Opens a session.
fn open(table: Table, id: u32, kind: table::Kind) -> Received
    ensures { result ≡ answered (opened table (asking kind id)).code 0 (opened table (asking kind id)).table }
{
    let request = Request { id, kind };
    let opening = table::open(table, request);
    plain(opening.code, 0, opening.table)
}

// Closes a session.
fn close(table: Table, id: u32) -> Received
    ensures { result ≡ answered (closed table id).code (closed table id).dropped (closed table id).table }
{
    let closing = table::close(table, id);
    plain(closing.code, closing.dropped, closing.table)
}

// The transport that a data entry's kind names.
// (It is a number, since the data call takes C's.)
pub fn transport_of(kind: u8) -> u32
    ensures { result ≡ transport_of kind }
{
    match Kind::try_from(kind) {
        Ok(Kind::DataOverUdp) => header::UDP,
        _ => header::IP,
    }
}

// Carries out one entry.
pub fn run_entry(table: Table, lent: &mut Lent, kind: u8, body: &[u8]) -> Received
    requires { takes_length (body_in kinds kind) (length body.now) ≡ true }
    ensures runs { RunsTo (as_running table lent.old) (record { kind = kind; body = body.now }) result lent.new }
    ensures still_lent { StillLent lent.old lent.new }
{
    match Kind::try_from(kind) {
        Ok(Kind::OpenPsp) => open(table, octets::read_u32(body, 0), table::Kind::Psp),
        Ok(Kind::OpenDmpt) => open(table, octets::read_u32(body, 0), table::Kind::Dmpt),
        Ok(Kind::Close) => close(table, octets::read_u32(body, 0)),
        _ => {
            let transport = transport_of(kind);
            // The call is C's too, so it takes the slices one by one.
            card::receive(
                table,
                transport,
                lent.holding,
                body,
                lent.output,
                lent.lengths,
            )
        }
    }
}
