// The table of sessions: six rows of four flows, by value. When it is broken, where a session stands in it, and opening and closing a
// session. It is made of plain numbers and is the table that the host program keeps: that the numbers are such as a call of ours leaves is
// asked, and never trusted. Nothing here reads a packet, and nothing here touches the holding slice.
#![tactic(auto)]

ghost use Rattle.std.specs.Prelude.{◌≡◌, false, ◌<◌};
ghost use Rattle.octets.specs.Count.{any};
ghost use Rattle.table.specs.Rows.{PermitsEmpty, rows, closed_row, is_closed, number_of, terms_of};
ghost use Rattle.table.specs.Rows.{find, lowest_free, held_in};
ghost use Rattle.table.specs.Broken.{row_broken, broken};
ghost use Rattle.table.specs.Calls.{open_refusals, fresh_row, PermitsOpen, PermitsOpenByNumber, close_refusals, PermitsClose};
ghost use Rattle.table.specs.Inside.{kind_of, flow_unfit, any_unfit, id_twice, ids_of, row_told, Finds};

use flow::{FLOWS, Flow};
use refusal::Refusal;

// How many rows the table has, one to a session.
pub const ROWS: usize = 6;

// The kind number of a row: 0 closed, else as in the packet check.
const CLOSED: u32 = 0;

const PSP: u32 = packet::KIND_PSP;

const DMPT: u32 = packet::KIND_DMPT;

#[repr(C)] // it crosses to the host program as it is, and so does the table
#[derive(Clone, Copy)]
pub struct Row {
    pub id: u32,
    pub kind: u32,
    pub flows: [Flow; FLOWS],
}

#[repr(C)]
#[derive(Clone, Copy)]
pub struct Table {
    pub rows: [Row; ROWS],
}

// The kind of a session.
#[derive(Clone, Copy, PartialEq, Eq)]
pub enum Kind {
    Psp,
    Dmpt,
}

impl From<Kind> for u32 {
    ghost from_gives = { λ kind number. number ≡ number_of kind };

    fn from(kind: Kind) -> u32 {
        match kind {
            Kind::Psp => PSP,
            Kind::Dmpt => DMPT,
        }
    }
}

// Here alone a kind number becomes a `Kind`.
impl TryFrom<u32> for Kind {
    type Error = Refusal;

    ghost try_from_gives = { λ number kind. kind ≡ kind_of number };

    fn try_from(number: u32) -> Result<Self, Refusal> {
        match number {
            PSP => Ok(Kind::Psp),
            DMPT => Ok(Kind::Dmpt),
            _ => Err(Refusal::NumberUnknown),
        }
    }
}

// What an open asks for. A `Kind` is PSP or D-MPT, so that nothing else can be asked for.
#[derive(Clone, Copy)]
pub struct Request {
    pub id: u32,
    pub kind: Kind,
}

// The terms of a session: what decides how its packets are read and joined.
#[derive(Clone, Copy)]
pub struct Terms {
    pub kind: Kind,
    pub longest: u16,
}

// What an open answers: 0 or the refusal's number, and the table afterwards.
#[repr(C)] // it crosses to the host program as it is
#[derive(Clone, Copy)]
pub struct Opening {
    pub code: u32,
    pub table: Table,
}

// What a close answers: 0 or the refusal's number, the held bytes that it dropped, and the table afterwards.
#[repr(C)] // it crosses to the host program as it is
#[derive(Clone, Copy)]
pub struct Closing {
    pub code: u32,
    pub dropped: u32,
    pub table: Table,
}

impl Table {
    // Six closed rows.
    pub fn empty() -> Self
        ensures { PermitsEmpty result }
    {
        Table {
            rows: [closed_row(); ROWS],
        }
    }

    // Refusal 13: whether the table is broken, in any row. Where no row is broken by itself the open rows are those whose ID is not 0.
    pub fn is_broken(&self) -> bool
        ensures { result ≡ broken self.now }
    {
        self.rows.iter().any(row_broken) || any_id_twice(&ids_of(self))
    }

    // The row where a session is open. It is asked where the table is not broken and the ID not 0: then no closed row has the ID.
    pub fn find_row(&self, id: u32) -> Option<usize>
        requires { (broken self.now ≡ false) × (id ≡ 0 → ⊥) }
        ensures { result ≡ row_told (find self.now id) }
    {
        self.rows.iter().position(|row| row.id == id)
    }

    // The lowest closed row.
    fn lowest_free(&self) -> Option<usize>
        ensures { result ≡ row_told (lowest_free self.now) }
    {
        self.rows.iter().position(|row| is_closed(row.kind))
    }

    // The row that an open takes.
    fn row_to_open(&self, request: Request) -> Result<usize, Refusal>
        ensures { Finds (open_refusals self.now request) (lowest_free self.now) result }
    {
        if self.is_broken() {
            return Err(Refusal::TableBroken);
        }
        if request.id == 0 {
            return Err(Refusal::OpenWithoutId);
        }
        if self.find_row(request.id).is_some() {
            return Err(Refusal::AlreadyOpen);
        }
        self.lowest_free().ok_or(Refusal::AllRowsOpen)
    }

    // The row that a close of this ID empties.
    fn row_to_close(&self, id: u32) -> Result<usize, Refusal>
        ensures { Finds (close_refusals self.now id) (find self.now id) result }
    {
        if self.is_broken() {
            return Err(Refusal::TableBroken);
        }
        if id == 0 {
            return Err(Refusal::CloseOfNone);
        }
        self.find_row(id).ok_or(Refusal::CloseOfNone)
    }
}

// A closed row is all zero.
fn closed_row() -> Row
    ensures { result ≡ closed_row }
{
    Row {
        id: 0,
        kind: CLOSED,
        flows: [Flow::fresh(); FLOWS],
    }
}

// The row of a session that has just been opened: every flow is fresh.
fn fresh_row(request: Request) -> Row
    ensures { result ≡ fresh_row request }
{
    Row {
        id: request.id,
        kind: u32::from(request.kind),
        flows: [Flow::fresh(); FLOWS],
    }
}

// Whether a kind number is that of a closed row. (No derive says it: a row's kind is C's number, and may be any.)
pub fn is_closed(number: u32) -> bool
    ensures { result ≡ is_closed number }
{
    number == CLOSED
}

// The terms of a row's session: its kind, and the one longest frame that every session has so far. Of a row that is no session's they say
// PSP, and no answer depends on that.
pub fn terms_of(row: Row) -> Terms
    ensures { result ≡ terms_of row }
{
    Terms {
        kind: Kind::try_from(row.kind).unwrap_or(Kind::Psp),
        longest: Flow::LONGEST,
    }
}

// Whether a flow is what no flow of its row may be. `numbered` says whether it may have accepted a number, and `most` how many bytes it may
// then hold; one with the mark 0 is all zero, and there is no other mark. (Why the branch: docs/DECISIONS.md, 100.)
fn flow_unfit(numbered: bool, most: u16, flow: Flow) -> bool
    ensures { result ≡ flow_unfit numbered most flow }
{
    if flow.heard == Flow::HEARD {
        return !numbered | (most < flow.held);
    }
    (flow.heard != 0) | (flow.expected != 0) | (flow.held != 0)
}

// Whether flow 0, or one of the others, is what it may not be.
fn any_unfit(first: bool, others: bool, most: u16, row: &Row) -> bool
    ensures { result ≡ any_unfit first others most row.now }
{
    flow_unfit(first, most, row.flows[0])
        || row.flows[1..]
            .iter()
            .any(|flow| flow_unfit(others, most, *flow))
}

// Whether a row is broken by itself. In a D-MPT row only flow 0 may have accepted a number, and nothing is held; a closed row is all zero;
// and any kind above 2 is broken.
fn row_broken(row: &Row) -> bool
    ensures { result ≡ row_broken row.now }
{
    match row.kind {
        PSP => row.id == 0 || any_unfit(true, true, Flow::LONGEST, row),
        DMPT => row.id == 0 || any_unfit(true, false, 0, row),
        CLOSED => row.id != 0 || any_unfit(false, false, 0, row),
        _ => true,
    }
}

// Whether the ID of row i is not 0 and stands in an earlier row too.
fn id_before(ids: &[u32; ROWS], i: usize) -> bool
    requires { i < rows }
    ensures { result ≡ any (id_twice ids.now i) i }
{
    let id = ids[i];
    (id != 0) & ids[..i].contains(&id)
}

fn any_id_twice(ids: &[u32; ROWS]) -> bool
    ensures { result ≡ any (λ i. any (id_twice ids.now i) i) rows }
{
    (0..ROWS).any(|i| id_before(ids, i))
}

fn ids_of(table: &Table) -> [u32; ROWS]
    ensures { result ≡ ids_of table.now }
{
    table.rows.map(|row| row.id)
}

// The bytes that a row holds, all its flows together.
fn held_in(row: &Row) -> u32
    ensures { result ≡ held_in row.now }
{
    let mut held = 0;
    for flow in &row.flows {
        held += u32::from(flow.held);
    }
    held
}

// Opens a session in the lowest free row.
pub fn open(table: Table, request: Request) -> Opening
    ensures { PermitsOpen table request result }
{
    match table.row_to_open(request) {
        Ok(at) => {
            let mut next = table;
            next.rows[at] = fresh_row(request);
            Opening {
                code: refusal::NONE,
                table: next,
            }
        }
        Err(refusal) => Opening {
            code: u32::from(refusal),
            table,
        },
    }
}

// Opens a session of the kind with this number, as C asks for it. A number that is no kind is answered before the table is looked at.
pub fn open_by_number(table: Table, id: u32, number: u32) -> Opening
    ensures { PermitsOpenByNumber table id number result }
{
    match Kind::try_from(number) {
        Ok(kind) => open(table, Request { id, kind }),
        Err(refusal) => Opening {
            code: u32::from(refusal),
            table,
        },
    }
}

// Closes a session: its row is emptied, and what its flows held is dropped.
pub fn close(table: Table, id: u32) -> Closing
    ensures { PermitsClose table id result }
{
    match table.row_to_close(id) {
        Ok(at) => {
            let mut next = table;
            let dropped = held_in(&next.rows[at]);
            next.rows[at] = closed_row();
            Closing {
                code: refusal::NONE,
                dropped,
                table: next,
            }
        }
        Err(refusal) => Closing {
            code: u32::from(refusal),
            dropped: 0,
            table,
        },
    }
}
