// A capture run entry by entry, from an empty table: where a run stands, one step of it, and rooms for the three slices that go along from
// entry to entry. Who lists a capture, traces it or gathers its frames steps it here, and does its own work between the steps.
#![tactic(auto)]

pub mod run;

ghost use Rattle.std.specs.Prelude.{◌≡◌, ◌<◌, replicate};
ghost use Rattle.join.specs.Slices.{most_bytes, most_frames};
ghost use Rattle.card.specs.Receive.{holding_size};
ghost use Rattle.capture.specs.File.{head_length, entry_count, file_refusal};
ghost use Rattle.replay.specs.Inside.{StillLent, Stands, Begins, Steps, Zeros, AsTheyAre};

use capture::reader;
use card::Received;
use table::Table;

// Where a run stands: before entry `index`, whose body starts at `start`, with the table as it is there.
#[derive(Clone, Copy)]
pub struct Walk {
    pub index: usize,
    pub start: usize,
    pub table: Table,
}

// The slices that go along from entry to entry, lent to each call: the card's holding slice, and two for what comes out.
#[derive(Drop)]
pub struct Lent<'a> {
    pub holding: &'a mut [u8],
    pub output: &'a mut [u8],
    pub lengths: &'a mut [u16],
}

// What a step answers: the entry's kind, and what its call answered.
#[derive(Clone, Copy)]
pub struct Stepped {
    pub kind: u8,
    pub answer: Received,
}

// The slices that a run begins with: all zeros.
pub fn holding_room() -> [u8; card::HOLDING_SIZE]
    ensures { result ≡ replicate holding_size 0 }
{
    [0; card::HOLDING_SIZE]
}

pub fn output_room() -> [u8; card::MOST_BYTES]
    ensures { result ≡ replicate most_bytes 0 }
{
    [0; card::MOST_BYTES]
}

pub fn lengths_room() -> [u16; card::MOST_FRAMES]
    ensures { result ≡ replicate most_frames 0 }
{
    [0; card::MOST_FRAMES]
}

// Rooms for the slices of a run.
#[derive(Drop)]
pub struct Rooms {
    holding: [u8; card::HOLDING_SIZE],
    output: [u8; card::MOST_BYTES],
    lengths: [u16; card::MOST_FRAMES],
}

impl Rooms {
    // All zeros, as a run begins with them.
    pub fn new() -> Rooms
        ensures { Zeros result }
    {
        Rooms {
            holding: holding_room(),
            output: output_room(),
            lengths: lengths_room(),
        }
    }

    // Lends them, as they are.
    pub fn lend(&mut self) -> Lent
        ensures { AsTheyAre self.old result }
    {
        let Rooms {
            holding,
            output,
            lengths,
        } = self;
        Lent {
            holding,
            output,
            lengths,
        }
    }
}

impl Walk {
    // Before the first entry of a sound file, with an empty table.
    pub fn begin(file: &[u8]) -> Walk
        requires { file_refusal file.now ≡ 0 }
        ensures { Begins file.now result }
    {
        Walk {
            index: 0,
            start: capture::HEAD_LENGTH + capture::ENTRY_LENGTH * reader::entry_count(file),
            table: Table::empty(),
        }
    }

    // Runs the entry that the walk stands before, and goes on to the next.
    pub fn step(&mut self, file: &[u8], lent: &mut Lent) -> Stepped
        requires { Stands file.now self.old lent.old × (self.old.index < entry_count head_length file.now) }
        ensures steps { Steps file.now self.old result self.new lent.new }
        ensures still_lent { StillLent lent.old lent.new }
    {
        let kind = reader::kind_at(file, self.index);
        let body = reader::body_at(file, self.index, self.start);
        let answer = run::run_entry(self.table, lent, kind, body);
        self.index += 1;
        self.start += body.len();
        self.table = answer.table;
        Stepped { kind, answer }
    }
}
