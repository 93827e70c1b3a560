// Capture files (document 01, "Capture file and listing"): contents first, then bodies. `reader` reads them; this file writes them.
//
// Contents and bodies are written into two slices, the one behind the other in the file; or, where it is known before how many entries
// there will be, into one. How many there are is written last.
#![tactic(auto)]

pub mod reader;

ghost use Rattle.std.specs.Prelude.{◌≡◌, ◌+◌, ◌*◌, ◌<◌, ◌≤◌, length};
ghost use Rattle.refusal.specs.Refusal.{first};
ghost use Rattle.refusal.specs.Number.{code_of};
ghost use Rattle.octets.specs.Bytes.{two};
ghost use Rattle.octets.specs.Stretch.{put};
ghost use Rattle.capture.specs.File.{head_length, entry_length, content_for, content_of};
ghost use Rattle.capture.specs.Write.{Fits, added, file_length, within, write_refusals, Roomy, Summable, Countable};
ghost use Rattle.capture.specs.Write.{contents_after, bodies_after, contents_finished, FitsIn, laid};
ghost use Rattle.capture.specs.Kind.{number_of, Reads};

use refusal::Refusal;

// How many bytes stand before the entries, and how many an entry has.
pub const HEAD_LENGTH: usize = 2;

pub const ENTRY_LENGTH: usize = 4;

// The most bytes and the most entries of a file.
pub const LONGEST_FILE: usize = 60000;

pub const MOST_ENTRIES: usize = 1000;

// What an entry stands for, and the number that its first byte gives it.
#[derive(Clone, Copy, PartialEq, Eq)]
pub enum Kind {
    OpenPsp = 1,
    OpenDmpt = 2,
    Close = 3,

    // A packet that came over IP, and one that came over UDP.
    Data = 4,
    DataOverUdp = 5,
}

// A byte that is the number of no kind.
#[derive(Clone, Copy, PartialEq, Eq)]
pub struct UnknownKind(pub u8);

impl From<Kind> for u8 {
    ghost from_gives = { λ kind number. number ≡ number_of kind };

    fn from(kind: Kind) -> u8 {
        kind as u8
    }
}

impl TryFrom<u8> for Kind {
    type Error = UnknownKind;

    ghost try_from_gives = { Reads };

    fn try_from(number: u8) -> Result<Kind, UnknownKind> {
        match number {
            1 => Ok(Kind::OpenPsp),
            2 => Ok(Kind::OpenDmpt),
            3 => Ok(Kind::Close),
            4 => Ok(Kind::Data),
            5 => Ok(Kind::DataOverUdp),
            _ => Err(UnknownKind(number)),
        }
    }
}

// How far a capture is written: how many entries it has, and how many bytes their bodies have together. (That these are small enough to be
// summed is no invariant: definitions and theorems make writers too.)
#[derive(Clone, Copy)]
pub struct Writer {
    pub entries: usize,
    pub bytes: usize,
}

// A capture that is being written, in two slices that have room for any file.
#[derive(Drop)]
pub struct Capture<'a> {
    pub contents: &'a mut [u8],
    pub bodies: &'a mut [u8],
    pub writer: Writer,
    pub ghost roomy: { Roomy contents.now bodies.now },
}

// A capture that is being written into one slice, since it is known how many entries it will have.
#[derive(Drop)]
pub struct Counted<'a> {
    pub file: &'a mut [u8],
    pub count: usize,
    pub writer: Writer,
}

// A capture without entries.
pub fn begin() -> Writer
    ensures { result ≡ record { entries = 0; bytes = 0 } }
{
    Writer {
        entries: 0,
        bytes: 0,
    }
}

// The length of the file.
fn file_length(writer: Writer) -> usize
    requires { Summable writer }
    ensures { result ≡ file_length writer }
{
    HEAD_LENGTH + ENTRY_LENGTH * writer.entries + writer.bytes
}

// Whether the file is within the limits.
fn is_within(writer: Writer) -> bool
    requires { Summable writer }
    ensures { result ≡ within writer }
{
    let length = file_length(writer);
    (writer.entries <= MOST_ENTRIES) & (length <= LONGEST_FILE)
}

// Refusals 41 and 43 of the file. Where there is none, no entry was left out for want of room.
pub fn refuse(writer: Writer) -> Result<(), Refusal>
    requires { Summable writer }
    ensures { code_of result ≡ first (write_refusals writer) }
{
    if LONGEST_FILE < file_length(writer) {
        return Err(Refusal::FileTooLong);
    }
    if MOST_ENTRIES < writer.entries {
        return Err(Refusal::TooManyEntries);
    }
    Ok(())
}

// A kind goes as its byte, here and where entries are read and run: the definitions are of any byte, and a `Kind` would ask more.
impl<'a> Capture<'a> {
    ghost use Rattle.capture.specs.Adding.{SameSlices};

    // Adds an entry. One that the file has no room for is counted, and not written.
    pub fn add(&mut self, kind: u8, body: &[u8])
        requires { Countable self.old.writer body.now }
        ensures value { self.new.writer ≡ added self.old.writer body.now }
        ensures contents_after { self.new.contents.now
            ≡ contents_after self.old.contents.now self.old.writer (record { kind = kind; body = body.now }) }
        ensures bodies_after { self.new.bodies.now
            ≡ bodies_after self.old.bodies.now self.old.writer (record { kind = kind; body = body.now }) }
        ensures same_slices { SameSlices self.old self.new }
    {
        let longer = Writer {
            entries: self.writer.entries + 1,
            bytes: self.writer.bytes + body.len(),
        };
        if is_within(longer) {
            store(self.contents, self.bodies, self.writer, kind, body);
        }
        self.writer = longer;
    }

    // Writes how many entries there are; or refuses the file, and then nothing has changed.
    pub fn finish(&mut self) -> Result<(), Refusal>
        requires { Summable self.old.writer }
        ensures its_number { code_of result ≡ first (write_refusals self.old.writer) }
        ensures contents_after { self.new.contents.now ≡ contents_finished self.old.contents.now self.old.writer }
        ensures bodies_after { self.new.bodies.now ≡ self.old.bodies.now }
        ensures same_writer { self.new.writer ≡ self.old.writer }
        ensures same_slices { SameSlices self.old self.new }
    {
        refuse(self.writer)?;
        finish(self.contents, self.writer);
        Ok(())
    }
}

// Writes an entry behind those that are there.
fn store(contents: &mut [u8], bodies: &mut [u8], writer: Writer, kind: u8, body: &[u8])
    requires { Fits contents.old bodies.old writer body.now }
    ensures contents_after { contents.new ≡ put contents.old (head_length + entry_length * writer.entries)
        (content_of (record { kind = kind; body = body.now })) }
    ensures bodies_after { bodies.new ≡ put bodies.old writer.bytes body.now }
{
    let size = body.len();
    write_content(contents, writer.entries, kind, size);
    octets::copy(bodies, writer.bytes, body, 0, size);
}

// Writes the four bytes of entry k.
fn write_content(contents: &mut [u8], k: usize, kind: u8, size: usize)
    requires { (head_length + entry_length * k + entry_length ≤ length contents.old) × (size < 65536) }
    ensures { contents.new ≡ put contents.old (head_length + entry_length * k) (content_for kind size) }
{
    let at = HEAD_LENGTH + ENTRY_LENGTH * k;
    contents[at] = kind;
    contents[at + 1] = 0;
    octets::write_u16(contents, at + 2, size as u16);
}

impl<'a> Counted<'a> {
    ghost use Rattle.capture.specs.Adding.{SameFile};

    // Writes an entry behind those that are there.
    pub fn lay(&mut self, kind: u8, body: &[u8])
        requires { FitsIn self.old.file.now self.old.count self.old.writer body.now }
        ensures value { self.new.writer ≡ added self.old.writer body.now }
        ensures file_after { self.new.file.now
            ≡ laid self.old.file.now self.old.count self.old.writer (record { kind = kind; body = body.now }) }
        ensures same_file { SameFile self.old self.new }
    {
        let size = body.len();
        write_content(self.file, self.writer.entries, kind, size);
        let behind = HEAD_LENGTH + ENTRY_LENGTH * self.count + self.writer.bytes;
        octets::copy(self.file, behind, body, 0, size);
        self.writer = Writer {
            entries: self.writer.entries + 1,
            bytes: self.writer.bytes + size,
        };
    }

    // Writes how many entries there are.
    pub fn finish(&mut self)
        requires { (head_length ≤ length self.old.file.now) × (self.old.writer.entries < 65536) }
        ensures file_after { self.new.file.now ≡ put self.old.file.now 0 (two self.old.writer.entries) }
        ensures same_writer { self.new.writer ≡ self.old.writer }
        ensures same_file { SameFile self.old self.new }
    {
        finish(self.file, self.writer);
    }
}

// Writes how many entries there are. (Whether they are too many is for `refuse` to say.)
fn finish(contents: &mut [u8], writer: Writer)
    requires { (head_length ≤ length contents.old) × (writer.entries < 65536) }
    ensures { contents.new ≡ put contents.old 0 (two writer.entries) }
{
    octets::write_u16(contents, 0, writer.entries as u16);
}
