// A walk over the records of the caller's file, for who reads a pcap file record by record:
//
//     let mut walk = reader::open(file);
//     while let Some(bytes) = walk.record() {
//         .. bytes ..
//         walk = walk.advance();
//     }
//     .. walk.cause() ..
//
// It holds the caller's slice and a place in it, and hands out each record's bytes as the stretch of the file that they are; nothing is
// copied. A place may be any number, and nothing here that is public asks for anything.
ghost use Rattle.std.specs.Prelude.{◌≡◌, ◌+◌, ◌≤◌, length};
ghost use Rattle.refusal.specs.Number.{code_of};
ghost use Rattle.refusal.specs.Refusal.{first};
ghost use Rattle.pcap.specs.File.{record_header, left, kept, whole, stops};
ghost use Rattle.pcap.specs.Reader.{PermitsBytes, PermitsRecord, opened, moved};

use crate::records::{self, RECORD_HEADER};
use refusal::Refusal;

// Where a record says how many bytes it keeps.
const KEPT_AT: usize = 8;

// `at` is the place of the record at hand, and `little` says in which byte order the file's numbers are.
#[derive(Clone, Copy)]
pub struct Reader<'a> {
    pub file: &'a [u8],
    pub at: usize,
    pub little: bool,
}

// At the first record; of a file with a bad header, at the end.
pub fn open<'a>(file: &'a [u8]) -> Reader<'a>
    ensures { result ≡ opened file.entry }
{
    let at = records::first_place(file);
    let little = records::is_little(file);
    Reader { file, at, little }
}

impl<'a> Reader<'a> {
    // How many bytes the file has from here on.
    fn left(self) -> usize
        ensures { result ≡ left self.entry.file.now self.entry.at }
    {
        self.file.len().saturating_sub(self.at)
    }

    // How many bytes the record at hand says that it keeps.
    fn kept(self) -> usize
        requires { self.at + record_header ≤ length self.file.now }
        ensures { result ≡ kept self.entry.file.now self.entry.at self.entry.little }
    {
        octets::read_u32_in(self.file, self.at + KEPT_AT, self.little) as usize
    }

    // Whether a whole record is at hand.
    #[tactic(auto, unfolding(crate::specs::File::whole))]
    pub fn more(self) -> bool
        ensures { result ≡ whole self.entry.file.now self.entry.at self.entry.little }
    {
        let left = self.left();
        if left < RECORD_HEADER {
            return false;
        }
        self.kept() <= left - RECORD_HEADER
    }

    // The record at hand, if there is a whole one: its bytes, in the caller's file.
    pub fn record(self) -> Option<&'a [u8]>
        ensures { PermitsRecord self.entry.file self.entry.at self.entry.little result }
    {
        if !self.more() {
            return None;
        }
        let begin = self.at + RECORD_HEADER;
        let end = begin + self.kept();
        Some(&self.file[begin..end])
    }

    // Its bytes, or an empty stretch at the end of the file where there is none.
    pub fn bytes(self) -> &'a [u8]
        ensures { PermitsBytes self.entry.file self.entry.at self.entry.little result }
    {
        match self.record() {
            Some(bytes) => bytes,
            None => &self.file[self.file.len()..],
        }
    }

    // The walk at the next record; where no whole record is at hand, it stays.
    pub fn advance(self) -> Reader<'a>
        ensures { result ≡ moved self.entry }
    {
        match self.record() {
            Some(bytes) => Reader {
                at: self.at + RECORD_HEADER + bytes.len(),
                ..self
            },
            None => self,
        }
    }

    // Why no whole record is at hand, 61 or 62, where it is not the end of the file.
    pub fn cause(self) -> Result<(), Refusal>
        ensures { code_of result ≡ first (stops self.entry.file.now self.entry.at self.entry.little) }
    {
        if records::bad_header(self.file) {
            return Err(Refusal::PcapHeaderWrong);
        }
        if (self.left() == 0) | self.more() {
            return Ok(());
        }
        Err(Refusal::RecordCut)
    }
}
