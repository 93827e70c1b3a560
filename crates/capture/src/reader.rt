// Reading a capture file: whether it is sound, and its entries one after another. An entry's body is handed out as the stretch of the file
// that it is; nothing is copied.
ghost use Rattle.std.specs.Prelude.{◌≡◌, ◌+◌, ◌*◌, ◌≤◌, length};
ghost use Rattle.refusal.specs.Number.{code_of};
ghost use Rattle.capture.specs.File.{head_length, entry_length, most_entries, entry_count, kind_at, body_length, wrong_parts};
ghost use Rattle.capture.specs.File.{PermitsCheck, PermitsBody, StandsAt};
ghost use Rattle.capture.specs.Inside.{surveyed};

use crate::{ENTRY_LENGTH, HEAD_LENGTH, Kind, LONGEST_FILE, MOST_ENTRIES};
use refusal::Refusal;

// How long a session ID is, as the body of an entry.
const ID_BODY: usize = 4;

// How many entries the file has.
pub fn entry_count(file: &[u8]) -> usize
    requires { head_length ≤ length file.now }
    ensures { result ≡ entry_count head_length file.now }
{
    octets::read_u16(file, HEAD_LENGTH - 2) as usize
}

// The kind of entry k. (That k is small is asked only so that its place can be reckoned without overflow.)
pub fn kind_at(file: &[u8], k: usize) -> u8
    requires { (head_length + entry_length * k + entry_length ≤ length file.now) × (k ≤ most_entries) }
    ensures { result ≡ kind_at head_length entry_length file.now k }
{
    file[HEAD_LENGTH + ENTRY_LENGTH * k]
}

// The length of the body of entry k.
pub fn length_at(file: &[u8], k: usize) -> usize
    requires { (head_length + entry_length * k + entry_length ≤ length file.now) × (k ≤ most_entries) }
    ensures { (result ≡ body_length head_length entry_length file.now k) × (result ≤ 65535) }
{
    octets::read_u16(file, HEAD_LENGTH + ENTRY_LENGTH * k + 2) as usize
}

// Whether the parts of an entry are wrong (44).
fn wrong_parts(kind: u8, second: u8, size: usize) -> bool
    ensures { result ≡ wrong_parts kind second size }
{
    match Kind::try_from(kind) {
        Ok(Kind::OpenPsp | Kind::OpenDmpt | Kind::Close) => (second != 0) | (size != ID_BODY),
        Ok(Kind::Data | Kind::DataOverUdp) => second != 0,
        Err(_) => true,
    }
}

// Where the bodies of the first entries end; or that one of these entries is wrong.
fn survey(file: &[u8], count: usize) -> Result<usize, Refusal>
    requires count_in_bounds { (head_length + entry_length * count ≤ length file.now) × (count ≤ most_entries) }
    requires count_value { count ≡ entry_count head_length file.now }
    ensures { result ≡ surveyed file.now count }
{
    let mut end = HEAD_LENGTH + ENTRY_LENGTH * count;
    for k in 0..count {
        let second = file[HEAD_LENGTH + ENTRY_LENGTH * k + 1];
        let size = length_at(file, k);
        if wrong_parts(kind_at(file, k), second, size) {
            return Err(Refusal::EntryWrong);
        }
        end += size;
    }
    Ok(end)
}

// Refusals 41 to 45 of the file.
pub fn check(file: &[u8]) -> Result<(), Refusal>
    ensures { PermitsCheck file.now (code_of result) }
{
    if LONGEST_FILE < file.len() {
        return Err(Refusal::FileTooLong);
    }
    if file.len() < HEAD_LENGTH {
        return Err(Refusal::ContentsCut);
    }
    let count = entry_count(file);
    if MOST_ENTRIES < count {
        return Err(Refusal::TooManyEntries);
    }
    if file.len() < HEAD_LENGTH + ENTRY_LENGTH * count {
        return Err(Refusal::ContentsCut);
    }
    let end = survey(file, count)?;
    if end != file.len() {
        return Err(Refusal::BodiesDoNotFill);
    }
    Ok(())
}

// The body of the entry at which a walk stands: a stretch of the file itself.
pub fn body_at(file: &[u8], index: usize, start: usize) -> &[u8]
    requires { StandsAt file.now index start }
    ensures { PermitsBody file.entry index result }
{
    let end = start + length_at(file, index);
    &file[start..end]
}
