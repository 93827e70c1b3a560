// A capture made of a pcap file. The records are walked twice: first they are counted, so that nothing is written before it is known that
// nothing is refused; then they are written.
ghost use Rattle.std.specs.Prelude.{◌≡◌, ◌+◌, ◌≤◌, [], ◌∷◌, map, length};
ghost use Rattle.refusal.specs.Number.{code_of};
ghost use Rattle.octets.specs.Stretch.{put};
ghost use Rattle.capture.specs.File.{longest_file, most_entries, opening, file_of};
ghost use Rattle.pcap.specs.File.{records};
ghost use Rattle.pcap.specs.Import.{entries_of, all_entries, told, PermitsImport};
ghost use Rattle.pcap.specs.Inside.Importing.{tally_of, plus, Countable, Finds, found_in, sized, long_with, refusal_by};
ghost use Rattle.pcap.specs.Inside.Importing.{none_yet, RoomFor, RoomIn, LaysIn};

use crate::judge::Cause;
use crate::{judge, reader};
use capture::{Counted, Kind};
use refusal::Refusal;

// How long a session ID is, as the body of an entry.
const ID_BODY: usize = 4;

// What an import answers: how long the capture is, how many records have become data entries, and how many were skipped for each cause:
// foreign ones, which are not IPv4, misfits, whose lengths are bad, fragments, and others, of another protocol or port.
#[derive(Clone, Copy)]
pub struct Imported {
    pub length: usize,
    pub packets: usize,
    pub foreign: usize,
    pub misfits: usize,
    pub fragments: usize,
    pub others: usize,
}

// What the first walk counts: records that become entries, and the bytes of their data; and those that are skipped, by cause.
#[derive(Clone, Copy)]
struct Tally {
    packets: usize,
    bytes: usize,
    foreign: usize,
    misfits: usize,
    fragments: usize,
    others: usize,
}

// Counts one record.
fn count(tally: Tally, packet: &[u8]) -> Tally
    requires { Countable (plus tally (tally_of (packet.now ∷ []))) }
    ensures { result ≡ plus tally (tally_of (packet.now ∷ [])) }
{
    match judge::judge(packet) {
        Ok(data) => Tally {
            packets: tally.packets + 1,
            bytes: tally.bytes + data.length,
            ..tally
        },
        Err(Cause::NotIpv4) => Tally {
            foreign: tally.foreign + 1,
            ..tally
        },
        Err(Cause::BadLengths) => Tally {
            misfits: tally.misfits + 1,
            ..tally
        },
        Err(Cause::Fragment) => Tally {
            fragments: tally.fragments + 1,
            ..tally
        },
        Err(Cause::Other) => Tally {
            others: tally.others + 1,
            ..tally
        },
    }
}

// The first walk; or why it stops, 61 or 62.
fn survey(file: &[u8]) -> Result<Tally, Refusal>
    ensures { Finds (found_in file.now) result }
{
    let mut walk = reader::open(file);
    let mut tally = Tally {
        packets: 0,
        bytes: 0,
        foreign: 0,
        misfits: 0,
        fragments: 0,
        others: 0,
    };
    // No `for`: a walk is no iterator, since the same walk is asked behind its last record why it stops.
    while let Some(packet) = walk.record() {
        tally = count(tally, packet);
        walk = walk.advance();
    }
    walk.cause()?;
    Ok(tally)
}

// How long the capture will be.
fn capture_length(sessions: usize, tally: Tally) -> usize
    requires { (sessions + tally.packets ≤ most_entries) × (tally.bytes ≤ longest_file) }
    ensures { result ≡ long_with sessions tally }
{
    let entries = sessions + tally.packets;
    capture::HEAD_LENGTH + capture::ENTRY_LENGTH * entries + (ID_BODY * sessions + tally.bytes)
}

// Refusals 63 and 64. Sums are made only of what is known to be small.
fn refuse(sessions: usize, tally: Tally, room: usize) -> Result<(), Refusal>
    ensures { code_of result ≡ refusal_by sessions (sized tally) room }
{
    if capture::MOST_ENTRIES < sessions {
        return Err(Refusal::ImportTooLarge);
    }
    if capture::MOST_ENTRIES - sessions < tally.packets {
        return Err(Refusal::ImportTooLarge);
    }
    if capture::LONGEST_FILE < tally.bytes {
        return Err(Refusal::ImportTooLarge);
    }
    let length = capture_length(sessions, tally);
    if capture::LONGEST_FILE < length {
        return Err(Refusal::ImportTooLarge);
    }
    if room < length {
        return Err(Refusal::PcapOutputTooSmall);
    }
    Ok(())
}

// Writes the entry that opens a session.
fn write_open(capture: &mut Counted, session: u32)
    requires { RoomIn (opening session ∷ []) capture.old }
    ensures { LaysIn (opening session ∷ []) capture.old capture.new }
{
    capture.lay(u8::from(Kind::OpenPsp), &session.to_be_bytes());
}

// .. and those of all sessions.
fn write_opens(capture: &mut Counted, sessions: &[u32])
    requires { RoomIn (map opening sessions.now) capture.old }
    ensures { LaysIn (map opening sessions.now) capture.old capture.new }
{
    for session in sessions {
        write_open(capture, *session);
    }
}

// Writes the entry of a record that is not skipped.
fn write_record(capture: &mut Counted, packet: &[u8])
    requires { RoomIn (entries_of (packet.now ∷ [])) capture.old }
    ensures { LaysIn (entries_of (packet.now ∷ [])) capture.old capture.new }
{
    let Ok(data) = judge::judge(packet) else {
        return;
    };
    let begin = data.at;
    let end = begin + data.length;
    let kind = u8::from(data.kind);
    capture.lay(kind, &packet[begin..end]);
}

// .. and those of all: the second walk.
fn write_records(capture: &mut Counted, file: &[u8])
    requires { RoomIn (entries_of (records file.now)) capture.old }
    ensures { LaysIn (entries_of (records file.now)) capture.old capture.new }
{
    let mut walk = reader::open(file);
    // No `for`, as in `survey`.
    while let Some(packet) = walk.record() {
        write_record(capture, packet);
        walk = walk.advance();
    }
}

// Writes the capture.
fn write(sessions: &[u32], file: &[u8], output: &mut [u8], count: usize)
    requires room_for { RoomFor (all_entries sessions.now file.now) count output.old none_yet }
    requires count_value { count ≡ length (all_entries sessions.now file.now) }
    ensures { output.new ≡ put output.old 0 (file_of (all_entries sessions.now file.now)) }
{
    let mut capture = Counted {
        file: output,
        count,
        writer: capture::begin(),
    };
    write_opens(&mut capture, sessions);
    write_records(&mut capture, file);
    capture.finish();
}

// Makes a capture of a pcap file, with entries that open the sessions in front.
pub fn import(sessions: &[u32], file: &[u8], output: &mut [u8]) -> Result<Imported, Refusal>
    ensures { PermitsImport sessions.now file.now output.old
        (record { answer = told result; output = output.new }) }
{
    let tally = survey(file)?;
    refuse(sessions.len(), tally, output.len())?;
    write(sessions, file, output, sessions.len() + tally.packets);
    Ok(Imported {
        length: capture_length(sessions.len(), tally),
        packets: tally.packets,
        foreign: tally.foreign,
        misfits: tally.misfits,
        fragments: tally.fragments,
        others: tally.others,
    })
}
