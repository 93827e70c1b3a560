// The MPEG packets of a D-MPT packet (DEPI I05, section 8.2): 188 bytes each, behind the sub-layer header, to the end of the packet.
ghost use Rattle.std.specs.Prelude.{◌≡◌, ◌+◌, ◌*◌, ◌<◌, ◌≤◌, not, eqb, length};
ghost use Rattle.refusal.specs.Refusal.{first};
ghost use Rattle.refusal.specs.Number.{code_of};
ghost use Rattle.octets.specs.Bytes.{byte_at};
ghost use Rattle.octets.specs.Count.{any};
ghost use Rattle.ts.specs.Packet.{mpeg_length, sync_byte, pid};
ghost use Rattle.packet.specs.Header.{header_length};
ghost use Rattle.packet.specs.Dmpt.{mpeg_count, mpeg_at, mpeg_refusals, dmpt_refusals};

use crate::header::{self, Sub};
use refusal::Refusal;

// How many MPEG packets there are.
pub fn mpeg_count(sub: Sub) -> usize
    ensures { result ≡ mpeg_count sub.entry.bytes.now }
{
    (sub.bytes.len() - header::HEADER_LENGTH) / ts::MPEG_LENGTH
}

// The PID of MPEG packet k.
pub fn pid_of(sub: Sub, k: usize) -> u16
    requires { header_length + mpeg_length * k + mpeg_length ≤ length sub.bytes.now }
    ensures { result ≡ pid (mpeg_at sub.entry.bytes.now k) }
{
    let at = header::HEADER_LENGTH + ts::MPEG_LENGTH * k;
    ts::pid(&sub.bytes[at..at + ts::MPEG_LENGTH])
}

// Whether one of the first n MPEG packets starts with another byte than 0x47.
fn any_unsynced(sub: Sub, n: usize) -> bool
    requires { header_length + mpeg_length * n ≤ length sub.bytes.now }
    ensures { result ≡ any (λ k. not (eqb (byte_at (mpeg_at sub.entry.bytes.now k) 0) sync_byte)) n }
{
    let mut unsynced = false;
    for k in 0..n {
        unsynced |= sub.bytes[header::HEADER_LENGTH + ts::MPEG_LENGTH * k] != ts::SYNC_BYTE;
    }
    unsynced
}

// Refusals 9 to 11, of the MPEG packets.
fn refuse_mpegs(sub: Sub) -> Result<(), Refusal>
    ensures { code_of result ≡ first (mpeg_refusals sub.entry.bytes.now) }
{
    let carried = sub.bytes.len() - header::HEADER_LENGTH;
    if carried == 0 {
        return Err(Refusal::NothingCarried);
    }
    if carried % ts::MPEG_LENGTH != 0 {
        return Err(Refusal::LengthsDisagree);
    }
    if any_unsynced(sub, mpeg_count(sub)) {
        return Err(Refusal::ContentSpoilt);
    }
    Ok(())
}

// Refusals 6, 7 and 9 to 11 of a D-MPT packet.
pub fn refuse(sub: Sub) -> Result<(), Refusal>
    ensures { code_of result ≡ first (dmpt_refusals sub.entry.bytes.now) }
{
    if sub.not_plain() {
        return Err(Refusal::HeaderNotPlain);
    }
    if sub.flow_id() != 0 {
        return Err(Refusal::FlowOutside);
    }
    refuse_mpegs(sub)
}
