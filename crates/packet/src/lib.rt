// The layout of data packets: the header, the segments of PSP, the MPEG packets of D-MPT; the packet check without a table; and
// segment k of a packet. Nothing here knows of tables or holding places.
//
// Most functions of `header`, `psp` and `dmpt` read what stands behind the session ID, a `Sub`, and some ask that an entry lies in it: only
// proved code calls them. The four public functions of this file ask nothing.
#![tactic(auto)]

pub mod dmpt;
pub mod header;
pub mod psp;

ghost use Rattle.std.specs.Prelude.{◌≡◌, IfOk};
ghost use Rattle.refusal.specs.Number.{code_of};
ghost use Rattle.packet.specs.Header.{packet_by};
ghost use Rattle.packet.specs.Reading.{number_of, refused_by};
ghost use Rattle.packet.specs.Check.{PermitsCheck, PermitsSegmentCause, FindsSegment, PermitsSegment};

use header::DataPacket;
use psp::SegmentTable;
use refusal::Refusal;

// The kinds of session as the host program numbers them: C gives any number, and 24 for another is the first line of both orders. They stay
// numbers here: the enum of kinds is the table's, above this crate, and one more here would say the same twice.
pub const KIND_PSP: u32 = 1;

pub const KIND_DMPT: u32 = 2;

// A packet that the packet check passes; or the first refusal that a packet of this kind meets whatever the table. (The hint: the answer is
// a packet, which a caller that only wants to know why not, as C does, would be handed through memory.)
#[inline(always)]
#[tactic(auto, unfolding(crate::specs::Check::check, crate::specs::Check::check_refusals))]
fn checked<'a>(kind: u32, transport: u32, packet: &'a [u8]) -> Result<DataPacket<'a>, Refusal>
    ensures its_number { PermitsCheck kind (packet_by transport packet.now) (refused_by result) }
    ensures same_packet { IfOk result (λ p. (p.bytes.now ≡ packet.now) × (number_of p.transport ≡ transport)) }
{
    if (kind != KIND_PSP) & (kind != KIND_DMPT) {
        return Err(Refusal::NumberUnknown);
    }
    let packet = header::refuse_before_session(packet, transport)?;
    if kind == KIND_PSP {
        let sub = packet.sub();
        let width = psp::ENTRY_WIDTH;
        SegmentTable { sub, width }.refuse()?;
    } else {
        dmpt::refuse(packet.sub())?;
    }
    Ok(packet)
}

// The packet check: the first refusal that a packet of this kind meets whatever the table.
pub fn check(kind: u32, transport: u32, packet: &[u8]) -> Result<(), Refusal>
    ensures { PermitsCheck kind (packet_by transport packet.now) (code_of result) }
{
    checked(kind, transport, packet)?;
    Ok(())
}

// A packet that has a segment k; or why segment k of it is refused. Only PSP packets have segments. (The hint, and that of
// `segment_extent`: see `checked`.)
#[inline(always)]
#[tactic(auto, unfolding(crate::specs::Check::segment_cause, crate::specs::Check::cause_refusals, crate::specs::Check::check, crate::specs::Check::check_refusals))]
fn asked_for<'a>(
    kind: u32,
    transport: u32,
    packet: &'a [u8],
    k: usize,
) -> Result<DataPacket<'a>, Refusal>
    ensures its_number { PermitsSegmentCause kind (packet_by transport packet.now) k (refused_by result) }
    ensures same_packet { IfOk result (λ p. (p.bytes.now ≡ packet.now) × (number_of p.transport ≡ transport)) }
{
    if kind != KIND_PSP {
        return Err(Refusal::NumberUnknown);
    }
    let packet = checked(kind, transport, packet)?;
    if packet.sub().segment_count() <= k {
        return Err(Refusal::SegmentOutside);
    }
    Ok(packet)
}

// Why segment k of a packet is refused, if it is.
pub fn segment_cause(kind: u32, transport: u32, packet: &[u8], k: usize) -> Result<(), Refusal>
    ensures { PermitsSegmentCause kind (packet_by transport packet.now) k (code_of result) }
{
    asked_for(kind, transport, packet, k)?;
    Ok(())
}

// Where segment k lies in the packet: its first place, counted from the packet's first byte, and its length. A stretch that is given
// back cannot cross to the host program; these two numbers cross as they are.
#[repr(C)]
#[derive(Clone, Copy)]
pub struct Extent {
    pub start: usize,
    pub size: usize,
}

// Where segment k of a packet lies; or why it is refused.
#[inline(always)]
pub fn segment_extent(kind: u32, transport: u32, packet: &[u8], k: usize) -> Result<Extent, Refusal>
    ensures { FindsSegment kind (packet_by transport packet.now) k result }
{
    let packet = asked_for(kind, transport, packet, k)?;
    let sub = packet.sub();
    let width = psp::ENTRY_WIDTH;
    let table = SegmentTable { sub, width };
    let before = packet.transport.lead() + header::ID_LENGTH;
    let start = before + table.body_place(k);
    let size = psp::length_of(table.entry(k));
    Ok(Extent { start, size })
}

// Segment k of a packet, as a stretch of that packet itself; an empty one where it is refused.
#[tactic(auto, using(crate::proofs::Asked::extent_inside), unfolding(crate::specs::Check::segment_given))]
pub fn segment(kind: u32, transport: u32, packet: &[u8], k: usize) -> &[u8]
    ensures { PermitsSegment kind transport packet.entry k result }
{
    match segment_extent(kind, transport, packet, k) {
        Ok(extent) => {
            let start = extent.start;
            let end = start + extent.size;
            &packet[start..end]
        }
        Err(_) => &packet[..0],
    }
}
