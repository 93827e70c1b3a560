// The segments of a PSP packet (DEPI I05, section 8.3): one entry for each behind the sub-layer header, then their bodies. An entry's
// width is the table's (`SegmentTable`): its marks and its length stand in the first two bytes.
ghost use Rattle.std.specs.Prelude.{◌≡◌, ◌+◌, ◌*◌, ◌<◌, ◌≤◌, length};
ghost use Rattle.refusal.specs.Refusal.{first};
ghost use Rattle.refusal.specs.Number.{code_of};
ghost use Rattle.packet.specs.Header.{header_length, segment_count};
ghost use Rattle.octets.specs.Count.{any, sum_to};
ghost use Rattle.packet.specs.Segments.{length_values, entry_at, begins_in, ends_in, length_in, length_at, body_at};
ghost use Rattle.packet.specs.Psp.{bad_entry, bad_at, segment_refusals, psp_refusals};

use crate::header::{self, Sub};
use flow::Flow;
use refusal::Refusal;

// The width of an entry in this edition of the header.
pub const ENTRY_WIDTH: usize = 2;

// What B and E are worth in an entry, and how many values the length has, in the low bits.
pub const B_BIT: u16 = 32768;

pub const E_BIT: u16 = 16384;

const LENGTH_VALUES: u16 = 16384;

// Entry k, as the number in its first two bytes, of entries of any width. (The hint: see `survey`.)
#[inline(always)]
pub fn entry(sub: &[u8], width: usize, k: usize) -> u16
    requires { header_length + width * k + 1 < length sub.now }
    ensures { result ≡ entry_at width sub.now k }
{
    octets::read_u16(sub, header::HEADER_LENGTH + width * k)
}

pub fn begins(entry: u16) -> bool
    ensures { result ≡ begins_in entry }
{
    entry / B_BIT % 2 == 1
}

pub fn ends(entry: u16) -> bool
    ensures { result ≡ ends_in entry }
{
    entry / E_BIT % 2 == 1
}

pub fn length_of(entry: u16) -> usize
    ensures { (result ≡ length_in entry) × (result < length_values) }
{
    usize::from(entry % LENGTH_VALUES)
}

// Whether entry k of `count` is bad: its length is 0, or B is missing though it is not the first, or E though it is not the last.
pub fn bad_entry(count: usize, k: usize, entry: u16) -> bool
    requires { k < count }
    ensures { result ≡ bad_entry count k entry }
{
    (length_of(entry) == 0) | ((k != 0) & !begins(entry)) | ((k + 1 != count) & !ends(entry))
}

// What a segment table says: how long all segments are together, and whether one of the entries is bad. Neither stands for the other: 10 is
// judged by the length before 11 by the fault, and both are known after one pass.
#[derive(Clone, Copy)]
pub struct Surveyed {
    pub total: usize,
    pub bad: bool,
}

// The segment table of a packet: what stands behind the packet's session ID, and how many bytes an entry has. It may be cut, and its
// entries may say anything, until `refuse` has looked.
#[derive(Clone, Copy)]
pub struct SegmentTable<'a> {
    pub sub: Sub<'a>,
    pub width: usize,
    pub ghost at_least: { 2 ≤ width },
    pub ghost at_most: { width ≤ 4 },
}

impl<'a> SegmentTable<'a> {
    // Entry k, as the number in its first two bytes.
    pub fn entry(self, k: usize) -> u16
        requires { header_length + self.width * k + 1 < length self.sub.bytes.now }
        ensures { result ≡ entry_at self.entry.width self.entry.sub.bytes.now k }
    {
        entry(self.sub.bytes, self.width, k)
    }

    // How long the segments of the first n entries are together.
    fn total_length(self, n: usize) -> usize
        requires { (n ≤ segment_count self.sub.bytes.now) × (header_length + self.width * n ≤ length self.sub.bytes.now) }
        ensures { (result ≡ sum_to (length_at self.entry.width self.entry.sub.bytes.now) n) × (result ≤ length_values * n) }
    {
        let mut total: usize = 0;
        for k in 0..n {
            total += length_of(self.entry(k));
        }
        total
    }

    // Surveys the table of a packet that has segments. Of an entry between the first and the last one comparison tells whether it is bad: a
    // good one has B, E and a length, so it is above what B and E are worth together. The loop asks nothing else and adds up in 32 bits, so
    // that the compiler can take several entries at a time. For that it has to know the width too: a caller's is a constant, and the hints
    // here and below put the loop where it stands.
    #[inline(always)]
    fn survey(self, count: usize) -> Surveyed
        requires { (1 ≤ count) × (count ≡ segment_count self.sub.bytes.now)
            × (header_length + self.width * count ≤ length self.sub.bytes.now) }
        ensures total_value { result.total ≡ sum_to (length_at self.entry.width self.entry.sub.bytes.now) count }
        ensures bad_value { result.bad ≡ any (bad_at self.entry.width self.entry.sub.bytes.now) count }
        ensures total_in_bounds { result.total ≤ length_values * count }
    {
        let first = self.entry(0);
        let mut total = u32::from(first % LENGTH_VALUES);
        let mut bad = bad_entry(count, 0, first);
        if count == 1 {
            return Surveyed {
                total: total as usize,
                bad,
            }; // the first is the last
        }
        let last_place = count - 1;
        for k in 1..last_place {
            let middle = self.entry(k);
            total += u32::from(middle % LENGTH_VALUES);
            bad |= middle <= B_BIT + E_BIT;
        }
        let last = self.entry(last_place);
        total += u32::from(last % LENGTH_VALUES);
        bad |= bad_entry(count, last_place, last);
        Surveyed {
            total: total as usize,
            bad,
        }
    }

    // Where the body of segment k starts.
    #[tactic(auto, unfolding(crate::specs::Segments::body_at))]
    pub fn body_place(self, k: usize) -> usize
        requires among { k ≤ segment_count self.sub.bytes.now }
        requires sub_in_bounds { header_length + self.width * segment_count self.sub.bytes.now ≤ length self.sub.bytes.now }
        ensures { result ≡ body_at self.entry.width self.entry.sub.bytes.now k }
    {
        let count = self.sub.segment_count();
        let before = self.total_length(k);
        header::HEADER_LENGTH + self.width * count + before
    }

    // Refusals 9 to 11, of the segments.
    #[inline(always)]
    #[tactic(auto, unfolding(crate::specs::Psp::wanted, crate::specs::Segments::body_at))]
    fn refuse_segments(self) -> Result<(), Refusal>
        ensures { code_of result ≡ first (segment_refusals self.entry.width self.entry.sub.bytes.now) }
    {
        let count = self.sub.segment_count();
        if count == 0 {
            return Err(Refusal::NothingCarried);
        }
        let bodies = header::HEADER_LENGTH + self.width * count;
        if self.sub.bytes.len() < bodies {
            return Err(Refusal::LengthsDisagree); // the segment table itself is cut
        }
        let surveyed = self.survey(count);
        if bodies + surveyed.total != self.sub.bytes.len() {
            return Err(Refusal::LengthsDisagree);
        }
        if surveyed.bad {
            return Err(Refusal::ContentSpoilt);
        }
        Ok(())
    }

    // Refusals 6, 7 and 9 to 11 of a PSP packet. Whether it has a number is not asked here (document 02, W2).
    #[inline(always)]
    pub fn refuse(self) -> Result<(), Refusal>
        ensures { code_of result ≡ first (psp_refusals self.entry.width self.entry.sub.bytes.now) }
    {
        if self.sub.not_plain() {
            return Err(Refusal::HeaderNotPlain);
        }
        if Flow::TOP < self.sub.flow_id() {
            return Err(Refusal::FlowOutside);
        }
        self.refuse_segments()
    }
}
