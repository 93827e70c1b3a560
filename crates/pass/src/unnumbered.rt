// The segments of an accepted PSP packet without a number (document 02, W2): what the flow holds is dropped first; a segment with B and E
// is delivered, unless it is too long; any other is dropped, so that nothing is joined with what is not known to be its neighbour.
ghost use Rattle.std.specs.Prelude.{List, [], ◌≡◌, ℕ, ◌+◌, ◌≤◌, length};
ghost use Rattle.refusal.specs.Refusal.{first};
ghost use Rattle.flow.specs.Flow.{longest};
ghost use Rattle.packet.specs.Header.{id_length, longest_packet};
ghost use Rattle.packet.specs.Segments.{segments};
ghost use Rattle.packet.specs.Psp.{segment_refusals};
ghost use Rattle.join.specs.Slices.{with_output, SameSlices, most_bytes, most_frames};
ghost use Rattle.join.specs.Inside.{nothing_yet, Placed, Within};
ghost use Rattle.pass.specs.Pass.{unnumbered_fate};

use join::{Output, Tally};
use packet::header;
use packet::psp::{self, SegmentTable};

// All segments of a packet that 9 to 11 do not refuse, in order, on a flow that holds so many bytes, whatever they are.
pub fn walk(output: &mut Output, table: SegmentTable, most: u16, held: usize) -> Tally
    requires room { (most_bytes ≤ length output.old.bytes.now) × (most_frames ≤ length output.old.lengths.now) }
    requires small { (held ≤ longest) × (id_length + length table.sub.bytes.now ≤ longest_packet) }
    requires passed { first (segment_refusals table.width table.sub.bytes.now) ≡ 0 }
    ensures by_index { (bytes : List ℕ) → length bytes ≡ held →
        Placed (unnumbered_fate most bytes (segments table.entry.width table.entry.sub.bytes.now))
        0 nothing_yet (with_output [] output.old) result (with_output [] output.new) }
    ensures within { Within result }
    ensures same_slices { SameSlices output.old output.new }
{
    let count = table.sub.segment_count();
    let mut tally = Tally::default().dropping(held);
    let mut from = header::HEADER_LENGTH + table.width * count;
    for k in 0..count {
        let entry = table.entry(k);
        let behind = from + psp::length_of(entry);
        let body = &table.sub.bytes[from..behind];
        let goes = psp::begins(entry) & psp::ends(entry) & (body.len() <= most as usize);
        tally = crate::pass_on(output, body, goes, tally);
        from = behind;
    }
    tally
}
