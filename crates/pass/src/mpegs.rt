// The MPEG packets of an accepted D-MPT packet (document 01, "Opening, closing, listening"): one that carries nothing is dropped, any
// other is delivered as a frame of 188 bytes.
ghost use Rattle.std.specs.Prelude.{[], ◌≡◌, ◌+◌, ◌≤◌, length};
ghost use Rattle.refusal.specs.Refusal.{first};
ghost use Rattle.packet.specs.Header.{id_length, longest_packet};
ghost use Rattle.packet.specs.Dmpt.{mpegs, dmpt_refusals};
ghost use Rattle.join.specs.Slices.{with_output, SameSlices, most_bytes, most_frames};
ghost use Rattle.join.specs.Inside.{nothing_yet, Placed, Within};
ghost use Rattle.pass.specs.Pass.{dmpt_fate};

use join::{Output, Tally};
use packet::dmpt;
use packet::header::{self, Sub};

// All MPEG packets of a packet that passed the check, in order. The flow holds nothing.
pub fn walk(output: &mut Output, sub: Sub) -> Tally
    requires room { (most_bytes ≤ length output.old.bytes.now) × (most_frames ≤ length output.old.lengths.now) }
    requires sub_bound { (id_length + length sub.bytes.now ≤ longest_packet) × (first (dmpt_refusals sub.bytes.now) ≡ 0) }
    ensures placed { Placed (dmpt_fate [] (mpegs sub.entry.bytes.now))
        0 nothing_yet (with_output [] output.old) result (with_output [] output.new) }
    ensures within { Within result }
    ensures same_slices { SameSlices output.old output.new }
{
    let mut tally = Tally::default();
    for k in 0..dmpt::mpeg_count(sub) {
        let from = header::HEADER_LENGTH + ts::MPEG_LENGTH * k;
        let goes = dmpt::pid_of(sub, k) != ts::NULL_PID;
        let mpeg = &sub.bytes[from..from + ts::MPEG_LENGTH];
        tally = crate::pass_on(output, mpeg, goes, tally);
    }
    tally
}
