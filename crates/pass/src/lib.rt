// Packets whose pieces are passed on or dropped, each by itself: PSP packets without a number (document 02, W2; `unnumbered`) and D-MPT
// packets (document 01, "Opening, closing, listening"; `mpegs`). Nothing is joined and nothing is held from then on, so nothing here is
// given the holding slice; in the contracts an empty list stands for it.
//
// The two walks are not one: where a piece lies and whether it goes on is read in another way in each, and what they share is `pass_on`.
// One walk over a rule would take both of these as closures, and be longer than the two loops.
#![tactic(auto)]

pub mod mpegs;
pub mod unnumbered;

ghost use Rattle.std.specs.Prelude.{[], ◌≤◌, length};
ghost use Rattle.join.specs.Slices.{with_output, SameSlices, most_bytes, most_frames};
ghost use Rattle.join.specs.Inside.{Placed, Fits};
ghost use Rattle.pass.specs.Pass.{passed_on};

use join::{Output, Tally};

// One piece: a frame of its own, or dropped.
fn pass_on(output: &mut Output, piece: &[u8], goes: bool, tally: Tally) -> Tally
    requires room { (most_bytes ≤ length output.old.bytes.now) × (most_frames ≤ length output.old.lengths.now) }
    requires fits { Fits (length piece.now) tally }
    ensures placed { Placed (passed_on goes piece.now)
        0 tally (with_output [] output.old) result (with_output [] output.new) }
    ensures same_slices { SameSlices output.old output.new }
{
    let size = piece.len();
    if !goes {
        return tally.dropping(size);
    }
    octets::copy(output.bytes, tally.bytes, piece, 0, size);
    output.lengths[tally.frames] = size as u16;
    tally.delivering(size)
}
