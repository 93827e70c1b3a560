// One flow's record: which sequence number it expects next, and how many bytes of an unfinished frame it holds. The bytes
// themselves lie in the flow's holding place, of which nothing is known here.
#![tactic(auto)]

ghost use Rattle.std.specs.Prelude.{◌≡◌};
ghost use Rattle.flow.specs.Numbers.{ahead, next};
ghost use Rattle.flow.specs.Flow.{told, PermitsFresh, PermitsJudge};

// How many flows a row has; their numbers are 0 to `Flow::TOP`.
pub const FLOWS: usize = 4;

// Plain numbers, since the host program keeps these records: nothing here trusts that they are such as a call of ours leaves.
#[repr(C)] // it crosses to the host program as it is
#[derive(Clone, Copy)]
pub struct Flow {
    // The mark: 0 while the flow is fresh, `Flow::HEARD` once a number was accepted since the session opened. Calls leave a fresh flow all
    // zero.
    pub heard: u16,
    pub expected: u16,
    pub held: u16,
}

// What a record makes of a number that it accepts: the next record and the gap.
#[derive(Clone, Copy)]
pub struct Accepted {
    pub flow: Flow,
    pub gap: u16,
}

// Sequence numbers begin again at 0 after 65,535. (Not `wrapping_sub` below: the edit flow/modulo_65535 has its slip here.)
const MODULUS: u32 = 65536;

// How far a number lies ahead of the expected one, modulo 65,536.
#[tactic(auto, unfolding(crate::specs::Numbers::ahead))]
pub fn ahead_of(number: u16, expected: u16) -> u16
    ensures { result ≡ ahead number expected }
{
    ((number as u32 + MODULUS - expected as u32) % MODULUS) as u16
}

// The number after this one, modulo 65,536.
#[tactic(auto, unfolding(crate::specs::Numbers::next))]
pub fn number_after(number: u16) -> u16
    ensures { result ≡ next number }
{
    ((number as u32 + 1) % MODULUS) as u16
}

impl Flow {
    // The longest frame, and so the most bytes that a flow holds.
    pub const LONGEST: u16 = 2048;

    // A number this far ahead of the expected one, or farther, is late.
    pub const HALF: u16 = 32768;

    // The highest number of a flow.
    pub const TOP: usize = 3;

    // The mark of a flow that is not fresh.
    pub const HEARD: u16 = 1;

    // No number expected, nothing held.
    pub fn fresh() -> Self
        ensures { PermitsFresh result }
    {
        Flow {
            heard: 0,
            expected: 0,
            held: 0,
        }
    }

    // Judges a sequence number; none is accepted that is late, and then the record stays as it was.
    pub fn judge(self, number: u16) -> Option<Accepted>
        ensures { PermitsJudge self number (told self result) }
    {
        let expected = self.expected;
        let following = number_after(number);
        let flow = Flow {
            heard: Flow::HEARD,
            expected: following,
            held: self.held,
        };
        if self.heard == 0 {
            return Some(Accepted { flow, gap: 0 });
        }
        let gap = ahead_of(number, expected);
        if gap < Flow::HALF {
            return Some(Accepted { flow, gap });
        }
        None
    }
}
