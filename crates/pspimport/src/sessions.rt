// The sessions that the program's arguments name.
ghost use Rattle.std.specs.Prelude.{◌≤◌, length, IfSome};

use std::env::Env;
use tool::number;

// How many are kept: one more than a capture has entries, so that too many are seen to be too many.
pub const MOST_SESSIONS: usize = capture::MOST_ENTRIES + 1;

// Takes the session IDs that the arguments say, in their order, as far as there is room, and answers how many it took; or none, where an
// argument says no session ID.
pub fn take_sessions(env: &impl Env, sessions: &mut [u32]) -> Option<usize>
    ensures { IfSome result (λ taken. taken ≤ length sessions.new) }
{
    let mut taken: usize = 0;
    for i in 1..tool::argument_count(env) {
        let id = tool::argument(env, i, number::number)?;
        let session = u32::try_from(id).ok()?;
        if taken < sessions.len() {
            sessions[taken] = session;
            taken += 1;
        }
    }
    Some(taken)
}
