// The frames that a capture delivers on a session, one behind the other.
ghost use Rattle.std.specs.Prelude.{◌≡◌, false, ◌+◌, ◌<◌, ◌≤◌, length};
ghost use Rattle.table.specs.Broken.{broken};
ghost use Rattle.card.specs.Receive.{frames_found};
ghost use Rattle.capture.specs.File.{head_length, entry_count, longest_file};
ghost use Rattle.replay.specs.Inside.{StillLent, Stands, GoesOn, Unused};
ghost use Rattle.outputs.specs.Stream.{is_for, frames_at, delivered};
ghost use Rattle.pspmpeg.specs.Inside.{most_gathered, SameSlices, Fits, FitsFound, Adds, Gathers};

use capture::{Kind, reader};
use packet::header;
use replay::{Lent, Walk, run};
use table::Table;

// Room for the lengths of all frames: of each entry as many as a call delivers.
pub const MOST_GATHERED: usize = card::MOST_FRAMES * capture::MOST_ENTRIES;

// The frames gathered so far: their bytes, back to back, and their lengths, each at the start of a slice; how many they are, and how many
// bytes they have together.
#[derive(Drop)]
pub struct Gathered<'a> {
    pub bytes: &'a mut [u8],
    pub sizes: &'a mut [u16],
    pub count: usize,
    pub total: usize,
}

// Whether an entry is a packet for the session, while the session is open as PSP.
fn is_for(table: Table, kind: u8, body: &[u8], session: u32) -> bool
    requires { broken table ≡ false }
    ensures { result ≡ is_for session table (record { kind = kind; body = body.now }) }
{
    let Ok(Kind::Data | Kind::DataOverUdp) = Kind::try_from(kind) else {
        return false;
    };
    let transport = run::transport_of(kind);
    let Ok(packet) = header::refuse_before_session(body, transport) else {
        return false;
    };
    if packet.session_id() != session {
        return false;
    }
    match table.find_row(session) {
        Some(at) => table::terms_of(table.rows[at]).kind == table::Kind::Psp,
        None => false,
    }
}

impl Gathered<'_> {
    // Puts the frames that a call delivered behind those gathered before.
    fn append(&mut self, lent: &Lent, more: usize)
        requires { FitsFound lent.now more self.old }
        ensures adds { Adds (frames_found more lent.now.lengths.now lent.now.output.now) self.old self.new }
        ensures same_slices { SameSlices self.old self.new }
    {
        let count = self.count;
        let mut sum: usize = 0;
        for i in 0..more {
            self.sizes[count + i] = lent.lengths[i];
            sum += usize::from(lent.lengths[i]);
        }
        octets::copy(self.bytes, self.total, lent.output, 0, sum);
        self.count += more;
        self.total += sum;
    }

    // Runs an entry, and gathers its frames where it is for the session.
    fn gather_entry(&mut self, file: &[u8], session: u32, walk: &mut Walk, lent: &mut Lent)
        requires stands { Stands file.now walk.old lent.old × (walk.old.index < entry_count head_length file.now) }
        requires fits { Fits (frames_at session file.now walk.old.index) self.old }
        ensures goes_on { GoesOn file.now walk.old walk.new lent.new }
        ensures adds { Adds (frames_at session file.now walk.old.index) self.old self.new }
        ensures still_lent { StillLent lent.old lent.new }
        ensures same_slices { SameSlices self.old self.new }
    {
        let kind = reader::kind_at(file, walk.index);
        let body = reader::body_at(file, walk.index, walk.start);
        let wanted = is_for(walk.table, kind, body, session);
        let stepped = walk.step(file, lent);
        if wanted {
            self.append(lent, stepped.answer.frames as usize);
        }
    }
}

// Gathers the frames that a sound capture delivers on the session: their bytes, back to back, and their lengths.
pub fn gather<'a>(
    file: &[u8],
    session: u32,
    lent: &mut Lent,
    bytes: &'a mut [u8],
    sizes: &'a mut [u16],
) -> Gathered<'a>
    requires unused { Unused file.now lent.old }
    requires longest_file_in_bounds { (longest_file ≤ length bytes.old) × (most_gathered ≤ length sizes.old) }
    ensures gathers { Gathers (delivered session file.now) bytes.old sizes.old result }
    ensures total_le_longest_file { (result.total ≤ longest_file) × (result.count ≤ most_gathered) }
    ensures inside { (result.total ≤ length result.bytes.now) × (result.count ≤ length result.sizes.now) }
    ensures still_lent { StillLent lent.old lent.new }
    ensures same_slices { (result.bytes.ghost_name ≡ bytes.entry.ghost_name) × (result.sizes.ghost_name ≡ sizes.entry.ghost_name) }
{
    let mut walk = Walk::begin(file);
    let mut gathered = Gathered {
        bytes,
        sizes,
        count: 0,
        total: 0,
    };
    for _ in 0..reader::entry_count(file) {
        gathered.gather_entry(file, session, &mut walk, lent);
    }
    gathered
}
