// A frames file: for each frame its length, in two bytes, most significant first, and then its bytes. Here frames are written as such a
// file, and read from one.
#![tactic(auto)]

ghost use Rattle.std.specs.Prelude.{◌≡◌, ◌+◌, ◌*◌, ◌≤◌, length};
ghost use Rattle.octets.specs.Bytes.{byte_at};
ghost use Rattle.octets.specs.Count.{sum_to};
ghost use Rattle.octets.specs.Stretch.{rest};
ghost use Rattle.frames.specs.Frames.{length_bytes, SaysFront, PermitsPack, PermitsUnpack};

// How long a frame's length is in the file.
pub const LENGTH_BYTES: usize = 2;

// How many frames were read, how many bytes they have together, and how many bytes of the file are left behind them.
// (Rooms with counts beside them, since nothing here allocates.)
#[derive(Clone, Copy)]
pub struct Unpacked {
    pub count: usize,
    pub bytes: usize,
    pub left: usize,
}

// Writes frames that stand back to back as a frames file, and answers how long it is.
pub fn pack(bytes: &[u8], lengths: &[u16], file: &mut [u8]) -> usize
    requires { (sum_to (byte_at lengths.now) (length lengths.now) ≤ length bytes.now)
        × (length bytes.now + length_bytes * length lengths.now ≤ length file.old) }
    ensures { PermitsPack bytes.now lengths.now file.old result file.new }
{
    let mut from: usize = 0;
    let mut at: usize = 0;
    for size in lengths {
        octets::write_u16(file, at, *size);
        let body = at + LENGTH_BYTES;
        let count = usize::from(*size);
        octets::copy(file, body, bytes, from, count);
        at = body + count;
        from += count;
    }
    at
}

// The length of the frame that stands whole at this place of the file, with its length before it; or none where no whole one does.
fn whole_at(file: &[u8], at: usize) -> Option<u16>
    requires { at ≤ length file.now }
    ensures { SaysFront (rest file.now at) result }
{
    let left = file.len() - at;
    if left < LENGTH_BYTES {
        return None;
    }
    let length = octets::read_u16(file, at);
    if left - LENGTH_BYTES < usize::from(length) {
        return None;
    }
    Some(length)
}

// Takes the frames apart into their bytes, back to back, and their lengths: at most as many as there are lengths lent.
pub fn unpack(file: &[u8], bytes: &mut [u8], lengths: &mut [u16]) -> Unpacked
    requires { length file.now ≤ length bytes.old }
    ensures { PermitsUnpack file.now bytes.old lengths.old result
        bytes.new lengths.new }
{
    let mut count: usize = 0;
    let mut total: usize = 0;
    let mut at: usize = 0;
    // No `for`: how many frames there are is part of the answer, also where this breaks off, and a `for` would say the answer twice.
    while count < lengths.len() {
        let Some(length) = whole_at(file, at) else {
            break;
        };
        let size = usize::from(length);
        let body = at + LENGTH_BYTES;
        octets::copy(bytes, total, file, body, size);
        lengths[count] = length;
        count += 1;
        total += size;
        at = body + size;
    }
    Unpacked {
        count,
        bytes: total,
        left: file.len() - at,
    }
}
