// What a frames file brings to send. One that does not end with a whole frame is to be refused by 33, and so it is handed on as bytes
// without a length.
ghost use Rattle.std.specs.Prelude.{◌≡◌, ◌≤◌, length};
ghost use Rattle.outputs.specs.Sent.{most};
ghost use Rattle.pspsend.specs.Input.{Takes};

// One frame more than a send takes, so that too many are seen to be too many.
pub const MOST: usize = sender::MOST_FRAMES + 1;

// How many frames a file has, and how many bytes they have together.
#[derive(Clone, Copy)]
pub struct Taken {
    pub count: usize,
    pub bytes: usize,
}

// Takes the frames apart into their bytes, back to back, and their lengths. Of a file that does not end with a whole frame it answers all
// its bytes and no length, and a send refuses them by 33: the lengths do not add up to the bytes.
pub fn take_frames(file: &[u8], bytes: &mut [u8], lengths: &mut [u16]) -> Taken
    requires { (length file.now ≤ length bytes.old) × (most ≡ length lengths.old) }
    ensures { Takes file.now bytes.new lengths.new result }
{
    let unpacked = frames::unpack(file, bytes, lengths);
    if (unpacked.count < MOST) & (0 < unpacked.left) {
        return Taken {
            count: 0,
            bytes: file.len(),
        };
    }
    Taken {
        count: unpacked.count,
        bytes: unpacked.bytes,
    }
}
