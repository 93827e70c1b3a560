// Bytes in slices: numbers read and written, big-endian ones and in either byte order, and one stretch copied into another slice. Nothing
// here knows of packets. Each public function asks that the place lies in the slice: only proved code calls them.
//
// A number's length and its order stand in the function's name and not in a parameter of one generic function: so each call says them, and
// each contract names the one word of the definitions that it stands for.
#![tactic(auto)]

ghost use Rattle.std.specs.Prelude.{◌≡◌, ◌+◌, ◌≤◌, ◌<◌, length};
ghost use Rattle.octets.specs.Bytes.{be16_at, be32_at, two, four};
ghost use Rattle.octets.specs.Order.{le16_at, le32_at, u16_at, u32_at, two_le, four_le};
ghost use Rattle.octets.specs.Stretch.{part, put};

// The number in the two bytes from place `at` on.
pub fn read_u16(bytes: &[u8], at: usize) -> u16
    requires { at + 1 < length bytes.now }
    ensures { result ≡ be16_at bytes.now at }
{
    u16::from_be_bytes([bytes[at], bytes[at + 1]])
}

// The number in the four bytes from place `at` on.
pub fn read_u32(bytes: &[u8], at: usize) -> u32
    requires { at + 3 < length bytes.now }
    ensures { result ≡ be32_at bytes.now at }
{
    u32::from_be_bytes([bytes[at], bytes[at + 1], bytes[at + 2], bytes[at + 3]])
}

// The same with the least significant byte first.
pub fn read_little_u32(bytes: &[u8], at: usize) -> u32
    requires { at + 3 < length bytes.now }
    ensures { result ≡ le32_at bytes.now at }
{
    u32::from_le_bytes([bytes[at], bytes[at + 1], bytes[at + 2], bytes[at + 3]])
}

// The same in the order that `little` says: true where the least significant byte stands first.
pub fn read_u16_in(bytes: &[u8], at: usize, little: bool) -> u16
    requires { at + 1 < length bytes.now }
    ensures { result ≡ u16_at little bytes.now at }
{
    let pair = [bytes[at], bytes[at + 1]];
    if little {
        u16::from_le_bytes(pair)
    } else {
        u16::from_be_bytes(pair)
    }
}

pub fn read_u32_in(bytes: &[u8], at: usize, little: bool) -> u32
    requires { at + 3 < length bytes.now }
    ensures { result ≡ u32_at little bytes.now at }
{
    if little {
        read_little_u32(bytes, at)
    } else {
        read_u32(bytes, at)
    }
}

// Writes a number as two bytes from place `at` on.
pub fn write_u16(bytes: &mut [u8], at: usize, number: u16)
    requires { at + 1 < length bytes.old }
    ensures { bytes.new ≡ put bytes.old at (two number) }
{
    bytes[at..at + 2].copy_from_slice(&number.to_be_bytes());
}

// Writes a number as four bytes from place `at` on.
pub fn write_u32(bytes: &mut [u8], at: usize, number: u32)
    requires { at + 3 < length bytes.old }
    ensures { bytes.new ≡ put bytes.old at (four number) }
{
    bytes[at..at + 4].copy_from_slice(&number.to_be_bytes());
}

// The same with the least significant byte first.
pub fn write_little_u16(bytes: &mut [u8], at: usize, number: u16)
    requires { at + 1 < length bytes.old }
    ensures { bytes.new ≡ put bytes.old at (two_le number) }
{
    bytes[at..at + 2].copy_from_slice(&number.to_le_bytes());
}

pub fn write_little_u32(bytes: &mut [u8], at: usize, number: u32)
    requires { at + 3 < length bytes.old }
    ensures { bytes.new ≡ put bytes.old at (four_le number) }
{
    bytes[at..at + 4].copy_from_slice(&number.to_le_bytes());
}

// Copies by std's method. It asks whether the two slices overlap, which costs 50 instructions a packet: so it serves `copy_block` alone,
// where the compiler knows that they do not.
// (A stretch is a slice, a place and a count, and no slice of its own: what a copy leaves is said of the whole slice, `put`.)
fn copy_bytes(target: &mut [u8], at: usize, source: &[u8], from: usize, count: usize)
    requires { (at + count ≤ length target.old) × (from + count ≤ length source.now) }
    ensures { target.new ≡ put target.old at (part source.now from count) }
{
    target[at..at + count].copy_from_slice(&source[from..from + count]);
}

// A block that is moved without a call.
const SHORT: usize = 64;

// The most bytes that are copied at once: more than a packet has.
const BLOCK: usize = 8192;

// Copies one block. All of it is read before any of it is written. So the compiler need not ask whether the two
// slices overlap: where it knows `size`, it uses its widest loads and stores, and elsewhere it calls C's `memmove`
// once. It leaves out the block itself, which would stand on the stack.
fn copy_block(target: &mut [u8], at: usize, source: &[u8], from: usize, size: usize)
    requires size_bound { size ≤ BLOCK }
    requires size_in_bounds { (at + size ≤ length target.old) × (from + size ≤ length source.now) }
    ensures { target.new ≡ put target.old at (part source.now from size) }
{
    let mut block = [0; BLOCK];
    copy_bytes(&mut block, 0, source, from, size);
    copy_bytes(target, at, &block, 0, size);
}

// Copies `count` bytes of `source`, from place `from` on, into `target` at place `at`: as one block where they fit in one. Where they do
// not, the first go in short blocks, so that no call stands in the loop.
pub fn copy(target: &mut [u8], at: usize, source: &[u8], from: usize, count: usize)
    requires { (at + count ≤ length target.old) × (from + count ≤ length source.now) }
    ensures { target.new ≡ put target.old at (part source.now from count) }
{
    let mut done = 0;
    // No `for`: it goes on by blocks, as long as more than a whole one is left.
    while BLOCK < count - done {
        copy_block(target, at + done, source, from + done, SHORT);
        done += SHORT;
    }
    let left = count - done;
    copy_block(target, at + done, source, from + done, left);
}
