// The header of a pcap file. Nothing here asks for anything but a file.
ghost use Rattle.std.specs.Prelude.{◌≡◌, ◌≤◌, length};
ghost use Rattle.pcap.specs.File.{file_header, is_little, wrong_fields, bad_header, first_place};

// How long the file's header is, and a record's.
pub const FILE_HEADER: usize = 24;

pub const RECORD_HEADER: usize = 16;

pub const MAGIC: u32 = 0xA1B2C3D4;

// Where the file's header says version and link type, and what it has to say.
const MAJOR_AT: usize = 4;

const MINOR_AT: usize = 6;

const LINK_AT: usize = 20;

pub const MAJOR: u16 = 2;

pub const MINOR: u16 = 4;

pub const ETHERNET: u32 = 1;

// Whether the file's numbers have the least significant byte first.
#[tactic(auto, unfolding(crate::specs::File::is_little))]
pub fn is_little(file: &[u8]) -> bool
    ensures { result ≡ is_little file.now }
{
    if file.len() < FILE_HEADER {
        return false;
    }
    octets::read_little_u32(file, 0) == MAGIC
}

#[tactic(auto, unfolding(crate::specs::File::wrong_fields))]
fn wrong_fields(file: &[u8], little: bool) -> bool
    requires { file_header ≤ length file.now }
    ensures { result ≡ wrong_fields little file.now }
{
    let magic = octets::read_u32_in(file, 0, little);
    let major = octets::read_u16_in(file, MAJOR_AT, little);
    let minor = octets::read_u16_in(file, MINOR_AT, little);
    let link = octets::read_u32_in(file, LINK_AT, little);
    (magic != MAGIC) | (major != MAJOR) | (minor != MINOR) | (link != ETHERNET)
}

// Whether the file's header is another one than that of a classic pcap file with Ethernet packets (61).
#[tactic(auto, unfolding(crate::specs::File::bad_header))]
pub fn bad_header(file: &[u8]) -> bool
    ensures { result ≡ bad_header file.now }
{
    if file.len() < FILE_HEADER {
        return true;
    }
    wrong_fields(file, is_little(file))
}

// The place of the first record; of a file with a bad header, the end.
#[tactic(auto, unfolding(crate::specs::File::first_place))]
pub fn first_place(file: &[u8]) -> usize
    ensures { result ≡ first_place file.now }
{
    if bad_header(file) {
        return file.len();
    }
    FILE_HEADER
}
