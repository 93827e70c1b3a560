// An address that a text says: one of Ethernet, as 02:00:00:00:00:01, or one of IPv4, as 192.0.2.1.
ghost use Rattle.std.specs.Prelude.{◌≡◌, ◌<◌, length};
ghost use Rattle.tool.specs.Address.{mac_groups, mac_text, group_said, mac_said, first_dot, zero_in_front, octet_said, ipv4_said};

use crate::number;
use crate::number::HEXADECIMAL;

// How many groups an address of Ethernet has, how many bytes a group takes with its colon, and how long the text is.
pub const MAC_GROUPS: usize = 6;

const GROUP: usize = 3;

const MAC_TEXT: usize = 17;

// The greatest of the four numbers of an address of IPv4.
const GREATEST: usize = 255;

// The address of Ethernet that a text says, if it says one.
pub fn mac(text: &[u8]) -> Option<[u8; MAC_GROUPS]>
    ensures { result ≡ mac_said text.now }
{
    if text.len() != MAC_TEXT {
        return None;
    }
    let mut bytes = [0u8; MAC_GROUPS];
    for k in 0..MAC_GROUPS {
        bytes[k] = group(text, k)?;
    }
    Some(bytes)
}

// The byte that group k says; none where a byte of it is no digit, or no colon follows, and it is not the last.
fn group(text: &[u8], k: usize) -> Option<u8>
    requires { (length text.now ≡ mac_text) × (k < mac_groups) }
    ensures { result ≡ group_said text.now k }
{
    let at = GROUP * k;
    let high = number::digit_value(text[at])?;
    let low = number::digit_value(text[at + 1])?;
    if (k + 1 < MAC_GROUPS) && (text[at + 2] != b':') {
        return None;
    }
    Some((HEXADECIMAL * high + low) as u8)
}

// The address of IPv4 that a text says, as a number, if it says one. A dot behind the third is no digit, so the last part says nothing
// then.
pub fn ipv4(text: &[u8]) -> Option<u32>
    ensures { result ≡ ipv4_said text.now }
{
    let first = dot(text)?;
    let behind_first = &text[first + 1..];
    let second = dot(behind_first)?;
    let behind_second = &behind_first[second + 1..];
    let third = dot(behind_second)?;
    let behind_third = &behind_second[third + 1..];
    let a = octet(&text[..first])?;
    let b = octet(&behind_first[..second])?;
    let c = octet(&behind_second[..third])?;
    let d = octet(behind_third)?;
    Some(u32::from_be_bytes([a, b, c, d]))
}

// Where the first dot of a text stands, if there is one.
fn dot(text: &[u8]) -> Option<usize>
    ensures { result ≡ first_dot text.now }
{
    text.iter().position(|byte| *byte == b'.')
}

// The number from 0 to 255 that a text says without zeros in front, if it says one.
// (Compared, and no `u8::try_from`: the edit tool/takes_256 has its slip here.)
fn octet(text: &[u8]) -> Option<u8>
    ensures { result ≡ octet_said text.now }
{
    if is_zero_in_front(text) {
        return None;
    }
    let value = number::number(text)?;
    if GREATEST < value {
        return None;
    }
    Some(value as u8)
}

fn is_zero_in_front(text: &[u8]) -> bool
    ensures { result ≡ zero_in_front text.now }
{
    matches!(text, [b'0', _, ..])
}
