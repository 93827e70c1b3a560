// A number that a text says: in decimal, or in hexadecimal behind 0x.
ghost use Rattle.std.specs.Prelude.{◌≡◌, ◌+◌, ◌*◌, ◌≤◌};
ghost use Rattle.tool.specs.Number.{digit_said, is_hexadecimal, said_by, said};

const DECIMAL: usize = 10;

pub const HEXADECIMAL: usize = 16;

// Up to here one digit more still makes a number of at most ten decimal digits, and of at most eight hexadecimal ones.
const NINE_DIGITS: usize = 999999999;

const SEVEN_DIGITS: usize = 268435455;

// What the letter a says in hexadecimal.
const LETTER_A: usize = 10;

// How long 0x is.
const PREFIX: usize = 2;

// The number that a text says, if it says one.
pub fn number(text: &[u8]) -> Option<usize>
    ensures { result ≡ said text.now }
{
    if is_hexadecimal(text) {
        return digits(&text[PREFIX..], HEXADECIMAL, SEVEN_DIGITS);
    }
    digits(text, DECIMAL, NINE_DIGITS)
}

// Whether a text begins with 0x or 0X.
fn is_hexadecimal(text: &[u8]) -> bool
    ensures { result ≡ is_hexadecimal text.now }
{
    matches!(text, [b'0', b'x' | b'X', ..])
}

// The number that digits say; none where there are none, where another byte stands among them, or where they are too many: behind a number
// over `greatest` no digit may come.
// (By hand, as `said_by` has it: std's `from_str_radix` takes a sign in front, and does not count digits.)
fn digits(text: &[u8], base: usize, greatest: usize) -> Option<usize>
    requires { (1 ≤ base) × (base ≤ 16) × (greatest ≤ 999999999) }
    ensures { result ≡ said_by base (base * (greatest + 1)) text.now }
{
    if text.is_empty() {
        return None;
    }
    let mut value: usize = 0;
    for byte in text {
        let digit = digit_value(*byte)?;
        if (base <= digit) | (greatest < value) {
            return None;
        }
        value = base * value + digit;
    }
    Some(value)
}

// The value of a digit's byte, if it is one of a digit.
// (Not `to_digit`: the edit tool/letter_from_nine has its slip here.)
pub fn digit_value(byte: u8) -> Option<usize>
    ensures { result ≡ digit_said byte }
{
    match byte {
        b'0'..=b'9' => Some(usize::from(byte - b'0')),
        b'a'..=b'f' => Some(usize::from(byte - b'a') + LETTER_A),
        b'A'..=b'F' => Some(usize::from(byte - b'A') + LETTER_A),
        _ => None,
    }
}
