// Text written into a slice: words, numbers in decimal, bytes in hexadecimal. A text is a room and how long what is written in it is; each
// method writes behind that, and nothing else of the room changes. Only proved code calls them, so each asks that there is room.
#![tactic(auto)]

ghost use Rattle.std.specs.Prelude.{◌≡◌, ◌+◌, ◌*◌, ◌<◌, ◌≤◌, ◌∷◌, [], length, take};
ghost use Rattle.text.specs.Text.{decimal, most_digits, hex_digit, hex, column, Appended, SameRoom, HasRoom};

// No number of 32 bits has more digits.
pub const MOST_DIGITS: usize = 10;

// How many digits a number has.
fn digit_count(number: u32) -> usize
    ensures { (result ≡ length (decimal number)) × (result ≤ most_digits) }
{
    let mut count: usize = 1;
    let mut left = number;
    // No `for`: how many digits there are is what is counted. By hand, since `decimal` of the definitions divides so.
    while 9 < left {
        left /= 10;
        count += 1;
    }
    count
}

// The byte of a digit.
fn digit_byte(digit: u32) -> u8
    requires { digit < 10 }
    ensures { result ≡ 48 + digit }
{
    48 + digit as u8
}

// The byte of a hexadecimal digit.
// (As with `decimal`, std's formatting does not say what it wrote.)
fn hex_digit(digit: u8) -> u8
    requires { digit < 16 }
    ensures { result ≡ hex_digit digit }
{
    if digit < 10 { 48 + digit } else { 87 + digit }
}

// A text that is being written: the room for it, and how long it is so far.
#[derive(Drop)]
pub struct Text<'a> {
    pub room: &'a mut [u8],
    pub length: usize,
}

impl<'a> Text<'a> {
    // A text of which nothing is written yet.
    pub fn new(room: &'a mut [u8]) -> Text<'a>
        ensures same_room { result.room.ghost_name ≡ room.entry.ghost_name }
        ensures its_bytes { result.room.now ≡ room.old }
        ensures empty { result.length ≡ 0 }
    {
        Text { room, length: 0 }
    }

    // What is written so far.
    pub fn written(&self) -> &[u8]
        requires { HasRoom self.now 0 }
        ensures { result.now ≡ take self.now.length self.now.room.now }
    {
        let length = self.length;
        &self.room[..length]
    }

    // Writes one byte.
    pub fn byte(&mut self, byte: u8)
        requires { HasRoom self.old 1 }
        ensures wrote { Appended self.old self.new (byte ∷ []) }
        ensures same_room { SameRoom self.old self.new }
    {
        self.room[self.length] = byte;
        self.length += 1;
    }

    // Writes a word, or a line of them.
    pub fn words(&mut self, words: &[u8])
        requires { HasRoom self.old (length words.now) }
        ensures wrote { Appended self.old self.new words.now }
        ensures same_room { SameRoom self.old self.new }
    {
        let next = self.length + words.len();
        self.room[self.length..next].copy_from_slice(words);
        self.length = next;
    }

    // Writes a number in decimal, from its last digit to its first. By hand, since std's `write!` says what it wrote only where it answers
    // `Ok`, and nothing says that it does where there is room: `wrote` is said of every call.
    pub fn decimal(&mut self, number: u32)
        requires { HasRoom self.old most_digits }
        ensures wrote { Appended self.old self.new (decimal number) }
        ensures same_room { SameRoom self.old self.new }
        ensures upper_bound { self.new.length ≤ self.old.length + most_digits }
    {
        let next = self.length + digit_count(number);
        let mut place = next;
        let mut rest = number;
        // No `for`: it goes by what is left of the number.
        while 9 < rest {
            place -= 1;
            self.room[place] = digit_byte(rest % 10);
            rest /= 10;
        }
        self.room[self.length] = digit_byte(rest);
        self.length = next;
    }

    // Writes a number behind a space.
    pub fn column(&mut self, number: u32)
        requires { HasRoom self.old (1 + most_digits) }
        ensures wrote { Appended self.old self.new (column number) }
        ensures same_room { SameRoom self.old self.new }
        ensures upper_bound { self.new.length ≤ self.old.length + 1 + most_digits }
    {
        self.byte(b' ');
        self.decimal(number);
    }

    // Writes bytes in hexadecimal.
    pub fn hex(&mut self, bytes: &[u8])
        requires { HasRoom self.old (2 * length bytes.now) }
        ensures wrote { Appended self.old self.new (hex bytes.now) }
        ensures same_room { SameRoom self.old self.new }
        ensures value { self.new.length ≡ self.old.length + 2 * length bytes.now }
    {
        for byte in bytes {
            self.byte(hex_digit(*byte / 16));
            self.byte(hex_digit(*byte % 16));
        }
    }
}
