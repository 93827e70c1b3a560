// What the programs share: the number or the address that an argument says, standard input read into its room, text written out, and lines
// of a word and a number, that of a refusal among them.
#![tactic(auto)]

pub mod address;
pub mod number;

ghost use Rattle.std.specs.Prelude.{◌≡◌, ◌+◌, ◌≤◌, length};
ghost use Rattle.std.specs.Counts.{IsPrefixLen};
ghost use Rattle.capture.specs.File.{longest_file};
ghost use Rattle.text.specs.Text.{Appended, SameRoom, HasRoom};
ghost use Rattle.tool.specs.Line.{line_of, number_room};
ghost use Rattle.tool.specs.Refused.{refused_line, refused_room};

use std::env::{Env, FillError};
use std::io::{Read, Write};
use text::Text;

// Room for an argument. A longer one says no number, and no address.
const ARGUMENT_ROOM: usize = 32;

// Room for a capture, and one byte more, so that a longer one is seen to be too long.
const CAPTURE_ROOM: usize = capture::LONGEST_FILE + 1;

// Room for the line of a refusal.
const REFUSED_ROOM: usize = 19;

// What argument i of the program says, if it says something: `meaning` reads it.
pub fn argument<T, M: Fn(&[u8]) -> Option<T> + Drop>(
    env: &impl Env,
    i: usize,
    meaning: M,
) -> Option<T>
    requires { M.IsAlwaysCallable meaning }
{
    let mut text = [0u8; ARGUMENT_ROOM];
    let length = read_argument(env, i, &mut text);
    meaning(&text[..length])
}

// Puts argument i at the start of a room and answers how long it is: 0 where there is no such argument, or it is longer than the room.
fn read_argument(env: &impl Env, i: usize, room: &mut [u8]) -> usize
    ensures { IsPrefixLen result room.new }
{
    env.arg(i, room).unwrap_or(0)
}

// How many arguments the program was started with, its own name among them. No contract says what an environment gives, so none says more
// of it.
pub fn argument_count(env: &impl Env) -> usize {
    let mut room = [0u8; ARGUMENT_ROOM];
    for i in 0..usize::MAX {
        if let Err(FillError::NotPresent) = env.arg(i, &mut room) {
            return i;
        }
    }
    usize::MAX
}

// A room of any size, the same all over. The contract says how long it is, so that a proof need not count the zeros of a large one.
pub fn room<T: Copy, const N: usize>(all: T) -> [T; N]
    ensures { N ≡ length result }
{
    [all; N]
}

// Room for a capture, as a function: so its length is said, and the edit tool/capture_room_of_60000 refused, in one place.
pub fn capture_room() -> [u8; CAPTURE_ROOM]
    ensures { longest_file + 1 ≡ length result }
{
    room(0)
}

// Reads an input into a room until there is no more room, the input ends or a read fails, and answers how many bytes it read.
pub fn read_input(input: &mut impl Read, room: &mut [u8]) -> usize
    ensures { IsPrefixLen result room.new }
{
    let mut done = 0;
    // No `for`: how much a read gives is for the input to say.
    while done < room.len() {
        match input.read(&mut room[done..]) {
            Ok(0) | Err(_) => break,
            Ok(more) => done += more,
        }
    }
    done
}

// Writes on standard output, and on standard error, up to the first write that fails. (One body: the names say where to.)
pub fn write_output(output: &mut impl Write, text: &[u8]) {
    let _ = output.write_all(text);
}

pub fn write_error(errors: &mut impl Write, text: &[u8]) {
    let _ = errors.write_all(text);
}

// Writes a line of a word and a number into a text.
pub fn write_line(text: &mut Text, word: &[u8], number: u32)
    requires { HasRoom text.old (length word.now + number_room) }
    ensures wrote { Appended text.old text.new (line_of word.now number) }
    ensures same_room { SameRoom text.old text.new }
    ensures upper_bound { text.new.length ≤ text.old.length + length word.now + number_room }
{
    text.words(word);
    text.column(number);
    text.byte(b'\n');
}

// Writes the one line of a refusal into a text.
pub fn write_refused(text: &mut Text, number: u32)
    requires { HasRoom text.old refused_room }
    ensures wrote { Appended text.old text.new (refused_line number) }
    ensures same_room { SameRoom text.old text.new }
{
    write_line(text, b"refused", number);
}

// Writes that line on standard error.
pub fn refuse(errors: &mut impl Write, number: u32) {
    let mut room = [0u8; REFUSED_ROOM];
    let mut text = Text::new(&mut room);
    write_refused(&mut text, number);
    write_error(errors, text.written());
}
