// The lines of a listing.
ghost use Rattle.std.specs.Prelude.{◌+◌, ◌≤◌};
ghost use Rattle.text.specs.Text.{Appended, SameRoom, HasRoom};
ghost use Rattle.listing.specs.Listing.{heading, word_for, columns, line};
ghost use Rattle.listing.specs.Inside.{word_room, columns_room, line_room, heading_room, numbers_of};

use capture::Kind;
use card::Received;
use text::Text;

// Writes the heading.
pub fn write_heading(text: &mut Text)
    requires { HasRoom text.old heading_room }
    ensures wrote { Appended text.old text.new heading }
    ensures same_room { SameRoom text.old text.new }
{
    text.words(b"n what code frames bytes dropped gap\n");
}

// Writes what an entry of this kind is.
fn write_kind(text: &mut Text, kind: u8)
    requires { HasRoom text.old word_room }
    ensures wrote { Appended text.old text.new (word_for kind) }
    ensures same_room { SameRoom text.old text.new }
    ensures upper_bound { text.new.length ≤ text.old.length + word_room }
{
    match Kind::try_from(kind) {
        Ok(Kind::OpenPsp | Kind::OpenDmpt) => text.words(b"open"),
        Ok(Kind::Close) => text.words(b"close"),
        _ => text.words(b"data"),
    }
}

// Writes the columns of an answer.
fn write_columns(text: &mut Text, ran: Received)
    requires { HasRoom text.old columns_room }
    ensures wrote { Appended text.old text.new (columns (numbers_of ran)) }
    ensures same_room { SameRoom text.old text.new }
    ensures upper_bound { text.new.length ≤ text.old.length + columns_room }
{
    text.column(ran.code);
    text.column(ran.frames);
    text.column(ran.bytes);
    text.column(ran.dropped);
    text.column(ran.gap);
}

// Writes the line of an entry.
pub fn write_line(text: &mut Text, index: u32, kind: u8, ran: Received)
    requires { HasRoom text.old line_room }
    ensures wrote { Appended text.old text.new (line index kind (numbers_of ran)) }
    ensures same_room { SameRoom text.old text.new }
    ensures upper_bound { text.new.length ≤ text.old.length + line_room }
{
    text.decimal(index);
    text.byte(b' ');
    write_kind(text, kind);
    write_columns(text, ran);
    text.byte(b'\n');
}
