// What is said of the records that were skipped.
ghost use Rattle.std.specs.Prelude.{◌≤◌, length};
ghost use Rattle.text.specs.Text.{Wrote};
ghost use Rattle.pspimport.specs.Counts.{counts_of, counts_room};

use pcap::import::Imported;
use text::Text;

// Room for it.
pub const COUNTS_ROOM: usize = 80;

// Writes a line for each cause, and answers how long they are.
pub fn write_counts(imported: Imported, text: &mut [u8]) -> usize
    requires foreign_bound { (imported.foreign ≤ 4294967295) × (imported.misfits ≤ 4294967295) }
    requires fragments_bound { (imported.fragments ≤ 4294967295) × (imported.others ≤ 4294967295) }
    requires counts_room_in_bounds { counts_room ≤ length text.old }
    ensures { Wrote text.old text.new 0 result (counts_of imported) }
{
    let mut text = Text::new(text);
    tool::write_line(&mut text, b"not-ipv4", imported.foreign as u32);
    tool::write_line(&mut text, b"bad-lengths", imported.misfits as u32);
    tool::write_line(&mut text, b"fragment", imported.fragments as u32);
    tool::write_line(&mut text, b"other", imported.others as u32);
    text.length
}
