// What is said of the entries that were left out.
ghost use Rattle.std.specs.Prelude.{◌≤◌, length};
ghost use Rattle.text.specs.Text.{Wrote};
ghost use Rattle.pspexport.specs.Counts.{counts_of, counts_room};

use pcap::export::Exported;
use text::Text;

// Room for it.
pub const COUNTS_ROOM: usize = 35;

// Writes a line for the opens and one for the closes, and answers how long they are.
pub fn write_counts(exported: Exported, text: &mut [u8]) -> usize
    requires opens_bound { (exported.opens ≤ 4294967295) × (exported.closes ≤ 4294967295) }
    requires counts_room_in_bounds { counts_room ≤ length text.old }
    ensures { Wrote text.old text.new 0 result (counts_of exported) }
{
    let mut text = Text::new(text);
    tool::write_line(&mut text, b"opens", exported.opens as u32);
    tool::write_line(&mut text, b"closes", exported.closes as u32);
    text.length
}
