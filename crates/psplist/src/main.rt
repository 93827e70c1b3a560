// psplist < CAPTURE
//
// Lists a capture: reads it on standard input, runs it from an empty table, and prints a heading and a line for each entry, or the one
// line `refused` and the number (document 01, "Capture file and listing"). All of the text is what `listing::list` made; here it is only
// read in and written out. One byte more than a capture may have is read, so that a longer one is seen to be too long (41).
#![tactic(auto)]

fn main(rt: HostRuntime) {
    let mut file = tool::capture_room();
    let read = tool::read_input(&mut rt.stdin(), &mut file);
    let mut text = [0u8; listing::LISTING_ROOM];
    let length = listing::list(&file[..read], &mut text);
    tool::write_output(&mut rt.stdout(), &text[..length]);
}
