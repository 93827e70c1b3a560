// The open rows, with what their flows hold.
ghost use Rattle.std.specs.Prelude.{◌≡◌, false, ◌+◌, ◌*◌, ◌<◌, ◌≤◌, length};
ghost use Rattle.flow.specs.Flow.{flows, longest};
ghost use Rattle.table.specs.Rows.{rows};
ghost use Rattle.table.specs.Broken.{broken};
ghost use Rattle.card.specs.Receive.{holding_size};
ghost use Rattle.text.specs.Text.{Appended, SameRoom, HasRoom};
ghost use Rattle.trace.specs.Trace.{hex_or_dash, flow_text, row_line, row_text, rows_text};
ghost use Rattle.trace.specs.Inside.{flow_room, row_line_room, row_room, rows_room, HeldFew};

use flow::{FLOWS, Flow};
use table::{ROWS, Row, Table};
use text::Text;

// Room for a column; for the line of a flow: the word, the row, three columns, a space, a dash or two digits for each byte, the end of the
// line; for that of a row: the word, the row, two columns and the end of the line; and for all rows with their flows.
const COLUMN_ROOM: usize = 1 + text::MOST_DIGITS;

const FLOW_ROOM: usize = 6
    + text::MOST_DIGITS
    + 3 * COLUMN_ROOM
    + 1
    + (1 + 2 * Flow::LONGEST as usize)
    + 1;

const ROW_LINE_ROOM: usize = 5 + text::MOST_DIGITS + 2 * COLUMN_ROOM + 1;

pub const ROWS_ROOM: usize = (ROW_LINE_ROOM + FLOW_ROOM * FLOWS) * ROWS;

// Writes the bytes that a flow holds, or a dash.
fn write_held(text: &mut Text, held: &[u8])
    requires { HasRoom text.old (1 + 2 * length held.now) }
    ensures wrote { Appended text.old text.new (hex_or_dash held.now) }
    ensures same_room { SameRoom text.old text.new }
    ensures upper_bound { text.new.length ≤ text.old.length + 1 + 2 * length held.now }
{
    if held.is_empty() {
        text.byte(b'-');
        return;
    }
    text.hex(held);
}

// Writes the line of flow k of row r, unless the flow is fresh.
fn write_flow(text: &mut Text, r: usize, k: usize, flow: Flow, holding: &[u8])
    requires r_lt_rows { (r < rows) × (k < flows) × (flow.held ≤ longest) }
    requires holding_size_in_bounds { (holding_size ≤ length holding.now) × HasRoom text.old flow_room }
    ensures wrote { Appended text.old text.new (flow_text holding.now r k flow) }
    ensures same_room { SameRoom text.old text.new }
    ensures upper_bound { text.new.length ≤ text.old.length + flow_room }
{
    if flow.heard == 0 {
        return;
    }
    text.words(b" flow ");
    text.decimal(r as u32);
    text.column(k as u32);
    text.column(flow.expected as u32);
    text.column(flow.held as u32);
    text.byte(b' ');
    let place = card::place_of(r, k);
    let held = usize::from(flow.held);
    write_held(text, &holding[place..place + held]);
    text.byte(b'\n');
}

// Writes the line of row r itself.
fn write_row_line(text: &mut Text, r: usize, row: Row)
    requires { (r < rows) × HasRoom text.old row_line_room }
    ensures wrote { Appended text.old text.new (row_line r row) }
    ensures same_room { SameRoom text.old text.new }
    ensures upper_bound { text.new.length ≤ text.old.length + row_line_room }
{
    text.words(b" row ");
    text.decimal(r as u32);
    text.column(row.id);
    text.column(row.kind);
    text.byte(b'\n');
}

// Writes row r and its flows, unless the row is closed.
fn write_row(text: &mut Text, r: usize, row: Row, holding: &[u8])
    requires r_lt_rows { (r < rows) × HeldFew row }
    requires holding_size_in_bounds { (holding_size ≤ length holding.now) × HasRoom text.old row_room }
    ensures wrote { Appended text.old text.new (row_text holding.now r row) }
    ensures same_room { SameRoom text.old text.new }
    ensures upper_bound { text.new.length ≤ text.old.length + row_room }
{
    if table::is_closed(row.kind) {
        return;
    }
    write_row_line(text, r, row);
    for (k, &flow) in row.flows.iter().enumerate() {
        write_flow(text, r, k, flow, holding);
    }
}

// Writes every open row.
pub fn write_rows(text: &mut Text, table: Table, holding: &[u8])
    requires table_value { broken table ≡ false }
    requires holding_size_in_bounds { (holding_size ≤ length holding.now) × HasRoom text.old rows_room }
    ensures wrote { Appended text.old text.new (rows_text (record { table = table; holding = holding.now })) }
    ensures same_room { SameRoom text.old text.new }
    ensures upper_bound { text.new.length ≤ text.old.length + rows_room }
{
    for (r, &row) in table.rows.iter().enumerate() {
        write_row(text, r, row, holding);
    }
}
