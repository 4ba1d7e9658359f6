// The program `account`: reads a list from standard input and prints what each of its instructions pays for memory, a line for each and one for all. What is
// printed for the bytes read is promised by `put_report`; that it reads and writes them is tested.
#![tactic(auto)]

ghost use Rattle.std.specs.Prelude.{◌≡◌, ◌+◌, ◌*◌, ◌≤◌, ◌++◌, length};
ghost use Rattle.model.specs.Columns.{row_bytes, row_at, table};
ghost use Rattle.row.specs.Plain.{plain};
ghost use Rattle.account.specs.Report.{printed_size, mark_text, charge_text, line_text, total_text, account_text, room_rows, report};
ghost use Rattle.account.specs.Room.{row_text, LinesPut, max_mark, max_charge, max_line, max_total, max_report};

use console::{read_input, write_output};
use count::{Counts, count_row, starts_cycle};
use filler::fill;
use gas::{Bytes, Gas, Words, words_of};
use model::ROW_BYTES;
use refusal::Refusal;
use row::cells::Row;
use row::view::RowBytes;
use text::Page;

// The most bytes of a list that `account` takes, and the bytes that it reads: one more, so that a longer input is seen to be longer.
const ACCOUNT_BYTES: usize = 65536;

const INPUT_BYTES: usize = ACCOUNT_BYTES + 1;

// The empty rows of the trace, and the rows and bytes that there is room for.
const EMPTY_ROWS: u64 = 1;

const ROOM_ROWS: usize = 574;

const ROOM_BYTES: usize = ROOM_ROWS * ROW_BYTES;

// The most bytes of a line and of the last line, and room for what is printed: a line for each row would fit, and the last line.
const LINE_BYTES: usize = 154;

const TOTAL_BYTES: usize = 85;

const REPORT_BYTES: usize = ROOM_ROWS * LINE_BYTES + TOTAL_BYTES;

// The size that is printed for a row: what MSIZE would give after the instruction.
fn printed_size(x: Row) -> Bytes
    ensures { result.0 ≡ printed_size (plain x) }
{
    Bytes(x.body.memn)
}

// The fields of a line up to oob. What puts a part of the lines asks for room of its own, since a page has it or not by what was put before; what puts a whole
// report asks for none.
fn put_mark(page: &mut Page<REPORT_BYTES>, stamp: u64, cn: u64, oob: u64)
    requires { length page.old + max_mark ≤ max_report }
    ensures put { page.new ≡ page.old ++ mark_text stamp cn oob }
    ensures upper_bound { length page.new ≤ length page.old + max_mark }
{
    page.put_field(b"stamp=", stamp);
    page.put_field(b" cn=", cn);
    page.put_field(b" oob=", oob);
}

// The fields of a line from size on, and its newline.
fn put_charge(page: &mut Page<REPORT_BYTES>, size: Bytes, words: Words, gas: Gas)
    requires { length page.old + max_charge ≤ max_report }
    ensures put { page.new ≡ page.old ++ charge_text size.0 words.0 gas.0 }
    ensures upper_bound { length page.new ≤ length page.old + max_charge }
{
    page.put_field(b" size=", size.0 as u64);
    page.put_field(b" words=", words.0 as u64);
    page.put_field(b" gas=", gas.0);
    page.put_bytes(b"\n");
}

// The line of a row.
fn put_line(page: &mut Page<REPORT_BYTES>, x: Row)
    requires { length page.old + max_line ≤ max_report }
    ensures put { page.new ≡ page.old ++ line_text (plain x) }
    ensures upper_bound { length page.new ≤ length page.old + max_line }
{
    let size = printed_size(x);
    let words = words_of(Bytes(x.body.memn));
    put_mark(
        page,
        x.head.stamp as u64,
        x.head.cn as u64,
        x.head.ooob as u64,
    );
    put_charge(page, size, words, Gas(x.body.gas as u64));
}

// The line of a row that starts a cycle, and nothing for any other.
fn put_start(page: &mut Page<REPORT_BYTES>, x: Row)
    requires { length page.old + max_line ≤ max_report }
    ensures put { page.new ≡ page.old ++ row_text (plain x) }
    ensures upper_bound { length page.new ≤ length page.old + max_line }
{
    if starts_cycle(x) {
        put_line(page, x);
    }
}

// A line for each instruction of so many rows, alone on the page, and what the rows are counted as.
fn put_lines(trace: &[u8], rows: usize, page: &mut Page<REPORT_BYTES>) -> Counts
    requires row_bytes_in_bounds { rows * row_bytes ≤ length trace.now }
    requires rows_le_room_rows { rows ≤ room_rows }
    ensures { LinesPut (table rows (row_at trace.now)) page.new result }
{
    page.clear();
    let mut counts = Counts::default();
    for i in 0..rows {
        let x = RowBytes::of_row(trace, i).read();
        put_start(page, x);
        counts = count_row(counts, x);
    }
    counts
}

// The last line.
fn put_total(page: &mut Page<REPORT_BYTES>, counts: Counts, rows: u64)
    requires { length page.old + max_total ≤ max_report }
    ensures { page.new ≡ page.old ++ total_text counts.instructions counts.oob rows }
{
    page.put_field(b"instructions=", counts.instructions);
    page.put_field(b" oob=", counts.oob);
    page.put_field(b" rows=", rows);
    page.put_bytes(b"\n");
}

// All lines for so many rows, alone on the page.
fn put_account(trace: &[u8], rows: usize, page: &mut Page<REPORT_BYTES>)
    requires row_bytes_in_bounds { rows * row_bytes ≤ length trace.now }
    requires rows_le_room_rows { rows ≤ room_rows }
    ensures { page.new ≡ account_text (table rows (row_at trace.now)) }
{
    let counts = put_lines(trace, rows, page);
    put_total(page, counts, rows as u64);
}

// What is printed for the bytes read, alone on the page.
fn put_report(input: &[u8], page: &mut Page<REPORT_BYTES>)
    ensures { page.new ≡ report input.now }
{
    if ACCOUNT_BYTES < input.len() {
        return page.put_refused(Refusal::ListTooLong);
    }
    let mut trace = [0u8; ROOM_BYTES];
    match fill(input, EMPTY_ROWS, &mut trace) {
        Ok(rows) => put_account(&trace, rows as usize, page),
        Err(r) => page.put_refused(r),
    }
}

// After a read that failed nothing is printed.
fn main(rt: HostRuntime) {
    let mut input = [0u8; INPUT_BYTES];
    let Ok(n) = read_input(&rt, b"account", &mut input) else {
        return;
    };
    let mut page = Page::new();
    put_report(&input[..n], &mut page);
    write_output(&rt, b"account", page.bytes());
}
