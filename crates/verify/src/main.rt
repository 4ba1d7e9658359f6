// The program `verify`: reads a trace from standard input and prints its verdict in one line. What is printed for the bytes read is promised by
// `put_report`; that it reads and writes them is tested.
#![tactic(auto)]

ghost use Rattle.std.specs.Prelude.{◌≡◌};
ghost use Rattle.checker.specs.declared.Verdict.TheVariants.{Accepted, Broken};
ghost use Rattle.verify.specs.Report.{line, report};

use checker::Verdict;
use console::{read_input, write_output};
use count::Counts;
use refusal::Refusal;
use text::Page;

// The most bytes of a trace that `verify` takes, and the bytes that it reads: one more, so that a longer input is seen to be longer.
const VERIFY_BYTES: usize = 65436;

const INPUT_BYTES: usize = VERIFY_BYTES + 1;

// Room for a line.
const LINE_BYTES: usize = 128;

// The line of an accepted trace, alone on the page.
fn put_accepted(page: &mut Page<LINE_BYTES>, c: Counts)
    ensures { page.new ≡ line (Accepted c) }
{
    page.clear();
    page.put_field(b"accepted=", 1);
    page.put_field(b" instructions=", c.instructions);
    page.put_field(b" oob=", c.oob);
    page.put_field(b" empty=", c.empty);
    page.put_bytes(b"\n");
}

// The line of a trace that breaks a constraint, alone on the page.
fn put_broken(page: &mut Page<LINE_BYTES>, row: u64, constraint: u64)
    ensures { page.new ≡ line (Broken row constraint) }
{
    page.clear();
    page.put_field(b"accepted=", 0);
    page.put_field(b" row=", row);
    page.put_field(b" constraint=", constraint);
    page.put_bytes(b"\n");
}

// The line printed for the bytes read, alone on the page.
fn put_report(input: &[u8], page: &mut Page<LINE_BYTES>)
    ensures { page.new ≡ report input.now }
{
    if VERIFY_BYTES < input.len() {
        return page.put_refused(Refusal::TooManyRows);
    }
    match checker::check(input) {
        Verdict::Accepted(c) => put_accepted(page, c),
        Verdict::Broken { row, constraint } => put_broken(page, row, constraint),
        Verdict::Refused(r) => page.put_refused(r),
    }
}

// After a read that failed nothing is printed.
fn main(rt: HostRuntime) {
    let mut input = [0u8; INPUT_BYTES];
    let Ok(n) = read_input(&rt, b"verify", &mut input) else {
        return;
    };
    let mut page = Page::new();
    put_report(&input[..n], &mut page);
    write_output(&rt, b"verify", page.bytes());
}
