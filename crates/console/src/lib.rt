// Standard input read whole, and standard output written. What goes wrong is told on standard error, under the name of the program. Only programs of this
// repository call this.
#![tactic(auto)]

ghost use Rattle.std.specs.Prelude.{◌≤◌, length, IfOk};

use std::io;
use std::io::{Read, Write};

// Reads standard input into buf until buf is full or the input ends, and answers how many bytes of it stand at the start of buf. Where a read fails, that is told
// first.
pub fn read_input(rt: &HostRuntime, program: &[u8], buf: &mut [u8]) -> io::Result<usize>
    ensures { IfOk result (λ n. n ≤ length buf.new) }
{
    read_full(&mut rt.stdin(), buf).inspect_err(|e| tell(rt, program, e))
}

// Reads until buf is full or the reader ends, and answers how many bytes stand at the start of buf. The memory is fixed: std's `read_to_end` would put the bytes
// on the heap, and after `read_exact` nobody knows how many came.
pub fn read_full<R: Read>(reader: &mut R, buf: &mut [u8]) -> io::Result<usize>
    ensures { IfOk result (λ n. n ≤ length buf.new) }
{
    let mut done: usize = 0;
    while done < buf.len() {
        let n = reader.read(&mut buf[done..])?;
        if n == 0 {
            break;
        }
        done += n;
    }
    Ok(done)
}

// Writes the bytes to standard output, and tells if they cannot be written.
pub fn write_output(rt: &HostRuntime, program: &[u8], bytes: &[u8]) {
    if let Err(e) = rt.stdout().write_all(bytes) {
        tell(rt, program, &e);
    }
}

// A line on standard error: the program, a colon and what went wrong. There is nobody left to tell if that fails too.
fn tell(rt: &HostRuntime, program: &[u8], e: &io::Error) {
    let _ = tell_line(rt, program, e);
}

fn tell_line(rt: &HostRuntime, program: &[u8], e: &io::Error) -> io::Result<()> {
    let mut err = rt.stderr();
    err.write_all(program)?;
    writeln!(err, ": {e}")
}
