// Big-endian numbers of 1, 2, 3, 4, 8 and 17 bytes, written to a lent slice, whose other bytes stay: the compiler makes one swap and one store of each array.
// Only crates of this repository call these writers: each asks that there is room. As with the readers each width has a name of its own, and a buffer and a place
// in it are two parameters.
ghost use Rattle.std.specs.Prelude.{◌≡◌, ◌+◌, ◌≤◌, length};
ghost use Rattle.std.proofs.lemmas.List.Edits.{sets};
ghost use Rattle.number.specs.Num.{be};
ghost use Rattle.number.specs.Whole.{val};

use number::wide::Wide;

// These bytes from `at` on.
fn store(buf: &mut [u8], at: usize, bytes: &[u8])
    requires { at + length bytes.now ≤ length buf.old }
    ensures { buf.new ≡ sets buf.old at bytes.now }
{
    buf[at..at + bytes.len()].copy_from_slice(bytes);
}

// The byte v at `at`.
pub fn put_u8(buf: &mut [u8], at: usize, v: u8)
    requires { at + 1 ≤ length buf.old }
    ensures { buf.new ≡ sets buf.old at (be 1 v) }
{
    buf[at] = v;
}

// The two bytes of v from `at` on.
pub fn put_u16(buf: &mut [u8], at: usize, v: u16)
    requires { at + 2 ≤ length buf.old }
    ensures { buf.new ≡ sets buf.old at (be 2 v) }
{
    store(buf, at, &u16::to_be_bytes(v));
}

// The last three bytes of v from `at` on.
pub fn put_u24(buf: &mut [u8], at: usize, v: u32)
    requires { at + 3 ≤ length buf.old }
    ensures { buf.new ≡ sets buf.old at (be 3 v) }
{
    put_u16(buf, at, (v / 256 % 65536) as u16);
    put_u8(buf, at + 2, (v % 256) as u8);
}

// The four bytes of v from `at` on.
pub fn put_u32(buf: &mut [u8], at: usize, v: u32)
    requires { at + 4 ≤ length buf.old }
    ensures { buf.new ≡ sets buf.old at (be 4 v) }
{
    store(buf, at, &u32::to_be_bytes(v));
}

// The eight bytes of v from `at` on.
pub fn put_u64(buf: &mut [u8], at: usize, v: u64)
    requires { at + 8 ≤ length buf.old }
    ensures { buf.new ≡ sets buf.old at (be 8 v) }
{
    store(buf, at, &u64::to_be_bytes(v));
}

// The 17 bytes of v from `at` on.
pub fn put_wide(buf: &mut [u8], at: usize, v: Wide)
    requires { at + 17 ≤ length buf.old }
    ensures { buf.new ≡ sets buf.old at (be 17 (val v)) }
{
    put_u8(buf, at, v.top);
    let next = at + 1;
    put_u64(buf, next, v.hi);
    put_u64(buf, next + 8, v.lo);
}
