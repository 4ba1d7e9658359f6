// Big-endian numbers of 1, 2, 3, 4, 6, 8 and 17 bytes, and a little-endian one of 8, read from a slice of bytes: the compiler makes one load of each array, and
// one swap. Only crates of this repository call these readers: each asks that its bytes are there. Each width has a name of its own, as std's `from_be_bytes`
// has at each type, so that a call says how many bytes it reads. The bytes and a place in them are two parameters: a struct of both would be made anew for each cell.
ghost use Rattle.std.specs.Prelude.{◌≡◌, ◌+◌, ◌≤◌, length, take, drop};
ghost use Rattle.number.specs.Num.{num};
ghost use Rattle.number.specs.Whole.{val};
ghost use Rattle.cell.specs.Low.{low_num};

use number::wide::Wide;

// The N bytes from p on.
fn bytes_at<const N: usize>(t: &[u8], p: usize) -> [u8; N]
    requires { p + N ≤ length t.now }
    ensures { result ≡ take N (drop p t.now) }
{
    let mut bytes = [0u8; N];
    bytes.copy_from_slice(&t[p..p + N]);
    bytes
}

// The little-endian number in the eight bytes from p on.
#[tactic(auto, using(crate::proofs::ReadLaws::le_read_8))]
pub fn low64_at(t: &[u8], p: usize) -> u64
    requires { p + 8 ≤ length t.now }
    ensures { result ≡ low_num t.now p 8 }
{
    u64::from_le_bytes(bytes_at(t, p))
}

// The byte at p.
pub fn u8_at(t: &[u8], p: usize) -> u8
    requires { p + 1 ≤ length t.now }
    ensures { result ≡ num t.now p 1 }
{
    t[p]
}

// The number in the two bytes from p on.
#[tactic(auto, using(crate::proofs::ReadLaws::be_read_2))]
pub fn u16_at(t: &[u8], p: usize) -> u16
    requires { p + 2 ≤ length t.now }
    ensures { result ≡ num t.now p 2 }
{
    u16::from_be_bytes(bytes_at(t, p))
}

// The number in the four bytes from p on.
#[tactic(auto, using(crate::proofs::ReadLaws::be_read_4))]
pub fn u32_at(t: &[u8], p: usize) -> u32
    requires { p + 4 ≤ length t.now }
    ensures { result ≡ num t.now p 4 }
{
    u32::from_be_bytes(bytes_at(t, p))
}

// The number in the eight bytes from p on.
#[tactic(auto, using(crate::proofs::ReadLaws::be_read_8))]
pub fn u64_at(t: &[u8], p: usize) -> u64
    requires { p + 8 ≤ length t.now }
    ensures { result ≡ num t.now p 8 }
{
    u64::from_be_bytes(bytes_at(t, p))
}

// The number in the three bytes from p on. Four bytes are read at once: it asks that a fourth is there.
pub fn u24_at(t: &[u8], p: usize) -> u32
    requires { p + 4 ≤ length t.now }
    ensures { result ≡ num t.now p 3 }
{
    u32_at(t, p) / 256
}

// The number in the six bytes from p on. Eight bytes are read at once: it asks that two more are there.
pub fn u48_at(t: &[u8], p: usize) -> u64
    requires { p + 8 ≤ length t.now }
    ensures { result ≡ num t.now p 6 }
{
    u64_at(t, p) / 65536
}

// The number in the 17 bytes from p on.
pub fn wide_at(t: &[u8], p: usize) -> Wide
    requires { p + 17 ≤ length t.now }
    ensures { val result ≡ num t.now p 17 }
{
    Wide {
        top: u8_at(t, p),
        hi: u64_at(t, p + 1),
        lo: u64_at(t, p + 9),
    }
}
