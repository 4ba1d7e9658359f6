// The line of a list, read from a place on. Each reader answers on every text and place: what it read and the place after it, or the place of the first
// character that cannot continue any line. Only crates of this repository call these readers.
#![tactic(auto, using(form::proofs::StepLaws::on_got, form::proofs::StepLaws::on_stop, form::proofs::StepLaws::stopped), unfolding(form::specs::Form::read_field, crate::specs::Line::read_two, cell::specs::Low::le, form::specs::Read::read_text))]

ghost use Rattle.std.specs.Prelude.{[], ◌∷◌, ◌≡◌, ◌≤◌};
ghost use Rattle.form.specs.Form.{read_field};
ghost use Rattle.form.specs.Plain.{most_digits, matched, told, number};
ghost use Rattle.form.specs.Read.{read_text};
ghost use Rattle.list.specs.Line.{long_digits, named, cn_field, op_field, line_end, read_two, read_line};
ghost use Rattle.list.specs.Told.{head_values, range_values, line_read};

use claim::instruction::{Fields, Range};
use form::name::Name;
use form::{Read, Stop, has_char, read_name, read_number, read_pair};
use long::Long;

// The digits of cn and of an offset or a length, at most.
const CN_DIGITS: usize = 8;

const LONG_DIGITS: usize = 32;

// The names, each with its number, whose last byte is the first character.
const CN: Name = Name {
    text: b"cn=",
    number: 0x3d6e63,
};

const OP: Name = Name {
    text: b" op=",
    number: 0x3d706f20,
};

const AT1: Name = Name {
    text: b" at1=",
    number: 0x3d31746120,
};

const LEN1: Name = Name {
    text: b" len1=",
    number: 0x3d316e656c20,
};

const AT2: Name = Name {
    text: b" at2=",
    number: 0x3d32746120,
};

const LEN2: Name = Name {
    text: b" len2=",
    number: 0x3d326e656c20,
};

// cn and op.
#[derive(Clone, Copy)]
struct Head {
    cn: u32,
    op: u8,
}

// A name, and a number of at most so many digits behind it.
#[inline(always)]
fn read_named(t: &[u8], p: usize, name: Name, most: usize) -> Result<Read<Long>, Stop>
    requires { most ≤ most_digits }
    ensures { number result ≡ read_field (named name.text.now most) t.now p }
{
    let q = read_name(t, p, name)?;
    read_number(t, q, most)
}

// op.
#[inline(always)]
fn read_op(t: &[u8], p: usize) -> Result<Read<Long>, Stop>
    ensures { number result ≡ read_field op_field t.now p }
{
    let q = read_name(t, p, OP)?;
    read_pair(t, q)
}

// cn and op.
#[inline(always)]
fn read_head(t: &[u8], p: usize) -> Result<Read<Head>, Stop>
    ensures { told head_values result ≡ read_two cn_field op_field t.now p }
{
    let cn = read_named(t, p, CN, CN_DIGITS)?;
    let op = read_op(t, cn.next)?;
    Ok(Read {
        value: Head {
            cn: cn.value.lo as u32,
            op: op.value.lo as u8,
        },
        next: op.next,
    })
}

// An offset and a length, by their names.
#[inline(always)]
fn read_range(t: &[u8], p: usize, at: Name, len: Name) -> Result<Read<Range>, Stop>
    ensures { told range_values result ≡ read_two (named at.text.now long_digits) (named len.text.now long_digits) t.now p }
{
    let at = read_named(t, p, at, LONG_DIGITS)?;
    let len = read_named(t, at.next, len, LONG_DIGITS)?;
    Ok(Read {
        value: Range {
            at: at.value,
            len: len.value,
        },
        next: len.next,
    })
}

// The newline behind the fields.
fn read_end(t: &[u8], p: usize) -> Result<usize, Stop>
    ensures { matched result ≡ read_text line_end t.now p }
{
    if has_char(t, p, b'\n') {
        Ok(p + 1)
    } else {
        Err(Stop(p))
    }
}

// The line from place p on.
#[inline(always)]
pub fn read_line(t: &[u8], p: usize) -> Result<Read<Fields>, Stop>
    ensures { line_read result ≡ read_line t.now p }
{
    let head = read_head(t, p)?;
    let first = read_range(t, head.next, AT1, LEN1)?;
    let second = read_range(t, first.next, AT2, LEN2)?;
    let next = read_end(t, second.next)?;
    Ok(Read {
        value: Fields {
            cn: head.value.cn,
            op: head.value.op,
            at1: first.value.at,
            len1: first.value.len,
            at2: second.value.at,
            len2: second.value.len,
        },
        next,
    })
}
