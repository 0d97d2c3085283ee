// What the writer does with a line: its length, and its bytes. Each function that writes answers the place after what it has
// written: the bytes are the caller's, as there is no heap, and a line may stand anywhere in them.
ghost use Rattle.std.specs.Prelude.{◌≡◌, ◌+◌, ◌<◌, ◌≤◌, length};
ghost use Rattle.rules.specs.Text.{key, digits, line};
ghost use Rattle.lines.specs.Put.{Over};

use crate::keys;

// How many digits n has.
fn digit_count(n: u32) -> usize
    ensures { (result ≡ length (digits n)) × (result ≤ 10) }
{
    match n {
        0..=9 => 1,
        10..=99 => 2,
        100..=999 => 3,
        1_000..=9_999 => 4,
        10_000..=99_999 => 5,
        100_000..=999_999 => 6,
        1_000_000..=9_999_999 => 7,
        10_000_000..=99_999_999 => 8,
        100_000_000..=999_999_999 => 9,
        _ => 10,
    }
}

// How many bytes the line of key k and a value has.
pub fn line_length(k: usize, value: u32) -> usize
    requires { k < 12 }
    ensures { (result ≡ length (line (key k) value)) × (result ≤ 20) }
{
    keys::key(k).len() + digit_count(value) + 1
}

// Bytes, written from `at` on, one by one: `copy_from_slice` would call `memmove`, and the library for C must do without.
pub fn put_bytes(out: &mut [u8], at: usize, bytes: &[u8]) -> usize
    requires { at + length bytes.now ≤ length out.old }
    ensures { Over out.old at bytes.now out.new result }
{
    for i in 0..bytes.len() {
        out[at + i] = bytes[i];
    }
    at + bytes.len()
}

// The digits of n, written from `at` on, the last ones first, two at a time. A `while`, as it divides until little is left.
pub fn put_number(out: &mut [u8], at: usize, n: u32) -> usize
    requires { at + length (digits n) ≤ length out.old }
    ensures { Over out.old at (digits n) out.new result }
{
    let end = at + digit_count(n);
    let mut p = end;
    let mut rest = n;
    while 100 <= rest {
        p -= 2;
        let two = rest % 100;
        out[p + 1] = 48 + (two % 10) as u8;
        out[p] = 48 + (two / 10) as u8;
        rest /= 100;
    }
    if 10 <= rest {
        out[at + 1] = 48 + (rest % 10) as u8;
        out[at] = 48 + (rest / 10) as u8;
        return end;
    }
    out[at] = 48 + rest as u8;
    end
}

// The line of key k and a value, written from `at` on.
pub fn put_line(out: &mut [u8], at: usize, k: usize, value: u32) -> usize
    requires { (k < 12) × (at + length (line (key k) value) ≤ length out.old) }
    ensures { Over out.old at (line (key k) value) out.new result }
{
    let equals = put_bytes(out, at, keys::key(k));
    let end = put_number(out, equals, value);
    out[end] = 10;
    end + 1
}
