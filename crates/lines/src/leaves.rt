// The leaves of the reader. Each answers the place after what it took, or the place where it stopped.
ghost use Rattle.std.specs.Prelude.{◌≡◌, ◌+◌, ◌<◌, ◌≤◌, length};
ghost use Rattle.rules.specs.Text.{key, number, line_value};
ghost use Rattle.lines.specs.Leaves.{Matched, Counting, Took, LineEnds};

use crate::keys;

// The place of the first byte with which nothing allowed goes on.
#[derive(Clone, Copy)]
pub struct Stopped(pub usize);

// What stands at the front of a text: its value, and the place after it.
#[derive(Clone, Copy)]
pub struct Found<T> {
    pub value: T,
    pub end: usize,
}

// Whether a line starts with these bytes: the place after them.
pub fn match_bytes(line: &[u8], bytes: &[u8]) -> Result<usize, Stopped>
    ensures { Matched bytes.now line.now result }
{
    let both = line.len().min(bytes.len());
    for i in 0..both {
        if line[i] != bytes[i] {
            return Err(Stopped(i));
        }
    }
    if both < bytes.len() {
        return Err(Stopped(both));
    }
    Ok(both)
}

// The digits after a number's first, two at a time while both are there. No nine digits make a number too large, so none is
// refused here. A `while`, as it takes two bytes a turn: that is faster than one.
fn read_pairs(digits: &[u8], first: u64) -> Found<u64>
    requires { Counting digits.now first 1 × (first < 10) }
    ensures { Counting digits.now result.value result.end }
{
    let most = digits.len().min(9);
    let mut value = first;
    let mut end = 1;
    if first == 0 {
        return Found { value, end };
    }
    while end + 1 < most {
        let tens = digits[end];
        let ones = digits[end + 1];
        if !tens.is_ascii_digit() || !ones.is_ascii_digit() {
            break;
        }
        value = value * 100 + (u64::from(tens - 48) * 10 + u64::from(ones - 48));
        end += 2;
    }
    Found { value, end }
}

// The number with which `digits` starts. A 0 is no number's first digit but its own, and no number is above 4,294,967,295.
fn read_number(digits: &[u8]) -> Result<Found<u32>, Stopped>
    ensures { Took (number digits.now) digits.now result }
{
    let [first, ..] = digits else {
        return Err(Stopped(0));
    };
    if !first.is_ascii_digit() {
        return Err(Stopped(0));
    }
    let front = read_pairs(digits, u64::from(*first - 48));
    let mut value = front.value;
    for i in front.end..digits.len() {
        let digit = digits[i];
        if !digit.is_ascii_digit() {
            return Ok(Found {
                value: value as u32,
                end: i,
            });
        }
        let leading = value == 0;
        if leading {
            return Err(Stopped(i));
        }
        let longer = value * 10 + u64::from(digit - 48);
        let too_large = 4294967295 < longer;
        if too_large {
            return Err(Stopped(i));
        }
        value = longer;
    }
    Ok(Found {
        value: value as u32,
        end: digits.len(),
    })
}

// The line's value, if an LF stands after it, at `at`.
fn line_end(line: &[u8], value: u32, at: usize) -> Result<Found<u32>, Stopped>
    requires { at ≤ length line.now }
    ensures { LineEnds line.now value at result }
{
    if at < line.len() && line[at] == b'\n' {
        return Ok(Found { value, end: at + 1 });
    }
    Err(Stopped(at))
}

// The value of the line with key k that the text starts with.
pub fn line_value(line: &[u8], k: usize) -> Result<Found<u32>, Stopped>
    requires { k < 12 }
    ensures { Took (line_value (key k) line.now) line.now result }
{
    let n = match_bytes(line, keys::key(k))?;
    match read_number(&line[n..]) {
        Ok(number) => line_end(line, number.value, n + number.end),
        Err(stopped) => Err(Stopped(n + stopped.0)),
    }
}
