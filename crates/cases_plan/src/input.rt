// Numbers and lists out of a text.
ghost use Rattle.std.specs.Prelude.{◌≡◌, ◌≤◌, length};

// Places for a list to be read into or lent, each with a number by which it can be seen what was written.
pub fn places() -> [u32; 600]
    ensures { 600 ≡ length result }
{
    [7; 600]
}

// The numbers of a text, one after the other, parted by whatever is no digit.
#[derive(Drop)]
pub struct Numbers<'a> {
    rest: &'a [u8],
}

impl<'a> Numbers<'a> {
    pub fn new(text: &'a [u8]) -> Numbers<'a> {
        Numbers { rest: text }
    }

    // The next number, or 0 where there is none: a case that is cut off reads zeros, so this is no iterator.
    pub fn next(&mut self) -> u32 {
        let text = self.rest;
        let start = text
            .iter()
            .position(u8::is_ascii_digit)
            .unwrap_or(text.len());
        let text = &text[start..];
        let end = text
            .iter()
            .position(|b| !b.is_ascii_digit())
            .unwrap_or(text.len());
        let mut value = 0u64;
        for b in &text[..end] {
            value = (value % 1000000000) * 10 + u64::from(b.wrapping_sub(48));
        }
        self.rest = &text[end..];
        (value % 4294967296) as u32
    }

    // The next number, cut at `most`.
    pub fn at_most(&mut self, most: usize) -> usize
        ensures { result ≤ most }
    {
        most.min(self.next() as usize)
    }

    // A list: how many numbers it has, and these.
    pub fn list(&mut self, list: &mut [u32]) -> usize
        ensures { result ≤ length list.new }
    {
        let n = self.at_most(list.len());
        for x in &mut list[..n] {
            *x = self.next();
        }
        n
    }
}
