// The lines of the input's text: digits, the bytes that they write, and the line that starts a text.
ghost use Rattle.std.specs.Prelude.{◌≡◌, ◌/◌, ◌%◌, ◌≤◌, length};
ghost use Rattle.frames.specs.Line.{digit_in, byte_in, Decodes, kind_byte, TakesFirst};

use arrayvec::ArrayVec;

// The longest line that is read, a term of 16 quantities, has so many bytes.
pub const LONGEST: usize = 37;

// What a line tells, by its first byte; `as` is how the language reads it.
#[derive(Clone, Copy)]
pub enum Kind {
    Sizes = 1,
    Row = 2,
    Term = 3,
}

// A line's bytes, and the text after it.
#[derive(Drop)]
pub struct Line<'a> {
    pub bytes: ArrayVec<u8, LONGEST>,
    pub rest: &'a [u8],
}

// What a byte of text is worth as a digit, if it is a lower-case digit.
#[tactic(auto, unfolding(rules::specs::Frames::digit))]
fn digit(b: u8) -> Option<u8>
    ensures { result ≡ digit_in b }
{
    match b {
        b'0'..=b'9' => Some(b - b'0'),
        b'a'..=b'f' => Some(b - b'a' + 10),
        _ => None,
    }
}

// The byte that two digits write.
fn byte(high: u8, low: u8) -> Option<u8>
    ensures { result ≡ byte_in high low }
{
    Some(16 * digit(high)? + digit(low)?)
}

// The bytes that pairs of digits write, if all are digits.
fn unhex(digits: &[u8]) -> Option<ArrayVec<u8, LONGEST>>
    requires pairs { length digits.now % 2 ≡ 0 }
    requires room { length digits.now / 2 ≤ LONGEST }
    ensures { Decodes digits.now result }
{
    let mut bytes = ArrayVec::new();
    for pair in digits.chunks_exact(2) {
        bytes.push(byte(pair[0], pair[1])?);
    }
    Some(bytes)
}

// The line that starts a text, if it is of the kind and has `count` bytes.
pub fn first_line(text: &[u8], kind: Kind, count: usize) -> Option<Line<'_>>
    requires some { 1 ≤ count }
    requires room { count ≤ LONGEST }
    ensures { TakesFirst (kind_byte kind) count text.now result }
{
    let end = 2 * count;
    if text.len() <= end || text[end] != b'\n' {
        return None;
    }
    let bytes = unhex(&text[..end])?;
    if bytes[0] != kind as u8 {
        return None;
    }
    Some(Line {
        bytes,
        rest: &text[end + 1..],
    })
}
