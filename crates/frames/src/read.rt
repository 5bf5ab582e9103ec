// Reading the program's input: what the lines of R9.2 to R9.4 say.
ghost use Rattle.std.specs.Prelude.{◌≡◌, ◌++◌, ◌+◌, ◌/◌, ◌%◌, ◌≤◌, length};
ghost use Rattle.arrayvec.specs.ArrayVec.{array_vec_len};
ghost use Rattle.rules.specs.Bytes.{shorts};
ghost use Rattle.rules.specs.Frames.{lines_of, reading_of};
ghost use Rattle.frames.specs.Input.{InputHolds};

use crate::input::Input;
use crate::line::{Kind, first_line};
use arrayvec::ArrayVec;
use byte_numbers::{long, short};
use checks::{Refusal, sizes_in_range};

// The numbers of two bytes each, after those that are listed.
fn push_shorts<const N: usize>(list: &mut ArrayVec<i32, N>, bytes: &[u8])
    requires pairs { length bytes.now % 2 ≡ 0 }
    requires room { array_vec_len list.old + length bytes.now / 2 ≤ N }
    ensures { list.new.items ≡ list.old.items ++ shorts (length bytes.now / 2) bytes.now }
{
    for pair in bytes.chunks_exact(2) {
        list.push(short(pair[0], pair[1]));
    }
}

// What the input's lines say. `as u32`: a line's number fits, and TryFrom would be a step that can fail. `usize::from` of a byte was tried in place of
// `as usize`, and the proof did not close.
pub fn read(text: &[u8]) -> Result<Input, Refusal>
    ensures { InputHolds result (reading_of (lines_of text.now)) }
{
    let sizes = first_line(text, Kind::Sizes, 3).ok_or(Refusal::BadLine(0))?;
    let m = sizes.bytes[1] as usize;
    let n = sizes.bytes[2] as usize;
    if !sizes_in_range(m as u32, n as u32) {
        return Err(Refusal::Sizes);
    }
    let mut moduli = ArrayVec::new();
    let mut matrix = ArrayVec::new();
    let mut rest = sizes.rest;
    for i in 0..m {
        let row = first_line(rest, Kind::Row, 3 + 2 * n).ok_or(Refusal::BadLine((1 + i) as u32))?;
        let b = row.bytes.as_slice();
        moduli.push(short(b[1], b[2]));
        push_shorts(&mut matrix, &b[3..]);
        rest = row.rest;
    }
    let mut coefficients = ArrayVec::new();
    let mut exponents = ArrayVec::new();
    // No `for`: each line leaves the rest, and there is no iterator of lines.
    while !rest.is_empty() {
        let bad = Refusal::BadLine((1 + m + coefficients.len()) as u32);
        if coefficients.is_full() {
            return Err(bad);
        }
        let term = first_line(rest, Kind::Term, 5 + 2 * n).ok_or(bad)?;
        let b = term.bytes.as_slice();
        coefficients.push(long(b[1], b[2], b[3], b[4]));
        push_shorts(&mut exponents, &b[5..]);
        rest = term.rest;
    }
    Ok(Input {
        m,
        n,
        moduli,
        matrix,
        coefficients,
        exponents,
    })
}
