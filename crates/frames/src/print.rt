// Printing the program's lines: each function appends to a text that has room. Each asks that of its own text: a type could not know what is to come.
ghost use Rattle.std.specs.Prelude.{◌≡◌, [], ◌∷◌, ◌++◌, ◌*◌, ◌<◌, ◌≤◌, length};
ghost use Rattle.rules.specs.Bytes.{bytes_of};
ghost use Rattle.rules.specs.Frames.{digit_of, term_lines, refusal_line};
ghost use Rattle.rules.specs.Frames as frames;
ghost use Rattle.checks.specs.Refusals.{number_of, place_of};
ghost use Rattle.frames.specs.Output.{Fits, kind_byte, sizes_text, row_text, rows_text, term_text};

use crate::Text;
use byte_numbers::{four_bytes, low};
use checks::Refusal;
use scaling::Built;

// What a printed line tells, which its first byte says; `as` is how the language reads it.
#[derive(Clone, Copy)]
pub enum Kind {
    Sizes = 0x81,
    H = 0x82,
    V = 0x83,
    W = 0x84,
    Term = 0x85,
    Refused = 0xff,
}

// The digit of a number below 16.
#[tactic(auto, unfolding(rules::specs::Frames::digit_of))]
fn digit(x: u8) -> u8
    requires { x < 16 }
    ensures { result ≡ digit_of x }
{
    if x < 10 { b'0' + x } else { b'a' + (x - 10) }
}

// The digits of some bytes.
#[tactic(auto, unfolding(rules::specs::Frames::hex))]
fn hex(out: &mut Text, bs: &[u8])
    requires { Fits out.old (frames.hex bs.now) }
    ensures { out.new.items ≡ out.old.items ++ frames.hex bs.now }
{
    for b in bs {
        out.push(digit(*b / 16));
        out.push(digit(*b % 16));
    }
}

// A line of the bytes given.
#[tactic(auto, unfolding(rules::specs::Frames::frame))]
fn frame(out: &mut Text, bs: &[u8])
    requires { Fits out.old (frames.frame bs.now) }
    ensures { out.new.items ≡ out.old.items ++ frames.frame bs.now }
{
    hex(out, bs);
    out.push(b'\n');
}

#[tactic(auto, unfolding(rules::specs::Frames::refusal_line, rules::specs::Frames::frame, rules::specs::Frames::hex))]
pub fn refusal(out: &mut Text, r: Refusal)
    requires { Fits out.old (refusal_line (number_of r) (place_of r)) }
    ensures { out.new.items ≡ out.old.items ++ refusal_line (number_of r) (place_of r) }
{
    let place = u64::from(r.place());
    let bs = [
        Kind::Refused as u8,
        low(u64::from(r.number())),
        low(place >> 8),
        low(place),
    ];
    frame(out, &bs);
}

// The sizes line.
#[tactic(auto, unfolding(crate::specs::Output::sizes_text))]
pub fn sizes(out: &mut Text, m: u32, n: u32, built: Built)
    requires { Fits out.old (sizes_text m n built) }
    ensures { out.new.items ≡ out.old.items ++ sizes_text m n built }
{
    let steps = built.steps;
    let bs = [
        Kind::Sizes as u8,
        low(u64::from(m)),
        low(u64::from(n)),
        low(u64::from(built.moduli)),
        low(u64::from(built.rank)),
        low(steps >> 24),
        low(steps >> 16),
        low(steps >> 8),
        low(steps),
    ];
    frame(out, &bs);
}

// Numbers in four bytes each.
#[tactic(auto, unfolding(rules::specs::Frames::hex, rules::specs::Bytes::bytes_of))]
fn numbers(out: &mut Text, zs: &[i32])
    requires { Fits out.old (frames.hex (bytes_of zs.now)) }
    ensures { out.new.items ≡ out.old.items ++ frames.hex (bytes_of zs.now) }
{
    for z in zs {
        hex(out, &four_bytes(*z));
    }
}

// A line of a row's numbers.
#[tactic(auto, unfolding(crate::specs::Output::row_text, rules::specs::Frames::frame, rules::specs::Frames::hex))]
fn row(out: &mut Text, kind: Kind, zs: &[i32])
    requires { Fits out.old (row_text (kind_byte kind) zs.now) }
    ensures { out.new.items ≡ out.old.items ++ row_text (kind_byte kind) zs.now }
{
    hex(out, &[kind as u8]);
    numbers(out, zs);
    out.push(b'\n');
}

// The rows of H, of V, of W: a line for each `width` numbers.
#[tactic(auto, unfolding(crate::specs::Output::rows_text))]
pub fn rows(out: &mut Text, kind: Kind, zs: &[i32], width: usize)
    requires width_positive { 0 < width }
    requires room { Fits out.old (rows_text (kind_byte kind) width zs.now) }
    ensures { out.new.items ≡ out.old.items ++ rows_text (kind_byte kind) width zs.now }
{
    for zs in zs.chunks_exact(width) {
        row(out, kind, zs);
    }
}

// A line of a term's coefficient and exponents.
#[tactic(auto, unfolding(crate::specs::Output::term_text, rules::specs::Frames::frame, rules::specs::Frames::hex, rules::specs::Bytes::bytes_of))]
fn term(out: &mut Text, z: i32, es: &[i32])
    requires { Fits out.old (term_text z es.now) }
    ensures { out.new.items ≡ out.old.items ++ term_text z es.now }
{
    hex(out, &[Kind::Term as u8]);
    numbers(out, &[z]);
    numbers(out, es);
    out.push(b'\n');
}

// The terms, a line each; each has `d` exponents, of which there may be none.
#[tactic(auto, unfolding(rules::specs::Frames::term_lines))]
pub fn terms(out: &mut Text, cs: &[i32], es: &[i32], d: usize)
    requires d_in_bounds { length cs.now * d ≤ length es.now }
    requires room { Fits out.old (term_lines d cs.now es.now) }
    ensures { out.new.items ≡ out.old.items ++ term_lines d cs.now es.now }
{
    let mut rest = es;
    for z in cs {
        let (es, after) = rest.split_at(d);
        term(out, *z, es);
        rest = after;
    }
}
