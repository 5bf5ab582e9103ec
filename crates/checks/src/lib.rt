// Checks 1 to 5, with which every call begins that takes a problem, and 6 for those that take exponents; the rows with a modulus. No public function has
// a condition on its caller.
#![tactic(auto)]

ghost use Rattle.std.specs.Prelude.{◌≡◌, ◌&&◌, ◌≤◌, length};
ghost use Rattle.rules.specs.Limits as limits;
ghost use Rattle.checks.specs.Lent.{first8};
ghost use Rattle.checks.specs.Moduli.{ListsFirst8, listed};
ghost use Rattle.rules.specs.Problem.{N, modulus_rows};
ghost use Rattle.checks.specs.Checks.{TellsTo5, TellsTo6, problem_of};
ghost use Rattle.checks.specs.Refusals.{number_of, place_of};

mod lent;
mod parts;

pub use lent::{Checked, ModulusRows};
use parts::{first_out, formula_fits, problem_fits};
use std::fmt;

// The limits of R2.1 to R2.6, and the least lengths of outputs (R2.9).
pub const M: i64 = 2147483647;

pub const MINUS_M: i64 = -2147483647;

pub const MOST_TERMS: usize = 64;

pub const ROOM_H: usize = 192;

pub const ROOM_V: usize = 576;

pub const ROOM_W: usize = 576;

pub const ROOM_WEIGHTS: usize = 8;

pub const ROOM_COEFFICIENTS: usize = 64;

pub const ROOM_EXPONENTS: usize = 1024;

const MOST_MODULUS: i32 = 1000;

const MOST_ENTRY: i32 = 1000;

const LEAST_ENTRY: i32 = -1000;

const MOST_EXPONENT: i32 = 10000;

const LEAST_EXPONENT: i32 = -10000;

// The faults 1 to 10 of section 4 of the rules. One that has a place carries it.
#[derive(Clone, Copy, Debug, PartialEq, Eq)]
pub enum Refusal {
    Sizes,
    Lengths,
    Outputs,
    Modulus(u32),
    Entry(u32),
    Exponent(u32),
    Overflow,
    NotFree(u32),
    LargeExponent(u32),
    BadLine(u32),
}

impl Refusal {
    pub fn number(self) -> u32
        ensures { result ≡ number_of self }
    {
        match self {
            Refusal::Sizes => 1,
            Refusal::Lengths => 2,
            Refusal::Outputs => 3,
            Refusal::Modulus(_) => 4,
            Refusal::Entry(_) => 5,
            Refusal::Exponent(_) => 6,
            Refusal::Overflow => 7,
            Refusal::NotFree(_) => 8,
            Refusal::LargeExponent(_) => 9,
            Refusal::BadLine(_) => 10,
        }
    }

    // 0 for a fault that has no place of its own.
    pub fn place(self) -> u32
        ensures { result ≡ place_of self }
    {
        match self {
            Refusal::Sizes | Refusal::Lengths | Refusal::Outputs | Refusal::Overflow => 0,
            Refusal::Modulus(i)
            | Refusal::Entry(i)
            | Refusal::Exponent(i)
            | Refusal::NotFree(i)
            | Refusal::LargeExponent(i)
            | Refusal::BadLine(i) => i,
        }
    }
}

impl fmt::Display for Refusal {
    ghost use Rattle.std.specs.Prelude.{Some};
    ghost use Rattle.checks.specs.Refusals.{words};

    ghost output = { λ r. Some (words r) };

    fn fmt<W: fmt::Write>(&self, f: &mut fmt::Formatter<W>) -> fmt::Result {
        write!(f, "refused {} at {}", self.number(), self.place())
    }
}

impl<'a> Checked<'a> {
    // N of R5.1.
    pub fn columns(&self) -> usize
        ensures value { result ≡ N (problem_of self.now) }
        ensures few { result ≤ 24 }
    {
        self.n + self.rows.s
    }

    // The rows with a modulus.
    pub fn modulus_rows(&self) -> &[usize]
        ensures value { result.now ≡ modulus_rows (problem_of self.now) }
        ensures few { length result.now ≤ 8 }
    {
        &self.rows.rows[..self.rows.s]
    }
}

// Both of two tests, of which the second is made whatever the first says.
pub fn both(a: bool, b: bool) -> bool
    ensures { result ≡ a && b }
{
    a && b
}

pub fn is_zero(x: i32) -> bool
    ensures { result ≡ limits.is_zero x }
{
    x == 0
}

// Whether z is beyond M, either way.
pub fn beyond(z: i64) -> bool
    ensures { result ≡ limits.beyond z }
{
    z < MINUS_M || M < z
}

// Check 1.
pub fn sizes_in_range(m: u32, n: u32) -> bool
    ensures { result ≡ limits.sizes_in_range m n }
{
    both(1 <= m && m <= 8, 1 <= n && n <= 16)
}

// What C lends is taken in its parts, and `more` and `outputs` as two flags: docs/PROMISES.md names both calls and both flags.
// `as` between u32 and usize, here and in parts: std has no From for them, and TryFrom would be a step that can fail.

// 1 to 5; `more` says that the inputs other than matrix and moduli have the right lengths, `outputs` that no output is too short.
pub fn problem<'a>(
    m: u32,
    n: u32,
    matrix: &'a [i32],
    moduli: &'a [i32],
    more: bool,
    outputs: bool,
) -> Result<Checked<'a>, Refusal>
    ensures { TellsTo5 m n matrix.now moduli.now more outputs result }
{
    if !sizes_in_range(m, n) {
        return Err(Refusal::Sizes);
    }
    if !both(problem_fits(m, n, matrix.len(), moduli.len()), more) {
        return Err(Refusal::Lengths);
    }
    if !outputs {
        return Err(Refusal::Outputs);
    }
    if let Some(i) = first_out(moduli, 0, MOST_MODULUS) {
        return Err(Refusal::Modulus(i as u32));
    }
    if let Some(j) = first_out(matrix, LEAST_ENTRY, MOST_ENTRY) {
        return Err(Refusal::Entry(j as u32));
    }
    Ok(Checked {
        n: n as usize,
        matrix: matrix,
        moduli: moduli,
        rows: modulus_rows(moduli),
    })
}

// 1 to 6, with the exponents of so many terms.
pub fn formula<'a>(
    m: u32,
    n: u32,
    matrix: &'a [i32],
    moduli: &'a [i32],
    terms: usize,
    exponents: &[i32],
    outputs: bool,
) -> Result<Checked<'a>, Refusal>
    ensures { TellsTo6 m n matrix.now moduli.now terms exponents.now outputs result }
{
    let more = formula_fits(n, terms, exponents.len());
    let checked = problem(m, n, matrix, moduli, more, outputs)?;
    match first_out(exponents, LEAST_EXPONENT, MOST_EXPONENT) {
        Some(i) => Err(Refusal::Exponent(i as u32)),
        None => Ok(checked),
    }
}

// The rows with a modulus among the first eight.
pub fn modulus_rows(moduli: &[i32]) -> ModulusRows
    ensures array { ListsFirst8 moduli.now result }
    ensures list { listed result ≡ first8 moduli.now }
{
    let first = &moduli[..moduli.len().min(8)];
    let mut listed = ModulusRows { rows: [0; 8], s: 0 };
    for (i, p) in first.iter().enumerate() {
        if !is_zero(*p) {
            let s = listed.s;
            listed.rows[s] = i;
            listed.s = s + 1;
        }
    }
    listed
}
