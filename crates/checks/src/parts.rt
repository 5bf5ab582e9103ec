// The tests that the checks are made of.
ghost use Rattle.std.specs.Prelude.{◌≡◌, ◌&&◌, ◌*◌, eqb, leb, position, not};
ghost use Rattle.rules.specs.Limits as limits;
ghost use Rattle.rules.specs.Limits.{most_terms};

use crate::MOST_TERMS;

// The place of the first number that is not from lo to hi.
pub fn first_out(xs: &[i32], lo: i32, hi: i32) -> Option<usize>
    ensures { result ≡ position (λ x. not (limits.within lo hi x)) xs.now }
{
    xs.iter().position(|x| !(lo <= *x && *x <= hi))
}

// The matrix has m times n entries, and there are m moduli.
pub fn problem_fits(m: u32, n: u32, matrix: usize, moduli: usize) -> bool
    ensures { result ≡ eqb matrix (m * n) && eqb moduli m }
{
    matrix == m as usize * n as usize && moduli == m as usize
}

// There are n exponents for each term, and at most 64 terms.
pub fn formula_fits(n: u32, coefficients: usize, exponents: usize) -> bool
    ensures { result ≡ eqb exponents (coefficients * n) && leb coefficients most_terms }
{
    coefficients <= MOST_TERMS && exponents == coefficients * n as usize
}
