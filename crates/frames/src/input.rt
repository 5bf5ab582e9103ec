// What is read of the program's input.
ghost use Rattle.frames.specs.Sized.{Sized};

use arrayvec::ArrayVec;
use checks::{MOST_TERMS, ROOM_EXPONENTS};

// A problem, and a formula of its quantities. m stands beside the moduli, which are as many, as in the definition's Problem; the lists lie flat, as
// the calls take them.
#[derive(Drop)]
pub struct Input {
    pub m: usize,
    pub n: usize,
    pub moduli: ArrayVec<i32, 8>,
    pub matrix: ArrayVec<i32, 128>,
    pub coefficients: ArrayVec<i32, MOST_TERMS>,
    pub exponents: ArrayVec<i32, ROOM_EXPONENTS>,
    pub ghost sized: { Sized m n moduli.items matrix.items coefficients.items exponents.items },
}
