// A problem as it is lent, once it has passed.
ghost use Rattle.std.specs.Prelude.{◌≡◌};
ghost use Rattle.rules.specs.Problem.{WellFormed, modulus_rows};
ghost use Rattle.checks.specs.Lent.{lent_problem};
ghost use Rattle.checks.specs.Moduli.{ListsFirst8, listed};

// The rows with a modulus, from the top row down, and their count s. No ArrayVec, which is not `Copy`; and with no fact of its own, so that two lists of
// the same rows are the same.
#[derive(Clone, Copy, Debug, PartialEq, Eq)]
pub struct ModulusRows {
    pub rows: [usize; 8],
    pub s: usize,
}

// A problem that has passed checks 1 to 5, with its rows that have a modulus.
#[derive(Drop)]
pub struct Checked<'a> {
    pub n: usize,
    pub matrix: &'a [i32],
    pub moduli: &'a [i32],
    pub rows: ModulusRows,
    ghost well_formed: { WellFormed (lent_problem n matrix.now moduli.now) },
    ghost rows_told: { ListsFirst8 moduli.now rows },
    ghost rows_listed: { listed rows ≡ modulus_rows (lent_problem n matrix.now moduli.now) },
}
