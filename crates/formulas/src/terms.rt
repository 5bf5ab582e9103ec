// The weights of a term, and k followed by its exponents.
ghost use Rattle.std.specs.Prelude.{◌≡◌, ◌<◌, ◌≤◌, nat_abs};
ghost use Rattle.std.specs.Int.Signed.{quot_z};
ghost use Rattle.whole.specs.Lists.{tab};
ghost use Rattle.rules.specs.Problem.{N, modulus};
ghost use Rattle.rules.specs.Formulas as formulas;
ghost use Rattle.formulas.specs.Terms.{Monomial, Factors, dot_of, most_row_times, Weight, Modulus};

use arrayvec::ArrayVec;
use checks::Checked;

// The sum of the products, entry by entry. By an index: a `zip` keeps a place in each slice, which costs a short row a tenth of its instructions.
pub fn dot(a: &[i32], b: &[i32]) -> i64
    requires { Factors a.now b.now }
    ensures { result ≡ dot_of a.now b.now }
{
    let mut sum = 0;
    for (i, x) in a.iter().enumerate() {
        sum += i64::from(*x) * i64::from(b[i]);
    }
    sum
}

// The same where b's numbers are wide. One function for both would multiply narrow numbers in 64 bits too, with half again as many instructions.
pub fn wide_dot(a: &[i32], b: &[i64]) -> i64
    requires { Factors a.now b.now }
    ensures { result ≡ dot_of a.now b.now }
{
    let mut sum = 0;
    for (i, x) in a.iter().enumerate() {
        sum += i64::from(*x) * b[i];
    }
    sum
}

// The exponents of one term of a problem.
#[derive(Drop)]
pub struct Term<'a> {
    problem: &'a Checked<'a>,
    exponents: &'a [i32],
    ghost monomial: { Monomial problem.now.n exponents.now },
}

impl<'a> Term<'a> {
    ghost use Rattle.formulas.specs.Term.{problem_at, v_at};

    pub fn new(problem: &'a Checked<'a>, exponents: &'a [i32]) -> Term<'a>
        requires { Monomial problem.now.n exponents.now }
        ensures of_problem { result.problem.now ≡ problem.now }
        ensures of_exponents { result.exponents.now ≡ exponents.now }
    {
        Term { problem, exponents }
    }

    // Row i of the matrix times the exponents.
    fn row_times(&self, i: usize) -> i64
        requires { i < (problem_at self.now).m }
        ensures is { result ≡ formulas.row_times (problem_at self.now) (v_at self.now) i }
        ensures small { nat_abs result ≤ most_row_times }
    {
        let p = self.problem;
        dot(&p.matrix[i * p.n..(i + 1) * p.n], self.exponents)
    }

    // The weight in row i.
    pub fn weight(&self, i: usize) -> i64
        requires i_in_bounds { i < (problem_at self.now).m }
        ensures { Weight (problem_at self.now) (v_at self.now) i result }
    {
        let x = self.row_times(i);
        // 0 is no modulus (R2.4), as C lends it.
        let p = self.problem.moduli[i];
        if p == 0 { x } else { x % i64::from(p) }
    }

    // Whether every weight is 0.
    pub fn is_free(&self) -> bool
        ensures { result ≡ formulas.is_free (problem_at self.now) (v_at self.now) }
    {
        for i in 0..self.problem.moduli.len() {
            if self.weight(i) != 0 {
                return false;
            }
        }
        true
    }

    // What k has for row i: the row times the exponents, divided by the modulus.
    fn k_of(&self, i: usize) -> i64
        requires { Modulus (problem_at self.now) i }
        ensures { result ≡ quot_z (formulas.row_times (problem_at self.now) (v_at self.now) i) (modulus (problem_at self.now) i) }
    {
        self.row_times(i) / i64::from(self.problem.moduli[i])
    }

    // k, then the exponents.
    #[tactic(auto, using(crate::proofs::Written::length_tab))]
    pub fn k_then_v(&self) -> ArrayVec<i64, 24>
        ensures { result.items ≡ tab (N (problem_at self.now)) (formulas.k_then_v (problem_at self.now) (v_at self.now)) }
    {
        let mut e = ArrayVec::new();
        for i in self.problem.modulus_rows() {
            e.push(self.k_of(*i));
        }
        for z in self.exponents {
            e.push(i64::from(*z));
        }
        e
    }
}
