// The translation of a formula, once its problem has passed the checks and been built.
// `as u32`: what is told fits, and TryFrom would be a step that can fail.
ghost use Rattle.std.specs.Prelude.{◌≡◌, ◌*◌, ◌<◌, ◌≤◌, length, take, drop, false};
ghost use Rattle.rules.specs.Problem.{N};
ghost use Rattle.rules.specs.Stages.{run};
ghost use Rattle.rules.specs.Formulas.{terms, WellFormedFormula};
ghost use Rattle.rules.specs.Calls.{filled, term_refused};
ghost use Rattle.checks.specs.Refusals.{told};
ghost use Rattle.checks.specs.Checks.{problem_of};
ghost use Rattle.formulas.specs.FormulaPromises.{lent_formula, Solved, judged, terms_verdict, AllTaken, exponents_into, translated_by};
ghost use Rattle.formulas.specs.FormulaPromises.{RoomToTranslate, Translates, translate_answer};

use crate::terms::{Term, wide_dot};
use arrayvec::ArrayVec;
use checks::{Checked, Refusal, beyond};

// A formula of a problem that has passed its checks, and what a build of the problem left: W and the rank.
// Four methods ask that t is below the count of terms: a type for t would have to lend the formula, and is no plainer.
#[derive(Drop)]
pub struct Translation<'a> {
    pub problem: &'a Checked<'a>,
    pub coefficients: &'a [i32],
    pub exponents: &'a [i32],
    pub w: &'a [i32],
    pub rank: usize,
    ghost formula: { WellFormedFormula (problem_of problem.now) (lent_formula coefficients.now exponents.now) },
    ghost solved: { Solved (problem_of problem.now) w.now rank },
}

impl<'a> Translation<'a> {
    ghost use Rattle.formulas.specs.Translation.{problem_in, formula_in, v_in, groups_in, exponents_in};

    // The number of groups.
    fn groups(&self) -> usize
        ensures { result ≡ groups_in self.now }
    {
        self.problem.columns() - self.rank
    }

    // The exponents of term t.
    fn term(&self, t: usize) -> Term<'a>
        requires { t < terms (formula_in self.now) }
        ensures of_problem { result.problem.now ≡ self.now.problem.now }
        ensures of_exponents { let n = self.now.problem.now.n in result.exponents.now ≡ take n (drop (t * n) self.now.exponents.now) }
    {
        let n = self.problem.n;
        Term::new(self.problem, &self.exponents[t * n..(t + 1) * n])
    }

    // The exponents of term t in the groups.
    #[tactic(auto, using(crate::proofs::Translating::row_in, crate::proofs::Written::length_tab))]
    fn translated(&self, t: usize) -> ArrayVec<i64, 16>
        requires { t < terms (formula_in self.now) }
        ensures { result.items ≡ exponents_in self.now t }
    {
        let e = self.term(t).k_then_v();
        let n = self.problem.columns();
        let mut x = ArrayVec::new();
        for i in self.rank..n {
            x.push(wide_dot(&self.w[i * n..(i + 1) * n], &e));
        }
        x
    }

    // Checks 8 and 9, of term t.
    fn judge(&self, t: usize) -> Result<(), Refusal>
        requires { t < terms (formula_in self.now) }
        ensures { told result ≡ judged (problem_in self.now) (v_in self.now t) t }
    {
        if !self.term(t).is_free() {
            return Err(Refusal::NotFree(t as u32));
        }
        if self.translated(t).iter().any(|z| beyond(*z)) {
            return Err(Refusal::LargeExponent(t as u32));
        }
        Ok(())
    }

    // The first term that is refused decides.
    fn judge_all(&self) -> Result<(), Refusal>
        ensures { told result ≡ terms_verdict (problem_in self.now) (formula_in self.now) }
    {
        for t in 0..self.coefficients.len() {
            self.judge(t)?;
        }
        Ok(())
    }

    // Writes the exponents of term t.
    fn write_term(&self, t: usize, out: &mut [i32])
        requires t_in_bounds { t < terms (formula_in self.now) }
        requires long { length out.old ≡ groups_in self.now }
        requires taken { term_refused (problem_in self.now) (run (problem_in self.now)) (v_in self.now t) ≡ false }
        ensures { out.new ≡ exponents_in self.now t }
    {
        let x = self.translated(t);
        for (g, y) in out.iter_mut().enumerate() {
            // `as`: it fits, and TryFrom would be a step that can fail
            *y = x[g] as i32;
        }
    }

    // Writes every term: its coefficient, and its exponents in the groups.
    fn write_all(&self, kept: &mut [i32], out: &mut [i32])
        requires room { RoomToTranslate kept.old out.old }
        requires taken { AllTaken (problem_in self.now) (formula_in self.now) }
        ensures kept_after { kept.new ≡ filled self.now.coefficients.now kept.old }
        ensures out_after { out.new ≡ exponents_into (problem_in self.now) (formula_in self.now) out.old }
    {
        let d = self.groups();
        let terms = self.coefficients.len();
        // By t and not by chunks: there may be no groups. A copy of the coefficients in one would need the C library's `memmove`.
        for t in 0..terms {
            kept[t] = self.coefficients[t];
            self.write_term(t, &mut out[t * d..(t + 1) * d]);
        }
    }

    // The formula in the groups, where no term is refused; answers the number of groups.
    pub fn translate(&self, kept: &mut [i32], out: &mut [i32]) -> Result<u32, Refusal>
        requires { RoomToTranslate kept.old out.old }
        ensures { Translates (translated_by (problem_in self.now) (formula_in self.now) kept.old out.old) (translate_answer result) kept.new out.new }
    {
        self.judge_all()?;
        self.write_all(kept, out);
        Ok(self.groups() as u32)
    }
}
