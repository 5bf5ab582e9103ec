// A problem's start, and the whole run.
ghost use Rattle.std.specs.Prelude.{◌≡◌, true, false, ◌≤◌, MatchResult};
ghost use Rattle.rules.specs.Problem.{C, N};
ghost use Rattle.checks.specs.Checks.{problem_of};
ghost use Rattle.checks.specs.declared.Refusal.TheVariants.{Overflow};
ghost use Rattle.scaling.specs.Problem.{HoldsC, HoldsIdentity, InC, Ran, Starts};

use crate::numbers::opposite;
use crate::work::{Table, Work};
use checks::{Checked, ROOM_H, ROOM_V, Refusal};

// The entry of C in row i and column c.
fn entry_of_c(p: &Checked<'_>, i: usize, c: usize) -> i32
    requires { InC (problem_of p.now) i c }
    ensures { result ≡ C (problem_of p.now) i c }
{
    match p.modulus_rows().get(c) {
        Some(k) if *k == i => opposite(p.moduli[i]),
        Some(_) => 0,
        None => p.matrix[i * p.n + (c - p.rows.s)],
    }
}

fn fill_c(t: &mut [i32; ROOM_H], p: &Checked<'_>)
    ensures { HoldsC (problem_of p.now) t.new t.old }
{
    let cols = p.columns();
    // By division: the library says nothing of what a slice is after chunks_exact_mut.
    for (k, entry) in t[..p.moduli.len() * cols].iter_mut().enumerate() {
        *entry = entry_of_c(p, k / cols, k % cols);
    }
}

// 1 on the diagonal of n by n entries, in a list of zeros.
fn fill_identity(a: &mut [i32; ROOM_V], n: usize)
    requires { n ≤ 24 }
    ensures { HoldsIdentity n a.new a.old }
{
    for i in 0..n {
        a[i * n + i] = 1;
    }
}

pub fn start(p: &Checked<'_>) -> Work
    ensures { Starts (problem_of p.now) result }
{
    let cols = p.columns();
    let mut t = [0; ROOM_H];
    fill_c(&mut t, p);
    let mut v = [0; ROOM_V];
    fill_identity(&mut v, cols);
    Work {
        m: p.moduli.len(),
        cols,
        t,
        v,
        w: v,
        steps: 0,
        over: false,
    }
}

// The state at the end, and the rank.
#[derive(Drop)]
pub struct Outcome {
    pub work: Work,
    pub rank: usize,
}

// Check 7, which a run makes wherever it could go on.
fn in_range(work: &Work) -> Result<(), Refusal>
    ensures { MatchResult result (λ _. work.now.over ≡ false) (λ e. (e ≡ Overflow) × (work.now.over ≡ true)) }
{
    if work.over {
        Err(Refusal::Overflow)
    } else {
        Ok(())
    }
}

pub fn run(p: &Checked<'_>) -> Result<Outcome, Refusal>
    ensures { Ran (problem_of p.now) result }
{
    let one = start(p).rows(Table::T, 0);
    in_range(&one.work)?;
    let rank = one.work.cols - one.a;
    let two = one.work.reorder(one.a).rows(Table::V, rank);
    in_range(&two.work)?;
    let work = two.work.stage3(rank);
    in_range(&work)?;
    Ok(Outcome { work, rank })
}
