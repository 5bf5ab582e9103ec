// Glaukemis: the Hermite form, the normal multiplier and its inverse.
#![tactic(auto)]

ghost use Rattle.std.specs.Prelude.{◌≡◌};
ghost use Rattle.rules.specs.Calls.{build_of};
ghost use Rattle.checks.specs.Checks.{given, problem_of};
ghost use Rattle.scaling.specs.Answers.{answer_of};
ghost use Rattle.scaling.specs.BuildPromise.{Builds, RoomToBuild};
ghost use Rattle.scaling.specs.BuildPromise as promise;

mod numbers;
mod run;
mod scan;
mod strided;
mod work;

use checks::{Checked, ROOM_H, ROOM_V, ROOM_W, Refusal};
use run::Outcome;

// What a build came to: the rank, how many rows have a modulus and how many steps it took.
#[derive(Clone, Copy, Debug, PartialEq, Eq)]
pub struct Built {
    pub rank: u32,
    pub moduli: u32,
    pub steps: u64,
}

// A build's answer as C reads it: the number 0 with what it came to; or a refusal's number and place. The C interface has plain numbers,
// and an answer, with its impl, for each call.
#[repr(C)]
#[derive(Clone, Copy)]
pub struct BuildAnswer {
    pub number: u32,
    pub place: u32,
    pub rank: u32,
    pub moduli: u32,
    pub steps: u64,
}

impl From<Result<Built, Refusal>> for BuildAnswer {
    ghost from_gives = { λ built answer. answer ≡ answer_of built };

    fn from(built: Result<Built, Refusal>) -> BuildAnswer {
        match built {
            Ok(b) => BuildAnswer {
                number: 0,
                place: 0,
                rank: b.rank,
                moduli: b.moduli,
                steps: b.steps,
            },
            Err(e) => BuildAnswer {
                number: e.number(),
                place: e.place(),
                rank: 0,
                moduli: 0,
                steps: 0,
            },
        }
    }
}

// A build of a problem that has passed checks 1 to 5.
fn build_checked(
    p: &Checked<'_>,
    h: &mut [i32],
    v: &mut [i32],
    w: &mut [i32],
) -> Result<Built, Refusal>
    requires { RoomToBuild h.old v.old w.old }
    ensures { Builds (promise.build_checked (problem_of p.now) h.old v.old w.old) (answer_of result) h.new v.new w.new }
{
    let Outcome { work, rank } = run::run(p)?;
    let area = work.m * work.cols;
    let square = work.cols * work.cols;
    h[..area].copy_from_slice(&work.t[..area]);
    v[..square].copy_from_slice(&work.v[..square]);
    w[..square].copy_from_slice(&work.w[..square]);
    // `as`: both fit, and TryFrom would be a step that can fail.
    Ok(Built {
        rank: rank as u32,
        moduli: p.rows.s as u32,
        steps: work.steps,
    })
}

// The Hermite form H of the problem's matrix C, the normal multiplier V and its inverse W, row after row.
// The problem comes in its parts, and each output as a lent slice, since C calls it so.
pub fn build(
    m: u32,
    n: u32,
    matrix: &[i32],
    moduli: &[i32],
    h: &mut [i32],
    v: &mut [i32],
    w: &mut [i32],
) -> Result<Built, Refusal>
    ensures { Builds (build_of (given m n matrix.now moduli.now) h.old v.old w.old) (answer_of result) h.new v.new w.new }
{
    let outputs = ROOM_H <= h.len() && ROOM_V <= v.len() && ROOM_W <= w.len();
    let p = checks::problem(m, n, matrix, moduli, true, outputs)?;
    build_checked(&p, h, v, w)
}
