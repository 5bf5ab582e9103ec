// The weights of a monomial, and the translation of a formula.
#![tactic(auto)]

ghost use Rattle.std.specs.Prelude.{◌≡◌};
ghost use Rattle.rules.specs.Calls.{weigh_of};
ghost use Rattle.checks.specs.Checks.{given};
ghost use Rattle.formulas.specs.FormulaPromises.{Weighs, Translates, lent_translation, weigh_answer, translate_answer};

mod terms;
mod translation;

use checks::{ROOM_COEFFICIENTS, ROOM_EXPONENTS, ROOM_H, ROOM_V, ROOM_W, ROOM_WEIGHTS, Refusal};
use terms::Term;
use translation::Translation;

// What C reads of a weighing: the number 0; or a refusal's number and place. The C interface has plain numbers, and an answer, with its impl, for
// each call.
#[repr(C)]
#[derive(Clone, Copy)]
pub struct WeighAnswer {
    pub number: u32,
    pub place: u32,
}

impl From<Result<(), Refusal>> for WeighAnswer {
    ghost from_gives = { λ r a. a ≡ weigh_answer r };

    fn from(told: Result<(), Refusal>) -> WeighAnswer {
        match told {
            Ok(()) => WeighAnswer {
                number: 0,
                place: 0,
            },
            Err(r) => WeighAnswer {
                number: r.number(),
                place: r.place(),
            },
        }
    }
}

// What C reads of a translation: the number 0 with the count d of groups; or a refusal's number and place. The C interface has plain numbers.
#[repr(C)]
#[derive(Clone, Copy)]
pub struct TranslateAnswer {
    pub number: u32,
    pub place: u32,
    pub d: u32,
}

impl From<Result<u32, Refusal>> for TranslateAnswer {
    ghost from_gives = { λ r a. a ≡ translate_answer r };

    fn from(told: Result<u32, Refusal>) -> TranslateAnswer {
        match told {
            Ok(groups) => TranslateAnswer {
                number: 0,
                place: 0,
                d: groups,
            },
            Err(refusal) => TranslateAnswer {
                number: refusal.number(),
                place: refusal.place(),
                d: 0,
            },
        }
    }
}

// The weights of a monomial, a row after the other. The inputs come apart, as the C interface lends them.
pub fn weigh(
    m: u32,
    n: u32,
    matrix: &[i32],
    moduli: &[i32],
    exponents: &[i32],
    weights: &mut [i32],
) -> Result<(), Refusal>
    ensures { Weighs (weigh_of (given m n matrix.now moduli.now) exponents.now weights.old) (weigh_answer result) weights.new }
{
    let problem = checks::formula(
        m,
        n,
        matrix,
        moduli,
        1,
        exponents,
        ROOM_WEIGHTS <= weights.len(),
    )?;
    let term = Term::new(&problem, exponents);
    for (i, x) in weights[..moduli.len()].iter_mut().enumerate() {
        // `as`: it fits, and TryFrom would be a step that can fail
        *x = term.weight(i) as i32;
    }
    Ok(())
}

// The formula in the groups: each coefficient as it was, and d exponents for each term; answers d. The inputs come apart, as the C interface lends
// them.
pub fn translate(
    m: u32,
    n: u32,
    matrix: &[i32],
    moduli: &[i32],
    coefficients: &[i32],
    exponents: &[i32],
    kept: &mut [i32],
    translated: &mut [i32],
) -> Result<u32, Refusal>
    ensures { Translates (lent_translation m n matrix.now moduli.now coefficients.now exponents.now
        kept.old translated.old) (translate_answer result) kept.new translated.new }
{
    let outputs = ROOM_COEFFICIENTS <= kept.len() && ROOM_EXPONENTS <= translated.len();
    let problem = checks::formula(m, n, matrix, moduli, coefficients.len(), exponents, outputs)?;
    let mut h = [0; ROOM_H];
    let mut v = [0; ROOM_V];
    let mut w = [0; ROOM_W];
    let built = scaling::build(m, n, matrix, moduli, &mut h, &mut v, &mut w)?;
    let translation = Translation {
        problem: &problem,
        coefficients,
        exponents,
        w: &w,
        // `as`: std has no From of u32 for usize.
        rank: built.rank as usize,
    };
    translation.translate(kept, translated)
}
