// The bench's calls, which C reaches by bench_c: the build and the translation over bytes, each number in four of them, big-endian two's complement;
// and every call over numbers as they are. Two forms of a call, and parameters and answers in plain numbers: the C interface.
#![tactic(auto)]

ghost use Rattle.rules.specs.Bench.{bench_build_of, bench_translate_of};
ghost use Rattle.rules.specs.Calls.{build_of, weigh_of};
ghost use Rattle.rules.specs.Gauges.{lent_readings, gauge_of, gauge_answer};
ghost use Rattle.checks.specs.Checks.{given};
ghost use Rattle.scaling.specs.BuildPromise.{Builds};
ghost use Rattle.formulas.specs.FormulaPromises.{Weighs, Translates, lent_translation};
ghost use Rattle.gauges.specs.Gauging.{told};
ghost use Rattle.bench.specs.GaugePromise.{Gauges};

mod readings;
mod words;

use checks::{ROOM_COEFFICIENTS, ROOM_EXPONENTS, ROOM_H, ROOM_V, ROOM_W};
use formulas::{TranslateAnswer, WeighAnswer};
use gauges::Gauged;
use scaling::BuildAnswer;
use words::{decode, encode, room};

// A wrong length is handed on as one more than any right one, and a lent output without room as an empty one: an Option would have to be judged here,
// and the order of the checks is the library's (R3.2). `as` between u32 and usize: std has no From for them, and TryFrom would be a step that can fail; each is proved to lose nothing.
pub fn glaukemis_build(
    m: u32,
    n: u32,
    matrix: &[u8],
    moduli: &[u8],
    h: &mut [u8],
    v: &mut [u8],
    w: &mut [u8],
) -> BuildAnswer
    ensures { Builds (bench_build_of m n matrix.now moduli.now h.old v.old w.old) result h.new v.new w.new }
{
    let mut entries = [0; 129];
    let entries = decode(matrix, &mut entries);
    let mut rows = [0; 9];
    let rows = decode(moduli, &mut rows);
    let mut x = [0; ROOM_H];
    let x = room(h, &mut x);
    let mut y = [0; ROOM_V];
    let y = room(v, &mut y);
    let mut z = [0; ROOM_W];
    let z = room(w, &mut z);
    let built = scaling::build(m, n, entries, rows, x, y, z);
    if let Ok(b) = built {
        let cols = n as usize + b.moduli as usize;
        encode(h, &x[..m as usize * cols]);
        encode(v, &y[..cols * cols]);
        encode(w, &z[..cols * cols]);
    }
    built.into()
}

pub fn glaukemis_translate(
    m: u32,
    n: u32,
    matrix: &[u8],
    moduli: &[u8],
    coefficients: &[u8],
    exponents: &[u8],
    kept: &mut [u8],
    translated: &mut [u8],
) -> TranslateAnswer
    ensures { Translates (bench_translate_of m n matrix.now moduli.now coefficients.now exponents.now kept.old translated.old) result kept.new translated.new }
{
    let mut entries = [0; 129];
    let entries = decode(matrix, &mut entries);
    let mut rows = [0; 9];
    let rows = decode(moduli, &mut rows);
    let mut terms = [0; 65];
    let terms = decode(coefficients, &mut terms);
    let mut powers = [0; 1025];
    let powers = decode(exponents, &mut powers);
    let mut x = [0; ROOM_COEFFICIENTS];
    let x = room(kept, &mut x);
    let mut y = [0; ROOM_EXPONENTS];
    let y = room(translated, &mut y);
    let groups = formulas::translate(m, n, entries, rows, terms, powers, x, y);
    if let Ok(d) = groups {
        encode(kept, &x[..terms.len()]);
        encode(translated, &y[..terms.len() * d as usize]);
    }
    groups.into()
}

// Numbers as they are: each call below has the promise of the call that it makes.
pub fn glaukemis_build_numbers(
    m: u32,
    n: u32,
    matrix: &[i32],
    moduli: &[i32],
    h: &mut [i32],
    v: &mut [i32],
    w: &mut [i32],
) -> BuildAnswer
    ensures { Builds (build_of (given m n matrix.now moduli.now) h.old v.old w.old) result h.new v.new w.new }
{
    scaling::build(m, n, matrix, moduli, h, v, w).into()
}

pub fn glaukemis_weigh(
    m: u32,
    n: u32,
    matrix: &[i32],
    moduli: &[i32],
    exponents: &[i32],
    weights: &mut [i32],
) -> WeighAnswer
    ensures { Weighs (weigh_of (given m n matrix.now moduli.now) exponents.now weights.old) result weights.new }
{
    formulas::weigh(m, n, matrix, moduli, exponents, weights).into()
}

pub fn glaukemis_translate_numbers(
    m: u32,
    n: u32,
    matrix: &[i32],
    moduli: &[i32],
    coefficients: &[i32],
    exponents: &[i32],
    kept: &mut [i32],
    translated: &mut [i32],
) -> TranslateAnswer
    ensures { Translates (lent_translation m n matrix.now moduli.now coefficients.now exponents.now
        kept.old translated.old) result kept.new translated.new }
{
    formulas::translate(
        m,
        n,
        matrix,
        moduli,
        coefficients,
        exponents,
        kept,
        translated,
    )
    .into()
}

// What a group from readings answers in C, to which no enum crosses: the number 0 with the value; or a refusal's number and place with the reading
// that it carries.
#[repr(C)]
#[derive(Clone, Copy)]
pub struct GaugeAnswer {
    pub number: u32,
    pub place: u32,
    pub value: f64,
}

impl From<Gauged> for GaugeAnswer {
    ghost from_gives = { λ gauged answer. Gauges (gauge_answer (told gauged)) answer };

    fn from(gauged: Gauged) -> GaugeAnswer {
        match gauged {
            Gauged::Value(value) => GaugeAnswer {
                number: 0,
                place: 0,
                value,
            },
            Gauged::Refused {
                number,
                place,
                reading,
            } => GaugeAnswer {
                number,
                place,
                value: reading,
            },
        }
    }
}

pub fn glaukemis_gauge(
    m: u32,
    n: u32,
    matrix: &[i32],
    moduli: &[i32],
    readings: &[f64],
    group: u32,
) -> GaugeAnswer
    ensures { Gauges (gauge_answer (gauge_of (given m n matrix.now moduli.now) (lent_readings readings.now) group)) result }
{
    gauges::gauge(m, n, matrix, moduli, readings::gather(readings), group).into()
}
