// What C calls: each has the name and the promise of the call of `bench` that it makes. A slice crosses as a pointer and then its length.
// Parameters that travel together stay apart here, and each call stands here and in `bench`: the C interface (R13.5 names both crates).
#![tactic(auto)]

ghost use Rattle.rules.specs.Bench.{bench_build_of, bench_translate_of};
ghost use Rattle.rules.specs.Calls.{build_of, weigh_of};
ghost use Rattle.rules.specs.Gauges.{lent_readings, gauge_of, gauge_answer};
ghost use Rattle.checks.specs.Checks.{given};
ghost use Rattle.scaling.specs.BuildPromise.{Builds};
ghost use Rattle.formulas.specs.FormulaPromises.{Weighs, Translates, lent_translation};
ghost use Rattle.bench.specs.GaugePromise.{Gauges};

use bench::GaugeAnswer;
use formulas::{TranslateAnswer, WeighAnswer};
use scaling::BuildAnswer;

#[unsafe(no_mangle)]
pub extern "C" fn glaukemis_build(
    m: u32,
    n: u32,
    matrix: &[u8],
    moduli: &[u8],
    h: &mut [u8],
    v: &mut [u8],
    w: &mut [u8],
) -> BuildAnswer
    ensures { Builds (bench_build_of m n matrix.now moduli.now h.old v.old w.old) result h.new v.new w.new }
{
    bench::glaukemis_build(m, n, matrix, moduli, h, v, w)
}

#[unsafe(no_mangle)]
pub extern "C" fn glaukemis_translate(
    m: u32,
    n: u32,
    matrix: &[u8],
    moduli: &[u8],
    coefficients: &[u8],
    exponents: &[u8],
    kept: &mut [u8],
    translated: &mut [u8],
) -> TranslateAnswer
    ensures { Translates (bench_translate_of m n matrix.now moduli.now coefficients.now exponents.now kept.old translated.old) result kept.new translated.new }
{
    bench::glaukemis_translate(
        m,
        n,
        matrix,
        moduli,
        coefficients,
        exponents,
        kept,
        translated,
    )
}

#[unsafe(no_mangle)]
pub extern "C" fn glaukemis_build_numbers(
    m: u32,
    n: u32,
    matrix: &[i32],
    moduli: &[i32],
    h: &mut [i32],
    v: &mut [i32],
    w: &mut [i32],
) -> BuildAnswer
    ensures { Builds (build_of (given m n matrix.now moduli.now) h.old v.old w.old) result h.new v.new w.new }
{
    bench::glaukemis_build_numbers(m, n, matrix, moduli, h, v, w)
}

#[unsafe(no_mangle)]
pub extern "C" fn glaukemis_weigh(
    m: u32,
    n: u32,
    matrix: &[i32],
    moduli: &[i32],
    exponents: &[i32],
    weights: &mut [i32],
) -> WeighAnswer
    ensures { Weighs (weigh_of (given m n matrix.now moduli.now) exponents.now weights.old) result weights.new }
{
    bench::glaukemis_weigh(m, n, matrix, moduli, exponents, weights)
}

#[unsafe(no_mangle)]
pub extern "C" fn glaukemis_translate_numbers(
    m: u32,
    n: u32,
    matrix: &[i32],
    moduli: &[i32],
    coefficients: &[i32],
    exponents: &[i32],
    kept: &mut [i32],
    translated: &mut [i32],
) -> TranslateAnswer
    ensures { Translates (lent_translation m n matrix.now moduli.now coefficients.now exponents.now
        kept.old translated.old) result kept.new translated.new }
{
    bench::glaukemis_translate_numbers(
        m,
        n,
        matrix,
        moduli,
        coefficients,
        exponents,
        kept,
        translated,
    )
}

#[unsafe(no_mangle)]
pub extern "C" fn glaukemis_gauge(
    m: u32,
    n: u32,
    matrix: &[i32],
    moduli: &[i32],
    readings: &[f64],
    group: u32,
) -> GaugeAnswer
    ensures { Gauges (gauge_answer (gauge_of (given m n matrix.now moduli.now) (lent_readings readings.now) group)) result }
{
    bench::glaukemis_gauge(m, n, matrix, moduli, readings, group)
}
