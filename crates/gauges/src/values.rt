// Readings and exponents: which are good, and what they come to.
ghost use Rattle.std.specs.Prelude.{◌≡◌, not, position};
ghost use Rattle.std.specs.List.{list_all};
ghost use Rattle.std.specs.Float.Ieee.Positive.{positive};
ghost use Rattle.rules.specs.Limits.{power_in_range};
ghost use Rattle.rules.specs.Gauges.{after, operate, units};
ghost use Rattle.rules.specs.Gauges as gauges;
ghost use Rattle.gauges.specs.Gauging.{value_by};

// Whether x is finite and above zero: a NaN, an infinity, a zero and what is below zero are not.
#[tactic(auto, using(crate::proofs::Comparisons::comparisons))]
fn good(x: f64) -> bool
    ensures { result ≡ positive x }
{
    x > 0.0 && x.is_finite()
}

// Whether x is zero or not finite.
#[tactic(auto, using(crate::proofs::Comparisons::comparisons))]
pub fn is_out(x: f64) -> bool
    ensures { result ≡ gauges.is_out x }
{
    x == 0.0 || !x.is_finite()
}

// Whether e is from -64 to 64 (R22.8).
fn in_range(e: i32) -> bool
    ensures { result ≡ power_in_range e }
{
    (-64..=64).contains(&e)
}

// start times x, or start by x, once for each unit of e.
fn power(start: f64, x: f64, e: i32) -> f64
    ensures { result ≡ after (operate (λ j. x)) start (units 0 e) }
{
    let mut r = start;
    for _ in 0..e.unsigned_abs() {
        r = if e < 0 { r / x } else { r * x };
    }
    r
}

// The first reading that is not finite and above zero.
pub fn first_bad(readings: &[f64]) -> Option<usize>
    ensures { result ≡ position (λ x. not (positive x)) readings.now }
{
    readings.iter().position(|x| !good(*x))
}

// Whether each exponent is from -64 to 64.
pub fn all_in_range(exponents: &[i32]) -> bool
    ensures { result ≡ list_all power_in_range exponents.now }
{
    exponents.iter().all(|e| in_range(*e))
}

// What the readings come to with these exponents, one for each.
pub fn product(readings: &[f64], exponents: &[i32]) -> f64
    ensures { result ≡ value_by readings.now exponents.now }
{
    readings
        .iter()
        .zip(exponents)
        .fold(1.0, |r, (x, e)| power(r, *x, *e))
}
