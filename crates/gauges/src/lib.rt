// One group of a problem, worked out from gauge readings (order 2).
#![tactic(auto)]

ghost use Rattle.std.specs.Prelude.{◌≡◌, length};
ghost use Rattle.rules.specs.Gauges.{read, gauge_of};
ghost use Rattle.checks.specs.Checks.{given};
ghost use Rattle.gauges.specs.declared.Fault.TheVariants.{Problem};
ghost use Rattle.gauges.specs.Gauging.{column, evaluate_of, told, told_of, refusal_of, set_of};

mod groups;
mod values;

use checks::{ROOM_H, ROOM_V, ROOM_W, Refusal};
use groups::Groups;

// A set of readings: up to sixteen values, and how many there are. R13.6 of docs/RULES.md gives it this form.
#[derive(Clone, Copy)]
pub struct Readings {
    pub values: [f64; 16],
    pub count: u32,
}

// The answer for one group: its value, or a refusal's number and place with the reading that it carries. R13.8 gives it this form.
#[derive(Clone, Copy)]
pub enum Gauged {
    Value(f64),
    Refused {
        number: u32,
        place: u32,
        reading: f64,
    },
}

// Why a group has no value: a refusal of the problem or of the count, and the four that are this call's own.
#[derive(Clone, Copy)]
enum Fault {
    Problem(Refusal),
    Reading { place: u32, reading: f64 },
    NoGroup(u32),
    Exponent(u32),
    Range(u32),
}

impl From<Refusal> for Fault {
    ghost from_gives = { λ refusal fault. fault ≡ Problem refusal };

    fn from(refusal: Refusal) -> Fault {
        Fault::Problem(refusal)
    }
}

// A refusal carries 0.0, but for that of a reading.
impl From<Fault> for Gauged {
    ghost from_gives = { λ fault gauged. told gauged ≡ refusal_of fault };

    fn from(fault: Fault) -> Gauged {
        let (number, place, reading) = match fault {
            Fault::Problem(refusal) => (refusal.number(), refusal.place(), 0.0),
            Fault::Reading { place, reading } => (11, place, reading),
            Fault::NoGroup(group) => (24, group, 0.0),
            Fault::Exponent(group) => (12, group, 0.0),
            Fault::Range(group) => (13, group, 0.0),
        };
        Gauged::Refused {
            number,
            place,
            reading,
        }
    }
}

// Checks 11, 24, 12 and 13, and the value.
fn evaluate(groups: &Groups, readings: &[f64], group: u32) -> Result<f64, Fault>
    requires { length readings.now ≡ groups.now.n }
    ensures { told_of result ≡ evaluate_of groups.now.n groups.now.count
        (column groups.now.v.now groups.now.first groups.now.cols group) (read readings.now) group }
{
    // `as`: it fits, and TryFrom would be a step that can fail.
    if let Some(k) = values::first_bad(readings) {
        return Err(Fault::Reading {
            place: k as u32,
            reading: readings[k],
        });
    }
    let Some(exponents) = groups.exponents(group) else {
        return Err(Fault::NoGroup(group));
    };
    if !values::all_in_range(&exponents) {
        return Err(Fault::Exponent(group));
    }
    let value = values::product(readings, &exponents);
    if values::is_out(value) {
        return Err(Fault::Range(group));
    }
    Ok(value)
}

// What `gauge` answers. Both take the problem in its parts, as C lends it. `as` between u32 and usize: std has no From for them, and TryFrom would be a step that can fail.
fn work_out(
    m: u32,
    n: u32,
    matrix: &[i32],
    moduli: &[i32],
    readings: Readings,
    group: u32,
) -> Result<f64, Fault>
    ensures { told_of result ≡ gauge_of (given m n matrix.now moduli.now) (set_of readings) group }
{
    if !checks::sizes_in_range(m, n) {
        return Err(Fault::Problem(Refusal::Sizes));
    }
    if readings.count != n {
        return Err(Fault::Problem(Refusal::Lengths));
    }
    let mut h = [0; ROOM_H];
    let mut v = [0; ROOM_V];
    let mut w = [0; ROOM_W];
    let built = scaling::build(m, n, matrix, moduli, &mut h, &mut v, &mut w)?;
    let n = n as usize;
    let rank = built.rank as usize;
    let moduli = built.moduli as usize;
    let cols = n + moduli;
    // Row `moduli` of V is that of quantity 0; the columns from `rank` on are the groups.
    let groups = Groups {
        n,
        v: &v,
        first: moduli * cols + rank,
        cols,
        count: (cols - rank) as u32,
    };
    evaluate(&groups, &readings.values[..n], group)
}

// The value of group `group`, counted from 0. A refusal of the sizes comes before one of the count, and that before any other.
pub fn gauge(
    m: u32,
    n: u32,
    matrix: &[i32],
    moduli: &[i32],
    readings: Readings,
    group: u32,
) -> Gauged
    ensures { told result ≡ gauge_of (given m n matrix.now moduli.now) (set_of readings) group }
{
    match work_out(m, n, matrix, moduli, readings, group) {
        Ok(value) => Gauged::Value(value),
        Err(fault) => fault.into(),
    }
}
