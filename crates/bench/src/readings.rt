// Readings as a C program lends them.
ghost use Rattle.bench.specs.Readings.{Gathered};

use gauges::Readings;

// The set of readings that was lent. More than sixteen are counted as seventeen, which is the n of no problem that is taken:
// R13.6 has a count and no Option. `as`: it fits, and TryFrom would be a step that can fail.
pub fn gather(lent: &[f64]) -> Readings
    ensures { Gathered lent.now result.values result.count }
{
    let kept = lent.len().min(16);
    let mut values = [0.0; 16];
    values[..kept].copy_from_slice(&lent[..kept]);
    Readings {
        values,
        count: lent.len().min(17) as u32,
    }
}
