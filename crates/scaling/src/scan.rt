// The searches in a row, and in a column of a table that stands row after row.
// `lo` and `hi` as the definitions have them: a Range would be taken apart in each contract. `filled` and `other` are a `find` each, and one function
// with an Option for p is no plainer; `quotient` and `floor_quotient` round differently (R7.8, R7.9).
ghost use Rattle.std.specs.Prelude.{◌≡◌, cond, ◌<◌, ◌≤◌, ◌*◌, length, neg_ℤ, pos};
ghost use Rattle.std.specs.Int.Signed.{quot_z, lt_z};
ghost use Rattle.whole.specs.Division.{floor_z};
ghost use Rattle.whole.specs.Lists.{nth};
ghost use Rattle.rules.specs.Limits as limits;
ghost use Rattle.scaling.specs.Scan.{sizes, Filled, Other, better_of, Comparable, Divisible, Divisors, Unreduced, Lowest};

use crate::numbers::floor;

// The lowest column from lo to hi whose entry is not 0.
pub fn filled(row: &[i32], lo: usize, hi: usize) -> Option<usize>
    requires { hi ≤ length row.now }
    ensures { Filled row.now lo hi result }
{
    (lo..hi).find(|&j| row[j] != 0)
}

// The same among the columns other than p.
pub fn other(row: &[i32], p: usize, lo: usize, hi: usize) -> Option<usize>
    requires { hi ≤ length row.now }
    ensures { Other row.now p lo hi result }
{
    (lo..hi).find(|&j| j != p && row[j] != 0)
}

// The column to keep of two: the best so far, if there is one yet, and j.
pub fn better(row: &[i32], best: Option<usize>, j: usize) -> Option<usize>
    requires { Comparable row.now best j }
    ensures { result ≡ better_of (sizes row.now) best j }
{
    let y = row[j].unsigned_abs();
    if y == 0 {
        return best;
    }
    match best {
        Some(b) if row[b].unsigned_abs() <= y => best,
        _ => Some(j),
    }
}

// The pivot's column after an addition to column j: j, or p where the entry of j came to 0.
pub fn next_pivot(row: &[i32], p: usize, j: usize) -> usize
    requires { j < length row.now }
    ensures { result ≡ cond (limits.is_zero (nth row.now j)) p j }
{
    if row[j] == 0 { p } else { j }
}

// q of (A): minus the quotient of entry j by entry p, which is cut toward zero.
pub fn quotient(row: &[i32], p: usize, j: usize) -> i64
    requires { Divisible row.now p j }
    ensures { result ≡ neg_ℤ (quot_z (nth row.now j) (nth row.now p)) }
{
    -(i64::from(row[j]) / i64::from(row[p]))
}

// The negated floor of entry c by entry b.
pub fn floor_quotient(row: &[i32], b: usize, c: usize) -> i64
    requires { Divisible row.now b c }
    ensures { result ≡ neg_ℤ (floor_z (nth row.now c) (nth row.now b)) }
{
    -floor(row[c], row[b])
}

// Whether the entry of column b is negative: a function, so that a fact on whole numbers and not on bits goes into the proof of a row.
pub fn negative(row: &[i32], b: usize) -> bool
    requires { b < length row.now }
    ensures { result ≡ lt_z (nth row.now b) (pos 0) }
{
    row[b] < 0
}

// The lowest column from lo to hi that is not in range at the pivot in column b.
pub fn unreduced(row: &[i32], b: usize, lo: usize, hi: usize) -> Option<usize>
    requires { Divisors row.now b hi }
    ensures { Unreduced row.now b lo hi result }
{
    (lo..hi).find(|&c| floor_quotient(row, b, c) != 0)
}

// The row of the lowest entry of column c of V that is not 0.
pub fn pivot_row(v: &[i32], cols: usize, c: usize) -> Option<usize>
    requires { (c < cols) × (cols * cols ≤ length v.now) }
    ensures { Lowest v.now cols c result }
{
    (0..cols).rev().find(|&k| v[c + k * cols] != 0)
}
