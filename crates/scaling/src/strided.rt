// Loops over the entries of a list that stand a stride apart: a column of T or V, or a row of W.
// An index, a stride and a count stay three parameters: a struct for them would be made anew at each call, of other
// numbers; and so each asks `Within`.
ghost use Rattle.std.specs.Prelude.{◌≡◌, ◌<◌, ◌≤◌, ◌*◌, length, nat_abs};
ghost use Rattle.scaling.specs.Strided.{Within, Added, swap_f, neg_f, rotate_f};

use crate::numbers::opposite;
use checks::beyond;

// a[to + k * stride] gains q times a[from + k * stride], for each k below count, until a value is beyond M: whether one was (the flag of R13.2).
#[tactic(auto, unfolding(crate::specs::Strided::add_f, crate::specs::Strided::add_o))]
pub fn add(a: &mut [i32], to: usize, from: usize, stride: usize, count: usize, q: i64) -> bool
    requires within { Within a.old to stride count }
    requires within_2 { Within a.old from stride count }
    requires q_bound { nat_abs q ≤ 2147483648 }
    ensures { Added a.old a.new to from stride q count result }
{
    for k in 0..count {
        let at = to + k * stride;
        let z = i64::from(a[at]) + q * i64::from(a[from + k * stride]);
        if beyond(z) {
            return true;
        }
        // z is within M: nothing is cut off. `try_from` would let one value beyond M through, the lowest of 32 bits.
        a[at] = z as i32;
    }
    false
}

#[tactic(auto, unfolding(crate::specs::Strided::swap_f))]
pub fn swap(a: &mut [i32], one: usize, two: usize, stride: usize, count: usize)
    requires within { Within a.old one stride count }
    requires within_2 { Within a.old two stride count }
    ensures { a.new ≡ swap_f a.old one two stride count }
{
    for k in 0..count {
        a.swap(one + k * stride, two + k * stride);
    }
}

#[tactic(auto, unfolding(crate::specs::Strided::neg_f))]
pub fn negate(a: &mut [i32], at: usize, stride: usize, count: usize)
    requires { Within a.old at stride count }
    ensures { a.new ≡ neg_f a.old at stride count }
{
    for k in 0..count {
        let x = &mut a[at + k * stride];
        *x = opposite(*x);
    }
}

// Each of the first rows of a, width long, is turned: its entries from `by` on come before those below. Entry by entry from a copy: `rotate_left`
// would need the C library's `memmove`, and the archive for C needs memcpy and memset alone.
#[tactic(auto, unfolding(crate::specs::Strided::rotate_f))]
pub fn rotate<const N: usize>(a: &mut [i32; N], rows: usize, width: usize, by: usize)
    requires { (0 < width) × (by ≤ width) × (rows * width ≤ length a.old) }
    ensures { a.new ≡ rotate_f a.old a.old width by (rows * width) }
{
    let old = *a;
    for k in 0..rows * width {
        a[k] = old[k / width * width + (k % width + by) % width];
    }
}
