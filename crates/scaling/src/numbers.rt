// Arithmetic on one value: entries have 32 bits, what lies between has 64.
ghost use Rattle.std.specs.Prelude.{◌≡◌, ◌<◌, nat_abs, neg_ℤ};
ghost use Rattle.whole.specs.Division.{floor_z};
ghost use Rattle.scaling.specs.Strided.{keep};

// -x, or 0 where that is beyond M. So a loop needs to know nothing of the values that it meets.
pub fn opposite(x: i32) -> i32
    ensures { result ≡ keep (neg_ℤ x) }
{
    x.checked_neg().unwrap_or(0)
}

// The floored quotient of x by y: the one cut toward zero, lowered by one if the remainder is not 0 and has another sign than y.
pub fn floor(x: i32, y: i32) -> i64
    requires { 0 < nat_abs y }
    ensures { result ≡ floor_z x y }
{
    let x = i64::from(x);
    let y = i64::from(y);
    let q = x / y;
    let r = x % y;
    if r != 0 && (r < 0) != (y < 0) {
        q - 1
    } else {
        q
    }
}
