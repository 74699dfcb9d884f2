// Numbers of 64 bits: |x|, sums of products, and quotients and roots that are rounded up.
#![tactic(auto)]

ghost use Rattle.std.specs.Prelude.{◌≡◌, ◌^◌, pos, ◌*ℤ◌, ◌≤ℤ◌};
ghost use Rattle.integers.specs.Numbers.{Within, abs_ℤ};
ghost use Rattle.integers.specs.Sum.{sum};
ghost use Rattle.integers.specs.Division.{ceil_div};
ghost use Rattle.integers.specs.Root.{least_root};
ghost use Rattle.tables.specs.Matrix.{nth};
ghost use Rattle.arithmetic.specs.Required.{bound_range, ProductTerms};

// |x|
pub fn absolute(x: i64) -> i64
    requires { Within (2 ^ 62) x }
    ensures { result ≡ abs_ℤ x }
{
    if x < 0 { -x } else { x }
}

// The sum of x(k) y(k).
pub fn product_sum(n: usize, x: &[i64], y: &[i64]) -> i64
    requires { ProductTerms n x.now y.now }
    ensures { result ≡ sum n (λ k. nth x.now k *ℤ nth y.now k) }
{
    let mut s: i64 = 0;
    for k in 0..n {
        s += x[k] * y[k];
    }
    s
}

// a / d rounded up (R1.2).
pub fn ceil_div(a: i64, d: i64) -> i64
    requires { Within bound_range a × (pos 1 ≤ℤ d) }
    ensures { result ≡ ceil_div a d }
{
    -integers::floor_div(-a, d)
}

// The least root of b over t (R1.4): s² is to be at least b / t rounded up.
pub fn least_root(t: i64, b: i64) -> i64
    requires { Within bound_range b × (pos 1 ≤ℤ t) }
    ensures { result ≡ least_root t b }
{
    let q = ceil_div(b, t);
    if q <= 0 {
        return 0;
    }
    integers::whole_root(q - 1) + 1
}
