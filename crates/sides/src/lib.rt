// R13 and R14 of docs/RULES.md: from D, t, t(k), g(k) and the centre to the sides.
#![tactic(auto)]

ghost use Rattle.std.specs.Prelude.{◌≡◌, pos, ◌+ℤ◌, ◌*ℤ◌};
ghost use Rattle.integers.specs.Numbers.{Within};
ghost use Rattle.integers.specs.Sum.{sum};
ghost use Rattle.integers.specs.Division.{ceil_div};
ghost use Rattle.integers.specs.Root.{least_root};
ghost use Rattle.tables.specs.Ranges.{greatest_order};
ghost use Rattle.tables.specs.Matrix.{nth};
ghost use Rattle.tables.specs.Buffers.{Filled};
ghost use Rattle.arithmetic.specs.Required.{bound_range, ProductTerms};
ghost use Rattle.sides.specs.Sides.{bound, smaller_half, box_of};
ghost use Rattle.sides.specs.Required.{difference_range, Near, SidesReady, Halved, SidesIn, box_in};

use arithmetic::{ceil_div, least_root, product_sum};
use integers::smaller;
use tables::{GREATEST_ORDER, SIDES_ROOM, Sides, Vector};

// B
fn bound(n: usize, d: i64, t: i64, g: &Vector) -> i64
    requires { Near n t g.now × Within difference_range d }
    ensures { result ≡ bound n d t (nth g.now) }
{
    let squares = product_sum(n, g, g);
    d + ceil_div(squares, t)
}

// Y(k) for each k below n.
fn first_halves(n: usize, t: i64, g: &Vector, b: i64) -> Vector
    requires { Near n t g.now × Within bound_range b }
    ensures { Filled greatest_order n (λ k. ceil_div (nth g.now k) t +ℤ least_root t b) result }
{
    let s = least_root(t, b);
    let mut y = [0i64; GREATEST_ORDER];
    for k in 0..n {
        y[k] = ceil_div(g[k], t) + s;
    }
    y
}

// B2
fn second_bound(n: usize, d: i64, g: &Vector, y: &Vector) -> i64
    requires { ProductTerms n g.now y.now × Within difference_range d }
    ensures { result ≡ d +ℤ pos 2 *ℤ sum n (λ k. nth g.now k *ℤ nth y.now k) }
{
    let products = product_sum(n, g, y);
    d + 2 * products
}

// h: the smaller of Y(k) and Z(k), or Y(k) where t(k) is 0.
fn half_side(y: i64, t: i64, b: i64) -> i64
    requires { Within bound_range b }
    ensures { result ≡ smaller_half y t b }
{
    if t <= 0 {
        return y;
    }
    let z = least_root(t, b);
    smaller(y, z)
}

// The sides: low, then high, for each k.
fn sides_from(n: usize, c: &[i64], tk: &Vector, y: &Vector, b: i64) -> Sides
    requires { Halved n c.now y.now b }
    ensures { SidesIn n (nth c.now) (λ k. smaller_half (nth y.now k) (nth tk.now k) b) result }
{
    let mut sides = [0i64; SIDES_ROOM];
    for k in 0..n {
        let h = half_side(y[k], tk[k], b);
        let x = c[k];
        let low = x - h;
        let high = x + h;
        sides[2 * k] = low;
        sides[2 * k + 1] = high;
    }
    sides
}

// The box: none where it is empty; else side k stands at 2 k and 2 k + 1.
pub fn box_of(n: usize, c: &[i64], d: i64, t: i64, tk: &Vector, g: &Vector) -> Option<Sides>
    requires { SidesReady n c.now d t g.now }
    ensures { box_in n result ≡ box_of n (nth c.now) d t (nth tk.now) (nth g.now) }
{
    let b = bound(n, d, t, g);
    if b < 0 {
        return None;
    }
    let y = first_halves(n, t, g, b);
    let b2 = second_bound(n, d, g, &y);
    if b2 < 0 {
        return None;
    }
    let sides = sides_from(n, c, tk, &y, b2);
    Some(sides)
}
