// The box act, R14 of docs/RULES.md.
ghost use Rattle.std.specs.Prelude.{◌≡◌, true, List, ◌+◌, ◌*◌, ◌≤◌, length};
ghost use Rattle.integers.specs.Numbers.{Within};
ghost use Rattle.tables.specs.Ranges.{greatest_order, limit_range};
ghost use Rattle.tables.specs.Checks.{order_of};
ghost use Rattle.tables.specs.Problem.{constraint_of};
ghost use Rattle.enclosure.specs.Act.{Enclosed, laid_sides, box_sizes, Loaded, box_act, box_number, Meaning};
ghost use Rattle.enclosure.specs.Stating.{stated, boxed_of};

use centre::centred::Centred;
use centre::{at_centre, gradients, near};
use sides::box_of;
use tables::bounded::Bounded;
use tables::elements::Element;
use tables::entering::{enter, order};
use tables::problem::{Lengths, Sizes, constraint_sized, lengths_of};
use tables::{Answer, GREATEST_ORDER, Refusal, Sides, TABLE_ROOM, Vector, check_ends};

// What the box act answers: sides, or that there is no point.
#[derive(Clone, Copy, Debug, PartialEq, Eq)]
pub enum BoxAnswer {
    Sides,
    Empty,
}

// At a C entry sides are 0, and 'empty' is -1.
impl Answer for BoxAnswer {
    ghost code = { box_number };

    fn code(self) -> i64 {
        match self {
            BoxAnswer::Sides => 0,
            BoxAnswer::Empty => -1,
        }
    }
}

// Refusals 8 and 9, and the box: none where it is empty; else side k stands at 2 k and 2 k + 1.
pub fn box_bounds(problem: Centred, limit: i64) -> Result<Option<Sides>, Refusal>
    requires { Within limit_range limit }
    ensures { stated problem.entry.bounds.order result ≡ boxed_of problem.entry limit }
{
    let bounds = problem.bounds;
    let t = steps::step(bounds);
    let mut g = [0i64; GREATEST_ORDER];
    gradients(problem, &mut g);
    let close = near(bounds.order, &g);
    if t <= 0 {
        return Err(Refusal::Flat);
    }
    if !close {
        return Err(Refusal::Far);
    }
    let tk = steps::steps_at(bounds);
    let d = at_centre(problem, limit);
    let sides = box_of(bounds.order, problem.centre, d, t, &tk, &g);
    Ok(sides)
}

// The same with the sides in a buffer of the size that the order calls for.
fn enclose_centred<E: Element>(
    problem: Centred,
    limit: i64,
    sides: &mut [E],
) -> Result<BoxAnswer, Refusal>
    requires { Within limit_range limit × (length sides.old ≡ E.taken (problem.bounds.order + problem.bounds.order)) }
    ensures { let k = problem.entry.bounds.order in
        ◌≡◌ {A = Enclosed (List E)} (record { answer = result; sides = sides.new })
        (laid_sides (λ x. E.elements x (k + k)) (boxed_of problem.entry limit) sides.old) }
{
    let n = problem.bounds.order;
    let given = box_bounds(problem, limit)?;
    match given {
        Some(x) => {
            E::store(&x, n + n, sides);
            Ok(BoxAnswer::Sides)
        }
        None => Ok(BoxAnswer::Empty),
    }
}

// Whether the buffers of a call have their sizes: those of the constraint, the centre of a vector, and the sides of so many pairs.
pub fn box_sized(sizes: Sizes, pairs: usize, lengths: Lengths, centre: usize, sides: usize) -> bool
    ensures { result ≡ box_sizes sizes pairs lengths centre sides }
{
    let vector = sizes.vector;
    constraint_sized(sizes, lengths) && (centre == vector && sides == pairs)
}

// The vector of order n that a buffer holds, where the buffers have their sizes; else zeros.
fn load_terms<E: Element>(n: usize, sized: bool, from: &[E]) -> Vector
    requires { (n ≤ greatest_order) × (sized ≡ true → length from.now ≡ E.taken n) }
    ensures { Loaded sized (E.numbers from.now n) result }
{
    let mut x = [0i64; GREATEST_ORDER];
    if sized {
        E::load(from, n, &mut x);
    }
    x
}

// The box, of any numbers at all, in buffers of numbers or of bytes: n is an order or not, and each buffer has any length. The linear terms
// lie between those of from and to. Refused by the first of the checks 1 to 5, 16, 8 and 9 that fails, or empty, with the buffer kept; else
// the sides are written, low and high for each k.
pub fn enclose<E: Element>(
    n: i64,
    low: &[E],
    high: &[E],
    from: &[E],
    to: &[E],
    limit: i64,
    centre: &[E],
    sides: &mut [E],
) -> Result<BoxAnswer, Refusal>
    ensures exact { ◌≡◌ {A = Enclosed (List E)} (record { answer = result; sides = sides.new })
        (box_act E.taken E.numbers E.elements n low.now high.now from.now to.now limit centre.now sides.old) }
    ensures meaning { let k = order_of n in
        Meaning result (constraint_of k (E.numbers low.now (k * k)) (E.numbers high.now (k * k)) (E.numbers from.now k)
        (E.numbers to.now k) limit) (E.numbers sides.new (k + k)) }
{
    let m = order(n)?;
    let sizes = Sizes {
        table: E::taken(m * m),
        vector: E::taken(m),
    };
    let pairs = E::taken(m + m);
    let lengths = lengths_of(low.len(), high.len(), from.len(), to.len());
    let sized = box_sized(sizes, pairs, lengths, centre.len(), sides.len());
    if !sized {
        return Err(Refusal::Length);
    }
    let a = load_terms(m, sized, from);
    let b = load_terms(m, sized, to);
    let c = load_terms(m, sized, centre);
    let within = tables::sized_within(m, sized, &a, &b, limit, &c);
    let mut l = [0i64; TABLE_ROOM];
    let mut u = [0i64; TABLE_ROOM];
    enter(n, sized, within, low, high, &mut l, &mut u)?;
    check_ends(m, &a, &b)?;
    let bounds = Bounded {
        order: m,
        low: &l,
        high: &u,
    };
    let problem = Centred {
        bounds,
        from: &a,
        to: &b,
        centre: &c,
    };
    enclose_centred(problem, limit, sides)
}
