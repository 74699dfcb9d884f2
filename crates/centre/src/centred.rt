// A bounded matrix with linear terms and a centre, as everything behind the door reads them: numbers that passed check 3 of docs/RULES.md.
ghost use Rattle.centre.specs.Required.{LinearTerms};

use tables::bounded::Bounded;

// Bounds, linear terms between those of from and to, and a centre: the first numbers of each, as many as the bounds' order.
#[derive(Clone, Copy, Debug, PartialEq, Eq)]
pub struct Centred<'a> {
    pub bounds: Bounded<'a>,
    pub from: &'a [i64],
    pub to: &'a [i64],
    pub centre: &'a [i64],
    pub ghost terms: { LinearTerms bounds.order from.now to.now centre.now },
}
