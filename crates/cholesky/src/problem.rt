// Factoring the problem of two tables.
ghost use Rattle.std.specs.Prelude.{◌≡◌, length};
ghost use Rattle.tables.specs.Ranges.{table_room};
ghost use Rattle.tables.specs.Bounded.{low_of, high_of};
ghost use Rattle.cholesky.specs.Factoring.{factored};
ghost use Rattle.cholesky.specs.Store.{Stored};

use crate::factoring::{Stop, factor};
use crate::scaling::scale;
use tables::bounded::Bounded;
use tables::{TABLE_ROOM, Table};

// Factors H of bounds L and U into the columns of t.
pub fn factor_tables(bounds: Bounded, t: &mut Table) -> Result<(), Stop>
    requires { length t.old ≡ table_room }
    ensures { Stored (factored bounds.entry.order (low_of bounds.entry) (high_of bounds.entry)) result t.new }
{
    scale(bounds.order, bounds.low, bounds.high, t);
    factor(bounds.order, t)
}

// Whether factoring bounds L and U ends.
pub fn ends(bounds: Bounded) -> bool
    ensures { result ≡ (factored bounds.entry.order (low_of bounds.entry) (high_of bounds.entry)).ends }
{
    let mut t = [0i64; TABLE_ROOM];
    factor_tables(bounds, &mut t).is_ok()
}
