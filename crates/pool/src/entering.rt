// R27.2 and R27.3 of docs/RULES.md: how many problems there are, and checks 1 and 2 of a pool.
ghost use Rattle.std.specs.Prelude.{◌≡◌, ◌*◌, ◌≤◌, ◌<◌, length};
ghost use Rattle.tables.specs.Ranges.{greatest_order};
ghost use Rattle.tables.specs.Checks.{first_refusal, order_of};
ghost use Rattle.pool.specs.Pool.{greatest_pool, count_of, orders_ok, orders_same, pool_entry_checks};
ghost use Rattle.pool.specs.Act.{pool_sized};
ghost use Rattle.pool.specs.Required.{counted};

use crate::GREATEST_POOL;
use tables::entering::order_of;
use tables::problem::{Lengths, Sizes, constraint_sized};
use tables::{Refusal, order_ok};

// How many problems a list of orders of this length stands for, where a number takes `unit`: none where it has not 1 to 64 whole numbers.
pub fn count_of(unit: usize, length: usize) -> Option<usize>
    requires { 0 < unit }
    ensures { result ≡ counted (count_of unit length) }
{
    if length % unit != 0 {
        return None;
    }
    let count = length / unit;
    if count < 1 || GREATEST_POOL < count {
        return None;
    }
    Some(count)
}

// Check 1: whether n and the first numbers of orders, count of them, are orders.
fn orders_ok(n: i64, count: usize, orders: &[i64]) -> bool
    requires { count ≤ length orders.now }
    ensures { result ≡ orders_ok n count orders.now }
{
    if !order_ok(n) {
        return false;
    }
    orders[..count].iter().all(|v| order_ok(*v))
}

// Check 2, of the list of orders: whether there is a problem, and the first numbers of orders, count of them, are n.
fn orders_same(n: i64, count: usize, orders: &[i64]) -> bool
    requires { count ≤ length orders.now }
    ensures { result ≡ orders_same n count orders.now }
{
    if count < 1 {
        return false;
    }
    orders[..count].iter().all(|v| *v == n)
}

// Check 2, of the other buffers: whether sums of order n and the lists of count problems have their sizes, where a number takes `unit`.
fn pool_sized(
    unit: usize,
    n: usize,
    count: usize,
    sums: Lengths,
    limit: usize,
    problems: Lengths,
    limits: usize,
) -> bool
    requires { (unit ≤ 8) × (n ≤ greatest_order) × (count ≤ greatest_pool) }
    ensures { result ≡ pool_sized unit n count sums limit problems limits }
{
    let one = Sizes {
        table: n * n * unit,
        vector: n * unit,
    };
    let all = Sizes {
        table: count * (n * n) * unit,
        vector: count * n * unit,
    };
    constraint_sized(one, sums)
        && (limit == unit && (constraint_sized(all, problems) && limits == count * unit))
}

// Checks 1 and 2 of a pool of count problems, whose orders stand at the front of a list, where a number takes `unit`.
pub fn check_entry(
    unit: usize,
    n: i64,
    count: usize,
    orders: &[i64],
    sums: Lengths,
    limit: usize,
    problems: Lengths,
    limits: usize,
) -> Result<(), Refusal>
    requires { (unit ≤ 8) × (count ≤ greatest_pool) × (count ≤ length orders.now) }
    ensures { result ≡ first_refusal (pool_entry_checks n count orders.now (pool_sized unit (order_of n) count sums limit
        problems limits)) }
{
    if !orders_ok(n, count, orders) {
        return Err(Refusal::Order);
    }
    if !orders_same(n, count, orders) {
        return Err(Refusal::Length);
    }
    if !pool_sized(unit, order_of(n), count, sums, limit, problems, limits) {
        return Err(Refusal::Length);
    }
    Ok(())
}
