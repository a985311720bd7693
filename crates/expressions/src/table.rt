// A table of expressions, numbered from 0.
ghost use Rattle.std.specs.Prelude.{◌≡◌, ◌≤◌, length};

use crate::expression::Expression;

// The most expressions that a table holds.
pub const PLACES: usize = 64;

// An array with a count: to number expressions takes no memory that could be wanting, and a kind of fact holds its table by
// value, so that the table is `Copy`, which the vectors of fixed capacity of the library are not. `room` says in proofs over
// tables what the type of the array says in code.
#[derive(Clone, Copy)]
pub struct Expressions {
    pub(crate) items: [Expression; PLACES],
    pub(crate) count: usize,
    ghost room: { length items ≡ 64 },
    ghost small: { count ≤ 64 },
}
