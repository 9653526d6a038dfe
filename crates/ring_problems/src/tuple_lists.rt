//! The tuples of a shape, by their numbers.
ghost use Rattle.std.specs.Prelude.{◌≡◌, ◌+◌, ◌-◌, ◌*◌, ◌<◌, true, Some, length, slice_get};
ghost use Rattle.ring_problems.specs.Patterns.{extra, is_long};
ghost use Rattle.ring_problems.specs.TupleLists.{tuples_below, per_pair, ring_of, IsTuple};

use crate::pattern::Pattern;
use crate::patterns::is_long;
use win_index::Shape;

/// Returns the number of tuples that are tested for a problem: all lists of `2t+2` distinct
/// identifiers; if a pattern asks something of the third place, each of them with each further
/// identifier that is none of its second to its last.
pub fn tuple_count(shape: Shape, problem: &[Pattern]) -> u64
    ensures { result ≡ length (tuples_below shape.ids shape.rounds problem.now) }
{
    shape.tuples(1) * tuples_per_pair(shape, problem)
}

// Returns the number of tuples that begin with the same `2t+2` identifiers.
pub(crate) fn tuples_per_pair(shape: Shape, problem: &[Pattern]) -> u64
    ensures { result ≡ per_pair shape.ids shape.rounds problem.now }
{
    if is_long(problem) {
        u64::from(shape.ids() - (2 * shape.rounds() + 1))
    } else {
        1
    }
}

/// Writes the tuple with this number to the cells of `out`, one for each of its identifiers.
pub fn write_tuple(shape: Shape, problem: &[Pattern], number: u64, out: &mut [u32])
    requires below { number < length (tuples_below shape.ids shape.rounds problem.now) }
    requires room { length out.old ≡ 2 * shape.rounds + 1 + extra problem.now }
    ensures item { slice_get (tuples_below shape.ids shape.rounds problem.now) number ≡ Some out.new }
    ensures tuple { IsTuple shape.ids shape.rounds problem.now out.new }
{
    if is_long(problem) {
        write_long(shape, problem, number, out);
    } else {
        shape.tuple(1, number, out);
    }
}

// Like `write_tuple`, if a pattern asks something of the third place: writes the first `2t+2`
// identifiers, and then the last `2t+2` over them.
fn write_long(shape: Shape, problem: &[Pattern], number: u64, out: &mut [u32])
    requires long { is_long problem.now ≡ true }
    requires below { number < length (tuples_below shape.ids shape.rounds problem.now) }
    requires room { length out.old ≡ 2 * shape.rounds + 1 + extra problem.now }
    ensures item { slice_get (tuples_below shape.ids shape.rounds problem.now) number ≡ Some out.new }
{
    let len = 2 * shape.rounds() as usize + 2;
    let each = tuples_per_pair(shape, problem);
    shape.tuple(1, number / each, &mut out[..len]);
    let middle = shape.window_number(shape.rounds(), &out[1..len]);
    shape.tuple(1, u64::from(middle) * each + number % each, &mut out[1..]);
}

/// Returns the ring of a tuple: without its last identifier if that is the first one again.
pub(crate) fn ring_of(tuple: &[u32]) -> &[u32]
    requires { 0 < length tuple.now }
    ensures { result.now ≡ ring_of tuple.now }
{
    let last = tuple.len() - 1;
    if tuple[last] == tuple[0] {
        &tuple[..last]
    } else {
        tuple
    }
}
