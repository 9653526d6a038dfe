//! Problems: lists of forbidden patterns.
ghost use Rattle.std.specs.Prelude.{◌≡◌, ◌⊎◌, MatchOption};
ghost use Rattle.win_index.specs.ShapeRange.{IsExtra};
ghost use Rattle.ring_problems.specs.Patterns.{extra, is_long, IsForbidden, IsFirstMatch};

use crate::pattern::Pattern;

/// Returns by how many identifiers a tuple is longer than a window: 2 if a pattern asks something of
/// the third place, else 1.
pub fn tuple_extra(problem: &[Pattern]) -> u32
    ensures value { result ≡ extra problem.now }
    ensures range { IsExtra result }
{
    if is_long(problem) { 2 } else { 1 }
}

// Returns whether some pattern asks something of the third place.
pub(crate) fn is_long(problem: &[Pattern]) -> bool
    ensures { result ≡ is_long problem.now }
{
    for pattern in problem {
        if pattern.has_third() {
            return true;
        }
    }
    false
}

/// Returns the first pattern of the problem that the channels of three places in a row match, or `None`
/// if there is none.
pub fn first_match(
    problem: &[Pattern],
    first: Option<u32>,
    second: Option<u32>,
    third: Option<u32>,
) -> Option<Pattern>
    ensures { MatchOption result (¬ IsForbidden problem.now first second third)
        (IsFirstMatch problem.now first second third) }
{
    for pattern in problem {
        if pattern.matches(first, second, third) {
            return Some(*pattern);
        }
    }
    None
}
