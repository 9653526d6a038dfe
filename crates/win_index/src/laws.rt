//! Laws of windows, tuples and rings.
ghost use Rattle.win_index.specs.Laws as law;

/// The window with number `n` has number `n`.
#[tactic(auto, using(crate::proofs::Positions::number_of_is))]
pub fn number_of_window()
    ensures { law.NumberOfWindow }
{}

/// The window at the number of a list is that list.
#[tactic(auto, using(crate::proofs::Positions::number_of_some))]
pub fn window_of_number()
    ensures { law.WindowOfNumber }
{}

/// A list has a number if and only if its elements are `k` distinct numbers below `m`.
#[tactic(auto, using(crate::proofs::Positions::has_number))]
pub fn windows_have_numbers()
    ensures { law.WindowsHaveNumbers }
{}

/// The windows are in lexicographic order.
#[tactic(auto, using(crate::proofs::Order::in_order))]
pub fn windows_are_in_order()
    ensures { law.WindowsAreInOrder }
{}

/// There are `m (m-1) .. (m-k+1)` windows of length `k` below `m`, a product of `k` numbers.
pub fn count_of_windows()
    ensures { law.CountOfWindows }
{}

/// The windows of `k+1` identifiers with the same first `k` are consecutive, in the order of their
/// last identifiers.
pub fn longer_windows_have_numbers()
    ensures { law.LongerWindowsHaveNumbers }
{}

/// The windows of `k+j` identifiers with the same first `k` are consecutive, as many for each
/// prefix, in the order of the prefixes.
#[tactic(auto, using(crate::proofs::BucketPrefixNumbers::prefix_number))]
pub fn prefixes_have_numbers()
    ensures { law.PrefixesHaveNumbers }
{}

/// The identifiers around a place of a ring are a window.
pub fn rings_have_windows()
    ensures { law.RingsHaveWindows }
{}

/// A list of `2t+1+extra` distinct identifiers, taken as a ring, has its own windows at the places
/// `t` to `t+extra`.
pub fn tuples_are_rings()
    ensures { law.TuplesAreRings }
{}

/// The identifiers from `t` places to the left of a place of a ring to `t+extra` places to its
/// right are distinct, and contain the windows of this place and of the `extra` places after it.
pub fn rings_have_tuples()
    ensures { law.RingsHaveTuples }
{}

/// An arc has the requested number of identifiers; the `k`-th is that of the place `k` steps after
/// its start, around the ring.
#[tactic(auto, using(crate::proofs::Arcs::length_arc, crate::proofs::Arcs::item_of_arc))]
pub fn places_of_arcs()
    ensures length { law.LengthOfArcs }
    ensures item { law.ItemsOfArcs }
{}

/// The windows of a level of a shape fill at most `MAX_BLOCKS` blocks.
#[tactic(auto, using(crate::proofs::JobPlaces::few_blocks))]
pub fn blocks_are_few()
    ensures { law.BlocksAreFew }
{}

/// Each job is at its number and nowhere else. A block of a level has a job if and only if the
/// level is at most the number of rounds and the block is below the level's number of blocks.
#[tactic(auto, using(crate::proofs::JobNumbers::number_of_job, crate::proofs::JobNumbers::has_job_number))]
pub fn jobs_have_numbers()
    ensures at { law.JobsStandAtNumbers }
    ensures exact { law.BlocksHaveJobs }
{}

/// A list has at most one first fault, and a ring has none.
#[tactic(auto, using(crate::proofs::OneFault::one_fault, crate::proofs::OneFault::no_fault))]
pub fn one_ring_fault()
    ensures one { law.OneRingFault }
    ensures none { law.RingsHaveNoFault }
{}
