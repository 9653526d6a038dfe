//! Reports of tasks: a task has one report on an input, and what reports tell of synchronous
//! rounds.

ghost use Rattle.report_laws.specs.Laws as law;

use channel_tables::{less_is_apart, one_witness, tuples_suffice};
use headline::{program_tables_are_apart, program_tables_solve, tables_are_apart_on_rings};
use lang_check::one_refusal;
use lower_bound::{nearby_places_need_four, odd_rings_need_three, tables_need_channels};
use node_lang::{first_fault, one_reading, one_text_fault, printed_is_read_back, reading_is_exact};
use problem_bounds::{independent_sets_need_rounds, matchings_need_rounds};
use reports::ring_channels::{one_list_of_channels, tables_have_channels};
use table_fill::{
    program_tables_are_tables, table_has_the_channels_of_rounds, table_has_the_channels_of_windows,
};
use table_formula::{each_text_has_a_verdict, one_refutation_verdict, refutations_are_sound};
use table_text::{one_table_fault, table_texts_are_apart, table_texts_are_read};
use value_trees::explanations_show_traces;
use win_index::{
    count_of_windows, number_of_window, one_ring_fault, places_of_arcs, rings_have_windows,
    tuples_are_rings, window_of_number, windows_have_numbers,
};

/// A task has at most one report on an input. The report is the same for every number of workers,
/// and for every number of segments in its range.
pub fn one_report()
    ensures one { law.OneReport }
    ensures workers { law.SameForWorkers }
    ensures segments { law.SameForSegments }
{
    one_reading();
    one_text_fault();
    one_refusal();
    one_ring_fault();
    one_witness();
    ring_problems::one_witness();
    one_table_fault();
    table_texts_are_apart();
    table_texts_are_read();
    one_list_of_channels();
    one_refutation_verdict();
}

/// Each task has a report on each input.
pub fn each_task_has_a_report()
    ensures { law.EachTaskHasAReport }
{
    reading_is_exact();
    first_fault();
    one_text_fault();
    tuples_suffice();
    ring_problems::tuples_suffice();
    number_of_window();
    rings_have_windows();
    windows_have_numbers();
    tables_have_channels();
    each_text_has_a_verdict();
}

/// The reports on an accepted program agree with synchronous rounds on rings (Linial 1992). The
/// status of a judge says whether their channels are apart, or solve the problem, on every ring. The line of a run
/// and the lines of a plan have their channels on the ring. The lines of a trace have the registers and the
/// messages of the ring's places, and end with the report of a run. An explanation has the value of each part of
/// each expression at its place; that of a whole expression is the number that a trace has there, or the channel
/// that a run has. A table has their channels at the windows of every ring.
pub fn reports_tell_rounds()
    ensures { law.ReportsTellRounds }
{
    one_reading();
    one_refusal();
    one_ring_fault();
    one_witness();
    ring_problems::one_witness();
    table_has_the_channels_of_rounds();
    program_tables_are_apart();
    program_tables_solve();
    explanations_show_traces();
}

/// The report of a print is a text of the same program, and the print of that text is the same
/// report.
pub fn prints_are_read_back()
    ensures { law.PrintsAreReadBack }
{
    one_reading();
    printed_is_read_back();
}

/// The report of `migrate` on a text of version 2 is that text, so a second `migrate` changes
/// nothing. The report of `audit` on the report of `table` is that of `judge` with the same near
/// and far, or on the same problem, and the report of `apply` on it that of `plan`.
pub fn table_reports_are_read_back()
    ensures keeps { law.MigrateKeepsNewTexts }
    ensures twice { law.MigrateTwiceIsOnce }
    ensures audit { law.AuditOfTableIsJudge }
    ensures solves { law.AuditOfTableSolves }
    ensures apply { law.ApplyOfTableIsPlan }
{
    table_texts_are_apart();
    table_texts_are_read();
    program_tables_are_tables();
    table_has_the_channels_of_rounds();
    one_list_of_channels();
}

/// If `audit` says yes of a table text, the channels that `apply` prints on a ring are as far apart as
/// the text asks. The ring must have at least as many nodes as a tuple, `2t+2`, or `2t+3` if far is
/// above 0.
pub fn audited_channels_are_apart()
    ensures { law.AuditedChannelsAreApart }
{
    table_texts_are_apart();
    table_texts_are_read();
    one_ring_fault();
    tables_are_apart_on_rings();
}

/// If `refute` says that a formula is refuted, no table with at least its number of identifiers, at
/// most its number of rounds and at most its number of channels keeps its separation, or one that
/// asks for more; if far is 0 in the formula alone, the table must have identifiers for a ring of
/// `2t+3` nodes.
/// So every accepted program with these numbers fails on some ring, and the judge says no. The same
/// holds of the formula of a problem: no such table and no such program solves it.
pub fn refuted_is_impossible()
    ensures table { law.NoTableIfRefuted }
    ensures program { law.NoProgramIfRefuted }
    ensures table_solves { law.NoTableSolvesIfRefuted }
    ensures program_solves { law.NoProgramSolvesIfRefuted }
{
    refutations_are_sound();
    one_reading();
    one_refusal();
    one_witness();
    ring_problems::one_witness();
    program_tables_are_tables();
    program_tables_are_apart();
    program_tables_solve();
    less_is_apart();
    tuples_suffice();
    rings_have_windows();
    number_of_window();
    window_of_number();
    windows_have_numbers();
    count_of_windows();
    places_of_arcs();
}

/// Linial's lower bound (1992): if on every ring of identifiers below `m` the channels of `t` rounds
/// of a program are below `c` and apart, `m` is at most the tower of height `2t` over those of the
/// `c` channels that are apart by near. Near must be at least 1; if far is above 0, there must be at
/// least `2t+3` identifiers. The program need not be accepted, and so has no limits.
/// An accepted one with fewer channels fails on some ring, and the judge says no.
pub fn programs_need_channels()
    ensures rounds { law.RoundsNeedChannels }
    ensures judged { law.ProgramsNeedChannels }
{
    tables_need_channels();
    table_has_the_channels_of_rounds();
    table_has_the_channels_of_windows();
    tuples_are_rings();
    one_reading();
    one_refusal();
    one_witness();
    program_tables_are_tables();
    program_tables_are_apart();
    tuples_suffice();
    number_of_window();
    windows_have_numbers();
}

/// Linial's lower bound (1992) for problems: if on every ring of identifiers below `m` the channels of
/// `t` rounds of a program are a maximal independent set (channels 0 and 1), `m` is at most the tower
/// of height `2t+2` over 3; if they are a maximal matching (0 to 2), that of height `2t` over 3. The
/// program need not be accepted, and so has no limits.
pub fn problems_need_rounds()
    ensures sets { law.IndependentSetsNeedRounds }
    ensures matchings { law.MatchingsNeedRounds }
{
    independent_sets_need_rounds();
    matchings_need_rounds();
    table_has_the_channels_of_rounds();
    table_has_the_channels_of_windows();
    tuples_are_rings();
    program_tables_solve();
}

/// From `2t+3` identifiers on there is a ring of an odd number of nodes, so that a program of `t`
/// rounds has more channels than twice near, or fails.
pub fn programs_need_three()
    ensures rounds { law.RoundsNeedThree }
    ensures judged { law.ProgramsNeedThree }
{
    odd_rings_need_three();
    table_has_the_channels_of_rounds();
    table_has_the_channels_of_windows();
    tuples_are_rings();
    one_reading();
    one_refusal();
    one_witness();
    program_tables_are_tables();
    program_tables_are_apart();
    tuples_suffice();
    number_of_window();
    windows_have_numbers();
}

/// If far is above 0, a program needs four channels if a ring can have a number of nodes that is no
/// multiple of three, and five if a ring can have five nodes, whatever it computes.
pub fn programs_need_four()
    ensures four { law.RoundsNeedFour }
    ensures five { law.RoundsNeedFive }
{
    nearby_places_need_four();
    table_has_the_channels_of_rounds();
    table_has_the_channels_of_windows();
    tuples_are_rings();
    program_tables_are_apart();
}

/// The note on a list that is no ring, on a place that a ring has not, on a number of segments, on
/// a fault of a refutation, on a no, or on a yes over no tuples or with a pattern that never matches is
/// one text.
#[tactic(auto, using(crate::proofs::OneNote::one_note))]
pub fn one_note()
    ensures { law.OneNote }
{}
