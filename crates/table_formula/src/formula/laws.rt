//! Laws of the formula: it has a model exactly where there is such a table, and its text states it.
ghost use Rattle.table_formula.specs.Laws as law;

use channel_tables::tuples_suffice;
use win_index::{
    number_of_window, prefixes_have_numbers, rings_have_windows, tuples_are_rings,
    window_of_number, windows_have_numbers,
};

/// Each table that is asked for makes all clauses of the formula hold.
pub fn solutions_satisfy()
    ensures { law.SolutionsSatisfy }
{
    tuples_suffice();
    tuples_are_rings();
    rings_have_windows();
    windows_have_numbers();
    number_of_window();
}

/// Values of the variables that make all clauses hold describe a table that is asked for, if the
/// shape and the number of channels are within the limits of tables.
pub fn models_give_solutions()
    ensures { law.ModelsGiveSolutions }
{
    tuples_suffice();
    tuples_are_rings();
    rings_have_windows();
    windows_have_numbers();
    number_of_window();
    window_of_number();
}

/// There is no table that is asked for exactly if no values make all clauses hold, within the same
/// limits.
pub fn formula_is_exact()
    ensures { law.FormulaIsExact }
{
    solutions_satisfy();
    models_give_solutions();
}

/// The text of a formula, read as DIMACS, states exactly the formula: the number of its variables,
/// and its clauses in order. No text states two formulas.
pub fn formula_text_is_read()
    ensures read { law.FormulaTextIsRead }
    ensures one { law.OneReading }
{
    prefixes_have_numbers();
    window_of_number();
}

/// An exchange makes of each table that is asked for another one, in which each literal says after
/// the exchange what it said before.
pub fn exchanges_keep_solutions()
    ensures { law.ExchangesKeepSolutions }
{
    tuples_suffice();
    tuples_are_rings();
    rings_have_windows();
    windows_have_numbers();
    number_of_window();
    window_of_number();
}
