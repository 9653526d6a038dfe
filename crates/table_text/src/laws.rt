//! Laws of table texts.
ghost use Rattle.table_text.specs.Laws as law;

use win_index::{count_of_windows, number_of_window, windows_have_numbers};

/// No table text of either version is a prefix of another one, and different pairs of a table and a
/// separation have different texts.
pub fn table_texts_are_apart()
    ensures { law.TableTextsAreApart }
{}

/// A table text of either version is at most `LONGEST_TABLE_TEXT` bytes long.
pub fn table_texts_are_short()
    ensures { law.TableTextsAreShort }
{
    count_of_windows();
    number_of_window();
    windows_have_numbers();
}

/// A table text of either version has no fault except `OutOfMemory`.
pub fn table_texts_are_read()
    ensures { law.TableTextsAreRead }
{
    table_texts_are_short();
    number_of_window();
    windows_have_numbers();
}

/// A text has at most one fault besides `OutOfMemory`. A text longer than `LONGEST_TABLE_TEXT`
/// bytes has that of its length alone.
pub fn one_table_fault()
    ensures one { law.OneTableFault }
    ensures long { law.LongTextsHaveOneFault }
{
    number_of_window();
    windows_have_numbers();
}
