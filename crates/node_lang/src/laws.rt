//! Laws of reading and printing.
ghost use Rattle.node_lang.specs.Laws as law;

/// Program texts are unambiguous: a text reads as at most one program.
#[tactic(auto, using(crate::proofs::Judging::one_reading))]
pub fn one_reading()
    ensures { law.OneReading }
{}

/// The reading from the left is exact: on ASCII texts of at most `LONGEST_TEXT` bytes it returns a
/// program exactly if the text reads as that program.
#[tactic(auto, using(crate::proofs::Judging::readable_is_read, crate::proofs::Judging::read_is_readable))]
pub fn reading_is_exact()
    ensures complete { law.ReadableTextsAreRead }
    ensures sound { law.ReadTextsAreReadable }
{}

/// Printing round-trips: the printed form of a program reads as that program, and is shorter than
/// `LONGEST_TEXT` bytes.
#[tactic(auto, using(crate::proofs::PrintedTokens::printed_reads, crate::proofs::PrintedTokens::printed_length))]
pub fn printed_is_read_back()
    ensures reads { law.PrintedIsRead }
    ensures short { law.PrintedIsShort }
{}

/// A text has at most one fault, and none if it reads as a program.
#[tactic(auto, using(crate::proofs::Judging::one_fault, crate::proofs::Judging::no_fault))]
pub fn one_text_fault()
    ensures one { law.OneTextFault }
    ensures none { law.ReadableTextsHaveNoFault }
{}

/// Reading from the left stops exactly at the first fault of a text's lexemes.
#[tactic(auto, using(crate::proofs::Judging::first_fault_of, crate::proofs::Judging::stops_at_first_fault))]
pub fn first_fault()
    ensures first { law.ReadingStopsAtFirstFault }
    ensures only { law.FirstFaultStopsReading }
{}
