//! Why the values of options say nothing that a task can demand of channels.

use thiserror::Error;

/// Why a text is not a pattern text, by the first of its entries that is none.
#[derive(Clone, Copy, Debug, PartialEq, Eq)]
pub enum PatternFault {
    /// It has more than three entries.
    ManyEntries,
    /// The entry is empty.
    NoEntry,
    /// The entry has a blank.
    Blank,
    /// The entry is another word that is neither `*` nor a number.
    NoChannel,
    /// The entry is a number above 4294967295.
    LargeChannel,
}

impl PatternFault {
    ghost use Rattle.std.specs.Prelude.{◌≡◌};
    ghost use Rattle.task_words.specs.PatternTips.{fault_text};

    // Returns what is wrong with the text.
    pub(crate) fn text(self) -> &'static str
        ensures { result.now ≡ fault_text self }
    {
        match self {
            PatternFault::ManyEntries => "it has more than three entries",
            PatternFault::NoEntry => "an entry is empty",
            PatternFault::Blank => "it has a blank",
            PatternFault::NoChannel => "an entry is neither a number nor `*`",
            PatternFault::LargeChannel => "a channel is above 4294967295",
        }
    }
}

/// Why the values of `--forbid`, `--problem`, `--near` and `--far` are no demand.
#[derive(Clone, Copy, Debug, PartialEq, Eq, Error)]
pub enum DemandFault {
    /// Two of these are given: `--forbid`, `--problem`, and `--near` or `--far`.
    #[error("options that exclude one another")]
    TwoDemands,
    /// The value of `--problem` is not the name of a problem.
    #[error("unknown problem")]
    UnknownProblem,
    /// `--forbid` is given more than `MAX_PATTERNS` times.
    #[error("too many patterns")]
    ManyPatterns,
    /// A value of `--forbid` is not a pattern text, and the first such value is none for this cause.
    #[error("bad pattern")]
    BadPattern(PatternFault),
}

impl DemandFault {
    ghost use Rattle.std.specs.Prelude.{◌≡◌};
    ghost use Rattle.task_words.specs.PatternTips.{demand_line};

    /// Returns the line on how to mend the options.
    pub fn line(self) -> &'static str
        ensures { result.now ≡ demand_line self }
    {
        match self {
            DemandFault::TwoDemands =>
                "nbhd: patterns by `--forbid`, a problem by `--problem`, or differences by `--near` and `--far`: one of these three is given",
            DemandFault::UnknownProblem =>
                "nbhd: `--problem` takes mis, matching or weak2; another problem is given by its patterns, as in `--forbid 1,1`",
            DemandFault::ManyPatterns => "nbhd: `--forbid` is given at most 256 times",
            DemandFault::BadPattern(_) =>
                "nbhd: a pattern is one to three channels, or `*` for any, with single commas, as 1,1 or '0,*,0'",
        }
    }
}
