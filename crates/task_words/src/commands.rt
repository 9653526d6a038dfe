//! The commands, in a table.

use crate::option_rows::{
    BASE, CHANNELS, FAR, FORBID, FORMAT, IDS, NEAR, OptionRow, PLACE, PROBLEM, RING, ROUNDS,
    SEGMENTS, WORKERS,
};

// A command. `about` is its line in the help of the program. `details` ends its own help: its input,
// its output and its exit statuses.
#[derive(Clone, Copy)]
pub(crate) struct CommandRow {
    pub(crate) name: &'static str,
    pub(crate) about: &'static str,
    pub(crate) details: &'static str,
    pub(crate) options: &'static [OptionRow],
}

// The details of a command: these texts, and its exit statuses. `program` stands before what a command on a program
// text prints, and the numbers of identifiers that each number of rounds allows (enough for a ring, and at most
// `win_index::MAX_WINDOWS` windows); `ring` also before the minimum length of a ring; `problem` between a text and
// what patterns and problems are.
macro_rules! details {
    ([$($text:literal),+] $($code:literal $meaning:literal),+) => {
        concat!($($text,)+ "\nExit status:" $(, "\n  ", $code, "  ", $meaning)+)
    };
    (program: $output:literal, $($more:literal),+; $($code:literal $meaning:literal),+) => {
        details!(["Standard input:  a program text\nStandard output: ", $output, "

M is 2 to 1024 for 0 rounds, 4 to 162 for 1 round, 6 to 23 for 2, 8 to 12 for 3, 10 for 4 rounds.
", $($more),+] $($code $meaning),+)
    };
    (ring: $output:literal, $more:literal; $($code:literal $meaning:literal),+) => {
        details!(program: $output,
            "The ring has at least 2, 4, 6, 8 or 10 identifiers for 0 to 4 rounds, below M, no two the same.
", $more; $($code $meaning),+)
    };
    (problem: $text:literal; $($code:literal $meaning:literal),+) => {
        details!([$text, "
A pattern forbids channels in a row, from a node on to the right: with --forbid 1,1 no two neighbours
have channel 1, and with --forbid '0,*,0' no two nodes at distance two have channel 0. A problem is
such patterns, by one --forbid for each, or by its name, as in --problem mis:
  mis       0,0,0 1,1            a maximal independent set: its nodes have channel 1, the others 0
  matching  0,0 1,0 1,1 0,2 2,2  a maximal matching: 1 with the right neighbour, 2 with the left, 0 alone
  weak2     0,0,0 1,1,1          a weak colouring: each node has a neighbour of the other channel
A problem is given in one of these two ways, and without --near and --far.
"] $($code $meaning),+)
    };
}

pub(crate) const CHECK: CommandRow = CommandRow {
    name: "check",
    about: "Tells whether a program is accepted for M identifiers",
    details: details!(program: "one line: the program is accepted, or what is refused", "";
        0 "the program is accepted", 2 "the words are refused", 3 "the program is refused",
        5 "reading or writing failed", 6 "memory was refused"),
    options: &[IDS, FORMAT],
};

const PRINT: CommandRow = CommandRow {
    name: "print",
    about: "Prints a program text in its one printed form",
    details: details!(["Standard input:  a program text
Standard output: the same program with one line for each of its parts and without comments,
                 or one line: what is refused

The text is only read: `nbhd check` tells whether the program is accepted for M identifiers.
"] 0 "the program is printed", 2 "the words are refused", 3 "the program text is refused",
    5 "reading or writing failed", 6 "memory was refused"),
    options: &[FORMAT],
};

const TABLE: CommandRow = CommandRow {
    name: "table",
    about: "Prints the table of a program, one channel per window",
    details: details!(program: "the table text, or one line: what is refused",
        "The text also tells near and far, by which `nbhd audit` judges the table.
";
        0 "the table is printed", 2 "the words are refused", 3 "the program is refused", 5 "reading or writing failed",
        6 "memory or a thread was refused"),
    options: &[IDS, WORKERS, NEAR, FAR, FORMAT],
};

const JUDGE: CommandRow = CommandRow {
    name: "judge",
    about: "Tells whether a program keeps channels far apart, or solves a problem, on every ring",
    details: details!(problem: "Standard input:  a program text
Standard output: one line: yes, or no with a ring where channels are not as they have to be,
                 or what is refused

M is 2 to 1024 for 0 rounds, 4 to 162 for 1 round, 6 to 23 for 2, 8 to 12 for 3, 10 for 4 rounds.
Without further options, neighbours' channels have to differ. With --near 2 --far 1, for example,
they have to differ by 2 or more, and the channels of a node's two neighbours have to differ as well.
";
        0 "yes", 1 "no", 2 "the words are refused", 3 "the program is refused", 5 "reading or writing failed",
        6 "memory or a thread was refused"),
    options: &[IDS, WORKERS, NEAR, FAR, FORBID, PROBLEM, FORMAT],
};

const RUN: CommandRow = CommandRow {
    name: "run",
    about: "Runs a program by messages on a ring, and prints the channels",
    details: details!(ring: "one line: the channels in the order of the ring, or what is refused",
        "It is cut into at most as many segments as it has identifiers.
";
        0 "the channels are printed",
        2 "the words are refused, or there are more segments than identifiers in the ring", 3 "the program is refused",
        4 "the ring is refused", 5 "reading or writing failed", 6 "memory or a thread was refused"),
    options: &[IDS, RING, SEGMENTS, FORMAT],
};

const TRACE: CommandRow = CommandRow {
    name: "trace",
    about: "Runs a program on a ring, and prints what its nodes hold and send in each round",
    details: details!(ring: "lines with a number for each place of the ring, or one line: what is refused",
        "The lines are:
  ring ..           the identifier of each place
  start r0 ..       what a register holds after the assignments of start; one line for each register
  round 1 left ..   what each place sends to its left neighbour in a round
  round 1 right ..  what each place sends to its right neighbour
  round 1 r0 ..     what a register holds after the round; one line for each register
  finish ..         the channels

In another base than 10 all numbers of a line are as wide as the widest.
";
        0 "the lines are printed", 2 "the words are refused", 3 "the program is refused", 4 "the ring is refused",
        5 "reading or writing failed", 6 "memory was refused"),
    options: &[IDS, RING, BASE, FORMAT],
};

const EXPLAIN: CommandRow = CommandRow {
    name: "explain",
    about: "Runs a program on a ring, and prints how one node computes each of its values",
    details: details!(ring: "each expression of the program with its values, or one line: what is refused",
        "Each expression is below a line that says what it gives to the node:
  start r0          what a register holds after the assignments of start
  round 1 left      what the node sends to its left neighbour in a round
  round 1 right     what it sends to its right neighbour
  round 1 r0        what a register holds after the round
  finish            the channel

The expression follows as a tree: a line for each of its parts, with the value of the part. The
operands of a part are below it, after one blank more. In another base than 10 all values of a tree
are as wide as the widest.
";
        0 "the lines are printed", 2 "the words are refused", 3 "the program is refused",
        4 "the ring is refused, or it has no such place", 5 "reading or writing failed", 6 "memory was refused"),
    options: &[IDS, RING, PLACE, BASE, FORMAT],
};

const PLAN: CommandRow = CommandRow {
    name: "plan",
    about: "Prints the channels of a ring's places, looked up in the table",
    details: details!(ring: "one line for each place of the ring: the place, its identifier and its channel;
                 or one line: what is refused", "";
        0 "the channels are printed", 2 "the words are refused", 3 "the program is refused", 4 "the ring is refused",
        5 "reading or writing failed", 6 "memory or a thread was refused"),
    options: &[IDS, RING, WORKERS, FORMAT],
};

const AUDIT: CommandRow = CommandRow {
    name: "audit",
    about: "Tells whether a table keeps channels far apart, or solves a problem, on every ring",
    details: details!(problem: "Standard input:  a table text, as `nbhd table` prints it
Standard output: one line: yes, or no with a ring where channels are not as they have to be,
                 or what is refused

Without a problem, near and far of the text tell how far apart channels have to be; a text of version 1
has near 1 and far 0: neighbours' channels have to differ. With a problem, near and far of the text
are left aside.
";
        0 "yes", 1 "no", 2 "the words are refused", 3 "the table text is refused", 5 "reading or writing failed",
        6 "memory or a thread was refused"),
    options: &[FORBID, PROBLEM, FORMAT],
};

const APPLY: CommandRow = CommandRow {
    name: "apply",
    about: "Prints the channels of a ring's places, looked up in a table text",
    details: details!(["Standard input:  a table text, as `nbhd table` prints it
Standard output: one line for each place of the ring: the place, its identifier and its channel;
                 or one line: what is refused

The ring has at least 2, 4, 6, 8 or 10 identifiers for a table of 0 to 4 rounds, below the ids of the
text, no two the same. `nbhd audit` tells whether channels are far enough apart on every ring.
"] 0 "the channels are printed", 2 "the words are refused", 3 "the table text is refused", 4 "the ring is refused",
    5 "reading or writing failed", 6 "memory was refused"),
    options: &[RING, FORMAT],
};

const MIGRATE: CommandRow = CommandRow {
    name: "migrate",
    about: "Prints a table text of any version in the newest one",
    details: details!(["Standard input:  a table text of version 1 or 2
Standard output: the text of the same table, near and far in version 2, or one line: what is refused
"] 0 "the text is printed", 2 "the words are refused", 3 "the table text is refused", 5 "reading or writing failed",
    6 "memory was refused"),
    options: &[FORMAT],
};

const FORMULA: CommandRow = CommandRow {
    name: "formula",
    about: "Prints the formula that asks for a table of some size, for a SAT solver",
    details: details!(problem: "Standard input:  nothing is read
Standard output: the formula in DIMACS, as SAT solvers read it, or one line: what is refused

The formula has a variable for each window of 2T+1 identifiers and each channel: w*C+c+1 says that
window number w has channel c. Exactly if values make it true, there is a table of M identifiers, T
rounds and C channels whose channels are far enough apart, or solve the problem, on every ring. It
has at most 4194304 variables and 16777216 clauses.
";
        0 "the formula is printed", 2 "the words are refused", 5 "writing failed", 6 "memory was refused",
        7 "there is no such formula, or it is too large"),
    options: &[IDS, ROUNDS, CHANNELS, NEAR, FAR, FORBID, PROBLEM],
};

const REFUTE: CommandRow = CommandRow {
    name: "refute",
    about: "Checks a solver's refutation: there is no table of this size",
    details: details!(problem: "Standard input:  a refutation of the formula that `nbhd formula` prints, in LRAT
Standard output: one line: refuted, or what is refused

Refuted means: no table of M identifiers, T rounds and at most C channels keeps channels far enough
apart, or solves the problem, on every ring, so no program with T rounds does. Each step of the
refutation is checked.
";
        0 "refuted", 2 "the words are refused", 3 "the text is no refutation", 5 "reading or writing failed",
        6 "memory was refused", 7 "there is no such formula, or it is too large"),
    options: &[IDS, ROUNDS, CHANNELS, NEAR, FAR, FORBID, PROBLEM, FORMAT],
};

// The commands, in the order of the help of the program.
pub(crate) const COMMANDS: [CommandRow; 13] = [
    CHECK, PRINT, TABLE, JUDGE, RUN, TRACE, EXPLAIN, PLAN, AUDIT, APPLY, MIGRATE, FORMULA, REFUTE,
];
