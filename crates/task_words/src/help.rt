//! The program's own help texts.

/// The description of the program.
pub(crate) const PROGRAM: &str =
    "nbhd 1.0 compiles a node program of synchronous rounds to a table with one channel per window of
identifiers, and judges whether neighbours' channels differ, or solve another problem, on every oriented
ring.";

/// An example of a call of the program.
pub(crate) const EXAMPLE: &str =
    "Each command but `formula` reads a text from standard input, and prints its answer to standard
output. Example:

  nbhd run --ids 8 --ring 5,1,3,7 < programs/cv1.txt

runs the program of that file on the ring of the nodes 5, 1, 3 and 7, where identifiers are 0 to 7,
and prints the channels of these four nodes: 2 4 3 5

Pages: docs/TUTORIAL.md teaches from the start, docs/LANGUAGE.md has programs, commands and texts,
docs/FAULTS.md each refusal and its note, and docs/GALLERY.md classical programs.";
