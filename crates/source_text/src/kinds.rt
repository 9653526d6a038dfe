//! What a text is that is given instead of another one, and what takes it.

ghost use Rattle.std.specs.Prelude.{◌≡◌, IfSome, IfNone};
ghost use Rattle.source_text.specs.KindAdvice.{advice_of, IsAdviceOn, IsOfKind};

use crate::first_lines::text_kind;

/// A kind of text that `nbhd` or a solver reads or writes, or that is given instead of one.
#[derive(Clone, Copy, Debug, PartialEq, Eq)]
pub enum TextKind {
    /// A program text.
    Program,
    /// A table text.
    Table,
    /// A formula in DIMACS.
    Formula,
    /// A refutation in LRAT.
    Refutation,
    /// A proof in DRAT, which has no hints.
    Proof,
    /// The answer of a solver.
    Answer,
    /// A report or a note of `nbhd`.
    Report,
    /// A command of the shell.
    Command,
    /// The name of a file.
    FileName,
    /// A text in HTML or XML.
    Page,
    /// A text in UTF-16, or behind a byte order mark.
    Wide,
    /// A packed file, a picture or a document.
    NoText,
}

// Returns the advice on a text of a kind that none of the readers takes.
fn advice_on(kind: TextKind) -> &'static str
    ensures { result.now ≡ advice_of kind }
{
    match kind {
        TextKind::Program =>
            "; this looks like a program: `nbhd judge`, `nbhd table` and `nbhd run` take one",
        TextKind::Table =>
            "; the text of a table is for `nbhd audit`, `nbhd apply` and `nbhd migrate`",
        TextKind::Formula =>
            "; this is a formula for a solver, as in `cadical --no-binary FORMULA PROOF`",
        TextKind::Refutation => "; this looks like a refutation: `nbhd refute` takes one",
        TextKind::Proof =>
            "; this looks like a proof in DRAT: `tools/lrat` adds the hints that it lacks, for `nbhd refute`",
        TextKind::Answer =>
            "; this is a solver's answer: `tools/model` makes the table of a model, and a proof is a file of its own",
        TextKind::Report => "; this is output of `nbhd`, not a text that it reads",
        TextKind::Command => "; this is a command of the shell, not a text",
        TextKind::FileName => "; this looks like the name of a file: `< FILE` gives its text",
        TextKind::Page => "; this is a page in HTML or XML: save the text alone",
        TextKind::Wide =>
            "; the file is UTF-16, or has a byte order mark: save it as ASCII without one",
        TextKind::NoText =>
            "; this is no text, but a packed file, a picture or a document: save its text alone",
    }
}

/// Returns advice on a text that was refused where a text of the kind `reads` is read: what it is
/// instead, and what takes it. Returns `None` if nothing is known, or if it is of this kind.
pub fn kind_advice(text: &[u8], reads: TextKind) -> Option<&'static str>
    ensures some { IfSome result (λ advice. IsAdviceOn text.now reads advice.now) }
    ensures none { IfNone result (IsOfKind text.now reads) }
{
    let kind = text_kind(text)?;
    if kind == reads {
        return None;
    }
    Some(advice_on(kind))
}
