//! The parts of a text between separators.
ghost use Rattle.std.specs.Prelude.{◌≡◌, [], ◌∷◌, IfNone, IfSome};

/// The parts of a text between separators, from some part on.
#[derive(Clone, Copy)]
pub(crate) struct Split<'t> {
    separator: u8,
    rest: Option<&'t [u8]>,
}

impl<'t> Split<'t> {
    ghost use Rattle.table_formula.specs.Split.{parts_of, parts_left};

    /// Returns all parts of a text.
    pub(crate) fn new(text: &'t [u8], separator: u8) -> Split<'t>
        ensures { parts_left result ≡ parts_of separator text.now }
    {
        Split {
            separator,
            rest: Some(text),
        }
    }

    /// Takes the next part, if there is one.
    pub(crate) fn next(&mut self) -> Option<&'t [u8]>
        ensures none { IfNone result (parts_left self.old ≡ []) }
        ensures some { IfSome result (λ part. parts_left self.old ≡ part.now ∷ parts_left self.new) }
    {
        let text = self.rest?;
        match split_first(text, self.separator) {
            None => {
                self.rest = None;
                Some(text)
            }
            Some((part, rest)) => {
                self.rest = Some(rest);
                Some(part)
            }
        }
    }
}

ghost use Rattle.table_formula.specs.Split.{parts_of};

// Returns the bytes before the first separator and those after it, or `None` if there is none.
fn split_first(text: &[u8], separator: u8) -> Option<(&[u8], &[u8])>
    ensures none { IfNone result (parts_of separator text.now ≡ text.now ∷ []) }
    ensures some { IfSome result (λ r. parts_of separator text.now ≡ r.0.now ∷ parts_of separator r.1.now) }
{
    for (i, byte) in text.iter().enumerate() {
        if *byte == separator {
            return Some((&text[..i], &text[i + 1..]));
        }
    }
    None
}
