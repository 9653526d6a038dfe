//! The bytes, the parts and the words of a text.

ghost use Rattle.std.specs.Prelude.{◌≡◌, ◌≤◌, length};
ghost use Rattle.std.specs.List.{list_all, list_any, prefix_len};
ghost use Rattle.source_text.specs.ByteSets as texts;

/// Returns whether all bytes of a text are among these.
pub fn is_made_of(text: &[u8], bytes: &[u8]) -> bool
    ensures { result ≡ list_all (texts.is_in bytes.now) text.now }
{
    text.iter().all(|byte| bytes.contains(byte))
}

/// Returns whether a byte of a text is among these.
pub fn has_any_of(text: &[u8], bytes: &[u8]) -> bool
    ensures { result ≡ list_any (texts.is_in bytes.now) text.now }
{
    text.iter().any(|byte| bytes.contains(byte))
}

/// Returns the number of bytes of a text before the first one that is `end`, or of all if there is
/// none.
pub fn len_before(text: &[u8], end: u8) -> usize
    ensures value { result ≡ prefix_len (texts.is_other end) text.now }
    ensures within { result ≤ length text.now }
{
    text.iter().take_while(|byte| **byte != end).count()
}

/// Returns whether a part stands somewhere in a text. In an empty text there is none, not even an empty
/// part.
pub fn contains_part(text: &[u8], part: &[u8]) -> bool
    ensures { result ≡ texts.contains_part text.now part.now }
{
    let mut rest = text;
    'parts: while let [_, tail @ ..] = rest {
        if rest.starts_with(part) {
            return true;
        }
        rest = tail;
    }
    false
}

/// Returns whether a word is one of those in a text, which are separated by single blanks.
pub fn is_one_of(words: &str, word: &[u8]) -> bool
    ensures { result ≡ texts.is_one_of words.now word.now }
{
    words.split(' ').any(|other| other.as_bytes() == word)
}
