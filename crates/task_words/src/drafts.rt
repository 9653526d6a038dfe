//! A lenient reading of refused words. It promises nothing: what it gives is parsed strictly.

use crate::commands::{CHECK, CommandRow};
use crate::option_rows::{FORBID, RING};
use crate::other_names::{
    Fact, Kind, Meaning, Meant, meaning_of, meaning_of_kind, option_in, other_command, own_command,
};
use std::alloc::{AllocError, Global};

/// What a part of the words means, and the text that was given as its value.
#[derive(Drop)]
pub(crate) struct Given {
    pub(crate) meaning: Meaning,
    pub(crate) text: String,
}

/// A command and what is given.
#[derive(Drop)]
pub(crate) struct Draft {
    pub(crate) command: CommandRow,
    pub(crate) given: Vec<Given>,
    /// The fact on the first wrong word, if there is one.
    pub(crate) fact: Option<Fact>,
    /// Whether each word was understood.
    pub(crate) is_whole: bool,
}

// Returns the command of words, the index of its word, and the fact on it: the first word that is the
// name of a command, or the one that the first word stands for.
fn command_in(words: &[String]) -> (Option<CommandRow>, usize, Option<Fact>) {
    for (index, word) in words.iter().enumerate() {
        if let Some(row) = own_command(without_dashes(word.as_str())) {
            return (Some(row), index, None);
        }
    }
    let [first, ..] = words else {
        return (None, 0, None);
    };
    let first = first.as_str();
    match other_command(without_dashes(first)) {
        Some(
            Meant {
                meaning: Meaning::Command(name),
                fact,
            },
        ) => (own_command(name), 0, fact),
        Some(meant) => (None, 0, meant.fact),
        None => (None, 0, fact_without_command(first)),
    }
}

// Returns the fact on a first word that stands for no command.
fn fact_without_command(word: &str) -> Option<Fact> {
    let bare = without_dashes(word);
    let text = match meaning_of(&CHECK, bare) {
        Some(meant) if meant.fact.is_some() => return meant.fact,
        _ if word.contains(' ') => {
            "quotes around all words make them one word: leave out the quotes"
        }
        _ if word.is_empty() || bare.len() < word.len() || begins_with_digit(word) => {
            "the name of a command comes first, as in `nbhd check --ids 8`"
        }
        _ if word.contains('.') => "a text is read from standard input",
        _ => return None,
    };
    Some(Fact::Text(text))
}

/// Reads words. Without a command nothing is given.
pub(crate) fn draft_of(alloc: Global, words: &[String]) -> Result<Draft, AllocError> {
    let (command, at, fact) = command_in(words);
    let mut draft = Draft {
        command: command.unwrap_or(CHECK),
        given: Vec::new(alloc),
        fact,
        is_whole: command.is_some(),
    };
    for (index, word) in words.iter().enumerate() {
        if index != at {
            draft.read_word(word.as_str())?;
        }
    }
    Ok(draft)
}

impl Draft {
    // Sets the fact, unless there is one.
    fn tell(&mut self, fact: Option<Fact>) {
        self.fact = self.fact.or(fact);
    }

    // Returns whether an option is given.
    fn has(&self, name: &str) -> bool {
        let is_it =
            |given: &Given| matches!(given.meaning, Meaning::Option(other, _) if other == name);
        self.given.iter().any(is_it)
    }

    // Returns whether a file is given from which the text is read.
    fn has_input(&self) -> bool {
        let is_input = |given: &Given| matches!(given.meaning, Meaning::Input);
        self.given.iter().any(is_input)
    }

    // Returns whether the command has an option that can still be given.
    fn lacks(&self, name: &str) -> bool {
        option_in(self.command.options, name).is_some() && (name == FORBID.name || !self.has(name))
    }

    // Reads the parts of a word between its blanks and `=`.
    fn read_word(&mut self, word: &str) -> Result<(), AllocError> {
        if word.is_empty() {
            self.tell(Some(Fact::Text("a word is empty, as of a variable without a value")));
        }
        for part in word.split(|letter| letter == ' ' || letter == '=') {
            self.read_part(part.trim_matches(is_around))?;
        }
        Ok(())
    }

    // Reads a part of a word, unless one before it was not understood.
    fn read_part(&mut self, text: &str) -> Result<(), AllocError> {
        let bare = without_dashes(text);
        let is_name = bare.len() < text.len() && bare.starts_with(is_of_name);
        if text.is_empty() || text == "--" || !self.is_whole {
            return Ok(());
        }
        if !is_name && self.takes(text) {
            return self.append(text);
        }
        if own_command(text).is_some() {
            let meant = meaning_of_kind(&self.command, Kind::Command);
            return self.begin(meant);
        }
        let name = if is_name { bare } else { text };
        if let Some(meant) = meaning_of(&self.command, name) {
            return self.begin(meant);
        }
        match self.kind_of(text) {
            Some(kind) => {
                let meant = meaning_of_kind(&self.command, kind);
                self.begin(meant)?;
                self.append(text)?;
            }
            None => self.is_whole = false,
        }
        Ok(())
    }

    // Returns what a word without a name probably is.
    fn kind_of(&self, text: &str) -> Option<Kind> {
        let is_list = has_comma(text);
        Some(if text == "-" || text.starts_with(is_of_name) && !is_list && !self.has_input() {
            Kind::File
        } else if !begins_with_digit(without_dashes(text)) {
            return None;
        } else if !is_list && self.lacks("ids") {
            Kind::Ids
        } else if self.lacks("ring") {
            Kind::Ring
        } else if is_list && self.lacks("forbid") {
            Kind::Pattern
        } else if !is_list && self.lacks("place") {
            Kind::Place
        } else {
            Kind::Number
        })
    }

    // Adds what a name means.
    fn begin(&mut self, meant: Meant) -> Result<(), AllocError> {
        self.tell(meant.fact);
        let mut text = String::new(*self.given.allocator());
        if let Meaning::Option(name, value) = meant.meaning {
            self.is_whole = option_in(self.command.options, name).is_some();
            text.push_str(value)?;
        }
        let meaning = meant.meaning;
        self.given.push(Given { meaning, text })?;
        Ok(())
    }

    // Adds to what was given last.
    fn append(&mut self, text: &str) -> Result<(), AllocError> {
        if text.starts_with('-') && begins_with_digit(without_dashes(text)) {
            self.tell(Some(Fact::Text("numbers are written in digits, without a sign")));
        }
        if let Some(last) = self.given.last_mut() {
            last.text.push_str(" ")?;
            last.text.push_str(text)?;
        }
        Ok(())
    }

    // Returns whether what was given last takes a part. A list takes its first one, or a number, but
    // behind a pattern with commas none, and behind a ring with commas only one with a comma.
    fn takes(&self, text: &str) -> bool {
        let Some(last) = self.given.last() else {
            return false;
        };
        let value = last.text.as_str();
        match last.meaning {
            Meaning::End => true,
            Meaning::Nothing => value.is_empty() && !text.contains('.'),
            Meaning::Option(name, _) if is_list(name) && !value.is_empty() => {
                let is_open = !has_comma(value) || value.ends_with(',');
                is_entry(text) && (is_open || (has_comma(text) && name == RING.name))
            }
            _ => value.is_empty(),
        }
    }
}

/// Returns whether the value of the option with this name is a list.
pub(crate) fn is_list(name: &str) -> bool {
    name == RING.name || name == FORBID.name
}

// Returns whether a letter stands around a part: a bracket of the usage, or a quotation mark.
fn is_around(letter: char) -> bool {
    matches!(letter, '[' | ']' | '`' | '"' | '\'' | '“' | '”')
}

// Returns whether a letter can begin a name, also of a file.
fn is_of_name(letter: char) -> bool {
    letter.is_ascii_alphabetic() || matches!(letter, '.' | '/' | '~' | '_')
}

// Returns a text without the minus signs, hyphens and dashes before it.
fn without_dashes(text: &str) -> &str {
    text.trim_start_matches(|letter| matches!(letter, '-' | '\u{2010}'..='\u{2015}' | '\u{2212}'))
}

fn begins_with_digit(text: &str) -> bool {
    text.starts_with(|letter: char| letter.is_ascii_digit())
}

// Returns whether a comma stands before the end of a text.
fn has_comma(text: &str) -> bool {
    text.trim_end_matches(',').contains(',')
}

// Returns whether a word can be a part of a list: it has a digit, a comma or `*`, and no name.
fn is_entry(text: &str) -> bool {
    let is_of_list = |letter: char| letter.is_ascii_digit() || letter == '*' || letter == ',';
    text.contains(is_of_list) && !text.contains(is_of_name)
}
