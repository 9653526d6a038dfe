//! Rows of ring texts and tasks.
use crate::miss::Miss;
use crate::tell::{again, tell, tell_numbers, value_or};
use std::alloc::{AllocError, Global};
use std::io;
use std::io::ErrorKind;
use task_words::ring_text::ring_of;
use task_words::task::Task;
use task_words::words::{WordsFault, task_of, words_fault};

/// `ring_of`: prints the identifiers of two ring texts, and the faults of three other texts.
pub(crate) fn do_ring_of<R: AllocGlobal + Print>(rt: &R) -> Result<(), Miss> {
    for text in ["5,1,3,7", "007,1", "5,,1", "", "4294967296"] {
        tell_ring(rt, text)?;
    }
    Ok(())
}

// Prints the identifiers of a ring text, or its fault.
fn tell_ring<R: AllocGlobal + Print>(rt: &R, text: &str) -> Result<(), Miss> {
    let answer = again!(
        rt,
        ring_of(rt.alloc(), text),
        WordsFault::OutOfMemory => "OutOfMemory"
    );
    match &answer {
        Ok(ring) => tell_numbers(rt, ring),
        Err(WordsFault::BadRing) => tell(rt, "BadRing"),
        Err(_) => return Err(Miss::Wrong),
    }
    Ok(())
}

/// `task_of`: prints the ring and the numbers of identifiers and segments of a run, the numbers of
/// identifiers and workers of a judge with two patterns, and the faults of a table by no workers and of an
/// audit with a text that is no pattern.
pub(crate) fn do_task_of<R: AllocGlobal + Print>(rt: &R) -> Result<(), Miss> {
    tell_task(rt, "run --ids 8 --ring 5,1,3,7")?;
    tell_task(rt, "judge --ids 8 --forbid 1,1 --forbid 0,*,0")?;
    tell_task(rt, "table --ids 8 --workers 0")?;
    tell_task(rt, "audit --forbid 1,1 --forbid 1,,1")
}

// Prints the task of a line's words, or their fault.
fn tell_task<R: AllocGlobal + Print>(rt: &R, line: &str) -> Result<(), Miss> {
    let words = words_of(rt.alloc(), line)?;
    let answer = again!(
        rt,
        task_of(rt.alloc(), &words),
        WordsFault::OutOfMemory => "OutOfMemory"
    );
    tell_answer(rt, &answer)
}

// Prints the ring and the numbers of identifiers and segments of a run, the numbers of identifiers and
// workers of a judge, or the fault of a usage or of a demand.
fn tell_answer<R: Print>(rt: &R, answer: &Result<Task, WordsFault>) -> Result<(), Miss> {
    match answer {
        Ok(
            Task::Run {
                ids,
                ring,
                segments,
            },
        ) => {
            tell_numbers(rt, ring);
            tell_numbers(rt, &[*ids, *segments]);
        }
        Ok(Task::Judge { ids, workers, .. }) => tell_numbers(rt, &[*ids, *workers]),
        Err(WordsFault::Usage(_)) => tell(rt, "Usage"),
        Err(WordsFault::BadDemand(_)) => tell(rt, "BadDemand"),
        _ => return Err(Miss::Wrong),
    }
    Ok(())
}

// Splits a line into words at its blanks.
fn words_of(alloc: Global, line: &str) -> Result<Vec<String>, Miss> {
    let mut words = Vec::new(alloc);
    for word in line.split(' ') {
        let word = value_or(String::from_str(alloc, word), Miss::OtherCall)?;
        value_or(words.push(word), Miss::OtherCall)?;
    }
    Ok(words)
}

/// `words_fault`: prints the text for words that are not UTF-8.
pub(crate) fn do_words_fault<R: AllocGlobal + Print>(rt: &R) -> Result<(), Miss> {
    let answer = again!(
        rt,
        words_fault(rt.alloc(), io::Error::from(ErrorKind::InvalidData)),
        AllocError => "OutOfMemory"
    );
    match &answer {
        Ok(WordsFault::Usage(text)) => tell(rt, text),
        _ => return Err(Miss::Wrong),
    }
    Ok(())
}
