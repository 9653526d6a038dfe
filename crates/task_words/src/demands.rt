//! What the values of options demand of channels.

ghost use Rattle.std.specs.Prelude.{◌≡◌, ◌≤◌, None, is_some, length, map, IfOk, IfErr, OnOk, IfSome, nat_lt};
ghost use Rattle.std.specs.Option.{option_and_then};
ghost use Rattle.clap.specs.Words.{found_of, rows_of};
ghost use Rattle.task_words.specs.DemandValues.{ArePatternsOf, IsProblemIn, demand_fault, forbidden_texts};
ghost use Rattle.task_words.specs.DemandValues.{has_two_demands, is_from_words, is_in_words, known_problem, name_fault};
ghost use Rattle.task_words.specs.DemandValues.{patterns_fault, problem_name, texts_fault};
ghost use Rattle.task_words.specs.Task.{HasFewPatterns};
ghost use Rattle.task_words.specs.WordsFault.{IsDemandRefusal, IsPatternRefusal};
ghost use Rattle.task_words.specs.declared.limits.TheConstants.{MAX_PATTERNS};

use crate::demand_fault::DemandFault;
use crate::limits::MAX_PATTERNS;
use crate::option_rows::{FAR, FORBID, NEAR, PROBLEM};
use crate::pattern_text::pattern_of;
use crate::words::WordsFault;
use clap::ArgMatches;
use clap::parser::ValueSource;
use ring_problems::{KnownProblem, Pattern, Problem};
use std::alloc::Global;

// Returns the problem of `--forbid` or of `--problem`, or `None` if neither is given. Fails with
// `BadDemand` if the values of the options are no demand.
pub(crate) fn problem_of(alloc: Global, options: &ArgMatches) -> Result<Option<Problem>, WordsFault>
    ensures problem { IfOk result (IsProblemIn (rows_of (found_of options.now))) }
    ensures range { IfOk result (λ problem. IfSome problem HasFewPatterns) }
    ensures good { OnOk result (demand_fault (rows_of (found_of options.now)) ≡ None) }
    ensures refused { IfErr result (IsDemandRefusal (demand_fault (rows_of (found_of options.now)))) }
{
    if has_two_demands(options) {
        return Err(WordsFault::BadDemand(DemandFault::TwoDemands));
    }
    let known = problem_named(options)?;
    let patterns = patterns_given(alloc, options)?;
    if let Some(known) = known {
        return Ok(Some(Problem::Known(known)));
    }
    if patterns.len() == 0 {
        return Ok(None);
    }
    Ok(Some(Problem::Listed(patterns)))
}

// Returns whether the words give two demands of these: patterns, a problem by its name, and minimum
// differences of channels.
fn has_two_demands(options: &ArgMatches) -> bool
    ensures { result ≡ has_two_demands (rows_of (found_of options.now)) }
{
    let patterns = has_patterns(options);
    let name = has_name(options);
    let separation = is_in_words(options, NEAR.name) || is_in_words(options, FAR.name);
    (patterns && name) || ((patterns || name) && separation)
}

// Returns whether `--problem` is given.
fn has_name(options: &ArgMatches) -> bool
    ensures { result ≡ is_some (problem_name (rows_of (found_of options.now))) }
{
    options.get_str(PROBLEM.name).is_some()
}

// Returns whether the value of this option is in the words, and not the one by default.
fn is_in_words(options: &ArgMatches, name: &str) -> bool
    ensures { result ≡ is_in_words name.now (rows_of (found_of options.now)) }
{
    is_from_words(options.value_source(name))
}

// Returns whether a value comes from the words.
fn is_from_words(source: Option<ValueSource>) -> bool
    ensures { result ≡ is_from_words source }
{
    matches!(source, Some(ValueSource::CommandLine))
}

// Returns whether `--forbid` is given.
fn has_patterns(options: &ArgMatches) -> bool
    ensures { result ≡ nat_lt 0 (length (forbidden_texts (rows_of (found_of options.now)))) }
{
    match options.get_strs(FORBID.name) {
        Some(texts) => texts.len() > 0,
        None => false,
    }
}

// Returns the patterns of `--forbid`. Fails with `BadDemand` if they are too many, or if a value is not a
// pattern text.
fn patterns_given(alloc: Global, options: &ArgMatches) -> Result<Vec<Pattern>, WordsFault>
    ensures patterns { IfOk result
        (λ patterns. ArePatternsOf (forbidden_texts (rows_of (found_of options.now))) patterns.items) }
    ensures few { IfOk result (λ patterns. length patterns.items ≤ MAX_PATTERNS) }
    ensures good { OnOk result (patterns_fault (forbidden_texts (rows_of (found_of options.now))) ≡ None) }
    ensures refused { IfErr result
        (IsDemandRefusal (patterns_fault (forbidden_texts (rows_of (found_of options.now))))) }
{
    match options.get_strs(FORBID.name) {
        Some(texts) => patterns_of(alloc, texts),
        None => Ok(Vec::new(alloc)),
    }
}

// Returns the problem of `--problem`, or `None` if it is not given. Fails with `BadDemand` if its value is
// not the name of a problem.
fn problem_named(options: &ArgMatches) -> Result<Option<KnownProblem>, WordsFault>
    ensures known { IfOk result
        (λ known. known ≡ option_and_then known_problem (problem_name (rows_of (found_of options.now)))) }
    ensures good { OnOk result (name_fault (problem_name (rows_of (found_of options.now))) ≡ None) }
    ensures refused { IfErr result (IsDemandRefusal (name_fault (problem_name (rows_of (found_of options.now))))) }
{
    let Some(name) = options.get_str(PROBLEM.name) else {
        return Ok(None);
    };
    match known_problem(name) {
        Some(known) => Ok(Some(known)),
        None => Err(WordsFault::BadDemand(DemandFault::UnknownProblem)),
    }
}

// Returns the problem of this name.
fn known_problem(name: &str) -> Option<KnownProblem>
    ensures { result ≡ known_problem name.now }
{
    match name {
        "mis" => Some(KnownProblem::IndependentSet),
        "matching" => Some(KnownProblem::Matching),
        "weak2" => Some(KnownProblem::WeakColouring),
        _ => None,
    }
}

// Returns the patterns of the texts. Fails with `BadDemand` if they are too many, or if one is not a
// pattern text.
fn patterns_of(alloc: Global, texts: &[&str]) -> Result<Vec<Pattern>, WordsFault>
    ensures patterns { IfOk result (λ patterns. ArePatternsOf (map (λ text. text.now) texts.now) patterns.items) }
    ensures few { IfOk result (λ patterns. length patterns.items ≤ MAX_PATTERNS) }
    ensures good { OnOk result (patterns_fault (map (λ text. text.now) texts.now) ≡ None) }
    ensures refused { IfErr result (IsDemandRefusal (patterns_fault (map (λ text. text.now) texts.now))) }
{
    if texts.len() > MAX_PATTERNS {
        return Err(WordsFault::BadDemand(DemandFault::ManyPatterns));
    }
    patterns_in(alloc, texts)
}

// Returns the patterns of the texts. Fails with `BadDemand` if one is not a pattern text, for the cause
// of the first such one.
fn patterns_in(alloc: Global, texts: &[&str]) -> Result<Vec<Pattern>, WordsFault>
    ensures patterns { IfOk result (λ patterns. ArePatternsOf (map (λ text. text.now) texts.now) patterns.items) }
    ensures good { OnOk result (texts_fault (map (λ text. text.now) texts.now) ≡ None) }
    ensures refused { IfErr result (IsPatternRefusal (texts_fault (map (λ text. text.now) texts.now))) }
{
    let mut patterns = Vec::with_capacity(alloc, texts.len())?;
    for text in texts {
        let pattern = match pattern_of(alloc, text) {
            Ok(pattern) => pattern,
            Err(fault) => return Err(fault),
        };
        patterns.push(pattern)?;
    }
    Ok(patterns)
}
