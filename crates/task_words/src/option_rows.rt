//! The options of the commands, in rows.

use crate::limits::{MAX_BASE, MAX_CHANNELS, MAX_COUNT, MAX_DISTANCE, MAX_ROUNDS, MIN_BASE};

// The values that an option takes.
#[derive(Clone, Copy)]
pub(crate) enum Values {
    Text,
    // The numbers from the first to the second.
    Numbers(u32, u32),
}

// How often an option is given.
#[derive(Clone, Copy)]
pub(crate) enum Given {
    Once,
    // At most once, with this value by default.
    ByDefault(&'static str),
    AtMostOnce,
    AnyNumber,
}

// An option `--NAME`.
#[derive(Clone, Copy)]
pub(crate) struct OptionRow {
    pub(crate) name: &'static str,
    pub(crate) value_name: &'static str,
    pub(crate) help: &'static str,
    pub(crate) values: Values,
    pub(crate) given: Given,
}

// The numbers of workers and of segments.
const COUNTS: Values = Values::Numbers(1, MAX_COUNT);

// The row of an option: its name, that of its value, what values it takes, how often it is given, and its help.
macro_rules! option {
    ($name:literal $value_name:literal, $values:expr, $given:expr => $help:literal) => {
        OptionRow { name: $name, value_name: $value_name, help: $help, values: $values, given: $given }
    };
}

pub(crate) const IDS: OptionRow = option!("ids" "M", Values::Numbers(0, u32::MAX), Given::Once =>
        "How many identifiers there are; they are 0 to M-1");

pub(crate) const RING: OptionRow = option!("ring" "A,B,..", Values::Text, Given::Once =>
        "The ring's identifiers, each followed by its right neighbour's");

pub(crate) const PLACE: OptionRow =
    option!("place" "P", Values::Numbers(0, u32::MAX), Given::Once =>
        "The place of the node in the ring, counted from 0");

pub(crate) const BASE: OptionRow =
    option!("base" "B", Values::Numbers(MIN_BASE, MAX_BASE), Given::ByDefault("10") =>
        "The base of the numbers that are printed, 2 to 10");

pub(crate) const WORKERS: OptionRow =
    option!("workers" "W", COUNTS, Given::ByDefault("1") => "How many threads work on the table, 1 to 64");

pub(crate) const SEGMENTS: OptionRow = option!("segments" "S", COUNTS, Given::ByDefault("1") =>
        "How many segments the ring is cut into, each a thread, 1 to 64");

pub(crate) const NEAR: OptionRow =
    option!("near" "P", Values::Numbers(1, MAX_DISTANCE), Given::ByDefault("1") =>
        "By how much neighbours' channels have to differ, 1 to 4096");

pub(crate) const FAR: OptionRow =
    option!("far" "Q", Values::Numbers(0, MAX_DISTANCE), Given::ByDefault("0") =>
        "By how much the channels at distance two have to differ, 0 to 4096");

pub(crate) const ROUNDS: OptionRow =
    option!("rounds" "T", Values::Numbers(0, MAX_ROUNDS), Given::Once => "How many rounds nodes communicate, 0 to 4");

pub(crate) const CHANNELS: OptionRow =
    option!("channels" "C", Values::Numbers(1, MAX_CHANNELS), Given::Once =>
        "How many channels there are, 1 to 4096; they are 0 to C-1");

pub(crate) const FORBID: OptionRow = option!("forbid" "A,B,C", Values::Text, Given::AnyNumber =>
        "One to three channels, or `*` for any, that may not follow one another; may be repeated");

pub(crate) const PROBLEM: OptionRow = option!("problem" "NAME", Values::Text, Given::AtMostOnce =>
        "The problem that channels have to solve: mis, matching or weak2");

pub(crate) const FORMAT: OptionRow =
    option!("format" "FORMAT", Values::Text, Given::ByDefault("lines") => "The form of the report: lines or json");
