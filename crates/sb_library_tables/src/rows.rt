// The value of a row.

use crate::{calls, compares, covers, decisions, literals, policies};
use sb_rows::{RowFault, arguments};
use std::alloc::Global;

/// What the function of a row gives for its arguments. The function is the first word; the arguments follow, separated by bars.
pub fn value_of(alloc: Global, row: &str) -> Result<String, RowFault> {
    let (name, rest) = row.split_once(' ').unwrap_or((row, ""));
    let parts = arguments(alloc, rest)?;
    match parts.as_slice() {
        [text] => match name {
            "pattern_literal" | "string_literal" => literals::literal(alloc, name, text),
            "find-in-none" => policies::found_in_none(alloc, text),
            "adopt" => calls::adopted(alloc, text),
            "client" => calls::began(alloc, text),
            "cover-text" => compares::covered(alloc, text),
            _ => Err(RowFault::Unknown),
        },
        [rules, second] => match name {
            "find" => policies::found(alloc, rules, second),
            "judge" => policies::judged(alloc, rules, second),
            "copy" => decisions::copied(alloc, rules, second),
            "decide" => decisions::decided(alloc, rules, second),
            "refuse" => decisions::refused(alloc, rules, second),
            "perform" => decisions::performed(alloc, rules, second),
            "cover" => covers::covered(alloc, rules, second),
            "cover-two" => covers::covered_by_two(alloc, rules, second),
            "compare" => compares::compared(alloc, rules, second),
            "call" => calls::called(alloc, rules, second),
            "bulk" => calls::called_in_bulk(alloc, rules, second),
            _ => Err(RowFault::Unknown),
        },
        _ => Err(RowFault::Unknown),
    }
}
