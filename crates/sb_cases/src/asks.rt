// What the program tells of itself.

use sb_commands::{inquiry_of, inquiry_text};
use sb_rows::{Ends, Page, RowFault};
use std::alloc::Global;

/// Puts what is answered to the arguments of a row `ask ARGUMENTS`, each line after a bar.
pub fn put_answer(alloc: Global, row: &str, page: &mut Page) -> Result<(), RowFault> {
    let mut words = Vec::new(alloc);
    for word in row.split(' ').skip(1) {
        words.push(String::from_str(alloc, word)?)?;
    }
    let text = answer(alloc, &words)?;
    page.put_line(row)?;
    Ok(page.put_quoted(alloc, text.as_bytes(), Ends::ALL)?)
}

// What is answered to these arguments.
fn answer(alloc: Global, words: &[String]) -> Result<String, RowFault> {
    match inquiry_of(words) {
        Some(inquiry) => Ok(inquiry_text(alloc, inquiry)?),
        None => Err(RowFault::UnknownRow),
    }
}
