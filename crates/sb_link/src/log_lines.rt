// The lines of the log of a book that resolves names.
ghost use Rattle.std.specs.Prelude.{◌≡◌, ◌++◌, length, IfOk, OnOk};
ghost use Rattle.std.specs.List.{count_by, flat_map};
ghost use Rattle.sb_link.specs.LinkedHistories.{is_stopped};
ghost use Rattle.sb_link.specs.Lines.{item_line, line_if, log_text, log_totals};

use crate::lines::{put_linked_line, put_stopped_line};
use crate::linked_books::{Linked, LinkedBook};
use sb_base::NoMemory;
use sb_book::{EntrySlice, EntryView};
use sb_statements::Script;
use sb_transcript::put_entry_line;
use std::alloc::Global;

// Appends the line of an entry, if it is there.
fn put_entry(
    lines: &mut Vec<u8>,
    script: &Script,
    n: usize,
    entry: Option<EntryView<'_>>,
) -> Result<(), NoMemory>
    ensures { OnOk result (lines.new.items ≡ lines.old.items ++ line_if script.now n entry.entry) }
{
    if let Some(entry) = entry {
        put_entry_line(lines, script, n as u64, &entry)?;
    }
    Ok(())
}

// Appends the line of an item.
fn put_item(
    lines: &mut Vec<u8>,
    script: &Script,
    entries: &EntrySlice<'_>,
    item: &Linked,
) -> Result<(), NoMemory>
    ensures { OnOk result (lines.new.items ≡ lines.old.items ++ item_line script.now entries.now item.now) }
{
    match item {
        Linked::Entry { at, .. } => put_entry(lines, script, *at, entries.get(*at)),
        Linked::Stopped {
            target,
            channel,
            taken,
            tag,
            stop,
            ..
        } => put_stopped_line(
            lines,
            script.target_name(*target as usize),
            *channel,
            taken.mark(),
            *tag,
            *stop,
        ),
    }
}

// Appends the lines of items.
fn put_items(
    lines: &mut Vec<u8>,
    script: &Script,
    entries: &EntrySlice<'_>,
    log: &[Linked],
) -> Result<(), NoMemory>
    ensures { OnOk result (lines.new.items ≡ lines.old.items ++ flat_map (item_line script.now entries.now) log.now) }
{
    for item in log {
        put_item(lines, script, entries, item)?;
    }
    Ok(())
}

// Whether an item is of a call that stopped.
fn is_stopped(item: &Linked) -> bool
    ensures { result ≡ is_stopped item.now }
{
    match item {
        Linked::Entry { .. } => false,
        Linked::Stopped { .. } => true,
    }
}

// The number of calls that stopped.
fn stopped_count(log: &[Linked]) -> usize
    ensures { result ≡ count_by is_stopped log.now }
{
    log.iter().filter(|item| is_stopped(item)).count()
}

impl LinkedBook {
    // Appends the line of totals.
    fn put_totals(&self, lines: &mut Vec<u8>) -> Result<(), NoMemory>
        ensures { OnOk result (lines.new.items ≡ lines.old.items ++ log_totals self.now) }
    {
        let calls = self.log().len() as u64;
        let entries = self.book().entries().len() as u64;
        let stopped = stopped_count(self.log()) as u64;
        put_linked_line(lines, calls, entries, stopped)
    }

    /// A line for each item of the log, in order, each with its LF: that of its entry as in a transcript, or that of its stopped call; and the
    /// line of totals. The targets of the script are those of the book.
    ///
    /// # Errors
    /// `NoMemory` if there was none for the lines.
    pub fn text(&self, alloc: Global, script: &Script) -> Result<Vec<u8>, NoMemory>
        ensures { IfOk result (λ text. text.items ≡ log_text script.now self.now) }
    {
        let mut lines = Vec::new(alloc);
        put_items(&mut lines, script, &self.book().entries(), self.log())?;
        self.put_totals(&mut lines)?;
        Ok(lines)
    }
}
