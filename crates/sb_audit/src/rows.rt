// The replies of entries on clean channels, by thread and by the place of the call.
ghost use Rattle.std.specs.Prelude.{◌≡◌, ◌<◌, ◌≤◌, ℕ, [], length, IfOk, OnOk, slice_index_or, option_map};
ghost use Rattle.sb_audit.specs.Rows.{IsPut, IsPutInto, row_at, slot_at};

use crate::slots::OwnReply;
use sb_base::NoMemory;
use sb_statements::MAX_THREADS;
use std::alloc::Global;
use std::marker::Model;

// The most threads of all targets of a script.
const MAX_ROWS: usize = 32;

/// The replies of the entries on clean channels that have marks of one thread: each at the place of its call, up to the last place that
/// has one. Contracts see the list.
pub(crate) struct Row {
    slots: Vec<Option<OwnReply>>,
}

impl Drop for Row {
    fn drop(self) {
        let Row { slots: _ } = self;
    }
}

impl Model for Row {
    ghost use Rattle.std.specs.Prelude.{List, Option};
    ghost use Rattle.sb_audit.specs.declared.slots.OwnReply.{OwnReply};

    ghost Value = { List (Option OwnReply) };

    ghost view = { λ r. r.slots.items };
}

impl Row {
    fn new(alloc: Global) -> Row
        ensures { length result ≡ 0 }
    {
        Row {
            slots: Vec::new(alloc),
        }
    }

    // Puts a reply at a place above all that have one.
    #[tactic(auto, using(crate::proofs::SlotLemmas::none_after, crate::proofs::SlotLemmas::one_after))]
    fn put(&mut self, place: usize, own: OwnReply) -> Result<(), NoMemory>
        requires above { length self.old ≤ place }
        ensures { OnOk result (IsPutInto place own self.old self.new) }
    {
        let mut len = self.slots.len();
        while len < place {
            self.slots.push(None)?;
            len += 1;
        }
        self.slots.push(Some(own))?;
        Ok(())
    }
}

/// The rows of all threads of a script. Contracts see the list of the rows, four for each of 8 targets.
pub(crate) struct Rows {
    rows: Vec<Row>,
}

impl Drop for Rows {
    fn drop(self) {
        let Rows { rows: _ } = self;
    }
}

impl Model for Rows {
    ghost use Rattle.std.specs.Prelude.{◌≡◌, List, Option, length};
    ghost use Rattle.sb_audit.specs.declared.slots.OwnReply.{OwnReply};

    ghost Value = { List (List (Option OwnReply)) };

    ghost view = { λ r. r.rows.items };

    ghost invariant = { λ r. length r.rows.items ≡ 32 };
}

impl Rows {
    /// No replies.
    #[tactic(auto, using(crate::proofs::SlotLemmas::empty_after))]
    pub(crate) fn new(alloc: Global) -> Result<Rows, NoMemory>
        ensures { IfOk result (λ rows. (i : ℕ) → length (slice_index_or rows i []) ≡ 0) }
    {
        let mut rows = Vec::new(alloc);
        let mut made = 0;
        while made < MAX_ROWS {
            rows.push(Row::new(alloc))?;
            made += 1;
        }
        Ok(Rows { rows })
    }

    // The row of a thread, which must be there.
    fn row(&self, target: u32, thread: usize) -> &Row
        requires target { target < 8 }
        requires thread { thread < 4 }
        ensures { result.now ≡ row_at self.now target thread }
    {
        &self.rows[target as usize * MAX_THREADS + thread]
    }

    /// How many places the row of a thread has: one more than the last place that has a reply.
    pub(crate) fn len(&self, target: u32, thread: usize) -> usize
        requires target { target < 8 }
        requires thread { thread < 4 }
        ensures { result ≡ length (row_at self.now target thread) }
    {
        self.row(target, thread).slots.len()
    }

    /// The reply at a place of a thread, if there is one.
    pub(crate) fn slot(&self, target: u32, thread: usize, place: usize) -> Option<&OwnReply>
        requires target { target < 8 }
        requires thread { thread < 4 }
        ensures { option_map (λ own. own.now) result ≡ slot_at self.now target thread place }
    {
        match self.row(target, thread).slots.as_slice().get(place) {
            Some(Some(own)) => Some(own),
            _ => None,
        }
    }

    /// Puts a reply at a place of a thread above all that have one.
    pub(crate) fn put(
        &mut self,
        target: u32,
        thread: usize,
        place: usize,
        own: OwnReply,
    ) -> Result<(), NoMemory>
        requires target { target < 8 }
        requires thread { thread < 4 }
        requires above { length (row_at self.old target thread) ≤ place }
        ensures { OnOk result (IsPut target thread place own self.old self.new) }
    {
        let row = &mut self.rows[target as usize * MAX_THREADS + thread];
        row.put(place, own)?;
        Ok(())
    }
}
