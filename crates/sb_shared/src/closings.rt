// A shared world is closed.
ghost use Rattle.std.specs.Prelude.{◌≡◌, ◌≤◌, ◌++◌, ℕ, List, length, map, All};
ghost use Rattle.core.specs.Mem.Slots.{IsFull, slots_items, slots_len};
ghost use Rattle.sb_shared.specs.Closing.{AreThreads, AreWorkers, Ends, IsClosed, IsKeeper, IsThreadSeat, IsWorkerSeat, part_of_thread, part_of_worker, taken_thread, taken_worker};
ghost use Rattle.sb_shared.specs.Rooms.{IsRoom, all_words_from, grouped};
ghost use Rattle.sb_shared.specs.Rule.{word_count};

use crate::books::BoxedBook;
use crate::keepers::Keeper;
use crate::moves::Words;
use crate::protocol::{Slot, World};
use crate::rooms::{ResultRoom, Rooms, WordRoom};
use crate::threads::ThreadSeat;
use crate::views::{Origin, View};
use crate::workers::WorkerSeat;
use crate::worlds::SharedWorld;
use atomic_table::{Closed, Table};
use sb_actor::WorkerState;
use sb_book::{AllWords, Book, Results, TargetResults, ThreadResults, WordList};
use sb_core::plans_are_there;
use std::alloc::Global;

/// What a run leaves: the channel words of each target, the worker of each target, the book, and the results of each thread.
#[derive(Drop)]
pub struct ClosedRun {
    /// The channel words, by target: 65 for each channel.
    pub words: AllWords,
    /// The workers, by target.
    pub workers: Vec<WorkerState>,
    /// The book.
    pub book: Book,
    /// The results, by target, thread and place.
    pub results: Results,
}

// Takes in the seats of workers, and keeps where the workers are.
fn join_workers(
    words: &Words,
    keeper: &mut Keeper,
    seats: Vec<WorkerSeat>,
    room: Vec<WorkerState>,
) -> Vec<WorkerState>
    requires own { (keeper.old.table ≡ words.now.table_id) × (words.now.table_id.words ≡ word_count) }
    requires key { keeper.old.key ≡ words.now.key }
    requires seats { All (IsWorkerSeat (record { table = words.now.table_id; key = words.now.key })) seats.items }
    requires room { IsRoom (length seats.items) room }
    ensures own { (keeper.new.table ≡ keeper.old.table) × (keeper.new.key ≡ keeper.old.key) }
    ensures parts { keeper.new.parts ≡ keeper.old.parts ++ map part_of_worker seats.items }
    ensures taken { keeper.new.taken ≡ keeper.old.taken ++ map taken_worker seats.items }
    ensures states { result.items ≡ map (λ s. s.state) seats.items }
{
    let mut states = room;
    for seat in seats {
        let (seat, state) = seat.into_parts();
        keeper.join(words, seat);
        states.push_reserved(state);
    }
    states
}

// Takes in the seats of threads, and keeps their results.
fn join_threads(
    words: &Words,
    keeper: &mut Keeper,
    seats: Vec<ThreadSeat>,
    room: Vec<ThreadResults>,
) -> Vec<ThreadResults>
    requires own { (keeper.old.table ≡ words.now.table_id) × (words.now.table_id.words ≡ word_count) }
    requires key { keeper.old.key ≡ words.now.key }
    requires seats { All (IsThreadSeat (record { table = words.now.table_id; key = words.now.key })) seats.items }
    requires room { IsRoom (length seats.items) room }
    ensures own { (keeper.new.table ≡ keeper.old.table) × (keeper.new.key ≡ keeper.old.key) }
    ensures parts { keeper.new.parts ≡ keeper.old.parts ++ map part_of_thread seats.items }
    ensures taken { keeper.new.taken ≡ keeper.old.taken ++ map taken_thread seats.items }
    ensures results { result.items ≡ map (λ s. s.run.results) seats.items }
{
    let mut results = room;
    for seat in seats {
        let (seat, list) = seat.into_parts();
        keeper.join(words, seat);
        results.push_reserved(ThreadResults::new(list));
    }
    results
}

// The words of each target, from a table that is closed.
fn take_words(
    closed: &Closed<Slot, Global>,
    rooms: Vec<WordRoom>,
    room: Vec<WordList>,
) -> Vec<WordList>
    requires full { IsFull closed.now.words }
    requires count { slots_len closed.now.words ≡ word_count }
    requires few { length rooms.items ≤ 8 }
    requires room { IsRoom (length rooms.items) room }
    ensures { result.items ≡ all_words_from (slots_items closed.now.words) 0 rooms.items }
{
    let mut words = room;
    for room in rooms {
        let target = words.len();
        words.push_reserved(room.fill(closed, target));
    }
    words
}

// The words of each target, and what lies in the table's slot, once the keeper took in all seats.
fn end_table(
    table: Table<Slot, View, Origin, World, Global>,
    keeper: Keeper,
    rooms: Vec<WordRoom>,
    room: Vec<WordList>,
) -> (Vec<WordList>, Option<BoxedBook>)
    requires own { keeper.table ≡ table.shared.table_id }
    requires counts { (table.shared.table_id.words ≡ word_count) × (table.shared.table_id.slots ≡ 1) }
    requires few { length rooms.items ≤ 8 }
    requires room { IsRoom (length rooms.items) room }
    ensures { (rows : List ℕ) × (result.0.items ≡ all_words_from rows 0 rooms.items) × Ends table.shared.key keeper.parts keeper.taken rows result.1 }
{
    let mut closed = table.close_with(keeper.into_seat());
    let words = take_words(&closed, rooms, room);
    let book = closed.take(0);
    closed.free();
    (words, book)
}

// The results of all threads, by target.
fn group(results: Vec<ThreadResults>, rooms: Vec<ResultRoom>, room: Vec<TargetResults>) -> Results
    requires room { IsRoom (length rooms.items) room }
    ensures { result ≡ grouped rooms.items results.items }
{
    let mut next = results.into_iter();
    let mut targets = room;
    for room in rooms {
        targets.push_reserved(room.fill(&mut next));
    }
    Results::new(targets)
}

impl SharedWorld {
    /// What the run leaves, once the seats of all actors came back and no worker has the turn. Does not allocate.
    pub fn close(
        self,
        keeper: Keeper,
        workers: Vec<WorkerSeat>,
        threads: Vec<ThreadSeat>,
    ) -> ClosedRun
        requires keeper { IsKeeper self keeper }
        requires workers { AreWorkers self workers.items }
        requires threads { AreThreads self threads.items }
        ensures closed { IsClosed self.key workers.items threads.items result }
        ensures workers { result.workers.items ≡ map (λ s. s.state) workers.items }
    {
        plans_are_there();
        let mut keeper = keeper;
        let (table, rooms) = self.into_parts();
        let states = join_workers(&table.shared, &mut keeper, workers, rooms.workers);
        let results = join_threads(&table.shared, &mut keeper, threads, rooms.threads);
        let (words, book) = end_table(table, keeper, rooms.words, rooms.all_words);
        let Some(book) = book else { unreachable!() };
        ClosedRun {
            words: AllWords::new(words),
            workers: states,
            book: book.into_book(),
            results: group(results, rooms.results, rooms.all_results),
        }
    }
}
