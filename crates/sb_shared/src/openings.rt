// A shared world is opened.
ghost use Rattle.std.specs.Prelude.{◌≡◌, ◌<◌, ◌∷◌, [], List, length, map, slice_get, true, IfOk, OnOk};
ghost use Rattle.sb_actor.specs.Places.{statements_of};
ghost use Rattle.sb_book.specs.Readiness.{IsReady};
ghost use Rattle.sb_statements.specs.Actors.{thread_count};
ghost use Rattle.sb_statements.specs.CleanTables.{IsCleanTable};
ghost use Rattle.sb_statements.specs.declared.schedules.Actor.{Actor};
ghost use Rattle.sb_statements.specs.declared.schedules.Actor.TheVariants.{Worker, Thread};
ghost use Rattle.sb_shared.specs.Closing.{later_parts};
ghost use Rattle.sb_shared.specs.Making.{IsOpenedWith, keeper_of};
ghost use Rattle.sb_shared.specs.Opening.{AreFirst, all_actors, first_word, target_places, thread_of, thread_places};
ghost use Rattle.sb_shared.specs.Rule.{word_count};
ghost use Rattle.sb_shared.specs.Seats.{fresh_keeper, fresh_thread, fresh_worker};

use crate::books::BoxedBook;
use crate::keepers::Keeper;
use crate::layout::{CHANNEL_STRIDE, TARGET_STRIDE, WORD_COUNT};
use crate::listings::thread_places;
use crate::moves::Words;
use crate::rooms::make_rooms;
use crate::threads::ThreadSeat;
use crate::views::Origin;
use crate::workers::{WorkerBody, WorkerSeat};
use crate::worlds::SharedWorld;
use atomic_table::{Refused, Table};
use crossbeam_utils::CachePadded;
use sb_actor::{ThreadState, WorkerState};
use sb_base::NoMemory;
use sb_book::{Book, RunStart};
use sb_core::worlds_keep;
use sb_statements::{CleanTable, SoundScript, clean_table, sound_parts};
use std::alloc::Global;
use std::snapshot::Snapshot;
use std::sync::atomic::AtomicU64;

// The word at a place of the table: each state is free, and all else is 0.
fn first_word(script: &SoundScript, place: usize) -> u64
    ensures { result ≡ first_word script.now.targets place }
{
    match script.targets.get(place / TARGET_STRIDE) {
        Some(target) => {
            let channel = place % TARGET_STRIDE / CHANNEL_STRIDE;
            if channel < target.channels as usize && place % CHANNEL_STRIDE == 0 {
                1
            } else {
                0
            }
        }
        None => 0,
    }
}

// The words of a table whose channels nobody has used.
fn first_words(alloc: Global, script: &SoundScript) -> Result<Vec<u64>, NoMemory>
    ensures { IfOk result (λ words. AreFirst script.now.targets word_count words.items) }
{
    let mut words = Vec::new(alloc);
    for place in 0..WORD_COUNT {
        words.push(first_word(script, place))?;
    }
    Ok(words)
}

/// The script of a run that begins. It is ready.
pub fn script_of<'a>(start: &RunStart<'a>) -> &'a SoundScript
    ensures same { result.now ≡ start.now.script }
    ensures ready { IsReady start.now.policies start.now.script }
{
    let ready = start.ready();
    ready.establish_ready();
    ready.script()
}

// The count of threads that sleep, before the first step.
fn nobody_idle() -> CachePadded<AtomicU64> {
    CachePadded::new(AtomicU64::new(0))
}

// A table, and the seat from which all others are made.
fn begin(
    alloc: Global,
    start: RunStart<'_>,
    threads: usize,
) -> Result<(SharedWorld, Keeper), NoMemory>
    requires threads { threads ≡ length (thread_places start.script.targets) }
    ensures policies { IfOk result (λ made. made.0.key.policies.value.list ≡ start.entry.policies) }
    ensures script { IfOk result (λ made. made.0.key.script.value ≡ start.entry.script) }
    ensures keeper { IfOk result (λ made. made.1 ≡ keeper_of made.0.table made.0.key (all_actors start.entry.script.targets)) }
{
    worlds_keep();
    sound_parts();
    let script = script_of(&start);
    let policies = start.ready().policies();
    let key = Origin {
        policies: Snapshot::of(policies.policies()),
        script: Snapshot::of(script.script()),
    };
    let words = first_words(alloc, script)?;
    let rooms = make_rooms(alloc, script, threads)?;
    let book = BoxedBook::new(alloc, Book::new(alloc, start))?;
    let mut slots = Vec::with_capacity(alloc, 1)?;
    slots.push_reserved(Some(book));
    let idle = nobody_idle();
    match Table::new(alloc, words.as_slice(), slots, &key) {
        Ok((table, seat)) => Ok((SharedWorld { table, rooms, idle }, Keeper { seat })),
        Err(Refused { slots: _ }) => Err(NoMemory),
    }
}

// The seat of the first worker that the keeper has, that of this target.
fn worker_seat(
    alloc: Global,
    words: &Words,
    keeper: &mut Keeper,
    script: &SoundScript,
    target: u32,
) -> Result<WorkerSeat, NoMemory>
    requires words { words.now.table_id.words ≡ word_count }
    requires opened { IsOpenedWith words.now.key script.now }
    requires there { target < length script.now.targets }
    requires first { (more : List Actor) × (keeper.old ≡ keeper_of words.now.table_id words.now.key (Worker target ∷ more)) }
    ensures keeper { keeper.new ≡ record keeper.old { parts = later_parts keeper.old.parts; taken = [] } }
    ensures seat { IfOk result (λ s. s ≡ fresh_worker words.now.table_id words.now.key target) }
{
    let seat = keeper.split(words);
    let body = WorkerBody {
        seat,
        state: WorkerState::new(target, script.channel_count(target)),
        book: None,
        decision: None,
    };
    Ok(WorkerSeat {
        body: Box::new(alloc, body)?,
    })
}

// The seats of all workers.
fn worker_seats(
    alloc: Global,
    words: &Words,
    keeper: &mut Keeper,
    script: &SoundScript,
) -> Result<Vec<WorkerSeat>, NoMemory>
    requires words { words.now.table_id.words ≡ word_count }
    requires opened { IsOpenedWith words.now.key script.now }
    requires keeper { keeper.old ≡ keeper_of words.now.table_id words.now.key (all_actors script.now.targets) }
    ensures keeper { OnOk result (keeper.new ≡ keeper_of words.now.table_id words.now.key (map thread_of (thread_places script.now.targets))) }
    ensures seats { IfOk result (λ seats. seats.items ≡ map (fresh_worker words.now.table_id words.now.key) (target_places script.now.targets)) }
{
    let mut seats = Vec::new(alloc);
    for target in 0..script.target_count() {
        seats.push(worker_seat(alloc, words, keeper, script, target)?)?;
    }
    Ok(seats)
}

// How many statements a thread has.
fn statement_count(script: &SoundScript, target: u32, thread: u32) -> usize
    ensures { result ≡ length (statements_of script.now target thread) }
{
    match script.targets.get(target as usize) {
        Some(target) => match target.threads.get(thread as usize) {
            Some(statements) => statements.len(),
            None => 0,
        },
        None => 0,
    }
}

// Whether each channel of a target is clean.
fn is_all_clean(script: &SoundScript, table: &CleanTable, target: u32) -> bool
    requires { target < length script.now.targets }
{
    for channel in 0..script.channel_count(target) {
        if !table.is_clean(target, channel) {
            return false;
        }
    }
    true
}

// The seat of the first thread that the keeper has, the one with this number of this target. The table is that of the script.
fn thread_seat(
    alloc: Global,
    words: &Words,
    keeper: &mut Keeper,
    script: &SoundScript,
    table: &CleanTable,
    target: u32,
    thread: u32,
) -> Result<ThreadSeat, NoMemory>
    requires words { words.now.table_id.words ≡ word_count }
    requires opened { IsOpenedWith words.now.key script.now }
    requires table { IsCleanTable script.now table.now }
    requires there { thread < thread_count (slice_get script.now.targets target) }
    requires first { (more : List Actor) × (keeper.old ≡ keeper_of words.now.table_id words.now.key (Thread target thread ∷ more)) }
    ensures keeper { OnOk result (keeper.new ≡ record keeper.old { parts = later_parts keeper.old.parts; taken = [] }) }
    ensures seat { IfOk result (λ s. s ≡ fresh_thread words.now.table_id words.now.key (target, thread)) }
{
    let results = Vec::with_capacity(alloc, statement_count(script, target, thread))?;
    let seat = keeper.split(words);
    Ok(ThreadSeat {
        seat,
        waiting: false,
        all_clean: is_all_clean(script, table, target),
        state: ThreadState::with_table(script, table, target, thread),
        results,
    })
}

// The seats of all threads, of which these are the targets and numbers.
fn thread_seats(
    alloc: Global,
    words: &Words,
    keeper: &mut Keeper,
    script: &SoundScript,
    places: &[(u32, u32)],
) -> Result<Vec<ThreadSeat>, NoMemory>
    requires words { words.now.table_id.words ≡ word_count }
    requires opened { IsOpenedWith words.now.key script.now }
    requires places { places.now ≡ thread_places script.now.targets }
    requires keeper { keeper.old ≡ keeper_of words.now.table_id words.now.key (map thread_of places.now) }
    ensures keeper { OnOk result (keeper.new ≡ fresh_keeper words.now.table_id words.now.key) }
    ensures seats { IfOk result (λ seats. seats.items ≡ map (fresh_thread words.now.table_id words.now.key) places.now) }
{
    let table = clean_table(script);
    let mut seats = Vec::new(alloc);
    for place in places {
        let (target, thread) = *place;
        seats.push(thread_seat(alloc, words, keeper, script, &table, target, thread)?)?;
    }
    Ok(seats)
}

/// A shared world with the seats of all its actors.
#[derive(Drop)]
pub struct SharedParts {
    /// The world.
    pub world: SharedWorld,
    /// The seat that takes in all others.
    pub keeper: Keeper,
    /// The seats of the workers, by target.
    pub workers: Vec<WorkerSeat>,
    /// The seats of the threads, by target and then by number.
    pub threads: Vec<ThreadSeat>,
}

impl SharedWorld {
    /// The shared world of a run before its first step, with one seat for each actor, and one that takes them in again. Besides the
    /// book's answers and decisions this is the only call that allocates.
    ///
    /// # Errors
    /// `NoMemory` if there is not enough.
    pub fn open(alloc: Global, start: RunStart<'_>) -> Result<SharedParts, NoMemory>
        ensures policies { IfOk result (λ made. made.world.key.policies.value.list ≡ start.entry.policies) }
        ensures script { IfOk result (λ made. made.world.key.script.value ≡ start.entry.script) }
        ensures keeper { IfOk result (λ made. made.keeper ≡ fresh_keeper made.world.table made.world.key) }
        ensures workers { IfOk result (λ made. made.workers.items ≡ map (fresh_worker made.world.table made.world.key) (target_places start.entry.script.targets)) }
        ensures threads { IfOk result (λ made. made.threads.items ≡ map (fresh_thread made.world.table made.world.key) (thread_places start.entry.script.targets)) }
    {
        worlds_keep();
        sound_parts();
        let script = script_of(&start);
        let places = thread_places(alloc, script)?;
        let (world, mut keeper) = begin(alloc, start, places.len())?;
        let words = &world.table.shared;
        let workers = worker_seats(alloc, words, &mut keeper, script)?;
        let threads = thread_seats(alloc, words, &mut keeper, script, places.as_slice())?;
        Ok(SharedParts {
            world,
            keeper,
            workers,
            threads,
        })
    }
}
