// Marks: the number by which a call of a thread is known.
ghost use Rattle.std.specs.Prelude.{◌≡◌, ◌<◌, ◌≤◌, MatchOption};
ghost use Rattle.sb_actor.specs.Marks.{MarksComeBack, ReadMarksAreMarks, mark_at, mark_of_number, marks_of_thread, place_of, thread_of};

/// How many marks a thread has, one for each place. Those of the first thread begin with this number.
const MARKS_OF_THREAD: u64 = 65536;

/// The call of a target that a mark is of: its thread, and its place in the thread, both numbered from 0.
#[derive(Clone, Copy, PartialEq)]
pub struct CallMark {
    /// The thread.
    pub thread: u64,
    /// The place in the thread, less than 65,536.
    pub place: u64,
}

impl CallMark {
    /// The thread and the place that a number names: it is `(thread + 1) * 65536 + place`. None if the number is less than the first mark of
    /// the first thread, 65,536.
    pub fn of(number: u64) -> Option<CallMark>
        ensures exact { result ≡ mark_of_number number }
        ensures parts { MatchOption result (number < marks_of_thread)
            (λ mark. (marks_of_thread ≤ number) × (mark.thread ≡ thread_of number) × (mark.place ≡ place_of number)) }
    {
        if number < MARKS_OF_THREAD {
            return None;
        }
        Some(CallMark {
            thread: number / MARKS_OF_THREAD - 1,
            place: number % MARKS_OF_THREAD,
        })
    }
}

/// The mark of the call at a place of a thread.
pub fn mark_at(thread: u32, place: u32) -> u64
    ensures { result ≡ mark_at thread place }
{
    (u64::from(thread) + 1) * MARKS_OF_THREAD + u64::from(place)
}

/// A mark is read back as its thread and its place, and a number that is read as a mark is the one that these make.
pub fn marks_come_back()
    ensures back { MarksComeBack }
    ensures read { ReadMarksAreMarks }
{}
