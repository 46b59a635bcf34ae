// The end of a run: the seats of the pool come together again, and the pool is closed.
ghost use Rattle.std.specs.Prelude.{◌≡◌, ◌<◌, ◌++◌, ◌∷◌, [], length, map, All};
ghost use Rattle.sb_pool.specs.Pools.{AreNumbered, AreSeats, IsSeatOf, seen};
ghost use Rattle.sb_run.specs.Pooling.{with_seats};
ghost use Rattle.sb_run.specs.Works.{home_of, number_of};

use crate::works::{Server, Work};
use sb_pool::Pool;
use std::sync::Wait;

// A seat takes in others, in order.
#[tactic(auto, using(crate::proofs::Pooled::seats_more))]
fn take_seats(pool: &Pool<Work>, last: &mut Server, others: Vec<Server>)
    requires own { IsSeatOf pool.now last.old }
    requires others { All (IsSeatOf pool.now) others.items }
    requires idle { All (λ s. (seen s).out ≡ []) others.items }
    ensures own { IsSeatOf pool.now last.new }
    ensures view { seen last.new ≡ with_seats (seen last.old) others.items }
{
    for seat in others {
        last.join(pool, seat);
    }
}

/// The works by number, once this seat, the last one, has taken in all others. Each is at home where it was. Does not allocate.
pub(crate) fn close_pool<R: Wait>(
    rt: &R,
    pool: Pool<Work>,
    last: Server,
    others: Vec<Server>,
) -> Vec<Work>
    requires seats { AreSeats pool (seen last).homes (others.items ++ last ∷ []) }
    requires some { 0 < length others.items }
    ensures numbered { AreNumbered number_of result.items }
    ensures homes { map home_of result.items ≡ (seen last).homes }
{
    let mut last = last;
    take_seats(&pool, &mut last, others);
    pool.close(rt, last)
}
