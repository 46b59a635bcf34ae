// Table tests of the pool.
ghost use Rattle.std.specs.Prelude.{◌≡◌, ◌<◌, ℕ, [], length, IfOk, IfSome};
ghost use Rattle.sb_pool.specs.Pools.{seen, IsSeatOf, AreNumbered};
ghost use Rattle.sb_pool.specs.Views.{times, IsLast};
ghost use Rattle.sb_tables.specs.Pools.{AreAsBefore, AreIdle, AreInTurn, IsDue};

use sb_pool::{Numbered, Pool, PoolSeat};
use sb_rows::{RowFault, number, put_between, small};
use std::alloc::Global;
use std::sync::Wait;
use std::thread;
use std::thread::Threads;

/// A work of a pool, with its number and its home.
#[derive(Drop)]
pub struct Work {
    number: u32,
    home: u64,
}

impl Numbered for Work {
    type Home = u64;

    ghost number = { λ w. w.number };

    ghost home = { λ w. w.home };

    fn number(&self) -> u32 {
        self.number
    }
}

// A seat without works, and how many works it drew.
#[derive(Drop)]
struct Dealt {
    seat: PoolSeat<Work>,
    draws: u64,
}

/// What a function of the pool gives.
pub fn value_of<R: Threads + Wait + Sync>(
    rt: &R,
    alloc: Global,
    name: &str,
    parts: &[&str],
) -> Result<String, RowFault> {
    match (name, parts) {
        ("Pool::draw", [works]) => draws(rt, alloc, small(works)?),
        ("Pool::close", [works, seats, rounds]) => {
            closed(rt, alloc, small(works)?, small(seats)?, number(rounds)?)
        }
        _ => Err(RowFault::Unknown),
    }
}

fn home_of(number: u32) -> u64 {
    1000 + u64::from(number)
}

// Works with the numbers from 0 on.
fn works(alloc: Global, count: u32) -> Result<Vec<Work>, RowFault>
    ensures count { IfOk result (λ works. length works.items ≡ count) }
    ensures numbered { IfOk result (λ works. AreNumbered (λ (w : Work). w.number) works.items) }
{
    let mut works = Vec::new(alloc);
    for number in 0..count {
        works.push(Work {
            number,
            home: home_of(number),
        })?;
    }
    Ok(works)
}

// Draws three times, hands the first work back, and draws again.
fn draws<R: Wait>(rt: &R, alloc: Global, count: u32) -> Result<String, RowFault> {
    if count == 0 {
        return Err(RowFault::NotInRange);
    }
    let works = works(alloc, count)?;
    let Ok((pool, mut seats)) = Pool::new(rt, alloc, works, 1) else {
        return Err(RowFault::NoMemory);
    };
    let Some(seat) = seats.pop() else {
        return Err(RowFault::NotInRange);
    };
    told_draws(rt, alloc, &pool, seat)
}

fn told_draws<R: Wait>(
    rt: &R,
    alloc: Global,
    pool: &Pool<Work>,
    seat: PoolSeat<Work>,
) -> Result<String, RowFault>
    requires { IsSeatOf pool.now seat }
{
    let mut seat = seat;
    let mut out = String::new(alloc);
    let first = drawn(rt, pool, &mut seat, &mut out)?;
    drawn(rt, pool, &mut seat, &mut out)?;
    drawn(rt, pool, &mut seat, &mut out)?;
    if let Some((number, work)) = first {
        seat.hand_back(rt, pool, number, work);
    }
    drawn(rt, pool, &mut seat, &mut out)?;
    Ok(out)
}

// Draws a work, and appends its number or `none`.
fn drawn<R: Wait>(
    rt: &R,
    pool: &Pool<Work>,
    seat: &mut PoolSeat<Work>,
    out: &mut String,
) -> Result<Option<(u32, Work)>, RowFault>
    requires { IsSeatOf pool.now seat.old }
    ensures own { IsSeatOf pool.now seat.new }
    ensures due { IfOk result (λ drawn. IfSome drawn (λ d. IsDue seat.new d.0 d.1)) }
    ensures keeps { (n : ℕ) (w : Work) → IsDue seat.old n w → IsDue seat.new n w }
{
    let drawn = seat.draw(rt, pool);
    put_between(out, " ")?;
    match &drawn {
        Some((number, _)) => write!(out, "{number}")?,
        None => out.push_str("none")?,
    }
    Ok(drawn)
}

// Draws a work and hands it back, and gives how many were drawn.
fn deal<R: Wait>(rt: &R, pool: &Pool<Work>, seat: &mut PoolSeat<Work>) -> u64
    requires own { IsSeatOf pool.now seat.old }
    requires none { (seen seat.old).out ≡ [] }
    ensures own { IsSeatOf pool.now seat.new }
    ensures same { seen seat.new ≡ seen seat.old }
{
    match seat.draw(rt, pool) {
        Some((number, work)) => {
            seat.hand_back(rt, pool, number, work);
            1
        }
        None => 0,
    }
}

// Does so in these rounds.
fn deal_in_rounds<R: Wait>(rt: &R, pool: &Pool<Work>, seat: PoolSeat<Work>, rounds: u64) -> Dealt
    requires own { IsSeatOf pool.now seat }
    requires none { (seen seat).out ≡ [] }
    ensures own { IsSeatOf pool.now result.seat }
    ensures same { seen result.seat ≡ seen seat }
{
    let mut seat = seat;
    let mut draws: u64 = 0;
    for _round in 0..rounds {
        draws = draws.saturating_add(deal(rt, pool, &mut seat));
    }
    Dealt { seat, draws }
}

// Does so by a thread for each seat.
fn deal_all<R: Threads + Wait + Sync>(
    rt: &R,
    pool: &Pool<Work>,
    seats: Vec<PoolSeat<Work>>,
    rounds: u64,
) -> Result<Vec<Dealt>, RowFault>
    requires { AreIdle pool.now seats.items }
    ensures { IfOk result (λ all. AreAsBefore pool.now seats.items all.items) }
{
    Ok(thread::map_vec(
        rt,
        seats,
        &|seat: PoolSeat<Work>| -> Dealt
            requires { IsSeatOf pool.now seat × ((seen seat).out ≡ []) }
            ensures { IsSeatOf pool.entry.now result.seat × (seen result.seat ≡ seen seat) }
        { deal_in_rounds(rt, pool, seat, rounds) },
    )?)
}

// The last seat takes in all others.
fn joined(pool: &Pool<Work>, last: Dealt, others: Vec<Dealt>) -> Dealt
    requires { AreInTurn pool.now last others.items }
    ensures own { IsSeatOf pool.now result.seat }
    ensures last { IsLast (seen result.seat) }
    ensures none { (seen result.seat).out ≡ [] }
{
    let Dealt { seat, draws } = last;
    let mut seat = seat;
    let mut draws = draws;
    for other in others {
        draws = draws.saturating_add(other.draws);
        seat.join(pool, other.seat);
    }
    Dealt { seat, draws }
}

// Deals works by this many threads, in these rounds each, and closes the pool.
fn closed<R: Threads + Wait + Sync>(
    rt: &R,
    alloc: Global,
    count: u32,
    seats: u32,
    rounds: u64,
) -> Result<String, RowFault> {
    if count == 0 || seats == 0 {
        return Err(RowFault::NotInRange);
    }
    let works = works(alloc, count)?;
    let Ok((pool, seats)) = Pool::new(rt, alloc, works, seats) else {
        return Err(RowFault::NoMemory);
    };
    let mut all = deal_all(rt, &pool, seats, rounds)?;
    let Some(last) = all.pop() else {
        return Err(RowFault::NotInRange);
    };
    let Dealt { seat, draws } = joined(&pool, last, all);
    let works = pool.close(rt, seat);
    told_works(alloc, draws, &works)
}

fn told_works(alloc: Global, draws: u64, works: &[Work]) -> Result<String, RowFault> {
    let (many, in_order) = (works.len(), are_in_order(works));
    Ok(format!(in alloc; "draws {draws} works {many} in order {in_order}")?)
}

// Whether the works have the numbers from 0 on, each with its home.
fn are_in_order(works: &[Work]) -> bool {
    let mut number: u32 = 0;
    for work in works {
        if work.number != number || work.home != home_of(number) {
            return false;
        }
        number = number.saturating_add(1);
    }
    true
}
