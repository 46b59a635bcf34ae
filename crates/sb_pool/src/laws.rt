// What the rules of the pool say at any moment.
ghost use Rattle.sb_pool.specs.Laws.{AreLooksTrue, IsOutOnce};

use crate::protocol::Numbered;

/// Establishes that a number is out with at most one seat at a time, and that no work in the queue bears it meanwhile. It does
/// nothing when it runs.
pub fn establish_out_once<W: Numbered>()
    ensures { IsOutOnce W.number W.home }
{}

/// Establishes that a seat cannot tell that no work was in while one was: the rule leaves it no other history. It does nothing
/// when it runs.
pub fn establish_looks_are_true()
    ensures { AreLooksTrue }
{}
