// How many states and choices may be looked at.
ghost use Rattle.std.specs.Prelude.{◌≡◌, ◌≤◌, ◌<◌, ◌+◌, ◌-◌, ◌⊎◌, false, true, min, length, IfOk, IfSome, IfNone};
ghost use Rattle.sb_explore.specs.Exploring.{AreFound, AreByLength, AllReached, HasMore};

use sb_base::NoMemory;
use sb_explore::{Found, Machine, explore};
use std::alloc::Global;

/// The most states of one parameter.
pub(crate) const MAX_STATES: usize = 200_000;

/// The most choices of values for the calls of one tag.
pub(crate) const MAX_CHOICES: usize = 1_000_000;

/// The most states and choices of one command.
pub(crate) const MAX_IN_COMMAND: usize = 2_000_000;

/// What is left of a budget.
#[derive(Drop)]
pub struct Budget {
    /// How many states one parameter may have.
    pub states: usize,
    /// How many choices are left for the calls of this tag.
    pub choices: usize,
    /// How many states and choices are left for the command.
    pub command: usize,
    /// Whether more was needed than was left.
    pub is_exceeded: bool,
}

impl Budget {
    /// The budget of a command: 200,000 states for one parameter, 1,000,000 choices for the calls of one tag, and 2,000,000 states and choices in all.
    pub fn for_command() -> Budget
        ensures states { result.states ≡ 200000 }
        ensures choices { result.choices ≡ 1000000 }
        ensures command { result.command ≡ 2000000 }
        ensures exceeded { result.is_exceeded ≡ false }
    {
        Budget {
            states: MAX_STATES,
            choices: MAX_CHOICES,
            command: MAX_IN_COMMAND,
            is_exceeded: false,
        }
    }

    /// Begins with the calls of another tag, for which all choices are left again.
    pub fn begin_tag(&mut self)
        ensures states { self.new.states ≡ self.old.states }
        ensures choices { self.new.choices ≡ 1000000 }
        ensures command { self.new.command ≡ self.old.command }
        ensures exceeded { self.new.is_exceeded ≡ self.old.is_exceeded }
    {
        self.choices = MAX_CHOICES;
    }

    /// How many states may be found now.
    pub(crate) fn states_left(&self) -> usize
        ensures { result ≡ min self.now.states self.now.command }
    {
        self.states.min(self.command)
    }

    /// Takes states that were found.
    pub(crate) fn take_states(&mut self, count: usize)
        requires { count ≤ self.old.command }
        ensures states { self.new.states ≡ self.old.states }
        ensures choices { self.new.choices ≡ self.old.choices }
        ensures command { self.new.command + count ≡ self.old.command }
        ensures exceeded { self.new.is_exceeded ≡ self.old.is_exceeded }
    {
        self.command -= count;
    }

    /// Takes choices. False exactly if fewer are left, for the tag or for the command; then the budget is exceeded.
    pub(crate) fn take_choices(&mut self, count: usize) -> bool
        ensures taken { result ≡ true → (self.new.choices + count ≡ self.old.choices) × (self.new.command + count ≡ self.old.command) × (self.new.is_exceeded ≡ self.old.is_exceeded) }
        ensures refused { result ≡ false → (self.old.choices < count) ⊎ (self.old.command < count) }
        ensures exceeded { result ≡ false → self.new.is_exceeded ≡ true }
    {
        if self.choices < count || self.command < count {
            self.is_exceeded = true;
            return false;
        }
        self.choices -= count;
        self.command -= count;
        true
    }

    /// Notes that more was needed than was left.
    pub(crate) fn exceed(&mut self)
        ensures { self.new.is_exceeded ≡ true }
    {
        self.is_exceeded = true;
    }
}

/// Finds the states of a machine, if the budget has as many. None exactly if it has more; then the budget is exceeded.
///
/// # Errors
/// `NoMemory` if there was none for the states.
pub(crate) fn explore_within<M: Machine>(
    alloc: Global,
    machine: &M,
    budget: &mut Budget,
) -> Result<Option<Found>, NoMemory>
    ensures each { IfOk result (λ found. IfSome found (λ found. AreFound (M.leads_to machine.now) found.words.items found.states.keys)) }
    ensures order { IfOk result (λ found. IfSome found (λ found. AreByLength found.words.items)) }
    ensures all { IfOk result (λ found. IfSome found (λ found. AllReached (M.stands_for machine.now) found.words.items found.states.keys)) }
    ensures taken { IfOk result (λ found. IfSome found (λ found. budget.new.command + length found.states.keys ≡ budget.old.command)) }
    ensures many { IfOk result (λ found. IfNone found (HasMore (M.leads_to machine.now) (min budget.old.states budget.old.command))) }
    ensures exceeded { IfOk result (λ found. IfNone found (budget.new.is_exceeded ≡ true)) }
{
    let Some(found) = explore(alloc, machine, budget.states_left())? else {
        budget.exceed();
        return Ok(None);
    };
    budget.take_states(found.states.len());
    Ok(Some(found))
}
