// The states of a machine, found breadth first: each letter is followed from each state, in the order in which the states are found.
ghost use Rattle.std.specs.Prelude.{◌≡◌, ◌<◌, ◌++◌, ◌∷◌, ◌≤◌, [], ℕ, true, length, IfOk, IfSome, IfNone, OnOk};
ghost use Rattle.sb_explore.specs.Exploring.{list_at, is_letter, AreFound, AreByLength, AreInOrder, AreFollowed, AllLead, AllReached, HasMore, IsLonger, Leads};

use crate::machines::Machine;
use crate::states::State;
use indexmap::IndexSet;
use sb_base::{NoMemory, Wide};
use std::alloc::Global;

/// The states of a machine, each once, and for each a shortest word that leads to it. No word is longer than one after it.
#[derive(Drop)]
pub struct Found {
    /// The states.
    pub states: IndexSet<State>,
    /// The words, in the same order.
    pub words: Vec<Wide>,
}

// A word with one letter more.
fn longer(alloc: Global, word: &[u16], letter: u16) -> Result<Wide, NoMemory>
    ensures { IfOk result (λ longer. longer ≡ word.now ++ letter ∷ []) }
{
    let mut units = Vec::with_capacity(alloc, word.len())?;
    units.extend_from_slice(word)?;
    units.push(letter)?;
    Ok(Wide::new(units))
}

// Follows a letter from a state.
fn follow<M: Machine>(
    alloc: Global,
    machine: &M,
    states: &mut IndexSet<State>,
    words: &mut Vec<Wide>,
    place: usize,
    letter: u16,
) -> Result<(), NoMemory>
    requires place { place < length states.old.keys }
    requires letter { M.is_like machine.now (list_at states.old.keys place) letter letter }
    requires found { AreFound (M.leads_to machine.now) words.old.items states.old.keys }
    requires order { AreInOrder words.old.items (length (list_at words.old.items place)) }
    ensures found { OnOk result (AreFound (M.leads_to machine.now) words.new.items states.new.keys) }
    ensures order { OnOk result (AreInOrder words.new.items (length (list_at words.old.items place))) }
    ensures states { OnOk result (IsLonger states.old.keys states.new.keys) }
    ensures words { OnOk result (IsLonger words.old.items words.new.items) }
    ensures leads { OnOk result ((unit : ℕ) → M.is_like machine.now (list_at states.old.keys place) unit letter
        → Leads (M.stands_for machine.now) words.new.items states.new.keys (length (list_at words.old.items place)) (list_at states.old.keys place) unit) }
{
    let next = machine.next(alloc, &states[place], letter)?;
    let (_, is_new) = states.insert_full(next)?;
    if !is_new {
        return Ok(());
    }
    let word = longer(alloc, words[place].as_units(), letter)?;
    words.push(word)?;
    Ok(())
}

// Follows each letter from a state.
fn follow_all<M: Machine>(
    alloc: Global,
    machine: &M,
    states: &mut IndexSet<State>,
    words: &mut Vec<Wide>,
    place: usize,
) -> Result<(), NoMemory>
    requires place { place < length states.old.keys }
    requires found { AreFound (M.leads_to machine.now) words.old.items states.old.keys }
    requires order { AreInOrder words.old.items (length (list_at words.old.items place)) }
    ensures found { OnOk result (AreFound (M.leads_to machine.now) words.new.items states.new.keys) }
    ensures order { OnOk result (AreInOrder words.new.items (length (list_at words.old.items place))) }
    ensures states { OnOk result (IsLonger states.old.keys states.new.keys) }
    ensures words { OnOk result (IsLonger words.old.items words.new.items) }
    ensures lead { OnOk result (AllLead (M.stands_for machine.now) words.new.items states.new.keys (length (list_at words.old.items place)) (list_at states.old.keys place)) }
{
    let letters = machine.letters(alloc, &states[place])?;
    for letter in &letters {
        follow(alloc, machine, states, words, place, *letter)?;
    }
    Ok(())
}

/// Finds the states of a machine, each once and with a shortest word that leads to it. None exactly if there are more than the given limit.
///
/// # Errors
/// `NoMemory` if there was none for the states.
pub fn explore<M: Machine>(
    alloc: Global,
    machine: &M,
    limit: usize,
) -> Result<Option<Found>, NoMemory>
    ensures each { IfOk result (λ found. IfSome found (λ found. AreFound (M.leads_to machine.now) found.words.items found.states.keys)) }
    ensures order { IfOk result (λ found. IfSome found (λ found. AreByLength found.words.items)) }
    ensures all { IfOk result (λ found. IfSome found (λ found. AllReached (M.stands_for machine.now) found.words.items found.states.keys)) }
    ensures few { IfOk result (λ found. IfSome found (λ found. length found.states.keys ≤ limit)) }
    ensures many { IfOk result (λ found. IfNone found (HasMore (M.leads_to machine.now) limit)) }
{
    let mut states = IndexSet::new(alloc);
    let mut words = Vec::new(alloc);
    states.insert(machine.start(alloc)?)?;
    words.push(Wide::new(Vec::new(alloc)))?;
    let mut place = 0;
    while place < states.len() {
        if states.len() > limit {
            return Ok(None);
        }
        follow_all(alloc, machine, &mut states, &mut words, place)?;
        place += 1;
    }
    Ok(Some(Found { states, words }))
}
