// Policies: read from a text, counted, named and found.
ghost use Rattle.std.specs.Prelude.{◌≡◌, ◌<◌, ◌+◌, ◌^◌, ◌==◌, length, take, is_some, unwrap_or, Some, false};
ghost use Rattle.sb_ruletext.specs.PolicyTexts.{reading};
ghost use Rattle.sb_base.specs.Refusals.{GivesAs};
ghost use Rattle.sb_c.specs.Contents.{may_load, policies_in};
ghost use Rattle.sb_c.specs.Handles.{content};
ghost use Rattle.sb_c.specs.Policies.{IsLoaded, IsNameShown, fault_shown, number_named};
ghost use Rattle.sb_c.specs.Statuses.{done_or_bad, status_number, status_of};

use crate::handles::Handle;
use crate::helds::Held;
use crate::rooms::put;
use crate::shapes::TextFault;
use crate::statuses::Status;
use sb_base::Refused;
use sb_host::PolicySet;
use sb_ruletext::{PolicyFault, TextRefused, read_policies};
use std::alloc::Global;

/// How many bytes a policy text has at most, as the program reads it.
const MAX_BYTES: usize = 4_194_304;

fn fault_shown(found: PolicyFault) -> TextFault
    ensures { result ≡ fault_shown found }
{
    TextFault {
        line: found.line,
        column: found.column,
        number: found.kind.number(),
    }
}

// The policies of a text with their programs.
fn read(alloc: Global, text: &[u8]) -> Result<PolicySet, TextRefused>
    requires { length text.now + 1 < 2 ^ 32 }
    ensures { GivesAs (λ set. set.policies) (reading text.now) result }
{
    let policies = read_policies(alloc, text)?;
    Ok(PolicySet::new(alloc, policies)?)
}

// Whether policies may be loaded into the handle.
fn may_load(alloc: Global, policies: &mut Handle) -> bool
    ensures may { result ≡ may_load (content policies.old) }
    ensures same { content policies.new ≡ content policies.old }
{
    let Some(held) = policies.take(alloc) else {
        return true;
    };
    let may = held.policies().is_some();
    policies.put(held);
    may
}

/// Reads the policies of a text of at most 4,194,304 bytes into a handle that is empty or holds policies, in place of those. After a fault, which is
/// shown, and without memory, the handle stays as it was.
#[unsafe(no_mangle)]
pub extern "C" fn sb_policies_load(
    alloc: Global,
    policies: &mut Handle,
    text: &[u8],
    fault: &mut TextFault,
) -> u32
    ensures status { IsLoaded text.now (content policies.old) (content policies.new) fault.new (status_of result) }
    ensures same { 0 < result → content policies.new ≡ content policies.old }
    ensures untold { (result == 3) ≡ false → fault.new ≡ fault.old }
{
    if text.len() > MAX_BYTES || !may_load(alloc, policies) {
        return Status::BadCall.number();
    }
    let set = match read(alloc, text) {
        Ok(set) => set,
        Err(Refused::NoMemory) => return Status::NoMemory.number(),
        Err(Refused::Fault(found)) => {
            *fault = fault_shown(found);
            return Status::Fault.number();
        }
    };
    match Box::new(alloc, Held::Policies(set)) {
        Ok(held) => {
            policies.put(held);
            Status::Ok.number()
        }
        Err(_) => Status::NoMemory.number(),
    }
}

/// How many policies there are, 0 if the handle holds none. Does not allocate.
#[unsafe(no_mangle)]
pub extern "C" fn sb_policies_count(alloc: Global, policies: &mut Handle) -> usize
    ensures count { result ≡ length (policies_in (content policies.old)) }
    ensures same { content policies.new ≡ content policies.old }
{
    let Some(held) = policies.take(alloc) else {
        return 0;
    };
    let count = match held.policies() {
        Some(set) => set.len(),
        None => 0,
    };
    policies.put(held);
    count
}

// The number of a policy by its name.
fn number_named(set: &PolicySet, name: &[u8]) -> Option<u32>
    ensures { result ≡ number_named name.now set.now.policies }
{
    let place = set.find(name)?;
    if place < 0x1_0000_0000 {
        Some(place as u32)
    } else {
        None
    }
}

/// Writes the number of the policy of this name. A bad call, which writes nothing, exactly if there is none. Does not allocate.
#[unsafe(no_mangle)]
pub extern "C" fn sb_policies_find(
    alloc: Global,
    policies: &mut Handle,
    name: &[u8],
    number: &mut u32,
) -> u32
    ensures status { result ≡ done_or_bad (is_some (number_named name.now (policies_in (content policies.old)))) }
    ensures number { number.new ≡ unwrap_or (number_named name.now (policies_in (content policies.old))) number.old }
    ensures same { content policies.new ≡ content policies.old }
{
    let Some(held) = policies.take(alloc) else {
        return Status::BadCall.number();
    };
    let found = match held.policies() {
        Some(set) => number_named(set, name),
        None => None,
    };
    policies.put(held);
    match found {
        Some(found) => {
            *number = found;
            Status::Ok.number()
        }
        None => Status::BadCall.number(),
    }
}

// Puts the name of a policy into a room.
fn put_name(set: &PolicySet, number: u32, name: &mut [u8], count: &mut usize) -> Status
    ensures status { IsNameShown set.now.policies number (length name.old) count.new (take count.new name.new) (Some result) }
    ensures same { 0 < status_number result → (name.new ≡ name.old) × (count.new ≡ count.old) }
{
    match set.policy(number as usize) {
        None => Status::BadCall,
        Some(policy) => {
            if put(policy.name.bytes(), name, count) {
                Status::Ok
            } else {
                Status::NoRoom
            }
        }
    }
}

/// Writes the name of the policy with this number, and how many bytes it has. Does not allocate.
#[unsafe(no_mangle)]
#[tactic(auto, using(crate::proofs::StatusLemmas::name_shown_as))]
pub extern "C" fn sb_policies_name(
    alloc: Global,
    policies: &mut Handle,
    number: u32,
    name: &mut [u8],
    count: &mut usize,
) -> u32
    ensures status { IsNameShown (policies_in (content policies.old)) number (length name.old) count.new (take count.new name.new) (status_of result) }
    ensures unwritten { 0 < result → (name.new ≡ name.old) × (count.new ≡ count.old) }
    ensures same { content policies.new ≡ content policies.old }
{
    let Some(held) = policies.take(alloc) else {
        return Status::BadCall.number();
    };
    let status = match held.policies() {
        Some(set) => put_name(set, number, name, count),
        None => Status::BadCall,
    };
    policies.put(held);
    status.number()
}
