// Where a script has its targets and its statements.
ghost use Rattle.std.specs.Prelude.{◌≡◌, ◌<◌, length, nat_eq, IfSome};
ghost use Rattle.std.specs.Cmp.Lexicographic.{pointwise};
ghost use Rattle.std.specs.List.{position};
ghost use Rattle.sb_audit.specs.Before.{target_of};
ghost use Rattle.sb_audit.specs.Spots.{due_spot};

use crate::spots::Spot;
use sb_call::ShortName;
use sb_statements::{SoundScript, TargetScript};

fn named(targets: &[TargetScript], name: &ShortName) -> Option<usize>
    ensures number { result ≡ position (λ target. pointwise nat_eq target.name name.now) targets.now }
    ensures there { IfSome result (λ target. target < length targets.now) }
{
    targets.iter().position(|target| target.name == *name)
}

/// The number of the target with this name, from 0, if there is one.
pub(crate) fn target_of(script: &SoundScript, name: &ShortName) -> Option<u32>
    ensures number { result ≡ target_of script.now name.now }
    ensures there { IfSome result (λ target. target < length script.now.targets) }
{
    let _at_most_8 = script.target_count();
    let target = named(&script.targets, name)?;
    Some(target as u32)
}

/// The statement whose result is due after this number of results, if there is one.
#[tactic(auto, using(crate::proofs::SpotLemmas::due))]
pub(crate) fn due_spot(script: &SoundScript, results: usize) -> Option<Spot>
    ensures { result ≡ due_spot script.now results }
{
    let placed = script.nth_statement(results)?;
    Some(Spot {
        target: placed.target as usize,
        thread: placed.thread as usize,
        place: placed.place as usize,
    })
}
