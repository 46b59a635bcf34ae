// A policy and a script, made from a seed.
ghost use Rattle.std.specs.Prelude.{◌≡◌, ◌≤◌, ℕ, true, IfOk};
ghost use Rattle.sb_statements.specs.Limits.{most_targets, most_statements};
ghost use Rattle.sb_statements.specs.Scripts.{is_clean};
ghost use Rattle.sb_gen.specs.Policies.{AreMade};
ghost use Rattle.sb_gen.specs.Scripts.{script_of};

use crate::policies::policies;
use crate::scripts::script;
use sb_base::NoMemory;
use sb_book::OpenedScript;
use sb_statements::SoundScript;
use std::alloc::Global;

/// The policy of generated scripts, and the script that is made from a seed: 1 to 8 targets, each with two channels and two
/// threads of `calls` statements, from 1 to 4,096. All statements are calls, so every channel is clean. The script is ready for the
/// policy, and its opening lines are placed.
///
/// # Errors
/// `NoMemory` if memory runs out.
pub fn make(alloc: Global, seed: u64, targets: u32, calls: u32) -> Result<OpenedScript, NoMemory>
    requires targets { (1 ≤ targets) × (targets ≤ most_targets) }
    requires calls { (1 ≤ calls) × (calls ≤ most_statements) }
    ensures policies { IfOk result (λ made. AreMade made.policies) }
    ensures script { IfOk result (λ made. made.script ≡ script_of seed targets calls) }
    ensures clean { IfOk result (λ made. (target channel : ℕ) → is_clean made.script target channel ≡ true) }
{
    let policies = policies(alloc)?;
    let _well_made = policies.policies();
    let script = script(alloc, seed, targets, calls)?;
    let opened = OpenedScript::new(alloc, policies, SoundScript::of(script))?;
    // What is made is ready.
    Ok(opened.unwrap())
}
