// Which threads a script has.
ghost use Rattle.std.specs.Prelude.{◌≡◌, ◌++◌, map, IfOk, OnOk};
ghost use Rattle.std.specs.List.{range_with_len};
ghost use Rattle.sb_shared.specs.Opening.{thread_places};

use sb_base::NoMemory;
use sb_statements::SoundScript;
use std::alloc::Global;

// Appends target and number of each thread of a target.
fn push_places(places: &mut Vec<(u32, u32)>, target: u32, threads: u32) -> Result<(), NoMemory>
    ensures { OnOk result (places.new.items ≡ places.old.items ++ map (λ k. (target, k)) (range_with_len 0 threads)) }
{
    for thread in 0..threads {
        places.push((target, thread))?;
    }
    Ok(())
}

/// Target and number of each thread of a script.
///
/// # Errors
/// `NoMemory` if there is none for the list.
pub(crate) fn thread_places(
    alloc: Global,
    script: &SoundScript,
) -> Result<Vec<(u32, u32)>, NoMemory>
    ensures { IfOk result (λ places. places.items ≡ thread_places script.now.targets) }
{
    let mut places = Vec::new(alloc);
    for target in 0..script.target_count() {
        push_places(&mut places, target, script.thread_count(target))?;
    }
    Ok(places)
}
