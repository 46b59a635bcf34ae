// The flags by which seats come back whose threads could not be started: one for each.

use crossbeam_utils::CachePadded;
use sb_base::NoMemory;
use std::alloc::Global;
use std::sync::atomic::AtomicBool;

/// A flag of one thread. The caller alone writes it, while threads read theirs, so no other value is on its cache lines.
pub(crate) type Flag = CachePadded<AtomicBool>;

/// The given number of flags, none of them set.
///
/// # Errors
/// `NoMemory` if there is none for them.
pub(crate) fn make_flags(alloc: Global, count: usize) -> Result<Vec<Flag>, NoMemory> {
    let mut flags = Vec::new(alloc);
    for _flag in 0..count {
        flags.push(CachePadded::new(AtomicBool::new(false)))?;
    }
    Ok(flags)
}
