// Lists of words and of results, taken in and given out.
ghost use Rattle.std.specs.Prelude.{◌≡◌, IfOk};
ghost use Rattle.sb_core.specs.Reports.{results_of};

use crate::threads::TargetThreads;
use crate::words::TargetWords;
use sb_base::NoMemory;
use sb_book::{AllWords, Results};
use std::alloc::Global;

/// Words taken out of lists.
///
/// # Errors
/// `NoMemory` if there was none for the outer list.
pub(crate) fn words_from(alloc: Global, words: AllWords) -> Result<Vec<TargetWords>, NoMemory>
    ensures { IfOk result (λ w. w.items ≡ words) }
{
    let mut targets = Vec::new(alloc);
    for list in words.into_items() {
        targets.push(TargetWords::new(list))?;
    }
    Ok(targets)
}

/// Words as lists.
///
/// # Errors
/// `NoMemory` if there was none for the outer list.
pub(crate) fn words_into(alloc: Global, words: Vec<TargetWords>) -> Result<AllWords, NoMemory>
    ensures { IfOk result (λ lists. lists ≡ words.items) }
{
    let mut lists = Vec::new(alloc);
    for target in words {
        lists.push(target.into_list())?;
    }
    Ok(AllWords::new(lists))
}

/// The results of threads.
///
/// # Errors
/// `NoMemory` if there was none for the lists around them.
pub(crate) fn results_from(alloc: Global, threads: Vec<TargetThreads>) -> Result<Results, NoMemory>
    ensures { IfOk result (λ results. results ≡ results_of threads.items) }
{
    let mut results = Vec::new(alloc);
    for target in threads {
        results.push(target.into_results(alloc)?)?;
    }
    Ok(Results::new(results))
}
