// Laws of forests. None of these functions changes anything: each contract is a law.
ghost use Rattle.sb_arena.specs.Laws.{AddsLeaveParents, AddsSetValues, FreesClearValues, LinksSetParents, NumbersAreFree, SetsSetValues, UnlinksClearParents, VacanciesKeepNumbers, VacanciesLeaveNodes};

/// What linking and unlinking a node does to parents: that node alone has another.
#[tactic(auto, using(crate::proofs::ForestLaws::links_set_parents, crate::proofs::ForestLaws::unlinks_clear_parents, crate::proofs::ForestLaws::adds_leave_parents))]
pub fn links_change_one_parent<T>()
    ensures linked { LinksSetParents T }
    ensures unlinked { UnlinksClearParents T }
    ensures added { AddsLeaveParents T }
{}

/// What adding, setting and freeing a node does to values: that node alone has another.
#[tactic(auto, using(crate::proofs::ForestLaws::numbers_are_free, crate::proofs::ForestLaws::adds_set_values, crate::proofs::ForestLaws::sets_set_values, crate::proofs::ForestLaws::frees_clear_values))]
pub fn calls_change_one_value<T>()
    ensures free { NumbersAreFree T }
    ensures added { AddsSetValues T }
    ensures set { SetsSetValues T }
    ensures freed { FreesClearValues T }
{}

/// What a free node more does: no node has another value or another parent, and the next node has the number that it would
/// have had.
#[tactic(auto, using(crate::proofs::ForestLaws::vacancies_leave_nodes, crate::proofs::ForestLaws::vacancies_keep_numbers))]
pub fn vacancies_change_nothing<T>()
    ensures nodes { VacanciesLeaveNodes T }
    ensures numbers { VacanciesKeepNumbers T }
{}
