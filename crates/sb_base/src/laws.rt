// Laws of folding, names, quoting and surrogate pairs. None of these functions changes anything: each contract is a law.
ghost use Rattle.sb_base.specs.Wide.{FoldsOnce, TestsSame, SameIsEquivalence, SameAtEachPlace, SameAsFolded};
ghost use Rattle.sb_base.specs.Names.{PathsAreNames, PathsHaveTheirComponents, NamesArePaths, DotsAreNoComponents};
ghost use Rattle.sb_base.specs.Quoting.{QuotesArePrintable, QuotesDiffer};
ghost use Rattle.sb_base.specs.Surrogates.{CharactersArePaired, PairedUnitsAreCharacters, WalksFindPairs};

/// Folding twice is folding once.
pub fn folds_once()
    ensures { FoldsOnce }
{}

/// `eq_ignore_ascii_case` holds exactly if the folded lists are equal.
pub fn tests_same()
    ensures { TestsSame }
{}

/// `eq_ignore_ascii_case` is reflexive, symmetric and transitive.
pub fn same_is_equivalence()
    ensures { SameIsEquivalence }
{}

/// Lists that are the same are equally long, with equal foldings at each place.
pub fn same_at_each_place()
    ensures { SameAtEachPlace }
{}

/// A list is the same as its folding.
pub fn same_as_folded()
    ensures { SameAsFolded }
{}

/// One or more components, each after a `\`, are a name, and are the components of that name.
pub fn paths_are_names()
    ensures names { PathsAreNames }
    ensures components { PathsHaveTheirComponents }
{}

/// Each name is one or more components, each after a `\`.
pub fn names_are_paths()
    ensures { NamesArePaths }
{}

/// No component is `.` or `..`.
pub fn dots_are_no_components()
    ensures { DotsAreNoComponents }
{}

/// Quoted units are printable ASCII.
pub fn quotes_are_printable()
    ensures { QuotesArePrintable }
{}

/// Different units are quoted differently.
pub fn quotes_differ()
    ensures { QuotesDiffer }
{}

/// A walk unit by unit finds whether units are well-formed UTF-16.
#[tactic(auto, using(crate::proofs::Pairs::paired_after))]
pub fn walks_find_pairs()
    ensures { WalksFindPairs }
{}

/// The units of characters are well-formed UTF-16, and such units are those of characters.
pub fn characters_are_paired()
    ensures characters { CharactersArePaired }
    ensures units { PairedUnitsAreCharacters }
{}
