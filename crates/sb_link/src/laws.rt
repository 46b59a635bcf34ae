// Laws of resolving names, and of books that do it. None of these functions does anything: each contract is a law.
ghost use Rattle.sb_link.specs.Cases.{ChainsResolve, LongestResolves, LoopsDoNotResolve, RingsDoNotResolve};
ghost use Rattle.sb_link.specs.LinkedLaws.{LogsAreCounted, LogsAreOfAnswers, PerformedCallsAreResolved, ScriptAnswersAreHistories, ScriptCallsAreResolved, StoppedCallsChangeNothing};
ghost use Rattle.sb_link.specs.ResolutionLaws.{LongestLinksApply, NamesResolveToNames, OrderDoesNotMatter, OtherNamesStay, ResolvedNamesStay, SameNamesResolveAlike};
ghost use Rattle.sb_link.specs.Writing.{ReadLinksAreLinks, WrittenLinksAreRead};

use sb_text::{
    not_utf8_place_tells, plain_lines_are_read, quoted_strings_are_read, quoted_tokens_are_text,
};

/// The link that applies to a name is the one with the longest FROM of those that may, and if there is none, none may.
#[tactic(auto, using(crate::proofs::Longest::longest_applies))]
pub fn longest_links_apply()
    ensures { LongestLinksApply }
{}

/// The order of the links does not matter.
#[tactic(auto, using(crate::proofs::Order::order_does_not_matter))]
pub fn order_does_not_matter()
    ensures { OrderDoesNotMatter }
{}

/// A name to which no link applies resolves to itself.
#[tactic(auto, using(crate::proofs::Steps::other_names_stay))]
pub fn other_names_stay()
    ensures { OtherNamesStay }
{}

/// No link applies to what a name resolves to, and it resolves to itself.
#[tactic(auto, using(crate::proofs::Steps::resolved_names_stay))]
pub fn resolved_names_stay()
    ensures { ResolvedNamesStay }
{}

/// A name resolves to a name.
#[tactic(auto, using(crate::proofs::Named::names_resolve))]
pub fn names_resolve_to_names()
    ensures { NamesResolveToNames }
{}

/// Names that are the same except for the case of letters resolve to such names, or neither of them resolves.
#[tactic(auto, using(crate::proofs::Alike::same_names_resolve))]
pub fn same_names_resolve_alike()
    ensures { SameNamesResolveAlike }
{}

/// After any list of answers the log has one item for each, in order, with its copy. A call stops exactly if a name of it does not
/// resolve or its block would be too big; its item has the target and channel given, and the tag, the stop and the reply. Each other
/// item names the next entry of the book, which has the target and channel given and the copy with its names resolved.
#[tactic(auto, using(crate::proofs::Logs::logs_are_of_answers))]
pub fn logs_are_of_answers()
    ensures { LogsAreOfAnswers }
{}

/// After any list of answers there is an item for each, and as many entries as items that are not of stopped calls: the three numbers of
/// the line of totals add up.
pub fn logs_are_counted()
    ensures { LogsAreCounted }
{}

/// A call that stops changes neither the namespace nor the entries.
#[tactic(auto, using(crate::proofs::Logs::stopped_calls_change_nothing))]
pub fn stopped_calls_change_nothing()
    ensures { StoppedCallsChangeNothing }
{}

/// Each call that was performed is the call of its entry's copy, and a rule of the target's policy allows it, with its names as they
/// are in that copy: each name that was performed resolves to itself.
pub fn performed_calls_are_resolved()
    ensures { PerformedCallsAreResolved }
{
    sb_book::entries_say_what_was_done();
}

/// The answers to all calls of a script that is ready for its policies, by links that were read: the entries are a legal history of the script,
/// and the log is of them. So each call that was performed is allowed by the first rule of its target's policy that holds, on its resolved
/// names and with exactly the arguments that this rule grants, and each name that was performed resolves to itself. Readers give both premises.
pub fn script_calls_are_resolved()
    ensures histories { ScriptAnswersAreHistories }
    ensures performed { ScriptCallsAreResolved }
{
    sb_block::blocks_come_back();
    sb_book::answers_keep_histories();
    sb_book::entries_say_what_was_done();
    sb_statements::placed_statements_are_sound();
}

/// The text of links that can be written is read as these links.
pub fn written_links_are_read()
    ensures { WrittenLinksAreRead }
{
    not_utf8_place_tells();
    plain_lines_are_read();
    quoted_strings_are_read();
}

/// Whatever is read of a text are at most 64 links with names of at most 256 units, no two of which begin with the same name, and
/// they can be written.
pub fn read_links_are_links()
    ensures { ReadLinksAreLinks }
{
    quoted_strings_are_read();
    quoted_tokens_are_text();
}

/// Small cases: a link to itself, a ring of two, chains of eight and of nine, and a link whose FROM begins another's.
#[tactic(auto, using(crate::proofs::Cases::loops, crate::proofs::Cases::rings, crate::proofs::Cases::chains, crate::proofs::Cases::longest))]
pub fn small_cases()
    ensures loops { LoopsDoNotResolve }
    ensures rings { RingsDoNotResolve }
    ensures chains { ChainsResolve }
    ensures longest { LongestResolves }
{}
