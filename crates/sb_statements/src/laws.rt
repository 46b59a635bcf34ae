// Laws of sound scripts. None of these functions does anything: each contract is a law.
ghost use Rattle.sb_statements.specs.PlacedStatements.{PlacedStatementsAreSound};
ghost use Rattle.sb_statements.specs.Soundness.{SoundTargets, SoundStatements};

/// Each target of a sound script is sound, and so is each statement of its threads.
pub fn sound_parts()
    ensures targets { SoundTargets }
    ensures statements { SoundStatements }
{}

/// The target of each statement of a sound script is there, the statement is sound, and its strings are made of units.
pub fn placed_statements_are_sound()
    ensures { PlacedStatementsAreSound }
{}
