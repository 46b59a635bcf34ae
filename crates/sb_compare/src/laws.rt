// Laws of changes. None of these functions does anything: each contract is a law.
ghost use Rattle.sb_compare.specs.Changes.{ChangesDecideAnswers};

/// The change of a call tells whether two well-made policies answer it alike.
pub fn changes_decide_answers()
    ensures { ChangesDecideAnswers }
{}
