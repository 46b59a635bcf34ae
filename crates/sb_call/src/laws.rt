// Laws of tags and arguments. None of these functions does anything: each contract is a law.
ghost use Rattle.sb_call.specs.Arguments.{FittingArgsAreAsMany, FittingArgsAreOfTheirKinds};
ghost use Rattle.sb_call.specs.Tags.{TagsComeBack, NumbersComeBack};

/// Each tag is the tag of its number, and if a number encodes a tag, it is the number of that tag.
pub fn tags_and_numbers()
    ensures tags { TagsComeBack }
    ensures numbers { NumbersComeBack }
{}

/// Arguments that fit a call are as many as its parameters, and each is of the kind of its parameter.
pub fn fitting_args()
    ensures many { FittingArgsAreAsMany }
    ensures kinds { FittingArgsAreOfTheirKinds }
{}
