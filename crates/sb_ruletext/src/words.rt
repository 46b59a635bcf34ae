// The words of policy texts: actions and parameters by their names.
ghost use Rattle.std.specs.Prelude.{◌≡◌, ◌≤◌, ◌<◌, length, map, IfSome};
ghost use Rattle.sb_call.specs.Tags.{shape_of};
ghost use Rattle.sb_ruletext.specs.Words.{actions_of, action_of, place_of, parameter_of};

use sb_call::{CallTag, parameter_words};
use sb_rule::Action;

/// The version of policy texts from which on `readonly` is an action.
const READ_ONLY_VERSION: u32 = 2;

fn actions_of(version: u32) -> &'static [Action]
    ensures { result.now ≡ actions_of version }
{
    if version == READ_ONLY_VERSION {
        &[
            Action::Allow,
            Action::Deny,
            Action::Alarm,
            Action::Fake,
            Action::ReadOnly,
        ]
    } else {
        &[Action::Allow, Action::Deny, Action::Alarm, Action::Fake]
    }
}

/// The action of a word, in a version of policy texts.
pub(crate) fn action_of(version: u32, word: &[u8]) -> Option<Action>
    ensures { result ≡ action_of version word.now }
{
    for action in actions_of(version) {
        if word == action.word().as_bytes() {
            return Some(*action);
        }
    }
    None
}

// The place of a word among words.
fn place_of(names: &[&str], word: &[u8]) -> Option<u32>
    requires few { length names.now ≤ 6 }
    ensures value { result ≡ place_of (map (λ name. name.now) names.now) word.now }
    ensures within { IfSome result (λ place. place < length names.now) }
{
    let mut place = 0;
    for name in names {
        if word == name.as_bytes() {
            return Some(place);
        }
        place += 1;
    }
    None
}

/// The number of a call's parameter, from 0, by its name.
pub(crate) fn parameter_of(tag: CallTag, word: &[u8]) -> Option<u32>
    ensures value { result ≡ parameter_of tag word.now }
    ensures within { IfSome result (λ param. param < length (shape_of tag)) }
{
    place_of(parameter_words(tag), word)
}
