// The names of parameters.
ghost use Rattle.std.specs.Prelude.{◌≡◌, ◌≤◌, length, map};
ghost use Rattle.sb_call.specs.Tags.{shape_of};
ghost use Rattle.sb_call.specs.Parameters.{parameter_words, parameter_word};

use crate::tags::CallTag;

/// The names of a call's parameters, in order: at most six.
pub fn parameter_words(tag: CallTag) -> &'static [&'static str]
    ensures words { map (λ word. word.now) result.now ≡ parameter_words tag }
    ensures many { length result.now ≡ length (shape_of tag) }
    ensures few { length result.now ≤ 6 }
{
    match tag {
        CallTag::Ping => &["cookie", "text"],
        CallTag::FileCreate => &[
            "name",
            "attributes",
            "access",
            "sharing",
            "disposition",
            "options",
        ],
        CallTag::FileOpen => &["name", "access", "sharing", "options"],
        CallTag::FileQuery => &["name"],
        CallTag::FileRename => &["name", "to"],
        CallTag::PipeCreate => &["name", "mode", "form", "instances"],
        CallTag::KeyCreate | CallTag::KeyOpen | CallTag::EventOpen => &["name", "access"],
        CallTag::EventCreate => &["name", "kind", "initial"],
        CallTag::HandleClose => &["handle"],
    }
}

/// The name of a parameter, and nothing if the call has no such parameter.
pub fn parameter_word(tag: CallTag, param: u32) -> &'static str
    ensures { result.now ≡ parameter_word tag param }
{
    match parameter_words(tag).get(param as usize) {
        Some(word) => *word,
        None => "",
    }
}
