// Steps as C sees them, and what C found.
ghost use Rattle.std.specs.Prelude.{◌≡◌};
ghost use Rattle.sb_c.specs.Steps.{plain_step, step_shown};

use crate::shapes::Step;
use sb_actor::Act;

fn plain_step(kind: u32) -> Step
    ensures { result ≡ plain_step kind }
{
    Step {
        kind,
        channel: 0,
        word: 0,
        room: 0,
        expected: 0,
        value: 0,
    }
}

/// A step as C sees it. A worker and a call are at words of their own target alone.
pub(crate) fn step_shown(act: Act) -> Step
    ensures { result ≡ step_shown act }
{
    match act {
        Act::Idle => plain_step(0),
        Act::Load { word, .. } => Step {
            kind: 1,
            channel: word.channel,
            word: word.at,
            room: 0,
            expected: 0,
            value: 0,
        },
        Act::Store { word, value, .. } => Step {
            kind: 2,
            channel: word.channel,
            word: word.at,
            room: 0,
            expected: 0,
            value,
        },
        Act::Exchange { word, from, to, .. } => Step {
            kind: 3,
            channel: word.channel,
            word: word.at,
            room: 0,
            expected: from,
            value: to,
        },
        Act::Take => plain_step(4),
        Act::Answer => plain_step(5),
        Act::Give => plain_step(6),
    }
}
