// The command `linked`: the calls of a script are answered under policies with their names resolved by links, and a line for each is put.
ghost use Rattle.std.specs.Prelude.{◌≡◌, IfErr, IfOk};
ghost use Rattle.sb_plain.specs.Linked.{calls_end, calls_text, links_of};
ghost use Rattle.sb_plain.specs.Readings.{Gives, IsOfText, reported};

use crate::driver::{LaterFile, MAX_BYTES};
use crate::ends::CommandEnd;
use crate::file_texts::FileText;
use crate::refusals::Refused;
use sb_base::NoMemory;
use sb_book::{OpenedScript, RunStart};
use sb_compile::Programs;
use sb_link::{Links, answer_script, read_links};
use sb_statements::SoundScript;
use std::alloc::Global;

// The links of a text.
fn links_of(alloc: Global, text: FileText) -> Result<Links, Refused>
    ensures given { Gives (λ l. l) (links_of text) result }
    ensures refused { IfErr result (λ refusal. IsOfText refusal.why) }
{
    match read_links(alloc, text.bytes()) {
        Ok(links) => Ok(links),
        Err(refused) => Err(text.refused(refused)),
    }
}

/// The file after the script has links.
pub struct LinksFile;

impl LaterFile for LinksFile {
    type Value = Links;

    ghost use Rattle.std.specs.Prelude.{⊤};
    ghost use Rattle.sb_plain.specs.Contents.{most_bytes};
    ghost use Rattle.sb_plain.specs.Linked.{links_of};
    ghost use Rattle.sb_plain.specs.ScriptEnds.{is_named, needed};

    ghost most = { λ _. most_bytes };

    ghost reads = { λ _ script. needed links_of };

    ghost named = { λ _. is_named };

    ghost suits = { λ _ script links. ⊤ };

    fn most_bytes(&self) -> u64 {
        MAX_BYTES
    }

    fn read(
        &self,
        alloc: Global,
        _script: &SoundScript,
        text: Option<FileText>,
    ) -> Result<Links, Refused> {
        match text {
            Some(text) => links_of(alloc, text),
            None => Err(Refused::missing(3)),
        }
    }
}

// The lines of the answers to the calls of a script that was read, which are judged by the programs of the policies.
#[tactic(auto, unfolding(crate::specs::Linked::calls_text))]
fn calls_text(alloc: Global, opened: OpenedScript, links: Links) -> Result<Vec<u8>, NoMemory>
    ensures { IfOk result (λ text. text.items ≡ calls_text opened.policies opened.script links) }
{
    let (ready, kernel) = opened.into_parts();
    let judge = Programs::new(alloc, ready.policies(), ready.script())?;
    let book = answer_script(alloc, &judge, RunStart::of(&ready, kernel), links)?;
    book.text(alloc, ready.script())
}

/// The command `linked`: the calls of a script that was read are answered with their names resolved by links, and the lines of the answers are put.
///
/// # Errors
/// `NoMemory` if there was none for the answers or their lines.
pub fn linked_script(
    alloc: Global,
    opened: OpenedScript,
    links: Links,
) -> Result<CommandEnd, NoMemory>
    ensures { IfOk result (λ end. end ≡ reported (calls_end opened.policies opened.script links)) }
{
    let text = calls_text(alloc, opened, links)?;
    CommandEnd::with_text(alloc, text)
}
