// Reading texts of links.
ghost use Rattle.std.specs.Prelude.{◌≡◌, ◌<◌, ◌+◌, ◌^◌, [], None, length};
ghost use Rattle.sb_base.specs.Refusals.{Gives};
ghost use Rattle.sb_base.specs.declared.refusals.Refused.TheVariants.{Fault};
ghost use Rattle.sb_text.specs.Tokens.{by_tokens};
ghost use Rattle.sb_text.specs.Steps.{Becomes, Reads};
ghost use Rattle.sb_text.specs.declared.refusals.WordFault.TheVariants.{NoVersion};
ghost use Rattle.sb_link.specs.LinkTexts.{grammar, link_at, new_link, read_link, reading, string_at};
ghost use Rattle.sb_link.specs.declared.faults.LinkKind.TheVariants.{UnknownWord};

use crate::faults::{LineRefused, LinkKind, LinksRefused};
use crate::links::{Link, Links, MAX_LINKS, is_link_name};
use sb_base::Wide;
use sb_text::{
    Layout, Line, Lines, TextGrammar, TokenFault, Tokens, WordFault, end_at, quoted_at, read_text,
    string_of, version_at, word_at,
};
use std::alloc::Global;

// The faults of a quoted token in place of a word and of a word in place of a quoted token, of a token that breaks the rules, of none,
// and of an extra one.
const QUOTED: LinkKind = LinkKind::UnknownWord(WordFault::Quoted);

const UNQUOTED: LinkKind = LinkKind::UnknownWord(WordFault::Unquoted);

const BROKEN: LinkKind = LinkKind::UnknownWord(WordFault::Broken);

const MISSING: LinkKind = LinkKind::UnknownWord(WordFault::Missing);

const EXTRA: LinkKind = LinkKind::UnknownWord(WordFault::Extra);

// A string between quotes.
#[tactic(auto, unfolding(crate::specs::LinkTexts::string_at))]
fn string_at(alloc: Global, tokens: &mut Tokens) -> Result<Wide, LineRefused>
    ensures { Reads (string_at tokens.old) result tokens.new }
{
    let quoted = quoted_at(UNQUOTED, BROKEN, MISSING, tokens)?;
    Ok(string_of(alloc, quoted)?)
}

// A link, and where its line has what: a place is the number of bytes from there to the line's end.
#[derive(Drop)]
pub(crate) struct LinkLine {
    // What the line says.
    link: Link,
    // The place of its word.
    word: usize,
    // The place of FROM.
    from: usize,
    // The place of TO.
    to: usize,
}

// The rest of a line after its word: `"FROM" "TO"`.
#[tactic(auto, unfolding(crate::specs::LinkTexts::link_at))]
fn link_at(alloc: Global, line: &Tokens, tokens: &mut Tokens) -> Result<LinkLine, LineRefused>
    ensures { Gives (link_at line.now tokens.old) result }
{
    let from_place = tokens.place();
    let from = string_at(alloc, tokens)?;
    let to_place = tokens.place();
    let to = string_at(alloc, tokens)?;
    end_at(EXTRA, BROKEN, tokens)?;
    Ok(LinkLine {
        link: Link { from, to },
        word: line.place(),
        from: from_place,
        to: to_place,
    })
}

// A line: `link "FROM" "TO"`.
#[tactic(auto, unfolding(crate::specs::LinkTexts::read_link))]
fn read_link(alloc: Global, line: &Tokens) -> Result<LinkLine, LineRefused>
    ensures { Gives (read_link line.now) result }
{
    let mut tokens = line.copy();
    if word_at(QUOTED, BROKEN, MISSING, &mut tokens)? != b"link".as_slice() {
        return Err(line.fail(LinkKind::UnknownWord(WordFault::Unknown)));
    }
    link_at(alloc, line, &mut tokens)
}

// This fault at this place of a line.
fn fail_at(place: usize, kind: LinkKind) -> LineRefused
    ensures { result ≡ Fault (record { place = place; kind = kind }) }
{
    LineRefused::Fault(TokenFault { place, kind })
}

// Adds the link of a line. After an error the links are as they were.
fn new_link(links: &mut Links, line: LinkLine) -> Result<(), LineRefused>
    ensures { Becomes (new_link links.old line) result links.new }
{
    if !is_link_name(line.link.from.as_units()) {
        return Err(fail_at(line.from, LinkKind::BadName));
    }
    if !is_link_name(line.link.to.as_units()) {
        return Err(fail_at(line.to, LinkKind::BadName));
    }
    if links.has_from(line.link.from.as_units()) {
        return Err(fail_at(line.from, LinkKind::SameName));
    }
    if links.len() >= MAX_LINKS {
        return Err(fail_at(line.word, LinkKind::TooMany));
    }
    links.push(line.link)?;
    Ok(())
}

// Texts of links.
#[derive(Drop)]
struct LinkGrammar {
    alloc: Global,
}

impl<'b> TextGrammar<Lines<'b>> for LinkGrammar {
    type Draft = Links;

    type Kind = LinkKind;

    ghost grammar = { λ texts. grammar };

    fn layout(&self) -> Layout
        ensures { result ≡ by_tokens }
    {
        Layout::Text
    }

    fn version(&self, line: &Line<'b>) -> Result<u32, LineRefused> {
        version_at(
            LinkKind::UnknownWord(WordFault::NoVersion),
            b"sandbox-links",
            1,
            &line.tokens(),
        )
    }

    fn no_version(&self) -> LinkKind
        ensures { result ≡ UnknownWord NoVersion }
    {
        LinkKind::UnknownWord(WordFault::NoVersion)
    }

    fn start(&self) -> Links
        ensures { result ≡ [] }
    {
        Links::empty(self.alloc)
    }

    fn add(&self, _version: u32, links: &mut Links, line: &Line<'b>) -> Result<(), LineRefused> {
        let link = read_link(self.alloc, &line.tokens())?;
        new_link(links, link)
    }
}

/// The links of a text, or its first fault. The text has fewer than 2^32 - 1 bytes.
///
/// The grammar of these texts is that of this project: the line `sandbox-links 1`, then lines `link "FROM" "TO"`.
///
/// # Errors
/// `Fault` exactly if the text has a fault: that it is not UTF-8 before all others, then the first one by lines from the top, and within a
/// line by the number of its kind and then from the left, with its line and column. `NoMemory` if there was none for the links.
pub fn read_links(alloc: Global, text: &[u8]) -> Result<Links, LinksRefused>
    requires short { length text.now + 1 < 2 ^ 32 }
    ensures exactly { Gives (reading text.now) result }
{
    read_text(&LinkGrammar { alloc }, LinkKind::NotUtf8, text)
}
