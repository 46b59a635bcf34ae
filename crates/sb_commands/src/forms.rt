// The forms of all commands, in one table.
ghost use Rattle.std.specs.Prelude.{◌≡◌, map, option_map};
ghost use Rattle.sb_commands.specs.Forms.{form_by, form_in, form_of, form_with, forms, works};
ghost use Rattle.sb_commands.specs.declared.works.Work.TheVariants.{Plain};
ghost use Rattle.sb_commands.specs.UsageMessages.{forms_text};

use crate::works::{PlainWork, ThreadedWork, Work};
use crate::{
    audit_help, check_help, dup_help, linked_help, local_help, make_help, replay_help, run_help,
};

/// A number from the lowest to the highest, by its name.
#[derive(Clone, Copy)]
pub struct FormNumber<'a> {
    /// How the usage line names it.
    pub name: &'a str,
    /// The lowest.
    pub low: u64,
    /// The highest.
    pub high: u64,
}

/// What is at a place of a command.
#[derive(Clone, Copy)]
pub enum FormPlace<'a> {
    /// The name of a file.
    File(&'a str),
    /// A number.
    Number(FormNumber<'a>),
    /// Any word.
    Word(&'a str),
}

/// What an option takes.
#[derive(Clone, Copy)]
pub enum OptionKind<'a> {
    /// Nothing: it is given or not.
    Switch,
    /// A number: `--FLAG N` or `--FLAG=N`.
    Number(FormNumber<'a>),
}

/// An option.
#[derive(Clone, Copy)]
pub struct FormOption<'a> {
    /// Its name without `--`.
    pub flag: &'a str,
    /// What it takes.
    pub kind: OptionKind<'a>,
    /// Its number if it is not given, if there is such a number.
    pub default: Option<u64>,
}

/// What the help of a command has beside its form and the faults of its files.
#[derive(Clone, Copy)]
pub struct CommandHelp<'a> {
    /// What there is to know, and an example, in whole lines.
    pub about: &'a str,
    /// The parts that come last, each in whole lines: its exit statuses are one.
    pub after: &'a [&'a str],
}

/// How a command is written, and what it does.
#[derive(Clone, Copy)]
pub struct CommandForm<'a> {
    /// What it does.
    pub work: Work,
    /// Its name.
    pub name: &'a str,
    /// What is at its places, at most three.
    pub places: &'a [FormPlace<'a>],
    /// A file that may be left out, after the places.
    pub last: Option<&'a str>,
    /// The options, at most two. Each is before the places or after all files, and is given once at most.
    pub options: &'a [FormOption<'a>],
    /// What the command does, in one line.
    pub does: &'a str,
    /// What its help has beside this.
    pub help: CommandHelp<'a>,
}

const POLICY: FormPlace<'static> = FormPlace::File("POLICY");

const SCRIPT: FormPlace<'static> = FormPlace::File("SCRIPT");

const CHECK: CommandForm<'static> = CommandForm {
    work: Work::Plain(PlainWork::Check),
    name: "check",
    places: &[POLICY],
    last: None,
    options: &[],
    does: "print the policies of POLICY, and the code by which calls are judged",
    help: check_help::HELP,
};

const REPLAY: CommandForm<'static> = CommandForm {
    work: Work::Plain(PlainWork::Replay),
    name: "replay",
    places: &[POLICY, SCRIPT],
    last: Some("SCHEDULE"),
    options: &[],
    does: "run SCRIPT under POLICY as SCHEDULE says, and print the transcript",
    help: replay_help::HELP,
};

const RUN: CommandForm<'static> = CommandForm {
    work: Work::Threaded(ThreadedWork::Run),
    name: "run",
    places: &[POLICY, SCRIPT],
    last: None,
    options: &[FormOption {
        flag: "workers",
        kind: OptionKind::Number(FormNumber {
            name: "N",
            low: 1,
            high: 8,
        }),
        default: Some(2),
    }],
    does: "run SCRIPT under POLICY on threads, and print the transcript",
    help: run_help::HELP,
};

const MAKE: CommandForm<'static> = CommandForm {
    work: Work::Threaded(ThreadedWork::Make),
    name: "make",
    places: &[
        FormPlace::Number(FormNumber {
            name: "SEED",
            low: 0,
            high: u64::MAX,
        }),
        FormPlace::Number(FormNumber {
            name: "TARGETS",
            low: 1,
            high: 8,
        }),
        FormPlace::Number(FormNumber {
            name: "CALLS",
            low: 1,
            high: 4_096,
        }),
    ],
    last: None,
    options: &[],
    does: "make a script from SEED, run it on threads, and print its totals",
    help: make_help::HELP,
};

const LINKED: CommandForm<'static> = CommandForm {
    work: Work::Plain(PlainWork::Linked),
    name: "linked",
    places: &[POLICY, SCRIPT, FormPlace::File("LINKS")],
    last: None,
    options: &[],
    does: "answer the calls of SCRIPT under POLICY, with the links of LINKS resolved",
    help: linked_help::HELP,
};

const DUP: CommandForm<'static> = CommandForm {
    work: Work::Plain(PlainWork::Dup),
    name: "dup",
    places: &[POLICY, SCRIPT, FormPlace::File("MOVES")],
    last: None,
    options: &[],
    does: "run SCRIPT under POLICY, then pass handles between targets as MOVES says",
    help: dup_help::HELP,
};

const LOCAL: CommandForm<'static> = CommandForm {
    work: Work::Plain(PlainWork::Local),
    name: "local",
    places: &[POLICY, SCRIPT],
    last: Some("SCHEDULE"),
    options: &[],
    does: "leave out the calls of SCRIPT that POLICY denies, and run the rest",
    help: local_help::HELP,
};

const AUDIT: CommandForm<'static> = CommandForm {
    work: Work::Plain(PlainWork::Audit),
    name: "audit",
    places: &[POLICY, SCRIPT, FormPlace::File("TRANSCRIPT")],
    last: None,
    options: &[],
    does: "check TRANSCRIPT against what the broker promises of SCRIPT under POLICY",
    help: audit_help::HELP,
};

const WORKS: &'static [Work] = &[
    Work::Plain(PlainWork::Check),
    Work::Plain(PlainWork::Replay),
    Work::Threaded(ThreadedWork::Run),
    Work::Threaded(ThreadedWork::Make),
    Work::Plain(PlainWork::Linked),
    Work::Plain(PlainWork::Dup),
    Work::Plain(PlainWork::Local),
    Work::Plain(PlainWork::Audit),
];

// The forms of the table as they are written, one after another.
const FORMS_TEXT: &str =
    "check POLICY, replay POLICY SCRIPT [SCHEDULE], run POLICY SCRIPT [--workers N], make SEED TARGETS CALLS, linked POLICY SCRIPT LINKS, dup POLICY SCRIPT MOVES, local POLICY SCRIPT [SCHEDULE], audit POLICY SCRIPT TRANSCRIPT";

/// What commands do, in the order in which they are listed.
pub fn all_works() -> &'static [Work]
    ensures { result.now ≡ works }
{
    WORKS
}

fn plain_form(work: PlainWork) -> CommandForm<'static>
    ensures { form_of result ≡ form_with (Plain work) }
{
    match work {
        PlainWork::Check => CHECK,
        PlainWork::Replay => REPLAY,
        PlainWork::Linked => LINKED,
        PlainWork::Dup => DUP,
        PlainWork::Local => LOCAL,
        PlainWork::Audit => AUDIT,
    }
}

/// The form of the command that does this.
pub fn form_with(work: Work) -> CommandForm<'static>
    ensures { form_of result ≡ form_with work }
{
    match work {
        Work::Plain(work) => plain_form(work),
        Work::Threaded(ThreadedWork::Run) => RUN,
        Work::Threaded(ThreadedWork::Make) => MAKE,
    }
}

/// All commands as they are written, in one line: what the usage line lists.
pub fn forms_text() -> &'static str
    ensures { result.now ≡ forms_text forms }
{
    FORMS_TEXT
}

// The first form of this name among those of commands that do this.
fn form_among(works: &[Work], name: &str) -> Option<CommandForm<'static>>
    ensures { option_map form_of result ≡ form_in (map form_with works.now) name.now }
{
    for work in works {
        let form = form_with(*work);
        if name == form.name {
            return Some(form);
        }
    }
    None
}

/// The form of the command of this name.
pub fn form_by(name: &str) -> Option<CommandForm<'static>>
    ensures { option_map form_of result ≡ form_by name.now }
{
    form_among(all_works(), name)
}
