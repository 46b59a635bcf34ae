// The names of a command's files, in their order in the command.
ghost use Rattle.std.specs.Prelude.{◌≡◌, ◌<◌, ◌≤◌, ◌+◌, ◌++◌, ◌∷◌, [], length, map, option_map};
ghost use Rattle.sb_commands.specs.Commands.{files_by, name_at, with_last_file, with_place};
ghost use Rattle.sb_commands.specs.Forms.{form_of, place_of};
ghost use Rattle.sb_commands.specs.Values.{values_of};

use crate::command_line::CommandValues;
use crate::forms::{CommandForm, FormPlace};
use std::marker::Model;

/// The most files that a command has.
pub const MAX_FILES: usize = 4;

/// The names of a command's files, in their order in the command. Contracts see these.
#[derive(Drop)]
pub struct FileNames<'a> {
    names: [&'a str; MAX_FILES],
    count: usize,
}

impl<'a> Model for FileNames<'a> {
    ghost use Rattle.std.specs.Prelude.{List, ℕ, ◌≤◌, map, take};

    ghost Value = { List (List ℕ) };

    ghost view = { λ files. map (λ name. name.now) (take files.count files.names) };

    ghost invariant = { λ files. files.count ≤ 4 };
}

impl<'a> FileNames<'a> {
    /// No files.
    pub fn none() -> FileNames<'a>
        ensures { result ≡ [] }
    {
        FileNames {
            names: [""; MAX_FILES],
            count: 0,
        }
    }

    // One file more.
    fn push(&mut self, name: &'a str)
        requires room { length self.old < 4 }
        ensures { self.new ≡ self.old ++ name.entry.now ∷ [] }
    {
        self.names[self.count] = name;
        self.count += 1;
    }

    // What is at a place, if there is such a place, and it is that of a file.
    fn push_at(&mut self, place: Option<&FormPlace<'static>>, word: &'a str)
        requires room { length self.old < 4 }
        ensures names { self.new ≡ with_place (option_map (λ p. place_of p.now) place.entry) word.entry.now self.old }
        ensures room { length self.new ≤ length self.old + 1 }
    {
        if let Some(FormPlace::File(_)) = place {
            self.push(word);
        }
    }

    // The file that may be left out, in a form that has one.
    fn push_last(&mut self, last: Option<&'static str>, name: Option<&'a str>)
        requires room { length self.old < 4 }
        ensures { self.new ≡ with_last_file (option_map (λ n. n.now) last.entry) (option_map (λ n. n.now) name.entry) self.old }
    {
        if last.is_none() {
            return;
        }
        if let Some(name) = name {
            self.push(name);
        }
    }

    /// The files of a command of this form with these values.
    pub(crate) fn of(form: CommandForm<'static>, values: CommandValues<'a>) -> FileNames<'a>
        ensures { result ≡ files_by (form_of form.entry) (values_of values.entry) }
    {
        let mut files = FileNames::none();
        files.push_at(form.places.first(), values.first);
        files.push_at(form.places.get(1), values.second);
        files.push_at(form.places.get(2), values.third);
        files.push_last(form.last, values.last);
        files
    }

    /// All names.
    pub fn as_slice(&self) -> &[&'a str]
        ensures { map (λ name. name.now) result.now ≡ self.now }
    {
        &self.names[..self.count]
    }

    /// The name of file `which`, from 1; empty if there is no such file.
    pub fn name(&self, which: u8) -> &'a str
        ensures { result.now ≡ name_at which self.now }
    {
        let names = self.as_slice();
        let mut place = which;
        for name in names {
            if place == 1 {
                return *name;
            }
            place = place.saturating_sub(1);
        }
        ""
    }
}
