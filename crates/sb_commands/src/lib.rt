// The arguments of the command line: which command they are, by one table of forms, and its values; what is wrong with others; and what the program
// prints about itself.
#![tactic(auto)]

mod audit_help;
mod check_help;
mod command_line;
mod commands;
mod dup_help;
mod file_names;
mod forms;
mod help_texts;
mod inquiries;
mod laws;
mod line_builder;
mod linked_help;
mod local_help;
mod make_help;
mod number_words;
mod replay_help;
mod run_help;
mod usage;
mod usage_faults;
mod usage_messages;
mod works;

pub use command_line::CommandValues;
pub use commands::{CommandWords, ThreadedWords, command_of};
pub use file_names::{FileNames, MAX_FILES};
pub use forms::{
    CommandForm, CommandHelp, FormNumber, FormOption, FormPlace, OptionKind, all_works, form_by,
    form_with, forms_text,
};
pub use inquiries::{Inquiry, inquiry_of, inquiry_text};
pub use laws::{commands_are_read, usage_messages_are_clean};
pub use number_words::number_of;
pub use usage_faults::UsageFault;
pub use usage_messages::usage_message;
pub use works::{PlainWork, ThreadedWork, Work};
