ghost use Rattle.program_texts.specs.declared.companion_usage.TheConstants.{MAX_WHY};
ghost use Rattle.design_commands.specs.Mistakes.{misfit_text};
ghost use Rattle.std.specs.Prelude.{◌≡◌, ◌≤◌, length};

use edited_designs::EditMistake;

/// Why an argument isn't understood.
#[derive(Clone, Copy)]
pub enum Misfit {
    /// The program has no such command.
    NotACommand,
    /// The command needs a file after it.
    NoFile,
    /// The argument is empty, or too long for the name of a file.
    NotAFileName,
    /// No format has the ending of the file's name.
    NoFormat,
    /// The argument is no limit.
    NotALimit,
    /// The number of a limit is none, or out of its range.
    LimitRange,
    /// The file that is written has the name of the one that is read.
    IsInput,
    /// An edit is missing after the argument.
    NoEdit,
    /// The argument is no edit of a design.
    Edit(EditMistake),
    /// The command takes no such argument.
    NotUnderstood,
}

impl Misfit {
    /// Returns what is said of the argument.
    pub fn text(self) -> &'static [u8]
        ensures value { result.now ≡ misfit_text self }
        ensures short { length result.now ≤ MAX_WHY }
    {
        match self {
            Misfit::NotACommand => b"not a command",
            Misfit::NoFile => b"needs a file",
            Misfit::NotAFileName => b"not a file name",
            Misfit::NoFormat => b"no format has this ending",
            Misfit::NotALimit => b"not a limit",
            Misfit::LimitRange => b"from 0 to 1000",
            Misfit::IsInput => b"is the input",
            Misfit::NoEdit => b"needs an edit",
            Misfit::Edit(why) => why.text(),
            Misfit::NotUnderstood => b"not understood",
        }
    }
}

/// The first argument that isn't understood, and why.
#[derive(Clone, Copy)]
pub struct Mistake<'a> {
    pub word: &'a str,
    pub why: Misfit,
}
