ghost use Rattle.program_texts.specs.declared.companion_usage.TheConstants.{MAX_WHY};
ghost use Rattle.drawing_commands.specs.Mistakes.{misfit_text};
ghost use Rattle.std.specs.Prelude.{◌≡◌, ◌≤◌, length};

/// Why an argument isn't understood.
#[derive(Clone, Copy)]
pub enum Misfit {
    /// The program has no such command.
    NotACommand,
    /// A file is missing after the argument.
    NoFile,
    /// The argument is empty, or too long for the name of a file.
    NotAFileName,
    /// The file that is written has the name of the one that is read.
    IsInput,
    /// The gap is missing after the argument.
    NoGap,
    /// The gap is no number, or out of its range.
    GapRange,
    /// The length is no number, or out of its range.
    LengthRange,
    /// The leeway is no number, or out of its range.
    LeewayRange,
    /// An edit is missing after the argument.
    NoEdit,
    /// The argument is no edit of a drawing.
    NotAnEdit,
    /// The command takes no such argument.
    NotUnderstood,
}

impl Misfit {
    /// Returns what is said of the argument.
    pub fn text(self) -> &'static [u8]
        ensures value { result.now ≡ misfit_text self }
        ensures short { length result.now ≤ MAX_WHY }
    {
        match self {
            Misfit::NotACommand => b"not a command",
            Misfit::NoFile => b"needs a file",
            Misfit::NotAFileName => b"not a file name",
            Misfit::IsInput => b"is the input",
            Misfit::NoGap => b"needs a gap",
            Misfit::GapRange => b"from 0 to 100",
            Misfit::LengthRange => b"from 1 to 2047",
            Misfit::LeewayRange => b"from 0 to 100",
            Misfit::NoEdit => b"needs an edit",
            Misfit::NotAnEdit => b"not an edit",
            Misfit::NotUnderstood => b"not understood",
        }
    }
}

/// The first argument that isn't understood, and why.
#[derive(Clone, Copy)]
pub struct Mistake<'a> {
    pub word: &'a str,
    pub why: Misfit,
}
