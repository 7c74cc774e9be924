ghost use Rattle.program_texts.specs.declared.companion_usage.TheConstants.{MAX_WHY};
ghost use Rattle.picture_commands.specs.Mistakes.{misfit_text};
ghost use Rattle.std.specs.Prelude.{◌≡◌, ◌≤◌, length};

/// Why an argument isn't understood.
#[derive(Clone, Copy, Debug, PartialEq)]
pub enum Misfit {
    /// The argument is empty, or too long for the name of a file.
    NotAFileName,
    /// The name of a picture is missing after the argument.
    NoPicture,
    /// The name of a picture ends in `.svg`.
    NotAPicture,
    /// The picture has the name of an input.
    IsInput,
    /// No format has the ending of the file's name, and a drawing has no hoop and no plain picture.
    NoFormat,
    /// The side of a hoop is no number, or out of its range.
    SideRange,
    /// The colour of a plain picture is none.
    NoColour,
    /// The size of a picture is none, or out of its range.
    NoSize,
    /// The program takes no such argument.
    NotUnderstood,
}

impl Misfit {
    /// Returns what is said of the argument.
    pub fn text(self) -> &'static [u8]
        ensures value { result.now ≡ misfit_text self }
        ensures short { length result.now ≤ MAX_WHY }
    {
        match self {
            Misfit::NotAFileName => b"not a file name",
            Misfit::NoPicture => b"needs the name of a picture",
            Misfit::NotAPicture => b"needs the ending .svg",
            Misfit::IsInput => b"is an input",
            Misfit::NoFormat => b"no format has this ending",
            Misfit::SideRange => b"from 1 to 100000",
            Misfit::NoColour => b"needs six hexadecimal digits",
            Misfit::NoSize => b"needs WxH, each from 10 to 2000",
            Misfit::NotUnderstood => b"not understood",
        }
    }
}

/// The first argument that isn't understood, and why.
#[derive(Clone, Copy)]
pub struct Mistake<'a> {
    pub word: &'a str,
    pub why: Misfit,
}
