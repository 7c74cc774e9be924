ghost use Rattle.program_texts.specs.CompanionUsage.{usage_with};
ghost use Rattle.program_texts.specs.declared.companion_usage.TheConstants.{MAX_USAGE};
ghost use Rattle.picture_commands.specs.Mistakes.{mistaken_word};
ghost use Rattle.picture_commands.specs.Usage.{picture_program_name, picture_usage};
ghost use Rattle.std.specs.Prelude.{◌≡◌, ◌≤◌, length, option_map};

use crate::mistake::Mistake;
use program_texts::{UsageText, usage_after, usage_alone};

/// The name of the program.
pub const PROGRAM: &[u8] = b"stitch_picture";

/// Returns the usage text.
pub fn usage() -> &'static [u8]
    ensures value { result.now ≡ picture_usage }
    ensures short { length result.now ≤ MAX_USAGE }
{
    b"usage: stitch_picture FILE OUT.svg [WIDTH HEIGHT] [size=WxH]\n       stitch_picture FILE OUT.svg plain[=RRGGBB] [size=WxH]\n       stitch_picture DRAWING OUT.svg [size=WxH]\n       stitch_picture DRAWING CERT OUT.svg [size=WxH]\n       stitch_picture --help\n       stitch_picture --version\n"
}

/// Returns the usage text after a mistake, if there is one.
pub fn usage_text(mistake: Option<Mistake<'_>>) -> UsageText
    ensures { result.items
        ≡ usage_with picture_program_name picture_usage (option_map mistaken_word mistake.entry) }
{
    match mistake {
        Some(mistake) => usage_after(PROGRAM, usage(), mistake.word, mistake.why.text()),
        None => usage_alone(usage()),
    }
}
