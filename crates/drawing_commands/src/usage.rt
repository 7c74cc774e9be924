ghost use Rattle.program_texts.specs.CompanionUsage.{usage_with};
ghost use Rattle.program_texts.specs.declared.companion_usage.TheConstants.{MAX_USAGE};
ghost use Rattle.drawing_commands.specs.Mistakes.{mistaken_word};
ghost use Rattle.drawing_commands.specs.Usage.{drawing_program_name, drawing_usage_text};
ghost use Rattle.std.specs.Prelude.{◌≡◌, ◌≤◌, length, option_map};

use crate::mistake::Mistake;
use program_texts::{UsageText, usage_after, usage_alone};

/// The name of the program, with which each line on the standard error begins.
pub const NAME: &[u8] = b"stitch_drawing";

/// Returns the usage text.
#[tactic(auto, unfolding(crate::specs::Usage::drawing_usage_text))]
pub fn usage() -> &'static [u8]
    ensures value { result.now ≡ drawing_usage_text }
    ensures short { length result.now ≤ MAX_USAGE }
{
    b"usage: stitch_drawing look DRAWING [GAP]\n       stitch_drawing snap GAP DRAWING OUT [--keep]\n       stitch_drawing cross DRAWING OUT [--keep]\n       stitch_drawing space DRAWING OUT [length=N] [leeway=N]\n       stitch_drawing free DRAWING OUT\n       stitch_drawing near DRAWING OUT\n       stitch_drawing edit DRAWING OUT EDIT...\n       stitch_drawing --help\n       stitch_drawing --version\n"
}

/// Returns the usage text after a mistake, if there is one.
pub fn usage_text(mistake: Option<Mistake<'_>>) -> UsageText
    ensures { result.items
        ≡ usage_with drawing_program_name drawing_usage_text (option_map mistaken_word mistake.entry) }
{
    match mistake {
        Some(mistake) => usage_after(NAME, usage(), mistake.word, mistake.why.text()),
        None => usage_alone(usage()),
    }
}
