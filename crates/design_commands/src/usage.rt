ghost use Rattle.program_texts.specs.CompanionUsage.{usage_with};
ghost use Rattle.program_texts.specs.declared.companion_usage.TheConstants.{MAX_USAGE};
ghost use Rattle.design_commands.specs.Mistakes.{mistaken_word};
ghost use Rattle.design_commands.specs.Usage.{design_program_name, design_usage_text};
ghost use Rattle.std.specs.Prelude.{◌≡◌, ◌≤◌, length, option_map};

use crate::mistake::Mistake;
use program_texts::{UsageText, usage_after, usage_alone};

/// The name of the program, with which each line on the standard error begins.
pub const NAME: &[u8] = b"stitch_design";

/// Returns the usage text.
#[tactic(auto, unfolding(crate::specs::Usage::design_usage_text))]
pub fn usage() -> &'static [u8]
    ensures value { result.now ≡ design_usage_text }
    ensures short { length result.now ≤ MAX_USAGE }
{
    b"usage: stitch_design look FILE [KEY=N...]\n       stitch_design pass FILE [KEY=N...]\n       stitch_design edit IN OUT EDIT...\n       stitch_design compare A B [--threads]\n       stitch_design threads [FILE]\n       stitch_design --help\n       stitch_design --version\n"
}

/// Returns the usage text after a mistake, if there is one.
pub fn usage_text(mistake: Option<Mistake<'_>>) -> UsageText
    ensures { result.items
        ≡ usage_with design_program_name design_usage_text (option_map mistaken_word mistake.entry) }
{
    match mistake {
        Some(mistake) => usage_after(NAME, usage(), mistake.word, mistake.why.text()),
        None => usage_alone(usage()),
    }
}
