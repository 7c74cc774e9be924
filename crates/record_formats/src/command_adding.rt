ghost use Rattle.design_model.specs.Designs.{with_command};
ghost use Rattle.record_formats.specs.CommandAdding.{AddsCommands, SameButCommands};
ghost use Rattle.std.specs.Prelude.{◌≡◌, ◌⊎◌, [], ◌∷◌, OnErr};

use design_model::{Command, Design, ModelFault};
use format_traits::ReadFault;

/// Adds the command of the record at an offset to a design. `Range` is tested first. After an error the
/// design is unchanged.
pub fn keep(design: &mut Design, at: u64, command: Command) -> Result<(), ReadFault>
    ensures value { AddsCommands at (command ∷ []) design.old result design.new }
    ensures err { OnErr result (design.new ≡ design.old) }
    ensures others { SameButCommands design.old design.new }
{
    match design.push(command) {
        Ok(()) => Ok(()),
        Err(ModelFault::Range) => Err(ReadFault::Range { at }),
        Err(ModelFault::TooMany) => Err(ReadFault::TooMany { at }),
        Err(ModelFault::Memory) => Err(ReadFault::Memory),
    }
}

/// Adds the two commands of the record at an offset, in order. If the second is refused, the first stays.
#[tactic(auto, using(crate::proofs::CommandAddingLemmas::same_on))]
pub fn keep_both(
    design: &mut Design,
    at: u64,
    first: Command,
    second: Command,
) -> Result<(), ReadFault>
    ensures value { AddsCommands at (first ∷ second ∷ []) design.old result design.new }
    ensures err { OnErr result
        ((design.new ≡ design.old) ⊎ (design.new ≡ with_command design.old first)) }
    ensures others { SameButCommands design.old design.new }
{
    keep(design, at, first)?;
    keep(design, at, second)
}
