ghost use Rattle.design_model.specs.ActPositions.{is_act_in_range};
ghost use Rattle.design_model.specs.Commands.{is_command_in_range};
ghost use Rattle.design_model.specs.declared.act.Act.{Act as ActValue};
ghost use Rattle.design_model.specs.Points.{is_point_within};
ghost use Rattle.design_model.specs.declared.act.Act.TheVariants as act;
ghost use Rattle.design_model.specs.declared.command.Command.{Command as CommandValue};
ghost use Rattle.design_model.specs.declared.point.TheConstants.{NEEDLE_LIMIT};
ghost use Rattle.design_rewrites.specs.WrittenActs.{WritesActs, WritesCommands};
ghost use Rattle.std.specs.Prelude.{◌∷◌, List, IsTrue};

use crate::rewrite_fault::RewriteFault;
use design_model::{Act, Command, Design, MAX_COMMANDS, Point};

/// Adds a command in its range at the end of a design.
pub fn put_command(out: &mut Design, command: Command) -> Result<(), RewriteFault>
    requires { IsTrue (is_command_in_range command) }
    ensures { (rest : List CommandValue) → WritesCommands (command ∷ rest) rest out.old result out.new }
{
    if out.commands().len() == MAX_COMMANDS {
        return Err(RewriteFault::TooMany);
    }
    out.add(command)?;
    Ok(())
}

/// Adds the commands of an act at the end of a design: a jump and a stitch for a float, one command for each other act.
#[tactic(auto, using(crate::proofs::CallerLemmas::acts_by_commands))]
pub fn put_act(out: &mut Design, act: Act) -> Result<(), RewriteFault>
    requires { IsTrue (is_act_in_range act) }
    ensures { (rest : List ActValue) → WritesActs (act ∷ rest) rest out.old result out.new }
{
    match act {
        Act::Needle { at, float } => put_needle(out, at, float),
        Act::Trim => put_command(out, Command::Trim),
        Act::Stop => put_command(out, Command::Stop),
    }
}

/// Adds the commands of a needle act.
#[tactic(auto, using(crate::proofs::CallerLemmas::acts_by_commands))]
fn put_needle(out: &mut Design, at: Point, float: bool) -> Result<(), RewriteFault>
    requires { IsTrue (is_point_within NEEDLE_LIMIT at) }
    ensures { (rest : List ActValue) → WritesActs (act.Needle at float ∷ rest) rest out.old result out.new }
{
    if float {
        return put_two(out, Command::Jump(at), Command::Stitch(at));
    }
    put_command(out, Command::Stitch(at))
}

#[tactic(auto, using(crate::proofs::CallerLemmas::writes_next))]
fn put_two(out: &mut Design, first: Command, second: Command) -> Result<(), RewriteFault>
    requires first { IsTrue (is_command_in_range first) }
    requires second { IsTrue (is_command_in_range second) }
    ensures { (rest : List CommandValue) → WritesCommands (first ∷ second ∷ rest) rest
        out.old result out.new }
{
    put_command(out, first)?;
    put_command(out, second)
}
