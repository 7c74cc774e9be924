ghost use Rattle.design_model.specs.ActPositions.{is_act_in_range};
ghost use Rattle.design_model.specs.Commands.{is_command_in_range};
ghost use Rattle.design_model.specs.Points.{origin};
ghost use Rattle.design_model.specs.declared.act.NumberedAct.{NumberedAct as NumberedActValue};
ghost use Rattle.design_model.specs.declared.command.Command.TheVariants as command;
ghost use Rattle.design_model.specs.declared.design.TheConstants.{MAX_COMMANDS};
ghost use Rattle.std.specs.Prelude.{◌≡◌, ◌≢◌, ◌≤◌, [], ◌∷◌, ◌++◌, List, option_to_list, length, map, true, All, IfErr, IfSome, OnOk, IsTrue};
ghost use Rattle.step_splitter.specs.Chains.{IsNeedlePoint};
ghost use Rattle.step_splitter.specs.RefitSteps.{AddsRefitCommands, IsRefitState, RefuseActs};
ghost use Rattle.step_splitter.specs.Refits.{commands_of_acts, cut_needle, is_beyond_limit, needles_at, refitted_act, split_needle};
ghost use Rattle.step_splitter.specs.Steps.{split_points};
ghost use Rattle.step_splitter.specs.declared.segment.TheConstants.{MAX_STEP};

use crate::refitting::{RefitFault, RefitMode};
use crate::segment::split;
use design_model::{Act, Command, Design, MAX_COMMANDS, NumberedAct, Point};
use std::alloc::Global;

/// The state of a refit between two acts: whether the thread is loose, and where the last needle act was.
#[derive(Clone, Copy)]
pub struct RefitState {
    pub loose: bool,
    pub place: Point,
}

impl RefitState {
    pub fn new() -> Self
        ensures loose { result.loose ≡ true }
        ensures place { result.place ≡ origin }
    {
        RefitState {
            loose: true,
            place: Point { x: 0, y: 0 },
        }
    }

    /// Adds the commands for the next act, if there is one, and updates the state.
    #[tactic(auto, using(crate::proofs::RefitLemmas::goes_on, crate::proofs::RefitLemmas::refused))]
    pub fn put_next(
        &mut self,
        alloc: Global,
        out: &mut Design,
        limit: u32,
        mode: RefitMode,
        next: Option<NumberedAct>,
    ) -> Result<(), RefitFault>
        requires low { 1 ≤ limit }
        requires high { limit ≤ MAX_STEP }
        requires place { IsNeedlePoint self.old.place }
        requires next { IfSome next (λ a. IsTrue (is_act_in_range a.act)) }
        requires room { length out.old.commands ≤ MAX_COMMANDS }
        ensures goes_on { OnOk result ((acts left : List NumberedActValue)
            → IsRefitState mode limit acts out.old.commands self.old.loose self.old.place
            (option_to_list next ++ left)
            → IsRefitState mode limit acts out.new.commands self.new.loose self.new.place left) }
        ensures passes { IfErr result (λ fault. (acts left : List NumberedActValue)
            → IsRefitState mode limit acts out.old.commands self.old.loose self.old.place
            (option_to_list next ++ left)
            → RefuseActs mode limit acts fault) }
        ensures others { OnOk result (out.new ≡ record out.old { commands = out.new.commands }) }
        ensures room { OnOk result (length out.new.commands ≤ MAX_COMMANDS) }
        ensures place { OnOk result (IsNeedlePoint self.new.place) }
    {
        let Some(act) = next else {
            return Ok(());
        };
        if let Err(fault) = put_refitted(alloc, out, limit, mode, self, act) {
            return Err(fault);
        }
        self.loose = act.act.is_loose_after();
        self.place = act.act.place_after(self.place);
        Ok(())
    }
}

/// Adds the commands for an act.
fn put_refitted(
    alloc: Global,
    out: &mut Design,
    limit: u32,
    mode: RefitMode,
    before: &RefitState,
    act: NumberedAct,
) -> Result<(), RefitFault>
    requires low { 1 ≤ limit }
    requires high { limit ≤ MAX_STEP }
    requires place { IsNeedlePoint before.now.place }
    requires act { IsTrue (is_act_in_range act.act) }
    requires room { length out.old.commands ≤ MAX_COMMANDS }
    ensures { AddsRefitCommands act.number
        (commands_of_acts (refitted_act mode limit before.now.loose before.now.place act.act))
        out.old result out.new }
{
    let number = act.number;
    match act.act {
        Act::Needle { at, float } => match mode {
            RefitMode::Split => put_split(alloc, out, limit, before, at, float, number),
            RefitMode::Cut => put_cut(out, at, float, number),
        },
        Act::Trim => put(out, Command::Trim, number),
        Act::Stop => put(out, Command::Stop, number),
    }
}

/// Adds the commands of a needle act, or of the needle acts at the ends of the steps to it.
fn put_split(
    alloc: Global,
    out: &mut Design,
    limit: u32,
    before: &RefitState,
    at: Point,
    float: bool,
    number: u32,
) -> Result<(), RefitFault>
    requires low { 1 ≤ limit }
    requires high { limit ≤ MAX_STEP }
    requires place { IsNeedlePoint before.now.place }
    requires at { IsNeedlePoint at }
    requires room { length out.old.commands ≤ MAX_COMMANDS }
    ensures { AddsRefitCommands number
        (commands_of_acts (split_needle limit before.now.loose before.now.place at
        float)) out.old result out.new }
{
    if float {
        return put_two(out, Command::Jump(at), Command::Stitch(at), number);
    }
    if before.loose || !is_far(limit, before.place, at) {
        return put(out, Command::Stitch(at), number);
    }
    put_steps(alloc, out, limit, before.place, at, number)
}

/// Adds the commands of the needle acts at the ends of the steps from one place to a far one.
#[tactic(auto, using(crate::proofs::RefitLemmas::stitches_at))]
fn put_steps(
    alloc: Global,
    out: &mut Design,
    limit: u32,
    from: Point,
    to: Point,
    number: u32,
) -> Result<(), RefitFault>
    requires low { 1 ≤ limit }
    requires high { limit ≤ MAX_STEP }
    requires from { IsNeedlePoint from }
    requires to { IsNeedlePoint to }
    requires differ { from ≢ to }
    requires room { length out.old.commands ≤ MAX_COMMANDS }
    ensures { AddsRefitCommands number (commands_of_acts (needles_at (split_points from to limit)))
        out.old result out.new }
{
    let points = split(alloc, from, to, limit)?;
    put_stitches(out, points.as_slice(), number)
}

/// Adds the commands of a needle act, after a trim where it is a float.
fn put_cut(out: &mut Design, at: Point, float: bool, number: u32) -> Result<(), RefitFault>
    requires at { IsNeedlePoint at }
    ensures { AddsRefitCommands number (commands_of_acts (cut_needle at float)) out.old result out.new }
{
    if float {
        return put_two(out, Command::Trim, Command::Stitch(at), number);
    }
    put(out, Command::Stitch(at), number)
}

fn is_far(limit: u32, p: Point, q: Point) -> bool
    ensures value { result ≡ is_beyond_limit limit p q }
    ensures differ { IsTrue result → p ≢ q }
{
    p.x.abs_diff(q.x) > limit || p.y.abs_diff(q.y) > limit
}

fn put_stitches(out: &mut Design, points: &[Point], number: u32) -> Result<(), RefitFault>
    requires points { All IsNeedlePoint points.now }
    requires room { length out.old.commands ≤ MAX_COMMANDS }
    ensures { AddsRefitCommands number (map command.Stitch points.now) out.old result out.new }
{
    for point in points {
        put(out, Command::Stitch(*point), number)?;
    }
    Ok(())
}

fn put_two(out: &mut Design, first: Command, second: Command, number: u32) -> Result<(), RefitFault>
    requires first { IsTrue (is_command_in_range first) }
    requires second { IsTrue (is_command_in_range second) }
    ensures { AddsRefitCommands number (first ∷ second ∷ []) out.old result out.new }
{
    put(out, first, number)?;
    put(out, second, number)
}

fn put(out: &mut Design, command: Command, number: u32) -> Result<(), RefitFault>
    requires { IsTrue (is_command_in_range command) }
    ensures { AddsRefitCommands number (command ∷ []) out.old result out.new }
{
    if out.commands().len() == MAX_COMMANDS {
        return Err(RefitFault::TooMany { number });
    }
    out.add(command)?;
    Ok(())
}
