use crate::rewrite_fault::RewriteFault;
use design_model::{Act, Design, NumberedAct};

/// An edit of the acts of a design, one after another. The value is the state of the edit between two acts.
pub trait ActEdit: Drop {
    ghost use Rattle.std.specs.Prelude.{◌≡◌, ◌∷◌, [], List, Bool, IsTrue, OnOk};
    ghost use Rattle.design_model.specs.declared.act.Act.{Act as ActValue};
    ghost use Rattle.design_model.specs.ActPositions.{is_act_in_range};
    ghost use Rattle.design_model.specs.Acts.{acts_without_numbers};
    ghost use Rattle.design_rewrites.specs.WrittenActs.{AreActsInRange, WritesActs};

    /// The edited acts for the acts that are left, by the state before them.
    ghost edited: { Self → List ActValue → List ActValue };

    /// The test whether a state can occur.
    ghost is_sound: { Self → Bool };

    /// Adds the commands for the next act, given the acts after it, and updates the state.
    fn put_next(
        &mut self,
        out: &mut Design,
        act: Act,
        later: &[NumberedAct],
    ) -> Result<(), RewriteFault>
        requires sound { IsTrue (is_sound self.old) }
        requires act { IsTrue (is_act_in_range act) }
        requires later { AreActsInRange later.now }
        ensures written { WritesActs (edited self.old (act ∷ acts_without_numbers later.now))
            (edited self.new (acts_without_numbers later.now)) out.old result out.new }
        ensures sound { OnOk result (IsTrue (is_sound self.new)) };

    /// States that no act is left over at the end.
    fn ends(&self)
        ensures { edited self.now [] ≡ [] };
}
