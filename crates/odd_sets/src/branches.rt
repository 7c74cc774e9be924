ghost use Rattle.odd_sets.specs.Slots.{branch_in, branches_in, match_in, matches_in, set_in};
ghost use Rattle.odd_sets.specs.Trees.{branch_by_edge, CanAugment, Augments, PairsBranch};
ghost use Rattle.std.specs.Prelude.{◌≡◌, ◌++◌, ◌∷◌, [], reverse, OnOk};

use crate::matches::Match;
use crate::odd_set::{Handle, Sets, TightEdge};
use design_model::Memory;

/// A branch of the alternating tree: an inner set and the outer set that it is matched with. The edge `up`
/// leads from an earlier outer set to the inner set, and `pair` from the inner set to its partner.
#[derive(Clone, Copy, Drop)]
pub struct Branch {
    pub up: TightEdge,
    pub inner: Handle,
    pub pair: TightEdge,
    pub outer: Handle,
}

/// Appends a match to the tree, below the outer set that the edge comes from.
pub fn grow(
    sets: &Sets,
    tree: &mut Vec<Branch>,
    up: TightEdge,
    matched: Match,
) -> Result<(), Memory>
    ensures { OnOk result (branches_in sets.now tree.new.items
        ≡ branches_in sets.now tree.old.items ++ branch_by_edge up (match_in sets.now matched) ∷ []) }
{
    if matched.first.holds(sets, up.to) {
        hang(tree, up, matched.first, matched.link, matched.second)?;
        return Ok(());
    }
    hang(tree, up, matched.second, matched.link.back(), matched.first)?;
    Ok(())
}

/// Appends a branch with an inner set below the edge `up`, and the outer set that it is matched with.
pub fn hang(
    tree: &mut Vec<Branch>,
    up: TightEdge,
    inner: Handle,
    pair: TightEdge,
    outer: Handle,
) -> Result<(), Memory>
    ensures { OnOk result (tree.new.items
        ≡ tree.old.items ++ record { up = up; inner = inner; pair = pair; outer = outer } ∷ []) }
{
    tree.push(Branch {
        up,
        inner,
        pair,
        outer,
    })?;
    Ok(())
}

/// Augments along the path from an edge to the root: each branch becomes a match.
pub fn augment(
    sets: &Sets,
    root: Handle,
    tree: Vec<Branch>,
    link: TightEdge,
    met: Handle,
    rest: &mut Vec<Match>,
) -> Result<(), Memory>
    requires { CanAugment (set_in sets.now met) link (set_in sets.now root)
        (branches_in sets.now tree.items) }
    ensures { OnOk result (Augments (set_in sets.now root) (set_in sets.now met) link
        (branches_in sets.now tree.items) (matches_in sets.now rest.old.items)
        (matches_in sets.now rest.new.items)) }
{
    let mut left = tree;
    let mut hand = Exposed {
        set: met,
        way: link,
    };
    while let Some(b) = left.pop() {
        rest.push(hand.pair_at(sets, b))?;
    }
    rest.push(Match {
        first: root,
        second: hand.set,
        link: hand.way,
    })?;
    Ok(())
}

/// A set without a partner, and the edge to it from an outer set.
#[derive(Clone, Copy, Drop)]
struct Exposed {
    set: Handle,
    way: TightEdge,
}

impl Exposed {
    /// Returns the match at a branch. Where the edge comes from the branch's outer set, that set is matched,
    /// and the inner set is the next one without a partner.
    fn pair_at(&mut self, sets: &Sets, b: Branch) -> Match
        ensures { PairsBranch (set_in sets.now self.old.set) self.old.way (branch_in sets.now b)
            (match_in sets.now result) (set_in sets.now self.new.set) self.new.way }
    {
        if b.outer.holds(sets, self.way.from) {
            let matched = Match {
                first: b.outer,
                second: self.set,
                link: self.way,
            };
            self.set = b.inner;
            self.way = b.up;
            return matched;
        }
        Match {
            first: b.inner,
            second: b.outer,
            link: b.pair,
        }
    }
}

/// Puts branches that were set aside, newest first, back into the tree.
pub fn put_back(tree: &mut Vec<Branch>, aside: Vec<Branch>) -> Result<(), Memory>
    ensures { OnOk result (tree.new.items ≡ tree.old.items ++ reverse aside.items) }
{
    let mut left = aside;
    while let Some(b) = left.pop() {
        tree.push(b)?;
    }
    Ok(())
}
