ghost use Rattle.blossom_match.specs.Candidates.{change_of, IsBestCandidate, IsCandidateAmong, CanFindEdge, IsCandidateChange, FindsSlackInSet, FindsSlackIn};
ghost use Rattle.blossom_match.specs.LeastChanges.{step_of, IsLeastChange, CanSearch, IsLesserChange, IsLesserChangeAt};
ghost use Rattle.blossom_match.specs.Masks.{masked_slack, IsBestShown, IsMaskedSlack, IsSearchMask};
ghost use Rattle.blossom_match.specs.OuterSlacks.{slack_from, HasOuterCells, IsOuterSlack, AreSearchSlacks};
ghost use Rattle.blossom_match.specs.Searches.{stored_height, outer_vertices};
ghost use Rattle.blossom_match.specs.States.{search_value};
ghost use Rattle.blossom_match.specs.declared.least.Kind.TheVariants as kind;
ghost use Rattle.odd_sets.specs.DualSets.{count};
ghost use Rattle.odd_sets.specs.Heights.{HasCells};
ghost use Rattle.odd_sets.specs.Slots.{branch_in, branches_in, set_in};
ghost use Rattle.odd_sets.specs.Tables.{IsTable};
ghost use Rattle.odd_sets.specs.Trees.{outer_members, count_holding_both};
ghost use Rattle.odd_sets.specs.declared.table.TheConstants.{FAR, MAX_PLACES};
ghost use Rattle.std.specs.Prelude.{◌≡◌, ◌≢◌, ◌≤◌, ◌<◌, ◌∷◌, [], ℕ, length, slice_index};

use crate::search::SearchStep;
use crate::state::Search;
use odd_sets::{Branch, DistTable, FAR, Handle, Sets, TightEdge, lower_slack};

/// The vertices whose slacks are compared at once.
const BLOCK: usize = 64;

/// A change of duals, in halves of a step, and the step that it makes possible.
#[derive(Clone, Copy, Drop)]
pub struct DualChange {
    pub by: u32,
    pub step: SearchStep,
}

/// The kind of an edge from an outer set: to a free vertex, to a match, or to another outer set.
#[derive(Clone, Copy, Drop)]
enum Kind {
    Augment,
    Grow,
    Shrink,
}

/// A candidate: a vertex that an edge leads to, and the change of duals after which the edge is tight.
#[derive(Clone, Copy, Drop)]
struct Target {
    by: u32,
    kind: Kind,
    to: u32,
}

/// Returns the least change of duals after which a step can be made.
pub fn least(t: &DistTable, reach: &[u32], mask: &[u32], s: &Search) -> DualChange
    requires table { IsTable t.now }
    requires can { CanSearch t.now (search_value s.now) }
    requires reaches { AreSearchSlacks t.now (search_value s.now) reach.now }
    requires masks { IsSearchMask t.now (search_value s.now) mask.now }
    ensures { IsLeastChange t.now (stored_height (search_value s.now)) (search_value s.now) result }
{
    least_at(t, &s.heights, reach, mask, s)
}

/// Returns the least change of duals, with the heights as a slice.
fn least_at(t: &DistTable, heights: &[u32], reach: &[u32], mask: &[u32], s: &Search) -> DualChange
    requires table { IsTable t.now }
    requires can { CanSearch t.now (search_value s.now) }
    requires reaches { AreSearchSlacks t.now (search_value s.now) reach.now }
    requires masks { IsSearchMask t.now (search_value s.now) mask.now }
    requires heights { heights.now ≡ s.now.heights.items }
    ensures { IsLeastChange t.now (stored_height (search_value s.now)) (search_value s.now) result }
{
    let first = first_target(heights, reach, &s.free);
    let met = best_target(heights, reach, &s.free, Kind::Augment, first);
    let grown = best_shown(heights, reach, mask, met);
    let crossed = best_outer(heights, reach, s, grown);
    let change = change_to(t, heights, reach, s, crossed);
    scan_blossoms(&s.sets, &s.tree, change)
}

/// Returns the change of duals that uses up a slack.
fn change_for(kind: Kind, slack: u32) -> u32
    ensures { result ≡ change_of kind slack }
{
    match kind {
        Kind::Augment => slack,
        Kind::Grow => slack,
        Kind::Shrink => slack / 2,
    }
}

/// Returns the step that an edge of a kind makes possible.
fn step_for(kind: Kind, link: TightEdge) -> SearchStep
    ensures { result ≡ step_of kind link }
{
    match kind {
        Kind::Augment => SearchStep::Augment(link),
        Kind::Grow => SearchStep::Grow(link),
        Kind::Shrink => SearchStep::Shrink(link),
    }
}

/// Returns the candidate at the first free vertex.
fn first_target(heights: &[u32], reach: &[u32], free: &[u32]) -> Target
    requires cells { length heights.now ≡ length reach.now }
    requires some { 1 ≤ length free.now }
    requires within { (b : ℕ) → 1 ≤ count b free.now → b < length reach.now }
    requires near { (b : ℕ) → 1 ≤ count b free.now → slice_index reach.now b < FAR }
    ensures { IsCandidateAmong heights.now reach.now kind.Augment free.now result }
{
    let to = free[0];
    Target {
        by: reach[to as usize].saturating_sub(heights[to as usize]),
        kind: Kind::Augment,
        to,
    }
}

/// Returns the lesser of a candidate and the one at the given vertex.
fn nearer(heights: &[u32], reach: &[u32], to: u32, kind: Kind, best: Target) -> Target
    requires cells { length heights.now ≡ length reach.now }
    requires within { to < length reach.now }
    ensures { IsBestCandidate heights.now reach.now kind (to ∷ []) best result }
{
    let left = reach[to as usize];
    if left >= FAR {
        return best;
    }
    let by = change_for(kind, left.saturating_sub(heights[to as usize]));
    if by < best.by {
        Target { by, kind, to }
    } else {
        best
    }
}

/// Returns the least of a candidate and those at the given vertices.
fn best_target(heights: &[u32], reach: &[u32], ys: &[u32], kind: Kind, best: Target) -> Target
    requires cells { length heights.now ≡ length reach.now }
    requires within { (b : ℕ) → 1 ≤ count b ys.now → b < length reach.now }
    ensures { IsBestCandidate heights.now reach.now kind ys.now best result }
{
    let mut least = best;
    for b in ys {
        least = nearer(heights, reach, *b, kind, least);
    }
    least
}

/// Returns the least of a candidate and those at the vertices that the mask shows.
fn best_shown(heights: &[u32], reach: &[u32], mask: &[u32], best: Target) -> Target
    requires cells { length heights.now ≡ length reach.now }
    requires masked { length mask.now ≡ length reach.now }
    requires few { length reach.now ≤ MAX_PLACES }
    requires near { best.by ≤ FAR }
    ensures { IsBestShown heights.now reach.now mask.now best result }
{
    if best.by == 0 {
        return best;
    }
    let slack = least_shown(heights, reach, mask);
    if slack >= best.by {
        return best;
    }
    let to = place_shown(heights, reach, mask, slack);
    nearer(heights, reach, to, Kind::Grow, best)
}

/// Returns the least slack to a vertex that the mask shows; FAR where there is none.
fn least_shown(heights: &[u32], reach: &[u32], mask: &[u32]) -> u32
    requires cells { length heights.now ≡ length reach.now }
    requires masked { length mask.now ≡ length reach.now }
    ensures least { (x : ℕ) → x < length reach.now → result ≤ masked_slack heights.now reach.now mask.now x }
    ensures is { result < FAR → IsMaskedSlack heights.now reach.now mask.now result }
{
    let mut least = FAR;
    for x in 0..reach.len() {
        least = lower_slack(heights[x], reach[x]).max(mask[x]).min(least);
    }
    least
}

/// Returns the first vertex that the mask shows with the given slack.
fn place_shown(heights: &[u32], reach: &[u32], mask: &[u32], slack: u32) -> u32
    requires cells { length heights.now ≡ length reach.now }
    requires masked { length mask.now ≡ length reach.now }
    requires few { length reach.now ≤ MAX_PLACES }
    requires there { IsMaskedSlack heights.now reach.now mask.now slack }
    ensures within { result < length reach.now }
    ensures exact { slack ≡ masked_slack heights.now reach.now mask.now result }
{
    // If no earlier vertex shows the slack, the last one does.
    let last = reach.len() - 1;
    let place = (block_shown(heights, reach, mask, slack)..last)
        .find(|x| lower_slack(heights[*x], reach[*x]).max(mask[*x]) == slack)
        .unwrap_or(last);
    place as u32
}

/// Returns the start of the first block that shows the slack or less, or the last block's end.
fn block_shown(heights: &[u32], reach: &[u32], mask: &[u32], slack: u32) -> usize
    requires cells { length heights.now ≡ length reach.now }
    requires masked { length mask.now ≡ length reach.now }
    requires few { length reach.now ≤ MAX_PLACES }
    ensures within { result ≤ length reach.now }
    ensures none { (x : ℕ) → x < result → slack ≢ masked_slack heights.now reach.now mask.now x }
{
    let mut at = 0;
    while at + BLOCK <= reach.len() {
        let end = at + BLOCK;
        if least_shown(&heights[at..end], &reach[at..end], &mask[at..end]) <= slack {
            return at;
        }
        at = end;
    }
    at
}

/// Returns the least of a candidate and those at the outer vertices.
fn best_outer(heights: &[u32], reach: &[u32], s: &Search, best: Target) -> Target
    requires cells { length heights.now ≡ length reach.now }
    requires within { HasCells (λ b. count b (outer_vertices (search_value s.now))) reach.now }
    ensures { IsBestCandidate heights.now reach.now kind.Shrink (outer_vertices (search_value s.now))
        best result }
{
    if best.by == 0 {
        return best;
    }
    let rooted = best_target(heights, reach, s.root.members(&s.sets), Kind::Shrink, best);
    best_branch(&s.sets, heights, reach, &s.tree, rooted)
}

/// Returns the least of a candidate and those at the outer vertices of the branches.
fn best_branch(sets: &Sets, heights: &[u32], reach: &[u32], tree: &[Branch], best: Target) -> Target
    requires cells { length heights.now ≡ length reach.now }
    requires within { HasCells (λ b. count b (outer_members [] (branches_in sets.now tree.now))) reach.now }
    ensures { IsBestCandidate heights.now reach.now kind.Shrink
        (outer_members [] (branches_in sets.now tree.now))
        best result }
{
    let mut least = best;
    for b in tree {
        least = best_target(heights, reach, b.outer.members(sets), Kind::Shrink, least);
    }
    least
}

/// Returns the change of a candidate, with the edge from an outer vertex that has its slack.
fn change_to(t: &DistTable, heights: &[u32], reach: &[u32], s: &Search, aim: Target) -> DualChange
    requires { CanFindEdge t.now heights.now (search_value s.now).root (search_value s.now).tree
        reach.now aim }
    ensures { IsCandidateChange t.now heights.now (search_value s.now).root (search_value s.now).tree
        reach.now aim result }
{
    let from = nearest(
        &s.sets,
        t,
        heights,
        s.root,
        &s.tree,
        aim.to,
        reach[aim.to as usize],
    );
    DualChange {
        by: aim.by,
        step: step_for(aim.kind, TightEdge { from, to: aim.to }),
    }
}

/// Returns the vertex of another outer set that has the given slack.
fn nearest(
    sets: &Sets,
    t: &DistTable,
    heights: &[u32],
    root: Handle,
    tree: &[Branch],
    to: u32,
    left: u32,
) -> u32
    requires can { HasOuterCells t.now heights.now (set_in sets.now root) (branches_in sets.now tree.now) }
    requires within { to < t.now.places }
    requires reached { IsOuterSlack t.now heights.now (set_in sets.now root)
        (branches_in sets.now tree.now) to left }
    ensures here { 1 ≤ count result
        (outer_members (set_in sets.now root).members (branches_in sets.now tree.now)) }
    ensures apart { count_holding_both result to (set_in sets.now root) (branches_in sets.now tree.now) ≡ 0 }
    ensures exact { left ≡ slack_from t.now heights.now result to }
{
    if let Some(a) = vertex_with_slack(sets, t, heights, root, to, left) {
        return a;
    }
    for b in tree {
        if let Some(a) = vertex_with_slack(sets, t, heights, b.outer, to, left) {
            return a;
        }
    }
    unreachable!()
}

/// Returns a vertex of a set with the given slack to the other vertex, if the set doesn't hold both.
fn vertex_with_slack(
    sets: &Sets,
    t: &DistTable,
    heights: &[u32],
    s: Handle,
    to: u32,
    left: u32,
) -> Option<u32>
    requires cells { length heights.now ≡ t.now.places }
    requires within { (a : ℕ) → 1 ≤ count a (set_in sets.now s).members → a < t.now.places }
    requires to_in { to < t.now.places }
    ensures { FindsSlackInSet t.now heights.now (set_in sets.now s) to left result }
{
    match first_with_slack(t, heights, s.members(sets), to, left) {
        Some(a) if !s.holds(sets, to) => Some(a),
        _ => None,
    }
}

/// Returns the first of the vertices with the given slack.
fn first_with_slack(t: &DistTable, heights: &[u32], xs: &[u32], to: u32, left: u32) -> Option<u32>
    requires cells { length heights.now ≡ t.now.places }
    requires within { (a : ℕ) → 1 ≤ count a xs.now → a < t.now.places }
    requires to_in { to < t.now.places }
    ensures { FindsSlackIn t.now heights.now xs.now to left result }
{
    for a in xs {
        if (2 * t.get(to, *a)).saturating_sub(heights[*a as usize]) == left {
            return Some(*a);
        }
    }
    None
}

/// Returns the lesser of a change and the least dual of an inner blossom.
fn scan_blossoms(sets: &Sets, tree: &[Branch], best: DualChange) -> DualChange
    ensures { IsLesserChange (branches_in sets.now tree.now) best result }
{
    if best.by == 0 {
        return best;
    }
    let mut least = best;
    for (i, b) in tree.iter().enumerate() {
        least = lesser_change(sets, *b, i, least);
    }
    least
}

/// Returns the lesser of a change and the dual of the branch's inner blossom.
fn lesser_change(sets: &Sets, b: Branch, at: usize, best: DualChange) -> DualChange
    ensures { IsLesserChangeAt (branch_in sets.now b) at best result }
{
    let dual = b.inner.dual;
    if b.inner.is_blossom(sets) && dual < best.by {
        DualChange {
            by: dual,
            step: SearchStep::Expand(at),
        }
    } else {
        best
    }
}
