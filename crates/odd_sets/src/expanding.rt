ghost use Rattle.odd_sets.specs.Blossoms.{members_in, IsBlossom};
ghost use Rattle.odd_sets.specs.DualSets.{count};
ghost use Rattle.odd_sets.specs.Expansions.{reversed_blossom, CanSplitBlossom, CanExpand, Expands, IsEvenlyOriented, InsertsBranches, SplitsBlossom};
ghost use Rattle.odd_sets.specs.Slots.{branches_in, matches_in, parts_in, set_in, AreSets, Slots};
ghost use Rattle.odd_sets.specs.Trees.{all_dual_sets};
ghost use Rattle.std.specs.Prelude.{◌≡◌, ◌≤◌, ℕ, IfOk, OnOk};

use crate::blossom::{listed, part_with, turned_to};
use crate::branches::{Branch, hang};
use crate::matches::{Match, pair_off};
use crate::odd_set::{BlossomPart, Handle, Sets};
use design_model::Memory;
use std::alloc::Global;
use std::collections::VecDeque;

/// Expands the inner blossom of a branch: its parts become branches and matches, and its slot is removed.
pub fn expand(
    alloc: Global,
    sets: &mut Sets,
    root: Handle,
    tree: &mut Vec<Branch>,
    at: usize,
    rest: &mut Vec<Match>,
) -> Result<(), Memory>
    requires can { CanExpand (set_in sets.old root) (branches_in sets.old tree.old.items) at }
    requires sets { AreSets sets.old (all_dual_sets (set_in sets.old root)
        (branches_in sets.old tree.old.items) (matches_in sets.old rest.old.items)) }
    ensures expands { OnOk result ((key : ℕ) × Expands key (set_in sets.old root)
        (branches_in sets.old tree.old.items) (branches_in sets.new tree.new.items)
        (matches_in sets.old rest.old.items) (matches_in sets.new rest.new.items)) }
    ensures grows { OnOk result (InsertsBranches at (branches_in sets.old tree.old.items)
        (branches_in sets.new tree.new.items)) }
    ensures root { OnOk result (set_in sets.new root ≡ set_in sets.old root) }
    ensures sets { OnOk result (AreSets sets.new (all_dual_sets (set_in sets.new root)
        (branches_in sets.new tree.new.items) (matches_in sets.new rest.new.items))) }
{
    let b = tree.remove(at);
    let mut later = tree.split_off(at)?;
    let slot = sets.remove(b.inner.key);
    let blossom = even_way(alloc, sets, slot.parts, b.up.to, b.pair.from)?;
    let mut matches = split_blossom(alloc, sets, root, tree, blossom, b)?;
    rest.append(&mut matches)?;
    tree.append(&mut later)?;
    Ok(())
}

/// Rotates a blossom to the part that is entered, and orients it so that the part that is left has an even
/// index.
fn even_way(
    alloc: Global,
    sets: &Sets,
    parts: Vec<BlossomPart>,
    entry: u32,
    exit: u32,
) -> Result<Vec<BlossomPart>, Memory>
    requires blossom { IsBlossom (parts_in sets.now parts.items) }
    requires entry_in { 1 ≤ count entry (members_in (parts_in sets.now parts.items)) }
    requires exit_in { 1 ≤ count exit (members_in (parts_in sets.now parts.items)) }
    ensures { IfOk result (λ ps. IsEvenlyOriented entry exit (parts_in sets.now parts.items)
        (parts_in sets.now ps.items)) }
{
    let blossom = turned_to(sets, parts, entry);
    let end = part_with(sets, &blossom, exit);
    if end % 2 == 0 {
        Ok(blossom)
    } else {
        let back = reversed(alloc, blossom)?;
        Ok(back)
    }
}

/// Reverses a blossom, with the first part kept first.
fn reversed(alloc: Global, blossom: Vec<BlossomPart>) -> Result<Vec<BlossomPart>, Memory>
    ensures { IfOk result (λ ps. (sets : Slots) → parts_in sets ps.items
        ≡ reversed_blossom (parts_in sets blossom.items)) }
{
    let mut left = blossom.into_iter();
    let mut told = VecDeque::new(alloc);
    if let Some(first) = left.next() {
        let mut link = first.next;
        while let Some(p) = left.next() {
            told.push_front(BlossomPart {
                handle: p.handle,
                next: link.back(),
            })?;
            link = p.next;
        }
        told.push_front(BlossomPart {
            handle: first.handle,
            next: link.back(),
        })?;
    }
    let parts = listed(alloc, told)?;
    Ok(parts)
}

/// Makes branches of the parts up to the one that the branch's pair leaves, and matches the others.
fn split_blossom(
    alloc: Global,
    sets: &Sets,
    root: Handle,
    tree: &mut Vec<Branch>,
    blossom: Vec<BlossomPart>,
    b: Branch,
) -> Result<Vec<Match>, Memory>
    requires { CanSplitBlossom (set_in sets.now root) (branches_in sets.now tree.old.items)
        (parts_in sets.now blossom.items) b.up b.pair (set_in sets.now b.outer) }
    ensures { IfOk result (λ cs. SplitsBlossom (set_in sets.now root) (branches_in sets.now tree.old.items)
        (parts_in sets.now blossom.items) b.up b.pair (set_in sets.now b.outer)
        (branches_in sets.now tree.new.items) (matches_in sets.now cs.items)) }
{
    let mut left = blossom.into_iter();
    let mut way = b.up;
    while let Some(p) = left.next() {
        if p.handle.holds(sets, b.pair.from) {
            hang(tree, way, p.handle, b.pair, b.outer)?;
            let matches = pair_off(alloc, left)?;
            return Ok(matches);
        }
        let Some(q) = left.next() else { unreachable!() };
        hang(tree, way, p.handle, p.next, q.handle)?;
        way = q.next;
    }
    unreachable!()
}
