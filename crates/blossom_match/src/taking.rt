ghost use Rattle.blossom_match.specs.Taken.{moat_of_set, TakesApartMatches, TakesApartSet};
ghost use Rattle.odd_sets.specs.DualSets.{dual_sets, count};
ghost use Rattle.odd_sets.specs.Lists.{Each};
ghost use Rattle.odd_sets.specs.MatchedSets.{match_dual_sets, match_members, IsMatch};
ghost use Rattle.odd_sets.specs.Slots.{matches_in, set_in, AreSets};
ghost use Rattle.std.specs.Prelude.{◌≡◌, ◌≤◌, ◌++◌, ◌∷◌, [], ℕ, OnOk};

use crate::matching::{Moat, Moats, Pair, Pairs};
use design_model::{Memory, Numbers};
use odd_sets::{Handle, Match, OpenedSet, Sets, TightEdge, open_at};
use std::alloc::Global;

/// Appends the pairs inside a set and its moats, where its member `left` is paired outside.
#[cycle(taking)]
pub fn take_apart(
    alloc: Global,
    sets: &Sets,
    s: Handle,
    left: u32,
    pairs: &mut Pairs,
    moats: &mut Moats,
) -> Result<(), Memory>
    requires sets { AreSets sets.now (dual_sets (set_in sets.now s)) }
    requires there { count left (set_in sets.now s).members ≡ 1 }
    requires once { (x : ℕ) → count x (set_in sets.now s).members ≤ 1 }
    ensures { OnOk result (TakesApartSet left (set_in sets.now s) pairs.old pairs.new moats.old moats.new) }
{
    let OpenedSet { core, matches } = open_at(alloc, sets, s, left)?;
    add_moat(alloc, s.members(sets), s.dual, moats)?;
    match core {
        None => {
            take_matches(alloc, sets, matches, pairs, moats)?;
            Ok(())
        }
        Some(part) => {
            take_apart(alloc, sets, part, left, pairs, moats)?;
            take_matches(alloc, sets, matches, pairs, moats)?;
            Ok(())
        }
    }
}

/// Appends the pairs of the matches, the pairs inside them, and their moats.
#[cycle(taking)]
pub fn take_matches(
    alloc: Global,
    sets: &Sets,
    matches: Vec<Match>,
    pairs: &mut Pairs,
    moats: &mut Moats,
) -> Result<(), Memory>
    requires sets { AreSets sets.now (match_dual_sets (matches_in sets.now matches.items)) }
    requires joined { Each IsMatch (matches_in sets.now matches.items) }
    requires once { (x : ℕ) → count x (match_members (matches_in sets.now matches.items)) ≤ 1 }
    ensures { OnOk result (TakesApartMatches (matches_in sets.now matches.items) pairs.old pairs.new
        moats.old moats.new) }
{
    let mut rest = matches.into_iter();
    while let Some(c) = rest.next() {
        take_apart(alloc, sets, c.first, c.link.from, pairs, moats)?;
        take_apart(alloc, sets, c.second, c.link.to, pairs, moats)?;
        add_pair(c.link, pairs)?;
    }
    Ok(())
}

/// Appends a moat, unless its width is 0.
fn add_moat(alloc: Global, members: &[u32], width: u32, moats: &mut Moats) -> Result<(), Memory>
    ensures { OnOk result (moats.new ≡ moats.old ++ moat_of_set members.now width) }
{
    if width > 0 {
        let mut places = Numbers::new(alloc);
        places.append(members)?;
        moats.push(Moat {
            members: places,
            width,
        })?;
    }
    Ok(())
}

/// Appends the pair of an edge.
fn add_pair(link: TightEdge, pairs: &mut Pairs) -> Result<(), Memory>
    ensures { OnOk result (pairs.new ≡ pairs.old ++ record { a = link.from; b = link.to } ∷ []) }
{
    pairs.push(Pair {
        a: link.from,
        b: link.to,
    })
}
