ghost use Rattle.line_graph.specs.LineLabels.{AreAtMostIndex, AreOwnIndexes, AreFinalLabels, AreLinksBelow, AreLabelsOfLinks, LowersOneLabel, LowersLabels};
ghost use Rattle.std.specs.Prelude.{◌≡◌, ◌≤◌, ◌<◌, ◌∷◌, [], IfOk, get_or, length};

use design_model::Memory;
use std::alloc::Global;

/// A link between a line and the first line that has one of its ends.
#[derive(Clone, Copy)]
pub struct LineLink {
    pub line: u32,
    pub first: u32,
}

/// Returns a label for each line: the index of a connected line that is no later. Linked lines have equal
/// labels.
pub fn labels(alloc: Global, links: &[LineLink], count: u32) -> Result<Vec<u32>, Memory>
    requires { AreLinksBelow count links.now }
    ensures value { IfOk result (λ labels. AreLabelsOfLinks links.now labels.items) }
    ensures sized { IfOk result (λ labels. length labels.items ≡ count) }
{
    let mut labels = own_labels(alloc, count)?;
    settle(&mut labels, links);
    Ok(labels)
}

/// Returns the initial labels: each line's own index.
fn own_labels(alloc: Global, count: u32) -> Result<Vec<u32>, Memory>
    ensures { IfOk result (λ labels. AreOwnIndexes count labels.items) }
{
    let mut labels = Vec::new(alloc);
    for line in 0..count {
        labels.push(line)?;
    }
    Ok(labels)
}

/// Lowers labels until linked lines have equal labels.
fn settle(labels: &mut Vec<u32>, links: &[LineLink])
    requires low { AreAtMostIndex labels.old.items }
    requires within { AreLinksBelow (length labels.old.items) links.now }
    ensures { AreFinalLabels links.now labels.old.items labels.new.items }
{
    while sweep(labels, links) {}
}

/// Lowers the labels at each link, and returns whether any changed.
fn sweep(labels: &mut Vec<u32>, links: &[LineLink]) -> bool
    requires low { AreAtMostIndex labels.old.items }
    requires within { AreLinksBelow (length labels.old.items) links.now }
    ensures { LowersLabels links.now labels.old.items labels.new.items result }
{
    let mut changed = false;
    for link in links {
        changed = join_labels(labels, *link) | changed;
    }
    changed
}

/// Lowers the labels of two linked lines, and of the lines that are these labels, to the lesser label of
/// the latter two. Since labels of labels fall too, few sweeps are enough.
fn join_labels(labels: &mut Vec<u32>, link: LineLink) -> bool
    requires low { AreAtMostIndex labels.old.items }
    requires line { link.line < length labels.old.items }
    requires first { link.first < length labels.old.items }
    ensures { LowersLabels (link ∷ []) labels.old.items labels.new.items result }
{
    let line = label_at(labels, link.line);
    let first = label_at(labels, link.first);
    let least = label_at(labels, line).min(label_at(labels, first));
    let at_label = lower(labels, line, least);
    let at_other_label = lower(labels, first, least);
    let at_line = lower(labels, link.line, least);
    let at_first = lower(labels, link.first, least);
    (at_first | at_line) | (at_other_label | at_label)
}

/// Lowers a line's label to the given one if that is less, and returns whether it did.
fn lower(labels: &mut Vec<u32>, line: u32, label: u32) -> bool
    requires { line < length labels.old.items }
    ensures { LowersOneLabel line label labels.old.items labels.new.items result }
{
    if label < labels[line as usize] {
        labels[line as usize] = label;
        return true;
    }
    false
}

fn label_at(labels: &Vec<u32>, line: u32) -> u32
    requires there { line < length labels.now.items }
    requires low { AreAtMostIndex labels.now.items }
    ensures value { result ≡ get_or labels.now.items line 0 }
    ensures low { result ≤ line }
{
    labels[line as usize]
}
