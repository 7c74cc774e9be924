ghost use Rattle.line_meetings.specs.IndexedParts.{AreIndexed, indexed_at};
ghost use Rattle.std.specs.List.{flat_map, range_with_len};
ghost use Rattle.std.specs.Prelude.{◌≡◌, ◌++◌, IfOk, OnOk, length, map};

use crate::indexed_part::IndexedPart;
use design_model::Memory;
use drawing_review::LineSegment;
use std::alloc::Global;

/// Where a part is in an order, and its index in a list.
#[derive(Clone, Copy)]
struct OrderedIndex {
    place: u64,
    index: usize,
}

/// Returns parts with their indexes, in an order in which most parts that follow each other are near and about as
/// long as each other.
pub fn in_near_order(alloc: Global, parts: &[LineSegment]) -> Result<Vec<IndexedPart>, Memory>
    ensures { IfOk result (λ ordered. AreIndexed parts.now ordered.items) }
{
    let mut order = places(alloc, parts)?;
    order.sort_unstable_by_key(|o| o.place);
    let ordered = indexed_by(alloc, parts, order.as_slice())?;
    Ok(ordered)
}

fn places(alloc: Global, parts: &[LineSegment]) -> Result<Vec<OrderedIndex>, Memory>
    ensures { IfOk result (λ order. map (λ o. o.index) order.items ≡ range_with_len 0 (length parts.now)) }
{
    let mut order = Vec::new(alloc);
    let mut index = 0;
    let mut rest = parts;
    while let [part, after @ ..] = rest {
        let place = place(part);
        order.push(OrderedIndex { place, index })?;
        index += 1;
        rest = after;
    }
    Ok(order)
}

/// Returns the place of a part: by its block; then longer parts first, by how often their lengths can be halved until
/// they are below 256 tenths; and then along a curve that fills the plane, where its middle is.
fn place(s: &LineSegment) -> u64 {
    let length = s.a.x.abs_diff(s.b.x).max(s.a.y.abs_diff(s.b.y));
    let across = spread((s.a.x as u32 + s.b.x as u32) / 2);
    let down = spread((s.a.y as u32 + s.b.y as u32) / 2);
    ((s.block as u64) << 40) | (((length >> 8).leading_zeros() as u64) << 32) | across | (down << 1)
}

/// Returns a number of 16 bits with a zero before each of them.
fn spread(n: u32) -> u64 {
    let n = n as u64;
    let n = (n | (n << 8)) & 0x00ff_00ff;
    let n = (n | (n << 4)) & 0x0f0f_0f0f;
    let n = (n | (n << 2)) & 0x3333_3333;
    (n | (n << 1)) & 0x5555_5555
}

fn indexed_by(
    alloc: Global,
    parts: &[LineSegment],
    order: &[OrderedIndex],
) -> Result<Vec<IndexedPart>, Memory>
    ensures { IfOk result (λ ordered. ordered.items
        ≡ flat_map (λ o. indexed_at parts.now o.index) order.now) }
{
    let mut ordered = Vec::new(alloc);
    for o in order {
        put_indexed(parts, o.index, &mut ordered)?;
    }
    Ok(ordered)
}

fn put_indexed(
    parts: &[LineSegment],
    index: usize,
    ordered: &mut Vec<IndexedPart>,
) -> Result<(), Memory>
    ensures { OnOk result (ordered.new.items ≡ ordered.old.items ++ indexed_at parts.now index) }
{
    let Some(part) = parts.get(index) else {
        return Ok(());
    };
    ordered.push(IndexedPart { index, part: *part })?;
    Ok(())
}
