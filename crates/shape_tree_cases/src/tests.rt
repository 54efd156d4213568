//! Each call on shapes succeeds where there is memory, and makers are asked for few nodes.
ghost use Rattle.std.specs.Prelude.{◌≡◌, ◌+◌, ◌<◌, ◌^◌, length, IfOk};
ghost use Rattle.shape_tree.specs.Shapes.{items_of};
ghost use Rattle.shape_tree.specs.Balance.{IsBalanced};

use crate::counting::{NodeCounter, edited, tree_of};
use crate::shared_tree::SharedTree;
use shape_tree::{Kept, Shape, build, concat, join, split};
use std::alloc::{AllocError, Global};
use std::test::*;

const FIFTEEN: [Option<u16>; 15] = [
    Some(1),
    Some(2),
    Some(3),
    Some(4),
    Some(5),
    Some(6),
    Some(7),
    Some(8),
    Some(9),
    Some(10),
    Some(11),
    Some(12),
    Some(13),
    Some(14),
    Some(15),
];

// The items of a tree in order, behind those that are there. An item that is missing tells 0.
fn tell_tree(tree: &SharedTree, out: &mut Vec<u16>) -> Result<(), AllocError> {
    if let Some((left, item, right)) = tree.parts()? {
        tell_tree(&left, out)?;
        out.push(item.unwrap_or(0))?;
        tell_tree(&right, out)?;
    }
    Ok(())
}

fn tell_shape(shape: &Shape<SharedTree>, out: &mut Vec<u16>) -> Result<(), AllocError> {
    match shape {
        Shape::Kept(tree) => tell_tree(tree, out)?,
        Shape::Fresh(node) => {
            tell_shape(&node.left, out)?;
            out.push(node.item.unwrap_or(0))?;
            tell_shape(&node.right, out)?;
        }
    }
    Ok(())
}

// The items of a shape in order, its length, its height and how many of its nodes are fresh.
fn told(alloc: Global, shape: &Shape<SharedTree>) -> Result<(Vec<u16>, [u32; 3]), AllocError>
    requires fits { length (items_of (λ t. t.items) shape.now) < 2 ^ 31 }
{
    let mut items = Vec::new(alloc);
    tell_shape(shape, &mut items)?;
    Ok((items, [shape.len(), shape.height(), shape.fresh()]))
}

// The first so many of the fifteen items, all fresh.
fn first(alloc: Global, count: usize) -> Result<Shape<SharedTree>, AllocError>
    ensures balanced { IfOk result (IsBalanced (λ t. t.height)) }
    ensures few { IfOk result (λ s. length (items_of (λ t. t.items) s) < 16) }
{
    let leaf = SharedTree::leaf();
    let items = FIFTEEN.as_slice();
    Ok(build(alloc, &leaf, &items[..count.min(15)])?)
}

fn joined(alloc: Global, left: usize, right: usize) -> Result<(Vec<u16>, [u32; 3]), AllocError> {
    let left = first(alloc, left)?;
    let right = first(alloc, right)?;
    let whole = join(alloc, left, None, right)?;
    told(alloc, &whole)
}

fn put_together(
    alloc: Global,
    left: usize,
    right: usize,
) -> Result<(Vec<u16>, [u32; 3]), AllocError> {
    let left = first(alloc, left)?;
    let right = first(alloc, right)?;
    let leaf = SharedTree::leaf();
    let whole = concat(alloc, &leaf, left, right)?;
    told(alloc, &whole)
}

// Both parts of so many items, one after the other.
fn cut(alloc: Global, count: usize, at: u32) -> Result<[Vec<u16>; 2], AllocError> {
    let whole = first(alloc, count)?;
    let at = at.min(whole.len());
    let (front, back) = split(alloc, whole, at)?;
    Ok([told(alloc, &front)?.0, told(alloc, &back)?.0])
}

// The items of the fifteen with an edit, and how many nodes were made for it.
fn edit_of(
    alloc: Global,
    at: u32,
    deleted: u32,
    inserted: &[Option<u16>],
) -> Result<(Vec<u16>, u32), AllocError>
    requires few { length inserted.now < 16 }
{
    let mut maker = NodeCounter { alloc, made: 0 };
    let old = tree_of(alloc, &FIFTEEN, &mut maker)?;
    let mut maker = NodeCounter { alloc, made: 0 };
    let at = at.min(15);
    let new = edited(alloc, &old, at, deleted.min(15 - at), inserted, &mut maker)?;
    let mut items = Vec::new(alloc);
    tell_tree(&new, &mut items)?;
    Ok((items, maker.made))
}

// How many nodes are made for an edit of a thousand items.
fn nodes_made(alloc: Global, at: u32, deleted: u32) -> Result<u32, AllocError> {
    let mut maker = NodeCounter { alloc, made: 0 };
    let old = tree_of(alloc, &[None; 1000], &mut maker)?;
    let mut maker = NodeCounter { alloc, made: 0 };
    let at = at.min(1000);
    edited(
        alloc,
        &old,
        at,
        deleted.min(1000 - at),
        &[Some(1)],
        &mut maker,
    )?;
    Ok(maker.made)
}

#[test]
fn a_shape_is_built_with_the_middle_at_the_root(rt: HostRuntime) -> Result<(), Fail> {
    let cases: [(usize, &[u16], [u32; 3]); 4] = [
        (0, &[], [0, 0, 0]),
        (1, &[1], [1, 1, 1]),
        (4, &[1, 2, 3, 4], [4, 3, 4]),
        (7, &[1, 2, 3, 4, 5, 6, 7], [7, 3, 7]),
    ];
    for (count, items, numbers) in cases {
        let (found, told) = told(rt.alloc(), &first(rt.alloc(), count)?)?;
        assert_eq!(rt; found.as_slice(), items, "at {count}");
        assert_eq!(rt; told, numbers, "at {count}");
    }
    Ok(())
}

#[test]
fn a_join_has_the_item_between_both_sides(rt: HostRuntime) -> Result<(), Fail> {
    let cases: [(usize, usize, &[u16], [u32; 3]); 4] = [
        (0, 0, &[0], [1, 1, 1]),
        (2, 1, &[1, 2, 0, 1], [4, 3, 4]),
        (9, 0, &[1, 2, 3, 4, 5, 6, 7, 8, 9, 0], [10, 4, 10]),
        (0, 3, &[0, 1, 2, 3], [4, 3, 4]),
    ];
    for (left, right, items, numbers) in cases {
        let (found, told) = joined(rt.alloc(), left, right)?;
        assert_eq!(rt; found.as_slice(), items, "at {left} and {right}");
        assert_eq!(rt; told, numbers, "at {left} and {right}");
    }
    Ok(())
}

#[test]
fn two_shapes_are_put_together(rt: HostRuntime) -> Result<(), Fail> {
    let cases: [(usize, usize, &[u16], [u32; 3]); 4] = [
        (0, 0, &[], [0, 0, 0]),
        (3, 0, &[1, 2, 3], [3, 2, 3]),
        (0, 3, &[1, 2, 3], [3, 2, 3]),
        (2, 2, &[1, 2, 1, 2], [4, 3, 4]),
    ];
    for (left, right, items, numbers) in cases {
        let (found, told) = put_together(rt.alloc(), left, right)?;
        assert_eq!(rt; found.as_slice(), items, "at {left} and {right}");
        assert_eq!(rt; told, numbers, "at {left} and {right}");
    }
    Ok(())
}

#[test]
fn a_cut_gives_the_first_items_and_the_rest(rt: HostRuntime) -> Result<(), Fail> {
    let cases: [(usize, u32, [&[u16]; 2]); 5] = [
        (0, 0, [&[], &[]]),
        (3, 0, [&[], &[1, 2, 3]]),
        (5, 2, [&[1, 2], &[3, 4, 5]]),
        (5, 3, [&[1, 2, 3], &[4, 5]]),
        (5, 5, [&[1, 2, 3, 4, 5], &[]]),
    ];
    for (count, at, parts) in cases {
        let found = cut(rt.alloc(), count, at)?;
        assert_eq!(rt; found[0].as_slice(), parts[0], "at {at} of {count}");
        assert_eq!(rt; found[1].as_slice(), parts[1], "at {at} of {count}");
    }
    Ok(())
}

#[test]
fn an_edit_keeps_the_items_beside_it(rt: HostRuntime) -> Result<(), Fail> {
    let (items, _) = edit_of(rt.alloc(), 3, 9, &[Some(70), None])?;
    assert_eq!(rt; items.as_slice(), [1, 2, 3, 70, 0, 13, 14, 15].as_slice());
    let (items, _) = edit_of(rt.alloc(), 0, 15, &[])?;
    assert_eq!(rt; items.as_slice(), [].as_slice());
    let (items, _) = edit_of(rt.alloc(), 15, 0, &[Some(16)])?;
    assert_eq!(rt; items.len(), 16);
    assert_eq!(rt; items.last(), Some(&16));
    Ok(())
}

#[test]
fn one_item_in_the_place_of_one_makes_its_path_alone(rt: HostRuntime) -> Result<(), Fail> {
    let cases = [(7, 1), (3, 2), (0, 4), (14, 4), (9, 3)];
    for (at, nodes) in cases {
        let (items, made) = edit_of(rt.alloc(), at, 1, &[Some(70)])?;
        assert_eq!(rt; items.get(at as usize), Some(&70), "at {at}");
        assert_eq!(rt; made, nodes, "at {at}");
    }
    Ok(())
}

#[test]
fn an_edit_of_nothing_makes_no_node(rt: HostRuntime) -> Result<(), Fail> {
    let (items, made) = edit_of(rt.alloc(), 5, 0, &[])?;
    assert_eq!(rt; items.len(), 15);
    assert_eq!(rt; made, 0);
    Ok(())
}

#[test]
fn an_edit_of_a_thousand_items_makes_few_nodes(rt: HostRuntime) -> Result<(), Fail> {
    for (at, deleted) in [(0, 0), (500, 0), (1000, 0), (400, 200), (0, 999)] {
        let made = nodes_made(rt.alloc(), at, deleted)?;
        assert!(rt; made <= 60, "{made} nodes at {at}");
    }
    Ok(())
}
