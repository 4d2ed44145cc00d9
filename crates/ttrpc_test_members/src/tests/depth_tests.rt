//! Messages that contain themselves, down to the limit of depth and beyond it.
use crate::messages::{Cell, CellKind, Row, Sheet, Tree, TreeRules};
use crate::tests::members_tests::{check_pairs, check_refusals, is_refused, is_written};
use crate::tests::vectors::TREE;
use std::alloc::{AllocError, Global};
use std::test::Fail;
use ttrpc_bench::checks::{Tested, check, check_row};
use ttrpc_members::enclosed::Enclosed;
use ttrpc_wire::codec::message::WireMessage;
use ttrpc_wire::{Codec, CodecError, TryClone, Value, put_varint, varint_len};

/// The member of lists, and the optional one.
const CHILDREN: u8 = 0x12;

const BEST: u8 = 0x1a;

/// Returns the bytes of `levels` messages inside one another, each in a field with this tag.
fn nested(alloc: Global, tag: u8, levels: usize) -> Result<Vec<u8>, AllocError> {
    let mut lengths = Vec::new(alloc);
    let mut length: u64 = 0;
    for _ in 0..levels {
        lengths.push(length)?;
        length = length.saturating_add(1 + varint_len(length) as u64);
    }
    let mut bytes = Vec::new(alloc);
    for length in lengths.as_slice().iter().rev() {
        bytes.push(tag)?;
        put_varint(&mut bytes, *length)?;
    }
    Ok(bytes)
}

/// Returns whether the bytes mean a tree that is written as these bytes.
fn is_kept(alloc: Global, bytes: &[u8]) -> Result<bool, Fail> {
    is_written::<Tree>(alloc, bytes, bytes)
}

/// Returns whether the bytes mean a tree that is nested too deep.
fn is_too_deep(alloc: Global, bytes: &[u8]) -> bool {
    is_refused::<Tree>(alloc, bytes, CodecError::TooDeep)
}

/// Numbers of levels, and whether this many are accepted.
const LEVELS: &[(usize, bool)] = &[
    (0, true),
    (1, true),
    (100, true),
    (101, false),
    (1000, false),
];

/// Returns whether `levels` levels with this tag are accepted, or refused.
fn are_levels(alloc: Global, tag: u8, levels: usize, taken: bool) -> Result<bool, Fail> {
    let bytes = nested(alloc, tag, levels)?;
    if taken {
        is_kept(alloc, bytes.as_slice())
    } else {
        Ok(is_too_deep(alloc, bytes.as_slice()))
    }
}

#[test]
fn a_hundred_levels_are_taken_and_no_more(rt: HostRuntime) -> Tested {
    for (at, (levels, taken)) in LEVELS.iter().enumerate() {
        check_row(at, are_levels(rt.alloc(), CHILDREN, *levels, *taken)?)?;
        check_row(at, are_levels(rt.alloc(), BEST, *levels, *taken)?)?;
    }
    Ok(())
}

#[test]
fn megabytes_of_levels_take_no_stack(rt: HostRuntime) -> Tested {
    let alloc = rt.alloc();
    let bytes = nested(alloc, CHILDREN, 926000)?;
    let is_long = bytes.len() > 4000000 && bytes.len() < 4194304;
    check(is_long && is_too_deep(alloc, bytes.as_slice()))
}

/// Returns the bytes of `levels` map values inside one another. Each entry has no key.
fn nested_in_maps(alloc: Global, levels: usize) -> Result<Vec<u8>, AllocError> {
    let mut bytes = Vec::new(alloc);
    for _ in 0..levels {
        let mut value = Vec::new(alloc);
        value.extend_from_slice(b"\x0a\0\x12")?;
        put_varint(&mut value, bytes.len() as u64)?;
        value.extend_from_slice(bytes.as_slice())?;
        let mut outer = Vec::new(alloc);
        outer.push(0x22)?;
        put_varint(&mut outer, value.len() as u64)?;
        outer.extend_from_slice(value.as_slice())?;
        bytes = outer;
    }
    Ok(bytes)
}

#[test]
fn an_entry_of_a_map_is_a_level_too(rt: HostRuntime) -> Tested {
    let alloc = rt.alloc();
    let most = nested_in_maps(alloc, 50)?;
    let more = nested_in_maps(alloc, 51)?;
    check(is_kept(alloc, most.as_slice())? && is_too_deep(alloc, more.as_slice()))
}

/// Returns a tree of a hundred levels, made from the innermost one on.
fn deep_tree(alloc: Global) -> Result<Tree, Fail> {
    let mut tree = Tree::new(alloc);
    for _ in 0..100 {
        let child = Enclosed::from_message(alloc, &tree)?;
        tree = Tree::new(alloc);
        tree.children.push(child)?;
    }
    Ok(tree)
}

#[test]
fn a_deep_value_is_not_made(rt: HostRuntime) -> Tested {
    let alloc = rt.alloc();
    let tree = deep_tree(alloc)?;
    let written = tree.encode(alloc)?;
    let is_written = written.as_slice() == nested(alloc, CHILDREN, 100)?.as_slice();
    let refused: Result<Enclosed<TreeRules>, CodecError> = Enclosed::from_message(alloc, &tree);
    check(is_written && refused.err() == Some(CodecError::TooDeep))
}

#[test]
fn trees_are_those_of_the_other_implementation(rt: HostRuntime) -> Tested {
    check_pairs::<Tree>(rt.alloc(), TREE)
}

#[test]
fn bytes_are_taken_and_joined(rt: HostRuntime) -> Tested {
    let alloc = rt.alloc();
    let mut tree: Enclosed<TreeRules> = Enclosed::new(alloc);
    let is_empty = tree.as_bytes().is_empty();
    tree.append(b"\x0a\x01a")?;
    tree.append(b"\x12\0")?;
    let is_refused = tree.append(b"\x0a\x01\xff") == Err(CodecError::BadUtf8);
    let is_joined = tree.as_bytes() == &b"\x0a\x01a\x12\0"[..];
    let copy = tree.try_clone()?;
    check(is_empty && is_refused && is_joined && is_read_again(alloc, copy.as_bytes())?)
}

/// Returns whether these bytes are a tree with the name `a` and a child.
fn is_read_again(alloc: Global, bytes: &[u8]) -> Result<bool, Fail> {
    let same: Enclosed<TreeRules> = Enclosed::from_bytes(alloc, bytes)?;
    let message: Tree = same.message(alloc)?;
    Ok(message.name.as_str() == "a" && message.children.len() == 1)
}

#[test]
fn deep_bytes_are_not_taken(rt: HostRuntime) -> Tested {
    let alloc = rt.alloc();
    let deep = nested(alloc, CHILDREN, 100)?;
    let refused: Result<Enclosed<TreeRules>, CodecError> = Enclosed::from_bytes(
        alloc,
        deep.as_slice(),
    );
    check(refused.err() == Some(CodecError::TooDeep))
}

/// A tree with a member of each kind, and a child with each, too.
const GROWN: &[u8] = b"\x0a\x01a\
    \x12\x16\x0a\x01b\x12\0\x1a\x03\x0a\x01c\x22\x04\x0a\0\x12\0\x2a\0\x32\x02\x01\x02\
    \x1a\x03\x0a\x01d\
    \x22\x08\x0a\x01k\x12\x03\x0a\x01e\
    \x2a\x03\x0a\x01f\
    \x32\x02\x03\x04";

/// Returns whether the one child of the tree above has the right members.
fn has_grown_child(alloc: Global, tree: &Tree) -> Result<bool, Fail> {
    let mut all = tree.children.len() == 1;
    for child in tree.children.iter() {
        let child: Tree = child.message(alloc)?;
        all = all && is_grown(&child) && is_best_c(alloc, &child)?;
    }
    Ok(all)
}

#[test]
fn what_is_in_a_tree_is_read(rt: HostRuntime) -> Tested {
    let alloc = rt.alloc();
    let is_kept = is_kept(alloc, GROWN)?;
    let tree = Tree::decode(alloc, GROWN)?;
    check(is_kept && has_grown_child(alloc, &tree)?)
}

/// Returns whether this tree has the name, the numbers and the children of the child of the tree above.
fn is_grown(child: &Tree) -> bool {
    child.name.as_str() == "b"
        && child.numbers.as_slice() == &[-1, 1][..]
        && child.children.len() == 1
        && child.named.len() == 1
}

/// Returns whether the optional child has the name `c`.
fn is_best_c(alloc: Global, child: &Tree) -> Result<bool, Fail> {
    let Some(best) = &child.best else {
        return Ok(false);
    };
    let best: Tree = best.message(alloc)?;
    Ok(best.name.as_str() == "c")
}

/// An optional message in two parts: the later part is appended to the first.
const PARTED: &[(&[u8], &[u8])] = &[(
    b"\x1a\x05\x0a\x01a\x12\0",
    b"\x1a\x03\x0a\x01a\x1a\x02\x12\0",
)];

/// One of several members: a message in two parts, and one after another member.
const CHOSEN: &[(&[u8], &[u8])] = &[
    (b"\x22\x04\x0a\0\x0a\0", b"\x22\x02\x0a\0\x22\x02\x0a\0"),
    (b"\x22\x02\x0a\0", b"\x22\x02\x0a\0\x12\x01a\x22\x02\x0a\0"),
];

#[test]
fn parts_are_joined(rt: HostRuntime) -> Tested {
    check_pairs::<Tree>(rt.alloc(), PARTED)?;
    check_pairs::<Cell>(rt.alloc(), CHOSEN)
}

/// Bytes that mean no tree, and their errors: the messages inside are read, too.
const BAD_TREES: &[(&[u8], CodecError)] = &[
    // the name of a child, of a child's child, of a child's best, and of a tree in a child's map
    (b"\x12\x03\x0a\x01\xff", CodecError::BadUtf8),
    (b"\x12\x05\x12\x03\x0a\x01\xff", CodecError::BadUtf8),
    (b"\x12\x05\x1a\x03\x0a\x01\xff", CodecError::BadUtf8),
    (b"\x12\x07\x22\x05\x12\x03\x0a\x01\xff", CodecError::BadUtf8),
    // the key of a child's map, and a text of another message in a child
    (b"\x12\x05\x22\x03\x0a\x01\xff", CodecError::BadUtf8),
    (b"\x12\x05\x2a\x03\x0a\x01\xff", CodecError::BadUtf8),
    // a child ends inside a field, its packed numbers end inside a number, and a number goes past 64 bits
    (b"\x12\x02\x0a\x05", CodecError::Truncated),
    (b"\x12\x03\x32\x01\x80", CodecError::Truncated),
    (
        b"\x12\x0c\x32\x0a\xff\xff\xff\xff\xff\xff\xff\xff\xff\x02",
        CodecError::BadVarint,
    ),
    // a child has a field without a number, and one without a wire type
    (b"\x12\x02\x00\x00", CodecError::BadTag),
    (b"\x12\x01\x0b", CodecError::BadWireType),
];

#[test]
fn bad_trees_are_refused(rt: HostRuntime) -> Tested {
    check_refusals::<Tree>(rt.alloc(), BAD_TREES)
}

/// A row of a number, a text, a sheet with a number under a key, and an empty row.
const CELLS: &[u8] = b"\x0a\x09\x09\0\0\0\0\0\0\xf0\x3f\
    \x0a\x03\x12\x01a\
    \x0a\x12\x1a\x10\x0a\x0e\x0a\x01k\x12\x09\x09\0\0\0\0\0\0\0\x40\
    \x0a\x02\x22\0";

/// Returns whether the row has four cells, and a sheet of one cell in one of them.
fn has_cells(alloc: Global, row: &Row) -> Result<bool, Fail> {
    let mut has_sheet = false;
    for cell in row.cells.iter() {
        let cell: Cell = cell.message(alloc)?;
        has_sheet = has_small_sheet(alloc, &cell)? || has_sheet;
    }
    Ok(has_sheet && row.cells.len() == 4)
}

#[test]
fn messages_contain_one_another(rt: HostRuntime) -> Tested {
    let alloc = rt.alloc();
    let is_kept = is_written::<Row>(alloc, CELLS, CELLS)?;
    let row = Row::decode(alloc, CELLS)?;
    check(is_kept && has_cells(alloc, &row)?)
}

/// Returns whether the cell has a sheet of one cell.
fn has_small_sheet(alloc: Global, cell: &Cell) -> Result<bool, Fail> {
    let Some(CellKind::Sheet(sheet)) = &cell.kind else {
        return Ok(false);
    };
    let sheet: Sheet = sheet.message(alloc)?;
    Ok(sheet.cells.len() == 1)
}

/// Returns the number of levels below a tree, each taken out of the one above.
fn levels_below(alloc: Global, tree: Tree) -> Result<usize, Fail> {
    let mut best = tree.best;
    for levels in 0..101 {
        let Some(child) = best else {
            return Ok(levels);
        };
        let child: Tree = child.into_message(alloc)?;
        best = child.best;
    }
    Ok(101)
}

#[test]
fn each_level_is_taken_out_of_the_one_above(rt: HostRuntime) -> Tested {
    let alloc = rt.alloc();
    let tree = Tree::decode(alloc, nested(alloc, BEST, 100)?.as_slice())?;
    check(levels_below(alloc, tree)? == 100)
}

/// Returns whether the first field of a tree has this number and these bytes.
fn is_first_field(tree: &Enclosed<TreeRules>, number: u32, bytes: &[u8]) -> Result<bool, Fail> {
    let field = tree.reader().field()?;
    match field.value {
        Value::LengthDelimited(value) => Ok(field.number.value == number && value == bytes),
        _ => Ok(false),
    }
}

#[test]
fn fields_are_read_where_they_lie(rt: HostRuntime) -> Tested {
    let tree = Enclosed::from_bytes(rt.alloc(), b"\x1a\x03\x0a\x01a")?;
    check(is_first_field(&tree, 3, b"\x0a\x01a")?)
}
