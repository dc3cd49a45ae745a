//! The parts of images' values to which paths lead, or why they lead to none. The answers were worked out by hand from
//! the layouts. A `;` ends a line.

use crate::deep::KEPT;
use crate::images::{OPTION, SAME, TREE};
use crate::layouts::{BRANCH, LIST, PAIR, TWIN};
use rb_rows_calls::call::{call, lines, repeated_text};
use rb_rows_calls::rows::{ImageRow, expect_held, expect_image};
use rb_rows_calls::surprise::{Surprise, another};
use std::alloc::Global;

// An image, a path, and the answer.
type Part<'a> = (&'a str, &'a str, &'a str);

// Looks what `peek` answers to images of a file, which have the name `I`, and paths.
fn expect_parts(alloc: Global, file: &str, rows: &[Part]) -> Result<(), Surprise> {
    for (image, path, wanted) in rows {
        let words = format!(in alloc; "peek E I {path}")?;
        let image = lines(alloc, image)?;
        expect_image(
            alloc,
            words.as_str(),
            file.as_bytes(),
            image.as_slice(),
            wanted,
        )?;
    }
    Ok(())
}

// Two items.
const ITEMS: &str =
    "root 0x50;block 64 16 02000000000000000100000000000000;block 80 16 01000000000000004000000000000000;";

// A root word that leads into the middle of a block.
const MIDDLE: &str =
    "root 0x48;block 64 16 02000000000000000100000000000000;block 80 16 01000000000000004000000000000000;";

// One block that holds itself.
const LOOP: &str = "root 0x40;block 64 16 02000000000000004000000000000000;";

// The lower block leads to the upper one.
const RING: &str =
    "root 0x50;block 64 16 02000000000000005000000000000000;block 80 16 01000000000000004000000000000000;";

// Parts of a list.
const LISTS: [Part; 16] = [
    // the whole
    (ITEMS, ".", "0 Cons(1, Cons(2, Nil));"),
    // its first item
    (ITEMS, ".0", "0 1;"),
    // what follows
    (ITEMS, ".1", "0 Cons(2, Nil);"),
    // an item of that
    (ITEMS, ".1.0", "0 2;"),
    // the end
    (ITEMS, ".1.1", "0 Nil;"),
    // Nil has no field
    (ITEMS, ".1.1.0", "16 ribbit: image 46: step 2;"),
    // of which the first step is named
    (ITEMS, ".1.1.1.1", "16 ribbit: image 46: step 2;"),
    // Cons has two fields
    (ITEMS, ".2", "16 ribbit: image 46: step 0;"),
    // the inner one too
    (ITEMS, ".1.2", "16 ribbit: image 46: step 1;"),
    // the greatest step
    (ITEMS, ".4294967295", "16 ribbit: image 46: step 0;"),
    // past a number
    (ITEMS, ".0.0", "16 ribbit: image 46: step 1;"),
    // past a number behind
    (ITEMS, ".1.0.0.0", "16 ribbit: image 46: step 2;"),
    // another root
    (
        "root 0x40;block 64 16 02000000000000000100000000000000;block 80 16 01000000000000004000000000000000;",
        ".0",
        "0 2;",
    ),
    // Nil
    (
        "root 0x51;block 64 16 02000000000000000100000000000000;block 80 16 01000000000000004000000000000000;",
        ".",
        "0 Nil;",
    ),
    // which has no field
    (
        "root 0x51;block 64 16 02000000000000000100000000000000;block 80 16 01000000000000004000000000000000;",
        ".0",
        "16 ribbit: image 46: step 0;",
    ),
    // free bits
    (
        "root 0x56;block 64 16 02000000000000000100000000000000;block 80 16 01000000000000004000000000000000;",
        ".1.0",
        "0 2;",
    ),
];

// Parts of lists at fault, or beside a fault.
const TORN_LISTS: [Part; 16] = [
    // no root word
    ("root;", ".0", "16 ribbit: image 42: word 0;"),
    // one too many
    (
        "root 0x50 0x1;block 64 16 02000000000000000100000000000000;block 80 16 01000000000000004000000000000000;",
        ".1",
        "16 ribbit: image 42: word 1;",
    ),
    // the whole of one too many
    (
        "root 0x50 0x1;block 64 16 02000000000000000100000000000000;block 80 16 01000000000000004000000000000000;",
        ".",
        "16 ribbit: image 42: word 1;",
    ),
    // the middle of a block
    (MIDDLE, ".", "16 ribbit: image 44: base 0, address 72;"),
    // on the way to the item
    (MIDDLE, ".0", "16 ribbit: image 44: base 0, address 72;"),
    // and to what follows
    (MIDDLE, ".1.0", "16 ribbit: image 44: base 0, address 72;"),
    // a block of another size
    (
        "root 0x40;block 64 15 020000000000000001000000000000;",
        ".0",
        "16 ribbit: image 44: base 0, address 64;",
    ),
    // one block that holds itself, off the path
    (LOOP, ".0", "0 2;"),
    // at the end of the path
    (LOOP, ".1", "16 ribbit: image 44: base 64, address 64;"),
    // on the path
    (LOOP, ".1.0", "16 ribbit: image 44: base 64, address 64;"),
    // in what is shown
    (LOOP, ".", "16 ribbit: image 44: base 64, address 64;"),
    // upward, off the path
    (RING, ".1.0", "0 2;"),
    // upward, in what is shown: there it leads to no lower block
    (RING, ".1", "16 ribbit: image 44: base 64, address 80;"),
    // upward, at the end
    (RING, ".1.1", "16 ribbit: image 44: base 64, address 80;"),
    // no text
    ("rott", ".", "16 ribbit: image 40 at byte 2;"),
    // a block out of its place
    (
        "root 0x1;block 64 16 00000000000000000000000000000000;block 72 8 0000000000000000;",
        ".",
        "16 ribbit: image 41: block 1;",
    ),
];

// A shape of two numbers.
const SHAPE_OF_TWO: &str = "root 0x10;block 64 9 010100000002000000;";

// Of a shape, whose tag stands behind its pointer.
const SHAPES: [Part; 9] = [
    // behind a pointer
    (SHAPE_OF_TWO, ".1", "0 2;"),
    // the other leaf
    ("root 0x10;block 64 2 0005;", ".0", "0 5;"),
    // which has one field
    (
        "root 0x10;block 64 2 0005;",
        ".1",
        "16 ribbit: image 46: step 0;",
    ),
    // a split without an arm for 7
    (
        "root 0x10;block 64 2 0705;",
        ".0",
        "16 ribbit: image 43: base 64, place 0;",
    ),
    // the whole of it
    (
        "root 0x10;block 64 2 0705;",
        ".",
        "16 ribbit: image 43: base 64, place 0;",
    ),
    // the tag of Dot, whose block has two bytes
    (
        "root 0x10;block 64 9 000100000002000000;",
        ".0",
        "16 ribbit: image 44: base 0, address 64;",
    ),
    // a split behind a pointer to no block
    (
        "root 0x11;block 64 9 010100000002000000;",
        ".0",
        "16 ribbit: image 44: base 0, address 68;",
    ),
    // 33 bits
    (
        "root 0x100000010;block 64 9 010100000002000000;",
        ".",
        "16 ribbit: image 42: word 0;",
    ),
    // 33 bits, on the way
    (
        "root 0x100000010;block 64 9 010100000002000000;",
        ".1",
        "16 ribbit: image 42: word 0;",
    ),
];

// Two such shapes, side by side.
const BOTH: &str =
    "type Shape = Dot(u8) | Box(u32, u32);layout Shape <32> = split 0[0:32] -> 4 @0:8[0:8] { 0 => Dot(_) : { word 32 { [0:32] -> 4 { word 8 { [0:8] = 0 }, word 8 { [0:8] .0 } } } } 1 => Box(_, _) : { word 32 { [0:32] -> 4 { word 8 { [0:8] = 1 }, word 32 { [0:32] .0 }, word 32 { [0:32] .1 } } } } };type Pair = Both(Shape, Shape);layout Pair <32, 32> = Both(_, _) : { inline .0, inline .1 };fun main(p: Pair): Pair = p;";

// No arm is for the 7 of the first shape.
const NO_ARM: &str = "root 0x10 0x11;block 64 2 0705;block 68 2 0005;";

// Of them.
const TWO_SHAPES: [Part; 9] = [
    // the whole
    (
        "root 0x10 0x11;block 64 2 0006;block 68 2 0005;",
        ".",
        "0 Both(Dot(6), Dot(5));",
    ),
    // off the path
    (NO_ARM, ".1", "0 Dot(5);"),
    // and further
    (NO_ARM, ".1.0", "0 5;"),
    // at the end
    (NO_ARM, ".0", "16 ribbit: image 43: base 64, place 0;"),
    // on the path
    (NO_ARM, ".0.0", "16 ribbit: image 43: base 64, place 0;"),
    // in what is shown
    (NO_ARM, ".", "16 ribbit: image 43: base 64, place 0;"),
    // a root word off the path leads nowhere
    ("root 0x10 0x30;block 64 2 0006;", ".0", "0 Dot(6);"),
    // a root word too wide: every root word is on the path
    (
        "root 0x10 0x100000011;block 64 2 0006;block 68 2 0005;",
        ".0",
        "16 ribbit: image 42: word 1;",
    ),
    // the second one missing
    (
        "root 0x10;block 64 2 0006;",
        ".0",
        "16 ribbit: image 42: word 1;",
    ),
];

// A constant beside a number, in a block.
const MARK: &str =
    "type Mark = Mark(u8, u4);layout Mark <64> = Mark(_, _) : { word 64 { [0:64] -> 8 { word 8 { [0:8] .0 }, word 8 { [0:4] = 5, [4:4] .1 } } } };fun main(m: Mark): Mark = m;";

// The constant is 6.
const OTHER_CONSTANT: &str = "root 0x8;block 64 2 0736;";

// Of such a mark.
const MARKS: [Part; 5] = [
    // as it is
    ("root 0x8;block 64 2 0735;", ".", "0 Mark(7, 3);"),
    // four bits
    ("root 0x8;block 64 2 0735;", ".1", "0 3;"),
    // a constant off the path
    (OTHER_CONSTANT, ".0", "0 7;"),
    // beside the end
    (
        OTHER_CONSTANT,
        ".1",
        "16 ribbit: image 43: base 64, place 1;",
    ),
    // in what is shown
    (
        OTHER_CONSTANT,
        ".",
        "16 ribbit: image 43: base 64, place 1;",
    ),
];

// A sound instruction.
const WORD: &str = "root 0x208463;";

// Of an instruction, which has no split.
const INSTRUCTIONS: [Part; 5] = [
    // slices
    (WORD, ".3", "0 4;"),
    // a field
    (WORD, ".1", "0 1;"),
    // a constant beside it
    (
        "root 0x208462;",
        ".1",
        "16 ribbit: image 43: base 0, place 0;",
    ),
    // a bit too many
    ("root 0x100208463;", ".1", "16 ribbit: image 42: word 0;"),
    // four fields
    (WORD, ".4", "16 ribbit: image 46: step 0;"),
];

// A sound pair.
const TWO: &str =
    "root 0x9;block 64 8 0600000000000000;block 72 16 05000000000000000800000000000000;";

// The inner pointer leads to its own block.
const EQUAL: &str =
    "root 0x9;block 64 8 0600000000000000;block 72 16 05000000000000000900000000000000;";

// It leads far away.
const FAR: &str =
    "root 0x9;block 64 8 0600000000000000;block 72 16 050000000000000008000000000000ff;";

// Of a pair in two blocks.
const PAIRS: [Part; 7] = [
    // the outer block
    (TWO, ".0", "0 5;"),
    // the inner block
    (TWO, ".1", "0 6;"),
    // a pointer in a block, off the path
    (EQUAL, ".0", "0 5;"),
    // on the path
    (EQUAL, ".1", "16 ribbit: image 44: base 72, address 72;"),
    // in what is shown
    (EQUAL, ".", "16 ribbit: image 44: base 72, address 72;"),
    // an address of more than 64 bits
    (
        FAR,
        ".1",
        "16 ribbit: image 44: base 72, address 146997491837372989504;",
    ),
    // which is off this path
    (FAR, ".0", "0 5;"),
];

// A black node.
const NODE: &str = "root 0x41;block 64 12 070000000000000000000000;";

// Its left tree leads nowhere.
const NO_LEFT_TREE: &str = "root 0x41;block 64 12 070000000100000000000000;";

// A node below another.
const TWO_NODES: &str =
    "root 0x4d;block 64 12 070000000000000000000000;block 76 12 090000004000000000000000;";

// Of a tree, a node's color in the lowest bit of a pointer.
const TREES: [Part; 11] = [
    // a bit of a pointer
    (NODE, ".0", "0 Black;"),
    // has no field
    (NODE, ".0.0", "16 ribbit: image 46: step 1;"),
    // the number
    (NODE, ".2", "0 7;"),
    // the left tree
    (NODE, ".1", "0 Empty;"),
    // the left tree leads nowhere, beside the number
    (NO_LEFT_TREE, ".2", "0 7;"),
    // the colour
    (NO_LEFT_TREE, ".0", "0 Black;"),
    // the left tree itself
    (
        NO_LEFT_TREE,
        ".1",
        "16 ribbit: image 44: base 64, address 0;",
    ),
    // the right tree
    (NO_LEFT_TREE, ".3", "0 Empty;"),
    // in a tree of two
    (TWO_NODES, ".1", "0 Node(Red, Empty, 7, Empty);"),
    // its colour
    (TWO_NODES, ".1.0", "0 Red;"),
    // its number
    (TWO_NODES, ".1.2", "0 7;"),
];

// A red one.
const RED_NODE: &str = "root 0x40;block 64 12 070000000000000000000000;";

// Both trees of a node lead nowhere.
const NO_TREES: &str = "root 0x40;block 64 12 070000000100000001000000;";

// Of a tree whose leaves tell the colour of a node: there the colour is rebuilt.
const COLOURS: [Part; 8] = [
    // a colour that the leaf tells
    (RED_NODE, ".0", "0 Red;"),
    // the other one
    (NODE, ".0", "0 Black;"),
    // has no field
    (NODE, ".0.0", "16 ribbit: image 46: step 1;"),
    // the whole
    (RED_NODE, ".", "0 Node(Red, Empty, 7, Empty);"),
    // the number
    (RED_NODE, ".2", "0 7;"),
    // no node
    ("root 0x0;", ".0", "16 ribbit: image 46: step 0;"),
    // both trees lead nowhere
    (NO_TREES, ".0", "0 Red;"),
    // one of them
    (NO_TREES, ".1", "16 ribbit: image 44: base 64, address 0;"),
];

// Two lists that the leaf of a box takes apart.
const BOX: &str =
    "type List = Nil | Cons(u64, List); layout List <64> = split 0[0:1] { 1 => Nil : { word 64 { [0:1] = 1 } } 0 => Cons(_, _) : { word 64 { [0:1] = 0, [3:61] -> 8 { word 64 { [0:64] .0 }, inline .1 } } } };type Two = Two(List, List);layout Two <64, 64> = Two(_, _) : { inline .0, inline .1 };type Box = Box(Two, u8);layout Box <64> = Box(Two(_, _), _) : { word 64 { [0:64] -> 8 { inline .0.0, inline .0.1, word 8 { [0:8] .1 } } } };fun main(b: Box): Box = b;";

// Two empty lists and a number.
const FULL_BOX: &str = "root 0x8;block 64 17 0100000000000000010000000000000009;";

// The second list leads nowhere.
const TORN_BOX: &str = "root 0x8;block 64 17 0100000000000000480000000000000009;";

// The second list stands above the box.
const UPWARD_BOX: &str =
    "root 0x8;block 64 17 0100000000000000580000000000000009;block 88 16 03000000000000000100000000000000;";

// Of such a box.
const BOXES: [Part; 12] = [
    // two lists that the leaf takes apart
    (FULL_BOX, ".0", "0 Two(Nil, Nil);"),
    // the first
    (FULL_BOX, ".0.0", "0 Nil;"),
    // beside them
    (FULL_BOX, ".1", "0 9;"),
    // a list
    (
        "root 0x50;block 640 17 0100000000000000400000000000000009;",
        ".0.0",
        "0 Nil;",
    ),
    // the second one is bad, beside the number
    (TORN_BOX, ".1", "0 9;"),
    // beside the first
    (TORN_BOX, ".0.0", "0 Nil;"),
    // itself
    (
        TORN_BOX,
        ".0.1",
        "16 ribbit: image 44: base 64, address 72;",
    ),
    // in what is rebuilt, where it is a root word
    (TORN_BOX, ".0", "16 ribbit: image 44: base 0, address 72;"),
    // in the whole
    (TORN_BOX, ".", "16 ribbit: image 44: base 64, address 72;"),
    // three fields
    (FULL_BOX, ".0.2", "16 ribbit: image 46: step 1;"),
    // upward
    (
        UPWARD_BOX,
        ".0.1",
        "16 ribbit: image 44: base 64, address 88;",
    ),
    // upward, from a root word it may lead anywhere
    (UPWARD_BOX, ".0", "0 Two(Nil, Cons(3, Nil));"),
];

// A pair of three leaves that is taken apart, and rebuilt by its first part.
const CHOSEN: &str =
    "type Tri = A | B | C;layout Tri <2> = split 0[0:2] { 0 => A : { word 2 { [0:2] = 0 } } 1 => B : { word 2 { [0:2] = 1 } } 2 => C : { word 2 { [0:2] = 2 } } };type Q = Q(Tri, u3);layout Q <5> = split 0[0:2] { 0 => Q(A, _) : { word 5 { [0:2] = 0, [2:3] .1 } } 1 => Q(B, _) : { word 5 { [0:2] = 1, [2:3] .1 } } 2 => Q(C, _) : { word 5 { [0:2] = 2, [2:3] .1 } } };type W = W(Q, u1);layout W <8, 8> = W(Q(_, _), _) : { word 8 { [0:3] .0.1, [6:2] .0.0 }, word 8 { [3:1] .1 } };fun main(w: W): W = w;";

// By the last leaf.
const LAST: &str = "root 0x85 0x0;";

// Three, of which there is none.
const NO_LEAF: &str = "root 0xc5 0x0;";

// Of what holds such a pair.
const CHOICES: [Part; 11] = [
    // as it is
    (LAST, ".", "0 W(Q(C, 5), 0);"),
    // the pair, by its last leaf
    (LAST, ".0", "0 Q(C, 5);"),
    // beside it
    ("root 0x85 0x8;", ".1", "0 1;"),
    // its first part
    (LAST, ".0.0", "0 C;"),
    // its number
    (LAST, ".0.1", "0 5;"),
    // a split that the choice of a leaf asks has no arm for 3
    (NO_LEAF, ".0", "16 ribbit: image 43: base 0, place 0;"),
    // that split itself
    (NO_LEAF, ".0.0", "16 ribbit: image 43: base 0, place 0;"),
    // which the number does not ask
    (NO_LEAF, ".0.1", "0 5;"),
    // nor what stands beside
    ("root 0xc5 0x8;", ".1", "0 1;"),
    // in the whole
    (NO_LEAF, ".", "16 ribbit: image 43: base 0, place 0;"),
    // a word too wide
    ("root 0x185 0x0;", ".1", "16 ribbit: image 42: word 0;"),
];

// Of a tree or none, in the word of a tree.
const OPTIONS: [Part; 4] = [
    // a tree in the same word
    (
        "root 0x40;block 64 12 010000000000000000000000;",
        ".0",
        "0 Node(Red, Empty, 1, Empty);",
    ),
    // its number
    (
        "root 0x40;block 64 12 010000000000000000000000;",
        ".0.2",
        "0 1;",
    ),
    // none
    ("root 0x1;", ".0", "16 ribbit: image 46: step 0;"),
    // an empty tree
    ("root 0x0;", ".0", "0 Empty;"),
];

// Of an integer, whose image is one word.
const INTEGERS: [Part; 5] = [
    // an integer
    ("root 0xff;", ".", "0 255;"),
    // has no field
    ("root 0xff;", ".0", "16 ribbit: image 46: step 0;"),
    // nine bits
    ("root 0x100;", ".", "16 ribbit: image 42: word 0;"),
    // no word
    ("root;", ".", "16 ribbit: image 42: word 0;"),
    // two words
    ("root 0x1 0x1;", ".", "16 ribbit: image 42: word 1;"),
];

#[test]
fn lists(rt: HostRuntime) -> Result<(), Surprise> {
    expect_parts(rt.alloc(), LIST, &LISTS)?;
    expect_parts(rt.alloc(), LIST, &TORN_LISTS)
}

#[test]
fn shapes(rt: HostRuntime) -> Result<(), Surprise> {
    expect_parts(rt.alloc(), SAME, &SHAPES)
}

#[test]
fn two_shapes(rt: HostRuntime) -> Result<(), Surprise> {
    expect_parts(rt.alloc(), BOTH, &TWO_SHAPES)
}

// A constant that differs is a fault beside the end of the path and in the part that is shown, and nowhere else.
#[test]
fn marks(rt: HostRuntime) -> Result<(), Surprise> {
    expect_parts(rt.alloc(), MARK, &MARKS)
}

#[test]
fn instructions(rt: HostRuntime) -> Result<(), Surprise> {
    expect_parts(rt.alloc(), BRANCH, &INSTRUCTIONS)
}

#[test]
fn pairs(rt: HostRuntime) -> Result<(), Surprise> {
    expect_parts(rt.alloc(), PAIR, &PAIRS)
}

#[test]
fn trees(rt: HostRuntime) -> Result<(), Surprise> {
    expect_parts(rt.alloc(), TREE, &TREES)
}

#[test]
fn colours(rt: HostRuntime) -> Result<(), Surprise> {
    expect_parts(rt.alloc(), KEPT, &COLOURS)
}

#[test]
fn boxes(rt: HostRuntime) -> Result<(), Surprise> {
    expect_parts(rt.alloc(), BOX, &BOXES)
}

#[test]
fn choices(rt: HostRuntime) -> Result<(), Surprise> {
    expect_parts(rt.alloc(), CHOSEN, &CHOICES)
}

#[test]
fn options(rt: HostRuntime) -> Result<(), Surprise> {
    expect_parts(rt.alloc(), OPTION, &OPTIONS)
}

#[test]
fn integers(rt: HostRuntime) -> Result<(), Surprise> {
    expect_parts(rt.alloc(), "fun main(x: u1): u8 = 7;", &INTEGERS)
}

// Looks at the image of thirty blocks, each with twice the block before it: the whole has 2,147,483,647 nodes, and each
// step halves it.
fn expect_halves(alloc: Global) -> Result<(), Surprise> {
    let file = TWIN.as_bytes();
    let image = call(alloc, "image E 40 1024 30", file, &[], &[])?.out;
    let image = image.as_slice();
    let wanted = "13 ribbit: value over 1000000 nodes;";
    expect_image(alloc, "peek E I .", file, image, wanted)?;
    let words = repeated_text(alloc, "peek E I ", ".1", 29, "")?;
    expect_image(alloc, words.as_str(), file, image, "0 Fork(Tip, Tip);")?;
    let words = repeated_text(alloc, "peek E I ", ".0", 30, "")?;
    expect_image(alloc, words.as_str(), file, image, "0 Tip;")?;
    let words = repeated_text(alloc, "peek E I ", ".0", 31, "")?;
    let wanted = "16 ribbit: image 46: step 30;";
    expect_image(alloc, words.as_str(), file, image, wanted)
}

#[test]
fn parts_of_too_many_nodes(rt: HostRuntime) -> Result<(), Surprise> {
    expect_halves(rt.alloc())
}

// Looks at a list of so many items, along its whole length.
fn expect_long(alloc: Global, items: usize) -> Result<(), Surprise> {
    let file = LIST.as_bytes();
    let front = repeated_text(alloc, "image E 1 16384 ", "Cons(7,", items, "Nil")?;
    let words = repeated_text(alloc, front.as_str(), ")", items, "")?;
    let did = call(alloc, words.as_str(), file, &[], &[])?;
    if did.status != 0 {
        another(alloc, "image", did.err.as_slice(), b"an image")?;
    }
    let image = did.out.as_slice();
    let last = items.saturating_sub(1);
    let words = repeated_text(alloc, "peek E I ", ".1", last, ".0")?;
    expect_image(alloc, words.as_str(), file, image, "0 7;")?;
    let words = repeated_text(alloc, "peek E I ", ".1", items, "")?;
    expect_image(alloc, words.as_str(), file, image, "0 Nil;")?;
    let words = repeated_text(alloc, "peek E I ", ".1", items, ".1")?;
    let wanted = format!(in alloc; "16 ribbit: image 46: step {items};")?;
    expect_image(alloc, words.as_str(), file, image, wanted.as_str())
}

#[test]
fn a_long_path(rt: HostRuntime) -> Result<(), Surprise> {
    expect_long(rt.alloc(), 500)
}

// Words, file, image and answer: the path is looked at first, then the file is read and checked before the image is
// opened.
const IN_TURN: [ImageRow; 8] = [
    (
        "peek F J 1",
        "fun main(): u8 = 0;",
        "",
        "6 ribbit: usage at word 4;",
    ),
    (
        "peek E J .",
        "fun main(): u8 = 0;",
        "",
        "7 ribbit: read fault;",
    ),
    (
        "peek F I .",
        "fun main(): u8 = 0;",
        "root 0x1\n",
        "7 ribbit: read fault;",
    ),
    (
        "peek E J .0",
        "fun main(): u8 = y;",
        "",
        "2 ribbit: unknown name y at byte 17;",
    ),
    (
        "peek E J .0",
        "type A = A; fun main(): A = A;",
        "",
        "3 ribbit: layout of A: A1: no layout;",
    ),
    (
        "peek E E .0",
        "fun main(): u8 = 0;",
        "",
        "16 ribbit: image 40 at byte 0;",
    ),
    (
        "peek I I .",
        "",
        "root 0x1\n",
        "1 ribbit: bad byte at byte 6;",
    ),
    // an image of another value's type than is asked for
    (
        "peek E I .",
        "fun main(): u1 = 0;",
        "root 0x2\n",
        "16 ribbit: image 42: word 0;",
    ),
];

#[test]
fn a_file_before_its_image(rt: HostRuntime) -> Result<(), Surprise> {
    expect_held(rt.alloc(), &IN_TURN)
}
