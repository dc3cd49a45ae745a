//! Blocks of words and of numbers that are none, and pointers that are too short; and which of several faults
//! of one leaf is named. Worked out by hand from the rules.

use crate::refusals::{expect_agreed, expect_refusal, expect_refused};
use rb_rows_calls::call::repeated_text;
use rb_rows_calls::surprise::Surprise;
use std::alloc::Global;

// File, and what is refused.
const REFUSED: &str =
    "type A = A(u12); layout A <64> = A(_) : { word 64 { [0:64] -> 8 { word 12 { [0:12] .0 } } } };~A: A4: leaf A(_): block word of 12 bits
type A = A(u1); layout A <64> = A(_) : { word 64 { [0:64] -> 8 { inline .0 } } };~A: A4: leaf A(_): block word of 1 bits
type A = A(u8); layout A <64> = A(_) : { word 64 { [0:64] -> 8 { word 8 { [0:8] .0 }, word 128 { } } } };~A: A4: leaf A(_): block word of 128 bits
type A = A; layout A <64> = A : { word 64 { [0:64] -> 8 { } } };~A: A4: leaf A: block of 0 words
type A = A(u8); layout A <64> = A(_) : { word 64 { [0:40] -> 8 { inline .5 }, [40:8] .0 } };~A: A4: leaf A(_): block of 0 words
type A = A; layout A <64> = A : { word 64 { [0:64] -> 3 { word 8 { } } } };~A: A4: leaf A: alignment 3
type A = A; layout A <64> = A : { word 64 { [0:64] -> 0 { word 8 { } } } };~A: A4: leaf A: alignment 0
type A = A(u8); layout A <64> = A(_) : { word 64 { [0:64] -> 8 { word 8 { [0:8] .0 }, word 64 { [0:64] -> 128 { word 8 { } } } } } };~A: A4: leaf A(_): alignment 128
type Color = Red | Black; layout Color <1> = split 0[0:1] { 0 => Red : { word 1 { [0:1] = 0 } } 1 => Black : { word 1 { [0:1] = 1 } } }; type Tree = Empty | Node(Color, Tree, u32, Tree); layout Tree <32> = split 0[0:32] { 0 => Empty : { word 32 { [0:32] = 0 } } else => Node(_, _, _, _) : { word 32 { [0:1] .0, [2:21] -> 4 { word 32 { [0:32] .2 }, inline .1, inline .3 } } } };~Tree: A4: leaf Node(_, _, _, _): pointer of 23 bits
type A = A; layout A <64> = A : { word 64 { [0:23] -> 1 { word 8 { } } } };~A: A4: leaf A: pointer of 23 bits
type A = A; layout A <64> = A : { word 64 { [0:17] -> 64 { word 8 { } } } };~A: A4: leaf A: pointer of 23 bits
type A = A; layout A <64> = A : { word 64 { [0:64] -> 8 { word 8 { [0:8] -> 8 { word 8 { } } } } } };~A: A4: leaf A: pointer of 11 bits";

#[test]
fn blocks_and_pointers(rt: HostRuntime) -> Result<(), Surprise> {
    expect_refused(rt.alloc(), REFUSED)
}

// Files in which a leaf fails in two ways or more, and what is refused: of a word first its pointers as they
// are written, each with its alignment, its bits and the number of words behind it; then, in a block, its own
// width; then what is behind its pointers.
const FIRST: &str =
    "type A = A; layout A <64> = A : { word 64 { [0:11] -> 3 { word 12 { } } } };~A: A4: leaf A: alignment 3
type A = A; layout A <64> = A : { word 64 { [0:17] -> 1 { } } };~A: A4: leaf A: pointer of 17 bits
type A = A; layout A <64> = A : { word 64 { [0:17] -> 1 { word 12 { } } } };~A: A4: leaf A: pointer of 17 bits
type A = A; layout A <64> = A : { word 64 { [0:30] -> 1 { }, [30:11] -> 1 { word 8 { } } } };~A: A4: leaf A: block of 0 words
type A = A; layout A <64> = A : { word 64 { [0:30] -> 1 { word 12 { } }, [30:11] -> 1 { word 8 { } } } };~A: A4: leaf A: pointer of 11 bits
type A = A; layout A <64> = A : { word 64 { [30:12] -> 1 { word 8 { } }, [0:11] -> 1 { word 8 { } } } };~A: A4: leaf A: pointer of 12 bits
type A = A; layout A <64, 64> = A : { word 64 { [0:30] -> 1 { word 13 { } } }, word 64 { [0:11] -> 1 { word 8 { } } } };~A: A4: leaf A: block word of 13 bits
type A = A; layout A <64> = A : { word 64 { [0:64] -> 1 { word 33 { [0:20] -> 1 { word 8 { } } } } } };~A: A4: leaf A: pointer of 20 bits
type A = A; layout A <64> = A : { word 64 { [0:64] -> 1 { word 33 { [0:30] -> 1 { } } } } };~A: A4: leaf A: block of 0 words
type A = A; layout A <64> = A : { word 64 { [0:64] -> 1 { word 33 { [0:30] -> 1 { word 64 { [0:11] -> 1 { word 8 { } } } } } } } };~A: A4: leaf A: block word of 33 bits
type A = A; layout A <64> = A : { word 64 { [0:64] -> 1 { word 64 { [0:64] -> 1 { word 13 { } } }, word 12 { } } } };~A: A4: leaf A: block word of 13 bits
type A = A; layout A <64> = A : { word 64 { [0:64] -> 1 { word 12 { }, word 64 { [0:11] -> 1 { word 8 { } } } } } };~A: A4: leaf A: block word of 12 bits
type A = A; layout A <64> = A : { word 64 { [30:30] -> 1 { word 64 { [0:30] -> 1 { word 12 { } } } }, [0:30] -> 1 { word 13 { } } } };~A: A4: leaf A: block word of 12 bits
type A = A(u8, u12); layout A <64> = A(_, _) : { word 64 { [0:30] -> 1 { word 13 { [0:8] .0 } }, [30:30] -> 1 { inline .1 } } };~A: A4: leaf A(_, _): block word of 13 bits
type A = A(u8, u12); layout A <64> = A(_, _) : { word 64 { [0:30] -> 1 { inline .1, inline .0 }, [30:11] -> 1 { inline .5 } } };~A: A4: leaf A(_, _): pointer of 11 bits
type A = A | B; layout A <64> = split 0[0:1] { 0 => A : { word 64 { [0:1] = 0, [1:63] -> 1 { word 12 { } } } } 1 => B : { word 64 { [0:1] = 1, [1:11] -> 1 { word 8 { } } } } };~A: A4: leaf A: block word of 12 bits";

#[test]
fn first_of_several_faults(rt: HostRuntime) -> Result<(), Surprise> {
    expect_refused(rt.alloc(), FIRST)
}

// What stands before, a part, how often it stands, what stands behind, and what is refused.
type Long<'a> = (&'a str, &'a str, usize, &'a str, &'a str);

// The number of a leaf's blocks is named before all else, and that of a block's words before their widths.
const LONG: [Long; 6] = [
    (
        "type A = A; layout A <64> = A : { word 64 { [0:64] -> 8 { word 8 { }",
        ", word 8 { }",
        64,
        " } } };",
        "A: A4: leaf A: block of 65 words",
    ),
    (
        "type A = A; layout A <64> = A : { word 64 { [0:64] -> 8 { word 64 { [0:64] -> 1 { word 8 { } } }",
        ", word 64 { [0:64] -> 1 { word 8 { } } }",
        63,
        " } } };",
        "A: A4: leaf A: 65 blocks",
    ),
    (
        "type A = A; layout A <64, 64> = A : { word 64 { [0:32] -> 1 { word 8 { } } }, word 64 { [0:64] -> 8 { word 64 { [0:64] -> 1 { word 8 { } } }",
        ", word 64 { [0:32] -> 1 { word 8 { } }, [32:32] -> 1 { word 8 { } } }",
        63,
        " } } };",
        "A: A4: leaf A: 129 blocks",
    ),
    (
        "type A = A; layout A <64> = A : { word 64 { [0:32] -> 1 { word 8 { } }, [32:32] -> 8 { word 64 { [0:64] -> 1 { word 8 { } } }",
        ", word 64 { [0:64] -> 1 { word 8 { } } }",
        63,
        " } } };",
        "A: A4: leaf A: 66 blocks",
    ),
    (
        "type A = A; layout A <64> = A : { word 64 { [0:11] -> 3 { word 64 { [0:64] -> 1 { } }",
        ", word 64 { [0:64] -> 1 { word 12 { } } }",
        63,
        " } } };",
        "A: A4: leaf A: 65 blocks",
    ),
    (
        "type A = A; layout A <64> = A : { word 64 { [0:64] -> 8 { word 12 { }",
        ", word 64 { [0:11] -> 1 { } }",
        62,
        ", word 8 { }, word 8 { } } } };",
        "A: A4: leaf A: block of 65 words",
    ),
];

// Looks whether each file is refused for its reason.
fn expect_long(alloc: Global, rows: &[Long]) -> Result<(), Surprise> {
    for (before, part, times, behind, reason) in rows {
        let file = repeated_text(alloc, before, part, *times, behind)?;
        expect_refusal(alloc, file.as_str(), reason)?;
    }
    Ok(())
}

#[test]
fn many_words_and_blocks(rt: HostRuntime) -> Result<(), Surprise> {
    expect_long(rt.alloc(), &LONG)
}

// The first rows with a part less.
fn expect_less(alloc: Global, rows: &[Long]) -> Result<(), Surprise> {
    for (before, part, times, behind, _) in rows {
        let file = repeated_text(alloc, before, part, times.saturating_sub(1), behind)?;
        expect_agreed(alloc, file.as_str())?;
    }
    Ok(())
}

// One word less, and one block less.
#[test]
fn as_many_words_and_blocks_as_there_may_be(rt: HostRuntime) -> Result<(), Surprise> {
    expect_less(rt.alloc(), &LONG[..2])
}
