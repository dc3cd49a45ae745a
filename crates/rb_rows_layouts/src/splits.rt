//! Leaves that fail a test above them, and splits with literals twice, with literals that are too wide, or without
//! an arm. Worked out by hand from the rules.

use crate::refusals::{Either, expect_either, expect_refused};
use rb_rows_calls::surprise::Surprise;

// File, and what is refused.
const FAILING: &str =
    "type Bit = Off | On; layout Bit <8> = split 1[0:1] { 0 => Off : { word 8 { [0:1] = 0 } } 1 => On : { word 8 { [0:1] = 1 } } };~Bit: A7: leaf Off: 1[0:1] does not resolve
type Bit = Off | On; layout Bit <8> = split 0[8:1] { 0 => Off : { word 8 { [0:1] = 0 } } 1 => On : { word 8 { [0:1] = 1 } } };~Bit: A7: leaf Off: 0[8:1] does not resolve
type Bit = Off | On; layout Bit <8> = split 0[0:0] { 0 => Off : { word 8 { [0:1] = 0 } } 1 => On : { word 8 { [0:1] = 1 } } };~Bit: A7: leaf Off: 0[0:0] does not resolve
type Shape = Dot(u8) | Box(u32, u32); layout Shape <32> = split 0[0:32] -> 8 @0:8[0:8] { 0 => Dot(_) : { word 32 { [0:32] -> 4 { word 8 { [0:8] = 0 }, word 8 { [0:8] .0 } } } } 1 => Box(_, _) : { word 32 { [0:32] -> 4 { word 8 { [0:8] = 1 }, word 32 { [0:32] .0 }, word 32 { [0:32] .1 } } } } };~Shape: A7: leaf Dot(_): 0[0:32] -> 8 @0:8[0:8] does not resolve
type Shape = Dot(u8) | Box(u32, u32); layout Shape <32> = split 0[0:32] -> 4 @2:8[0:8] { 0 => Dot(_) : { word 32 { [0:32] -> 4 { word 8 { [0:8] = 0 }, word 8 { [0:8] .0 } } } } 1 => Box(_, _) : { word 32 { [0:32] -> 4 { word 8 { [0:8] = 1 }, word 32 { [0:32] .0 }, word 32 { [0:32] .1 } } } } };~Shape: A7: leaf Dot(_): 0[0:32] -> 4 @2:8[0:8] does not resolve
type Shape = Dot(u8) | Box(u32, u32); layout Shape <32> = split 0[1:31] -> 4 @0:8[0:8] { 0 => Dot(_) : { word 32 { [0:32] -> 4 { word 8 { [0:8] = 0 }, word 8 { [0:8] .0 } } } } 1 => Box(_, _) : { word 32 { [0:32] -> 4 { word 8 { [0:8] = 1 }, word 32 { [0:32] .0 }, word 32 { [0:32] .1 } } } } };~Shape: A7: leaf Dot(_): 0[1:31] -> 4 @0:8[0:8] does not resolve
type Bit = Off | On; layout Bit <8> = split 0[0:1] { 0 => Off : { word 8 { [0:1] = 1 } } 1 => On : { word 8 { [0:1] = 1 } } };~Bit: A7: leaf Off: literal 0 not known at 0[0:1]
type Bit = Off | On; layout Bit <8> = split 0[0:1] { 0 => Off : { word 8 { } } 1 => On : { word 8 { [0:1] = 1 } } };~Bit: A7: leaf Off: literal 0 not known at 0[0:1]
type Shape = Dot(u8) | Box(u32, u32); layout Shape <32> = split 0[0:32] -> 4 @0:8[0:8] { 0 => Dot(_) : { word 32 { [0:32] -> 4 { word 8 { [0:8] = 0 }, word 8 { [0:8] .0 } } } } 1 => Box(_, _) : { word 32 { [0:32] -> 4 { word 8 { [0:8] = 2 }, word 32 { [0:32] .0 }, word 32 { [0:32] .1 } } } } };~Shape: A7: leaf Box(_, _): literal 1 not known at 0[0:32] -> 4 @0:8[0:8]
type Shape = Dot(u8) | Box(u32, u32); layout Shape <32> = split 0[0:32] -> 4 @1:8[0:8] { 0 => Dot(_) : { word 32 { [0:32] -> 4 { word 8 { [0:8] = 0 }, word 8 { [0:8] .0 } } } } 1 => Box(_, _) : { word 32 { [0:32] -> 4 { word 8 { [0:8] = 1 }, word 32 { [0:32] .0 }, word 32 { [0:32] .1 } } } } };~Shape: A7: leaf Dot(_): literal 0 not known at 0[0:32] -> 4 @1:8[0:8]
type T = A(u1) | B; layout T <1> = split 0[0:1] { 0 => A(_) : { word 1 { [0:1] .0 } } 1 => B : { word 1 { [0:1] = 1 } } };~T: A7: leaf A(_): literal 0 not known at 0[0:1]
type Color = Red | Black; layout Color <1> = split 0[0:1] { 0 => Red : { word 1 { [0:1] = 0 } } 1 => Black : { word 1 { [0:1] = 1 } } }; type Tree = Empty | Node(Color, Tree, u32, Tree); layout Tree <32> = split 0[24:8] { 0 => Empty : { word 32 { [0:32] = 0 } } else => Node(_, _, _, _) : { word 32 { [0:1] .0, [2:22] -> 4 { word 32 { [0:32] .2 }, inline .1, inline .3 } } } };~Tree: A7: leaf Node(_, _, _, _): literal 0 not excluded at 0[24:8]
type Color = Red | Black; layout Color <1> = split 0[0:1] { 0 => Red : { word 1 { [0:1] = 0 } } 1 => Black : { word 1 { [0:1] = 1 } } }; type Tree = Empty | Node(Color, Tree, u32, Tree); layout Tree <32> = split 0[0:32] { 0 => Empty : { word 32 { [0:32] = 0 } } else => Node(_, _, _, _) : { word 32 { [0:1] .0, [2:22] -> 4 { word 32 { [0:32] .2 }, inline .1, inline .3 } } } }; type Opt = No | Yes(Tree); layout Opt <32> = split 0[0:32] { 64 => No : { word 32 { [0:32] = 64 } } else => Yes(_) : { word 32 { [0:32] .0 } } };~Opt: A7: leaf Yes(_): literal 64 not excluded at 0[0:32]
type Opt = No | Yes(u64); layout Opt <64> = split 0[0:64] { 0 => No : { word 64 { [0:64] = 0 } } else => Yes(_) : { word 64 { [0:64] .0 } } };~Opt: A7: leaf Yes(_): literal 0 not excluded at 0[0:64]
type T = A | B | C; layout T <8> = split 0[0:2] { 0 => A : { word 8 { [0:2] = 0 } } 1 => B : { word 8 { [0:2] = 1 } } else => C : { word 8 { [1:1] = 0 } } };~T: A7: leaf C: literal 0 not excluded at 0[0:2]";

#[test]
fn leaves_that_fail_a_test(rt: HostRuntime) -> Result<(), Surprise> {
    expect_refused(rt.alloc(), FAILING)
}

// File, and what is refused.
const REFUSED: &str =
    "type Bit = Off | On; layout Bit <8> = split 0[0:1] { 0 => Off : { word 8 { [0:1] = 0 } } 0 => On : { word 8 { [0:1] = 0 } } };~Bit: A8: split 0[0:1]: literal 0 twice
type T = A | B | C; layout T <8> = split 0[0:2] { 0 => A : { word 8 { [0:2] = 0 } } 3 => B : { word 8 { [0:2] = 3 } } 3 => C : { word 8 { [0:2] = 3 } } };~T: A8: split 0[0:2]: literal 3 twice
type T = A | B | C; layout T <8> = split 0[0:1] { 0 => A : { word 8 { [0:1] = 0 } } else => split 0[1:1] { 1 => B : { word 8 { [0:2] = 3 } } 1 => C : { word 8 { [0:2] = 3 } } } };~T: A8: split 0[1:1]: literal 1 twice
type Bit = Off | On; layout Bit <8> = split 0[0:2] { 0 => Off : { word 8 { [0:2] = 0 } } 1 => On : { word 8 { [0:2] = 1 } } 2 => split 0[3:5] { } };~Bit: A8: split 0[3:5]: no arm
type Bit = Off | On; layout Bit <8> = split 0[0:2] { 0 => Off : { word 8 { [0:2] = 0 } } 1 => On : { word 8 { [0:2] = 1 } } else => split 9[0:1] -> 8 @0:8[0:8] { } };~Bit: A8: split 9[0:1] -> 8 @0:8[0:8]: no arm
type T = A | B; layout T <8> = split 0[0:2] { 0 => A : { word 8 { [0:2] = 0 } } 1 => B : { word 8 { [0:2] = 1 } } 2 => split 0[2:1] { 1 => split 0[3:1] { else => split 0[4:1] { } } } };~T: A8: split 0[4:1]: no arm";

#[test]
fn splits_of_layouts(rt: HostRuntime) -> Result<(), Surprise> {
    expect_refused(rt.alloc(), REFUSED)
}

// A literal of too many bits has no leaf below it, so some split below it has no arm: either may be told.
const WIDE: [Either; 3] = [
    (
        "type Bit = Off | On; layout Bit <8> = split 0[0:1] { 0 => Off : { word 8 { [0:1] = 0 } } 1 => On : { word 8 { [0:1] = 1 } } 2 => split 0[3:5] { } };",
        "Bit: A8: split 0[0:1]: literal 2 over 1 bits",
        "Bit: A8: split 0[3:5]: no arm",
    ),
    (
        "type Bit = Off | On; layout Bit <8> = split 0[0:1] { 0 => Off : { word 8 { [0:1] = 0 } } 1 => On : { word 8 { [0:1] = 1 } } 18446744073709551615 => split 0[3:5] { } };",
        "Bit: A8: split 0[0:1]: literal 18446744073709551615 over 1 bits",
        "Bit: A8: split 0[3:5]: no arm",
    ),
    (
        "type Bit = Off | On; layout Bit <8> = split 0[0:1] { 0 => Off : { word 8 { [0:1] = 0 } } else => split 0[0:8] { 1 => On : { word 8 { [0:8] = 1 } } 256 => split 0[3:5] { } } };",
        "Bit: A8: split 0[0:8]: literal 256 over 8 bits",
        "Bit: A8: split 0[3:5]: no arm",
    ),
];

#[test]
fn literals_of_too_many_bits(rt: HostRuntime) -> Result<(), Surprise> {
    expect_either(rt.alloc(), &WIDE)
}
