//! Bits and words of fields that are held by no part or by two, and parts of fields that are not open. Worked out
//! by hand from the rules.

use crate::refusals::{Either, expect_either, expect_refused};
use rb_rows_calls::surprise::Surprise;

// File, and what is refused.
const REFUSED: &str =
    "type Instr = Branch(u3, u5, u5, u12); layout Instr <32> = Branch(_, _, _, _) : { word 32 { [0:7] = 99, [8:4] .3[0:4], [12:3] .0, [15:5] .1, [20:5] .2, [25:6] .3[4:6], [31:1] .3[11:1] } };~Instr: A6: leaf Branch(_, _, _, _): field .3 bit 10 not held
type Color = Red | Black; layout Color <1> = split 0[0:1] { 0 => Red : { word 1 { [0:1] = 0 } } 1 => Black : { word 1 { [0:1] = 1 } } }; type Tree = Empty | Node(Color, Tree, u32, Tree); layout Tree <32> = split 0[0:32] { 0 => Empty : { word 32 { [0:32] = 0 } } else => Node(_, _, _, _) : { word 32 { [0:1] .0, [2:22] -> 4 { word 32 { [0:32] .2 }, inline .1, word 32 { } } } } };~Tree: A6: leaf Node(_, _, _, _): field .3 word 0 not held
type B = B; layout B <4, 4> = B : { word 4 { }, word 4 { } }; type A = A(B); layout A <8> = A(_) : { word 8 { [0:4] .0 word 0 } };~A: A6: leaf A(_): field .0 word 1 not held
type Bit = Off | On; layout Bit <1> = split 0[0:1] { 0 => Off : { word 1 { [0:1] = 0 } } 1 => On : { word 1 { [0:1] = 1 } } }; type C = C(u2); layout C <2> = C(_) : { word 2 { [0:2] .0 } }; type D = D(Bit, C); layout D <8> = D(_, C(_)) : { word 8 { [0:1] .0, [1:1] .1.0[0:1] } };~D: A6: leaf D(_, C(_)): field .1.0 bit 1 not held
type A = A(u4); layout A <8> = A(_) : { word 8 { [0:4] .0, [4:1] .0[2:1] } };~A: A6: leaf A(_): field .0 bit 2 held twice
type B = B; layout B <4> = B : { word 4 { } }; type A = A(B); layout A <8> = A(_) : { word 8 { [0:4] .0, [4:4] .0 word 0 } };~A: A6: leaf A(_): field .0 word 0 held twice
type A = A(u8, u8); layout A <64, 8> = A(_, _) : { word 64 { [0:64] -> 8 { inline .0, word 8 { [0:8] .1 } } }, word 8 { [7:1] .1[7:1] } };~A: A6: leaf A(_, _): field .1 bit 7 held twice
type B = B; layout B <4, 4> = B : { word 4 { }, word 4 { } }; type A = A(B); layout A <4, 4, 4> = A(_) : { word 4 { [0:4] .0 word 0 }, inline .0 };~A: A6: leaf A(_): field .0 word 0 held twice
type A = A(u8); layout A <8, 8> = A(_) : { word 8 { [0:8] .0 }, word 8 { [0:8] .1 } };~A: A6: leaf A(_): field .1 not open
type Bit = Off | On; layout Bit <1> = split 0[0:1] { 0 => Off : { word 1 { [0:1] = 0 } } 1 => On : { word 1 { [0:1] = 1 } } }; type D = D(Bit); layout D <2> = split 0[0:1] { 0 => D(Off) : { word 2 { [0:1] = 0, [1:1] .0 } } 1 => D(On) : { word 2 { [0:1] = 1 } } };~D: A6: leaf D(Off): field .0 not open
type A = A(u8); layout A <8> = A(_) : { word 8 { [0:8] .0, [0:8] .0.0 } };~A: A6: leaf A(_): field .0.0 not open
type A = A(u8); layout A <8> = A(_) : { inline .0, inline .7 };~A: A6: leaf A(_): field .7 not open";

#[test]
fn fields_held_once(rt: HostRuntime) -> Result<(), Surprise> {
    expect_refused(rt.alloc(), REFUSED)
}

// The bit 10 of the last field does not stand in it, and its bit 0 stands there twice: either may be told.
const TWICE: [Either; 1] = [(
    "type Instr = Branch(u3, u5, u5, u12); layout Instr <32> = Branch(_, _, _, _) : { word 32 { [0:7] = 99, [7:1] .3[0:1], [8:4] .3[0:4], [12:3] .0, [15:5] .1, [20:5] .2, [25:6] .3[4:6], [31:1] .3[11:1] } };",
    "Instr: A6: leaf Branch(_, _, _, _): field .3 bit 10 not held",
    "Instr: A6: leaf Branch(_, _, _, _): field .3 bit 0 held twice",
)];

#[test]
fn a_bit_twice_in_the_place_of_another(rt: HostRuntime) -> Result<(), Surprise> {
    expect_either(rt.alloc(), &TWICE)
}
