//! Parts outside their word, parts that overlap, constants that are too wide, and parts that do not fit what
//! they hold. Worked out by hand from the rules.

use crate::refusals::expect_refused;
use rb_rows_calls::surprise::Surprise;

// File, and what is refused.
const REFUSED: &str =
    "type A = A; layout A <8> = A : { word 8 { [4:5] = 0 } };~A: A3: leaf A: item 0: part [4:5] outside its word
type A = A; layout A <8> = A : { word 8 { [3:0] = 0 } };~A: A3: leaf A: item 0: part [3:0] outside its word
type A = A(u8); layout A <64> = A(_) : { word 64 { [0:64] -> 8 { word 8 { [0:8] .0, [8:1] = 0 } } } };~A: A3: leaf A(_): item 1: part [8:1] outside its word
type A = A; layout A <8> = A : { word 8 { [0:18446744073709551615] = 0 } };~A: A3: leaf A: item 0: part [0:18446744073709551615] outside its word
type Bit = Off | On; layout Bit <8> = split 0[0:1] { 0 => Off : { word 8 { [0:2] = 0, [1:3] = 1 } } 1 => On : { word 8 { [0:1] = 1 } } };~Bit: A3: leaf Off: item 0: parts [0:2] and [1:3] overlap
type A = A; layout A <8> = A : { word 8 { [2:1] = 0, [2:3] = 0 } };~A: A3: leaf A: item 0: parts [2:1] and [2:3] overlap
type A = A(u4, u4); layout A <8> = A(_, _) : { word 8 { [0:4] .0, [3:4] .1 } };~A: A3: leaf A(_, _): item 0: parts [0:4] and [3:4] overlap
type A = A; layout A <8> = A : { word 8 { [0:2] = 4 } };~A: A3: leaf A: item 0: constant 4 over 2 bits
type A = A; layout A <8> = A : { word 8 { [0:1] = 18446744073709551615 } };~A: A3: leaf A: item 0: constant 18446744073709551615 over 1 bits
type A = A; layout A <8, 8> = A : { word 8 { [0:8] = 255 }, word 8 { [0:8] = 256 } };~A: A3: leaf A: item 1: constant 256 over 8 bits
type A = A(u8); layout A <8> = A(_) : { word 8 { [0:7] .0 } };~A: A3: leaf A(_): item 0: part [0:7] does not fit field .0
type A = A(u8); layout A <8> = A(_) : { word 8 { [0:4] .0[0:5] } };~A: A3: leaf A(_): item 0: part [0:4] does not fit field .0
type A = A(u8); layout A <8> = A(_) : { word 8 { [0:4] .0[5:4] } };~A: A3: leaf A(_): item 0: part [0:4] does not fit field .0
type B = B; layout B <4> = B : { word 4 { } }; type A = A(B); layout A <4> = A(_) : { word 4 { [0:4] .0[0:4] } };~A: A3: leaf A(_): item 0: part [0:4] does not fit field .0
type A = A(u8); layout A <8> = A(_) : { word 8 { [0:8] .0 word 0 } };~A: A3: leaf A(_): item 0: part [0:8] does not fit field .0
type B = B; layout B <4> = B : { word 4 { } }; type A = A(B); layout A <4> = A(_) : { word 4 { [0:4] .0 word 1 } };~A: A3: leaf A(_): item 0: part [0:4] does not fit field .0
type B = B; layout B <4, 4> = B : { word 4 { }, word 4 { } }; type A = A(B); layout A <8> = A(_) : { word 8 { [0:8] .0 } };~A: A3: leaf A(_): item 0: part [0:8] does not fit field .0
type B = B; layout B <4, 4> = B : { word 4 { }, word 4 { } }; type A = A(B); layout A <8> = A(_) : { word 8 { [0:5] .0 word 0 } };~A: A3: leaf A(_): item 0: part [0:5] does not fit field .0
type Bit = Off | On; layout Bit <1> = split 0[0:1] { 0 => Off : { word 1 { [0:1] = 0 } } 1 => On : { word 1 { [0:1] = 1 } } }; type D = D(Bit, u8); layout D <8> = split 0[0:1] { 0 => D(Off, _) : { word 8 { [0:1] = 0, [1:7] .1 } } 1 => D(On, _) : { word 8 { [0:1] = 1 } } };~D: A3: leaf D(Off, _): item 0: part [1:7] does not fit field .1";

#[test]
fn parts_of_words(rt: HostRuntime) -> Result<(), Surprise> {
    expect_refused(rt.alloc(), REFUSED)
}
