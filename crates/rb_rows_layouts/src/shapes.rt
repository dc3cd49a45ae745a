//! Types without a layout, shapes with words that are none, and leaves whose root words are not the shape's.
//! Worked out by hand from the rules.

use crate::refusals::expect_refused;
use rb_rows_calls::surprise::Surprise;

// File, and what is refused.
const REFUSED: &str = "type Bit = Off | On;~Bit: A1: no layout
type A = A; layout A <8> = A : { word 8 { } }; type B = B;~B: A1: no layout
layout Y <8> = Y : { word 8 { } }; type X = X; type Y = Y;~X: A1: no layout
type A = A; layout A <0> = A : { word 0 { } };~A: A1: word 0 has 0 bits
type A = A; layout A <8, 65> = A : { word 8 { }, word 65 { } };~A: A1: word 1 has 65 bits
type A = A; layout A <64, 64, 100> = A : { word 64 { }, word 64 { }, word 100 { } };~A: A1: word 2 has 100 bits
type A = A; layout A <8, 8> = A : { word 8 { } };~A: A2: leaf A: wanted 2 words, found 1
type A = A; layout A <8, 8> = A : { word 8 { }, word 8 { }, word 8 { } };~A: A2: leaf A: wanted 2 words, found 3
type A = A(u8); layout A <8> = A(_) : { inline .1 };~A: A2: leaf A(_): wanted 1 words, found 0
type A = A; layout A <8> = A : { word 16 { } };~A: A2: leaf A: word 0 has 16 bits, wanted 8
type A = A(u16); layout A <8> = A(_) : { inline .0 };~A: A2: leaf A(_): word 0 has 16 bits, wanted 8
type Bit = Off | On; layout Bit <8, 4> = split 0[0:1] { 0 => Off : { word 8 { [0:1] = 0 }, word 4 { } } 1 => On : { word 8 { [0:1] = 1 }, word 3 { } } };~Bit: A2: leaf On: word 1 has 3 bits, wanted 4";

#[test]
fn shapes_and_roots(rt: HostRuntime) -> Result<(), Surprise> {
    expect_refused(rt.alloc(), REFUSED)
}
