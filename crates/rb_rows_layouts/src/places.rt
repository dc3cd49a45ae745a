//! The first place where several fail: by rule, type, leaf and item, and without a leaf before those with one.
//! Worked out by hand from the rules.

use crate::refusals::expect_refused;
use rb_rows_calls::rows::expect_rows;
use rb_rows_calls::surprise::Surprise;

// File, and what is refused.
const REFUSED: &str =
    "type A = A; layout A <8> = A : { word 8 { [4:5] = 0 } }; type B = B; layout B <8> = B : { word 4 { } };~B: A2: leaf B: word 0 has 4 bits, wanted 8
type A = A(u8); layout A <8> = A(_) : { word 8 { } }; type B = B | C; layout B <8> = B : { word 8 { } };~B: A5: no leaf for C
layout B <8> = B : { word 4 { } }; type A = A; type B = B; layout A <8> = A : { word 5 { } };~A: A2: leaf A: word 0 has 5 bits, wanted 8
type Bit = Off | On; layout Bit <8> = split 0[0:1] { 0 => Off : { word 8 { [0:2] = 5 } } 1 => On : { word 8 { [7:2] = 1 } } };~Bit: A3: leaf Off: item 0: constant 5 over 2 bits
type A = A; layout A <8, 8> = A : { word 8 { [0:8] -> 8 { word 8 { [0:1] = 7 } } }, word 8 { [8:1] = 0 } };~A: A3: leaf A: item 1: constant 7 over 1 bits
type Bit = Off | On; layout Bit <8> = split 0[0:2] { 0 => Off : { word 8 { [0:2] = 0 } } 1 => Off : { word 8 { [0:2] = 1 } } };~Bit: A5: no leaf for On
type A = A; layout A <0> = A : { word 8 { [9:1] = 0 } }; type B = B;~A: A1: word 0 has 0 bits
type P = P(u8); layout P <64> = P(_) : { word 64 { [0:64] -> 1 { inline .0 } } }; type Q = Q(u8); layout Q <64> = Q(_) : { word 64 { [0:64] -> 1 { inline .0 } } }; type H = H(P); layout H <8> = H(P(_)) : { word 8 { [0:8] .0.0 } }; type T = E | C(S); type S = F | D(T); layout T <64> = split 0[0:2] { 0 => E : { word 64 { [0:2] = 0 } } 1 => C(F) : { word 64 { [0:2] = 1 } } 2 => C(D(_)) : { word 64 { [0:2] = 2, [3:61] -> 8 { inline .0.0 } } } }; layout S <64> = split 0[0:2] { 0 => F : { word 64 { [0:2] = 0 } } 1 => D(E) : { word 64 { [0:2] = 1 } } 2 => D(C(_)) : { word 64 { [0:2] = 2, [3:61] -> 8 { inline .0.0 } } } };~H: A9: P has a pointer
type Bit = Off | On; layout Bit <8> = split 0[0:1] { 0 => Off : { word 8 { [0:1] = 0 } } 0 => On : { word 8 { [0:1] = 1 } } };~Bit: A7: leaf On: literal 0 not known at 0[0:1]";

#[test]
fn first_places(rt: HostRuntime) -> Result<(), Surprise> {
    expect_refused(rt.alloc(), REFUSED)
}

// A layout that is refused.
const WHOLE: &str =
    "type Bit = Off | On; layout Bit <8> = Off : { word 16 { } }; fun main(b: Bit): u8 = 0;";

// The same, and a match that misses a value.
const MISSING: &str =
    "type Bit = Off | On; layout Bit <8> = Off : { word 16 { } }; fun main(b: Bit): u8 = match b { Off => 0 };";

const REFUSAL: &str = "3 ribbit: layout of Bit: A2: leaf Off: word 0 has 16 bits, wanted 8;";

// File, words, answer: a layout is looked at after the matches of a file, and before the words of a command.
const BETWEEN: [(&str, &str, &str); 6] = [
    (MISSING, "check E", "2 ribbit: match at byte 84 misses On;"),
    (WHOLE, "check E", REFUSAL),
    (WHOLE, "layout E", REFUSAL),
    (WHOLE, "compile E", REFUSAL),
    (WHOLE, "run E 1 64", REFUSAL),
    (WHOLE, "run E 1 64 Off Off", REFUSAL),
];

#[test]
fn layouts_between_matches_and_words(rt: HostRuntime) -> Result<(), Surprise> {
    expect_rows(rt.alloc(), "", &BETWEEN)
}
