//! Values that two leaves hold, and values that none holds, where a leaf is a form in which a layout stores values of
//! its type. Worked out by hand from rule A5; each pattern that is missed is the only one.

use crate::refusals::expect_refused;
use rb_rows_calls::surprise::Surprise;

// A file, and its refusal.
const REFUSED: &str =
    "type Bit = Off | On; layout Bit <8> = split 0[0:2] { 0 => Off : { word 8 { [0:2] = 0 } } 1 => Off : { word 8 { [0:2] = 1 } } 2 => On : { word 8 { [0:2] = 2 } } };~Bit: A5: leaves Off and Off have a common value
type Bit = Off | On; layout Bit <8> = split 0[0:2] { 0 => Off : { word 8 { [0:2] = 0 } } 1 => On : { word 8 { [0:2] = 1 } } 2 => On : { word 8 { [0:2] = 2 } } };~Bit: A5: leaves On and On have a common value
type Bit = Off | On; layout Bit <1> = split 0[0:1] { 0 => Off : { word 1 { [0:1] = 0 } } 1 => On : { word 1 { [0:1] = 1 } } }; type D = D(Bit, Bit); layout D <8> = split 0[0:1] { 0 => D(_, Off) : { word 8 { [0:1] = 0, [1:1] .0 } } 1 => D(On, _) : { word 8 { [0:1] = 1, [1:1] .1 } } else => D(Off, On) : { word 8 { } } };~D: A5: leaves D(_, Off) and D(On, _) have a common value
type Bit = Off | On; layout Bit <1> = split 0[0:1] { 0 => Off : { word 1 { [0:1] = 0 } } 1 => On : { word 1 { [0:1] = 1 } } }; type D = D(Bit, Bit); layout D <8> = split 0[0:1] { 0 => D(On, Off) : { word 8 { [0:1] = 0 } } 1 => D(_, _) : { word 8 { [0:1] = 1, [1:1] .0, [2:1] .1 } } };~D: A5: leaves D(On, Off) and D(_, _) have a common value
type Bit = Off | On; layout Bit <1> = split 0[0:1] { 0 => Off : { word 1 { [0:1] = 0 } } 1 => On : { word 1 { [0:1] = 1 } } }; type C = C(u8) | E; type D = D(C, Bit); layout C <16> = split 0[8:1] { 0 => C(_) : { word 16 { [0:8] .0, [8:1] = 0 } } 1 => E : { word 16 { [8:1] = 1 } } }; layout D <16> = split 0[0:2] { 0 => D(E, _) : { word 16 { [0:2] = 0, [2:1] .1 } } 1 => D(C(_), Off) : { word 16 { [0:2] = 1, [2:8] .0.0 } } 2 => D(C(_), On) : { word 16 { [0:2] = 2, [2:8] .0.0 } } 3 => D(E, On) : { word 16 { [0:2] = 3 } } };~D: A5: leaves D(E, _) and D(E, On) have a common value
type Bit = Off | On; layout Bit <8> = Off : { word 8 { } };~Bit: A5: no leaf for On
type T = A | B | C; layout T <8> = split 0[0:1] { 0 => A : { word 8 { [0:1] = 0 } } 1 => C : { word 8 { [0:1] = 1 } } };~T: A5: no leaf for B
type Bit = Off | On; layout Bit <1> = split 0[0:1] { 0 => Off : { word 1 { [0:1] = 0 } } 1 => On : { word 1 { [0:1] = 1 } } }; type D = D(Bit, Bit); layout D <8> = split 0[0:1] { 0 => D(Off, _) : { word 8 { [0:1] = 0, [1:1] .1 } } 1 => D(On, On) : { word 8 { [0:1] = 1 } } };~D: A5: no leaf for D(On, Off)";

#[test]
fn values_of_leaves(rt: HostRuntime) -> Result<(), Surprise> {
    expect_refused(rt.alloc(), REFUSED)
}
