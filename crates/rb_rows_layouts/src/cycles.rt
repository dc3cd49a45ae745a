//! Flattened types with a pointer, types that flatten each other, and types that hold each other in their root
//! words. Worked out by hand from the rules.

use crate::refusals::expect_refused;
use rb_rows_calls::surprise::Surprise;

// File, and what is refused.
const REFUSED: &str =
    "type Crate = Cr(u64); layout Crate <64> = Cr(_) : { word 64 { [0:64] -> 8 { word 64 { [0:64] .0 } } } }; type Hold = Hd(Crate); layout Hold <64> = Hd(Cr(_)) : { word 64 { [0:64] .0.0 } };~Hold: A9: Crate has a pointer
type S = S(R); layout S <64> = S(R(_)) : { word 64 { [0:64] .0.0 } }; type R = R(u64); layout R <64> = R(_) : { word 64 { [0:64] -> 8 { inline .0 } } }; type Q = Q(R); layout Q <64> = Q(R(_)) : { word 64 { [0:64] .0.0 } };~S: A9: R has a pointer
type P = P(u8); layout P <64> = P(_) : { word 64 { [0:64] -> 1 { inline .0 } } }; type Q = Q(u8); layout Q <64> = Q(_) : { word 64 { [0:64] -> 1 { inline .0 } } }; type H = H(P) | K(Q); layout H <16> = split 0[0:1] { 0 => K(Q(_)) : { word 16 { [0:1] = 0, [8:8] .0.0 } } 1 => H(P(_)) : { word 16 { [0:1] = 1, [8:8] .0.0 } } };~H: A9: Q has a pointer
type T = E | C(T); layout T <64> = split 0[0:2] { 0 => E : { word 64 { [0:2] = 0 } } 1 => C(E) : { word 64 { [0:2] = 1 } } 2 => C(C(_)) : { word 64 { [0:2] = 2, [3:61] -> 8 { inline .0.0 } } } };~T: A9: flattening cycle T
type Z = Z; layout Z <1> = Z : { word 1 { } }; type T = E | C(S); type S = F | D(T); layout T <64> = split 0[0:2] { 0 => E : { word 64 { [0:2] = 0 } } 1 => C(F) : { word 64 { [0:2] = 1 } } 2 => C(D(_)) : { word 64 { [0:2] = 2, [3:61] -> 8 { inline .0.0 } } } }; layout S <64> = split 0[0:2] { 0 => F : { word 64 { [0:2] = 0 } } 1 => D(E) : { word 64 { [0:2] = 1 } } 2 => D(C(_)) : { word 64 { [0:2] = 2, [3:61] -> 8 { inline .0.0 } } } };~T: A9: flattening cycle T, S
type Z = Z; layout Z <1> = Z : { word 1 { } }; type U = U(V) | NU; layout U <64> = split 0[0:2] { 0 => NU : { word 64 { [0:2] = 0 } } 1 => U(NV) : { word 64 { [0:2] = 1 } } 2 => U(V(_)) : { word 64 { [0:2] = 2, [3:61] -> 8 { inline .0.0 } } } }; type V = V(W) | NV; layout V <64> = split 0[0:2] { 0 => NV : { word 64 { [0:2] = 0 } } 1 => V(NW) : { word 64 { [0:2] = 1 } } 2 => V(W(_)) : { word 64 { [0:2] = 2, [3:61] -> 8 { inline .0.0 } } } }; type W = W(U) | NW; layout W <64> = split 0[0:2] { 0 => NW : { word 64 { [0:2] = 0 } } 1 => W(NU) : { word 64 { [0:2] = 1 } } 2 => W(U(_)) : { word 64 { [0:2] = 2, [3:61] -> 8 { inline .0.0 } } } };~U: A9: flattening cycle U, V, W
type T = Z | S(T); layout T <64, 8> = split 0[0:1] { 1 => Z : { word 64 { [0:1] = 1 }, word 8 { } } 0 => S(_) : { word 64 { [0:1] = 0, [3:61] -> 8 { word 64 { [0:64] .0 word 0 } } }, word 8 { [0:8] .0 word 1 } } };~T: A10: holding cycle T
type T = N | C(S); layout T <64, 8> = split 0[0:1] { 1 => N : { word 64 { [0:1] = 1 }, word 8 { } } 0 => C(_) : { word 64 { [0:1] = 0, [3:61] -> 8 { word 64 { [0:64] .0 word 0 } } }, word 8 { [0:8] .0 word 1 } } }; type S = Y | D(T); layout S <64, 8> = split 0[0:1] { 1 => Y : { word 64 { [0:1] = 1 }, word 8 { } } 0 => D(_) : { word 64 { [0:1] = 0, [3:61] -> 8 { word 64 { [0:64] .0 word 0 } } }, word 8 { [0:8] .0 word 1 } } };~T: A10: holding cycle T, S
type X = K | L(T); layout X <64, 8> = split 0[0:1] { 1 => K : { word 64 { [0:1] = 1 }, word 8 { } } 0 => L(_) : { word 64 { [0:1] = 0, [3:61] -> 8 { word 64 { [0:64] .0 word 0 } } }, word 8 { [0:8] .0 word 1 } } }; type S = Y | D(T); layout S <64, 8> = split 0[0:1] { 1 => Y : { word 64 { [0:1] = 1 }, word 8 { } } 0 => D(_) : { word 64 { [0:1] = 0, [3:61] -> 8 { word 64 { [0:64] .0 word 0 } } }, word 8 { [0:8] .0 word 1 } } }; type T = N | C(S); layout T <64, 8> = split 0[0:1] { 1 => N : { word 64 { [0:1] = 1 }, word 8 { } } 0 => C(_) : { word 64 { [0:1] = 0, [3:61] -> 8 { word 64 { [0:64] .0 word 0 } } }, word 8 { [0:8] .0 word 1 } } };~S: A10: holding cycle S, T";

#[test]
fn pointers_and_cycles(rt: HostRuntime) -> Result<(), Surprise> {
    expect_refused(rt.alloc(), REFUSED)
}
