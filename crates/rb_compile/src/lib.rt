//! Whole programs to code.
//!
//! [`programs::compile`] writes for each function a function of code, which does what the function
//! does. An expression is compiled where its value is wanted: its code leaves the value in slots, a
//! word each, and the slots are answered. Parts stand from left to right, and what is done with
//! their values stands behind them. A variable takes no code, since its value is in slots already.
//! So
//!
//! ```text
//! fun f(x: u8): u8 = let y: u8 = mul(x, 3) in add(x, y);
//! ```
//!
//! has `x` in slot 0, and becomes
//!
//! ```text
//! fun f 1 1 4
//! const 1 3
//! alu mul 8 2 0 1
//! alu add 8 3 0 2
//! return 3
//! end
//! ```
//!
//! A call has its arguments' words in the slots that it names, and its result in new ones; where it
//! stands last in a function, it is as everywhere. In
//!
//! ```text
//! fun sum(list: List, so_far: u64): u64 =
//!     match list { Nil => so_far, Cons(head, tail) => sum(tail, add(head, so_far)) };
//! ```
//!
//! the match first has code that chooses a clause, and leaves by its holes, targets that are still
//! open. Then come the arms, one behind the other: an arm binds its pattern's variables and has its
//! body's code. When all arms stand, the holes are set to where the arms begin. So code only ever
//! grows at its end, and no target is known too early.
//!
//! This match is in a tail position: its value is the function's result. So is what stands within a
//! `let` in a tail position, and each arm's body of a match in one. There code returns ([`tails`]),
//! and nothing stands behind it. Where a match's value is used further, an arm moves it to slots
//! that all arms share, and ends in an open jump; when all arms stand, the jumps are set to behind
//! the last.
//!
//! An arm binds what its body uses: [`used`] leaves out of the pattern the variables that don't
//! stand in the body. Its constructors stay, since they tell which leaves, the cases of a layout,
//! can be here. Within fewer variables the body means the same.
//!
//! Before a construction its arguments are compiled, from left to right. An argument that is itself
//! written as a construction shows its constructor, and what its own arguments show ([`shown`]):
//! what this decides of the leaf of the whole is decided without a look.
//!
//! What is promised of an expression's code stands behind all that is known of the expression: that
//! it has a type, that its numbers name something, that its matches are exhaustive and paid for,
//! that its variables have slots (`ExprIsReady`). So the functions that call one another here ask
//! for nothing, and a program whose layouts agree meets each premise.
#![tactic(auto)]

mod atoms;
mod expressions;
mod functions;
mod matches;
pub mod programs;
mod shown;
mod signatures;
mod tails;
mod used;
