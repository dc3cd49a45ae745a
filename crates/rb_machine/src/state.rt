//! A run as it stands. A slot is one of a call's own words, by its number. Functions, and the
//! instructions of a function's body, are numbered from 0. A call is current, or waits for one that
//! it made.

use rb_target::outcome::End;

/// A call that waits for another: its function, and the number of its call instruction.
#[derive(Drop)]
pub struct Frame {
    pub fun: usize,
    pub pc: usize,
}

/// The current call, and the calls that wait, the outermost first. The slots of all of them stand
/// on one stack in the same order: those of the current call begin at `base` and go to the stack's
/// end, and those of a call that waits are as many as its function has. `results` has room for what
/// the outermost function returns, so that a return takes no memory. The current call is of
/// function `fun` and stands at instruction `pc`; `left` calls may still be begun, and `switches`
/// were done so far.
#[derive(Drop)]
pub struct State {
    pub fun: usize,
    pub pc: usize,
    pub base: usize,
    pub stack: Vec<u64>,
    pub left: u64,
    pub frames: Vec<Frame>,
    pub switches: u128,
    pub results: Vec<u64>,
}

/// An instruction that leaves its function: a call, with the number of the function that it calls
/// and the slots of its words, or a return, with the slots of its words.
#[derive(Clone, Copy)]
pub enum Leave<'a> {
    Calls(usize, &'a [usize]),
    Returns(&'a [usize]),
}

/// Where an instruction leads: to another of its function, out of it, or to the end of the run. One
/// that leads out is not begun.
#[derive(Drop)]
pub enum Flow<'a> {
    Goes(usize),
    Leaves(Leave<'a>),
    Ends(End),
}

/// Where instructions of a call stop: at a call or a return, by its number, which is not begun, or
/// at the end of the run.
#[derive(Drop)]
pub enum Stop<'a> {
    At(usize, Leave<'a>),
    Ends(End),
}
