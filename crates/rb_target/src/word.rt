//! The words of an instruction's line in code text: its key, which is the first, and the others.

ghost use Rattle.std.specs.Prelude.{◌≡◌};
ghost use Rattle.rb_target.specs.Text.{op_text, key_of, key_text};

use crate::instr::{AluOp, Instr};

/// The first word of an instruction's line, which says what instruction it is. `end` begins no such
/// line and is none.
#[derive(Clone, Copy, PartialEq, Eq)]
pub enum Key {
    Const,
    Copy,
    Alu,
    Take,
    Put,
    Load,
    Store,
    Place,
    Jump,
    Switch,
    Call,
    Return,
}

/// Every key.
pub(crate) const KEYS: [Key; 12] = [
    Key::Const,
    Key::Copy,
    Key::Alu,
    Key::Take,
    Key::Put,
    Key::Load,
    Key::Store,
    Key::Place,
    Key::Jump,
    Key::Switch,
    Key::Call,
    Key::Return,
];

/// A word after a line's first.
#[derive(Clone, Copy, PartialEq, Eq)]
pub enum LineWord {
    /// A number, written in decimal.
    Number(u64),
    /// An operation's name, as `add`.
    Op(AluOp),
    /// `-`, where a switch has no other target.
    Dash,
    /// `of`, between the results and the words of a call.
    Of,
}

/// An operation's name in code texts.
pub fn op_name(op: AluOp) -> &'static [u8]
    ensures { result.now ≡ op_text op }
{
    match op {
        AluOp::Add => b"add",
        AluOp::Sub => b"sub",
        AluOp::Mul => b"mul",
        AluOp::And => b"and",
        AluOp::Or => b"or",
        AluOp::Xor => b"xor",
        AluOp::Eq => b"eq",
        AluOp::Lt => b"lt",
    }
}

/// The key of an instruction's line.
pub fn key_of(instr: &Instr) -> Key
    ensures { result ≡ key_of instr.now }
{
    match instr {
        Instr::Const(..) => Key::Const,
        Instr::Copy(..) => Key::Copy,
        Instr::Alu(..) => Key::Alu,
        Instr::Take(..) => Key::Take,
        Instr::Put(..) => Key::Put,
        Instr::Load(..) => Key::Load,
        Instr::Store(..) => Key::Store,
        Instr::Place(..) => Key::Place,
        Instr::Jump(..) => Key::Jump,
        Instr::Switch(..) => Key::Switch,
        Instr::Call(..) => Key::Call,
        Instr::Return(..) => Key::Return,
    }
}

/// A key as it is written in code texts.
pub fn key_name(key: Key) -> &'static [u8]
    ensures { result.now ≡ key_text key }
{
    match key {
        Key::Const => b"const",
        Key::Copy => b"copy",
        Key::Alu => b"alu",
        Key::Take => b"take",
        Key::Put => b"put",
        Key::Load => b"load",
        Key::Store => b"store",
        Key::Place => b"place",
        Key::Jump => b"jump",
        Key::Switch => b"switch",
        Key::Call => b"call",
        Key::Return => b"return",
    }
}
