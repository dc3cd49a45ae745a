//! What a token begins.

ghost use Rattle.std.specs.Prelude.{◌≡◌};
ghost use Rattle.rb_read.specs.inner.Starting as starting;

use rb_core::expression::Op;
use rb_syntax::token::ReservedWord;

/// A form of expression that a reserved word begins.
#[derive(Drop)]
pub enum Form {
    /// This operation on two numbers.
    Operation(Op),
    /// A conversion to another width, which `to` begins.
    Conversion,
    /// A variable with its value, which `let` begins.
    Binding,
    /// A match, which `match` begins.
    Matching,
    /// No expression begins with the word.
    Other,
}

/// What a reserved word begins as an expression, or `Other` where it begins none.
#[tactic(auto, unfolding(crate::specs::inner::Starting::form_of))]
pub fn form_of(word: ReservedWord) -> Form
    ensures { result ≡ starting.form_of word }
{
    match word {
        ReservedWord::Add => Form::Operation(Op::Add),
        ReservedWord::Sub => Form::Operation(Op::Sub),
        ReservedWord::Mul => Form::Operation(Op::Mul),
        ReservedWord::And => Form::Operation(Op::And),
        ReservedWord::Or => Form::Operation(Op::Or),
        ReservedWord::Xor => Form::Operation(Op::Xor),
        ReservedWord::Eq => Form::Operation(Op::Eq),
        ReservedWord::Lt => Form::Operation(Op::Lt),
        ReservedWord::To => Form::Conversion,
        ReservedWord::Let => Form::Binding,
        ReservedWord::Match => Form::Matching,
        ReservedWord::Type
        | ReservedWord::Layout
        | ReservedWord::Fun
        | ReservedWord::In
        | ReservedWord::Word => Form::Other,
        ReservedWord::Split
        | ReservedWord::Else
        | ReservedWord::Inline
        | ReservedWord::Boxed
        | ReservedWord::Packed => Form::Other,
    }
}
