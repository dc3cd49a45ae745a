//! One byte more of a code text.

ghost use Rattle.std.specs.Prelude.{◌≡◌, ◌∷◌, [], ◌++◌, IfOk, Some, None, true};
ghost use Rattle.rb_core.specs.WellNumbered as name;
ghost use Rattle.rb_target.specs.inner.Reading as spec;

use super::field::{is_key_front, key_of_word, number_of_word};
use super::spot::{Line, Move, Spot, Turn};
use crate::code::CodeFun;
use crate::instr::Instr;
use rb_core::seq::Seq;
use std::alloc::{AllocError, Global};
use std::marker::Model;
use std::mem;

/// What is read of a text: whole functions, where reading stands behind them, and the bytes of the
/// next word that are read.
#[derive(Drop)]
pub struct Reader {
    funs: Seq<CodeFun>,
    spot: Spot,
    word: Vec<u8>,
    alloc: Global,
}

impl Model for Reader {
    ghost use Rattle.rb_target.specs.inner.Reading.{Progress};

    ghost Value = { Progress };

    ghost view = { λ r. record { funs = r.funs; spot = r.spot; word = r.word.items } };
}

// Whether a byte is a blank or a line's end.
fn is_gap(byte: u8) -> bool
    ensures { result ≡ spec.is_gap byte }
{
    byte == b' ' || byte == b'\n'
}

// Whether a byte is a small letter.
fn is_small(byte: u8) -> bool
    ensures { result ≡ name.is_small byte }
{
    b'a' <= byte && byte <= b'z'
}

// Whether a byte may stand in a function's name behind the first: a letter, a digit or `_`.
fn is_word_byte(byte: u8) -> bool
    ensures { result ≡ name.is_word_byte byte }
{
    byte.is_ascii_uppercase() || is_small(byte) || byte.is_ascii_digit() || byte == b'_'
}

// The move behind a word of an instruction's line, by the byte behind it: on to the next word at a
// blank, where there may be one, or at a line's end, where the line may end, on to the next line,
// with the line's instruction in the function; else refused.
fn line_next(alloc: Global, fun: CodeFun, line: Line, gap: u8) -> Result<Move, AllocError>
    ensures { IfOk result (λ m. m ≡ spec.line_next fun line gap) }
{
    if gap == b' ' && line.field().is_open() {
        return Ok(Move::To(Spot::Within(fun, line)));
    }
    if gap == b'\n' && line.may_end() {
        let instr = line.instruction(alloc)?;
        return Ok(Move::To(Spot::Starting(with_instr(fun, instr)?)));
    }
    Ok(Move::Refused)
}

// The function with one instruction more, at the end.
fn with_instr(fun: CodeFun, instr: Instr) -> Result<CodeFun, AllocError>
    ensures { IfOk result (λ f. f ≡ record fun { body = fun.body ++ instr ∷ [] }) }
{
    let CodeFun {
        name,
        params,
        results,
        slots,
        mut body,
    } = fun;
    body.push(instr)?;
    Ok(CodeFun {
        name,
        params,
        results,
        slots,
        body,
    })
}

// The move behind a function's `end`, by the byte behind it, which must be a line's end.
fn end_move(fun: CodeFun, gap: u8) -> Move
    ensures { result ≡ spec.end_move fun gap }
{
    if gap == b'\n' {
        Move::Closed(fun)
    } else {
        Move::Refused
    }
}

// The move behind the first word of a line within a function, a key or `end`, by the byte behind
// it; refused for any other word.
fn start_move(alloc: Global, fun: CodeFun, word: &[u8], gap: u8) -> Result<Move, AllocError>
    ensures { IfOk result (λ m. m ≡ spec.step (Spot.Starting fun) word.now gap) }
{
    if word == b"end".as_slice() {
        return Ok(end_move(fun, gap));
    }
    match key_of_word(word) {
        Some(key) => line_next(alloc, fun, Line::first(alloc, key)?, gap),
        None => Ok(Move::Refused),
    }
}

// The move behind a count of a function's first line, `turn` saying which, by the byte behind it:
// a blank, or a line's end behind the third.
fn count_move(fun: CodeFun, turn: Turn, gap: u8, count: usize) -> Move
    ensures { result ≡ spec.count_move fun turn gap (Some count) }
{
    let CodeFun {
        name,
        params,
        results,
        slots,
        body,
    } = fun;
    let (wanted, params, results, slots) = match turn {
        Turn::First => (b' ', count, results, slots),
        Turn::Second => (b' ', params, count, slots),
        Turn::Third => (b'\n', params, results, count),
    };
    if gap != wanted {
        return Move::Refused;
    }
    let fun = CodeFun {
        name,
        params,
        results,
        slots,
        body,
    };
    match turn {
        Turn::First => Move::To(Spot::Heading(fun, Turn::Second)),
        Turn::Second => Move::To(Spot::Heading(fun, Turn::Third)),
        Turn::Third => Move::To(Spot::Starting(fun)),
    }
}

// The move behind a function's name, by the byte behind it, which must be a blank; an empty name
// is refused. That the bytes are a name's was seen as they were read.
fn name_move(alloc: Global, name: &[u8], gap: u8) -> Result<Move, AllocError>
    ensures { IfOk result (λ m. m ≡ spec.step Spot.Naming name.now gap) }
{
    if gap != b' ' || name.len() == 0 {
        return Ok(Move::Refused);
    }
    let fun = CodeFun {
        name: Seq::from_vec(Vec::from_slice(alloc, name)?),
        params: 0,
        results: 0,
        slots: 0,
        body: Seq::new(alloc),
    };
    Ok(Move::To(Spot::Heading(fun, Turn::First)))
}

// The move behind a word outside of functions, by the byte behind it: only `fun` and a blank go
// on.
fn outside(word: &[u8], gap: u8) -> Move
    ensures { result ≡ spec.step Spot.Outside word.now gap }
{
    if gap == b' ' && word == b"fun".as_slice() {
        Move::To(Spot::Naming)
    } else {
        Move::Refused
    }
}

// What a word and the blank or line's end behind it do from a spot; an empty word is refused
// everywhere.
fn step(alloc: Global, spot: Spot, word: &[u8], gap: u8) -> Result<Move, AllocError>
    ensures { IfOk result (λ m. m ≡ spec.step spot word.now gap) }
{
    match spot {
        Spot::Outside => Ok(outside(word, gap)),
        Spot::Naming => name_move(alloc, word, gap),
        Spot::Heading(fun, turn) => match number_of_word(word) {
            Some(count) => Ok(count_move(fun, turn, gap, count as usize)),
            None => Ok(Move::Refused),
        },
        Spot::Starting(fun) => start_move(alloc, fun, word, gap),
        Spot::Within(fun, line) => match line.field().word(word) {
            Some(next) => line_next(alloc, fun, line.with_word(next)?, gap),
            None => Ok(Move::Refused),
        },
    }
}

// Whether some word that may stand at a spot begins with these bytes, or is them. There is one at
// least, and the last is also given alone.
fn goes_on(spot: &Spot, word: &[u8], last: u8) -> bool
    ensures { result ≡ spec.goes_on spot.now word.now last }
{
    match spot {
        Spot::Outside => b"fun".starts_with(word),
        Spot::Naming => {
            if word.len() == 1 {
                is_small(last)
            } else {
                is_word_byte(last)
            }
        }
        Spot::Heading(..) => number_of_word(word).is_some(),
        Spot::Starting(_) => b"end".starts_with(word) || is_key_front(word),
        Spot::Within(_, line) => line.field().is_front(word),
    }
}

impl Reader {
    /// A reader at the beginning of a text, which has read nothing.
    pub fn new(alloc: Global) -> Reader
        ensures { result ≡ spec.start }
    {
        Reader {
            funs: Seq::new(alloc),
            spot: Spot::Outside,
            word: Vec::new(alloc),
            alloc,
        }
    }

    // Reads a blank or a line's end, or says by false that no code text goes on so; the reader is
    // of no use then.
    fn feed_gap(&mut self, gap: u8) -> Result<bool, AllocError>
        ensures { IfOk result (λ fed. spec.IsFed
            (spec.progress_behind self.old.funs (spec.step self.old.spot self.old.word gap)) self.new fed) }
    {
        let spot = mem::replace(&mut self.spot, Spot::Outside);
        let next = step(self.alloc, spot, self.word.as_slice(), gap)?;
        self.word.clear();
        match next {
            Move::To(spot) => self.spot = spot,
            Move::Closed(fun) => self.funs.push(fun)?,
            Move::Refused => return Ok(false),
        }
        Ok(true)
    }

    // Reads a byte of a word, or says by false that no word there begins so; the reader is of no
    // use then.
    fn feed_word(&mut self, byte: u8) -> Result<bool, AllocError>
        ensures { IfOk result (λ fed. spec.IsFed (spec.progress_with_byte self.old byte) self.new fed) }
    {
        self.word.push(byte)?;
        Ok(goes_on(&self.spot, self.word.as_slice(), byte))
    }

    /// Reads one byte, or says by false that no code text goes on so; the reader is of no use then.
    ///
    /// # Errors
    ///
    /// Want of memory.
    pub fn feed(&mut self, byte: u8) -> Result<bool, AllocError>
        ensures { IfOk result (λ fed. spec.IsFed (spec.feed self.old byte) self.new fed) }
    {
        if is_gap(byte) {
            self.feed_gap(byte)
        } else {
            self.feed_word(byte)
        }
    }

    /// Whether the bytes that were read are a whole text: they end behind a function, or there are
    /// none.
    pub fn is_done(&self) -> bool
        ensures { result ≡ spec.is_done self.now }
    {
        matches!(&self.spot, Spot::Outside) && self.word.len() == 0
    }

    /// The functions that are read whole; none before the first `end`.
    pub fn into_funs(self) -> Seq<CodeFun>
        ensures { result ≡ self.funs }
    {
        let Reader { funs, .. } = self;
        funs
    }
}
