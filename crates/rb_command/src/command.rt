//! The command line: what the words ask for, or the first word at fault.

ghost use Rattle.std.specs.Prelude.{◌≡◌, ◌≤◌, List, MatchResult, Ok, ℕ};
ghost use Rattle.rb_command.specs.declared.command.CommandFault.TheVariants.{Memory};
ghost use Rattle.rb_command.specs.Command.{Command as CommandValue, IsWordsOf, Limits as LimitsValue, Parsed};
ghost use Rattle.rb_command.specs.View.{command_view, limits_view, IsUsage};
ghost use Rattle.rb_command.specs.inner.Parsing.{check_words, command_of, compile_words, count_words, exec_words, function_words, gen_words, genrun_words, image_words, layout_words, numbers_from, peek_words, run_words, value_words, with_call, with_calls_and_region, with_functions, StopsAs};

use crate::limits::{Functions, Limits};
use crate::path::parse_path;
use rb_bytes::memory::{LEAST_REGION, MOST_REGION};
use rb_core::decimal::number_in;
use rb_core::limits::MOST_CALLS;
use rb_core::seq::Seq;
use rb_edge::seq::Name;
use std::alloc::{AllocError, Global};
use thiserror::Error;

/// What the words ask for.
#[derive(Drop)]
pub enum Command<'a> {
    /// A check of a file.
    Check {
        file: &'a [u8],
    },
    /// The flat forms of a file's layouts.
    Layout {
        file: &'a [u8],
    },
    /// The code of a file.
    Compile {
        file: &'a [u8],
    },
    /// A run of the function `main` of a file on these values.
    Run {
        file: &'a [u8],
        limits: Limits,
        values: &'a [Name],
    },
    /// The image of the value of a run of the function `main` of a file on these values.
    Image {
        file: &'a [u8],
        limits: Limits,
        values: &'a [Name],
    },
    /// The value of a run of the function `main` of a file on these values, and what the run did.
    Count {
        file: &'a [u8],
        limits: Limits,
        values: &'a [Name],
    },
    /// A generated file.
    Gen {
        functions: Functions,
    },
    /// What the run of a generated file did.
    GenRun {
        functions: Functions,
        limits: Limits,
    },
    /// A run of a code's first function of this name on these words.
    Exec {
        code: &'a [u8],
        function: &'a [u8],
        limits: Limits,
        words: Seq<u64>,
    },
    /// The value that an image holds.
    Value {
        file: &'a [u8],
        image: &'a [u8],
    },
    /// The part at a path of the value that an image holds.
    Peek {
        file: &'a [u8],
        image: &'a [u8],
        path: Seq<u32>,
    },
}

/// Why there is no command.
#[derive(Clone, Copy, Debug, Drop, Error)]
pub enum CommandFault {
    /// The first word at fault, counted from 1. It is one more than the words where a word is missing.
    #[error("words that are no command")]
    Usage(usize),
    /// Want of memory.
    #[error("no memory")]
    Memory,
}

impl From<AllocError> for CommandFault {
    ghost from_gives = { λ _ fault. fault ≡ Memory };

    fn from(_error: AllocError) -> CommandFault {
        CommandFault::Memory
    }
}

// The most functions of a generated file, `up` and `main` apart; clauses cite it as `most_generated`.
const FUNCTIONS: u64 = 2_000;

// The number of the first WORD behind `exec`.
const FIRST_WORD: usize = 6;

// Reads CALLS and REGION, which are the first of these words, and gives them with the words behind
// them. CALLS is the word with this number of the whole line.
fn parse_limits<'a>(number: usize, words: &'a [Name]) -> Result<(Limits, &'a [Name]), CommandFault>
    requires { number ≤ 4 }
    ensures { (go : LimitsValue → List (List ℕ) → Parsed) → MatchResult result
        (λ p. with_calls_and_region number words.now go ≡ go (limits_view p.0) p.1.now)
        (StopsAs (with_calls_and_region number words.now go)) }
{
    let [word, words @ ..] = words else {
        return Err(CommandFault::Usage(number));
    };
    let Some(calls) = number_in(0, MOST_CALLS, word.as_slice()) else {
        return Err(CommandFault::Usage(number));
    };
    let [word, words @ ..] = words else {
        return Err(CommandFault::Usage(number + 1));
    };
    let Some(region) = number_in(LEAST_REGION, MOST_REGION, word.as_slice()) else {
        return Err(CommandFault::Usage(number + 1));
    };
    Ok((Limits { calls, region }, words))
}

// Reads the words behind `check`: FILE and no more.
fn parse_check<'a>(words: &'a [Name]) -> Result<Command<'a>, CommandFault>
    ensures { MatchResult result (λ c. check_words words.now ≡ Ok (command_view c)) (StopsAs (check_words words.now)) }
{
    match words {
        [] => Err(CommandFault::Usage(2)),
        [file] => Ok(Command::Check {
            file: file.as_slice(),
        }),
        [_, _, ..] => Err(CommandFault::Usage(3)),
    }
}

// Reads the words behind `layout`: FILE and no more.
fn parse_layout<'a>(words: &'a [Name]) -> Result<Command<'a>, CommandFault>
    ensures { MatchResult result (λ c. layout_words words.now ≡ Ok (command_view c))
        (StopsAs (layout_words words.now)) }
{
    match words {
        [] => Err(CommandFault::Usage(2)),
        [file] => Ok(Command::Layout {
            file: file.as_slice(),
        }),
        [_, _, ..] => Err(CommandFault::Usage(3)),
    }
}

// Reads the words behind `compile`: FILE and no more.
fn parse_compile<'a>(words: &'a [Name]) -> Result<Command<'a>, CommandFault>
    ensures { MatchResult result (λ c. compile_words words.now ≡ Ok (command_view c))
        (StopsAs (compile_words words.now)) }
{
    match words {
        [] => Err(CommandFault::Usage(2)),
        [file] => Ok(Command::Compile {
            file: file.as_slice(),
        }),
        [_, _, ..] => Err(CommandFault::Usage(3)),
    }
}

// Reads FILE, CALLS and REGION, which stand behind `run`, `image` and `count`, and gives them with
// the VALUEs behind them.
fn parse_call<'a>(words: &'a [Name]) -> Result<(&'a [u8], Limits, &'a [Name]), CommandFault>
    ensures { (command : List ℕ → LimitsValue → List (List ℕ) → CommandValue) → MatchResult result
        (λ p. with_call words.now command ≡ Ok (command p.0.now (limits_view p.1) p.2.now))
        (StopsAs (with_call words.now command)) }
{
    let [file, words @ ..] = words else {
        return Err(CommandFault::Usage(2));
    };
    let (limits, values) = parse_limits(3, words)?;
    Ok((file.as_slice(), limits, values))
}

// Reads the words behind `run`: FILE CALLS REGION and zero or more VALUE.
fn parse_run<'a>(words: &'a [Name]) -> Result<Command<'a>, CommandFault>
    ensures { MatchResult result (λ c. run_words words.now ≡ Ok (command_view c)) (StopsAs (run_words words.now)) }
{
    let (file, limits, values) = parse_call(words)?;
    Ok(Command::Run {
        file,
        limits,
        values,
    })
}

// Reads the words behind `image`: FILE CALLS REGION and zero or more VALUE.
fn parse_image<'a>(words: &'a [Name]) -> Result<Command<'a>, CommandFault>
    ensures { MatchResult result (λ c. image_words words.now ≡ Ok (command_view c)) (StopsAs (image_words words.now)) }
{
    let (file, limits, values) = parse_call(words)?;
    Ok(Command::Image {
        file,
        limits,
        values,
    })
}

// Reads the words behind `count`: FILE CALLS REGION and zero or more VALUE.
fn parse_count<'a>(words: &'a [Name]) -> Result<Command<'a>, CommandFault>
    ensures { MatchResult result (λ c. count_words words.now ≡ Ok (command_view c)) (StopsAs (count_words words.now)) }
{
    let (file, limits, values) = parse_call(words)?;
    Ok(Command::Count {
        file,
        limits,
        values,
    })
}

// Reads N, how many functions a generated file has beside `up` and `main`, and gives it with the
// words behind it.
fn parse_functions<'a>(words: &'a [Name]) -> Result<(Functions, &'a [Name]), CommandFault>
    ensures { (go : ℕ → List (List ℕ) → Parsed) → MatchResult result
        (λ p. with_functions words.now go ≡ go p.0.count p.1.now)
        (StopsAs (with_functions words.now go)) }
{
    let [word, words @ ..] = words else {
        return Err(CommandFault::Usage(2));
    };
    let Some(count) = number_in(1, FUNCTIONS, word.as_slice()) else {
        return Err(CommandFault::Usage(2));
    };
    Ok((Functions { count }, words))
}

// Reads the words behind `gen`: N and no more.
fn parse_gen<'a>(words: &'a [Name]) -> Result<Command<'a>, CommandFault>
    ensures { MatchResult result (λ c. gen_words words.now ≡ Ok (command_view c)) (StopsAs (gen_words words.now)) }
{
    let (functions, rest) = parse_functions(words)?;
    match rest {
        [] => Ok(Command::Gen { functions }),
        [_, ..] => Err(CommandFault::Usage(3)),
    }
}

// Reads the words behind `genrun`: N CALLS REGION and no more.
fn parse_genrun<'a>(words: &'a [Name]) -> Result<Command<'a>, CommandFault>
    ensures { MatchResult result (λ c. genrun_words words.now ≡ Ok (command_view c))
        (StopsAs (genrun_words words.now)) }
{
    let (functions, words) = parse_functions(words)?;
    let (limits, rest) = parse_limits(3, words)?;
    match rest {
        [] => Ok(Command::GenRun { functions, limits }),
        [_, ..] => Err(CommandFault::Usage(5)),
    }
}

// Reads the WORDs of `exec`, the first of which is word 6 of the line, as numbers below 2^64.
fn parse_numbers(alloc: Global, words: &[Name]) -> Result<Seq<u64>, CommandFault>
    ensures { MatchResult result (λ numbers. numbers_from 6 words.now ≡ Ok numbers)
        (StopsAs (numbers_from 6 words.now)) }
{
    let mut numbers = Seq::new(alloc);
    for (i, word) in words.iter().enumerate() {
        match number_in(0, u64::MAX, word.as_slice()) {
            Some(number) => numbers.push(number)?,
            None => return Err(CommandFault::Usage(FIRST_WORD + i)),
        }
    }
    Ok(numbers)
}

// Reads the words behind `exec` and the code's file: FUN CALLS REGION and zero or more WORD.
fn parse_function<'a>(
    alloc: Global,
    code: &'a [u8],
    words: &'a [Name],
) -> Result<Command<'a>, CommandFault>
    ensures { MatchResult result (λ c. function_words code.now words.now ≡ Ok (command_view c))
        (StopsAs (function_words code.now words.now)) }
{
    let [function, words @ ..] = words else {
        return Err(CommandFault::Usage(3));
    };
    let (limits, words) = parse_limits(4, words)?;
    let numbers = parse_numbers(alloc, words)?;
    Ok(Command::Exec {
        code,
        function: function.as_slice(),
        limits,
        words: numbers,
    })
}

// Reads the words behind `exec`: CODE FUN CALLS REGION and zero or more WORD.
fn parse_exec<'a>(alloc: Global, words: &'a [Name]) -> Result<Command<'a>, CommandFault>
    ensures { MatchResult result (λ c. exec_words words.now ≡ Ok (command_view c)) (StopsAs (exec_words words.now)) }
{
    let [code, words @ ..] = words else {
        return Err(CommandFault::Usage(2));
    };
    parse_function(alloc, code.as_slice(), words)
}

// Reads the words behind `value`: FILE IMAGE and no more.
fn parse_value<'a>(words: &'a [Name]) -> Result<Command<'a>, CommandFault>
    ensures { MatchResult result (λ c. value_words words.now ≡ Ok (command_view c)) (StopsAs (value_words words.now)) }
{
    match words {
        [] => Err(CommandFault::Usage(2)),
        [_] => Err(CommandFault::Usage(3)),
        [file, image] => Ok(Command::Value {
            file: file.as_slice(),
            image: image.as_slice(),
        }),
        [_, _, _, ..] => Err(CommandFault::Usage(4)),
    }
}

// Reads the words behind `peek`: FILE IMAGE PATH and no more.
fn parse_peek<'a>(alloc: Global, words: &'a [Name]) -> Result<Command<'a>, CommandFault>
    ensures { MatchResult result (λ c. peek_words words.now ≡ Ok (command_view c)) (StopsAs (peek_words words.now)) }
{
    let [file, words @ ..] = words else {
        return Err(CommandFault::Usage(2));
    };
    let [image, words @ ..] = words else {
        return Err(CommandFault::Usage(3));
    };
    let [word, rest @ ..] = words else {
        return Err(CommandFault::Usage(4));
    };
    let Some(path) = parse_path(alloc, word.as_slice())? else {
        return Err(CommandFault::Usage(4));
    };
    match rest {
        [] => Ok(Command::Peek {
            file: file.as_slice(),
            image: image.as_slice(),
            path,
        }),
        [_, ..] => Err(CommandFault::Usage(5)),
    }
}

// The command of the words, read one after the other: the first says how those behind it are read.
// Word 1 is at fault where it is missing or names no command.
#[tactic(auto, unfolding(crate::specs::inner::Parsing::command_of))]
fn read_words<'a>(alloc: Global, words: &'a [Name]) -> Result<Command<'a>, CommandFault>
    ensures { MatchResult result (λ c. command_of words.now ≡ Ok (command_view c)) (StopsAs (command_of words.now)) }
{
    match words {
        [] => Err(CommandFault::Usage(1)),
        [first, rest @ ..] => {
            if first.as_slice() == b"check".as_slice() {
                return parse_check(rest);
            }
            if first.as_slice() == b"layout".as_slice() {
                return parse_layout(rest);
            }
            if first.as_slice() == b"compile".as_slice() {
                return parse_compile(rest);
            }
            if first.as_slice() == b"run".as_slice() {
                return parse_run(rest);
            }
            if first.as_slice() == b"image".as_slice() {
                return parse_image(rest);
            }
            if first.as_slice() == b"count".as_slice() {
                return parse_count(rest);
            }
            if first.as_slice() == b"gen".as_slice() {
                return parse_gen(rest);
            }
            if first.as_slice() == b"genrun".as_slice() {
                return parse_genrun(rest);
            }
            if first.as_slice() == b"exec".as_slice() {
                return parse_exec(alloc, rest);
            }
            if first.as_slice() == b"value".as_slice() {
                return parse_value(rest);
            }
            if first.as_slice() == b"peek".as_slice() {
                return parse_peek(alloc, rest);
            }
            Err(CommandFault::Usage(1))
        }
    }
}

/// The command that the words spell.
///
/// # Errors
///
/// The number of the first word at fault, or want of memory.
pub fn parse<'a>(alloc: Global, words: &'a [Name]) -> Result<Command<'a>, CommandFault>
    ensures { MatchResult result (λ c. IsWordsOf (command_view c) words.now) (IsUsage words.now) }
{
    read_words(alloc, words)
}
