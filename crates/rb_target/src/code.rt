//! Functions, and code: functions that are valid together.

ghost use Rattle.std.specs.Prelude.{◌≡◌};
ghost use Rattle.rb_target.specs.Validity.{IsValid};
ghost use Rattle.rb_target.specs.Laws.{IsLawful};

use crate::instr::Instr;
use rb_core::seq::Seq;
use rb_core::types::Name;
use std::marker::Model;

/// A function. A slot is one of its own words, of 64 bits: the first slots hold the parameters, the
/// others begin as 0.
#[derive(Drop)]
pub struct CodeFun {
    /// Its name, as the first line of its text has it.
    pub name: Name,
    /// How many words it is called with.
    pub params: usize,
    /// How many words it gives back.
    pub results: usize,
    /// How many slots it has, the parameters' included.
    pub slots: usize,
    /// Its instructions, numbered from 0.
    pub body: Seq<Instr>,
}

/// Functions that are valid together: each slot, target and call is one of theirs, jumps go
/// forward, and each body ends in a return.
#[derive(Drop)]
pub struct Code {
    // The functions, by their numbers.
    funs: Seq<CodeFun>,
}

impl Model for Code {
    ghost use Rattle.std.specs.Prelude.{List};
    ghost use Rattle.rb_target.specs.declared.code.CodeFun.{CodeFun};
    ghost use Rattle.rb_target.specs.Validity.{IsValid};

    ghost Value = { List CodeFun };

    ghost view = { λ c. c.funs };

    ghost invariant = { λ c. IsValid c.funs };
}

impl Code {
    /// These functions, valid together, as code.
    pub fn new(funs: Seq<CodeFun>) -> Code
        requires { IsValid funs }
        ensures value { result ≡ funs }
        ensures laws { IsLawful funs }
    {
        Code { funs }
    }

    /// The functions, in their order, and what every run of them can rest on.
    pub fn funs(&self) -> &[CodeFun]
        ensures value { result.now ≡ self.now }
        ensures valid { IsValid self.now }
        ensures laws { IsLawful self.now }
    {
        self.funs.as_slice()
    }
}
