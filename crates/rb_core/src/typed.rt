//! Programs that are typed, and typed programs whose matches are covered. The types keep what is
//! known, so that each crate above learns it from a getter's clause.

ghost use Rattle.std.specs.Prelude.{◌≡◌};
ghost use Rattle.rb_core.specs.Coverage.{IsCovered};
ghost use Rattle.rb_core.specs.TypedPrograms.{IsTyped};

use crate::program::{Note, Program};
use crate::seq::Seq;
use std::marker::Model;

/// A program that is typed: all that takes one may build on it.
#[derive(Drop)]
pub struct Typed {
    program: Program,
}

impl Model for Typed {
    ghost use Rattle.rb_core.specs.declared.program.Program.{Program};
    ghost use Rattle.rb_core.specs.TypedPrograms.{IsTyped};
    ghost use Rattle.rb_core.specs.contracts.program.Program as program_row;

    ghost Value = { Program };

    ghost coded = { program_row.the_row.coded };

    ghost view = { λ t. t.program };

    ghost invariant = { λ t. IsTyped t.program };
}

impl Typed {
    /// The program, which its caller knows to be typed.
    pub fn new(program: Program) -> Typed
        requires { IsTyped program }
        ensures { result ≡ program }
    {
        Typed { program }
    }

    /// The program, and that it is typed: so each of its types has a value.
    pub fn program(&self) -> &Program
        ensures same { result.now ≡ self.now }
        ensures typed { IsTyped self.now }
    {
        &self.program
    }

    // Takes the program out, and tells that it is typed.
    fn into_program(self) -> Program
        ensures same { result ≡ self }
        ensures typed { IsTyped result }
    {
        let Typed { program } = self;
        program
    }
}

/// A program with notes, each of which names a clause; that they name exactly the clauses that no
/// value reaches is what [`Covered`] knows of them.
#[derive(Drop)]
pub struct Noted {
    pub program: Program,
    pub notes: Seq<Note>,
}

/// A typed program whose matches are exhaustive, with a note on each clause that no value reaches.
#[derive(Drop)]
pub struct Covered {
    noted: Noted,
}

impl Model for Covered {
    ghost use Rattle.rb_core.specs.declared.typed.Noted.{Noted};
    ghost use Rattle.rb_core.specs.Coverage.{IsCovered};
    ghost use Rattle.rb_core.specs.TypedPrograms.{IsTyped};
    ghost use Rattle.rb_core.specs.contracts.typed.Noted as noted_row;

    ghost Value = { Noted };

    ghost coded = { noted_row.the_row.coded };

    ghost view = { λ c. c.noted };

    ghost invariant = { λ c. IsTyped c.noted.program × IsCovered c.noted.program c.noted.notes };
}

impl Covered {
    /// The program with its notes, of which the caller knows that each match is exhaustive and that
    /// the notes name exactly the clauses that no value reaches.
    pub fn new(typed: Typed, notes: Seq<Note>) -> Covered
        requires { IsCovered typed notes }
        ensures { result ≡ record { program = typed; notes = notes } }
    {
        let program = typed.into_program();
        Covered {
            noted: Noted { program, notes },
        }
    }

    /// The program, and that it is typed and covered.
    pub fn program(&self) -> &Program
        ensures same { result.now ≡ self.now.program }
        ensures typed { IsTyped self.now.program }
        ensures covered { IsCovered self.now.program self.now.notes }
    {
        &self.noted.program
    }

    /// The notes, in the order of the file.
    pub fn notes(&self) -> &[Note]
        ensures { result.now ≡ self.now.notes }
    {
        self.noted.notes.as_slice()
    }
}
