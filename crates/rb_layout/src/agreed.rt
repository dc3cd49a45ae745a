//! Programs whose layouts agree with their types. The type keeps what is known, so that each crate
//! above learns it from a getter's clause.

ghost use Rattle.std.specs.Prelude.{◌≡◌};
ghost use Rattle.rb_layout.specs.Agreement.{Agrees};
ghost use Rattle.rb_layout.specs.Flattening.{flat_layouts};

use crate::layout::Layout;
use rb_core::seq::Seq;
use rb_core::typed::Covered;
use std::marker::Model;

/// A typed program whose matches are exhaustive, with flat layouts. Nothing is said of the layouts
/// yet.
#[derive(Drop)]
pub struct LaidOut {
    pub covered: Covered,
    pub layouts: Seq<Layout>,
}

/// A typed program whose matches are exhaustive and whose layouts agree with its types, with their
/// flat forms.
#[derive(Drop)]
pub struct Agreed {
    laid_out: LaidOut,
}

impl Model for Agreed {
    ghost use Rattle.rb_layout.specs.declared.agreed.LaidOut.{LaidOut};
    ghost use Rattle.rb_layout.specs.contracts.agreed.LaidOut as laid_out_row;
    ghost use Rattle.rb_layout.specs.Agreement.{AreAgreed};

    ghost Value = { LaidOut };

    ghost coded = { laid_out_row.the_row.coded };

    ghost view = { λ a. a.laid_out };

    ghost invariant = { λ a. AreAgreed a.laid_out.covered.program a.laid_out.layouts };
}

impl Agreed {
    /// The program with the flat forms of its layouts. Its caller knows that they are these, and
    /// that they agree.
    pub fn new(covered: Covered, layouts: Seq<Layout>) -> Agreed
        requires flat { layouts ≡ flat_layouts covered.program }
        requires agree { Agrees covered.program }
        ensures { result ≡ record { covered = covered; layouts = layouts } }
    {
        Agreed {
            laid_out: LaidOut { covered, layouts },
        }
    }

    /// The program, typed and with exhaustive matches. Its layouts agree with its types.
    pub fn covered(&self) -> &Covered
        ensures same { result.now ≡ self.now.covered }
        ensures agree { Agrees self.now.covered.program }
    {
        &self.laid_out.covered
    }

    /// The flat form of each type's layout, in the types' order. They are those of the program, and
    /// agree with its types.
    pub fn layouts(&self) -> &[Layout]
        ensures same { result.now ≡ self.now.layouts }
        ensures flat { self.now.layouts ≡ flat_layouts self.now.covered.program }
        ensures agree { Agrees self.now.covered.program }
    {
        self.laid_out.layouts.as_slice()
    }
}
