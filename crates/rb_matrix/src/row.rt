//! One row of the pattern matrices in a search. What becomes of it in the specialised matrix of a
//! head, its specialised row, and in the default matrix, its default row, is made of the row itself.
//! A head is a number or a constructor; two are alike where they are the same number, or
//! constructors with the same number in their types.

ghost use Rattle.std.specs.Prelude.{◌≡◌, ◌∷◌, ◌++◌, ◌==◌, [], ℕ, None, length, IfOk, OnOk};
ghost use Rattle.std.specs.Bool.{OnTrue};
ghost use Rattle.rb_matrix.specs.Heads.{row_head};
ghost use Rattle.rb_matrix.specs.inner.Borrowed.{patterns_of};
ghost use Rattle.rb_matrix.specs.inner.Groups.{row_key};
ghost use Rattle.rb_matrix.specs.inner.Open.{is_open as the_open};
ghost use Rattle.rb_matrix.specs.Rows.{row_matches};
ghost use Rattle.rb_matrix.specs.Specialize.{special_row, default_row};

use crate::heads::key_of_head;
use crate::matrix::Head;
use crate::open::is_open;
use crate::stack::Stack;
use rb_core::pattern::Pat;
use std::alloc::{AllocError, Global};
use std::marker::Model;

/// A row of patterns, which is taken apart from its front: so many wildcards, and then the patterns
/// behind them. The wildcards that a head's fields put in front are only counted, and the patterns
/// are borrowed, so that a row takes a word for each of them, however deep they are.
#[derive(Drop)]
pub struct Row<'a> {
    wilds: usize,
    behind: Stack<&'a Pat>,
}

impl<'a> Model for Row<'a> {
    ghost use Rattle.std.specs.Prelude.{List, ◌++◌};
    ghost use Rattle.std.specs.Coded.{coded_list};
    ghost use Rattle.rb_core.specs.declared.pattern.Pat.{Pat as Term};
    ghost use Rattle.rb_core.specs.contracts.pattern.Pat as pat_row;
    ghost use Rattle.rb_matrix.specs.Specialize.{wilds as so_many};
    ghost use Rattle.rb_matrix.specs.inner.Borrowed.{patterns_of};

    ghost Value = { List Term };

    ghost coded = { coded_list pat_row.the_row.coded };

    ghost view = { λ r. so_many r.wilds ++ patterns_of r.behind };
}

// Puts patterns in front of others, in their order: the first of them becomes the first of all.
fn push_borrowed<'a>(behind: &mut Stack<&'a Pat>, pats: &'a [Pat]) -> Result<(), AllocError>
    ensures { OnOk result (patterns_of behind.new ≡ pats.now ++ patterns_of behind.old) }
{
    let mut left = pats;
    while let [rest @ .., last] = left {
        behind.push(last)?;
        left = rest;
    }
    Ok(())
}

/// A pattern as a row of its own.
///
/// # Errors
///
/// Want of memory.
pub fn row_of<'a>(alloc: Global, pat: &'a Pat) -> Result<Row<'a>, AllocError>
    ensures { IfOk result (λ r. r ≡ pat.now ∷ []) }
{
    let mut behind = Stack::new(alloc);
    behind.push(pat)?;
    Ok(Row { wilds: 0, behind })
}

// The specialised row of a row of these patterns for a head with so many fields: the subpatterns of
// the first pattern, or as many wildcards for a wildcard or a variable, and then the patterns behind
// it. None where the row is empty, begins with a head that is not like this one, or begins with a
// constructor that has another number of subpatterns.
fn special_of<'a>(
    mut pats: Stack<&'a Pat>,
    head: Head,
    fields: usize,
) -> Result<Option<Row<'a>>, AllocError>
    ensures { IfOk result (λ r. r ≡ special_row head fields (patterns_of pats.entry)) }
{
    let Some(first) = pats.pop() else {
        return Ok(None);
    };
    match first {
        Pat::Wild(_) => Ok(Some(Row {
            wilds: fields,
            behind: pats,
        })),
        Pat::Var(_, _) => Ok(Some(Row {
            wilds: fields,
            behind: pats,
        })),
        Pat::Num(_, number) => {
            if head != Head::Num(*number) {
                return Ok(None);
            }
            Ok(Some(Row {
                wilds: 0,
                behind: pats,
            }))
        }
        Pat::Con(_, con, subs) => {
            let Head::Con(known) = head else {
                return Ok(None);
            };
            if con.con != known.con || subs.len() != fields {
                return Ok(None);
            }
            push_borrowed(&mut pats, subs.as_slice())?;
            Ok(Some(Row {
                wilds: 0,
                behind: pats,
            }))
        }
    }
}

impl<'a> Row<'a> {
    /// A row of these patterns, in their order.
    ///
    /// # Errors
    ///
    /// Want of memory.
    pub fn of(alloc: Global, pats: &'a [Pat]) -> Result<Row<'a>, AllocError>
        ensures { IfOk result (λ r. r ≡ pats.now) }
    {
        let mut behind = Stack::new(alloc);
        push_borrowed(&mut behind, pats)?;
        Ok(Row { wilds: 0, behind })
    }

    /// An equal row, of the same patterns.
    ///
    /// # Errors
    ///
    /// Want of memory.
    pub fn copy(&self, alloc: Global) -> Result<Row<'a>, AllocError>
        ensures { IfOk result (λ r. r ≡ self.now) }
    {
        let behind = self.behind.copy(alloc)?;
        Ok(Row {
            wilds: self.wilds,
            behind,
        })
    }

    /// Whether the row has no pattern, so that it matches the empty vector, and else does not.
    pub fn is_empty(&self) -> bool
        ensures { result ≡ row_matches self.now [] }
    {
        if self.wilds > 0 {
            return false;
        }
        match self.behind.first() {
            None => true,
            Some(_first) => false,
        }
    }

    /// Whether the row has exactly so many patterns.
    pub fn has_length(&self, count: usize) -> bool
        ensures { result ≡ (length self.now == count) }
    {
        self.wilds <= count && self.behind.len() == count - self.wilds
    }

    /// Whether each pattern of the row is a wildcard or a variable; so it is of the empty row.
    #[tactic(auto, using(crate::proofs::CountedRows::open_counted))]
    pub fn is_open(&self) -> bool
        ensures { result ≡ the_open self.now }
    {
        is_open(&self.behind)
    }

    /// The head of the row's first pattern; None where that is a wildcard or a variable, or where
    /// the row is empty.
    pub fn head(&self) -> Option<Head>
        ensures { result ≡ row_head self.now }
    {
        if self.wilds > 0 {
            return None;
        }
        match self.behind.first() {
            None => None,
            Some(first) => match first {
                Pat::Wild(_) => None,
                Pat::Var(_, _) => None,
                Pat::Num(_, number) => Some(Head::Num(*number)),
                Pat::Con(_, con, _) => Some(Head::Con(*con)),
            },
        }
    }

    /// The key of the row's head: the number that it is, or that of the constructor in its type.
    /// None where the row begins with a wildcard or a variable, or is empty.
    pub fn key(&self) -> Option<u64>
        ensures { result ≡ row_key self.now }
    {
        match self.head() {
            None => None,
            Some(head) => Some(key_of_head(head)),
        }
    }

    /// Whether the row is empty, or begins with a head that is not like this one: another number, a
    /// constructor with another number in its type, or one of both where this is the other. It has
    /// no specialised row for this head then, however many fields the head has. A constructor with
    /// another number of subpatterns than that has none either, and is not seen here.
    pub fn is_other(&self, head: Head) -> bool
        ensures { OnTrue result ((n : ℕ) → special_row head n self.now ≡ None) }
    {
        if self.wilds > 0 {
            return false;
        }
        match self.behind.first() {
            None => true,
            Some(first) => match first {
                Pat::Wild(_) => false,
                Pat::Var(_, _) => false,
                Pat::Num(_, number) => match head {
                    Head::Num(known) => *number != known,
                    Head::Con(_) => true,
                },
                Pat::Con(_, con, _) => match head {
                    Head::Num(_) => true,
                    Head::Con(known) => con.con != known.con,
                },
            },
        }
    }

    /// The row's specialised row for a head with so many fields: the row with its first pattern's
    /// subpatterns, or as many wildcards for a wildcard or a variable, in that pattern's place. None
    /// where the row is empty, begins with a head that is not like this one, or begins with a
    /// constructor that has another number of subpatterns.
    ///
    /// # Errors
    ///
    /// Want of memory, also for more wildcards than a `usize` counts.
    #[tactic(auto, using(crate::proofs::CountedRows::special_counted))]
    pub fn special(self, head: Head, fields: usize) -> Result<Option<Row<'a>>, AllocError>
        ensures { IfOk result (λ r. r ≡ special_row head fields self.entry) }
    {
        let Row { wilds, behind } = self;
        if wilds > 0 {
            let Some(wilds) = fields.checked_add(wilds - 1) else {
                return Err(AllocError);
            };
            return Ok(Some(Row { wilds, behind }));
        }
        special_of(behind, head, fields)
    }

    /// The row's default row: the row without its first pattern, where that is a wildcard or a
    /// variable. None where it is a number or a constructor, or where the row is empty.
    pub fn rest(self) -> Option<Row<'a>>
        ensures { result ≡ default_row self.entry }
    {
        let Row { wilds, mut behind } = self;
        if wilds > 0 {
            return Some(Row {
                wilds: wilds - 1,
                behind,
            });
        }
        let Some(first) = behind.pop() else {
            return None;
        };
        match first {
            Pat::Wild(_) => Some(Row { wilds: 0, behind }),
            Pat::Var(_, _) => Some(Row { wilds: 0, behind }),
            Pat::Num(_, _) => None,
            Pat::Con(_, _, _) => None,
        }
    }
}
