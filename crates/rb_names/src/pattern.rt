//! Patterns: what they bind, and their numbers. A pattern binds the variables in it; those of one
//! name have one binder, which has a number in its function. A frame has the binders of one
//! pattern, a scope those round a place. `tables` say which constructor a name stands for.

ghost use Rattle.std.specs.Prelude.{◌≡◌, ◌+◌, drop, length, map, OnOk, IfErr};
ghost use Rattle.std.specs.List.{flat_map};
ghost use Rattle.rb_names.specs.declared.fault.NameFault.TheVariants.{Memory};
ghost use Rattle.rb_names.specs.Answers.{AnswersNumbering};
ghost use Rattle.rb_names.specs.Numbering.{all_of, numbered_pattern};
ghost use Rattle.rb_names.specs.Scopes.{binders_of, inside, names_in};
ghost use Rattle.rb_names.specs.inner.Frames.{scope_of, with_binders};

use crate::fault::NameFault;
use crate::frame::Frame;
use crate::scope::Scope;
use crate::tables::Tables;
use rb_core::pattern::Pat;
use rb_core::seq::Seq;
use rb_syntax::tree::PatTree;
use std::alloc::Global;

/// Goes into the scope of a pattern's variables, which are numbered from `next` on; `next` is then
/// the number of the binder that follows them.
///
/// # Errors
///
/// Want of memory.
pub fn enter_pattern<'a>(
    alloc: Global,
    scope: &mut Scope<'a>,
    tree: &'a PatTree,
    next: &mut u32,
) -> Result<(), NameFault>
    ensures scope { OnOk result (scope_of scope.new ≡ inside (binders_of tree.now) next.old (scope_of scope.old)) }
    ensures outer { OnOk result (drop 1 scope.new ≡ scope.old) }
    ensures next { OnOk result (next.new ≡ next.old + length (binders_of tree.now)) }
    ensures memory { IfErr result (λ e. e ≡ Memory) }
{
    let mut frame = Frame::new(alloc, *next);
    bind_names(&mut frame, tree)?;
    *next = frame.next;
    scope.enter(frame.binders)?;
    Ok(())
}

// Binds the names of a pattern's variables, each once, with the next numbers of the frame. An `Err`
// is want of memory.
#[cycle(binding)]
fn bind_names<'a>(frame: &mut Frame<'a>, tree: &'a PatTree) -> Result<(), NameFault>
    ensures ok { OnOk result (frame.new ≡ with_binders frame.old (names_in tree.now)) }
    ensures memory { IfErr result (λ e. e ≡ Memory) }
{
    match tree {
        PatTree::Wild(_) | PatTree::Num(_, _) => Ok(()),
        PatTree::Var(_, name) => {
            frame.bind(name.text.as_slice())?;
            Ok(())
        }
        PatTree::Con(_, _, trees) => {
            bind_all_names(frame, trees.as_slice())?;
            Ok(())
        }
    }
}

// Binds the names of the variables in several patterns, from left to right, each once, with the
// next numbers of the frame. An `Err` is want of memory.
#[cycle(binding)]
fn bind_all_names<'a>(frame: &mut Frame<'a>, trees: &'a [PatTree]) -> Result<(), NameFault>
    ensures ok { OnOk result (frame.new ≡ with_binders frame.old (flat_map names_in trees.now)) }
    ensures memory { IfErr result (λ e. e ≡ Memory) }
{
    for tree in trees {
        bind_names(frame, tree)?;
    }
    Ok(())
}

/// A pattern with the numbers of its constructors and, from the scope of its own binders, of its
/// variables.
///
/// # Errors
///
/// `Unknown` for the first name, from left to right, that stands for nothing; or want of memory.
#[cycle(numbering)]
pub fn number_pattern(
    alloc: Global,
    tables: &Tables,
    scope: &Scope,
    tree: &PatTree,
) -> Result<Pat, NameFault>
    ensures { AnswersNumbering result (numbered_pattern tables.now (scope_of scope.now) tree.now) }
{
    match tree {
        PatTree::Wild(at) => Ok(Pat::Wild(*at)),
        PatTree::Num(at, n) => Ok(Pat::Num(*at, *n)),
        PatTree::Var(at, name) => {
            let var = scope.known(alloc, name)?;
            Ok(Pat::Var(*at, var))
        }
        PatTree::Con(at, name, trees) => {
            let con = tables.constructors.known(alloc, name)?;
            let pats = number_patterns(alloc, tables, scope, trees.as_slice())?;
            Ok(Pat::Con(*at, con, pats))
        }
    }
}

// The patterns of trees, from left to right, with numbers for the names in them. The first name
// that stands for nothing is `Unknown`; an `Err` may also be want of memory.
#[cycle(numbering)]
fn number_patterns(
    alloc: Global,
    tables: &Tables,
    scope: &Scope,
    trees: &[PatTree],
) -> Result<Seq<Pat>, NameFault>
    ensures { AnswersNumbering result
        (all_of (map (numbered_pattern tables.now (scope_of scope.now)) trees.now)) }
{
    let mut pats = Seq::new(alloc);
    for tree in trees {
        let pat = number_pattern(alloc, tables, scope, tree)?;
        pats.push(pat)?;
    }
    Ok(pats)
}
