//! Laws of code that keeps its promises, each the contract of a function that does nothing.

ghost use Rattle.std.specs.Prelude.{List};
ghost use Rattle.rb_target.specs.declared.code.CodeFun.{CodeFun as CodeFunDecl};
ghost use Rattle.rb_target.specs.Laws.{IsLawful};
ghost use Rattle.rb_target.specs.Sheet.{Sheet};
ghost use Rattle.rb_fragment.specs.Plan.{Plan};
ghost use Rattle.rb_fragment.specs.Adding.{Adds};
ghost use Rattle.rb_fragment.specs.Functions.{AllCompile, RunsDo};
ghost use Rattle.rb_fragment.specs.Laws.{CallsApply, PartsThenApply};

/// Additions compose, for any plan. `Adds plan a b` says that sheet `b` is sheet `a` with new slots,
/// each of them written, and fitting instructions appended; there may be none of either. A sheet to
/// which nothing is appended is such an addition to itself; and where `b` adds to `a` and `c` adds
/// to `b`, then `c` adds to `a`. So code made of any number of parts is an addition in all.
pub fn additions_compose()
    ensures none { (plan : Plan) (a : Sheet) → Adds plan a a }
    ensures two { (plan : Plan) (a b c : Sheet) → Adds plan a b → Adds plan b c → Adds plan a c }
{}

/// Where each function of a program has code that does what it does if its calls do, all runs do what
/// the source does: by induction on the calls that are left.
pub fn runs_do_what_functions_do()
    ensures { (plan : Plan) (funs : List CodeFunDecl) → IsLawful funs → AllCompile plan funs → RunsDo plan funs }
{}

/// A call instruction over held arguments does what the source's call does.
pub fn calls_apply()
    ensures { CallsApply }
{}

/// Parts from left to right, and then what is done with their values, are one expression.
pub fn parts_then_apply()
    ensures { PartsThenApply }
{}
