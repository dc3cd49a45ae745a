//! Laws of instructions, targets, calls and faults, each the contract of a function that does
//! nothing. A hole names a target that is still open in the code of a function which is being made.

ghost use Rattle.std.specs.Prelude.{◌≡◌, ℕ, ◌⊎◌, true, List};
ghost use Rattle.rb_target.specs.Spelled.{AreSpelled};
ghost use Rattle.rb_target.specs.Faults.{FaultStands, IsFirstCodeFault, IsCountable};
ghost use Rattle.rb_target.specs.declared.fault.CodeFault.{CodeFault as CodeFaultDecl};
ghost use Rattle.rb_core.specs.declared.expression.Op.{Op as OpDecl};
ghost use Rattle.rb_core.specs.Meaning.{op_value};
ghost use Rattle.rb_core.specs.WellNumbered.{is_lower};
ghost use Rattle.rb_target.specs.declared.body.Hole.{Hole as HoleDecl};
ghost use Rattle.rb_target.specs.declared.code.CodeFun.{CodeFun as CodeFunDecl};
ghost use Rattle.rb_target.specs.Calls.{CallLaws, KeepGood};
ghost use Rattle.rb_target.specs.Meaning.{alu_of};
ghost use Rattle.rb_target.specs.Operators.{alu_op_of};
ghost use Rattle.rb_target.specs.Sheet.{Sheet, IsHole, with_target_at};
ghost use Rattle.rb_target.specs.Targets.{SetsTarget};
ghost use Rattle.rb_target.specs.Validity.{IsLower, IsValid};

/// To patch the code of a function sets the target that a hole of it names and changes nothing
/// else: the number of instructions, the other targets, the other instructions and the slots that
/// are written stay.
pub fn patching_sets_one_target()
    ensures { (b : Sheet) (h : HoleDecl) (t : ℕ) → IsHole b.code h
        → SetsTarget b h t (with_target_at b h t) }
{}

/// A call costs one of the calls that are left, goes through its function's body with one less, and
/// is spent where there is none. A return tells how many are left then.
pub fn calls_cost_one()
    ensures { (funs : List CodeFunDecl) → CallLaws funs }
{}

/// A call of a function of valid code keeps a good memory good, however it ends.
pub fn runs_keep_memory_good()
    ensures { (funs : List CodeFunDecl) → IsValid funs → KeepGood funs }
{}

/// The machine's operation for an operator of the language gives the operator's value, at each
/// width in bits.
pub fn operations_are_operators()
    ensures { (op : OpDecl) (width a b : ℕ)
        → alu_of (alu_op_of op) width a b ≡ op_value op width a b }
{}

/// The names that a program may give its functions are just those that functions of code may have.
pub fn names_are_shared()
    ensures of_programs { (name : List ℕ) → is_lower name ≡ true → IsLower name }
    ensures of_code { (name : List ℕ) → IsLower name → is_lower name ≡ true }
{}

/// Functions that are valid together have no fault. Others that a text can hold have a first fault,
/// where machine words count them and their instructions. No functions have two first faults.
pub fn faults_decide_validity()
    ensures none { (funs : List CodeFunDecl) (fault : CodeFaultDecl) → IsValid funs
        → ¬ FaultStands funs fault }
    ensures some { (funs : List CodeFunDecl) → AreSpelled funs → IsCountable funs
        → IsValid funs ⊎ ((fault : CodeFaultDecl) × IsFirstCodeFault funs fault) }
    ensures one { (funs : List CodeFunDecl) (a b : CodeFaultDecl) → IsFirstCodeFault funs a
        → IsFirstCodeFault funs b → a ≡ b }
{}
