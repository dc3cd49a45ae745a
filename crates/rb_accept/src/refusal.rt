//! Why a file is refused, as it is answered.
//!
//! An answer is a status with a line. It is given for any fault but want of memory, which stays an
//! error. `placed` are the tokens of the file with the bytes at which they begin, `length` is how
//! many bytes the file has, and `types` are the types of its program.

ghost use Rattle.std.specs.Prelude.{◌≡◌, ◌≢◌, IfOk};
ghost use Rattle.rb_core.specs.declared.typing.TypeFault.TheVariants as typing;
ghost use Rattle.rb_layout.specs.Flattening.{HaveLayouts, flat_layouts};
ghost use Rattle.rb_layout.specs.Spots.{IsRefusedBy};
ghost use Rattle.rb_lines.specs.View.{due_of};
ghost use Rattle.rb_names.specs.declared.fault.NameFault.TheVariants as names;
ghost use Rattle.rb_read.specs.declared.fault.ReadFault.TheVariants as reading;
ghost use Rattle.rb_syntax.specs.declared.lex.LexFault.TheVariants as lexing;
ghost use Rattle.rb_accept.specs.Accepting as accepting;

use rb_auto::AutoFault;
use rb_check::TypeFault;
use rb_core::limits::MOST_LEVELS;
use rb_core::pattern::Pat;
use rb_core::seq::Seq;
use rb_core::typed::Covered;
use rb_core::types::DataDecl;
use rb_layout::evidence::Refused as Disagreed;
use rb_layout::flat_layouts::flatten;
use rb_layout::layout::Layout;
use rb_lines::line::{begin, end};
use rb_lines::pattern::missing_values;
use rb_lines::place::byte_of;
use rb_lines::refusal::Refused;
use rb_lines::status::Status;
use rb_lines::{derived as derived_line, fault as fault_line, types as type_line};
use rb_names::NameFault;
use rb_read::fault::ReadFault;
use rb_show::refusal::show_refusal;
use rb_syntax::lex::LexFault;
use rb_syntax::token::Placed;
use std::alloc::{AllocError, Global};

/// The answer to bytes that are no tokens: a bad byte, or a number that is too wide.
///
/// # Errors
///
/// Want of memory.
pub fn refuse_bytes(alloc: Global, fault: LexFault) -> Result<Refused, AllocError>
    ensures due { IfOk result (λ c. due_of c ≡ accepting.lex_due fault) }
    ensures other { IfOk result (λ c. fault ≢ lexing.Memory) }
{
    match fault {
        LexFault::BadByte(at) => {
            let line = fault_line::at_byte(alloc, "bad byte", at as u64)?;
            Ok(Refused {
                status: Status::Syntax,
                line,
            })
        }
        LexFault::NumberTooWide(at) => {
            let line = fault_line::at_byte(alloc, "number over 64 bits", at as u64)?;
            Ok(Refused {
                status: Status::Syntax,
                line,
            })
        }
        LexFault::Memory => Err(AllocError),
    }
}

/// The answer to tokens that are no file within its limits.
///
/// # Errors
///
/// Want of memory.
pub fn refuse_tokens(
    alloc: Global,
    placed: &[Placed],
    length: usize,
    fault: ReadFault,
) -> Result<Refused, AllocError>
    ensures due { IfOk result (λ c. due_of c ≡ accepting.read_due placed.now length fault) }
    ensures other { IfOk result (λ c. fault ≢ reading.Memory) }
{
    match fault {
        ReadFault::TooDeep(token) => {
            let at = byte_of(placed, length, token);
            let line = fault_line::nesting(alloc, MOST_LEVELS as u64, at)?;
            Ok(Refused {
                status: Status::Limit,
                line,
            })
        }
        ReadFault::Syntax(token) => {
            let at = byte_of(placed, length, token);
            let line = fault_line::at_byte(alloc, "syntax", at)?;
            Ok(Refused {
                status: Status::Syntax,
                line,
            })
        }
        ReadFault::Limit(over, count) => {
            let line = fault_line::limit(alloc, over, count)?;
            Ok(Refused {
                status: Status::Limit,
                line,
            })
        }
        ReadFault::Memory => Err(AllocError),
    }
}

/// The answer to a file whose names have no meaning.
///
/// # Errors
///
/// Want of memory.
pub fn refuse_names(
    alloc: Global,
    placed: &[Placed],
    length: usize,
    fault: &NameFault,
) -> Result<Refused, AllocError>
    ensures due { IfOk result (λ c. due_of c ≡ accepting.name_due placed.now length fault.now) }
    ensures other { IfOk result (λ c. fault.now ≢ names.Memory) }
{
    match fault {
        NameFault::Twice(name, token) => {
            let at = byte_of(placed, length, *token);
            let line = fault_line::twice(alloc, name.as_slice(), at)?;
            Ok(Refused {
                status: Status::Meaning,
                line,
            })
        }
        NameFault::Unknown(name, token) => {
            let at = byte_of(placed, length, *token);
            let line = fault_line::unknown(alloc, name.as_slice(), at)?;
            Ok(Refused {
                status: Status::Meaning,
                line,
            })
        }
        NameFault::NoMain => {
            let line = fault_line::no_main(alloc)?;
            Ok(Refused {
                status: Status::Meaning,
                line,
            })
        }
        NameFault::Memory => Err(AllocError),
    }
}

/// The answer to a program that is not typed.
///
/// # Errors
///
/// Want of memory.
pub fn refuse_types(
    alloc: Global,
    types: &[DataDecl],
    placed: &[Placed],
    length: usize,
    fault: TypeFault,
) -> Result<Refused, AllocError>
    ensures due { IfOk result (λ c. due_of c ≡ accepting.type_due types.now placed.now length fault) }
    ensures other { IfOk result (λ c. fault ≢ typing.Memory) }
{
    match fault {
        TypeFault::Empty(ty) => {
            let line = type_line::empty(alloc, types, ty)?;
            Ok(Refused {
                status: Status::Meaning,
                line,
            })
        }
        TypeFault::Mismatch(token, wanted, found) => {
            let at = byte_of(placed, length, token);
            let line = type_line::mismatch(alloc, types, wanted, found, at)?;
            Ok(Refused {
                status: Status::Meaning,
                line,
            })
        }
        TypeFault::Arity(token, wanted, found) => {
            let at = byte_of(placed, length, token);
            let line = type_line::arity(alloc, wanted, found, at)?;
            Ok(Refused {
                status: Status::Meaning,
                line,
            })
        }
        TypeFault::VariableTwice(token) => {
            let at = byte_of(placed, length, token);
            let line = fault_line::at_byte(alloc, "variable twice", at)?;
            Ok(Refused {
                status: Status::Meaning,
                line,
            })
        }
        TypeFault::Memory => Err(AllocError),
    }
}

/// The answer to a program with a match that misses the values of a pattern.
///
/// # Errors
///
/// Want of memory.
pub fn refuse_match(
    alloc: Global,
    types: &[DataDecl],
    placed: &[Placed],
    length: usize,
    token: u32,
    pattern: &Pat,
) -> Result<Refused, AllocError>
    ensures { IfOk result (λ c. due_of c ≡ accepting.match_due types.now placed.now length token pattern.now) }
{
    let at = byte_of(placed, length, token);
    let line = missing_values(alloc, types, pattern, at)?;
    Ok(Refused {
        status: Status::Meaning,
        line,
    })
}

/// The answer to a program with a layout that cannot be derived.
///
/// # Errors
///
/// Want of memory.
pub fn refuse_derived(
    alloc: Global,
    types: &[DataDecl],
    fault: &AutoFault,
) -> Result<Refused, AllocError>
    ensures { IfOk result (λ c. due_of c ≡ accepting.derived_due types.now fault.now) }
{
    match fault {
        AutoFault::PackedRecursive(ty) => {
            let line = derived_line::recursive(alloc, types, *ty)?;
            Ok(Refused {
                status: Status::Layout,
                line,
            })
        }
        AutoFault::PackedWide(ty, bits) => {
            let line = derived_line::wide(alloc, types, *ty, *bits)?;
            Ok(Refused {
                status: Status::Layout,
                line,
            })
        }
        AutoFault::Memory => Err(AllocError),
    }
}

// The flat forms of the layouts, where a refusal by this rule may name their leaves: at the first
// rule a type may have no layout.
fn named_layouts(alloc: Global, covered: &Covered, rule: u8) -> Result<Seq<Layout>, AllocError>
    requires { rule ≢ 1 → HaveLayouts covered.now.program }
    ensures { IfOk result (λ layouts. rule ≢ 1 → layouts ≡ flat_layouts covered.now.program) }
{
    if rule == 1 {
        return Ok(Seq::new(alloc));
    }
    flatten(alloc, covered)
}

/// The answer to a program whose layouts do not agree with its types.
///
/// # Errors
///
/// Want of memory.
pub fn refuse_layouts(
    alloc: Global,
    covered: &Covered,
    fault: &Disagreed,
) -> Result<Refused, AllocError>
    requires { IsRefusedBy covered.now.program (flat_layouts covered.now.program) fault.now }
    ensures { IfOk result (λ c. due_of c ≡ accepting.layout_due covered.now.program fault.now) }
{
    let layouts = named_layouts(alloc, covered, fault.rule)?;
    let types = covered.program().types.as_slice();
    let text = show_refusal(alloc, types, layouts.as_slice(), fault)?;
    let line = begin(alloc, text.as_slice())?;
    let line = end(line)?;
    Ok(Refused {
        status: Status::Layout,
        line,
    })
}
