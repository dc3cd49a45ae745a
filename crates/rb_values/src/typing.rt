//! Fitting a value to its type while it is read, and building it as long as it fits.
//!
//! A sign is what a token is to a value, and a node is a number or a name of the text. A name is
//! open from the parenthesis behind it to the one that closes its fields; it stands last while it
//! is not known whether it has fields. A node that does not fit its type is noted by its byte.
//! `types` are the types of the program, and `root` is the type of the whole value. Every error but
//! that of `finish` is want of memory.

ghost use Rattle.std.specs.Prelude.{◌≡◌, List, ◌∷◌, [], ℕ, ◌≤◌, IfOk, OnOk, Some, None};
ghost use Rattle.std.specs.Option.{option_copied};
ghost use Rattle.rb_core.specs.declared.types.Ty.{Ty as Type_};
ghost use Rattle.rb_core.specs.declared.types.DataDecl.{DataDecl as Decl};
ghost use Rattle.rb_core.specs.Typing as typing;
ghost use Rattle.rb_values.specs.Fitting as fit;
ghost use Rattle.rb_values.specs.Terms.{Term, number, build};
ghost use Rattle.rb_values.specs.inner.States.{State, Wait, expecting, named, complete, waits, whole, step, then_on};
ghost use Rattle.rb_values.specs.inner.Finishing.{IsSettled};
ghost use Rattle.rb_values.specs.inner.Typing as keep;
ghost use Rattle.rb_values.specs.declared.sign.Sign.TheVariants as sign;

use crate::builder::Builder;
use crate::fault::ValueFault;
use crate::forest::Forest;
use crate::sign::Sign;
use rb_core::constructors::con_of;
use rb_core::types::{Con, ConRef, DataDecl, Ty};
use std::alloc::{AllocError, Global};

/// A name whose fields are read: its byte, its constructor where its type has one, how many fields
/// are whole, and whether all nodes before it fit.
#[derive(Clone, Copy)]
pub struct Frame {
    pub at: usize,
    pub con: Option<ConRef>,
    pub next: usize,
    pub clean: bool,
}

/// The names that are open, the name that stands last while its fields have not begun, the byte of
/// the first node that does not fit, and the values so far, which are built while all fit.
#[derive(Drop)]
pub struct Typing {
    pub frames: Vec<Frame>,
    pub name: Option<Frame>,
    pub fault: Option<usize>,
    pub builder: Builder,
}

// Whether values of a type may be this number.
fn holds(ty: Ty, n: u64) -> bool
    ensures { result ≡ typing.type_holds ty n }
{
    match ty {
        Ty::Int(bits) => bits >= 64 || n < 1 << bits,
        Ty::Named(_) => false,
    }
}

// The number of the first constructor of this name; None where there is none.
fn con_index(cons: &[Con], name: &[u8]) -> Option<usize>
    ensures { result ≡ fit.con_index cons.now name.now }
{
    cons.iter().position(|con| con.name.as_slice() == name)
}

// The constructor of a data type that has this name; None where there is no such type or
// constructor, as in a type of integers.
fn con_named(types: &[DataDecl], ty: Ty, name: &[u8]) -> Result<Option<ConRef>, ValueFault>
    ensures { IfOk result (λ con. con ≡ fit.con_named types.now ty name.now) }
{
    let Ty::Named(ty) = ty else {
        return Ok(None);
    };
    let index = ty as usize;
    if index >= types.len() {
        return Ok(None);
    }
    match con_index(types[index].cons.as_slice(), name) {
        None => Ok(None),
        Some(con) => match u32::try_from(con) {
            Ok(con) => Ok(Some(ConRef { ty, con })),
            Err(_) => Err(ValueFault::Memory),
        },
    }
}

// The constructor of this name of the type that is expected; none where no type is, or it has none.
fn con_at(types: &[DataDecl], ty: Option<Ty>, name: &[u8]) -> Result<Option<ConRef>, ValueFault>
    ensures { IfOk result (λ con. con ≡ keep.con_at types.now ty name.now) }
{
    match ty {
        None => Ok(None),
        Some(ty) => con_named(types, ty, name),
    }
}

// The types of a constructor's fields; None where there is no such constructor.
fn con_fields(types: &[DataDecl], con: Option<ConRef>) -> Option<&[Ty]>
    ensures { option_copied result ≡ fit.con_fields types.now con }
{
    match con {
        None => None,
        Some(con) => con_of(types, con).map(|con| con.fields.as_slice()),
    }
}

// The type of field `i` of a constructor; none where there is no such constructor or field.
fn field_at(types: &[DataDecl], con: Option<ConRef>, i: usize) -> Option<Ty>
    ensures { result ≡ keep.field_at (fit.con_fields types.now con) i }
{
    match con_fields(types, con) {
        None => None,
        Some(fields) => fields.get(i).copied(),
    }
}

// The number of a constructor in its type; 0 where there is none.
fn con_number(con: Option<ConRef>) -> u32
    ensures { result ≡ fit.con_number con }
{
    match con {
        None => 0,
        Some(con) => con.con,
    }
}

// Whether no node is noted that does not fit its type.
fn is_clean(fault: Option<usize>) -> bool
    ensures { result ≡ keep.is_clean fault }
{
    match fault {
        None => true,
        Some(_) => false,
    }
}

// The lesser of two numbers.
fn least(a: usize, b: usize) -> usize
    ensures below { result ≤ b }
    ensures same { a ≤ b → result ≡ a }
{
    if a <= b { a } else { b }
}

impl Typing {
    /// What is kept before anything is read.
    pub fn new(alloc: Global) -> Typing
        ensures { (types : List Decl) (root : Type_) → keep.IsTyped types root (expecting []) result }
    {
        Typing {
            frames: Vec::new(alloc),
            name: None,
            fault: None,
            builder: Builder::new(alloc),
        }
    }

    // The type of the next value: that of the whole where no name is open, else that of the next
    // field. None where it is not tried, as below a node that does not fit and behind the last
    // field.
    fn expected(&self, types: &[DataDecl], root: Ty) -> Option<Ty>
        ensures { (os : List Wait) → self.now.frames.items ≡ keep.frames_of types.now root os
            → result ≡ keep.next_type types.now root os }
    {
        let count = self.frames.len();
        if count == 0 {
            return Some(root);
        }
        let frame = self.frames[count - 1];
        field_at(types, frame.con, frame.next)
    }

    // Takes in a number where a value is to begin: it is built while all fits, and noted where it
    // is the first node that does not.
    fn number(&mut self, types: &[DataDecl], root: Ty, at: usize, n: u64) -> Result<(), AllocError>
        ensures { OnOk result ((os : List Wait) → keep.IsTyped types.now root (expecting os) self.old
            → keep.IsTyped types.now root (complete (number at n) os) self.new) }
    {
        let ty = match self.expected(types, root) {
            None => return Ok(()),
            Some(ty) => ty,
        };
        match self.fault {
            None => {}
            Some(_) => return Ok(()),
        }
        if holds(ty, n) {
            self.builder.number(n)?;
            return Ok(());
        }
        self.fault = Some(at);
        Ok(())
    }

    // Takes in a name where a value is to begin: it stands last, and is noted where its type has no
    // constructor of that name and all before it fits.
    fn name(
        &mut self,
        types: &[DataDecl],
        root: Ty,
        at: usize,
        name: &[u8],
    ) -> Result<(), ValueFault>
        ensures { OnOk result ((os : List Wait) → keep.IsTyped types.now root (expecting os) self.old
            → keep.IsTyped types.now root (named at name.now os) self.new) }
    {
        let ty = self.expected(types, root);
        let con = con_at(types, ty, name)?;
        self.name = Some(Frame {
            at,
            con,
            next: 0,
            clean: is_clean(self.fault),
        });
        match self.fault {
            None => {}
            Some(_) => return Ok(()),
        }
        match ty {
            None => return Ok(()),
            Some(_) => {}
        }
        match con_fields(types, con) {
            None => {}
            Some(_) => return Ok(()),
        }
        self.fault = Some(at);
        Ok(())
    }

    // Opens the name that stands last: its fields begin.
    fn open(&mut self) -> Result<(), AllocError>
        ensures { OnOk result ((types : List Decl) (root : Type_) (at : ℕ) (x : List ℕ) (os : List Wait)
            → keep.IsTyped types root (named at x os) self.old
            → keep.IsTyped types root (expecting (waits at x ∷ os)) self.new) }
    {
        if let Some(frame) = self.name {
            self.name = None;
            self.frames.push(frame)?;
        }
        Ok(())
    }

    // Ends a name, all of whose fields are there: they are joined to its value where all fits.
    // Where they are too few or too many the name is noted, unless a node before it was; what was
    // noted in its fields gives way.
    fn close_frame(&mut self, types: &[DataDecl], frame: Frame) -> Result<(), AllocError>
        ensures { OnOk result ((root : Type_) (o : Wait) (os : List Wait)
            → frame ≡ keep.frame_of types.now root o os
            → keep.IsClosing types.now root o os self.old.frames.items self.old.name self.old.fault self.old.builder
            → keep.IsTyped types.now root (complete (whole o) os) self.new) }
    {
        let fields = match con_fields(types, frame.con) {
            None => return Ok(()),
            Some(fields) => fields,
        };
        if fields.len() != frame.next {
            if frame.clean {
                self.fault = Some(frame.at);
            }
            return Ok(());
        }
        match self.fault {
            None => {}
            Some(_) => return Ok(()),
        }
        let count = least(frame.next, self.builder.len());
        self.builder.build(con_number(frame.con), count)?;
        Ok(())
    }

    /// Ends the name that stands last, if one does: it is whole without fields.
    ///
    /// # Errors
    ///
    /// Want of memory.
    pub fn settle(&mut self, types: &[DataDecl]) -> Result<(), AllocError>
        ensures { OnOk result ((root : Type_) (s : State) → keep.IsTyped types.now root s self.old
            → keep.IsTyped types.now root (keep.settled_state s) self.new) }
    {
        match self.name {
            None => Ok(()),
            Some(frame) => {
                self.name = None;
                self.close_frame(types, frame)?;
                Ok(())
            }
        }
    }

    // Takes in a comma: the innermost open name has one more field, and another begins.
    fn comma(&mut self) -> Result<(), ValueFault>
        ensures { OnOk result ((types : List Decl) (root : Type_) (t : Term) (os : List Wait) (next : State)
            → then_on t os sign.Comma ≡ Some next → keep.IsTyped types root (complete t os) self.old
            → keep.IsTyped types root next self.new) }
    {
        if let Some(frame) = self.frames.pop() {
            let Some(next) = frame.next.checked_add(1) else {
                return Err(ValueFault::Memory);
            };
            self.frames.push(Frame { next, ..frame })?;
        }
        Ok(())
    }

    // Takes in a closing parenthesis: the innermost open name has one more field, which is its
    // last.
    fn close(&mut self, types: &[DataDecl]) -> Result<(), ValueFault>
        ensures { OnOk result ((root : Type_) (t : Term) (os : List Wait) (next : State)
            → then_on t os sign.Close ≡ Some next → keep.IsTyped types.now root (complete t os) self.old
            → keep.IsTyped types.now root next self.new) }
    {
        if let Some(frame) = self.frames.pop() {
            let Some(next) = frame.next.checked_add(1) else {
                return Err(ValueFault::Memory);
            };
            self.close_frame(types, Frame { next, ..frame })?;
        }
        Ok(())
    }

    /// Takes in one more sign, with which a value goes on.
    ///
    /// # Errors
    ///
    /// Want of memory.
    pub fn step(&mut self, types: &[DataDecl], root: Ty, sign: Sign) -> Result<(), ValueFault>
        ensures { OnOk result ((s next : State) → step s sign ≡ Some next → keep.IsTyped types.now root s self.old
            → keep.IsTyped types.now root next self.new) }
    {
        match sign {
            Sign::Number(at, n) => self.number(types, root, at, n)?,
            Sign::Name(at, name) => self.name(types, root, at, name.as_slice())?,
            Sign::Open => self.open()?,
            Sign::Comma => {
                self.settle(types)?;
                self.comma()?;
            }
            Sign::Close => {
                self.settle(types)?;
                self.close(types)?;
            }
            Sign::Other => {}
        }
        Ok(())
    }

    /// The value that was read, or the first node that does not fit.
    ///
    /// # Errors
    ///
    /// `ValueType` at a node that does not fit its type, of several at the one that begins first in
    /// the text; or want of memory.
    pub fn finish(self) -> Result<Forest, ValueFault>
        ensures { (types : List Decl) (root : Type_) (t : Term) → keep.IsTyped types root (complete t []) self
            → IsSettled types root t result }
    {
        let Typing {
            frames: _,
            name: _,
            fault,
            builder,
        } = self;
        match fault {
            Some(at) => Err(ValueFault::ValueType(at)),
            None => {
                if builder.len() == 1 {
                    return Ok(builder.finish());
                }
                // one value is built where all nodes fit
                Err(ValueFault::Memory)
            }
        }
    }
}
