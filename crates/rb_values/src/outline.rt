//! How far a value's text is read, types aside: it takes no memory, however long the text is.
//!
//! A sign is what a token is to a value. A name is open from the parenthesis behind it to the one
//! that closes its fields. A node is a number or a name of the text.

ghost use Rattle.std.specs.Prelude.{◌≡◌, ◌-◌, ◌<◌, ◌≤◌, ◌^◌, []};
ghost use Rattle.rb_values.specs.inner.States.{expecting, outline_of, outline_begin, outline_on, outline_step, mode_whole};

use crate::sign::Sign;

/// What may stand next.
#[derive(Clone, Copy)]
pub enum Mode {
    /// A value is to begin.
    Begin,
    /// A name stands, whose fields may begin.
    Name,
    /// A value is whole.
    Whole,
}

/// Where reading stands: what may stand next, how many names are open, and how many nodes have
/// begun.
#[derive(Clone, Copy)]
pub struct Outline {
    pub mode: Mode,
    pub depth: usize,
    pub nodes: usize,
}

impl Outline {
    /// The outline before anything is read: a value is to begin.
    pub fn new() -> Outline
        ensures { result ≡ outline_of (expecting []) }
    {
        Outline {
            mode: Mode::Begin,
            depth: 0,
            nodes: 0,
        }
    }

    // Where reading stands behind a sign where a value is to begin; none where no value begins with
    // it.
    fn begin(self, sign: &Sign) -> Option<Outline>
        requires { self.nodes < 2 ^ 64 - 1 }
        ensures { result ≡ outline_begin self sign.now }
    {
        match sign {
            Sign::Number(..) => Some(Outline {
                mode: Mode::Whole,
                nodes: self.nodes + 1,
                ..self
            }),
            Sign::Name(..) => Some(Outline {
                mode: Mode::Name,
                nodes: self.nodes + 1,
                ..self
            }),
            Sign::Open | Sign::Close | Sign::Comma | Sign::Other => None,
        }
    }

    // Where reading stands behind a sign that follows a whole value; none where no name is open, or
    // where the sign is no comma and no closing parenthesis.
    fn go_on(self, sign: &Sign) -> Option<Outline>
        ensures { result ≡ outline_on self sign.now }
    {
        if self.depth == 0 {
            return None;
        }
        match sign {
            Sign::Comma => Some(Outline {
                mode: Mode::Begin,
                ..self
            }),
            Sign::Close => Some(Outline {
                mode: Mode::Whole,
                depth: self.depth - 1,
                ..self
            }),
            Sign::Number(..) | Sign::Name(..) | Sign::Open | Sign::Other => None,
        }
    }

    /// Where reading stands behind one more sign; none where no value goes on with it.
    pub fn step(self, sign: &Sign) -> Option<Outline>
        requires nodes { self.nodes < 2 ^ 64 - 1 }
        requires depth { self.depth ≤ self.nodes }
        ensures { result ≡ outline_step self sign.now }
    {
        match self.mode {
            Mode::Begin => self.begin(sign),
            Mode::Name => match sign {
                Sign::Open => Some(Outline {
                    mode: Mode::Begin,
                    depth: self.depth + 1,
                    ..self
                }),
                Sign::Comma | Sign::Close => self.go_on(sign),
                Sign::Number(..) | Sign::Name(..) | Sign::Other => None,
            },
            Mode::Whole => self.go_on(sign),
        }
    }

    /// Whether what was read is a whole value: no name is open, and the last sign ends a value.
    pub fn is_whole(self) -> bool
        ensures { result ≡ mode_whole self.mode self.depth }
    {
        match self.mode {
            Mode::Begin => false,
            Mode::Name | Mode::Whole => self.depth == 0,
        }
    }
}
