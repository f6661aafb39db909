//! Forms that are not carried out so far.

ghost use Rattle.std.specs.Prelude.{◌≡◌};
ghost use Rattle.aqe_built.specs.Forms.{text_of};

/// A form of the language that is not carried out so far.
#[derive(Debug, Clone, Copy, PartialEq, Eq)]
pub enum Form {
    Set,
    /// OPTIONS of a table.
    Options,
}

impl Form {
    /// How the form is told to a user: by its keyword.
    pub fn text(self) -> &'static str
        ensures { result.now ≡ text_of self }
    {
        match self {
            Form::Set => "SET",
            Form::Options => "OPTIONS",
        }
    }
}
