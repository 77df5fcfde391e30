//! Where the characters that are being scanned were written.
ghost use Rattle.std.specs.Prelude.{◌≡◌};
ghost use Rattle.trac_warnings.specs.Origins.{behind, in_input, in_value};

/// Where a character was written: in the input, or in the body of a form from whose value it came.
#[derive(Clone, Copy, Debug, PartialEq, Eq, PartialOrd, Ord)]
pub struct Origin {
    /// How many bytes of the input stand before it; for a character of a value, how many stand before the body
    /// of the form.
    pub offset: usize,
    /// For a character of a value, the number of the form's name among the names that were defined.
    pub form: Option<usize>,
    /// How many characters of the body and of the value stand before it, 0 for one of the input.
    pub column: usize,
}

impl Origin {
    /// The origin behind this many bytes of the input.
    pub fn in_input(offset: usize) -> Origin
        ensures { result ≡ in_input offset }
    {
        Origin {
            offset,
            form: None,
            column: 0,
        }
    }

    /// The origin behind this many characters of the value of a form whose body was written at this origin.
    pub fn in_value(self, form: usize, column: usize) -> Origin
        ensures { result ≡ in_value self form column }
    {
        Origin {
            offset: self.offset,
            form: Some(form),
            column,
        }
    }

    /// The origin this many characters further, in the same text.
    pub fn behind(self, count: usize) -> Origin
        ensures { result ≡ behind count self }
    {
        match self.form {
            None => Origin {
                offset: self.offset.saturating_add(count),
                ..self
            },
            Some(_) => Origin {
                column: self.column.saturating_add(count),
                ..self
            },
        }
    }
}
