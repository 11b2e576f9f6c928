//! What a trial can end with, and how it is printed.

/// Whether a call returned what it should.
#[derive(Clone, Copy)]
pub enum Answer {
    /// The call returned what it returns if no memory is refused.
    Ordinary,
    /// The call failed because memory was refused. The text, which is printed, names the error and says that the
    /// arguments are unchanged.
    Memory(&'static str),
    /// The call returned another value, or failed for another reason.
    Other,
    /// The call changed its arguments.
    Changed,
}

impl Answer {
    /// Returns the answer of a call that did not report lack of memory. `is_worked` says whether the call returned the
    /// value that was worked out for it.
    pub fn of(is_worked: bool) -> Answer {
        if is_worked {
            Answer::Ordinary
        } else {
            Answer::Other
        }
    }

    /// Returns this answer if the arguments are the same as before, and otherwise `Changed`, whatever the call
    /// returned.
    pub fn given(self, is_same: bool) -> Answer {
        if is_same { self } else { Answer::Changed }
    }

    /// Returns what is printed after the name of the trial.
    pub fn text(self) -> &'static str {
        match self {
            Answer::Ordinary => "as worked out, arguments unchanged",
            Answer::Memory(name) => name,
            Answer::Other => "another answer",
            Answer::Changed => "arguments changed",
        }
    }
}
