//! The outcomes of a run, and the exit code of each.

ghost use Rattle.std.specs.Prelude.{◌≡◌};
ghost use Rattle.typst_html_run.specs.Answers.{code_of};

/// The outcome of a run of the program.
#[derive(Clone, Copy, Debug, PartialEq, Eq)]
pub enum Status {
    /// The HTML text was written.
    Done,
    /// The tree or the items were refused, and a line says why and where.
    Refused,
    /// The words or the input are not what the program takes.
    BadInput,
    /// An allocation, the reader or the writer failed.
    Failed,
}

impl Status {
    /// Returns the exit code of the process, from 0 to 3 in the order of the variants.
    pub fn code(self) -> u8
        ensures { result ≡ code_of self }
    {
        match self {
            Status::Done => 0,
            Status::Refused => 1,
            Status::BadInput => 2,
            Status::Failed => 3,
        }
    }
}
