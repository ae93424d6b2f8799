ghost use Rattle.std.specs.Prelude.{◌≡◌};
ghost use Rattle.mr_base.specs.Codes.{code_of};

/// How a run ended.
#[derive(Clone, Copy, Debug, PartialEq, Eq)]
pub enum Status {
    /// The output is written.
    Done,
    /// The words of the command have no form.
    Usage,
    /// The job file is refused.
    Job,
    /// An input is refused.
    Input,
    /// A key stands outside the container.
    Outside,
    /// A key that may be emitted once was emitted again.
    Twice,
    /// A value or a fold is over the limit.
    Over,
    /// A name isn't there, or a read failed.
    ReadFault,
    /// A write failed.
    WriteFault,
    /// Memory was wanted.
    Memory,
}

impl Status {
    /// The exit code of a program that ends so: Done 0, Usage 2, Job 3, Input 4, Outside 5, Twice 6, Over 7, ReadFault 8, WriteFault 9,
    /// Memory 10.
    pub fn code(self) -> u8
        ensures { result ≡ code_of self }
    {
        match self {
            Status::Done => 0,
            Status::Usage => 2,
            Status::Job => 3,
            Status::Input => 4,
            Status::Outside => 5,
            Status::Twice => 6,
            Status::Over => 7,
            Status::ReadFault => 8,
            Status::WriteFault => 9,
            Status::Memory => 10,
        }
    }
}
