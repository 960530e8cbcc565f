//! What is left to do for a number.
ghost use Rattle.std.specs.Prelude.{◌≡◌};
ghost use Rattle.work_queues.specs.Tasks.{is_parked, is_waiting, is_out, is_due};

/// What is left to do for a number.
#[derive(Clone, Copy, Debug, PartialEq, Eq)]
pub enum Task {
    /// Its origin's rules have to be known first.
    Parked,
    /// A permit is to be given for it.
    Waiting,
    /// A permit is out for it.
    Out,
    /// It is to be spread.
    Due,
    /// Nothing.
    Done,
}

impl Task {
    pub(crate) fn is_parked(self) -> bool
        ensures { result ≡ is_parked self }
    {
        matches!(self, Task::Parked)
    }

    pub(crate) fn is_waiting(self) -> bool
        ensures { result ≡ is_waiting self }
    {
        matches!(self, Task::Waiting)
    }

    pub(crate) fn is_out(self) -> bool
        ensures { result ≡ is_out self }
    {
        matches!(self, Task::Out)
    }

    pub(crate) fn is_due(self) -> bool
        ensures { result ≡ is_due self }
    {
        matches!(self, Task::Due)
    }
}
