//! The status of a lane, the kinds of cancellation, and how words spell them.
ghost use Rattle.std.specs.Prelude.{◌≡◌, ◌≤◌};
ghost use Rattle.status_board.specs.Words.{code_of, status_of, bit_of, soft_in, hard_in};
ghost use Rattle.status_board.specs.Views.{kind_found};

/// The status of a lane: Pending, then Running and Waiting by turns, then one of the three ends for
/// good.
#[derive(Clone, Copy, Debug, PartialEq, Eq, Hash)]
pub enum Status {
    Pending,
    Running,
    Waiting,
    Done,
    Error,
    Cancelled,
}

impl Status {
    pub(crate) fn code(self) -> u64
        ensures { result ≡ code_of self }
    {
        match self {
            Status::Pending => 0,
            Status::Running => 1,
            Status::Waiting => 2,
            Status::Done => 3,
            Status::Error => 4,
            Status::Cancelled => 5,
        }
    }

    pub(crate) fn of_code(code: u64) -> Status
        requires { code ≤ 5 }
        ensures { result ≡ status_of code }
    {
        match code {
            0 => Status::Pending,
            1 => Status::Running,
            2 => Status::Waiting,
            3 => Status::Done,
            4 => Status::Error,
            _ => Status::Cancelled,
        }
    }
}

/// Which cancellation of a lane is asked for. Hard is the stronger one.
#[derive(Clone, Copy, Debug, PartialEq, Eq, Hash)]
pub enum CancelKind {
    Soft,
    Hard,
}

impl CancelKind {
    pub(crate) fn bit(self) -> u64
        ensures { result ≡ bit_of self }
    {
        match self {
            CancelKind::Soft => 1,
            CancelKind::Hard => 2,
        }
    }

    /// The stronger kind among the bits of a cancel word.
    pub(crate) fn in_bits(bits: u64) -> Option<CancelKind>
        requires { bits ≤ 3 }
        ensures { result ≡ kind_found (soft_in bits) (hard_in bits) }
    {
        match bits {
            0 => None,
            1 => Some(CancelKind::Soft),
            _ => Some(CancelKind::Hard),
        }
    }
}
