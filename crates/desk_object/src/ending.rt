//! How calls end, and which endings a caller allows.
ghost use Rattle.std.specs.Prelude.{◌≡◌, false, IfNone, IfSome};
ghost use Rattle.desk_object.specs.Endings.{Allows, MayEnd};
ghost use Rattle.desk_object.specs.declared.ending.Mode.TheVariants.{Try};

/// How a call ended.
#[derive(Clone, Copy, Debug, PartialEq, Eq)]
pub enum Ending {
    /// It was ready, and was carried out.
    Served,
    /// It was not ready, and changed nothing.
    GaveUp,
    /// Its caller took it back, and it changed nothing.
    Withdrawn,
}

/// What is to be done with a call.
#[derive(Clone, Copy, Debug, PartialEq, Eq)]
pub enum Mode {
    /// It is served where it is ready; else nothing is done.
    Try,
    /// It is served where it is ready; else it gives up.
    GiveUp,
    /// It is withdrawn, ready or not.
    Withdraw,
}

impl Mode {
    /// How a call in this mode ends, where `ready` says whether it is ready. None where nothing is
    /// to be done.
    pub fn ending(self, ready: bool) -> Option<Ending>
        ensures some { IfSome result (λ ending. MayEnd ending ready × Allows self ending) }
        ensures none { IfNone result ((self ≡ Try) × (ready ≡ false)) }
    {
        match self {
            Mode::Try => if ready { Some(Ending::Served) } else { None },
            Mode::GiveUp => Some(if ready {
                Ending::Served
            } else {
                Ending::GaveUp
            }),
            Mode::Withdraw => Some(Ending::Withdrawn),
        }
    }
}
