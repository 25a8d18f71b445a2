//! What answers the asks of a run.
ghost use Rattle.std.specs.Prelude.{◌≡◌};

use lanes_lib::{Answer, Ask};
use std::marker::Model;

/// What answers the asks of a run.
pub trait Host {
    ghost use Rattle.lanes_lib.specs.declared.ask.Ask.{Ask};
    ghost use Rattle.lanes_lib.specs.declared.ask.Answer.{Answer};

    /// An ask may be answered so, and lead from one host to the other.
    ghost asked: { Self → Ask → Answer → Self → Type 0 };

    /// Answers an ask.
    fn ask(&mut self, ask: Ask) -> Answer
        ensures { asked self.old ask result self.new };
}

/// What answers asks where it is ready for them, and is ready again then.
pub trait Ready {
    ghost use Rattle.lanes_lib.specs.declared.ask.Ask.{Ask};
    ghost use Rattle.lanes_lib.specs.declared.ask.Answer.{Answer};

    /// It may be asked.
    ghost ready: { Self → Type 0 };

    /// An ask may be answered so, and lead from one state to the other.
    ghost asked: { Self → Ask → Answer → Self → Type 0 };

    /// Answers an ask.
    fn ask(&mut self, ask: Ask) -> Answer
        requires { ready self.old }
        ensures ready { ready self.new }
        ensures asked { asked self.old ask result self.new };
}

/// What is ready for asks, as a host.
#[derive(Drop)]
pub struct Hosted<R: Ready> {
    inner: R,
}

impl<R: Ready> Model for Hosted<R> {
    ghost Value = { R };

    ghost view = { λ hosted. hosted.inner };

    ghost invariant = { λ hosted. R.ready hosted.inner };
}

impl<R: Ready> Hosted<R> {
    /// What is ready, as a host.
    pub fn of(inner: R) -> Hosted<R>
        requires { R.ready inner }
        ensures { result ≡ inner }
    {
        Hosted { inner }
    }

    /// What is a host here, ready as it is.
    pub fn into_inner(self) -> R
        ensures inner { result ≡ self }
        ensures ready { R.ready result }
    {
        let Hosted { inner } = self;
        inner
    }
}

impl<R: Ready> Host for Hosted<R> {
    ghost asked = { λ h ask answer h1. R.asked h ask answer h1 };

    fn ask(&mut self, ask: Ask) -> Answer {
        self.inner.ask(ask)
    }
}
