// A flag: it is there, and its code, always 0, says nothing more.
ghost use Rattle.kinds.specs.Models.{mark_kind};
ghost use Rattle.std.specs.Prelude.{refl};

use crate::kind::Kind;

#[derive(Clone, Copy, Debug, PartialEq, Eq)]
pub struct Mark;

impl Kind for Mark {
    ghost kind = { mark_kind };

    ghost code = { λ _. 0 };

    ghost fits = { λ _. refl };

    fn read(number: u64) -> Option<Mark> {
        (number == 0).then_some(Mark)
    }

    fn to_code(&self) -> u64 {
        0
    }

    fn join(self, _: Mark) -> Mark {
        self
    }
}
