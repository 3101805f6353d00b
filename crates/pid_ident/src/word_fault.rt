//! Why a text is no word of its kind.
ghost use Rattle.std.specs.Prelude.{◌≡◌};
ghost use Rattle.pid_ident.specs.declared.word_fault.WordFault.TheVariants.{Memory};

use std::alloc::AllocError;
use thiserror::Error;

/// Why a text is not taken as a name, a text, an account or a key.
#[derive(Clone, Copy, Debug, Error)]
pub enum WordFault {
    #[error("the rule of such words is broken")]
    Bad,
    #[error("no memory")]
    Memory,
}

impl From<AllocError> for WordFault {
    ghost from_gives = { λ _ e. e ≡ Memory };

    fn from(_error: AllocError) -> WordFault {
        WordFault::Memory
    }
}
