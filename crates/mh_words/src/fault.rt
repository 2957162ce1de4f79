// Why a command's words are refused.
ghost use Rattle.std.specs.Prelude.{◌≡◌};
ghost use Rattle.mh_words.specs.declared.fault.WordFault.TheVariants.{Memory};

use mh_base::WordWhy;
use std::alloc::AllocError;
use thiserror::Error;

/// Why a command's words are refused.
#[derive(Debug, PartialEq, Eq, Drop, Error)]
pub enum WordFault {
    /// The earliest wrong word: its place, from 0 through the profile's words and on through the
    /// command's.
    #[error("word {place} is wrong: {why:?}")]
    Bad { place: u64, why: WordWhy },
    /// There is not enough memory.
    #[error("out of memory")]
    Memory,
}

impl From<AllocError> for WordFault {
    ghost from_gives = { λ _ e. e ≡ Memory };

    fn from(_error: AllocError) -> WordFault {
        WordFault::Memory
    }
}

/// The fault of the word at this place.
pub fn fault_at(place: usize, why: WordWhy) -> WordFault
    ensures { result ≡ WordFault.Bad place why }
{
    WordFault::Bad {
        place: place as u64,
        why,
    }
}
