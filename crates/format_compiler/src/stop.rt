// Why reading stops.
ghost use Rattle.std.specs.Prelude.{◌≡◌};
ghost use Rattle.format_compiler.specs.declared.stop.Stop.TheVariants.{Memory as NoMemory};

use std::alloc::AllocError;

/// Why reading stops: the text is wrong from here on, or memory ran out.
#[derive(Clone, Copy)]
pub(crate) enum Stop<'a> {
    Wrong(&'a [char]),
    Memory,
}

impl<'a> From<AllocError> for Stop<'a> {
    ghost from_gives = { λ _ e. e ≡ NoMemory };

    fn from(_error: AllocError) -> Stop<'a> {
        Stop::Memory
    }
}
