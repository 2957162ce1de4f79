// The parts of addresses.
ghost use Rattle.std.specs.Prelude.{◌≡◌, IfOk};
ghost use Rattle.mail_text.specs.ShownAddress.{shown_address};
ghost use Rattle.format_run.specs.Addresses.{addr_in, friendly_in};

use mail_text::Shown;
use mh_base::Text;
use std::alloc::{AllocError, Global};

pub(crate) fn friendly(alloc: Global, value: &Text) -> Result<Text, AllocError>
    ensures { IfOk result (λ text. text ≡ friendly_in value.now) }
{
    let shown = Shown::of_address(alloc, value)?;
    shown.friendly(alloc)
}

pub(crate) fn addr(alloc: Global, value: &Text) -> Result<Text, AllocError>
    ensures { IfOk result (λ text. text ≡ addr_in value.now) }
{
    let shown = Shown::of_address(alloc, value)?;
    shown.addr(alloc)
}

pub(crate) fn pers(alloc: Global, value: &Text) -> Result<Text, AllocError>
    ensures { IfOk result (λ text. text ≡ (shown_address value.now).pers) }
{
    let shown = Shown::of_address(alloc, value)?;
    Ok(shown.pers)
}

pub(crate) fn note(alloc: Global, value: &Text) -> Result<Text, AllocError>
    ensures { IfOk result (λ text. text ≡ (shown_address value.now).note) }
{
    let shown = Shown::of_address(alloc, value)?;
    Ok(shown.note)
}

pub(crate) fn mbox(alloc: Global, value: &Text) -> Result<Text, AllocError>
    ensures { IfOk result (λ text. text ≡ (shown_address value.now).mbox) }
{
    let shown = Shown::of_address(alloc, value)?;
    Ok(shown.mbox)
}

pub(crate) fn host(alloc: Global, value: &Text) -> Result<Text, AllocError>
    ensures { IfOk result (λ text. text ≡ (shown_address value.now).host) }
{
    let shown = Shown::of_address(alloc, value)?;
    Ok(shown.host)
}
