use qh_base::Memory;
use std::alloc::AllocFailed;

/// Why a line isn't taken.
#[derive(Clone, Copy, PartialEq, Eq)]
pub(crate) enum Untaken {
    /// It is no line, or none that counts where it stands.
    Refused,
    Memory,
}

impl From<Memory> for Untaken {
    ghost use Rattle.std.specs.Prelude.{◌≡◌};
    ghost use Rattle.qh_script.specs.declared.script.untaken.Untaken.TheVariants as variants;

    ghost from_gives = { λ _ e. e ≡ variants.Memory };

    fn from(_: Memory) -> Untaken {
        Untaken::Memory
    }
}

impl<T: Drop> From<AllocFailed<T>> for Untaken {
    ghost use Rattle.std.specs.Prelude.{◌≡◌};
    ghost use Rattle.qh_script.specs.declared.script.untaken.Untaken.TheVariants as variants;

    ghost from_gives = { λ _ e. e ≡ variants.Memory };

    fn from(_: AllocFailed<T>) -> Untaken {
        Untaken::Memory
    }
}
