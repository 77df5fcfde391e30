//! Memory in which nothing lies.
ghost use Rattle.std.specs.Prelude.{◌≡◌, ℕ};
ghost use Rattle.trac_lent.specs.Units.{units_at};
ghost use types.Logic.{sem};

use std::marker::Model;

/// Units of 16 bytes side by side, in which nothing lies. They are aligned to 16.
#[derive(Drop)]
pub struct Units {
    pub(crate) ptr: *mut u128,
    pub ghost count: { ℕ },
}

impl Model for Units {
    ghost also_owns = { λ units. units_at units.count units.ptr };
}

impl Units {
    /// The units at a place. They are the caller's no more: what is lent so is lent for good.
    pub unsafe fn from_raw(ptr: *mut u128) -> Units
        ghost count: { ℕ }
        requires* { sem 𝓛 (units_at count ptr) }
        ensures { result.count ≡ count }
    {
        Units { ptr }
    }
}
