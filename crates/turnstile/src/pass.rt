//! What a thread enters with.
//!
//! A pass is made by `Turnstile::new` and `Turnstile::split`, and ends in `Turnstile::meet` or `Turnstile::close`. It
//! carries its number and, for contracts alone, its view. Dropping one is safe, but the turnstile can then no more be
//! closed, and where the pass had the turn nobody enters again.
ghost use Rattle.std.specs.Prelude.{◌≡◌, length, false};
ghost use Rattle.turnstile.specs.Views.{known, is_there};

use crate::view::View;
use atomic_table::Badge;

/// Each seat was given.
#[derive(Clone, Copy, Debug, PartialEq, Eq)]
pub struct NoSeat;

/// What a thread enters a turnstile with. `view` of specs/Passes.antt is what contracts see of it.
#[derive(Drop)]
pub struct Pass {
    pub(crate) badge: Badge<View>,
    pub(crate) number: u32,
    pub(crate) given: u32,
    ghost one: { length badge.views ≡ 1 },
    ghost numbered: { (known badge.views).number ≡ number },
    ghost counted: { (known badge.views).given ≡ given },
    ghost resting: { ((known badge.views).spent ≡ false) × ((known badge.views).away ≡ false) },
    ghost ticketed: { is_there (known badge.views).ticket ≡ is_there (known badge.views).took },
}

impl Pass {
    ghost use Rattle.turnstile.specs.Passes.{view};

    /// Its number. The first pass is 0, and each split gives the next number.
    pub fn number(&self) -> u32
        ensures { result ≡ (view self.now).number }
    {
        self.number
    }
}
