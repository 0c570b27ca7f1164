// Why there is no picture.
ghost use Rattle.std.specs.Prelude.{◌≡◌};

use std::alloc::AllocError;

/// Why there is no picture.
#[derive(Clone, Copy)]
pub enum Undrawn {
    NoMemory,
    /// There are more lanes than a picture has room for.
    TooManyLanes,
}

impl From<AllocError> for Undrawn {
    ghost use Rattle.wfe_draw_page.specs.declared.undrawn.Undrawn.TheVariants as whys;

    ghost from_gives = { λ _ why. why ≡ whys.NoMemory };

    fn from(_: AllocError) -> Undrawn {
        Undrawn::NoMemory
    }
}
