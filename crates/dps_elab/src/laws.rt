//! Laws of the definitions. Each is the contract of a function without a body to speak of.
ghost use Rattle.dps_elab.specs.Laws.{BindersAreHigh, SidesAreLawful};

/// The bound variables of sides that are written out have numbers from 2^63 on.
pub fn binders_are_high()
    ensures { BindersAreHigh }
{}

/// The sides that a well formed program is written out to are lawful.
pub fn sides_are_lawful()
    ensures { SidesAreLawful }
{}
