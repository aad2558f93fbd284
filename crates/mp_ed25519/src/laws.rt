//! What holds for the definitions.

ghost use Rattle.mp_ed25519.specs.Chain.{CombinedIsSum, GoodIsSum};
ghost use Rattle.mp_ed25519.specs.Constants.{ConstantsAreRight};

/// The windowed multiplication of two points adds up S times the first and k times the second.
pub fn combined_is_sum()
    ensures { CombinedIsSum }
{}

/// The R of a good signature encodes S times the base point minus k times the key's point, added up in some order.
pub fn good_is_sum()
    ensures { GoodIsSum }
{}

/// The constants are those of the curve and of its base point.
pub fn constants_are_right()
    ensures { ConstantsAreRight }
{}
