//! Laws of bundles and of their sums. Each is the contract of a function that does nothing.

ghost use Rattle.mp_bundle.specs.Laws.{FaultlessIsBundle, QuantitiesDetermine, TotalIsSum, OneMore, OrderIsFree, DifferencesAreFound};

/// Entries have no fault exactly when they are the entries of a bundle.
pub fn faultless_is_bundle()
    ensures { FaultlessIsBundle }
{}

/// The quantities determine a bundle.
pub fn quantities_determine()
    ensures { QuantitiesDetermine }
{}

/// The total of a token is the sum of its quantities.
pub fn total_is_sum()
    ensures { TotalIsSum }
{}

/// Adding one more bundle to the sum of n bundles gives the sum of n + 1.
pub fn one_more()
    ensures { OneMore }
{}

/// The sum of bundles doesn't depend on their order.
pub fn order_is_free()
    ensures { OrderIsFree }
{}

/// Two sums have no first difference exactly when all their totals are equal.
pub fn differences_are_found()
    ensures { DifferencesAreFound }
{}
