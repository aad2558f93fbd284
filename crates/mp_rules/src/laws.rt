//! Laws of the rules, and of blocks. Each is the contract of a function that does nothing.

ghost use Rattle.mp_rules.specs.Laws.{ValidIsFaultless, FirstFaultIsBroken, ValidityIsLocal};
ghost use Rattle.mp_rules.specs.BlockLaws.{BlockIsAChain};

/// A transaction is valid exactly when it has no first fault.
pub fn valid_is_faultless()
    ensures { ValidIsFaultless }
{}

/// The first fault names a rule that fails, at its least index, and every rule before it holds.
pub fn first_fault_is_broken()
    ensures { FirstFaultIsBroken }
{}

/// A valid transaction stays valid while it finds the same outputs and the tick is in its interval, whatever else
/// changes.
pub fn validity_is_local()
    ensures { ValidityIsLocal }
{}

/// A block that isn't refused is a chain of transactions, each valid after those before it. The outputs of its ledger
/// state are those that they leave and make.
pub fn block_is_a_chain()
    ensures { BlockIsAChain }
{}
