//! Trials of calls in which each allocation fails in turn.
ghost use Rattle.std.specs.Prelude.{◌<◌, IfOk};

use mp_memory::Metered;
use std::alloc::Allocator;
use thiserror::Error;

/// What a trial arms. It is a trait so that the signature of a trial names no handle, and therefore no lifetime.
pub trait Refusals {
    /// Arms the refusal: the `nth` allocation from now fails. For 0, none fails.
    fn refuse(&self, nth: u64);

    /// Whether the refusal that was armed last hasn't happened yet.
    fn waits(&self) -> bool;
}

impl<B: Allocator> Refusals for Metered<B> {
    fn refuse(&self, nth: u64) {
        Metered::refuse(self, nth);
    }

    fn waits(&self) -> bool {
        Metered::waits(self)
    }
}

/// An observed value or answer, as numbers.
pub type Seen = [u64; 6];

/// A call that is tried, and the value on which it is called.
pub trait Call {
    /// The type of the value.
    type Value: Drop;

    /// A new value, or `None` if it can't be made.
    fn make(&self) -> Option<Self::Value>;

    /// The answer of the call, or `None` if an allocation failed.
    fn call(&self, value: &mut Self::Value) -> Option<Seen>;

    /// The observed state of the value.
    fn look(&self, value: &Self::Value) -> Seen;
}

/// A trial gives up on a call with this many allocations, as the trial makes more than half their square.
pub const MAX_GROWTHS: u64 = 10_000;

/// The result of a trial in which the call passed.
#[derive(Clone, Copy, Debug, PartialEq, Eq)]
pub struct Trialled {
    /// The answer of the call if no allocation fails.
    pub answer: Seen,
    /// The number of allocations of the call on a new value. Each failed once.
    pub growths: u64,
}

/// What a trial found wrong. The number is that of the failed allocation, from 1.
#[derive(Clone, Copy, Debug, PartialEq, Eq, Error)]
pub enum TrialFault {
    #[error("no value was made to call")]
    NotMade,
    #[error("the call answered no memory, though no growth was refused")]
    Unasked,
    #[error("the call hid that growth {0} was refused")]
    Swallowed(u64),
    #[error("the call changed the value, though growth {0} was refused")]
    Changed(u64),
    #[error("the call answers otherwise after the refusal of growth {0}")]
    Differs(u64),
    #[error("the call answers otherwise on another new value")]
    Unsteady,
    #[error("the call makes {MAX_GROWTHS} growths or more")]
    Endless,
}

// What was observed in a call on a new value while a refusal was armed.
#[derive(Clone, Copy)]
struct Try {
    // Whether the refusal happened.
    is_met: bool,
    answer: Option<Seen>,
    is_changed: bool,
    // The answer of the same call once no refusal is armed.
    next: Option<Seen>,
}

fn try_on<R: Refusals, C: Call>(memory: &R, call: &C, value: &mut C::Value, nth: u64) -> Try {
    let before = call.look(value);
    memory.refuse(nth);
    let answer = call.call(value);
    let is_met = !memory.waits();
    memory.refuse(0);
    let is_changed = call.look(value) != before;
    let next = if is_met { call.call(value) } else { answer };
    Try {
        is_met,
        answer,
        is_changed,
        next,
    }
}

fn try_once<R: Refusals, C: Call>(memory: &R, call: &C, nth: u64) -> Option<Try> {
    let mut value = call.make()?;
    Some(try_on(memory, call, &mut value, nth))
}

// Whether the refusal of allocation `nth` happened. An `Err` says that the call didn't pass.
fn stands(tried: Try, nth: u64, wanted: Seen) -> Result<bool, TrialFault> {
    match tried {
        Try {
            is_met: false,
            answer,
            ..
        } if answer != Some(wanted) => Err(TrialFault::Unsteady),
        Try { is_met: false, .. } => Ok(false),
        Try {
            answer: Some(_),
            ..
        } => Err(TrialFault::Swallowed(nth)),
        Try {
            is_changed: true,
            ..
        } => Err(TrialFault::Changed(nth)),
        Try { next, .. } if next != Some(wanted) => Err(TrialFault::Differs(nth)),
        _ => Ok(true),
    }
}

/// Tries the call with each of its allocations failing in turn, each time on a new value. After each failure, the call
/// has to return that it had no memory, and the value has to be as before. Then the same call on it has to give the
/// answer that it gives if nothing fails. An `Err` says what didn't hold. For `NotMade` and `Unasked`, the system
/// itself may have had no memory. No refusal is armed afterwards.
pub fn under_each_refusal<R: Refusals, C: Call>(
    memory: &R,
    call: &C,
) -> Result<Trialled, TrialFault>
    ensures { IfOk result (λ done. done.growths < MAX_GROWTHS) }
{
    let first = try_once(memory, call, 0).ok_or(TrialFault::NotMade)?;
    let answer = first.answer.ok_or(TrialFault::Unasked)?;
    for growths in 0..MAX_GROWTHS {
        let tried = try_once(memory, call, growths + 1).ok_or(TrialFault::NotMade)?;
        if !stands(tried, growths + 1, answer)? {
            return Ok(Trialled { answer, growths });
        }
    }
    Err(TrialFault::Endless)
}
