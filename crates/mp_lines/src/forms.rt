//! The forms of lines. The forms of lines that only read the pool are in the module that parses them.

/// The form of a line.
#[derive(Clone, Copy)]
pub struct Form {
    /// Its first word, which no other form has.
    pub word: &'static [u8],
    /// The form as messages show it.
    pub text: &'static [u8],
}

/// The greatest size of a block, in bytes.
pub const BLOCK: Form = Form {
    word: b"block",
    text: b"block N",
};

/// The greatest number of changes.
pub const LIMIT: Form = Form {
    word: b"limit",
    text: b"limit N",
};

/// The ticket that counts as the last one given.
pub const LAST: Form = Form {
    word: b"last",
    text: b"last N",
};

/// The tick of the opening ledger state.
pub const TICK: Form = Form {
    word: b"tick",
    text: b"tick N",
};

/// An output of the opening ledger state.
pub const OUT: Form = Form {
    word: b"out",
    text: b"out NAME PAY",
};

pub const SCRIPT: Form = Form {
    word: b"script",
    text: b"script NAME HEX",
};

pub const DATA: Form = Form {
    word: b"data",
    text: b"data NAME HEX",
};

/// A transaction that is declared.
pub const TX: Form = Form {
    word: b"tx",
    text: b"tx NAME ITEM ..",
};

pub const SUBMIT: Form = Form {
    word: b"submit",
    text: b"submit TX",
};

pub const REMOVE: Form = Form {
    word: b"remove",
    text: b"remove TX ..",
};

/// A ledger state that the pool adopts.
pub const SYNC: Form = Form {
    word: b"sync",
    text: b"sync TICK REF ..' or 'sync TICK block=N REF ..",
};

/// A ledger state on which the pool's transactions are tried.
pub const FOR: Form = Form {
    word: b"for",
    text: b"for TICK REF ..' or 'for TICK block=N REF ..",
};
