//! The calls in order, with the expected answers.
use crate::peers::asks::Ask;
use crate::peers::growths::Trial;
use mp_testing::Seen;
use mp_testing::commands::{ALL, PART, REMOVE_THIRD};

/// The purpose of a call, the call, and its expected answer.
pub type Row = (&'static str, Ask, Seen);

/// Each transaction has 181 bytes, so two have 362 and three have 543.
pub static ROWS: [Row; 45] = [
    ("an empty pool", Ask::Offer(9, 1_000), [0; 6]),
    ("an empty block", Ask::Forge(1_000), [0; 6]),
    ("a comes", Ask::Change(0), [0; 6]),
    ("b comes", Ask::Change(1), [1, 0, 0, 0, 0, 0]),
    ("c comes", Ask::Change(2), [2, 0, 0, 0, 0, 0]),
    ("no item", Ask::Offer(0, 1_000), [0; 6]),
    ("no byte", Ask::Offer(9, 0), [0; 6]),
    ("too few bytes for the first", Ask::Offer(9, 180), [0; 6]),
    ("two items", Ask::Offer(2, 1_000), [12, 12, 2, 2, 0, 0]),
    (
        "too few bytes for the third",
        Ask::Offer(2, 180),
        [0, 0, 0, 2, 0, 0],
    ),
    (
        "just the bytes of the third",
        Ask::Offer(2, 181),
        [3, 3, 1, 3, 0, 0],
    ),
    ("all is offered", Ask::Offer(9, 1_000), [0, 0, 0, 3, 0, 0]),
    ("c goes", Ask::Change(REMOVE_THIRD), [3, 0, 0, 0, 0, 0]),
    (
        "nothing comes with it",
        Ask::Offer(9, 1_000),
        [0, 0, 0, 3, 0, 0],
    ),
    ("c comes again", Ask::Change(2), [4, 0, 0, 0, 0, 0]),
    (
        "c has a new ticket",
        Ask::Offer(9, 1_000),
        [4, 3, 1, 4, 0, 0],
    ),
    (
        "a block of all",
        Ask::Forge(1_000),
        [124, 123, 3, 543, 5, 0],
    ),
    (
        "a block of just all",
        Ask::Forge(543),
        [124, 123, 3, 543, 5, 0],
    ),
    (
        "a block of all but one",
        Ask::Forge(542),
        [12, 12, 2, 362, 5, 0],
    ),
    ("a block of one", Ask::Forge(181), [1, 1, 1, 181, 5, 0]),
    ("a block of none", Ask::Forge(180), [0, 0, 0, 0, 5, 0]),
    (
        "blocks don't move the cursor",
        Ask::Offer(9, 1_000),
        [0, 0, 0, 4, 0, 0],
    ),
    ("only a stays", Ask::Change(PART), [5, 0, 0, 0, 0, 0]),
    (
        "nothing comes with that",
        Ask::Offer(9, 1_000),
        [0, 0, 0, 4, 0, 0],
    ),
    (
        "a block of what stays",
        Ask::Forge(1_000),
        [1, 1, 1, 181, 6, 0],
    ),
    (
        "all may be spent again",
        Ask::Change(ALL),
        [6, 0, 0, 0, 0, 0],
    ),
    ("b comes again", Ask::Change(1), [7, 0, 0, 0, 0, 0]),
    ("b has a new ticket", Ask::Offer(1, 181), [5, 2, 1, 5, 0, 0]),
    ("another peer comes", Ask::NewPeer, [0; 6]),
    ("a first item", Ask::Offer(1, 1_000), [1, 1, 1, 1, 0, 0]),
    ("c comes once more", Ask::Change(2), [8, 0, 0, 0, 0, 0]),
    ("d comes", Ask::Change(3), [9, 0, 0, 0, 0, 0]),
    ("e comes", Ask::Change(4), [10, 0, 0, 0, 0, 0]),
    ("f comes", Ask::Change(5), [11, 0, 0, 0, 0, 0]),
    (
        "a byte less than two have",
        Ask::Offer(9, 361),
        [5, 2, 1, 5, 0, 0],
    ),
    (
        "c goes before it is offered",
        Ask::Change(REMOVE_THIRD),
        [12, 0, 0, 0, 0, 0],
    ),
    ("the bytes of two", Ask::Offer(9, 362), [78, 45, 2, 8, 0, 0]),
    (
        "an offer at refused growths",
        Ask::Try(Trial::Offer(9, u64::MAX)),
        [15_789, 12_456, 5, 9, 0, 2],
    ),
    (
        "no item at refused growths",
        Ask::Try(Trial::Offer(0, 1_000)),
        [0; 6],
    ),
    (
        "a block at refused growths",
        Ask::Try(Trial::Block(u64::MAX)),
        [15_789, 12_456, 5, 905, 13, 2],
    ),
    (
        "the peer goes on",
        Ask::Offer(u64::MAX, u64::MAX),
        [9, 6, 1, 9, 0, 0],
    ),
    (
        "a peer goes on after ticket 6, which is gone",
        Ask::PeerAfter(6),
        [6, 0, 0, 0, 0, 0],
    ),
    (
        "what comes after it",
        Ask::Offer(9, u64::MAX),
        [789, 456, 3, 9, 0, 0],
    ),
    (
        "a peer goes on after the last",
        Ask::PeerAfter(9),
        [9, 0, 0, 0, 0, 0],
    ),
    (
        "nothing comes after that",
        Ask::Offer(9, u64::MAX),
        [0, 0, 0, 9, 0, 0],
    ),
];
