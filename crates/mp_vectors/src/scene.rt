//! The parts of the views of scripts.

use mp_script::{Address, Hash, Key};

/// The hash of the script that runs.
pub const OWN_HASH: Hash = [6; 32];

/// The keys that have signed.
pub const KEYS: [Key; 2] = [[8; 32], [9; 32]];

/// The address of the first and the third output, and of the second reference.
pub const HOME: Address = [10; 32];

/// The address of the second output, and of the first reference.
pub const AWAY: Address = [11; 32];

/// The datum hash of the first reference.
pub const FIRST_DATUM_HASH: Hash = [12; 32];

/// The datum hash of the second reference.
pub const SECOND_DATUM_HASH: Hash = [13; 32];

/// The datum of the spent output: -5, the octets of xy, a list of 1 and an empty list, an empty list, and 8.
pub const DATUM: &str =
    "030005 01fffffffffffffffb 0200027879 030002 010000000000000001 030000 030000 010000000000000008";

/// The number 9.
pub const REDEEMER: &str = "010000000000000009";

/// What the spent output, the second and third output, and the second reference hold.
pub const LITTLE: &str = "32*03/61/7 32*04/-/2 32*04/32*6e/5";

/// What the first output and the first reference hold.
pub const MUCH: &str = "32*03/61/9223372036854775807";

/// What is spent: the sum of both.
pub const SPENT: &str = "32*03/61/7 32*04/-/2 32*04/32*6e/5 + 32*03/61/9223372036854775807";

/// What is forged.
pub const FORGE: &str = "32*03/61/-4 32*04/-/11";
