//! The end of a device.

use mp_serve::{Device, Streams};
use std::io::{BufRead, Write};

/// A device that can be closed when its conversation has ended.
pub trait Close: Device {
    ghost use Rattle.std.specs.Prelude.{◌≡◌};

    /// Closes the device. What was written stays.
    fn close(&mut self)
        ensures { Self.output self.new ≡ Self.output self.old };
}

/// Streams stay open.
impl<R: BufRead, W: Write> Close for Streams<R, W> {
    fn close(&mut self) {}
}
