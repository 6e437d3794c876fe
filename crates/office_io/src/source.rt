//! Where bytes come from.

/// What a read gave.
#[derive(Clone, Copy, Debug, PartialEq, Eq)]
pub enum Got {
    /// So many bytes, at the front of the buffer.
    Bytes(usize),
    /// Nothing, since no byte is left.
    End,
    /// Nothing, and a fault was counted.
    Failed,
}

/// Where bytes come from.
///
/// A source may tell the bytes that it has left. It counts its faults, and no read answers `Failed` with no new fault.
/// The count stops at its last value.
pub trait Source {
    ghost use Rattle.std.specs.Prelude.{ℕ, ◌<◌, List, length};
    ghost use Rattle.std.specs.declared.option.Option.{Option};
    ghost use Rattle.office_io.specs.Outside.{Reads, ReadCause};

    // The bytes that are left, where the source tells them.
    ghost left: { Self → Option (List ℕ) };

    ghost faults: { Self → ℕ };

    /// Reads the next bytes into the front of the buffer.
    fn read(&mut self, buffer: &mut [u8]) -> Got
        requires { 0 < length buffer.old }
        ensures bytes { Reads (left self.old) (left self.new) buffer.new result }
        ensures cause { ReadCause (faults self.old) (faults self.new) result };
}
