//! Where bytes go.

/// What a write took.
#[derive(Clone, Copy, Debug, PartialEq, Eq)]
pub enum Put {
    /// So many bytes, from the front of the piece.
    Bytes(usize),
    /// Nothing, and a fault was counted.
    Failed,
}

/// Where bytes go.
///
/// A sink may tell the bytes that it holds. It counts its faults, and no write answers `Failed` with no new fault. The
/// count stops at its last value.
pub trait Sink {
    ghost use Rattle.std.specs.Prelude.{ℕ, ◌<◌, List, length};
    ghost use Rattle.std.specs.declared.option.Option.{Option};
    ghost use Rattle.office_io.specs.Outside.{Writes, WriteCause};

    // The bytes that the sink holds, where it tells them.
    ghost held: { Self → Option (List ℕ) };

    ghost faults: { Self → ℕ };

    /// Writes a front of the piece.
    fn write(&mut self, piece: &[u8]) -> Put
        requires { 0 < length piece.now }
        ensures bytes { Writes (held self.old) (held self.new) piece.now result }
        ensures cause { WriteCause (faults self.old) (faults self.new) result };
}
