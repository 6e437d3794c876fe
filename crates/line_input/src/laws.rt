//! The law of lines.

ghost use Rattle.line_input.specs.Law.{LinesAreTheBytes};

/// The lines of bytes, joined again with their ends, are the bytes. It does nothing.
pub fn lines_are_the_bytes()
    ensures { LinesAreTheBytes }
{}
