//! The lines of a book, in the order in which its closings made them.

use std::marker::Model;
use voucher_core::Line;

/// The lines of all closings, which stand in turn, so that those of a month are found without a look at all.
///
/// Contracts see the list of lines.
#[derive(Drop)]
pub struct BookLines<'a> {
    pub lines: &'a [Line],
}

impl<'a> Model for BookLines<'a> {
    ghost use Rattle.std.specs.Prelude.{List};
    ghost use Rattle.voucher_core.specs.declared.line.Line.{Line as LineOf};
    ghost use Rattle.office_answers.specs.InTurn.{StandInTurn};

    ghost Value = { List LineOf };

    ghost view = { λ book. book.lines.now };

    ghost invariant = { λ book. StandInTurn book.lines.now };
}
