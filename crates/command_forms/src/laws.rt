//! The law that a command's text is read again as that command.

ghost use Rattle.std.specs.Prelude.{◌≡◌, true, Some};
ghost use Rattle.book_rows.specs.declared.command.Command.{Command};
ghost use Rattle.book_rows.specs.Fit.{is_fit};
ghost use Rattle.command_forms.specs.Holdable.{IsHoldable};
ghost use Rattle.command_forms.specs.Commands.{body_of, command_in, is_same_command};

/// The text of a fit command is read again as that command, so that fit commands with one text are the same. It does
/// nothing.
pub fn bodies_read_back()
    ensures again { (asked : Command) → is_fit asked ≡ true → IsHoldable asked → command_in (body_of asked) ≡ Some asked }
    ensures same { (asked other : Command) → is_fit asked ≡ true → IsHoldable asked → is_fit other ≡ true → IsHoldable other
        → is_same_command asked other ≡ true → asked ≡ other }
{}
