//! What a due list and a voucher come to, as laws in plain facts.

ghost use Rattle.office_answers.specs.Laws.{DueListIsWhole, VouchersTotal};

/// The due list has exactly the households whose next annual certification is due, in the order of days and then of
/// households. It does nothing.
pub fn due_list_is_whole()
    ensures { DueListIsWhole }
{}

/// What a voucher requests and what it adjusts come to the amounts of its lines. It does nothing.
pub fn vouchers_total()
    ensures { VouchersTotal }
{}
