//! What holds of every book that an office can come to.
#![tactic(auto)]

mod accepting;
mod at_hand;
mod laws;
mod moving;

pub use accepting::{
    acceptance_of_reached_books, acts_are_allowed, reached_books_are_sound, turns_are_plain,
};
pub use at_hand::{
    applicant_replies, days_are_lived, lines_stand_in_order, new_replies, next_records,
    requests_are_once, unit_replies, within_room,
};
pub use laws::{
    acts_are_in_place, acts_give_the_book, acts_meet_their_terms, appended_is_accepted,
    batches_follow, books_are_kept, books_are_upheld, closings_are_in_order,
    eligible_members_are_kept, households_are_in_order, known_after_each_act,
    lines_total_what_is_due, next_is_taken, no_unit_is_shared, records_certify_rightly,
    refusals_stand_in_order, repeats_are_answered, replies_tell_records, rows_came_by_acts,
};
pub use moving::{movers_are_plain, targets_are_counted};
