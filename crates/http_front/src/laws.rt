//! The law over two sessions of one history.

ghost use Rattle.http_front.specs.Together.{SessionsShareAHistory};

use office_io::Clock;
use shared_desk::histories_go_on;

/// Two sessions, by passes that at last know beginnings of one history, gave the replies of one clerk's office at points of
/// it. It does nothing.
pub fn sessions_share_a_history<C: Clock>()
    ensures share { SessionsShareAHistory C.may_show }
{
    histories_go_on();
}
