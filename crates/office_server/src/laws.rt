//! The law over all connections of a server.

ghost use Rattle.office_server.specs.Together.{LinksShareAHistory};

use http_front::sessions_share_a_history;
use keeper_core::Keeper;
use office_io::Clock;

/// On the links that a server's workers gave back stand the replies of the office of one clerk at points of one history,
/// after which its tables are left. It does nothing.
pub fn links_share_a_history<C: Clock, K: Keeper>()
    ensures share { LinksShareAHistory C.may_show K.holds K.leaves K.tells_crash }
{
    sessions_share_a_history::<C>();
}
