// The sessions looked through, one after another.
ghost use Rattle.std.specs.Prelude.{◌≡◌};
ghost use Rattle.store.specs.Searching.{lowest_unscanned};

use crate::Control;
use rules::Session;

// The number of the lowest attached session without a scanned mark, if there is one.
pub(crate) fn unscanned(sessions: &[Session; Control::SESSIONS]) -> Option<usize>
    ensures { result ≡ lowest_unscanned sessions.now }
{
    sessions
        .iter()
        .position(|session| session.attached & !session.scanned)
}
