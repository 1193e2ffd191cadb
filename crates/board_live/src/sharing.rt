//! Puts a board among what its callers share, and takes it back.

ghost use Rattle.std.specs.Prelude.{◌≡◌, [], length};
ghost use Rattle.map_publish.specs.Lists.{opened_of, changes_of};
ghost use Rattle.board_live.specs.Known.{AreFew, IsMapOpened};

use crate::shared::Shared;
use board_core::Steps;
use map_publish::Publisher;
use std::sync::Wait;

/// What the callers of a board share.
pub fn shared<B: Steps>(board: Box<B>, publisher: Box<Publisher>, callers: u8) -> Shared<B>
    requires few { AreFew callers (B.standing board.value).entries }
    requires opens { IsMapOpened (B.standing board.value).setup (B.standing board.value).entries
        (opened_of publisher.value.front.seen.log) }
    requires none { changes_of publisher.value.front.seen.log ≡ [] }
    ensures board { result.board ≡ board }
    ensures publisher { result.publisher ≡ publisher }
    ensures callers { result.callers ≡ callers }
    ensures opened { result.opened ≡ length (B.standing board.value).entries }
{
    let opened = board.count();
    Shared {
        board,
        publisher,
        opened,
        callers,
    }
}

/// Ends the published copies, and gives the board.
pub fn unshared<B: Steps, R: Wait>(rt: &R, shared: Shared<B>) -> B
    ensures board { result ≡ shared.board.value }
{
    let Shared {
        board,
        publisher,
        opened: _opened,
        callers: _callers,
    } = shared;
    Box::into_inner(publisher).close(rt);
    Box::into_inner(board)
}
