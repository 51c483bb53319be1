// What follows an offer of a thread, in its copies if need be, settled ("Steps").
ghost use Rattle.std.specs.Prelude.{◌+◌, ◌≤◌, length};
ghost use Rattle.buffer.specs.Buffer.{WrittenFrom};
ghost use Rattle.state_progress.specs.Progress.{Extends};
ghost use Rattle.successor_continuation.specs.Settled.{NilFollows, SettlesAt, SettlesOffer, SettlesOfferIn};
ghost use Rattle.index_process.specs.Index.{ShortModel};
ghost use Rattle.state_layout.specs.Layout.{RecordFits};

use crate::{counting, rest};
use decode_layout::process_kind::ProcessKind;
use state_progress::progress;
use state_progress::progress::Progress;
use state_task::place;
use state_task::task::CopyAt;
use successor_path::reach::Way;

// Whether nil follows the output or the input at a mark.
fn ends(s: &[u8], mark: usize) -> bool
    ensures { NilFollows s.now mark result }
{
    if mark == 0 {
        return false;
    }
    let at = mark - 1;
    if s.len() <= at {
        return false;
    }
    let next = place::rest(s, at);
    next < s.len() && matches!(ProcessKind::try_from(s[next]), Ok(ProcessKind::Nil))
}

// What follows the offer that a way has come to, settled behind what is written already.
fn arrived(
    s: &[u8],
    argument: &[u8],
    offer: Way,
    m: &mut [u8],
    out: &mut [u8],
    done: Progress,
) -> Progress
    requires { (offer.end ≤ length m.old) × (ShortModel s.now) }
    ensures extends { Extends done result }
    ensures written_from { WrittenFrom 0 m.old m.new }
    ensures written_from_2 { WrittenFrom done.state.end out.old out.new }
    ensures settles_at { SettlesAt s.now argument.now offer m.old out.old done result out.new }
{
    let place = offer.at;
    if s.len() <= place {
        return progress::stop(done);
    }
    rest::offer(s, argument, place, m, offer.end, out, done)
}

// What follows the offer at a mark of the thread whose record stands at a position, settled behind what is written already, under the
// message of the label too if it is an input. Copies open at a private name.
pub fn behind(
    s: &[u8],
    argument: &[u8],
    at: usize,
    opens: usize,
    m: &mut [u8],
    mark: usize,
    out: &mut [u8],
    done: Progress,
) -> Progress
    requires { RecordFits s.now out.old at }
    ensures extends { Extends done result }
    ensures written_from { WrittenFrom 0 m.old m.new }
    ensures written_from_2 { WrittenFrom done.state.end out.old out.new }
    ensures settles_offer { SettlesOffer s.now argument.now at opens m.old mark out.old done result out.new }
{
    if ends(s, mark) {
        // Field by field: as a whole it would be copied in overlapping pieces, whose loads wait for the stores.
        let state = done.state;
        return Progress {
            going: done.going,
            names: done.names,
            mark: done.mark,
            sent: done.sent,
            state,
        };
    }
    let offer = counting::arrive(s, at, opens, m, mark, out);
    arrived(s, argument, offer, m, out, done)
}

// The same for an offer in the copies of a repl thread.
pub fn behind_in(
    s: &[u8],
    argument: &[u8],
    at: usize,
    opens: usize,
    m: &mut [u8],
    copy: CopyAt,
    mark: usize,
    out: &mut [u8],
    done: Progress,
) -> Progress
    requires { RecordFits s.now out.old at }
    ensures extends { Extends done result }
    ensures written_from { WrittenFrom 0 m.old m.new }
    ensures written_from_2 { WrittenFrom done.state.end out.old out.new }
    ensures settles_offer_in { SettlesOfferIn s.now argument.now at opens m.old copy mark out.old done result out.new }
{
    if ends(s, mark) {
        return done;
    }
    let offer = counting::arrive_in(s, at, opens, m, copy, mark, out);
    arrived(s, argument, offer, m, out, done)
}
