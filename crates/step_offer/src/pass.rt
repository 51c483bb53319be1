// Records of threads that surely have no offer of a quest, which are passed by without a traversal ("Steps").
ghost use Rattle.std.specs.Prelude.{◌≡◌, ◌+◌, ◌≤◌, ◌<◌, length};
ghost use Rattle.step_offer.specs.Seek.{starting_at};
ghost use Rattle.step_offer.specs.Pass.{Differs, NoOffer, Skips, PassesRecords, Behind};
ghost use Rattle.index_process.specs.Index.{ShortModel};
ghost use Rattle.state_layout.specs.Layout.{RecordsFit};

use buffer::word;
use decode_layout::process_kind::ProcessKind;
use decode_layout::term_kind;
use index_process::index;
use state_prefix::thread;
use state_task::task::Quest;

// Where the first record stands that is not passed by, and the position from which on its thread's offers are sought.
#[derive(Clone, Copy)]
pub(crate) struct Passed {
    pub at: usize,
    pub from: usize,
}

// The same quest from another position on.
pub(crate) fn starting(quest: Quest, from: usize) -> Quest
    ensures { result ≡ starting_at quest from }
{
    Quest { from, ..quest }
}

// Whether the term at a position is a public name, and the channel that is sought another message: no public name, or one whose number has
// other low seven bits. Public names with the same ones are not told apart here.
fn differs(s: &[u8], argument: &[u8], at: usize) -> bool
    requires { at ≤ 36864 }
    ensures { Differs s.now argument.now at result }
{
    if s.len() <= at + 1 || usize::from(s[at]) != term_kind::NAME {
        return false;
    }
    argument.len() != 2 || (2 * usize::from(s[at + 1]) + 16) % 256 != usize::from(argument[0])
}

// Whether the thread whose process stands at a position surely has no offer that is sought: an output or an input that is not meant, or has
// another channel; or a repl thread whose copies have no such offer, or none that comes so late.
fn no_offer(s: &[u8], argument: &[u8], place: usize, quest: Quest) -> bool
    requires { ShortModel s.now }
    ensures { NoOffer s.now argument.now place quest result }
{
    if s.len() <= place {
        return false;
    }
    if matches!(ProcessKind::try_from(s[place]), Ok(ProcessKind::Repl)) {
        return index::last(s, place, quest.output) <= quest.from;
    }
    if thread::meant(quest, place, usize::from(s[place])) {
        return !quest.any && differs(s, argument, place + 1);
    }
    true
}

// Whether the record at a position is the one at the position skip, or that of such a thread.
fn skipped(s: &[u8], argument: &[u8], at: usize, quest: Quest, skip: usize, out: &[u8]) -> bool
    requires { (ShortModel s.now) × (at + 4 ≤ length out.now) }
    ensures { Skips s.now argument.now at quest skip out.now result }
{
    at == skip || no_offer(s, argument, word::number(out, at), quest)
}

// The first record from a position on whose thread may have an offer of the quest, and is not the one at the position skip.
pub(crate) fn pass(
    s: &[u8],
    argument: &[u8],
    at: usize,
    to: usize,
    quest: Quest,
    skip: usize,
    out: &[u8],
) -> Passed
    requires { RecordsFit s.now out.now to }
    ensures at_le_at { at ≤ result.at }
    ensures passes_records { PassesRecords s.now argument.now at to quest skip out.now result }
{
    let mut i = at;
    let mut from = quest.from;
    if to < 4 {
        return Passed { at: i, from };
    }
    let last = to - 4;
    while i <= last {
        if !skipped(s, argument, i, starting(quest, from), skip, out) {
            return Passed { at: i, from };
        }
        i = i + 4 + word::number(out, i + 2);
        from = 0;
    }
    Passed { at: i, from }
}

// The first such record behind the one at a position.
pub(crate) fn behind(
    s: &[u8],
    argument: &[u8],
    at: usize,
    to: usize,
    quest: Quest,
    skip: usize,
    out: &[u8],
) -> Passed
    requires { (ShortModel s.now) × (at + 4 ≤ to) × (to ≤ length out.now) }
    ensures at_lt_at { at < result.at }
    ensures behind { Behind s.now argument.now at to quest skip out.now result }
{
    let next = at + 4 + word::number(out, at + 2);
    pass(s, argument, next, to, starting(quest, 0), skip, out)
}
