// A formula judged at the start state of a model ("Steps"; "Judging and its count").
ghost use Rattle.std.specs.Prelude.{◌+◌, ◌*◌, ◌≤◌, length};
ghost use Rattle.truth_body.specs.Judged.{Less};
ghost use Rattle.verdict_state.specs.Model.{JudgesModel, JudgesIndexed};
ghost use Rattle.buffer.specs.Buffer.{SameLength};
ghost use Rattle.index_process.specs.Index.{ShortModel};

use decode_layout::limit;
use index_process::index;
use state_start::form;
use truth_body::judged::Judged;
use truth_judge::judge;

// The formula that stands in the slice f with its index, judged of the model that the slice s is, with a budget of visits. The bytes m are for
// the messages that are bound on the way, and the work bytes hold the states. The model is judged with its index beside it, which takes fewer
// bytes for a short one.
pub fn judge(s: &[u8], f: &[u8], m: &mut [u8], out: &mut [u8], budget: u32) -> Option<Judged>
    requires { (length s.now ≤ 4096) × (10750 ≤ length m.old) × (65536 ≤ length out.old) }
    ensures same_length { SameLength m.old m.new }
    ensures same_length_2 { SameLength out.old out.new }
    ensures less { Less budget result }
    ensures judges_model { JudgesModel s.now f.now budget result }
{
    if s.len() <= index::SHORT {
        return short(s, f, m, out, budget);
    }
    let mut indexed: [u8; index::LENGTH] = [0; index::LENGTH];
    build(s, &mut indexed[0..index::LENGTH], f, m, out, budget)
}

// The same of a short model.
fn short(s: &[u8], f: &[u8], m: &mut [u8], out: &mut [u8], budget: u32) -> Option<Judged>
    requires { (length s.now ≤ 512) × (10750 ≤ length m.old) × (65536 ≤ length out.old) }
    ensures same_length { SameLength m.old m.new }
    ensures same_length_2 { SameLength out.old out.new }
    ensures less { Less budget result }
    ensures judges_model { JudgesModel s.now f.now budget result }
{
    let mut indexed: [u8; index::SHORT_LENGTH] = [0; index::SHORT_LENGTH];
    build(s, &mut indexed[0..index::SHORT_LENGTH], f, m, out, budget)
}

// The same, where the model is put into a slice with its index.
fn build(
    model: &[u8],
    s: &mut [u8],
    f: &[u8],
    m: &mut [u8],
    out: &mut [u8],
    budget: u32,
) -> Option<Judged>
    requires { (4096 + 8 * length model.now ≤ length s.old) × (ShortModel s.old) × (10750 ≤ length m.old) × (65536 ≤ length out.old) }
    ensures same_length { SameLength m.old m.new }
    ensures same_length_2 { SameLength out.old out.new }
    ensures less { Less budget result }
    ensures judges_model { JudgesModel model.now f.now budget result }
{
    index::build(model, s);
    start(s, f, m, out, budget)
}

// The same of a model that stands in a slice with its index.
fn start(s: &[u8], f: &[u8], m: &mut [u8], out: &mut [u8], budget: u32) -> Option<Judged>
    requires { (ShortModel s.now) × (10750 ≤ length m.old) × (65536 ≤ length out.old) }
    ensures same_length { SameLength m.old m.new }
    ensures same_length_2 { SameLength out.old out.new }
    ensures less { Less budget result }
    ensures judges_indexed { JudgesIndexed s.now f.now budget result }
{
    let formed = form::start(s, m, out, 0);
    judge::judge(s, f, 0, limit::FORMULA_NODES, formed, m, out, budget)
}
