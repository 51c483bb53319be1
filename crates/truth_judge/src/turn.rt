// What a turn of a step formula comes to ("Judging and its count").
use step_label::step::Step;
use truth_body::judged::Judged;
use truth_body::memo::Memo;

// A further step, with what the steps have come to and what is then known of the body. Where there is none, the turns end.
#[derive(Clone, Copy)]
pub(crate) struct Turn {
    pub found: Step,
    pub sum: Judged,
    pub memo: Memo,
}
