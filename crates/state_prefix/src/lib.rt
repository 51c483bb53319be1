// What a traversal does at a thread that acts by itself: its offers judged, sought and handed over ("Steps"; "Judging and its count").
#![tactic(auto)]

pub mod thread;
