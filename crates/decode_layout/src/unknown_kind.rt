// A byte that is the number of no kind ("Turned back for the input", 4).
#[derive(Clone, Copy, PartialEq, Eq)]
pub struct UnknownKind(pub u8);
