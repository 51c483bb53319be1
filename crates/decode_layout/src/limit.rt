// The limits of slices and of the work buffer ("Turned back for the input"). Those of a state are constants of its type.

// The most bytes of a slice, and the fewest of the work buffer.
pub const SLICE: usize = 4096;

pub const WORK: usize = 65536;

// How many public names there are: as many as there are numbers of one or two bytes, so that no bytes are refused for a name.
pub const NAMES: usize = 16384;

// The most nodes of a sort on one path, the most step formulas there, and the most variables in scope.
pub const TERM_NODES: usize = 8;

pub const PROCESS_NODES: usize = 64;

pub const FORMULA_NODES: usize = 48;

pub const STEP_FORMULAS: usize = 16;

pub const VARIABLES: usize = 12;
