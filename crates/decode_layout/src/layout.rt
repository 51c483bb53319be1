// The kinds of terms, processes and formulas, each with what follows it ("Bytes").
ghost use Rattle.std.specs.Prelude.{◌≡◌, ◌<◌};
ghost use Rattle.decode_layout.specs.Layout.{layout, layout_of, term_layouts, process_layouts, formula_layouts};

// How many fields of its own follow a kind (numbers after a term's kind, terms after the others), how many variables or aliases
// it adds for its parts, whether it is a step formula, and how many parts of its own sort follow.
#[derive(Clone, Copy, Debug, PartialEq, Eq)]
pub struct Layout {
    pub fields: usize,
    pub binds: usize,
    pub step: bool,
    pub parts: usize,
}

// How many kinds there are.
pub const TERM_KINDS: usize = 8;

pub const PROCESS_KINDS: usize = 8;

pub const FORMULA_KINDS: usize = 6;

// A row of the tables below.
fn row(fields: usize, binds: usize, step: bool, parts: usize) -> Layout
    ensures { result ≡ layout fields binds step parts }
{
    Layout {
        fields,
        binds,
        step,
        parts,
    }
}

pub fn term(k: usize) -> Layout
    requires { k < 8 }
    ensures { result ≡ layout_of term_layouts k }
{
    match k {
        0 => row(1, 0, false, 0), // public name
        1 => row(1, 0, false, 0), // variable, or alias
        2 => row(0, 0, false, 2), // pair
        3 => row(0, 0, false, 1), // fst
        4 => row(0, 0, false, 1), // snd
        5 => row(0, 0, false, 2), // enc
        6 => row(0, 0, false, 2), // dec
        _ => row(0, 0, false, 2), // mac
    }
}

pub fn process(k: usize) -> Layout
    requires { k < 8 }
    ensures { result ≡ layout_of process_layouts k }
{
    match k {
        0 => row(0, 0, false, 0), // nil
        1 => row(0, 1, false, 1), // new
        2 => row(2, 0, false, 1), // output
        3 => row(1, 1, false, 1), // input
        4 => row(2, 0, false, 2), // if
        5 => row(1, 1, false, 1), // let
        6 => row(0, 0, false, 2), // par
        _ => row(0, 0, false, 1), // repl
    }
}

pub fn formula(k: usize) -> Layout
    requires { k < 6 }
    ensures { result ≡ layout_of formula_layouts k }
{
    match k {
        0 => row(2, 0, false, 0), // equal
        1 => row(0, 0, false, 1), // not
        2 => row(0, 0, false, 2), // and
        3 => row(1, 1, true, 1), // output step
        4 => row(2, 0, true, 1), // input step
        _ => row(0, 0, true, 1), // silent step
    }
}
