// Processes ("Bytes", the process kinds; 2 to 7).
ghost use Rattle.std.specs.Prelude.{◌≡◌, ⊤};
ghost use Rattle.meaning.specs.Bytes.Reading.{process};
ghost use Rattle.decode_number.specs.Answer.{extent};
ghost use Rattle.decode_layout.specs.Layout.{layout_of, process_layouts};
ghost use Rattle.decode_slice.specs.Sorts.{own_terms, process_room};
ghost use Rattle.decode_slice.specs.Paths.{process_below};

use decode_layout::layout::Layout;
use decode_layout::{layout, limit};
use decode_number::answer::Refused;
use decode_term::sort::Sort;
use decode_term::term;

// How many variables are in scope, and how many process nodes are left on a path.
#[derive(Clone, Copy)]
pub(crate) struct Path {
    pub scope: usize,
    pub left: usize,
}

// Whether there is room for the variable that a kind binds, if it binds one.
fn room(scope: usize, kind: Layout) -> bool
    ensures { result ≡ process_room scope kind }
{
    kind.binds == 0 || scope < limit::VARIABLES
}

// A process's own fields are its terms.
impl Sort for Path {
    ghost KINDS = { 8 };

    ghost table = { process_layouts };

    ghost left = { λ p. p.left };

    ghost room = { λ p k. process_room p.scope (layout_of process_layouts k) };

    ghost own = { λ p s k. own_terms p.scope s (layout_of process_layouts k) };

    ghost below = { process_below };

    ghost tree = { λ p s at. extent (process p.left p.scope s at) };

    ghost fits = { λ p. ⊤ };

    const KINDS: usize = layout::PROCESS_KINDS;

    fn parts_of(k: usize) -> usize {
        layout::process(k).parts
    }

    fn may_stand(self, k: usize) -> bool {
        0 < self.left && room(self.scope, layout::process(k))
    }

    fn fields_end(self, s: &[u8], at: usize, k: usize) -> Result<usize, Refused> {
        term::fields(s, at, self.scope, layout::process(k).fields)
    }

    fn to_parts(self, k: usize) -> Path {
        self.to_part(k, 0)
    }

    // What is bound in the first of two parts is not in scope in the second.
    fn to_part(self, k: usize, _part: usize) -> Path {
        let scope = self.scope + layout::process(k).binds;
        let left = self.left - 1;
        Path { scope, left }
    }
}
