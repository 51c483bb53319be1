// Formulas ("Bytes", the formula kinds; 2 to 7).
ghost use Rattle.std.specs.Prelude.{◌≡◌, ◌+◌, ◌≤◌};
ghost use Rattle.meaning.specs.Bytes.Reading.{formula};
ghost use Rattle.decode_number.specs.Answer.{extent};
ghost use Rattle.decode_layout.specs.Layout.{layout_of, formula_layouts};
ghost use Rattle.decode_slice.specs.Sorts.{own_terms, formula_room};
ghost use Rattle.decode_slice.specs.Paths.{formula_below};

use decode_layout::layout;
use decode_layout::layout::Layout;
use decode_number::answer::Refused;
use decode_term::sort::Sort;
use decode_term::term;

// How many aliases are in scope, and how many formula nodes and step formulas are left on a path.
#[derive(Clone, Copy)]
pub(crate) struct Path {
    pub scope: usize,
    pub left: usize,
    pub steps: usize,
}

// Whether one more step formula may stand on the path, if the kind is one.
fn room(steps: usize, kind: Layout) -> bool
    ensures { result ≡ formula_room steps kind }
{
    !kind.step || 0 < steps
}

// A formula's own fields are its recipes. Only step formulas add aliases, so these and the step formulas left are never more than at the start.
impl Sort for Path {
    ghost KINDS = { 6 };

    ghost table = { formula_layouts };

    ghost left = { λ p. p.left };

    ghost room = { λ p k. formula_room p.steps (layout_of formula_layouts k) };

    ghost own = { λ p s k. own_terms p.scope s (layout_of formula_layouts k) };

    ghost below = { formula_below };

    ghost tree = { λ p s at. extent (formula p.left p.steps p.scope s at) };

    ghost fits = { λ p. p.scope + p.steps ≤ 16 };

    const KINDS: usize = layout::FORMULA_KINDS;

    fn parts_of(k: usize) -> usize {
        layout::formula(k).parts
    }

    fn may_stand(self, k: usize) -> bool {
        0 < self.left && room(self.steps, layout::formula(k))
    }

    fn fields_end(self, s: &[u8], at: usize, k: usize) -> Result<usize, Refused> {
        term::fields(s, at, self.scope, layout::formula(k).fields)
    }

    fn to_parts(self, k: usize) -> Path {
        let kind = layout::formula(k);
        let scope = self.scope + kind.binds;
        let left = self.left - 1;
        let steps = self.steps - usize::from(kind.step);
        Path { scope, left, steps }
    }
}
