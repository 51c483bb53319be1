// Terms ("Bytes", the term kinds; 2 to 7).
ghost use Rattle.std.specs.Prelude.{◌≡◌, true, ⊤};
ghost use Rattle.meaning.specs.Bytes.Reading.{term};
ghost use Rattle.decode_number.specs.Answer.{answer, extent};
ghost use Rattle.decode_layout.specs.Layout.{term_layouts};
ghost use Rattle.decode_term.specs.Shape.{leaf, terms_at};
ghost use Rattle.decode_term.specs.Path.{term_below};

use crate::sort;
use crate::sort::Sort;
use decode_layout::{layout, limit};
use decode_number::answer::{Refusal, Refused};
use decode_number::number;

// How many variables are in scope, and how many term nodes are left on a path.
#[derive(Clone, Copy)]
struct Path {
    scope: usize,
    left: usize,
}

// A term's own field is the number of a public name or a variable; the other kinds have none.
impl Sort for Path {
    ghost KINDS = { 8 };

    ghost table = { term_layouts };

    ghost left = { λ p. p.left };

    ghost room = { λ p k. true };

    ghost own = { λ p. leaf p.scope };

    ghost below = { λ p k. term_below p };

    ghost tree = { λ p s at. extent (term p.left p.scope s at) };

    ghost fits = { λ p. ⊤ };

    const KINDS: usize = layout::TERM_KINDS;

    fn parts_of(k: usize) -> usize {
        layout::term(k).parts
    }

    fn may_stand(self, _k: usize) -> bool {
        0 < self.left
    }

    fn fields_end(self, s: &[u8], at: usize, k: usize) -> Result<usize, Refused> {
        match k {
            0 => number::end_below(s, at, limit::NAMES, Refusal::NameRange),
            1 => number::end_below(s, at, self.scope, Refusal::OutOfScope),
            _ => Ok(at),
        }
    }

    fn to_parts(self, _k: usize) -> Path {
        let left = self.left - 1;
        Path { left, ..self }
    }
}

// So many terms in a row, each with all its nodes left.
pub fn fields(s: &[u8], at: usize, scope: usize, count: usize) -> Result<usize, Refused>
    ensures { answer result ≡ terms_at count scope s.now at }
{
    if count == 0 {
        return Ok(at);
    }
    let left = limit::TERM_NODES;
    let next = sort::read_within(s, at, Path { scope, left })?;
    fields(s, next, scope, count - 1)
}

#[cfg(test)]
mod tests {
    use super::*;

    // So many pairs, each the first part of the one before, nest far deeper than terms of document 01 may.
    const PAIRS: usize = 1000;

    // What is read of them and their names on a path with so many nodes left.
    fn nested(left: usize) -> Result<usize, Refused> {
        let mut s = [0; 3 * PAIRS + 2];
        s[..PAIRS].fill(2);
        sort::read(&s, 0, Path { scope: 0, left })
    }

    #[test]
    fn the_path_is_the_only_limit(rt: HostRuntime) {
        assert_eq!(rt; nested(PAIRS + 1), Ok(3 * PAIRS + 2));
        let why = Refusal::TooDeep;
        assert_eq!(rt; nested(PAIRS), Err(Refused { why, place: PAIRS }));
    }

    #[test]
    fn a_part_has_one_node_less_left(rt: HostRuntime) {
        let parts = Path { scope: 12, left: 8 }.to_parts(2);
        assert_eq!(rt; (parts.scope, parts.left), (12, 7));
    }
}
