// What terms, processes and formulas have in common ("Bytes"): a node is its kind, fields of a lower sort, and parts of its own sort. One
// reader reads them all.
ghost use Rattle.std.specs.Prelude.{◌≡◌, T, Bool, ◌&&◌, List, ℕ, ◌<◌, ◌≤◌, ltb};
ghost use Rattle.decode_number.specs.Answer.{Extent, answer, bounded};
ghost use Rattle.decode_layout.specs.declared.layout.Layout.{Layout};
ghost use Rattle.decode_layout.specs.Layout.{parts, layout_of};
ghost use Rattle.decode_term.specs.Shape.{head_of};
ghost use Rattle.decode_term.specs.Sort.{Nodes};

use decode_number::answer::{Refusal, Refused};
use decode_number::number;
use decode_number::number::Decoding;

// A sort, by what is known on the path to a node of it: what is in scope there, and how many nodes are left.
pub trait Sort: Copy {
    // How many kinds the sort has, and the layout of each.
    ghost KINDS: { ℕ };

    ghost table: { List Layout };

    // The nodes left, whether there is room for a kind, what is read of its fields, the path to its parts, and what is read of a whole tree.
    ghost left: { Self → ℕ };

    ghost room: { Self → (k : ℕ) → Bool };

    ghost own: { Self → List ℕ → (k at : ℕ) → Extent };

    ghost below: { Self → (k : ℕ) → Self };

    ghost tree: { Self → List ℕ → (at : ℕ) → Extent };

    // What holds on every path.
    ghost fits: { Self → Type 0 };

    const KINDS: usize;

    // How many parts follow the fields of a kind.
    fn parts_of(k: usize) -> usize
        requires { k < KINDS }
        ensures { result ≡ parts (layout_of table k) };

    // Whether a node of this kind may stand here.
    fn may_stand(self, k: usize) -> bool
        requires { k < KINDS }
        ensures { result ≡ (ltb 0 (left self) && room self k) };

    // The end of the fields of a kind.
    fn fields_end(self, s: &[u8], at: usize, k: usize) -> Result<usize, Refused>
        requires { k < KINDS }
        ensures { answer result ≡ own self s.now k at };

    // The path to the parts of a node of this kind.
    fn to_parts(self, k: usize) -> Self
        requires { (k < KINDS) × fits self × T (ltb 0 (left self) && room self k) }
        ensures path { result ≡ below self k }
        ensures still { fits result };

    // The path to a part of a node of this kind, the first being 0. It is the same for each: what stands in one part is not in scope in another.
    fn to_part(self, k: usize, part: usize) -> Self
        requires { (k < KINDS) × fits self × T (ltb 0 (left self) && room self k) }
        ensures path { result ≡ below self k }
        ensures still { fits result }
    {
        self.to_parts(k)
    }
}

// A node's kind, and the end of its fields.
fn head<S: Sort>(s: &[u8], at: usize, path: S) -> Result<Decoding, Refused>
    ensures { bounded result ≡ head_of S.KINDS (S.left path) (S.room path) (S.own path s.now) s.now at }
{
    let kind = number::below(s, at, S::KINDS, Refusal::UnknownKind)?;
    let value = kind.value;
    if !path.may_stand(value) {
        let why = Refusal::TooDeep;
        return Err(Refused { why, place: at });
    }
    let end = path.fields_end(s, kind.end, value)?;
    Ok(Decoding { value, end })
}

// The tree at a position, of a sort whose trees are nodes. The last part of a node is read by the loop; a first of two is read by a
// call, so that calls nest as deep as the path and the slice let them.
pub fn read<S: Sort>(s: &[u8], at: usize, path: S) -> Result<usize, Refused>
    requires { S.fits path × Nodes S.KINDS S.table S.left S.room S.own S.below S.tree }
    ensures { answer result ≡ S.tree path s.now at }
{
    let mut i = at;
    let mut inner = path;
    loop {
        let kind = head(s, i, inner)?;
        let parts = S::parts_of(kind.value);
        if parts == 0 {
            return Ok(kind.end);
        }
        let first = inner.to_part(kind.value, 0);
        inner = inner.to_part(kind.value, parts - 1);
        i = kind.end;
        if parts == 2 {
            i = read(s, i, first)?;
        }
    }
}

// The same where at most 128 nodes are left on the path, so that the stack bears the calls.
pub fn read_within<S: Sort>(s: &[u8], at: usize, path: S) -> Result<usize, Refused>
    requires { S.fits path × Nodes S.KINDS S.table S.left S.room S.own S.below S.tree × (S.left path ≤ 128) }
    ensures { answer result ≡ S.tree path s.now at }
{
    read(s, at, path)
}
