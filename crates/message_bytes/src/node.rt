// The nodes of a message by their numbers: which kind, and how many parts ("Messages").
ghost use Rattle.std.specs.Prelude.{◌≡◌};
ghost use Rattle.message_bytes.specs.Encoding.{parts_of};

// How many parts a node with this number has.
pub fn parts(number: usize) -> usize
    ensures { result ≡ parts_of number }
{
    match number {
        2 | 5 | 6 | 7 => 2, // pair, enc, dec, mac
        3 | 4 => 1, // fst, snd
        _ => 0, // zero, one, a name
    }
}
