// Copies from one slice to another.
ghost use Rattle.std.specs.Prelude.{◌≡◌, ◌+◌, ◌≤◌, length};
ghost use Rattle.std.proofs.Math.Seq.{paste};

// Copies a whole slice to a position of another, byte by byte: of `copy_from_slice` the compiler makes calls of `memmove`, which the archive
// for C does not ask for.
pub fn put(x: &[u8], m: &mut [u8], to: usize)
    requires { to + length x.now ≤ length m.old }
    ensures { m.new ≡ paste m.old to x.now (length x.now) }
{
    for i in 0..x.len() {
        m[to + i] = x[i];
    }
}
