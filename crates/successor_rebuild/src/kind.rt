// Whether a thread acts itself or is a repl, whose copies act ("Steps").
ghost use Rattle.std.specs.Prelude.{◌≤◌, length};
ghost use Rattle.successor_rebuild.specs.Kind.{ActsItself};

use buffer::word;
use decode_layout::process_kind::ProcessKind;

// Whether the thread acts itself whose record stands at a position, before another one.
pub fn acts(s: &[u8], to: usize, at: usize, out: &[u8]) -> bool
    requires { to ≤ length out.now }
    ensures { ActsItself s.now at out.now result }
{
    if to < 4 || to - 4 < at {
        return false;
    }
    let place = word::number(out, at);
    place < s.len() && !matches!(ProcessKind::try_from(s[place]), Ok(ProcessKind::Repl))
}
