//! Characters that are put at the end of the neutral string.
ghost use Rattle.std.specs.Prelude.{◌≡◌, ◌+◌, ◌≤◌, ◌++◌, length};
ghost use Rattle.trac_space.specs.Texts.{flat_text};
ghost use Rattle.trac_forms.specs.Contents.{used, IsSound};

use trac_forms::Work;

/// Appends characters to the neutral string. The caller has made sure that they fit.
pub fn put_bytes(work: &mut Work, bytes: &[u8])
    requires { used work.old + length bytes.now ≤ work.old.room }
    ensures put { work.new ≡ record work.old { neutral = work.old.neutral ++ flat_text bytes.now } }
    ensures sound { IsSound work.new }
{
    work.push_bytes(bytes);
}
