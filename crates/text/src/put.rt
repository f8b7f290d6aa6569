// A line put into a lent buffer.
ghost use Rattle.text.specs.Built.{LineRoom, PutLine};

use crate::build::Text;

// Puts a line behind the first `at` bytes, and tells where it ends.
pub(crate) fn put_line(out: &mut [u8], at: usize, t: Text) -> usize
    requires { LineRoom out.old at t }
    ensures { PutLine out.old at t result out.new }
{
    let end = at + t.len;
    out[at..end].copy_from_slice(&t.bytes[..t.len]);
    end
}
