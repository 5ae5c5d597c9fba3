// The work slice's front: scratch while a call runs, and zero when it returns.
#![tactic(auto)]

ghost use Rattle.std.specs.Prelude.{◌≡◌, ◌≤◌, length};
ghost use Rattle.banquet.specs.Shape.{work_length};
ghost use Rattle.banquet.specs.Answer.{cleared};

// "the work slice's first 65,536 bytes are zero and its rest untouched"
pub fn clear(work: &mut [u8])
    requires { work_length ≤ length work.old }
    ensures { work.new ≡ cleared work.old }
{
    slices::zero(&mut work[0..banquet::WORK_LENGTH]);
}
