// The call that opens an execution, for any parameter set.
#![tactic(auto)]

ghost use Rattle.std.specs.Prelude.{◌≡◌, ◌*◌, ◌^◌, ◌<◌, ◌≤◌, length};
ghost use Rattle.banquet.specs.Shape.{work_length, opening_length};
ghost use Rattle.banquet.specs.Sets.{scheme_of};
ghost use Rattle.banquet.specs.Answer.{accepted, in_order};
ghost use Rattle.banquet.specs.Key.{check_key};
ghost use Rattle.banquet.specs.Opening.{range_tests, opening};
ghost use Rattle.banquet.specs.Calls.{made, made_after, open_execution};
ghost use Rattle.make_opening.specs.Steps.{Lengths};

use banquet::Answer;
use sets::ParameterSet;

// Numbers 8 to 12, and else the opening.
fn open_key(
    set: ParameterSet,
    key: &[u8],
    public: &[u8],
    salt: &[u8],
    root: &[u8],
    first: &[u8],
    e: usize,
    second: u64,
    hidden: usize,
    out: &mut [u8],
    work: &mut [u8],
) -> Answer
    requires { Lengths set.shape key.now public.now salt.now root.now first.now
        × (second < 2 ^ (8 * set.shape.wide)) × (opening_length set.shape ≤ length out.old) × (work_length ≤ length work.old) }
    ensures { made result out.new work.new
        ≡ made_after (in_order (range_tests set.shape e hidden second) (check_key (scheme_of set.shape) public.now key.now accepted))
        (opening (scheme_of set.shape) key.now public.now salt.now root.now first.now e second hidden)
        out.old work.old }
{
    lengths::ranges(set.shape, e, hidden, second)?;
    let n = set.shape.m1 * set.shape.m2;
    let mut given = [0u8; 200];
    let mut inverted = [0u8; 200];
    let inputs = &mut given[0..n];
    let inverses = &mut inverted[0..n];
    check_key::check_key(set, key, public, inputs, inverses)?;
    make_opening::make(
        set, key, public, salt, root, first, e as u8, second, hidden, inputs, inverses, out, work,
    );
    scratch::clear(work);
    Ok(())
}

// The call, which refuses by lengths first.
pub fn open_execution(
    set: ParameterSet,
    key: &[u8],
    public: &[u8],
    salt: &[u8],
    root: &[u8],
    first: &[u8],
    e: usize,
    second: u64,
    hidden: usize,
    out: &mut [u8],
    work: &mut [u8],
) -> Answer
    requires { second < 2 ^ (8 * set.shape.wide) }
    ensures { made result out.new work.new
        ≡ open_execution (scheme_of set.shape) key.now public.now salt.now root.now first.now
        e second hidden out.old work.old }
{
    lengths::open(
        set,
        key.len(),
        public.len(),
        salt.len(),
        root.len(),
        first.len(),
        out.len(),
        work.len(),
    )?;
    open_key(
        set, key, public, salt, root, first, e, second, hidden, out, work,
    )
}
