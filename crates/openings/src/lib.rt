// Two of the five calls, for document 01's set: "open one execution under given draws; check such an opening".
#![tactic(auto)]

ghost use Rattle.std.specs.Prelude.{◌≡◌};
ghost use Rattle.banquet.specs.Sets.{base_scheme};
ghost use Rattle.banquet.specs.Calls.{checked, made, open_execution, verify_opening};

use banquet::Answer;
use sets::Parties16;

// Execution e below the root seed is opened: `first` is the first challenge's bytes, `second` the second challenge. Accepted, the output begins
// with the opening, and the work slice's first 65,536 bytes are zero; refused, both are untouched.
pub fn open(
    key: &[u8],
    public: &[u8],
    salt: &[u8],
    root: &[u8],
    first: &[u8],
    e: usize,
    second: u32,
    hidden: usize,
    output: &mut [u8],
    work: &mut [u8],
) -> Answer
    ensures { made result output.new work.new
        ≡ open_execution base_scheme key.now public.now salt.now root.now first.now
        e second hidden output.old work.old }
{
    let set = Parties16::SET;
    open_execution::open_execution(
        set,
        key,
        public,
        salt,
        root,
        first,
        e,
        second as u64,
        hidden,
        output,
        work,
    )
}

// An opening is checked. After 13 to 15 and on success the work slice's first 65,536 bytes are zero; else it is untouched.
pub fn verify_opening(public: &[u8], opening: &[u8], work: &mut [u8]) -> Answer
    ensures { checked result work.new
        ≡ verify_opening base_scheme public.now opening.now work.old }
{
    let set = Parties16::SET;
    check_opening::check(set, public, opening, work)
}
