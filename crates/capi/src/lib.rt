// The calls for C and Rust: a slice is a pointer and a length, and an answer is one number. include/banquet.h says it to a C programmer.
#![tactic(auto)]

ghost use Rattle.std.specs.Prelude.{◌≡◌, [], ◌∷◌};
ghost use Rattle.banquet.specs.Sets.{base_scheme};
ghost use Rattle.banquet.specs.Calls.{make_public_key, sign, verify, open_execution, verify_opening};
ghost use Rattle.banquet.specs.Card.{verify_card};
ghost use Rattle.verdict.specs.Code.{told, told_written, told_checked, told_made};

// Makes a public key.
#[unsafe(no_mangle)]
pub extern "C" fn banquet_public_key(key: &[u8], plaintext: &[u8], out: &mut [u8]) -> u32
    ensures { told result (out.new ∷ [])
        ≡ told_written (make_public_key base_scheme key.now plaintext.now out.old) }
{
    verdict::code(public_key::make_public_key(key, plaintext, out))
}

// Signs a message.
#[unsafe(no_mangle)]
pub extern "C" fn banquet_sign(
    key: &[u8],
    public: &[u8],
    message: &[u8],
    salt: &[u8],
    seeds: &[u8],
    out: &mut [u8],
    work: &mut [u8],
) -> u32
    ensures { told result (out.new ∷ work.new ∷ [])
        ≡ told_made (sign base_scheme key.now public.now message.now salt.now seeds.now
        out.old work.old) }
{
    verdict::code(signatures::sign(key, public, message, salt, seeds, out, work))
}

// Checks a signature.
#[unsafe(no_mangle)]
pub extern "C" fn banquet_verify(
    public: &[u8],
    message: &[u8],
    signature: &[u8],
    work: &mut [u8],
) -> u32
    ensures { told result (work.new ∷ [])
        ≡ told_checked (verify base_scheme public.now message.now signature.now work.old) }
{
    verdict::code(signatures::verify(public, message, signature, work))
}

// Opens one execution under given challenges.
#[unsafe(no_mangle)]
pub extern "C" fn banquet_open(
    key: &[u8],
    public: &[u8],
    salt: &[u8],
    seed: &[u8],
    execution: u32,
    first: &[u8],
    second: u32,
    hidden: u32,
    out: &mut [u8],
    work: &mut [u8],
) -> u32
    ensures { told result (out.new ∷ work.new ∷ [])
        ≡ told_made (open_execution base_scheme key.now public.now salt.now seed.now first.now
        execution second hidden out.old work.old) }
{
    verdict::code(openings::open(
        key,
        public,
        salt,
        seed,
        first,
        execution as usize,
        second,
        hidden as usize,
        out,
        work,
    ))
}

// Checks an opening.
#[unsafe(no_mangle)]
pub extern "C" fn banquet_verify_opening(public: &[u8], opening: &[u8], work: &mut [u8]) -> u32
    ensures { told result (work.new ∷ [])
        ≡ told_checked (verify_opening base_scheme public.now opening.now work.old) }
{
    verdict::code(openings::verify_opening(public, opening, work))
}

// Checks a card given as text.
#[unsafe(no_mangle)]
pub extern "C" fn banquet_verify_card(text: &[u8], work: &mut [u8]) -> u32
    ensures { told result (work.new ∷ []) ≡ told_checked (verify_card base_scheme text.now work.old) }
{
    verdict::code(card_text::verify_card(text, work))
}
