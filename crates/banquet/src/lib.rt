// The types and limits that contracts and definitions share; specs/ defines the scheme.
#![tactic(auto)]

// "The message is over 32,768 bytes."
pub const MESSAGE_LIMIT: usize = 32768;

// "The work slice .. is under 65,536 bytes."
pub const WORK_LENGTH: usize = 65536;

// Why a call refuses; specs/Answer.antt has the number and the place of each.
#[derive(Clone, Copy, PartialEq, Eq, Debug)]
pub enum Refusal {
    KeyLength,
    PublicKeyLength,
    MessageLength,
    SaltLength,
    SeedLength,
    FileLength,
    WorkLength,
    ExecutionRange,
    HiddenPartyRange,
    SecondChallengeRange,
    ZeroInput(u8),
    WrongKey,
    CommitmentDiffers(u8),
    ShareDiffers(u8),
    ProductDiffers(u8),
    FirstHashDiffers,
    ThirdHashDiffers,
    TextForm(u8),
}

// The answer of a call: accepted, or the refusal that applies first.
pub type Answer = Result<(), Refusal>;

// What the papers call an answer's number and place; 0 and 0 for accepted.
#[derive(Clone, Copy)]
pub struct Verdict {
    pub number: u8,
    pub place: u8,
}

// A parameter set; specs/Shape.antt says what each number is, and has the sizes that follow from them.
#[derive(Clone, Copy)]
pub struct Shape {
    pub parties: usize,
    pub depth: usize,
    pub executions: usize,
    pub wide: usize,
    pub low: u64,
    pub y: u64,
    pub m1: usize,
    pub m2: usize,
    pub front: usize,
}

// What a byte of a text in hexadecimal is: a digit with its value, the end of a line, or anything else.
#[derive(Clone, Copy)]
pub enum Symbol {
    Value(u8),
    LineEnd,
    Other,
}
