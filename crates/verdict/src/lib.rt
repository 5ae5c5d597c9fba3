// What is told of an answer: its number and its place, apart and as one number.
#![tactic(auto)]

ghost use Rattle.std.specs.Prelude.{◌≡◌};
ghost use Rattle.banquet.specs.Answer.{verdict, verdict_of};
ghost use Rattle.verdict.specs.Code.{code_of};

use banquet::{Answer, Refusal, Verdict};

fn at(number: u8, place: u8) -> Verdict
    ensures { result ≡ verdict number place }
{
    Verdict {
        number: number,
        place: place,
    }
}

// The number and the place that document 01 gives each answer; 0 and 0 for accepted.
pub fn verdict(answer: Answer) -> Verdict
    ensures { result ≡ verdict_of answer }
{
    match answer {
        Ok(()) => at(0, 0),
        Err(Refusal::KeyLength) => at(1, 0),
        Err(Refusal::PublicKeyLength) => at(2, 0),
        Err(Refusal::MessageLength) => at(3, 0),
        Err(Refusal::SaltLength) => at(4, 0),
        Err(Refusal::SeedLength) => at(5, 0),
        Err(Refusal::FileLength) => at(6, 0),
        Err(Refusal::WorkLength) => at(7, 0),
        Err(Refusal::ExecutionRange) => at(8, 0),
        Err(Refusal::HiddenPartyRange) => at(9, 0),
        Err(Refusal::SecondChallengeRange) => at(10, 0),
        Err(Refusal::ZeroInput(place)) => at(11, place),
        Err(Refusal::WrongKey) => at(12, 0),
        Err(Refusal::CommitmentDiffers(place)) => at(13, place),
        Err(Refusal::ShareDiffers(place)) => at(14, place),
        Err(Refusal::ProductDiffers(place)) => at(15, place),
        Err(Refusal::FirstHashDiffers) => at(16, 0),
        Err(Refusal::ThirdHashDiffers) => at(17, 0),
        Err(Refusal::TextForm(place)) => at(18, place),
    }
}

// "If an answer is an enum, a definition lists this paper's number and values for each of its cases": number * 65,536 + place.
pub fn code(answer: Answer) -> u32
    ensures { result ≡ code_of answer }
{
    let told = verdict(answer);
    told.number as u32 * 65536 + told.place as u32
}
