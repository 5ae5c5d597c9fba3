// The numbers of an execution among those drawn for all: its second challenge and its hidden party.
#![tactic(auto)]

ghost use Rattle.std.specs.Prelude.{◌≡◌, ◌+◌, ◌*◌, ◌≤◌, length};
ghost use Rattle.slices.specs.Numbers.{number_at};
ghost use Rattle.banquet.specs.Hash.{evaluation_point, party_of};

use sets::ParameterSet;

// "one second draw R each; a draw below 20 has 20 added"
pub fn second(set: ParameterSet, draws: &[u8], e: usize) -> u64
    requires { e * set.shape.wide + set.shape.wide ≤ length draws.now }
    ensures { result ≡ evaluation_point set.shape.m2 (number_at set.shape.wide e draws.now) }
{
    let least = set.shape.m2 as u64;
    let x = numbers::load(draws, e * set.shape.wide, set.shape.wide);
    if x < least {
        return x + least;
    }
    x
}

// "one number each, modulo 16 the hidden party"
pub fn hidden(set: ParameterSet, draws: &[u8], e: usize) -> usize
    requires { e * 4 + 4 ≤ length draws.now }
    ensures { result ≡ party_of set.shape.parties (number_at 4 e draws.now) }
{
    let x = numbers::load(draws, e * 4, 4);
    (x % (set.shape.parties as u64)) as usize
}
