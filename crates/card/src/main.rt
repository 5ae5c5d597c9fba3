// Checks a card: its text comes from standard input, and `accepted`, or `refused` with number and place, goes to standard output.
#![tactic(auto)]

fn main(rt: HostRuntime) {
    card_program::run(rt);
}
