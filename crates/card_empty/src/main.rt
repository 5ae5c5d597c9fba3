// The card program, tried with no text: "Empty input prints the whole output `refused 18 1`."
#![tactic(auto)]

fn main(rt: HostRuntime) {
    card_program::run(rt);
}
