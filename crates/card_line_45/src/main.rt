// The card program, tried with a card and one byte more: "45 for bytes after the last".
#![tactic(auto)]

fn main(rt: HostRuntime) {
    card_program::run(rt);
}
