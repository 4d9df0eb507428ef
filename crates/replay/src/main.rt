// Runs a fixed list of calls, whose answers are known: see oracle/SAMPLE.md.
#![tactic(auto)]

fn main(rt: HostRuntime) {
    clerk::run(rt.stdin());
}
