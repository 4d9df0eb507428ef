// Document 01's examples 1 to 11 on the code, one tank each: every call with its answer and what the tank holds after it.
#![tactic(auto)]

mod cases;
mod print;

fn main() {
    cases::one();
    cases::two();
    cases::three();
    cases::four();
    cases::five();
    cases::six();
    cases::seven();
    cases::eight();
    cases::nine();
    cases::ten();
    cases::eleven();
}
