// Runs the examples of documents 01 and 02 that aren't proved of the definitions, and compares the planner and its companions with a slow
// search over all plans and with direct counting, on small days.
#![tactic(auto)]

mod beside;
mod case;
mod days;
mod direct;
mod draw;
mod examples;
mod slow;
mod tally;

// How many places the work table of the program has.
const PLACES: usize = 30625;

fn main(rt: HostRuntime) {
    let mut table = [0; PLACES];
    examples::run(&rt, &mut table);
    days::run(&rt, &mut table);
}
