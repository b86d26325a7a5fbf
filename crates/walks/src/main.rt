// Runs days in the field beside a slow twin, on small days, and tells one day as a story.
#![tactic(auto)]

mod beside;
mod histories;
mod search;
mod state;
mod story;
mod tally;
mod twin;

use tally::Tally;

fn main(rt: HostRuntime) {
    let mut tally = Tally::default();
    story::run(&rt, &mut tally);
    histories::run(&mut tally);
    // A line that is lost shows in what the program wrote.
    let _ = print!(rt; "{tally}");
}
