// Checks the example of document 01 that is not starred: in an empty store without sessions a collection takes 77 steps.
// The halves and the list are lent one by one, as the store's calls take them.

#![tactic(auto)]

use store::Control;

// The most steps that are tried.
const MANY: u64 = 1000;

// How many steps a control record takes until its phase is 0 again, if no more than `most`.
fn steps_to_rest(
    mut control: Control,
    h0: &mut [u32],
    h1: &mut [u32],
    list: &mut [u32],
    most: u64,
) -> Option<u64> {
    for steps in 1..=most {
        control = control.step(h0, h1, list).control;
        if control.cursor.phase == Control::REST {
            return Some(steps);
        }
    }
    None
}

fn main(rt: HostRuntime) {
    let mut h0 = [0u32; 16];
    let mut h1 = [0u32; 16];
    let mut list = [0u32; 5];
    let made = Control::make(&h0, &h1, &list);
    let steps = steps_to_rest(made.control, &mut h0, &mut h1, &mut list, MANY).unwrap_or(MANY);
    let _ = println!(rt; "empty store, steps from phase 0 back to 0: {steps}");
}
