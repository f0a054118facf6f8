/// A node that is still to be made: its square, and the places in it.
#[derive(Clone, Copy, Debug)]
pub struct Task {
    // How many levels stand below it, and how many digits these take.
    pub below: u32,
    pub level: u32,
    // The prefix of its numbers.
    pub prefix: u64,
    // Its places, from the first to the one after the last.
    pub low: u32,
    pub high: u32,
}
