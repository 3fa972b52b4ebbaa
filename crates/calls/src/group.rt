// What the length of all active nodes answers, as the Rust's GroupMaxUpdateLength: a length, or what stands in the way.

#[derive(Clone, Copy)]
pub enum GroupMaxUpdateLength {
    NonZeroGrow(i64, bool), // every active node may move so far; whether some boundary is empty
    Unlimited(bool), // NonZeroGrow of Weight::MAX: no limit; whether some boundary is empty
    Conflicts(usize, usize), // how many conflicts and how many pending stops are listed
}
