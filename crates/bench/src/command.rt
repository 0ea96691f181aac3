// What a bench is asked for.

// What stands at the foot: it keeps the instructions, in so many places, or runs each as it arrives.
#[derive(Clone, Copy)]
pub enum FootSpec {
    Buffer(u16),
    Evaluator,
}
