// What a caller may hand in: any numbers.
use codes::bounds::Code;

// The numbers of a call but for its lives, which are lent as a slice, and which two sorts of calls do not have. A field
// that the op does not use is ignored, whatever it holds. The op stays a number: one that is not listed may be handed
// in, and is for the writer to refuse.
#[derive(Clone, Copy)]
pub struct Fields<N> {
    pub op: u8,
    pub a: N,
    pub b: N,
    pub cell: u16,
    pub code: Code,
    pub exit: u16,
}
