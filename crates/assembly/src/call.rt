// Calls as they are written.
use lir::bounds::Handle;
use raw_calls::fields::Fields;

// A call on a writer, in its raw form, so that any numbers can be handed in. A guard takes any count of lives:
// to refuse too many is for the writer.
#[derive(Drop)]
pub enum Call {
    Value(Fields<Handle>),
    Store(Fields<Handle>),
    Guard(Fields<Handle>, Vec<Handle>),
    End,
}
