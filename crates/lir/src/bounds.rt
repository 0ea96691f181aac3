// What names a handle, an exit or a place.
use codes::bounds::UpTo;

// The number by which a writer names one of its values.
pub type Handle = UpTo<1023>;

pub const LAST_EXIT: u16 = 255;

// The label of an exit, by which a guard leaves a trace.
pub type Exit = UpTo<LAST_EXIT>;

pub const LAST_STEP: u16 = 4095;

// The place of an exit: the programme step at which work resumes after it.
pub type Place = UpTo<LAST_STEP>;
