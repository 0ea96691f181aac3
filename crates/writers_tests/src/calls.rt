// Tables of calls, each on a writer that has two values.
use crate::Call;
use assembly::mnemonic::Sort;
use lir::fault::Refusal::{Malformed, Undefined};

// Every listed op, at the largest cell, exit and number of lives.
pub const LISTED: [Call; 16] = [
    Call(Sort::Value, 1, 0, 1, 63, 0, 0, None),
    Call(Sort::Value, 2, 0, 1, 63, 0, 0, None),
    Call(Sort::Value, 3, 0, 1, 63, 0, 0, None),
    Call(Sort::Value, 4, 0, 1, 63, 0, 0, None),
    Call(Sort::Value, 5, 0, 1, 63, 0, 0, None),
    Call(Sort::Value, 6, 0, 1, 63, 0, 0, None),
    Call(Sort::Value, 7, 0, 1, 63, 0, 0, None),
    Call(Sort::Value, 10, 0, 1, 63, 0, 0, None),
    Call(Sort::Value, 11, 0, 1, 63, 0, 0, None),
    Call(Sort::Value, 12, 0, 1, 63, 0, 0, None),
    Call(Sort::Value, 13, 0, 1, 63, 0, 0, None),
    Call(Sort::Store, 16, 0, 1, 63, 0, 0, None),
    Call(Sort::Store, 17, 0, 1, 63, 0, 0, None),
    Call(Sort::Guard, 18, 0, 0, 0, 255, 4, None),
    Call(Sort::Guard, 19, 0, 0, 0, 255, 4, None),
    Call(Sort::Guard, 20, 0, 0, 0, 255, 4, None),
];

// One beyond each limit, ops that no sort lists, and ops of another sort.
pub const MALFORMED: [Call; 33] = [
    Call(Sort::Value, 12, 0, 0, 64, 0, 0, Some(Malformed)),
    Call(Sort::Store, 16, 0, 0, 64, 0, 0, Some(Malformed)),
    Call(Sort::Value, 12, 0, 0, 65535, 0, 0, Some(Malformed)),
    Call(Sort::Guard, 18, 0, 0, 0, 256, 0, Some(Malformed)),
    Call(Sort::Guard, 18, 0, 0, 0, 255, 5, Some(Malformed)),
    Call(Sort::Guard, 19, 0, 0, 0, 256, 0, Some(Malformed)),
    Call(Sort::Guard, 19, 0, 0, 0, 255, 5, Some(Malformed)),
    Call(Sort::Guard, 20, 0, 0, 0, 256, 0, Some(Malformed)),
    Call(Sort::Guard, 20, 0, 0, 0, 255, 5, Some(Malformed)),
    Call(Sort::Value, 0, 0, 0, 0, 0, 0, Some(Malformed)),
    Call(Sort::Value, 8, 0, 0, 0, 0, 0, Some(Malformed)),
    Call(Sort::Value, 9, 0, 0, 0, 0, 0, Some(Malformed)),
    Call(Sort::Value, 14, 0, 0, 0, 0, 0, Some(Malformed)),
    Call(Sort::Value, 31, 0, 0, 0, 0, 0, Some(Malformed)),
    Call(Sort::Value, 255, 0, 0, 0, 0, 0, Some(Malformed)),
    Call(Sort::Store, 0, 0, 0, 0, 0, 0, Some(Malformed)),
    Call(Sort::Store, 8, 0, 0, 0, 0, 0, Some(Malformed)),
    Call(Sort::Store, 9, 0, 0, 0, 0, 0, Some(Malformed)),
    Call(Sort::Store, 14, 0, 0, 0, 0, 0, Some(Malformed)),
    Call(Sort::Store, 31, 0, 0, 0, 0, 0, Some(Malformed)),
    Call(Sort::Store, 255, 0, 0, 0, 0, 0, Some(Malformed)),
    Call(Sort::Guard, 0, 0, 0, 0, 0, 0, Some(Malformed)),
    Call(Sort::Guard, 8, 0, 0, 0, 0, 0, Some(Malformed)),
    Call(Sort::Guard, 9, 0, 0, 0, 0, 0, Some(Malformed)),
    Call(Sort::Guard, 14, 0, 0, 0, 0, 0, Some(Malformed)),
    Call(Sort::Guard, 31, 0, 0, 0, 0, 0, Some(Malformed)),
    Call(Sort::Guard, 255, 0, 0, 0, 0, 0, Some(Malformed)),
    Call(Sort::Value, 16, 0, 0, 0, 0, 0, Some(Malformed)),
    Call(Sort::Value, 18, 0, 0, 0, 0, 0, Some(Malformed)),
    Call(Sort::Store, 2, 0, 0, 0, 0, 0, Some(Malformed)),
    Call(Sort::Store, 20, 0, 0, 0, 0, 0, Some(Malformed)),
    Call(Sort::Guard, 1, 0, 0, 0, 0, 0, Some(Malformed)),
    Call(Sort::Guard, 17, 0, 0, 0, 0, 0, Some(Malformed)),
];

// Operands and lives that are not yet defined; a malformed call is refused for that first.
pub const UNDEFINED: [Call; 10] = [
    Call(Sort::Value, 2, 2, 0, 0, 0, 0, Some(Undefined)),
    Call(Sort::Value, 2, 0, 2, 0, 0, 0, Some(Undefined)),
    Call(Sort::Value, 13, 1023, 0, 0, 0, 0, Some(Undefined)),
    Call(Sort::Store, 16, 2, 0, 0, 0, 0, Some(Undefined)),
    Call(Sort::Store, 17, 0, 2, 0, 0, 0, Some(Undefined)),
    Call(Sort::Guard, 18, 2, 0, 0, 0, 0, Some(Undefined)),
    Call(Sort::Guard, 20, 1023, 0, 0, 0, 4, Some(Undefined)),
    Call(Sort::Store, 16, 2, 0, 64, 0, 0, Some(Malformed)),
    Call(Sort::Guard, 19, 2, 0, 0, 256, 0, Some(Malformed)),
    Call(Sort::Guard, 19, 2, 0, 0, 0, 5, Some(Malformed)),
];

// Fields that the op does not use may hold anything.
pub const UNUSED: [Call; 7] = [
    Call(Sort::Value, 1, 1023, 1023, 64, 300, 5, None),
    Call(Sort::Value, 12, 1023, 1023, 63, 256, 0, None),
    Call(Sort::Value, 13, 0, 1023, 64, 256, 0, None),
    Call(Sort::Value, 4, 0, 1, 64, 256, 0, None),
    Call(Sort::Store, 16, 0, 1023, 63, 256, 0, None),
    Call(Sort::Store, 17, 0, 1, 64, 256, 0, None),
    Call(Sort::Guard, 18, 0, 1023, 64, 255, 4, None),
];
