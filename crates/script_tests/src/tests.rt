// Lines that end a script, each with what was expected there.
use assembly::kinds::KindName;
use script::error::{Error, Expected};
use script::session::Session;
use script::words::Words;
use std::alloc::Global;
use std::process::Abort;

fn fault(heap: Global, mut session: Session, line: &str) -> Option<Error> {
    session.line(heap, line).err()
}

fn unread(rt: &impl Abort, heap: Global, line: &str, expected: Expected) {
    assert_eq!(rt;
        fault(heap, Session::of(KindName::Count), line),
        Some(Error::Unread(expected))
    );
}

#[test]
fn words_are_checked(rt: HostRuntime) {
    let heap = rt.alloc();
    unread(&rt, heap, "kinds", Expected::Action);
    unread(&rt, heap, "kind bar50", Expected::Kind);
    unread(&rt, heap, "foot", Expected::Foot);
    unread(&rt, heap, "foot buffer 65536", Expected::Places);
    unread(&rt, heap, "imm", Expected::Code);
    unread(&rt, heap, "run now", Expected::Nothing);
    unread(&rt, heap, "st 0 65536", Expected::CellNumber);
    unread(&rt, heap, "xt 0 65536", Expected::Exit);
}

#[test]
fn numbers_are_checked(rt: HostRuntime) {
    let heap = rt.alloc();
    unread(&rt, heap, "cell 64 1", Expected::Cell);
    unread(&rt, heap, "cell 63 4294967296", Expected::Code);
    unread(&rt, heap, "cell 63 -2147483649", Expected::Code);
    unread(&rt, heap, "add 0 1024", Expected::Handle);
    unread(&rt, heap, "xt 0 0 1 x", Expected::Handle);
    unread(&rt, heap, "value 256 0 0 0 0", Expected::Op);
}

#[test]
fn a_number_ends_at_its_most(rt: HostRuntime) {
    let mut words = Words::new("7 8 x");
    let beyond = Err(Error::Unread(Expected::Op));
    assert_eq!(rt; words.number(7, Expected::Op), Ok(7));
    assert_eq!(rt; words.number(7, Expected::Op), beyond);
    assert_eq!(rt; words.number(7, Expected::Op), beyond);
    assert_eq!(rt; words.number(7, Expected::Op), beyond);
}

#[test]
fn a_kind_and_a_foot_come_first(rt: HostRuntime) {
    let heap = rt.alloc();
    assert_eq!(rt;
        fault(heap, Session::new(), "foot evaluator"),
        Some(Error::NoKind)
    );
    assert_eq!(rt;
        fault(heap, Session::of(KindName::Bar20), "end"),
        Some(Error::NoFoot)
    );
    assert_eq!(rt;
        fault(heap, Session::of(KindName::Bar20), "cell 63 -1"),
        None
    );
    assert_eq!(rt; fault(heap, Session::new(), "  # only a comment"), None);
}
