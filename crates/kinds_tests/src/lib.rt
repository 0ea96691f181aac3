// Tests of the three kinds against tables.
#![tactic(auto)]

use codes::bounds::Code;
use codes::kind::Kind;
use lir::apply::apply;
use lir::instruction::Op;

pub mod rows;

// An op, two codes, and the code that they give.
#[derive(Clone, Copy)]
pub struct Row(pub Op, pub u32, pub u32, pub u32);

// What the library computes for a row.
pub fn computed<K: Kind>(row: &Row) -> u32 {
    let Row(op, p, q, _) = *row;
    apply::<K>(op, Code::new(p), Code::new(q)).bits
}

#[cfg(test)]
mod tests {
    use super::*;
    use codes::count::Count;
    use codes::pressure::{Bar20, Bar100};
    use std::process::Abort;

    fn agree<K: Kind>(rt: &impl Abort, rows: &[Row]) {
        for row in rows {
            assert_eq!(rt; computed::<K>(row), row.3);
        }
    }

    #[test]
    fn every_row_agrees(rt: HostRuntime) {
        agree::<Count>(&rt, &rows::COUNTS);
        agree::<Bar20>(&rt, &rows::PRESSURES_20);
        agree::<Bar100>(&rt, &rows::PRESSURES_100);
    }

    #[test]
    fn each_kind_names_its_one_and_its_byte(rt: HostRuntime) {
        assert_eq!(rt; <Count as Kind>::ONE.bits, 1);
        assert_eq!(rt; <Bar20 as Kind>::ONE.bits, 20);
        assert_eq!(rt; <Bar100 as Kind>::ONE.bits, 100);
        assert_eq!(rt; <Count as Kind>::FILE_BYTE, 0);
        assert_eq!(rt; <Bar20 as Kind>::FILE_BYTE, 1);
        assert_eq!(rt; <Bar100 as Kind>::FILE_BYTE, 2);
    }

    #[test]
    fn pressure_sums_may_not_be_regrouped(rt: HostRuntime) {
        let most = Code::new(2147483647);
        let one = Code::new(1);
        assert_eq!(rt;
            <Bar100 as Kind>::difference(<Bar100 as Kind>::sum(most, one), one).bits,
            2147483646
        );
        assert_eq!(rt;
            <Bar100 as Kind>::sum(most, <Bar100 as Kind>::difference(one, one)).bits,
            2147483647
        );
    }
}
