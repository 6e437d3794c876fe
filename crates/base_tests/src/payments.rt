//! Payments.

use days_core::Rents;
use payment_rules::{Payment, payment, rent_split};

const RENTS: Rents = Rents {
    contract_rent: 700,
    utility: 60,
};

/// The annual and the adjusted income, the welfare rent and whether the household is exempt, how many of how many are
/// eligible, and what it then pays, and is paid: ttp, tenant rent, reimbursement and assistance.
type PaymentCase = (u32, u32, u32, bool, [u32; 2], [u32; 4]);

// By the rule: 8,488 / 40 = 212.2; 8,500 / 40 = 212.5 and so 213; 9,600 / 120 = 80. Half of 548 is 274, and a third of it
// 182.7; half of 735 is 367.5 and so 368; eleven of twelve parts of 760 are 696.7, and a third of 1 is 0.
const PAYMENTS: [PaymentCase; 12] = [
    (9_600, 8_488, 0, false, [1, 1], [212, 152, 0, 548]),
    (8_900, 8_500, 0, false, [2, 2], [213, 153, 0, 547]),
    (9_600, 0, 0, false, [1, 1], [80, 20, 0, 680]),
    (0, 0, 300, false, [1, 1], [300, 240, 0, 460]),
    (0, 0, 0, false, [1, 1], [25, 0, 35, 735]),
    (0, 0, 0, true, [1, 1], [0, 0, 60, 760]),
    (60_000, 60_000, 0, false, [1, 1], [1_500, 700, 0, 0]),
    (9_600, 8_488, 0, false, [1, 2], [212, 426, 0, 274]),
    (9_600, 8_488, 0, false, [1, 3], [212, 517, 0, 183]),
    (0, 0, 0, false, [1, 2], [25, 332, 0, 368]),
    (0, 0, 0, true, [11, 12], [0, 3, 0, 697]),
    (0, 0, 759, false, [1, 3], [759, 700, 0, 0]),
];

#[test]
fn the_greatest_of_four_splits_the_rents(rt: HostRuntime) {
    for (annual, adjusted, welfare, exempt, [eligible, size], paid) in &PAYMENTS {
        assert!(rt; *eligible >= 1 && *eligible <= *size && *size <= 12);
        let expected = payment_of(*paid);
        let found = payment(
            *annual, *adjusted, *welfare, *exempt, RENTS, *eligible, *size,
        );
        assert!(rt; found == expected, "{annual} {adjusted}");
        assert!(rt;
            rent_split(expected.ttp, RENTS, *eligible, *size) == expected,
            "{annual} {adjusted}"
        );
    }
}

fn payment_of(paid: [u32; 4]) -> Payment {
    let [ttp, tenant_rent, reimbursement, assistance] = paid;
    Payment {
        ttp,
        tenant_rent,
        reimbursement,
        assistance,
    }
}
