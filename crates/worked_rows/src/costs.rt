//! What searches cost, over trees that were walked by hand.

use crate::rows::is_session;

// What a search for an event costs: the nodes that it visits and the rows that it tests, over trees that were walked by hand.
const COSTS: &[(&str, &str)] = &[
    (
        "SUB p1 price = 5\nSUB p2 price = 5\nSUB p3 price = 5\nSUB p4 price = 5\nSUB p5 price = 5\nSUB p6 price = 5\nSUB p7 price = 5\nSUB p8 price = 5\nSUB p9 price = 5\nSUB p10 price = 5\nSUB p11 price = 5\nSUB p12 price = 5\nSUB p13 price = 5\nSUB p14 price = 5\nSUB p15 price = 5\nSUB p16 price = 5\nSUB p17 price = 5\nCOST price=5\nCOST price=6\nCOST -\n",
        "OK 1\nOK 2\nOK 3\nOK 4\nOK 5\nOK 6\nOK 7\nOK 8\nOK 9\nOK 10\nOK 11\nOK 12\nOK 13\nOK 14\nOK 15\nOK 16\nOK 17\nCOST 17 12 17\nCOST 17 10 0\nCOST 17 1 0\n",
    ),
    (
        "SUB b1 side = buy\nSUB b2 side = buy\nSUB b3 side = buy\nSUB b4 side = buy\nSUB b5 side = buy\nSUB b6 side = buy\nSUB b7 side = buy\nSUB b8 side = buy\nSUB b9 side = buy\nSUB b10 side = buy\nSUB b11 side = buy\nSUB b12 side = buy\nSUB b13 side = buy\nSUB b14 side = buy\nSUB b15 side = buy\nSUB b16 side = buy\nSUB b17 side = buy\nSUB b18 side = buy\nSUB b19 side = buy\nSUB b20 side = buy\nSUB q1 qty = 0\nSUB q2 qty = 0\nSUB q3 qty = 0\nSUB q4 qty = 0\nSUB q5 qty = 0\nSUB q6 qty = 0\nSUB q7 qty = 0\nSUB q8 qty = 0\nSUB q9 qty = 0\nSUB q10 qty = 0\nSUB q11 qty = 0\nSUB q12 qty = 0\nSUB q13 qty = 0\nSUB q14 qty = 0\nSUB q15 qty = 0\nSUB q16 qty = 0\nSUB q17 qty = 0\nSUB q18 qty = 0\nSUB q19 qty = 0\nSUB q20 qty = 0\nCOST side=buy\nCOST side=buy qty=0\n",
        "OK 1\nOK 2\nOK 3\nOK 4\nOK 5\nOK 6\nOK 7\nOK 8\nOK 9\nOK 10\nOK 11\nOK 12\nOK 13\nOK 14\nOK 15\nOK 16\nOK 17\nOK 18\nOK 19\nOK 20\nOK 21\nOK 22\nOK 23\nOK 24\nOK 25\nOK 26\nOK 27\nOK 28\nOK 29\nOK 30\nOK 31\nOK 32\nOK 33\nOK 34\nOK 35\nOK 36\nOK 37\nOK 38\nOK 39\nOK 40\nCOST 40 4 20\nCOST 40 8 40\n",
    ),
    (
        "SUB i1 one = 7\nSUB i2 one = 7\nSUB i3 one = 7\nSUB i4 one = 7\nSUB i5 one = 7\nSUB i6 one = 7\nSUB i7 one = 7\nSUB i8 one = 7\nSUB i9 one = 7\nSUB i10 one = 7\nSUB i11 one = 7\nSUB i12 one = 7\nSUB i13 one = 7\nSUB i14 one = 7\nSUB i15 one = 7\nSUB i16 one = 7\nSUB i17 one = 7\nSUB i18 one = 7\nSUB i19 one = 7\nSUB i20 one = 7\nCOST one=7\n",
        "OK 1\nOK 2\nOK 3\nOK 4\nOK 5\nOK 6\nOK 7\nOK 8\nOK 9\nOK 10\nOK 11\nOK 12\nOK 13\nOK 14\nOK 15\nOK 16\nOK 17\nOK 18\nOK 19\nOK 20\nCOST 20 2 20\n",
    ),
    (
        "COST -\nSUB a price < 5\nCOST price=1\nCOST volume=1\nCOST price=1 price=2\nCOST price=1001\nUNSUB a\nCOST price={1, 2}\n",
        "COST 0 1 0\nOK 1\nCOST 1 1 1\nATTR volume\nTWICE price\nDOM price\nOK 2\nCOST 2 1 0\n",
    ),
    // of two parts the one of the narrower predicate
    (
        "SUB s1 price = 5\nSUB s2 price = 5\nSUB s3 price = 5\nSUB s4 price = 5\nSUB s5 price = 5\nSUB s6 price = 5\nSUB s7 price = 5\nSUB s8 price = 5\nSUB s9 price = 5\nSUB s10 price = 5\nSUB s11 price = 5\nSUB s12 price = 5\nSUB s13 price = 5\nSUB s14 price = 5\nSUB s15 price = 5\nSUB s16 price = 5\nSUB s17 price = 5\nSUB s18 qty = 0\nSUB s19 qty = 0\nSUB s20 qty = 0\nSUB s21 qty = 0\nSUB s22 qty = 0\nSUB s23 qty = 0\nSUB s24 qty = 0\nSUB s25 qty = 0\nSUB s26 qty = 0\nSUB s27 qty = 0\nSUB s28 qty = 0\nSUB s29 qty = 0\nSUB s30 qty = 0\nSUB s31 qty = 0\nSUB s32 qty = 0\nSUB s33 qty = 0\nSUB s34 qty = 0\nSUB s35 price = 7 and qty >= -4\nCOST qty=0\n",
        "OK 1\nOK 2\nOK 3\nOK 4\nOK 5\nOK 6\nOK 7\nOK 8\nOK 9\nOK 10\nOK 11\nOK 12\nOK 13\nOK 14\nOK 15\nOK 16\nOK 17\nOK 18\nOK 19\nOK 20\nOK 21\nOK 22\nOK 23\nOK 24\nOK 25\nOK 26\nOK 27\nOK 28\nOK 29\nOK 30\nOK 31\nOK 32\nOK 33\nOK 34\nOK 35\nCOST 35 5 17\n",
    ),
    // the rows that would stay outside a part count against it
    (
        "SUB s1 price = 5 and qty >= 1\nSUB s2 price = 5 and qty >= 1\nSUB s3 price = 5 and qty >= 1\nSUB s4 price = 5 and qty >= 1\nSUB s5 price = 5 and qty >= 1\nSUB s6 price = 5 and qty >= 1\nSUB s7 price = 5 and qty >= 1\nSUB s8 price = 5 and qty >= 1\nSUB s9 price = 5 and qty >= 1\nSUB s10 price = 5 and qty >= 1\nSUB s11 qty >= 1\nSUB s12 qty >= 1\nSUB s13 qty >= 1\nSUB s14 qty >= 1\nSUB s15 qty >= 1\nSUB s16 qty >= 1\nSUB s17 qty >= 1\nCOST price=5\n",
        "OK 1\nOK 2\nOK 3\nOK 4\nOK 5\nOK 6\nOK 7\nOK 8\nOK 9\nOK 10\nOK 11\nOK 12\nOK 13\nOK 14\nOK 15\nOK 16\nOK 17\nCOST 17 1 0\n",
    ),
];

#[test]
fn costs_of_searches(rt: HostRuntime) {
    let alloc = rt.alloc();
    for (script, want) in COSTS {
        assert!(rt; is_session(&rt, alloc, script, want, 7), "{script}");
    }
}
