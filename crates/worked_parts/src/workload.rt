//! The texts of generated workloads, which were drawn outside by a few lines of another language.

use be_workload::workload;
use std::test::Fail;

const SCHEMA: &str = "int a0 0 999
int a1 0 999
int a2 0 999
int a3 0 999
int a4 0 999
int a5 0 999
int a6 0 999
int a7 0 999
int a8 0 999
int a9 0 999
";

const OF_SEVEN: &str = "SUB s0 a4 between 203 and 227 and a5 >= 182 and a5 = 83 and a6 = 344
SUB s1 a0 <= 991 and a7 = 743 and a9 >= 815
SUB s2 a5 between 239 and 274
PUB a0=232 a1=272 a3=651 a6=731 a7=105 a9=2
COST a0=232 a1=272 a3=651 a6=731 a7=105 a9=2
PUB a0=807 a1=958 a2=266 a3=978 a4=59 a5=246 a6=554 a7=62 a8=850 a9=817
COST a0=807 a1=958 a2=266 a3=978 a4=59 a5=246 a6=554 a7=62 a8=850 a9=817
";

const OF_ZERO: &str =
    "SUB s0 a0 in {444,747,90} and a3 = 299 and a0 between 726 and 759 and a1 <= 907
SUB s1 a2 <= 484 and a9 between 18 and 28
PUB a0=859 a1=992 a4=365 a5=689 a6=515 a7=737 a8=841 a9=542
COST a0=859 a1=992 a4=365 a5=689 a6=515 a7=737 a8=841 a9=542
";

const OF_THE_GREATEST: &str =
    "SUB s0 a7 = 483 and a3 in {879,166,485} and a1 = 503 and a6 between 359 and 408
PUB a0=532 a1=389 a2=365 a3=113 a4=904 a5=762 a6=737 a8=213 a9=489
COST a0=532 a1=389 a2=365 a3=113 a4=904 a5=762 a6=737 a8=213 a9=489
";

#[test]
fn workloads_are_as_drawn_outside(rt: HostRuntime) -> Result<(), Fail> {
    for (number, subs, events, wanted) in [
        (7, 3, 2, OF_SEVEN),
        (0, 2, 1, OF_ZERO),
        (9223372036854775807, 1, 1, OF_THE_GREATEST),
        (7, 0, 0, ""),
        // No attribute is assigned.
        (3055572, 0, 1, "PUB -\nCOST -\n"),
    ] {
        let made = workload(rt.alloc(), number, subs, events)?;
        assert_eq!(rt; str::from_utf8(made.schema.as_slice())?, SCHEMA);
        assert_eq!(rt;
            str::from_utf8(made.script.as_slice())?,
            wanted,
            "of {number}"
        );
    }
    Ok(())
}
