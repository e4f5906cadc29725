//! What firms send to a server on a day, and what they receive.

use crate::clients::{Ending, Visit};

/// A Logon, and its answer.
pub const LOGON: &str = "in A 1 98=0|108=30|1137=9|\nout A 1 98=0|108=30|1137=9|\n";

/// A Logon of the executing firm, its answer, and the notice of its trade.
pub const LOGON_OF_A_TRADE: &str = "\
in A 1 98=0|108=30|1137=9|
out A 1 98=0|108=30|1137=9|
out AE 2 571=7-B|572=R1|573=0|880=M1|55=XF6|32=10|31=101.5|75=20260105|552=1|54=1|1=H1|
";

/// The same for a trade of fifty lots.
pub const LOGON_OF_A_LARGE_TRADE: &str = "\
in A 1 98=0|108=30|1137=9|
out A 1 98=0|108=30|1137=9|
out AE 2 571=7-B|572=R1|573=0|880=M1|55=XF6|32=50|31=101.5|75=20260105|552=1|54=1|1=H1|
";

/// What the carrying firm is sent of the offer.
pub const OFFER: &str =
    "out AS 2 755=1|71=0|794=8|87=6|55=XF6|54=1|53=10|6=101.5|75=20260105|78=1|79=A1|80=10|\n";

/// A firm gives up all lots of its report.
pub const GIVES_UP_LINES: &str = "\
in A 1 98=0|108=30|1137=9|
out A 1 98=0|108=30|1137=9|
out AE 2 571=7-B|572=R1|573=0|880=M1|55=XF6|32=10|31=101.5|75=20260105|552=1|54=1|1=H1|
in J 2 70=L1|71=0|53=10|124=1|17=R1|78=1|79=A1|80=10|
out P 3 70=L1|87=0|
";

/// A firm gives up forty lots of its report of fifty, each by a line of its own, and then one more, for which it has no share: 40 offers
/// are all of 1 in 100.
pub const GIVES_UP_TOO_OFTEN: Visit = Visit {
    firm: "E1",
    parts: &[
        "\
in A 1 98=0|108=30|1137=9|
out A 1 98=0|108=30|1137=9|
out AE 2 571=7-B|572=R1|573=0|880=M1|55=XF6|32=50|31=101.5|75=20260105|552=1|54=1|1=H1|
in J 2 70=L1|71=0|53=16|124=1|17=R1|78=16|79=A1|80=1|79=A1|80=1|79=A1|80=1|79=A1|80=1|79=A1|80=1|79=A1|80=1|79=A1|80=1|79=A1|80=1|79=A1|80=1|79=A1|80=1|79=A1|80=1|79=A1|80=1|79=A1|80=1|79=A1|80=1|79=A1|80=1|79=A1|80=1|
out P 3 70=L1|87=0|
in J 3 70=L2|71=0|53=16|124=1|17=R1|78=16|79=A1|80=1|79=A1|80=1|79=A1|80=1|79=A1|80=1|79=A1|80=1|79=A1|80=1|79=A1|80=1|79=A1|80=1|79=A1|80=1|79=A1|80=1|79=A1|80=1|79=A1|80=1|79=A1|80=1|79=A1|80=1|79=A1|80=1|79=A1|80=1|
out P 4 70=L2|87=0|
in J 4 70=L3|71=0|53=8|124=1|17=R1|78=8|79=A1|80=1|79=A1|80=1|79=A1|80=1|79=A1|80=1|79=A1|80=1|79=A1|80=1|79=A1|80=1|79=A1|80=1|
out P 5 70=L3|87=0|
in J 5 70=L4|71=0|53=1|124=1|17=R1|78=1|79=A1|80=1|
out P 6 70=L4|87=1|88=99|58=Full|
in J 6 70=L4|71=0|53=1|124=1|17=R1|78=1|79=A1|80=1|
out P 7 70=L4|87=1|88=99|58=Full|
",
    ],
    ending: Ending::LogsOut(7),
};

/// Another firm gives up a lot of its own report.
pub const GIVES_UP_OF_ANOTHER: Visit = Visit {
    firm: "E2",
    parts: &[
        "\
in A 1 98=0|108=30|1137=9|
out A 1 98=0|108=30|1137=9|
out AE 2 571=7-S|572=R2|573=0|880=M1|55=XF6|32=50|31=101.5|75=20260105|552=1|54=2|1=H2|
in J 2 70=L1|71=0|53=1|124=1|17=R2|78=1|79=A1|80=1|
out P 3 70=L1|87=0|
",
    ],
    ending: Ending::LogsOut(3),
};

/// A firm gives up all lots of its report, and logs out.
pub const GIVES_UP: Visit = Visit {
    firm: "E1",
    parts: &[GIVES_UP_LINES],
    ending: Ending::LogsOut(3),
};

/// A firm gives up its lots of the other group.
pub const GIVES_UP_IN_G2: Visit = Visit {
    firm: "E1",
    parts: &[
        "\
in A 1 98=0|108=30|1137=9|
and J 2 70=L1|71=0|53=10|124=1|17=R1|78=1|79=A1|80=10|
out A 1 98=0|108=30|1137=9|
out AE 2 571=7-B|572=R1|573=0|880=M1|55=YF6|32=10|31=101.5|75=20260105|552=1|54=1|1=H1|
out P 3 70=L1|87=0|
",
    ],
    ending: Ending::HangsUp,
};

/// A firm gives up its lots in two parts, and hangs up.
pub const GIVES_UP_TWICE: Visit = Visit {
    firm: "E1",
    parts: &[
        "\
in A 1 98=0|108=30|1137=9|
and J 2 70=L1|71=0|53=4|124=1|17=R1|78=1|79=A1|80=4|
and J 3 70=L2|71=0|53=6|124=1|17=R1|78=1|79=A1|80=6|
out A 1 98=0|108=30|1137=9|
out AE 2 571=7-B|572=R1|573=0|880=M1|55=XF6|32=10|31=101.5|75=20260105|552=1|54=1|1=H1|
out P 3 70=L1|87=0|
out P 4 70=L2|87=0|
",
    ],
    ending: Ending::HangsUp,
};

/// A firm gives up its lots in two parts, and the second of them only once the first was swept.
pub const GIVES_UP_AGAIN: Visit = Visit {
    firm: "E1",
    parts: &[
        "\
in A 1 98=0|108=30|1137=9|
and J 2 70=L1|71=0|53=4|124=1|17=R1|78=1|79=A1|80=4|
out A 1 98=0|108=30|1137=9|
out AE 2 571=7-B|572=R1|573=0|880=M1|55=XF6|32=10|31=101.5|75=20260105|552=1|54=1|1=H1|
out P 3 70=L1|87=0|
out AS 4 755=1|71=0|794=9|87=0|55=XF6|54=1|53=4|6=101.5|75=20260105|78=1|79=A1|80=4|
",
        "\
in J 3 70=L2|71=0|53=6|124=1|17=R1|78=1|79=A1|80=6|
out P 5 70=L2|87=0|
out AS 6 755=2|71=0|794=9|87=0|55=XF6|54=1|53=6|6=101.5|75=20260105|78=1|79=A1|80=6|
",
    ],
    ending: Ending::LogsOut(4),
};

/// A firm gives up its lots in three parts, and the last of them only once the first two were swept.
pub const GIVES_UP_ONE_MORE: Visit = Visit {
    firm: "E1",
    parts: &[
        "\
in A 1 98=0|108=30|1137=9|
and J 2 70=L1|71=0|53=4|124=1|17=R1|78=1|79=A1|80=4|
and J 3 70=L2|71=0|53=3|124=1|17=R1|78=1|79=A1|80=3|
out A 1 98=0|108=30|1137=9|
out AE 2 571=7-B|572=R1|573=0|880=M1|55=XF6|32=10|31=101.5|75=20260105|552=1|54=1|1=H1|
out P 3 70=L1|87=0|
out P 4 70=L2|87=0|
out AS 5 755=1|71=0|794=9|87=0|55=XF6|54=1|53=4|6=101.5|75=20260105|78=1|79=A1|80=4|
out AS 6 755=2|71=0|794=9|87=0|55=XF6|54=1|53=3|6=101.5|75=20260105|78=1|79=A1|80=3|
",
        "\
in J 4 70=L3|71=0|53=3|124=1|17=R1|78=1|79=A1|80=3|
out P 7 70=L3|87=0|
",
    ],
    ending: Ending::LogsOut(5),
};

/// The carrying firm is sent the offer.
pub const IS_OFFERED: Visit = Visit {
    firm: "C1",
    parts: &[
        "\
in A 1 98=0|108=30|1137=9|
out A 1 98=0|108=30|1137=9|
out AS 2 755=1|71=0|794=8|87=6|55=XF6|54=1|53=10|6=101.5|75=20260105|78=1|79=A1|80=10|
",
    ],
    ending: Ending::LogsOut(2),
};

/// What the firm sends comes in bursts: 4,019 bytes that begin no message and then a TestRequest of 77, which fill a read to its last
/// byte; and two TestRequests that lie some reads apart. Each is answered, though nothing more comes.
pub const COMES_IN_BURSTS: Visit = Visit {
    firm: "C1",
    parts: &[
        LOGON,
        "\
raw (x*4019)
in 1 2 112=T1|
out 0 2 112=T1|
",
        "\
in 1 3 112=T2|
raw (x*9000)
in 1 4 112=T3|
out 0 3 112=T2|
out 0 4 112=T3|
",
    ],
    ending: Ending::LogsOut(5),
};

/// A firm that the reference lacks; nothing is sent to it.
pub const STRANGER: Visit = Visit {
    firm: "E9",
    parts: &["in A 1 98=0|108=30|1137=9|\n"],
    ending: Ending::Waits,
};

/// A firm that doesn't begin with a Logon; nothing is sent to it, and nothing that it reports is entered.
pub const HASTY: Visit = Visit {
    firm: "E1",
    parts: &["in AE 1 571=R9|880=M9|55=XF6|32=10|31=101.5|552=1|54=1|1=H1|\n"],
    ending: Ending::Waits,
};

/// What the firm sends comes in one burst: a Logon, a Logout, and 40,000 bytes more, some of which are never read. Both answers come, and
/// then the connection is closed, without a reset.
pub const SENDS_ON_AFTER_ITS_LOGOUT: Visit = Visit {
    firm: "C1",
    parts: &[
        "\
in A 1 98=0|108=30|1137=9|
and 5 2
raw (x*40000)
out A 1 98=0|108=30|1137=9|
out 5 2
",
    ],
    ending: Ending::Waits,
};

/// The last firm of the reference logs on.
pub const LAST_FIRM: Visit = Visit {
    firm: "E3",
    parts: &[LOGON],
    ending: Ending::LogsOut(2),
};

/// A firm that sends nothing, and to which nothing is sent.
pub const SAYS_NOTHING: Visit = Visit {
    firm: "E1",
    parts: &[],
    ending: Ending::Waits,
};

/// A firm reports, gives up more than it has, and gives up four lots: one accepted give-up.
pub const GIVES_UP_FOUR: Visit = Visit {
    firm: "E1",
    parts: &[
        "\
in A 1 98=0|108=30|1137=9|
and AE 2 571=R7|880=M7|55=XF6|32=10|31=101.5|552=1|54=1|1=H1|
and J 3 70=L1|71=0|53=11|124=1|17=R1|78=1|79=A1|80=11|
and J 4 70=L1|71=0|53=4|124=1|17=R1|78=1|79=A1|80=4|
out A 1 98=0|108=30|1137=9|
out AE 2 571=7-B|572=R1|573=0|880=M1|55=XF6|32=10|31=101.5|75=20260105|552=1|54=1|1=H1|
out AR 3 571=R7|880=M7|939=0|
out P 4 70=L1|87=1|88=99|58=TooManyLots|
out P 5 70=L1|87=0|
",
    ],
    ending: Ending::HangsUp,
};

/// The same firm, again, gives up the other six.
pub const GIVES_UP_SIX: Visit = Visit {
    firm: "E1",
    parts: &[
        "\
in A 1 98=0|108=30|1137=9|
and J 2 70=L2|71=0|53=6|124=1|17=R1|78=1|79=A1|80=6|
out A 1 98=0|108=30|1137=9|
out AE 2 571=7-B|572=R1|573=0|880=M1|55=XF6|32=10|31=101.5|75=20260105|552=1|54=1|1=H1|
out P 3 70=L2|87=0|
",
    ],
    ending: Ending::HangsUp,
};
