//! What a session hands out, how it is answered, and notices.
use crate::talk::follow;

/// Conversations, each named for what it shows.
const TALKS: &str = "\
new hands out each command: reports, give-ups and words on offers are handed out, and answered as what became of them says
in A 1 98=0|108=30|1137=9|
out A 1 98=0|108=30|1137=9|
in AE 2 571=R1|880=M1|55=XF6|32=10|31=101.5|552=1|54=1|1=H1|
hand E1 reports R1 of M1: H1 buys 10 XF6 at 101500000 on the open day
answer matched
out AR 2 571=R1|880=M1|939=0|
answer matched
in AE 3 571=R1|880=M1|55=XF6|32=10|31=101.5|552=1|54=1|1=H1|
hand E1 reports R1 of M1: H1 buys 10 XF6 at 101500000 on the open day
answer NoDay
out AR 3 571=R1|880=M1|939=1|751=99|58=NoDay|
in AE 4 571=R1|880=M1|55=XF6|32=10|31=101.5|552=1|54=1|1=H1|
hand E1 reports R1 of M1: H1 buys 10 XF6 at 101500000 on the open day
answer Memory
out AR 4 571=R1|880=M1|939=1|751=99|58=Memory|
in J 5 70=L1|71=0|53=10|124=1|17=R1|78=1|79=A1|80=10|
hand E1 gives up L1 of R1, 10 lots: A1 10
answer offered 1
out P 5 70=L1|87=0|
in J 6 70=L1|53=10|124=1|17=R1|78=1|79=A1|80=10|
hand E1 gives up L1 of R1, 10 lots: A1 10
answer Full
out P 6 70=L1|87=1|88=99|58=Full|
in AT 7 755=1|87=0|
hand E1 claims 1
answer claimed
in AT 8 755=1|87=0|
hand E1 claims 1
answer OfferClosed
out j 7 45=8|379=1|372=AT|380=0|58=OfferClosed|
in AT 9 755=001|87=00|
hand E1 claims 1
answer LimitReached ACCT
out j 8 45=9|379=1|372=AT|380=0|58=LimitReached ACCT A1|
in AT 10 755=16000000|87=1|
hand E1 refuses 16000000 by 1
answer refused
in AT 11 755=1|87=2|
hand E1 refuses 1 by 2
answer Memory
out j 9 45=11|379=1|372=AT|380=0|58=Memory|
in AT 12 755=1|87=5|
hand E1 refuses 1 by 5
in AT 13 755=1|87=6|
in AT 14 755=1|87=7|
hand E1 reverses 1
answer reversed
in AT 15 755=1|87=7|
hand E1 reverses 1
answer Full
out j 10 45=15|379=1|372=AT|380=0|58=Full|
in AT 16 755=1|87=3|
out 3 11 45=16|371=87|372=AT|373=5|
new waits for an answer of its kind: an outcome of another kind leaves the question open; an answer that came closes it
in A 1 98=0|108=30|1137=9|
out A 1 98=0|108=30|1137=9|
in AE 2 571=R1|880=M1|55=XF6|32=10|31=101.5|552=1|54=1|1=H1|
hand E1 reports R1 of M1: H1 buys 10 XF6 at 101500000 on the open day
answer offered 1
answer claimed
answer refused
answer reversed
answer opened
answer rows 1
answer stranger
answer open
out AR 2 571=R1|880=M1|939=0|
answer open
answer NoDay
in J 3 70=L1|53=10|124=1|17=R1|78=1|79=A1|80=10|
hand E1 gives up L1 of R1, 10 lots: A1 10
answer matched
answer claimed
answer refused
answer reversed
answer opened
answer NoDay
out P 3 70=L1|87=1|88=99|58=NoDay|
answer offered 1
in AT 4 755=1|87=0|
hand E1 claims 1
answer matched
answer offered 1
answer refused
answer reversed
answer opened
answer claimed
answer OfferClosed
in AT 5 755=1|87=1|
hand E1 refuses 1 by 1
answer matched
answer offered 1
answer claimed
answer reversed
answer opened
answer refused
answer OfferClosed
in AT 6 755=1|87=7|
hand E1 reverses 1
answer matched
answer offered 1
answer claimed
answer refused
answer opened
answer OfferClosed
out j 4 45=6|379=1|372=AT|380=0|58=OfferClosed|
answer reversed
in AN 7 710=Q1|724=0|1=A1|
hand E1 asks for the positions of A1
answer NoDay
answer Memory
answer Full
answer matched
answer offered 1
answer claimed
answer refused
answer reversed
answer opened
answer rows 1
out AO 5 721=Q1-0|710=Q1|728=0|729=0|727=1|1=A1|
out AP 6 721=Q1-1|710=Q1|728=0|715=20260105|1=A1|55=XF6|702=1|703=TQ|704=10|705=0|
answer rows 1
new tells positions: a question for positions is answered by how many follow, and each; an account that isn't the firm's is refused
in A 1 98=0|108=30|1137=9|
out A 1 98=0|108=30|1137=9|
in AN 2 710=Q1|724=0|1=A1|
hand E1 asks for the positions of A1
answer rows 1
out AO 2 721=Q1-0|710=Q1|728=0|729=0|727=1|1=A1|
out AP 3 721=Q1-1|710=Q1|728=0|715=20260105|1=A1|55=XF6|702=1|703=TQ|704=10|705=0|
in AN 3 710=Q2|724=0|1=A1|
hand E1 asks for the positions of A1
answer rows 0
out AO 4 721=Q2-0|710=Q2|728=2|729=0|727=0|1=A1|
in AN 4 710=Q3|724=0|1=A1|
hand E1 asks for the positions of A1
answer stranger
out AO 5 721=Q3-0|710=Q3|728=3|729=2|727=0|1=A1|
in 2 5 7=3|16=4|
out AP 3 43=Y|122=20260105-09:00:00.000|721=Q1-1|710=Q1|728=0|715=20260105|1=A1|55=XF6|702=1|703=TQ|704=10|705=0|
out AO 4 43=Y|122=20260105-09:00:00.000|721=Q2-0|710=Q2|728=2|729=0|727=0|1=A1|
new tells notices: notices are sent as their messages, and kept
in A 1 98=0|108=30|1137=9|
out A 1 98=0|108=30|1137=9|
notice matched
out AE 2 571=7-B|572=R1|573=0|880=M1|55=XF6|32=10|31=101.5|75=20260105|552=1|54=1|1=A1|
notice offered
out AS 3 755=1|71=0|794=8|87=6|55=XF6|54=1|53=10|6=101.5|75=20260105|78=1|79=A1|80=10|
notice claimed
out AS 4 755=1|71=0|794=9|87=0|55=XF6|54=1|53=10|6=101.5|75=20260105|78=1|79=A1|80=10|
notice reversed
out AS 5 755=1|71=0|794=9|87=7|55=XF6|54=1|53=10|6=101.5|75=20260105|78=1|79=A1|80=10|
in 2 2 7=4|16=4|
out AS 4 43=Y|122=20260105-09:00:00.000|755=1|71=0|794=9|87=0|55=XF6|54=1|53=10|6=101.5|75=20260105|78=1|79=A1|80=10|
";

#[test]
fn what_is_asked_is_handed_out_and_answered(rt: HostRuntime) {
    follow(&rt, rt.alloc(), TALKS);
}
